//! Callers of the laws of runs with parameters, most at the least x of 2 x - p >= 0.
ghost use Rattle.std.specs.Prelude.{◌≡◌, ◌↔◌, ◌∷◌, [], ℕ, ℤ, List, Err, Ok, negsuc, pos};
ghost use Rattle.whole_numbers.specs.Affine.{form_of};
ghost use Rattle.integer_sets.specs.Constraints.{system_of};
ghost use Rattle.quast_trees.specs.Tree.{LeavesHave, Speaks, Tree};
ghost use Rattle.quast_trees.specs.Turns.{BindsUp, CanTell};
ghost use Rattle.tableau_rows.specs.Problem.{IsLexmin, IsPoint, problem_of};
ghost use Rattle.tableau_rows.specs.Run.{spent};
ghost use Rattle.lexmin_runs.specs.Emptiness.{HasBoundedPoint, IsBoundedPoint};
ghost use Rattle.lexmin_runs.specs.Leaves.{IsOneLeaf};
ghost use Rattle.lexmin_runs.specs.Nodes as next;
ghost use Rattle.lexmin_runs.specs.Nodes.{Frame, Node, chained, first_node, followed, lexmin_run, resumed};
ghost use Rattle.lexmin_runs.specs.Nodes.{step, whole, with_rows};
ghost use Rattle.lexmin_runs.specs.Solutions.{IsInContext, IsNode, IsNodeSolution, KeepsSolutions, LeadsOn};
ghost use Rattle.contract_callers.specs.Halves.{above, at_zero, bound, first, five, given, halved, opposite, pivoted};
ghost use Rattle.contract_callers.specs.Halves.{solved, zero_leaf};

use lexmin_runs::{
    binds_are_not_negative, emptiness_is_answered_right, runs_begin_with_their_problem,
    runs_go_on_by_steps, steps_keep_the_solutions, trees_are_right,
    trees_without_parameters_are_leaves, turns_of_runs_can_be_told,
};

/// The least x where p is 5 is 3, by `answers` of `trees_are_right`; the tree speaks of one parameter, by `speaks`, and
/// its leaves have one form each, by `forms`.
pub fn the_tree_of_halves()
    ensures answers { IsLexmin halved (pos 5 ∷ []) (pos 3 ∷ []) }
    ensures speaks { (budget left : ℕ) (tree : Tree) → lexmin_run budget 1 halved five ≡ Ok (tree, left)
        → Speaks 1 tree }
    ensures forms { (budget left : ℕ) (tree : Tree) → lexmin_run budget 1 halved five ≡ Ok (tree, left)
        → LeavesHave 1 tree }
{
    trees_are_right();
}

/// Where p is 5, no quotient that the tree binds is negative, by the clause of `binds_are_not_negative`.
pub fn binds_of_halves()
    ensures { (budget left : ℕ) (tree : Tree) → lexmin_run budget 1 halved five ≡ Ok (tree, left)
        → BindsUp tree (pos 5 ∷ []) }
{
    binds_are_not_negative();
}

/// Its turns can be told, by the clause of `turns_of_runs_can_be_told`.
pub fn turns_of_halves()
    ensures { (budget left : ℕ) (tree : Tree) → lexmin_run budget 1 halved five ≡ Ok (tree, left) → CanTell tree }
{
    turns_of_runs_can_be_told();
}

/// The tree of the least x of 2 x - 3 >= 0 is one leaf, by the clause of `trees_without_parameters_are_leaves`.
pub fn the_tree_without_parameters()
    ensures { (budget left : ℕ) (tree : Tree)
        → lexmin_run budget 0 (problem_of 1 (form_of (pos 2 ∷ []) (negsuc 2) ∷ [])) [] ≡ Ok (tree, left)
        → IsOneLeaf tree }
{
    trees_without_parameters_are_leaves();
}

/// Nodes go on by their steps, by the clauses of `runs_go_on_by_steps`: the first splits by the sign of -p; where p is
/// at most 0 the run ends at the leaf 0; elsewhere it goes on from a pivot and binds the quotient of p by 2; without a
/// move it stops.
pub fn steps_of_halves()
    ensures step { (node : Node)
        → whole 1 0 node ≡ chained (step 1 0 node) (λ next rest. followed (λ l m. whole 1 l m) next rest) }
    ensures ends { (frames : List Frame)
        → resumed 1 frames (whole 1 1 at_zero) ≡ resumed 1 frames (Ok (zero_leaf, 0)) }
    ensures goes { (frames : List Frame) → resumed 1 frames (whole 1 4 above) ≡ resumed 1 frames (whole 1 0 solved) }
    ensures binds { (frames : List Frame)
        → resumed 1 frames (whole 1 3 solved) ≡ resumed 1 (next.binding given (pos 2) ∷ frames) (whole 1 0 bound) }
    ensures splits { (frames : List Frame)
        → resumed 1 frames (whole 1 2 first) ≡ resumed 1 (next.second opposite above ∷ frames) (whole 1 0 at_zero) }
    ensures stops { (frames : List Frame) → resumed 1 frames (whole 1 0 first) ≡ Err spent }
{
    runs_go_on_by_steps();
}

/// The step that splits leads to nodes, by `nodes` of `steps_keep_the_solutions`, and the one that binds keeps the
/// solutions, by `solutions`; a pivot, a cut and a split alone do both, by the clauses of these names.
pub fn nodes_of_halves()
    ensures nodes { LeadsOn 1 1 (next.splits opposite at_zero above) }
    ensures solutions { KeepsSolutions 1 solved (next.binds given (pos 2) bound) }
    ensures pivot { LeadsOn 1 1 (next.goes (with_rows first pivoted))
        × KeepsSolutions 1 first (next.goes (with_rows first pivoted)) }
    ensures cut { LeadsOn 1 1 (next.binds given (pos 2) bound)
        × KeepsSolutions 1 solved (next.binds given (pos 2) bound) }
    ensures split { LeadsOn 1 1 (next.splits opposite at_zero above)
        × KeepsSolutions 1 first (next.splits opposite at_zero above) }
{
    steps_keep_the_solutions();
}

/// The run where p is 5 begins at a node, by `node` of `runs_begin_with_their_problem`, whose solutions are the points
/// of the problem there, by `solutions`.
pub fn the_first_node_of_halves()
    ensures node { IsNode 1 (first_node 1 halved five) }
    ensures solutions { (p x : List ℤ) → IsNodeSolution 1 (first_node 1 halved five) p x
        ↔ (IsInContext (first_node 1 halved five) p × IsPoint halved p x) }
{
    runs_begin_with_their_problem();
}

/// No whole x meets 2 x - 3 = 0, by `empty` of `emptiness_is_answered_right`, and one meets 2 x - 4 = 0, by `point`.
pub fn answers_of_two_systems()
    ensures empty { (x p : List ℤ)
        → IsBoundedPoint (system_of 1 0 (form_of (pos 2 ∷ []) (negsuc 2) ∷ []) []) x p → ⊥ }
    ensures point { HasBoundedPoint (system_of 1 0 (form_of (pos 2 ∷ []) (negsuc 3) ∷ []) []) }
{
    emptiness_is_answered_right();
}
