//! What a run's tree means, and how a run goes on. Each law is the contract of a function that does nothing.
ghost use Rattle.std.specs.Prelude.{◌≡◌, ◌↔◌, ℕ, ℤ, ◌+◌, ◌<◌, List, ◌∷◌, length, Ok, Err, true, false};
ghost use Rattle.whole_numbers.specs.Lists.{NotNegative};
ghost use Rattle.whole_numbers.specs.Affine.{Affine};
ghost use Rattle.integer_sets.specs.Constraints.{Constraints, variables_in, IsSized};
ghost use Rattle.lexmin_runs.specs.Emptiness.{empty_run, IsBoundedPoint, HasBoundedPoint};
ghost use Rattle.tableau_rows.specs.Problem.{IsPoint, problem_of, row_values, Speaks};
ghost use Rattle.tableau_rows.specs.Run.{Stop};
ghost use Rattle.quast_trees.specs.Tree.{Tree, LeavesHave, Speaks as TreeSpeaks};
ghost use Rattle.quast_trees.specs.Turns.{BindsUp, CanTell};
ghost use Rattle.quast_trees.specs.Value.{value};
ghost use Rattle.lexmin_runs.specs.Leaves.{IsAnswer, IsOneLeaf};
ghost use Rattle.lexmin_runs.specs.Nodes as next;
ghost use Rattle.lexmin_runs.specs.Nodes.{Frame, resumed, Node, Next, chained, pivot, cut, split, step, followed};
ghost use Rattle.lexmin_runs.specs.Nodes.{whole, first_node, lexmin_run};
ghost use Rattle.lexmin_runs.specs.Solutions.{IsInContext, IsNodeSolution, IsNode, LeadsOn, KeepsSolutions};

/// Where the run of a problem with parameters ends, the tree's value at each point of the context is
/// the least whole point of the problem there, or says that there is none; each leaf has a form for each unknown.
pub fn trees_are_right()
    ensures answers { (budget n m : ℕ) (rows context : List Affine) (tree : Tree) (left : ℕ)
        → Speaks (n + m) rows
        → Speaks m context
        → lexmin_run budget m (problem_of n rows) context ≡ Ok (tree, left)
        → (p : List ℤ)
        → length p ≡ m
        → NotNegative p
        → NotNegative (row_values context p)
        → IsAnswer (problem_of n rows) p (value tree p) }
    ensures speaks { (budget n m : ℕ) (rows context : List Affine) (tree : Tree) (left : ℕ)
        → Speaks (n + m) rows
        → Speaks m context
        → lexmin_run budget m (problem_of n rows) context ≡ Ok (tree, left)
        → TreeSpeaks m tree }
    ensures forms { (budget n m : ℕ) (rows context : List Affine) (tree : Tree) (left : ℕ)
        → Speaks (n + m) rows
        → Speaks m context
        → lexmin_run budget m (problem_of n rows) context ≡ Ok (tree, left)
        → LeavesHave n tree }
{}

/// Where the run of a problem with parameters ends, no quotient that its tree binds is negative at a point of the
/// context.
pub fn binds_are_not_negative()
    ensures { (budget n m : ℕ) (rows context : List Affine) (tree : Tree) (left : ℕ)
        → Speaks (n + m) rows
        → Speaks m context
        → lexmin_run budget m (problem_of n rows) context ≡ Ok (tree, left)
        → (p : List ℤ)
        → length p ≡ m
        → NotNegative p
        → NotNegative (row_values context p)
        → BindsUp tree p }
{}

/// 128 bits hold the numbers of the rows by which the turns of a run's tree are told: the run formed the opposite of each
/// test, and the two rows that tie each quotient.
pub fn turns_of_runs_can_be_told()
    ensures { (budget n m : ℕ) (rows context : List Affine) (tree : Tree) (left : ℕ)
        → Speaks (n + m) rows
        → Speaks m context
        → lexmin_run budget m (problem_of n rows) context ≡ Ok (tree, left)
        → CanTell tree }
{}

/// Without parameters no node splits, and no cut or leaf binds one: the tree of a run is one leaf.
pub fn trees_without_parameters_are_leaves()
    ensures { (budget n : ℕ) (rows context : List Affine) (tree : Tree) (left : ℕ)
        → Speaks n rows
        → Speaks 0 context
        → lexmin_run budget 0 (problem_of n rows) context ≡ Ok (tree, left)
        → IsOneLeaf tree }
{}

/// A run goes on by its steps: what a loop with a stack of frames keeps.
pub fn runs_go_on_by_steps()
    ensures step { (n left : ℕ) (node : Node)
        → whole n left node
        ≡ chained (step n left node) (λ next rest. followed (λ l m. whole n l m) next rest) }
    ensures ends { (n left : ℕ) (node : Node) (frames : List Frame) (tree : Tree) (rest : ℕ)
        → step n left node ≡ Ok (next.ends tree, rest)
        → resumed n frames (whole n left node) ≡ resumed n frames (Ok (tree, rest)) }
    ensures goes { (n left : ℕ) (node on : Node) (frames : List Frame) (rest : ℕ)
        → step n left node ≡ Ok (next.goes on, rest)
        → resumed n frames (whole n left node) ≡ resumed n frames (whole n rest on) }
    ensures binds { (n left : ℕ) (node on : Node) (frames : List Frame) (f : Affine) (d : ℤ) (rest : ℕ)
        → step n left node ≡ Ok (next.binds f d on, rest)
        → resumed n frames (whole n left node) ≡ resumed n (next.binding f d ∷ frames) (whole n rest on) }
    ensures splits { (n left : ℕ) (node a b : Node) (frames : List Frame) (f : Affine) (rest : ℕ)
        → step n left node ≡ Ok (next.splits f a b, rest)
        → resumed n frames (whole n left node) ≡ resumed n (next.second f b ∷ frames) (whole n rest a) }
    ensures stops { (n left : ℕ) (node : Node) (frames : List Frame) (stop : Stop)
        → step n left node ≡ Err stop
        → resumed n frames (whole n left node) ≡ Err stop }
{}

/// Each step of a node leads to nodes, and keeps the whole solutions: a pivot and a cut the same ones, a cut with
/// a new parameter the same ones at the quotient that it is tied to, a split those of each sign of its form.
pub fn steps_keep_the_solutions()
    ensures nodes { (n left : ℕ) (node : Node) (next : Next) (rest : ℕ)
        → IsNode n node → step n left node ≡ Ok (next, rest) → LeadsOn n node.parameters next }
    ensures solutions { (n left : ℕ) (node : Node) (next : Next) (rest : ℕ)
        → IsNode n node → step n left node ≡ Ok (next, rest) → KeepsSolutions n node next }
    ensures pivot { (n left : ℕ) (node : Node) (r : ℕ) (next : Next) (rest : ℕ)
        → IsNode n node → r < length node.rows → pivot n left node r ≡ Ok (next, rest)
        → LeadsOn n node.parameters next × KeepsSolutions n node next }
    ensures cut { (n left : ℕ) (node : Node) (i : ℕ) (next : Next) (rest : ℕ)
        → IsNode n node → i < n → cut n left node i ≡ Ok (next, rest)
        → LeadsOn n node.parameters next × KeepsSolutions n node next }
    ensures split { (n left : ℕ) (node : Node) (f : Affine) (next : Next) (rest : ℕ)
        → IsNode n node → length f.coefficients ≡ node.parameters → split left node f ≡ Ok (next, rest)
        → LeadsOn n node.parameters next × KeepsSolutions n node next }
{}

/// A run begins at a node whose whole solutions are the problem's points over the context.
pub fn runs_begin_with_their_problem()
    ensures node { (n m : ℕ) (rows context : List Affine)
        → Speaks (n + m) rows → Speaks m context → IsNode n (first_node m (problem_of n rows) context) }
    ensures solutions { (n m : ℕ) (rows context : List Affine)
        → Speaks (n + m) rows
        → (p x : List ℤ)
        → IsNodeSolution n (first_node m (problem_of n rows) context) p x
        ↔ (IsInContext (first_node m (problem_of n rows) context) p × IsPoint (problem_of n rows) p x) }
{}

/// The question of a system's emptiness is answered right: yes only where no whole point with dimensions from 0 on
/// and parameters in 0..=65536 satisfies the system, and no only where one does.
pub fn emptiness_is_answered_right()
    ensures empty { (budget : ℕ) (s : Constraints) (left : ℕ)
        → IsSized (variables_in s) s.equalities s.rows
        → empty_run budget s ≡ Ok (true, left)
        → (x p : List ℤ) → IsBoundedPoint s x p → ⊥ }
    ensures point { (budget : ℕ) (s : Constraints) (left : ℕ)
        → IsSized (variables_in s) s.equalities s.rows
        → empty_run budget s ≡ Ok (false, left)
        → HasBoundedPoint s }
{}
