//! Callers of the laws of joins: most with the initial value as the first quast.
ghost use Rattle.std.specs.Prelude.{◌≡◌, ◌≤ℤ◌, ◌+ℤ◌, ◌+◌, ◌++◌, ◌∷◌, [], ℕ, ℤ, List, length, map, pos, sum_by};
ghost use Rattle.whole_numbers.specs.Affine.{Affine};
ghost use Rattle.quast_joins.specs.Counts.{HasForms, capped, join_node};
ghost use Rattle.quast_joins.specs.Steps.{Placed_node, depths, depths_of, from_last, join_step, paired, steps};
ghost use Rattle.quast_joins.specs.Joins.{join, test_of};
ghost use Rattle.quast_joins.specs.Limits.{leaf_limit};
ghost use Rattle.quast_trees.specs.Postfix.{written};
ghost use Rattle.quast_joins.specs.Sizes.{IsFormWithin, IsWithin, LeavesWithin};
ghost use Rattle.quast_trees.specs.Tree.{Speaks, Tree, count, initial};
ghost use Rattle.quast_trees.specs.Turns.{BindsUp, CanTell};
ghost use Rattle.quast_trees.specs.Value.{value};
ghost use Rattle.quast_trees.specs.declared.node.Node.TheVariants as node;
ghost use Rattle.quast_joins.specs.declared.way.Way.{Way};

/// A join with the initial value answers as the other quast, by `value` of `joins_choose`, and speaks of its variables,
/// by `speaks`.
pub fn joins_with_the_initial_value()
    ensures value { (way : Way) (n : ℕ) (tree : Tree) (point : List ℤ) → length point ≡ n
        → value (join way n initial tree) point ≡ value tree point }
    ensures speaks { (way : Way) (n : ℕ) (tree : Tree) → Speaks n tree → Speaks n (join way n initial tree) }
{
    quast_joins::joins_choose();
}

/// It has as many nodes as the other quast, by `count` of `joins_are_counted`; that many for its one node, by `nodes`;
/// sums up to 10, by `capped`; and the other's forms, by `forms`.
pub fn nodes_of_joins_with_the_initial_value()
    ensures count { (way : Way) (n : ℕ) (tree : Tree) → count (join way n initial tree) ≡ count tree }
    ensures nodes { (tree : Tree) → count tree ≡ sum_by (join_node (written tree)) (node.Initial ∷ []) }
    ensures capped { (x y : ℕ) → capped 10 (capped 10 x + capped 10 y) ≡ capped 10 (x + y) }
    ensures forms { (way : Way) (n : ℕ) (tree : Tree) → HasForms tree → HasForms (join way n initial tree) }
{
    quast_joins::joins_are_counted();
}

/// The constant of a test is small, by `test` of `tests_are_small`, and so are a join's leaves, by `leaves`.
pub fn constants_of_tests_are_small()
    ensures test { (way : Way) (bound : ℤ) (f g : Affine) → pos 0 ≤ℤ bound → IsFormWithin bound f
        → IsFormWithin bound g → IsWithin ((bound +ℤ bound) +ℤ pos 1) (test_of way f g).constant }
    ensures leaves { (way : Way) (bound : ℤ) (n : ℕ) (tree : Tree) → pos 0 ≤ℤ bound → LeavesWithin bound tree
        → LeavesWithin bound (join way n initial tree) }
{
    quast_joins::tests_are_small();
}

/// A join with the initial value binds what the other quast does, by the clause of `joins_keep_the_signs_of_binds`.
pub fn signs_of_joins_with_the_initial_value()
    ensures { (way : Way) (n : ℕ) (tree : Tree) (point : List ℤ) → length point ≡ n → BindsUp tree point
        → BindsUp (join way n initial tree) point }
{
    quast_joins::joins_keep_the_signs_of_binds();
}

/// And can be told where that can, by the clause of `joins_can_be_told`.
pub fn numbers_of_joins_with_the_initial_value()
    ensures { (way : Way) (n : ℕ) (tree : Tree) → LeavesWithin leaf_limit tree → CanTell tree
        → CanTell (join way n initial tree) }
{
    quast_joins::joins_can_be_told();
}

/// How joins are built on an empty stack: clause by clause of `joins_are_built`.
pub fn joins_on_an_empty_stack()
    ensures run { (way : Way) (n : ℕ) (first second : Tree)
        → steps (join_step way n (paired 0 second)) [] (paired 0 first) ≡ join way n first second ∷ [] }
    ensures nodes { (tree : Tree) → map (λ (x : Placed_node). x.node) (paired 0 tree) ≡ written tree }
    ensures depths { (tree : Tree) → map (λ (x : Placed_node). x.binds) (paired 0 tree) ≡ depths 0 tree }
    ensures found { (tree : Tree) (found : List ℕ)
        → from_last (written tree) (depths_of (0 ∷ []) found) ≡ depths_of [] (depths 0 tree ++ found) }
{
    quast_joins::joins_are_built();
}
