//! Laws of joins, as contracts of functions that do nothing: their values, how many nodes they have and how they are
//! made, how large their numbers get.
ghost use Rattle.std.specs.Prelude.{◌≡◌, ℕ, ℤ, pos, ◌+◌, ◌+ℤ◌, ◌≤ℤ◌, List, ◌∷◌, ◌++◌, length, map, sum_by};
ghost use Rattle.whole_numbers.specs.Affine.{Affine};
ghost use Rattle.quast_trees.specs.Tree.{Tree, count, Speaks};
ghost use Rattle.quast_trees.specs.Postfix.{written};
ghost use Rattle.quast_trees.specs.Turns.{BindsUp, CanTell};
ghost use Rattle.quast_trees.specs.Value.{value};
ghost use Rattle.quast_joins.specs.Ways.{chosen};
ghost use Rattle.quast_joins.specs.Joins.{join, test_of, join_from};
ghost use Rattle.quast_joins.specs.Limits.{leaf_limit};
ghost use Rattle.quast_joins.specs.Counts.{join_count, HasForms, join_node, capped};
ghost use Rattle.quast_joins.specs.Sizes.{IsWithin, AreWithin, IsFormWithin, LeavesWithin};
ghost use Rattle.quast_joins.specs.Steps.{Placed_node, paired, depths, from_last, depths_of, steps, join_step};
ghost use Rattle.quast_joins.specs.declared.way.Way.{Way};

/// At every point the join answers the wanted one of the two answers, and it speaks of the same variables.
pub fn joins_choose()
    ensures value { (way : Way) (n : ℕ) (a b : Tree) (point : List ℤ) → length point ≡ n → Speaks n a
        → value (join way n a b) point ≡ chosen way (value a point) (value b point) }
    ensures speaks { (way : Way) (n : ℕ) (a b : Tree) → Speaks n a → Speaks n b → Speaks n (join way n a b) }
{}

/// The two trees alone tell how many nodes the join has, one number for each node of the first, added up, also where
/// the sum stays at the greatest number that is told; its leaves have a form for each loop round them if theirs have.
pub fn joins_are_counted()
    ensures count { (way : Way) (n : ℕ) (a b : Tree) → count (join way n a b) ≡ join_count a b }
    ensures nodes { (a b : Tree) → join_count a b ≡ sum_by (join_node (written b)) (written a) }
    ensures capped { (most x y : ℕ) → capped most (capped most x + capped most y) ≡ capped most (x + y) }
    ensures forms { (way : Way) (n : ℕ) (a b : Tree) → HasForms a → HasForms b → HasForms (join way n a b) }
{}

/// Where the leaves' numbers are within a bound, a test's are within twice the bound and 1, and the join's leaves are
/// within the bound.
pub fn tests_are_small()
    ensures test { (way : Way) (bound : ℤ) (f g : Affine) → pos 0 ≤ℤ bound → IsFormWithin bound f
        → IsFormWithin bound g → AreWithin (bound +ℤ bound) (test_of way f g).coefficients
        × IsWithin ((bound +ℤ bound) +ℤ pos 1) (test_of way f g).constant }
    ensures leaves { (way : Way) (bound : ℤ) (n : ℕ) (a b : Tree) → pos 0 ≤ℤ bound → LeavesWithin bound a
        → LeavesWithin bound b → LeavesWithin bound (join way n a b) }
{}

/// Where no quotient that two trees bind on the way of a point is negative, none is that their join binds there.
pub fn joins_keep_the_signs_of_binds()
    ensures { (way : Way) (n : ℕ) (a b : Tree) (point : List ℤ) → length point ≡ n → Speaks n a → BindsUp a point
        → BindsUp b point → BindsUp (join way n a b) point }
{}

/// 128 bits hold the numbers by which a join's turns are told, where they hold those of its sides, and the numbers of its
/// sides' leaves are within the limit.
pub fn joins_can_be_told()
    ensures { (way : Way) (n : ℕ) (a b : Tree) → LeavesWithin leaf_limit a → LeavesWithin leaf_limit b → CanTell a
        → CanTell b → CanTell (join way n a b) }
{}

/// Made node by node on a stack of trees, with the number of binds round each node, the join stands on top; and those
/// numbers are found from the last node to the first.
pub fn joins_are_built()
    ensures run { (way : Way) (n k : ℕ) (a b : Tree) (stack : List Tree)
        → steps (join_step way n (paired 0 b)) stack (paired k a) ≡ join_from way n k a b ∷ stack }
    ensures nodes { (k : ℕ) (t : Tree) → map (λ (x : Placed_node). x.node) (paired k t) ≡ written t }
    ensures depths { (k : ℕ) (t : Tree) → map (λ (x : Placed_node). x.binds) (paired k t) ≡ depths k t }
    ensures found { (t : Tree) (k : ℕ) (stack found : List ℕ)
        → from_last (written t) (depths_of (k ∷ stack) found) ≡ depths_of stack (depths k t ++ found) }
{}
