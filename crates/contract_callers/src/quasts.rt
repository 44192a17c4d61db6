//! Callers of the laws of quasts.
ghost use Rattle.std.specs.Prelude.{◌≡◌, ◌≤ℤ◌, ◌<ℤ◌, ◌+◌, ◌++◌, ◌∷◌, [], ℕ, ℤ, List, Ok, length, pos};
ghost use Rattle.std.specs.List.{Contains};
ghost use Rattle.whole_numbers.specs.Affine.{Affine, form_of, multiple_of_form, value_of, values_of};
ghost use Rattle.whole_numbers.specs.Division.{IsEuclid, IsFloor};
ghost use Rattle.quast_trees.specs.Leaf as answer;
ghost use Rattle.quast_trees.specs.Mapped.{map_run};
ghost use Rattle.quast_trees.specs.Paths.{Goes, LeafPath, down, leaf_paths, live_paths, up};
ghost use Rattle.quast_trees.specs.Postfix.{standing, top, written};
ghost use Rattle.quast_trees.specs.Source.{Forms, Source};
ghost use Rattle.quast_trees.specs.Tree.{Speaks, Tree, bind, branch, count, initial, leaf, named};
ghost use Rattle.quast_trees.specs.Turns.{BindsUp, CanTell};
ghost use Rattle.quast_trees.specs.Value.{value, value_run};

/// The nodes of a tree leave it on the stack, by `tree` of `nodes_are_read_as_their_tree`; a branch has a node more than
/// its sides, by `count`.
pub fn nodes_leave_their_tree()
    ensures tree { (tree : Tree) → top (standing (written tree)) ≡ tree }
    ensures count { (test : Affine) (first second : Tree)
        → length (written (branch test first second)) ≡ (count first + count second) + 1 }
{
    quast_trees::nodes_are_read_as_their_tree();
}

/// A branch with an initial side answers the initial value there, by `first` and `second` of `branches_test_the_sign`.
pub fn branches_with_an_initial_side()
    ensures first { (test : Affine) (tree : Tree) (point : List ℤ) → pos 0 ≤ℤ value_of test point
        → value (branch test initial tree) point ≡ answer.initial }
    ensures second { (test : Affine) (tree : Tree) (point : List ℤ) → value_of test point <ℤ pos 0
        → value (branch test tree initial) point ≡ answer.initial }
{
    quast_trees::branches_test_the_sign();
}

/// A bound leaf answers its forms at the point with the quotient, by the clause of `binds_round_down`.
pub fn bound_leaves_round_down()
    ensures { (form : Affine) (divisor q : ℤ) (l : Forms) (point : List ℤ) → pos 0 <ℤ divisor
        → IsFloor (value_of form point) divisor q → value (bind form divisor (leaf l)) point
        ≡ answer.found l.source (values_of l.forms (point ++ q ∷ [])) }
{
    quast_trees::binds_round_down();
}

/// The same by the clause of `binds_divide`.
pub fn bound_leaves_divide()
    ensures { (form : Affine) (divisor q r : ℤ) (l : Forms) (point : List ℤ) → pos 0 <ℤ divisor
        → IsEuclid (value_of form point) divisor q r → value (bind form divisor (leaf l)) point
        ≡ answer.found l.source (values_of l.forms (point ++ q ∷ [])) }
{
    quast_trees::binds_divide();
}

/// A scaled test with an initial side, by the clause of `tests_may_be_scaled`.
pub fn scaled_tests_with_an_initial_side()
    ensures { (test : Affine) (k : ℤ) (tree : Tree) (point : List ℤ) → pos 0 <ℤ k
        → value (branch (multiple_of_form k test) initial tree) point ≡ value (branch test initial tree) point }
{
    quast_trees::tests_may_be_scaled();
}

/// A tree of which a run gives the initial value answers it, by the clause of `runs_are_exact`.
pub fn runs_to_the_initial_value()
    ensures { (tree : Tree) (point : List ℤ) → value_run tree point ≡ Ok answer.initial
        → value tree point ≡ answer.initial }
{
    quast_trees::runs_are_exact();
}

/// A mapped tree speaks of the variables, by `speaks` of `maps_keep_the_points`, and answers the initial value where the
/// tree does, by `value`.
pub fn maps_keep_the_initial_value()
    ensures speaks { (forms : List Affine) (n : ℕ) (tree mapped : Tree) → Speaks n tree
        → map_run forms tree ≡ Ok mapped → Speaks n mapped }
    ensures value { (forms : List Affine) (n : ℕ) (tree mapped : Tree) (point : List ℤ) → Speaks n tree
        → map_run forms tree ≡ Ok mapped → length point ≡ n → value tree point ≡ answer.initial
        → value mapped point ≡ answer.initial }
{
    quast_trees::maps_keep_the_points();
}

/// A leaf is reached by one of its paths, by `found` of `answers_are_leaves`; a bound leaf answers its forms at the point
/// with the quotient, by `answers`, and has a variable more, by `over`.
pub fn bound_leaves_are_reached()
    ensures found { (l : Forms) (n : ℕ) (point : List ℤ) → Speaks n (leaf l)
        → (p : LeafPath) × (qs : List ℤ) × Contains (leaf_paths (leaf l)) p × Goes p.turns point qs
        × (p.leaf.source ≡ l.source) × (values_of p.leaf.forms (point ++ qs) ≡ values_of l.forms point) }
    ensures answers { (form : Affine) (divisor q : ℤ) (l : Forms) (n : ℕ) (point : List ℤ)
        → Speaks n (bind form divisor (leaf l)) → IsFloor (value_of form point) divisor q
        → value (bind form divisor (leaf l)) point ≡ answer.found l.source (values_of l.forms (point ++ q ∷ [])) }
    ensures over { (form : Affine) (divisor : ℤ) (l : Forms) (n : ℕ) → Speaks n (bind form divisor (leaf l))
        → l.variables ≡ n + 1 }
{
    quast_trees::answers_are_leaves();
}

/// No point is on both sides of the first parameter's sign, by the clause of `blocked_paths_have_no_point`.
pub fn both_sides_have_no_point()
    ensures { (point qs : List ℤ) → Goes (up (form_of (pos 1 ∷ []) (pos 0)) ∷ down (form_of (pos 1 ∷ []) (pos 0)) ∷ []) point qs → ⊥ }
{
    quast_trees::blocked_paths_have_no_point();
}

/// Of live paths: a leaf has only its own, by `among` of `answers_are_live_leaves`; the rest as above, by `found`,
/// `answers` and `over`.
pub fn bound_leaves_are_alive()
    ensures among { (l : Forms) (p : LeafPath) → Contains (live_paths (leaf l)) p → Contains (leaf_paths (leaf l)) p }
    ensures found { (l : Forms) (n : ℕ) (point : List ℤ) → Speaks n (leaf l)
        → (p : LeafPath) × (qs : List ℤ) × Contains (live_paths (leaf l)) p × Goes p.turns point qs
        × (p.leaf.source ≡ l.source) × (values_of p.leaf.forms (point ++ qs) ≡ values_of l.forms point) }
    ensures answers { (form : Affine) (divisor q : ℤ) (l : Forms) (n : ℕ) (point : List ℤ)
        → Speaks n (bind form divisor (leaf l)) → IsFloor (value_of form point) divisor q
        → value (bind form divisor (leaf l)) point ≡ answer.found l.source (values_of l.forms (point ++ q ∷ [])) }
    ensures over { (form : Affine) (divisor : ℤ) (l : Forms) (n : ℕ) → Speaks n (bind form divisor (leaf l))
        → l.variables ≡ n + 1 }
{
    quast_trees::answers_are_live_leaves();
}

/// The quotient on the way to a bound leaf is not negative, by the clause of `bound_quotients_are_not_negative`.
pub fn the_quotient_of_a_bound_leaf()
    ensures { (form : Affine) (divisor q : ℤ) (l : Forms) (n : ℕ) (point : List ℤ)
        → Speaks n (bind form divisor (leaf l)) → IsFloor (value_of form point) divisor q
        → BindsUp (bind form divisor (leaf l)) point → pos 0 ≤ℤ q }
{
    quast_trees::bound_quotients_are_not_negative();
}

/// A bound leaf that is mapped, or has a source, binds the same, by `mapped` and `named` of
/// `mapped_trees_keep_the_signs_of_binds`.
pub fn signs_of_bound_leaves()
    ensures mapped { (forms : List Affine) (form : Affine) (divisor : ℤ) (l : Forms) (mapped : Tree) (point : List ℤ)
        → map_run forms (bind form divisor (leaf l)) ≡ Ok mapped → BindsUp (bind form divisor (leaf l)) point
        → BindsUp mapped point }
    ensures named { (s : Source) (form : Affine) (divisor : ℤ) (l : Forms) (point : List ℤ)
        → BindsUp (bind form divisor (leaf l)) point → BindsUp (named s (bind form divisor (leaf l))) point }
{
    quast_trees::mapped_trees_keep_the_signs_of_binds();
}

/// And its turns can be told, by those of `mapped_trees_can_be_told`.
pub fn numbers_of_bound_leaves()
    ensures mapped { (forms : List Affine) (form : Affine) (divisor : ℤ) (l : Forms) (mapped : Tree)
        → map_run forms (bind form divisor (leaf l)) ≡ Ok mapped → CanTell (bind form divisor (leaf l))
        → CanTell mapped }
    ensures named { (s : Source) (form : Affine) (divisor : ℤ) (l : Forms) → CanTell (bind form divisor (leaf l))
        → CanTell (named s (bind form divisor (leaf l))) }
{
    quast_trees::mapped_trees_can_be_told();
}
