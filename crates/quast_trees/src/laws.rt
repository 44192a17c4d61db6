//! Laws of quasts, as contracts of functions that do nothing: what the postfix order, a branch, a bind,
//! a run and a map mean, and what leads to a leaf.
ghost use Rattle.std.specs.Prelude.{◌≡◌, ℕ, ◌+◌, ℤ, pos, ◌≤ℤ◌, ◌<ℤ◌, List, [], ◌∷◌, ◌++◌, length, All, Ok};
ghost use Rattle.std.specs.Prelude.{Option, true};
ghost use Rattle.std.specs.List.{Contains};
ghost use Rattle.whole_numbers.specs.Affine.{Affine, value_of, values_of, multiple_of_form};
ghost use Rattle.whole_numbers.specs.Division.{IsFloor, IsEuclid};
ghost use Rattle.whole_numbers.specs.Lists.{NotNegative};
ghost use Rattle.quast_trees.specs.Source.{Source};
ghost use Rattle.quast_trees.specs.Tree.{Tree, branch, bind, count, named, Speaks};
ghost use Rattle.quast_trees.specs.Turns.{BindsUp, CanTell};
ghost use Rattle.quast_trees.specs.Paths.{AreOver, Goes, LeafPath, binds_in, has_no_point, leaf_paths, live_paths};
ghost use Rattle.quast_trees.specs.Postfix.{read, written};
ghost use Rattle.quast_trees.specs.Leaf.{Leaf, found};
ghost use Rattle.quast_trees.specs.Value.{value, value_run};
ghost use Rattle.quast_trees.specs.Mapped.{IsMapped, map_run};

/// A tree's nodes in postfix order are read as that tree, and there are as many as the tree has.
pub fn nodes_are_read_as_their_tree()
    ensures tree { (t : Tree) → read (written t) ≡ t }
    ensures count { (t : Tree) → length (written t) ≡ count t }
{}

/// A branch answers as its first side where its form is at least 0, and as its second below.
pub fn branches_test_the_sign()
    ensures first { (f : Affine) (a b : Tree) (point : List ℤ) → pos 0 ≤ℤ value_of f point
        → value (branch f a b) point ≡ value a point }
    ensures second { (f : Affine) (a b : Tree) (point : List ℤ) → value_of f point <ℤ pos 0
        → value (branch f a b) point ≡ value b point }
{}

/// A bind answers as its body where the greatest whole number not above the quotient stands behind the
/// variables.
pub fn binds_round_down()
    ensures { (f : Affine) (divisor q : ℤ) (body : Tree) (point : List ℤ) → pos 0 <ℤ divisor
        → IsFloor (value_of f point) divisor q
        → value (bind f divisor body) point ≡ value body (point ++ q ∷ []) }
{}

/// A bind answers as its body where the quotient of Euclid's division stands behind the variables.
pub fn binds_divide()
    ensures { (f : Affine) (divisor q r : ℤ) (body : Tree) (point : List ℤ) → pos 0 <ℤ divisor
        → IsEuclid (value_of f point) divisor q r
        → value (bind f divisor body) point ≡ value body (point ++ q ∷ []) }
{}

/// A positive factor of a test changes no answer, so tests may stand in lowest terms.
pub fn tests_may_be_scaled()
    ensures { (f : Affine) (k : ℤ) (a b : Tree) (point : List ℤ) → pos 0 <ℤ k
        → value (branch (multiple_of_form k f) a b) point ≡ value (branch f a b) point }
{}

/// A run that no number stops gives the tree's leaf.
pub fn runs_are_exact()
    ensures { (t : Tree) (point : List ℤ) (leaf : Leaf) → value_run t point ≡ Ok leaf → leaf ≡ value t point }
{}

/// A mapped tree speaks of the same variables, and has at each point the leaf with the forms at its values.
pub fn maps_keep_the_points()
    ensures speaks { (forms : List Affine) (n : ℕ) (t u : Tree) → Speaks n t → map_run forms t ≡ Ok u → Speaks n u }
    ensures value { (forms : List Affine) (n : ℕ) (t u : Tree) → Speaks n t → map_run forms t ≡ Ok u
        → IsMapped forms n t u }
{}

/// A tree answers an instance at a point exactly where the point goes to a leaf of it with these turns.
pub fn answers_are_leaves()
    ensures found { (t : Tree) (n : ℕ) (point : List ℤ) (o : Option Source) (xs : List ℤ) → Speaks n t
        → value t point ≡ found o xs
        → (p : LeafPath) × (qs : List ℤ) × Contains (leaf_paths t) p × Goes p.turns point qs × (p.leaf.source ≡ o)
        × (values_of p.leaf.forms (point ++ qs) ≡ xs) }
    ensures answers { (t : Tree) (n : ℕ) (point qs : List ℤ) (p : LeafPath) → Speaks n t
        → Contains (leaf_paths t) p
        → Goes p.turns point qs → value t point ≡ found p.leaf.source (values_of p.leaf.forms (point ++ qs)) }
    ensures over { (t : Tree) (n : ℕ) (p : LeafPath) → Speaks n t → Contains (leaf_paths t) p
        → AreOver n p.turns × (p.leaf.variables ≡ n + binds_in p.turns)
        × All (λ f. length f.coefficients ≡ n + binds_in p.turns) p.leaf.forms }
{}

/// No point goes a path on which a test fails by itself, or is passed on both sides.
pub fn blocked_paths_have_no_point()
    ensures { (p : LeafPath) (point qs : List ℤ) → has_no_point p ≡ true → Goes p.turns point qs → ⊥ }
{}

/// So the other paths alone tell where a tree answers an instance.
pub fn answers_are_live_leaves()
    ensures among { (t : Tree) (p : LeafPath) → Contains (live_paths t) p → Contains (leaf_paths t) p }
    ensures found { (t : Tree) (n : ℕ) (point : List ℤ) (o : Option Source) (xs : List ℤ) → Speaks n t
        → value t point ≡ found o xs
        → (p : LeafPath) × (qs : List ℤ) × Contains (live_paths t) p × Goes p.turns point qs × (p.leaf.source ≡ o)
        × (values_of p.leaf.forms (point ++ qs) ≡ xs) }
    ensures answers { (t : Tree) (n : ℕ) (point qs : List ℤ) (p : LeafPath) → Speaks n t
        → Contains (live_paths t) p
        → Goes p.turns point qs → value t point ≡ found p.leaf.source (values_of p.leaf.forms (point ++ qs)) }
    ensures over { (t : Tree) (n : ℕ) (p : LeafPath) → Speaks n t → Contains (live_paths t) p
        → AreOver n p.turns × (p.leaf.variables ≡ n + binds_in p.turns)
        × All (λ f. length f.coefficients ≡ n + binds_in p.turns) p.leaf.forms }
{}

/// What is bound on the way to a leaf is not negative, where no quotient on the way of the point is.
pub fn bound_quotients_are_not_negative()
    ensures { (t : Tree) (n : ℕ) (point qs : List ℤ) (p : LeafPath) → Speaks n t → Contains (leaf_paths t) p
        → Goes p.turns point qs → BindsUp t point → NotNegative qs }
{}

/// Where no quotient on the way of a point is negative, none is where other forms stand at the leaves, or a source does.
pub fn mapped_trees_keep_the_signs_of_binds()
    ensures mapped { (forms : List Affine) (t u : Tree) (point : List ℤ) → map_run forms t ≡ Ok u → BindsUp t point
        → BindsUp u point }
    ensures named { (s : Source) (t : Tree) (point : List ℤ) → BindsUp t point → BindsUp (named s t) point }
{}

/// Where 128 bits hold the numbers by which a tree's turns are told, they do with other forms at the leaves, or a source.
pub fn mapped_trees_can_be_told()
    ensures mapped { (forms : List Affine) (t u : Tree) → map_run forms t ≡ Ok u → CanTell t → CanTell u }
    ensures named { (s : Source) (t : Tree) → CanTell t → CanTell (named s t) }
{}
