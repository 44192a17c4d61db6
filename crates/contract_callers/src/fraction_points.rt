//! Callers of the laws of points of fractions, at small forms over two variables x and y.
ghost use Rattle.std.specs.Prelude.{◌≡◌, ◌*ℤ◌, ◌≤ℤ◌, ◌↔◌, ◌∷◌, [], All, ℤ, negsuc, pos};
ghost use Rattle.whole_numbers.specs.Affine.{form_of, value_of};
ghost use Rattle.fractions.specs.Elimination.{coefficient_of};
ghost use Rattle.fractions.specs.Farkas.{HoldsForSomeMore};
ghost use Rattle.fractions.specs.Fractions.{HoldsForSome, HoldsOver, value_over};
ghost use Rattle.contract_callers.specs.SmallRows.{between, from_one, meeting};

use fractions::{
    elimination_is_exact_over_fractions, eliminations_chain, lowest_terms_keep_each_sign,
    values_over_a_denominator,
};

/// 3 x - y - 2 over the denominator 1 is its value at the whole point, by `whole` of `values_over_a_denominator`; at 15
/// and 3 over 6 it is three times that at 5 and 1 over 2, by `scaled`.
pub fn values_at_halves()
    ensures whole { (x y : ℤ) → value_over (form_of (pos 3 ∷ negsuc 0 ∷ []) (negsuc 1)) (pos 1) (x ∷ y ∷ [])
        ≡ value_of (form_of (pos 3 ∷ negsuc 0 ∷ []) (negsuc 1)) (x ∷ y ∷ []) }
    ensures scaled { value_over (form_of (pos 3 ∷ negsuc 0 ∷ []) (negsuc 1)) (pos 6) (pos 15 ∷ pos 3 ∷ [])
        ≡ pos 3 *ℤ value_over (form_of (pos 3 ∷ negsuc 0 ∷ []) (negsuc 1)) (pos 2) (pos 5 ∷ pos 1 ∷ []) }
{
    values_over_a_denominator();
}

/// x <= 2 y <= 6 - x holds for some y where x <= 3, by `exact` of `elimination_is_exact_over_fractions`. By the same,
/// x = 2 y, x + y = 3 and 1 <= y hold for some y where x = 2 and 2 <= x, and both are without y, by `absent`.
pub fn points_without_the_second_variable()
    ensures exact { (d x y : ℤ) → HoldsOver [] (form_of (negsuc 0 ∷ pos 0 ∷ []) (pos 3) ∷ []) d (x ∷ y ∷ [])
        ↔ HoldsForSome 1 [] between d (x ∷ y ∷ []) }
    ensures equality { (d x y : ℤ) → HoldsOver (form_of (pos 1 ∷ pos 0 ∷ []) (negsuc 1) ∷ [])
        (form_of (pos 1 ∷ pos 0 ∷ []) (negsuc 1) ∷ []) d (x ∷ y ∷ [])
        ↔ HoldsForSome 1 meeting (from_one ∷ []) d (x ∷ y ∷ []) }
    ensures absent { All (λ f. coefficient_of 1 f ≡ pos 0) (form_of (pos 1 ∷ pos 0 ∷ []) (negsuc 1) ∷ [])
        × All (λ f. coefficient_of 1 f ≡ pos 0) (form_of (pos 1 ∷ pos 0 ∷ []) (negsuc 1) ∷ []) }
{
    elimination_is_exact_over_fractions();
}

/// x <= 2 y <= 6 - x holds for one variable y behind x where x <= 3 does with none behind, by `step` of
/// `eliminations_chain`; with none behind it is told of x alone, by `end`.
pub fn one_variable_behind_a_point()
    ensures step { (d x : ℤ) → HoldsForSomeMore 0 [] (form_of (negsuc 0 ∷ []) (pos 3) ∷ []) d (x ∷ [])
        ↔ HoldsForSomeMore 1 [] between d (x ∷ []) }
    ensures end { (d x : ℤ) → HoldsForSomeMore 0 [] (form_of (negsuc 0 ∷ []) (pos 3) ∷ []) d (x ∷ [])
        ↔ HoldsOver [] (form_of (negsuc 0 ∷ []) (pos 3) ∷ []) d (x ∷ []) }
{
    eliminations_chain();
}

/// 4 x - 6 y + 2 is 0 where 2 x - 3 y + 1 is, and at least 0 where that is, by the clause of
/// `lowest_terms_keep_each_sign`.
pub fn signs_of_a_form_that_is_halved()
    ensures { (d x y : ℤ) → ((value_over (form_of (pos 2 ∷ negsuc 2 ∷ []) (pos 1)) d (x ∷ y ∷ []) ≡ pos 0)
        ↔ (value_over (form_of (pos 4 ∷ negsuc 5 ∷ []) (pos 2)) d (x ∷ y ∷ []) ≡ pos 0))
        × ((pos 0 ≤ℤ value_over (form_of (pos 2 ∷ negsuc 2 ∷ []) (pos 1)) d (x ∷ y ∷ []))
        ↔ (pos 0 ≤ℤ value_over (form_of (pos 4 ∷ negsuc 5 ∷ []) (pos 2)) d (x ∷ y ∷ []))) }
{
    lowest_terms_keep_each_sign();
}
