//! Callers of the laws of the values of forms, at 2 x - y + 3 and other small forms.
ghost use Rattle.std.specs.Prelude.{◌≡◌, ◌+ℤ◌, ◌-ℤ◌, ◌*ℤ◌, ◌≤ℤ◌, ◌↔◌, ◌∷◌, [], ℤ, length, neg_ℤ, negsuc, pos};
ghost use Rattle.whole_numbers.specs.Affine.{Affine, form_of, value_of, values_of};

use whole_numbers::{
    forms_with_the_same_values_are_one, positive_multiples_keep_equalities_and_rows,
    value_of_affine_forms,
};

/// The values of 2 x - y + 3 and x + 4 y - 1 added, by `sum` of `value_of_affine_forms`; of the former times -2, by
/// `multiple`, with the latter in place of y, by `substituted`, with z + 1 and 3 z in place of x and y, by `composed`,
/// and of its complement, by `complement`.
pub fn values_of_two_forms()
    ensures sum { (x y : ℤ) → value_of (form_of (pos 3 ∷ pos 3 ∷ []) (pos 2)) (x ∷ y ∷ [])
        ≡ value_of (form_of (pos 2 ∷ negsuc 0 ∷ []) (pos 3)) (x ∷ y ∷ [])
        +ℤ value_of (form_of (pos 1 ∷ pos 4 ∷ []) (negsuc 0)) (x ∷ y ∷ []) }
    ensures multiple { (x y : ℤ) → value_of (form_of (negsuc 3 ∷ pos 2 ∷ []) (negsuc 5)) (x ∷ y ∷ [])
        ≡ negsuc 1 *ℤ value_of (form_of (pos 2 ∷ negsuc 0 ∷ []) (pos 3)) (x ∷ y ∷ []) }
    ensures substituted { (x y : ℤ) → value_of (form_of (pos 1 ∷ negsuc 3 ∷ []) (pos 4)) (x ∷ y ∷ [])
        ≡ value_of (form_of (pos 2 ∷ negsuc 0 ∷ []) (pos 3))
        (x ∷ value_of (form_of (pos 1 ∷ pos 4 ∷ []) (negsuc 0)) (x ∷ y ∷ []) ∷ []) }
    ensures composed { (z : ℤ) → value_of (form_of (negsuc 0 ∷ []) (pos 5)) (z ∷ [])
        ≡ value_of (form_of (pos 2 ∷ negsuc 0 ∷ []) (pos 3))
        (values_of (form_of (pos 1 ∷ []) (pos 1) ∷ form_of (pos 3 ∷ []) (pos 0) ∷ []) (z ∷ [])) }
    ensures complement { (x y : ℤ) → value_of (form_of (negsuc 1 ∷ pos 1 ∷ []) (negsuc 3)) (x ∷ y ∷ [])
        ≡ neg_ℤ (value_of (form_of (pos 2 ∷ negsuc 0 ∷ []) (pos 3)) (x ∷ y ∷ [])) -ℤ pos 1 }
{
    value_of_affine_forms();
}

/// 6 x - 3 y + 9 is 0, and is at least 0, exactly where 2 x - y + 3 is, by the clause of
/// `positive_multiples_keep_equalities_and_rows`.
pub fn three_times_a_form()
    ensures { (x y : ℤ) → ((value_of (form_of (pos 6 ∷ negsuc 2 ∷ []) (pos 9)) (x ∷ y ∷ []) ≡ pos 0)
        ↔ (value_of (form_of (pos 2 ∷ negsuc 0 ∷ []) (pos 3)) (x ∷ y ∷ []) ≡ pos 0))
        × ((pos 0 ≤ℤ value_of (form_of (pos 6 ∷ negsuc 2 ∷ []) (pos 9)) (x ∷ y ∷ []))
        ↔ (pos 0 ≤ℤ value_of (form_of (pos 2 ∷ negsuc 0 ∷ []) (pos 3)) (x ∷ y ∷ []))) }
{
    positive_multiples_keep_equalities_and_rows();
}

/// Only 2 x - y + 3 has its values at all x and y, by the clause of `forms_with_the_same_values_are_one`.
pub fn a_form_by_its_values()
    ensures { (f : Affine) → length f.coefficients ≡ 2
        → ((x y : ℤ) → value_of f (x ∷ y ∷ []) ≡ ((pos 2 *ℤ x) -ℤ y) +ℤ pos 3)
        → f ≡ form_of (pos 2 ∷ negsuc 0 ∷ []) (pos 3) }
{
    forms_with_the_same_values_are_one();
}
