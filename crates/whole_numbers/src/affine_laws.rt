//! The values of affine forms: sums, multiples, forms in place of variables, and complements.
ghost use Rattle.std.specs.Prelude.{◌≡◌, ℕ, ◌<◌, ℤ, pos, neg_ℤ, ◌+ℤ◌, ◌-ℤ◌, ◌*ℤ◌, ◌≤ℤ◌, ◌<ℤ◌, ◌↔◌, List};
ghost use Rattle.std.specs.Prelude.{length, slice_set};
ghost use Rattle.whole_numbers.specs.Affine.{Affine, value_of, sum_of_forms, multiple_of_form, substituted};
ghost use Rattle.whole_numbers.specs.Affine.{values_of, composed, complement};

/// At each point the operations on forms are the operations on their values.
#[tactic(auto, using(crate::proofs::Values::value_laws))]
pub fn value_of_affine_forms()
    ensures sum { (f g : Affine) (point : List ℤ)
        → value_of (sum_of_forms f g) point ≡ value_of f point +ℤ value_of g point }
    ensures multiple { (k : ℤ) (f : Affine) (point : List ℤ)
        → value_of (multiple_of_form k f) point ≡ k *ℤ value_of f point }
    ensures substituted { (i : ℕ) (f g : Affine) (point : List ℤ)
        → i < length f.coefficients
        → i < length point
        → value_of (substituted i f g) point ≡ value_of f (slice_set point i (value_of g point)) }
    ensures composed { (f : Affine) (inner : List Affine) (n : ℕ) (point : List ℤ)
        → value_of (composed f inner n) point ≡ value_of f (values_of inner point) }
    ensures complement { (f : Affine) (point : List ℤ)
        → value_of (complement f) point ≡ neg_ℤ (value_of f point) -ℤ pos 1 }
{}

/// A positive multiple of a form is 0, and is at least 0, exactly where the form is.
pub fn positive_multiples_keep_equalities_and_rows()
    ensures { (k : ℤ) (f : Affine) (point : List ℤ)
        → pos 0 <ℤ k
        → ((value_of (multiple_of_form k f) point ≡ pos 0) ↔ (value_of f point ≡ pos 0))
        × ((pos 0 ≤ℤ value_of (multiple_of_form k f) point) ↔ (pos 0 ≤ℤ value_of f point)) }
{}

/// Two forms over n variables with the same value at each point are one form.
pub fn forms_with_the_same_values_are_one()
    ensures { (n : ℕ) (f g : Affine)
        → length f.coefficients ≡ n
        → length g.coefficients ≡ n
        → ((point : List ℤ) → length point ≡ n → value_of f point ≡ value_of g point)
        → f ≡ g }
{}
