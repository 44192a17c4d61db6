//! Lowest terms: each number divided by the greatest common divisor of all.
ghost use Rattle.std.specs.Prelude.{◌≡◌, ℤ, pos, ◌≤ℤ◌, List, ◌↔◌};
ghost use Rattle.whole_numbers.specs.Affine.{Affine};
ghost use Rattle.whole_numbers.specs.Content.{lowest_of_form};
ghost use Rattle.fractions.specs.Fractions.{value_over};

/// Lowest terms keep the sign of each value, so they hold at the same points.
#[tactic(auto, using(crate::proofs::Content::sign_laws))]
pub fn lowest_terms_keep_each_sign()
    ensures { (f : Affine) (d : ℤ) (numerators : List ℤ)
        → ((value_over (lowest_of_form f) d numerators ≡ pos 0) ↔ (value_over f d numerators ≡ pos 0))
        × ((pos 0 ≤ℤ value_over (lowest_of_form f) d numerators) ↔ (pos 0 ≤ℤ value_over f d numerators)) }
{}
