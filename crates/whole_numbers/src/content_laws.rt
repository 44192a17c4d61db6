//! Contents and lowest terms: the greatest common divisor of a list, and the list divided by it, as of
//! the rows of the fraction-free simplex (R. E. Gomory 1958; P. Feautrier 1988).
ghost use Rattle.std.specs.Prelude.{◌≡◌, ℕ, suc, ◌<◌, ◌≤◌, ◌*◌, ℤ, pos, List, All};
ghost use Rattle.whole_numbers.specs.Affine.{Affine, multiple_of_form};
ghost use Rattle.whole_numbers.specs.Lists.{multiples};
ghost use Rattle.whole_numbers.specs.Divisors.{Divides};
ghost use Rattle.whole_numbers.specs.Content.{content, lowest, content_of_form, lowest_of_form};

/// The content of a list divides each entry, and each common divisor divides it; a positive factor
/// comes out of it.
#[tactic(auto, using(crate::proofs::Contents::content_laws))]
pub fn content_is_the_greatest_common_divisor()
    ensures divides { (xs : List ℤ) → All (Divides (pos (content xs))) xs }
    ensures greatest { (d : ℤ) (xs : List ℤ) → All (Divides d) xs → Divides d (pos (content xs)) }
    ensures multiples { (k : ℕ) (xs : List ℤ) → content (multiples (pos (suc k)) xs) ≡ suc k * content xs }
{}

/// A list is its content times its lowest terms, which it shares with its positive multiples; their
/// content is 1 unless all is 0, and a content of 1 leaves the list.
#[tactic(auto, using(crate::proofs::Lowest::lowest_laws))]
pub fn lowest_terms_of_lists()
    ensures parts { (xs : List ℤ) → xs ≡ multiples (pos (content xs)) (lowest xs) }
    ensures multiples { (k : ℕ) (xs : List ℤ) → lowest (multiples (pos (suc k)) xs) ≡ lowest xs }
    ensures content { (xs : List ℤ) → 0 < content xs → content (lowest xs) ≡ 1 }
    ensures stay { (xs : List ℤ) → content xs ≤ 1 → lowest xs ≡ xs }
{}

/// The same of forms, whose numbers are the constant and the coefficients.
#[tactic(auto, using(crate::proofs::Lowest::form_laws))]
pub fn lowest_terms_of_forms()
    ensures parts { (f : Affine) → f ≡ multiple_of_form (pos (content_of_form f)) (lowest_of_form f) }
    ensures multiple { (k : ℕ) (f : Affine) → lowest_of_form (multiple_of_form (pos (suc k)) f) ≡ lowest_of_form f }
    ensures content { (f : Affine) → 0 < content_of_form f → content_of_form (lowest_of_form f) ≡ 1 }
    ensures stay { (f : Affine) → content_of_form f ≤ 1 → lowest_of_form f ≡ f }
{}
