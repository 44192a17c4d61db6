//! Callers of the laws of divisions, divisors, contents and lowest terms: at -7 by 3, and at small numbers, lists and
//! forms.
ghost use Rattle.std.specs.Prelude.{◌≡◌, ◌+ℤ◌, ◌*ℤ◌, ◌≤ℤ◌, ◌<ℤ◌, ◌↔◌, ◌∷◌, [], All, ℤ, negsuc, pos};
ghost use Rattle.whole_numbers.specs.Affine.{form_of, multiple_of_form};
ghost use Rattle.whole_numbers.specs.Content.{content, content_of_form, lowest, lowest_of_form};
ghost use Rattle.whole_numbers.specs.Division.{IsCeiling, IsEuclid, IsFloor};
ghost use Rattle.whole_numbers.specs.Divisors.{Divides, IsGreatestCommonDivisor};
ghost use Rattle.whole_numbers.specs.Floor.{floor, remainder};
ghost use Rattle.whole_numbers.specs.Lists.{NotNegative, dot, multiples};

use whole_numbers::{
    ceiling_bounds_quotients, content_is_the_greatest_common_divisor, divisors_of_combinations,
    dot_products_of_floors_and_remainders, euclidean_division_exists, euclidean_division_is_unique,
    floor_bounds_quotients, greatest_common_divisor_is_unique, lowest_terms_of_forms,
    lowest_terms_of_lists, remainders_repeat, rounded_quotients_are_floor_and_ceiling,
};

/// -7 has a quotient and a remainder by 3, by the clause of `euclidean_division_exists`; they are -3 and 2, by `unique`
/// of `euclidean_division_is_unique`, and -3 is the floor, by `quotient`.
pub fn minus_seven_by_three()
    ensures exists { (q : ℤ) × (r : ℤ) × IsEuclid (negsuc 6) (pos 3) q r }
    ensures unique { (q r : ℤ) → IsEuclid (negsuc 6) (pos 3) q r → (q ≡ negsuc 2) × (r ≡ pos 2) }
    ensures quotient { IsFloor (negsuc 6) (pos 3) (negsuc 2) }
{
    euclidean_division_exists();
    euclidean_division_is_unique();
}

/// -7 by 3 is -3 rounded down, by `floor` and `one_floor` of `rounded_quotients_are_floor_and_ceiling`, and -2 rounded
/// up, by `ceiling` and `one_ceiling`; 7 by 3 is 3 rounded up, by `negated`.
pub fn roundings_of_minus_seven_by_three()
    ensures floor { IsFloor (negsuc 6) (pos 3) (negsuc 2) }
    ensures one_floor { (q : ℤ) → IsFloor (negsuc 6) (pos 3) q → q ≡ negsuc 2 }
    ensures ceiling { IsCeiling (negsuc 6) (pos 3) (negsuc 1) }
    ensures one_ceiling { (q : ℤ) → IsCeiling (negsuc 6) (pos 3) q → q ≡ negsuc 1 }
    ensures negated { IsCeiling (pos 7) (pos 3) (pos 3) }
{
    rounded_quotients_are_floor_and_ceiling();
}

/// The floor -3 is at least and at most the numbers k with 3 k <= -7 and -7 < 3 k + 3, by the clauses of
/// `floor_bounds_quotients`; the ceiling -2 is at most and at least those with -7 <= 3 k and 3 k < -4, by those of
/// `ceiling_bounds_quotients`.
pub fn bounds_of_minus_seven_by_three()
    ensures floor_at_least { (k : ℤ) → (k ≤ℤ negsuc 2) ↔ ((k *ℤ pos 3) ≤ℤ negsuc 6) }
    ensures floor_at_most { (k : ℤ) → (negsuc 2 ≤ℤ k) ↔ (negsuc 6 <ℤ ((k *ℤ pos 3) +ℤ pos 3)) }
    ensures ceiling_at_most { (k : ℤ) → (negsuc 1 ≤ℤ k) ↔ (negsuc 6 ≤ℤ (k *ℤ pos 3)) }
    ensures ceiling_at_least { (k : ℤ) → (k ≤ℤ negsuc 1) ↔ ((k *ℤ pos 3) <ℤ negsuc 3) }
{
    floor_bounds_quotients();
    ceiling_bounds_quotients();
}

/// -3 and 2 are the quotient and the remainder of -7, by `euclid` of `remainders_repeat`; threes more leave the
/// remainder, by `floor` and `remainder`; 3 divides -6 and does not divide -7, by both sides of `none`.
pub fn remainders_by_three()
    ensures euclid { IsEuclid (negsuc 6) (pos 3) (negsuc 2) (pos 2) }
    ensures floor { (k : ℤ) → floor (negsuc 6 +ℤ (pos 3 *ℤ k)) (pos 3) ≡ negsuc 2 +ℤ k }
    ensures remainder { (k : ℤ) → remainder (negsuc 6 +ℤ (pos 3 *ℤ k)) (pos 3) ≡ pos 2 }
    ensures none { Divides (pos 3) (negsuc 5) }
    ensures some { Divides (pos 3) (negsuc 6) → ⊥ }
{
    remainders_repeat();
}

/// The row -7 x + 5 y is three times -3 x + y, and 2 x + 2 y, by `apart` of `dot_products_of_floors_and_remainders`;
/// the remainders are not negative, by `sign`.
pub fn a_row_in_floors_and_remainders()
    ensures apart { (x y : ℤ) → dot (negsuc 6 ∷ pos 5 ∷ []) (x ∷ y ∷ [])
        ≡ (pos 3 *ℤ dot (negsuc 2 ∷ pos 1 ∷ []) (x ∷ y ∷ [])) +ℤ dot (pos 2 ∷ pos 2 ∷ []) (x ∷ y ∷ []) }
    ensures sign { NotNegative (pos 2 ∷ pos 2 ∷ []) }
{
    dot_products_of_floors_and_remainders();
}

/// 6 divides -12 and 18, so their sum, and -3 times -12, by `sum` and `multiple` of `divisors_of_combinations`; -3
/// divides 6, so 18, by `divisor`.
pub fn divisors_of_minus_twelve_and_eighteen()
    ensures sum { Divides (pos 6) (pos 6) }
    ensures multiple { Divides (pos 6) (pos 36) }
    ensures divisor { Divides (negsuc 2) (pos 18) }
{
    divisors_of_combinations();
}

/// 6 is the greatest common divisor of -12 and 18, by `exists`, `unique` and `greatest` of
/// `greatest_common_divisor_is_unique`, of -6 and 0, by `of_zero`, and of 18 and -12, by `turned`.
pub fn the_greatest_common_divisor_of_minus_twelve_and_eighteen()
    ensures exists { (g : ℤ) × IsGreatestCommonDivisor (negsuc 11) (pos 18) g }
    ensures unique { (g : ℤ) → IsGreatestCommonDivisor (negsuc 11) (pos 18) g → g ≡ pos 6 }
    ensures greatest { (d : ℤ) → Divides d (negsuc 11) → Divides d (pos 18) → d ≤ℤ pos 6 }
    ensures of_zero { IsGreatestCommonDivisor (negsuc 5) (pos 0) (pos 6) }
    ensures turned { IsGreatestCommonDivisor (pos 18) (negsuc 11) (pos 6) }
{
    divisors_of_combinations();
    greatest_common_divisor_is_unique();
}

/// The content of (12, -18, 0, 30) is 6, by `divides` and `greatest` of `content_is_the_greatest_common_divisor`, and
/// that of three times the list is 18, by `multiples`.
pub fn content_of_four_numbers()
    ensures divides { All (Divides (pos 6)) (pos 12 ∷ negsuc 17 ∷ pos 0 ∷ pos 30 ∷ []) }
    ensures greatest { (d : ℤ) → All (Divides d) (pos 12 ∷ negsuc 17 ∷ pos 0 ∷ pos 30 ∷ []) → Divides d (pos 6) }
    ensures multiples { content (pos 36 ∷ negsuc 53 ∷ pos 0 ∷ pos 90 ∷ []) ≡ 18 }
{
    content_is_the_greatest_common_divisor();
}

/// (12, -18, 0, 30) is 6 times (2, -3, 0, 5), by `parts` of `lowest_terms_of_lists`; these are the lowest terms of
/// three times the list too, by `multiples`, have the content 1, by `content`, and stay, by `stay`.
pub fn lowest_terms_of_four_numbers()
    ensures parts { (pos 12 ∷ negsuc 17 ∷ pos 0 ∷ pos 30 ∷ [])
        ≡ multiples (pos 6) (pos 2 ∷ negsuc 2 ∷ pos 0 ∷ pos 5 ∷ []) }
    ensures multiples { lowest (pos 36 ∷ negsuc 53 ∷ pos 0 ∷ pos 90 ∷ []) ≡ pos 2 ∷ negsuc 2 ∷ pos 0 ∷ pos 5 ∷ [] }
    ensures content { content (pos 2 ∷ negsuc 2 ∷ pos 0 ∷ pos 5 ∷ []) ≡ 1 }
    ensures stay { lowest (pos 2 ∷ negsuc 2 ∷ pos 0 ∷ pos 5 ∷ []) ≡ pos 2 ∷ negsuc 2 ∷ pos 0 ∷ pos 5 ∷ [] }
{
    lowest_terms_of_lists();
}

/// The same of 12 x - 18 y + 30, by the clauses of `lowest_terms_of_forms`.
pub fn lowest_terms_of_a_form()
    ensures parts { form_of (pos 12 ∷ negsuc 17 ∷ []) (pos 30)
        ≡ multiple_of_form (pos 6) (form_of (pos 2 ∷ negsuc 2 ∷ []) (pos 5)) }
    ensures multiple { lowest_of_form (form_of (pos 36 ∷ negsuc 53 ∷ []) (pos 90))
        ≡ form_of (pos 2 ∷ negsuc 2 ∷ []) (pos 5) }
    ensures content { content_of_form (form_of (pos 2 ∷ negsuc 2 ∷ []) (pos 5)) ≡ 1 }
    ensures stay { lowest_of_form (form_of (pos 2 ∷ negsuc 2 ∷ []) (pos 5)) ≡ form_of (pos 2 ∷ negsuc 2 ∷ []) (pos 5) }
{
    lowest_terms_of_forms();
}
