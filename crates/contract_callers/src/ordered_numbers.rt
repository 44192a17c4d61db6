//! Callers of the laws of whole numbers: of their ring, their order, and what 128 bits hold. One number stays open
//! where given ones alone would compute.
ghost use Rattle.std.specs.Prelude.{◌≡◌, ◌^◌, ◌+ℤ◌, ◌-ℤ◌, ◌*ℤ◌, ◌≤ℤ◌, ◌<ℤ◌, ◌↔◌, FitsSigned, IsTrue, ℕ, ℤ, negsuc};
ghost use Rattle.std.specs.Prelude.{neg_ℤ, pos};
ghost use Rattle.std.specs.Int.{w128};
ghost use Rattle.whole_numbers.specs.Fits.{fits};

use whole_numbers::{
    fits_is_the_range_of_128_bits, multiples_below_a_divisor, positive_factors_cancel,
    products_keep_the_order, whole_numbers_are_a_commutative_ring,
};

/// Sums and products of a number with small ones, by the clauses of the same names of
/// `whole_numbers_are_a_commutative_ring`.
pub fn sums_and_products_with_small_numbers()
    ensures sums_group { (a : ℤ) → (a +ℤ pos 2) +ℤ negsuc 4 ≡ a +ℤ negsuc 2 }
    ensures sums_turn { (a : ℤ) → a +ℤ negsuc 2 ≡ negsuc 2 +ℤ a }
    ensures zero_is_the_unit { (a : ℤ) → pos 0 +ℤ (a *ℤ negsuc 1) ≡ a *ℤ negsuc 1 }
    ensures negation { (a : ℤ) → neg_ℤ (a *ℤ pos 3) +ℤ (a *ℤ pos 3) ≡ pos 0 }
    ensures products_group { (a : ℤ) → (a *ℤ pos 2) *ℤ negsuc 2 ≡ a *ℤ negsuc 5 }
    ensures products_turn { (a : ℤ) → a *ℤ negsuc 2 ≡ negsuc 2 *ℤ a }
    ensures one_is_the_unit { (a : ℤ) → pos 1 *ℤ (a +ℤ pos 2) ≡ a +ℤ pos 2 }
    ensures over_sums { (a : ℤ) → (a +ℤ pos 5) *ℤ negsuc 1 ≡ (a *ℤ negsuc 1) +ℤ negsuc 9 }
    ensures over_differences { (a : ℤ) → (pos 7 -ℤ a) *ℤ pos 3 ≡ pos 21 -ℤ (a *ℤ pos 3) }
{
    whole_numbers_are_a_commutative_ring();
}

/// Three times what is at most 4, or above -2, by `kept` and `strict` of `products_keep_the_order`; -3 times the
/// former, by `turned`.
pub fn three_times_a_bounded_number()
    ensures kept { (a : ℤ) → a ≤ℤ pos 4 → (a *ℤ pos 3) ≤ℤ pos 12 }
    ensures strict { (a : ℤ) → negsuc 1 <ℤ a → negsuc 5 <ℤ (a *ℤ pos 3) }
    ensures turned { (a : ℤ) → a ≤ℤ pos 4 → negsuc 11 ≤ℤ (a *ℤ negsuc 2) }
{
    products_keep_the_order();
}

/// A third of what is at most 12, below -6, or -6, by `at_most`, `below` and `equal` of `positive_factors_cancel`.
pub fn a_third_of_a_bounded_number()
    ensures at_most { (a : ℤ) → (a *ℤ pos 3) ≤ℤ pos 12 → a ≤ℤ pos 4 }
    ensures below { (a : ℤ) → (a *ℤ pos 3) <ℤ negsuc 5 → a <ℤ negsuc 1 }
    ensures equal { (a : ℤ) → a *ℤ pos 3 ≡ negsuc 5 → a ≡ negsuc 1 }
{
    positive_factors_cancel();
}

/// Between -5 and 5 only 0 is a multiple of 5, by the clause of `multiples_below_a_divisor`.
pub fn a_multiple_of_five_near_zero()
    ensures { (w : ℤ) → negsuc 4 <ℤ (pos 5 *ℤ w) → (pos 5 *ℤ w) <ℤ pos 5 → w ≡ pos 0 }
{
    multiples_below_a_divisor();
}

/// -2^127 fits and 2^127 does not, by `range` of `fits_is_the_range_of_128_bits`; numbers from -8 to 7 fit, by
/// `between`; a negative number fits exactly where `i128` holds it, by `i128`.
pub fn numbers_of_128_bits()
    ensures least { IsTrue (fits (neg_ℤ (pos (2 ^ 127)))) }
    ensures past { IsTrue (fits (pos (2 ^ 127))) → ⊥ }
    ensures between { (z : ℤ) → negsuc 7 ≤ℤ z → z ≤ℤ pos 7 → IsTrue (fits z) }
    ensures i128 { (n : ℕ) → IsTrue (fits (negsuc n)) ↔ FitsSigned w128 (negsuc n) }
{
    fits_is_the_range_of_128_bits();
}
