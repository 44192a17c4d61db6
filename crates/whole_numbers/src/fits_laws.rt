//! What 128 bits hold.
ghost use Rattle.std.specs.Prelude.{ℤ, pos, neg_ℤ, ◌^◌, ◌≤ℤ◌, ◌<ℤ◌, ◌↔◌, IsTrue, FitsSigned};
ghost use Rattle.std.specs.Int.{w128};
ghost use Rattle.whole_numbers.specs.Fits.{fits};

/// The test `fits` is the range of `i128`: from -2^127 up to, but not, 2^127.
#[tactic(auto, using(crate::proofs::Fits::fits_laws))]
pub fn fits_is_the_range_of_128_bits()
    ensures range { (z : ℤ) → IsTrue (fits z) ↔ ((neg_ℤ (pos (2 ^ 127)) ≤ℤ z) × (z <ℤ pos (2 ^ 127))) }
    ensures between { (low z high : ℤ)
        → IsTrue (fits low)
        → IsTrue (fits high)
        → low ≤ℤ z
        → z ≤ℤ high
        → IsTrue (fits z) }
    ensures i128 { (z : ℤ) → IsTrue (fits z) ↔ FitsSigned w128 z }
{}
