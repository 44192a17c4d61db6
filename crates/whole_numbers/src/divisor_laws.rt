//! Divisors and the greatest common divisor of whole numbers, as in Knuth, The Art of Computer
//! Programming 2, section 4.5.2.
ghost use Rattle.std.specs.Prelude.{◌≡◌, ℤ, pos, ◌+ℤ◌, ◌*ℤ◌, ◌≤ℤ◌, ◌<ℤ◌, unsigned_abs};
ghost use Rattle.whole_numbers.specs.Divisors.{Divides, IsGreatestCommonDivisor};

/// A divisor of two numbers divides their sum, and each multiple of one of them.
#[tactic(auto, using(crate::proofs::Divisors::divides_laws))]
pub fn divisors_of_combinations()
    ensures sum { (d a b : ℤ) → Divides d a → Divides d b → Divides d (a +ℤ b) }
    ensures multiple { (d a k : ℤ) → Divides d a → Divides d (a *ℤ k) }
    ensures divisor { (d e a : ℤ) → Divides d e → Divides e a → Divides d a }
{}

/// Two numbers have exactly one greatest common divisor, which no common divisor exceeds unless it
/// is 0; that of a number and 0 is the number's size.
#[tactic(auto, using(crate::proofs::Divisors::gcd_laws))]
pub fn greatest_common_divisor_is_unique()
    ensures exists { (a b : ℤ) → (g : ℤ) × IsGreatestCommonDivisor a b g }
    ensures unique { (a b g h : ℤ) → IsGreatestCommonDivisor a b g → IsGreatestCommonDivisor a b h → g ≡ h }
    ensures greatest { (a b g d : ℤ)
        → IsGreatestCommonDivisor a b g
        → pos 0 <ℤ g
        → Divides d a
        → Divides d b
        → d ≤ℤ g }
    ensures of_zero { (a : ℤ) → IsGreatestCommonDivisor a (pos 0) (pos (unsigned_abs a)) }
    ensures turned { (a b g : ℤ) → IsGreatestCommonDivisor a b g → IsGreatestCommonDivisor b a g }
{}
