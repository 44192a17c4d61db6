//! The greatest common divisor of two `i128`, by Euclid's algorithm on their sizes.
ghost use Rattle.std.specs.Prelude.{◌≡◌, ℕ, pos};
ghost use Rattle.std.specs.Int.{IsGcd};
ghost use Rattle.whole_numbers.specs.Divisors.{IsGreatestCommonDivisor};
ghost use Rattle.wide_math.specs.Checked.{checked};

use crate::{Op, Wide};

/// The greatest common divisor of `a` and `b`, which is not negative; 0 for 0 and 0.
///
/// # Errors
/// `Wide` exactly where it is 2^127: for `i128::MIN` with itself or with 0.
pub fn gcd(a: i128, b: i128) -> Result<i128, Wide>
    ensures { (g : ℕ) × IsGreatestCommonDivisor a b (pos g) × (result ≡ checked Op.Gcd a b (pos g)) }
{
    match i128::try_from(gcd_of_sizes(a.unsigned_abs(), b.unsigned_abs())) {
        Ok(divisor) => Ok(divisor),
        Err(_) => Err(Wide { op: Op::Gcd, a, b }),
    }
}

/// The greatest common divisor of two sizes; 0 for 0 and 0. By 64 bits as soon as both have them, since
/// a remainder of 128 bits costs ten times as much.
pub fn gcd_of_sizes(mut x: u128, mut y: u128) -> u128
    ensures { IsGcd x y result }
{
    while y != 0 {
        if let (Ok(a), Ok(b)) = (u64::try_from(x), u64::try_from(y)) {
            return u128::from(narrow_gcd(a, b));
        }
        let rest = x % y;
        x = y;
        y = rest;
    }
    x
}

// The same of sizes of 64 bits.
fn narrow_gcd(mut x: u64, mut y: u64) -> u64
    ensures { IsGcd x y result }
{
    while y != 0 {
        let rest = x % y;
        x = y;
        y = rest;
    }
    x
}
