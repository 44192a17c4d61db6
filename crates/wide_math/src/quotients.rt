//! Quotients of `i128` by a positive number, rounded down and up, and the remainder: each exactly the
//! floor, the ceiling or Euclid's remainder, with one division. None can leave 128 bits.
ghost use Rattle.std.specs.Prelude.{◌≡◌, pos, ◌≤ℤ◌, IsOkAnd};
ghost use Rattle.whole_numbers.specs.Division.{IsFloor, IsCeiling};
ghost use Rattle.whole_numbers.specs.Floor.{remainder};

use crate::Wide;

/// `a / b`, rounded down. For a positive `b` the quotient always fits 128 bits.
#[inline]
pub fn floor_div(a: i128, b: i128) -> Result<i128, Wide>
    requires { pos 1 ≤ℤ b }
    ensures { IsOkAnd result (λ q. IsFloor a b q) }
{
    if a < 0 {
        Ok((a + 1) / b - 1)
    } else {
        Ok(a / b)
    }
}

/// `a / b`, rounded up. For a positive `b` the quotient always fits 128 bits.
#[inline]
pub fn ceil_div(a: i128, b: i128) -> Result<i128, Wide>
    requires { pos 1 ≤ℤ b }
    ensures { IsOkAnd result (λ q. IsCeiling a b q) }
{
    if a > 0 {
        Ok((a - 1) / b + 1)
    } else {
        Ok(a / b)
    }
}

/// What `floor_div` leaves: Euclid's remainder, from 0 up to, but not, `b`.
#[inline]
pub fn remainder(a: i128, b: i128) -> i128
    requires { pos 1 ≤ℤ b }
    ensures { result ≡ remainder a b }
{
    let rest = a % b;
    if rest < 0 { rest + b } else { rest }
}
