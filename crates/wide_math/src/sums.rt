//! Sums, differences and products of `i128`: each exactly the result, or exactly the error that
//! names the operation and its numbers.
ghost use Rattle.std.specs.Prelude.{◌≡◌, ◌-ℤ◌, ◌*ℤ◌};
ghost use Rattle.wide_math.specs.Checked.{sum_of, difference_of, product_of, cross_of, cross_sum_of};

use crate::{Op, Wide};

/// `a + b`.
///
/// # Errors
/// `Wide` exactly where the sum does not fit 128 bits.
#[tactic(auto, unfolding(crate::specs::Checked::checked))]
#[inline]
pub fn add(a: i128, b: i128) -> Result<i128, Wide>
    ensures { result ≡ sum_of a b }
{
    match a.checked_add(b) {
        Some(sum) => Ok(sum),
        None => Err(Wide { op: Op::Add, a, b }),
    }
}

/// `a - b`.
///
/// # Errors
/// `Wide` exactly where the difference does not fit 128 bits.
#[tactic(auto, unfolding(crate::specs::Checked::checked))]
#[inline]
pub fn sub(a: i128, b: i128) -> Result<i128, Wide>
    ensures { result ≡ difference_of a b }
{
    match a.checked_sub(b) {
        Some(difference) => Ok(difference),
        None => Err(Wide { op: Op::Sub, a, b }),
    }
}

/// `a * b`.
///
/// # Errors
/// `Wide` exactly where the product does not fit 128 bits.
#[tactic(auto, unfolding(crate::specs::Checked::checked))]
#[inline]
pub fn mul(a: i128, b: i128) -> Result<i128, Wide>
    ensures { result ≡ product_of a b }
{
    if let (Ok(x), Ok(y)) = (i64::try_from(a), i64::try_from(b)) {
        return Ok(i128::from(x) * i128::from(y));
    }
    match a.checked_mul(b) {
        Some(product) => Ok(product),
        None => Err(Wide { op: Op::Mul, a, b }),
    }
}

/// `a * b - c * d`: the products first, then the difference.
///
/// # Errors
/// `Wide` names the first of the three numbers that does not fit 128 bits.
#[inline]
#[tactic(auto, unfolding(crate::specs::Checked::cross_of))]
pub fn cross(a: i128, b: i128, c: i128, d: i128) -> Result<i128, Wide>
    ensures { result ≡ cross_of a b c d }
{
    if let (Ok(a), Ok(b), Ok(c), Ok(d)) = (
        i64::try_from(a),
        i64::try_from(b),
        i64::try_from(c),
        i64::try_from(d),
    ) {
        return Ok(narrow_cross(a, b, c, d));
    }
    wide_cross(a, b, c, d)
}

// The same of any numbers. It stays a call, so that the other way is short enough to stand in a loop.
#[inline(never)]
#[tactic(auto, unfolding(crate::specs::Checked::cross_of))]
fn wide_cross(a: i128, b: i128, c: i128, d: i128) -> Result<i128, Wide>
    ensures { result ≡ cross_of a b c d }
{
    match mul(a, b) {
        Err(wide) => Err(wide),
        Ok(left) => match mul(c, d) {
            Err(wide) => Err(wide),
            Ok(right) => sub(left, right),
        },
    }
}

/// `a * b + c * d`: the products first, then the sum.
///
/// # Errors
/// `Wide` names the first of the three numbers that does not fit 128 bits.
#[inline]
#[tactic(auto, unfolding(crate::specs::Checked::cross_sum_of))]
pub fn cross_sum(a: i128, b: i128, c: i128, d: i128) -> Result<i128, Wide>
    ensures { result ≡ cross_sum_of a b c d }
{
    match mul(a, b) {
        Err(wide) => Err(wide),
        Ok(left) => match mul(c, d) {
            Err(wide) => Err(wide),
            Ok(right) => add(left, right),
        },
    }
}

// The difference of numbers of 64 bits: no number on the way leaves 128 bits.
#[inline]
fn narrow_cross(a: i64, b: i64, c: i64, d: i64) -> i128
    ensures { result ≡ (a *ℤ b) -ℤ (c *ℤ d) }
{
    i128::from(a) * i128::from(b) - i128::from(c) * i128::from(d)
}
