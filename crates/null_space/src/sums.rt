//! Sums of products that 128 bits hold, as their conditions say.
ghost use Rattle.std.specs.Prelude.{◌≡◌, ◌≤◌, ◌^◌, ℤ, ◌+ℤ◌, ◌*ℤ◌, length, IfOk};
ghost use Rattle.whole_numbers.specs.Lists.{dot, sums, multiples};
ghost use Rattle.null_space.specs.Sizes.{IsWithin, AreWithin, AreCoefficients};

use std::alloc::{AllocError, Global};

/// `sum + a * b`.
fn multiply_add(sum: i128, a: i128, b: i128) -> i128
    requires sum { IsWithin (2 ^ 126) sum }
    requires a { IsWithin (2 ^ 109) a }
    requires b { IsWithin (2 ^ 14) b }
    ensures { result ≡ sum +ℤ (a *ℤ b) }
{
    sum + a * b
}

/// The dot product.
pub fn dot(vector: &[i128], coefficients: &[i128]) -> i128
    requires lengths { length vector.now ≡ length coefficients.now }
    requires few { length vector.now ≤ 5 }
    requires vector { AreWithin (2 ^ 109) vector.now }
    requires coefficients { AreCoefficients coefficients.now }
    ensures { result ≡ dot vector.now coefficients.now }
{
    let mut sum: i128 = 0;
    for at in 0..vector.len() {
        sum = multiply_add(sum, vector[at], coefficients[at]);
    }
    sum
}

/// `a * x + b * y`.
fn cross_sum(a: i128, x: i128, b: i128, y: i128) -> i128
    requires a { IsWithin (2 ^ 64) a }
    requires x { IsWithin (2 ^ 47) x }
    requires b { IsWithin (2 ^ 64) b }
    requires y { IsWithin (2 ^ 47) y }
    ensures { result ≡ (a *ℤ x) +ℤ (b *ℤ y) }
{
    a * x + b * y
}

/// `a` times the first vector plus `b` times the second.
pub fn sum_of_multiples(
    alloc: Global,
    a: i128,
    x: &[i128],
    b: i128,
    y: &[i128],
) -> Result<Vec<i128>, AllocError>
    requires lengths { length x.now ≡ length y.now }
    requires a { IsWithin (2 ^ 64) a }
    requires x { AreWithin (2 ^ 47) x.now }
    requires b { IsWithin (2 ^ 64) b }
    requires y { AreWithin (2 ^ 47) y.now }
    ensures { IfOk result (λ v. v.items ≡ sums (multiples a x.now) (multiples b y.now)) }
{
    let mut sum = Vec::new(alloc);
    for at in 0..x.len() {
        sum.push(cross_sum(a, x[at], b, y[at]))?;
    }
    Ok(sum)
}
