//! Callers of checked arithmetic.
ghost use Rattle.std.specs.Prelude.{◌≡◌, ◌-◌, ◌^◌, ℤ, pos, Err, IfOk, Ok};
ghost use Rattle.whole_numbers.specs.Divisors.{Divides};
ghost use Rattle.wide_math.specs.Checked.{sum_of, wide};
ghost use Rattle.wide_math.specs.declared.Op.TheVariants.{Add};

use wide_math::{Wide, ceil_div, checked_operations_are_exact, gcd, remainder};

/// A half rounds up to 1, by the clause of `ceil_div`.
pub fn half_rounded_up() -> Result<i128, Wide>
    ensures { result ≡ Ok (pos 1) }
{
    ceil_div(1, 2)
}

/// -1 leaves 1 of 2, by the clause of `remainder`.
pub fn remainder_of_a_negative() -> i128
    ensures { result ≡ pos 1 }
{
    remainder(-1, 2)
}

/// What `gcd` answers divides the first number, by its clause.
#[tactic(auto, unfolding(wide_math::specs::Checked::checked))]
pub fn divisor_of_first(first: i128, second: i128) -> Result<i128, Wide>
    ensures { IfOk result (λ divisor. Divides divisor first) }
{
    gcd(first, second)
}

/// 2^127 - 2 and 1 have the sum 2^127 - 1 and no other, by both sides of `result` of `checked_operations_are_exact`,
/// and no error, by `error`.
pub fn the_greatest_sum()
    ensures result { sum_of (pos (2 ^ 127 - 2)) (pos 1) ≡ Ok (pos (2 ^ 127 - 1)) }
    ensures only { (y : ℤ) → sum_of (pos (2 ^ 127 - 2)) (pos 1) ≡ Ok y → y ≡ pos (2 ^ 127 - 1) }
    ensures none { (e : Wide) → sum_of (pos (2 ^ 127 - 2)) (pos 1) ≡ Err e → ⊥ }
{
    checked_operations_are_exact();
}

/// 2^127 - 1 and 1 have the error that names them and no other, by both sides of `error` of
/// `checked_operations_are_exact`, and no sum, by `result`.
pub fn a_sum_above_the_greatest()
    ensures error { sum_of (pos (2 ^ 127 - 1)) (pos 1) ≡ Err (wide Add (pos (2 ^ 127 - 1)) (pos 1)) }
    ensures only { (e : Wide) → sum_of (pos (2 ^ 127 - 1)) (pos 1) ≡ Err e
        → e ≡ wide Add (pos (2 ^ 127 - 1)) (pos 1) }
    ensures none { (y : ℤ) → sum_of (pos (2 ^ 127 - 1)) (pos 1) ≡ Ok y → ⊥ }
{
    checked_operations_are_exact();
}
