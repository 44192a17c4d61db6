//! What C makes of values: its operators over unsigned numbers of 64 bits.
ghost use Rattle.std.specs.Prelude.{◌≡◌, ◌-◌, ◌*◌, ◌/◌, ◌%◌, ◌^◌};
ghost use Rattle.scop_syntax.specs.View.{operator_of};
ghost use Rattle.scop_syntax.specs.Values.{applied};

use scop_syntax::Operator;

/// The value of `left operator right`.
#[inline]
pub fn combined(operator: Operator, left: u64, right: u64) -> u64
    ensures { result ≡ applied (operator_of operator) left right }
{
    match operator {
        Operator::Plus => left.wrapping_add(right),
        Operator::Minus => left.wrapping_sub(right),
        Operator::Times => left.wrapping_mul(right),
        Operator::And => left & right,
        Operator::Or => left | right,
        Operator::Xor => left ^ right,
    }
}

/// The value of `-value`.
#[inline]
pub fn negated(value: u64) -> u64
    ensures { result ≡ (2 ^ 64 - value) % 2 ^ 64 }
{
    0u64.wrapping_sub(value)
}

/// The value of `~value`.
#[inline]
pub fn complemented(value: u64) -> u64
    ensures { result ≡ 2 ^ 64 - 1 - value }
{
    !value
}

/// The low 32 bits of `value`.
#[inline]
pub fn narrowed(value: u64) -> u64
    ensures { result ≡ value % 2 ^ 32 }
{
    value % (1 << 32)
}

/// The value of `value << count`: its low 64 bits.
#[inline]
pub fn shifted_left(value: u64, count: u8) -> u64
    ensures { result ≡ (value * 2 ^ count) % 2 ^ 64 }
{
    match value.checked_shl(u32::from(count)) {
        Some(shifted) => shifted,
        None => 0,
    }
}

/// The value of `value >> count`.
#[inline]
pub fn shifted_right(value: u64, count: u8) -> u64
    ensures { result ≡ value / 2 ^ count }
{
    match value.checked_shr(u32::from(count)) {
        Some(shifted) => shifted,
        None => 0,
    }
}
