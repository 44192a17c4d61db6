//! Values of affine forms. Sums and products are taken modulo 2^64 in two's complement, so a value
//! that lies in the range of `i64` is exact, whatever its parts are.
ghost use Rattle.std.specs.Prelude.{◌≡◌, ◌+ℤ◌, ◌*ℤ◌, FitsSigned};
ghost use Rattle.std.specs.Int.{int_wrap, w64};
ghost use Rattle.whole_numbers.specs.Affine.{value_of};
ghost use Rattle.scop_syntax.specs.Values.{wrapped};

use crate::tree::Aff;

/// `value + coefficient * entry`, modulo 2^64.
pub fn with_product(value: i64, coefficient: i64, entry: i64) -> i64
    ensures { result ≡ int_wrap w64 (value +ℤ (coefficient *ℤ entry)) }
{
    value.wrapping_add(coefficient.wrapping_mul(entry))
}

/// The value of `form` at `point`, modulo 2^64 as a signed number.
pub fn value_at(form: &Aff, point: &[i64]) -> i64
    ensures { result ≡ int_wrap w64 (value_of form.now point.now) }
{
    let mut value = form.constant;
    let count = form.coefficients.len().min(point.len());
    for at in 0..count {
        value = with_product(value, form.coefficients[at], point[at]);
    }
    value
}

/// The value of `form` at `point`.
pub fn exact_at(form: &Aff, point: &[i64]) -> i64
    requires { FitsSigned w64 (value_of form.now point.now) }
    ensures { result ≡ value_of form.now point.now }
{
    value_at(form, point)
}

/// The value of `form` at `point`, modulo 2^64.
pub fn wrapped_at(form: &Aff, point: &[i64]) -> u64
    ensures { result ≡ wrapped (value_of form.now point.now) }
{
    value_at(form, point).cast_unsigned()
}
