//! The whole numbers between which the one variable of a system lies, as far as its constraints have small numbers.

ghost use Rattle.std.specs.Prelude.{◌≡◌, ◌≢◌, ◌≤◌, ◌<◌, ◌^◌, ◌↔◌, ◌⊎◌, []};
ghost use Rattle.std.specs.Prelude.{◌∷◌, ℤ, pos, ◌+ℤ◌, ◌*ℤ◌, ◌≤ℤ◌, neg_ℤ, IsTrue};
ghost use Rattle.std.specs.Prelude.{IfSome, None, Some, unsigned_abs, All};
ghost use Rattle.whole_numbers.specs.Affine.{value_of};
ghost use Rattle.affine_forms.specs.Parts.{variables_of};
ghost use Rattle.fractions.specs.Elimination.{coefficient_of};
ghost use Rattle.loop_tree.specs.Walk.{max_z};
ghost use Rattle.plain_scan.specs.Between.{HasSmallNumbers};
ghost use Rattle.plain_scan.specs.Between.{IsLargeAmong, IsLargeIn};
ghost use Rattle.plain_scan.specs.steps.Numbers.{AreNumbersOf, AreSmall, LiesBetween};

use affine_forms::Form;
use integer_sets::System;
use wide_math::{ceil_div, floor_div};

/// The greatest number of a scanned tree.
const MOST: u128 = 1_099_511_627_776;

/// The bounds that rows of small numbers give, and a number beyond 2^40 of a row that might have given one.
#[derive(Clone, Copy)]
pub struct Numbers {
    pub low: Option<i128>,
    pub high: Option<i128>,
    pub large: Option<i128>,
}

/// Whether the number lies within 2^40.
pub fn is_small(number: i128) -> bool
    ensures { IsTrue result ↔ (unsigned_abs number ≤ 2 ^ 40) }
{
    number.unsigned_abs() <= MOST
}

/// The greater of two numbers.
pub fn greater(a: i128, b: i128) -> i128
    ensures is { result ≡ max_z a b }
    ensures first { a ≤ℤ result }
    ensures second { b ≤ℤ result }
    ensures small { unsigned_abs a ≤ 2 ^ 40 → unsigned_abs b ≤ 2 ^ 40 → unsigned_abs result ≤ 2 ^ 40 }
{
    if a <= b { b } else { a }
}

/// The first of two numbers that is beyond 2^40.
fn large_of(first: i128, second: i128) -> Option<i128>
    ensures none { result ≡ None → (unsigned_abs first ≤ 2 ^ 40) × (unsigned_abs second ≤ 2 ^ 40) }
    ensures some { IfSome result (λ z. (2 ^ 40 < unsigned_abs z) × ((z ≡ first) ⊎ (z ≡ second))) }
{
    if !is_small(first) {
        return Some(first);
    }
    if !is_small(second) {
        return Some(second);
    }
    None
}

/// The opposite of a small number.
pub fn opposite(number: i128) -> i128
    requires { unsigned_abs number ≤ 2 ^ 40 }
    ensures exact { result ≡ neg_ℤ number }
    ensures small { unsigned_abs result ≤ 2 ^ 40 }
{
    -number
}

/// Also a lower bound.
fn with_low(numbers: Numbers, bound: i128) -> Numbers
    requires { unsigned_abs bound ≤ 2 ^ 40 }
    ensures between { (x : ℤ) → bound ≤ℤ x → LiesBetween numbers x → LiesBetween result x }
    ensures small { AreSmall numbers → AreSmall result }
    ensures low { result.low ≢ None }
    ensures high { result.high ≡ numbers.high }
    ensures large { result.large ≡ numbers.large }
{
    match numbers.low {
        Some(low) if bound <= low => numbers,
        _ => Numbers {
            low: Some(bound),
            ..numbers
        },
    }
}

/// Also an upper bound.
fn with_high(numbers: Numbers, bound: i128) -> Numbers
    requires { unsigned_abs bound ≤ 2 ^ 40 }
    ensures between { (x : ℤ) → x ≤ℤ bound → LiesBetween numbers x → LiesBetween result x }
    ensures small { AreSmall numbers → AreSmall result }
    ensures high { result.high ≢ None }
    ensures low { result.low ≡ numbers.low }
    ensures large { result.large ≡ numbers.large }
{
    match numbers.high {
        Some(high) if high <= bound => numbers,
        _ => Numbers {
            high: Some(bound),
            ..numbers
        },
    }
}

/// Also the row `factor x + constant >= 0` of small numbers.
fn with_small_row(numbers: Numbers, factor: i128, constant: i128) -> Numbers
    requires some { factor ≢ pos 0 }
    requires factor { unsigned_abs factor ≤ 2 ^ 40 }
    requires constant { unsigned_abs constant ≤ 2 ^ 40 }
    ensures between { (x : ℤ) → pos 0 ≤ℤ ((factor *ℤ x) +ℤ constant) → LiesBetween numbers x → LiesBetween result x }
    ensures small { AreSmall numbers → AreSmall result }
    ensures low { result.low ≡ None → (numbers.low ≡ None) × (factor ≤ℤ pos 0) }
    ensures high { result.high ≡ None → (numbers.high ≡ None) × (pos 0 ≤ℤ factor) }
    ensures large { result.large ≡ numbers.large }
{
    if factor > 0 {
        match ceil_div(opposite(constant), factor) {
            Ok(bound) => with_low(numbers, bound),
            Err(_) => numbers,
        }
    } else {
        match floor_div(constant, opposite(factor)) {
            Ok(bound) => with_high(numbers, bound),
            Err(_) => numbers,
        }
    }
}

/// With a number beyond 2^40.
fn with_large(numbers: Numbers, number: i128) -> Numbers
    ensures low { result.low ≡ numbers.low }
    ensures high { result.high ≡ numbers.high }
    ensures large { result.large ≡ Some number }
{
    Numbers {
        large: Some(number),
        ..numbers
    }
}

/// Also the row `factor x + constant >= 0`.
fn with_row(numbers: Numbers, factor: i128, constant: i128) -> Numbers
    ensures between { (x : ℤ) → pos 0 ≤ℤ ((factor *ℤ x) +ℤ constant) → LiesBetween numbers x → LiesBetween result x }
    ensures small { AreSmall numbers → AreSmall result }
    ensures low { result.low ≡ None → result.large ≡ None
        → (numbers.low ≡ None) × (numbers.large ≡ None) × (factor ≤ℤ pos 0) }
    ensures high { result.high ≡ None → result.large ≡ None
        → (numbers.high ≡ None) × (numbers.large ≡ None) × (pos 0 ≤ℤ factor) }
    ensures large { IfSome result.large (λ z. (numbers.large ≡ Some z)
        ⊎ ((2 ^ 40 < unsigned_abs z) × ((z ≡ factor) ⊎ (z ≡ constant)))) }
{
    if factor == 0 {
        return numbers;
    }
    match large_of(factor, constant) {
        Some(number) => with_large(numbers, number),
        None => with_small_row(numbers, factor, constant),
    }
}

/// Also the equality `factor x + constant = 0`.
fn with_equality(numbers: Numbers, factor: i128, constant: i128) -> Numbers
    ensures between { (x : ℤ) → (factor *ℤ x) +ℤ constant ≡ pos 0 → LiesBetween numbers x → LiesBetween result x }
    ensures small { AreSmall numbers → AreSmall result }
    ensures low { result.low ≡ None → result.large ≡ None
        → (numbers.low ≡ None) × (numbers.large ≡ None) × (factor ≡ pos 0) }
    ensures high { result.high ≡ None → result.large ≡ None
        → (numbers.high ≡ None) × (numbers.large ≡ None) × (factor ≡ pos 0) }
    ensures large { IfSome result.large (λ z. (numbers.large ≡ Some z)
        ⊎ ((2 ^ 40 < unsigned_abs z) × ((z ≡ factor) ⊎ (z ≡ constant)))) }
{
    if factor == 0 {
        return numbers;
    }
    match large_of(factor, constant) {
        Some(number) => with_large(numbers, number),
        None => with_small_row(
            with_small_row(numbers, factor, constant),
            opposite(factor),
            opposite(constant),
        ),
    }
}

/// The coefficient of the one variable.
fn coefficient(form: &Form) -> i128
    requires { variables_of form.now ≡ 1 }
    ensures { result ≡ coefficient_of 0 form.now }
{
    form.coefficients()[0]
}

/// Also the row.
fn with_row_of(numbers: Numbers, form: &Form) -> Numbers
    requires { variables_of form.now ≡ 1 }
    ensures between { (x : ℤ) → pos 0 ≤ℤ value_of form.now (x ∷ []) → LiesBetween numbers x → LiesBetween result x }
    ensures small { AreSmall numbers → AreSmall result }
    ensures low { result.low ≡ None → result.large ≡ None
        → (numbers.low ≡ None) × (numbers.large ≡ None) × (coefficient_of 0 form.now ≤ℤ pos 0) }
    ensures high { result.high ≡ None → result.large ≡ None
        → (numbers.high ≡ None) × (numbers.large ≡ None) × (pos 0 ≤ℤ coefficient_of 0 form.now) }
    ensures large { IfSome result.large (λ z. (numbers.large ≡ Some z) ⊎ IsLargeIn form.now z) }
{
    with_row(numbers, coefficient(form), form.constant())
}

/// Also the equality.
fn with_equality_of(numbers: Numbers, form: &Form) -> Numbers
    requires { variables_of form.now ≡ 1 }
    ensures between { (x : ℤ) → value_of form.now (x ∷ []) ≡ pos 0 → LiesBetween numbers x → LiesBetween result x }
    ensures small { AreSmall numbers → AreSmall result }
    ensures low { result.low ≡ None → result.large ≡ None
        → (numbers.low ≡ None) × (numbers.large ≡ None) × (coefficient_of 0 form.now ≡ pos 0) }
    ensures high { result.high ≡ None → result.large ≡ None
        → (numbers.high ≡ None) × (numbers.large ≡ None) × (coefficient_of 0 form.now ≡ pos 0) }
    ensures large { IfSome result.large (λ z. (numbers.large ≡ Some z) ⊎ IsLargeIn form.now z) }
{
    with_equality(numbers, coefficient(form), form.constant())
}

/// The bounds of a system's one variable: where none from one side is found and no number is beyond 2^40, there is
/// none.
pub fn numbers_alone(alone: &System) -> Numbers
    requires dimensions { alone.now.dimensions ≡ 1 }
    requires parameters { alone.now.parameters ≡ 0 }
    ensures { AreNumbersOf alone.now result }
{
    let mut numbers = Numbers {
        low: None,
        high: None,
        large: None,
    };
    for form in alone.equalities() {
        numbers = with_equality_of(numbers, form);
    }
    for form in alone.rows() {
        numbers = with_row_of(numbers, form);
    }
    numbers
}

/// A number of a form that is beyond 2^40.
fn large_in(form: &Form) -> Option<i128>
    ensures none { result ≡ None → HasSmallNumbers form.now }
    ensures some { IfSome result (IsLargeIn form.now) }
{
    for number in form.coefficients() {
        if !is_small(*number) {
            return Some(*number);
        }
    }
    if is_small(form.constant()) {
        None
    } else {
        Some(form.constant())
    }
}

/// Whether the numbers of a form are small.
pub fn has_small_numbers(form: &Form) -> bool
    ensures { IsTrue result → HasSmallNumbers form.now }
{
    match large_in(form) {
        None => true,
        Some(_) => false,
    }
}

/// A number of one of the forms that is beyond 2^40.
pub fn large_among(forms: &[Form]) -> Option<i128>
    ensures none { result ≡ None → All HasSmallNumbers forms.now }
    ensures some { IfSome result (IsLargeAmong forms.now) }
{
    for form in forms {
        match large_in(form) {
            Some(number) => return Some(number),
            None => {}
        }
    }
    None
}
