//! Bounds and tests without common factors: where a number divides a form's coefficients, and the divisor, they are
//! divided by it, and the constant is rounded. Gives exactly the forms of specs/steps/Rounded.antt.
ghost use Rattle.std.specs.Prelude.{◌≡◌, ◌≤◌, ◌^◌, IfOk, false, neg_ℤ, pos, unsigned_abs};
ghost use Rattle.whole_numbers.specs.Floor.{floor, floors};
ghost use Rattle.scop_syntax.specs.Kernel.{AreAtMost};
ghost use Rattle.loop_tree.specs.Shape.{IsOverUpTo, IsUpTo, TestIsUpTo};
ghost use Rattle.loop_tree.specs.Tree.{at_least, equal};
ghost use Rattle.loop_tree.specs.View.{test_of};
ghost use Rattle.tree_simplification.specs.steps.Rounded.{divisor_by, factor_of, form_by, quotient, rounded};
ghost use Rattle.tree_simplification.specs.steps.Rounded.{rounded_test};

use crate::single::numbers::{Stop, narrow, narrow_number, narrow_numbers};
use affine_forms::{Form, content, divide_row};
use loop_tree::{Bound, Test};
use scop_syntax::Aff;
use std::alloc::Global;

/// A number over another, rounded down.
fn rounded_down(number: i128, by: u128) -> i128
    requires { 2 ≤ by }
    ensures { result ≡ floor number (pos by) }
{
    let mut row = [number];
    divide_row(&mut row, by);
    row[0]
}

/// The opposite of a number.
fn opposite(number: i128) -> Result<i128, Stop>
    ensures { IfOk result (λ x. x ≡ neg_ℤ number) }
{
    if number == i128::MIN {
        Err(Stop::Large)
    } else {
        Ok(-number)
    }
}

/// A number over another, rounded up or down.
fn quotient(number: i128, by: u128, up: bool) -> Result<i128, Stop>
    requires { 2 ≤ by }
    ensures { IfOk result (λ x. x ≡ quotient up number (pos by)) }
{
    if up {
        let number = opposite(number)?;
        opposite(rounded_down(number, by))
    } else {
        Ok(rounded_down(number, by))
    }
}

/// So as a number of a tree.
fn narrow_quotient(number: i128, by: u128, up: bool) -> Result<i64, Stop>
    requires { 2 ≤ by }
    ensures same { IfOk result (λ x. x ≡ quotient up number (pos by)) }
    ensures small { IfOk result (λ x. unsigned_abs x ≤ 2 ^ 45) }
{
    match narrow_number(quotient(number, by, up)?) {
        None => Err(Stop::Large),
        Some(narrow) => Ok(narrow),
    }
}

/// Numbers over another, rounded down.
fn quotients(alloc: Global, numbers: &[i128], by: u128) -> Result<Vec<i64>, Stop>
    requires { 2 ≤ by }
    ensures same { IfOk result (λ xs. xs.items ≡ floors (pos by) numbers.now) }
    ensures small { IfOk result (λ xs. AreAtMost (2 ^ 45) xs.items) }
{
    let mut row = Vec::from_slice(alloc, numbers)?;
    divide_row(&mut row, by);
    narrow_numbers(alloc, &row)
}

/// A form over a number that divides its coefficients, its constant rounded up or down.
fn form_by(alloc: Global, form: &Form, by: u128, up: bool) -> Result<Aff, Stop>
    ensures form { IfOk result (λ f. f ≡ form_by by up form.now) }
    ensures small { IfOk result (λ f. IsUpTo (2 ^ 45) f) }
{
    if by < 2 {
        return narrow(alloc, form);
    }
    let coefficients = quotients(alloc, form.coefficients(), by)?;
    let constant = narrow_quotient(form.constant(), by, up)?;
    Ok(Aff {
        coefficients,
        constant,
    })
}

/// A divisor over a number that divides it.
fn divisor_by(divisor: i64, by: u128) -> Result<i64, Stop>
    requires { unsigned_abs divisor ≤ 2 ^ 40 }
    ensures same { IfOk result (λ d. d ≡ divisor_by by divisor) }
    ensures small { IfOk result (λ d. unsigned_abs d ≤ 2 ^ 45) }
{
    if by < 2 {
        Ok(divisor)
    } else {
        narrow_quotient(divisor as i128, by, false)
    }
}

/// The greatest common divisor of coefficients and a divisor; 1 where that is below 1.
fn factor_of(divisor: i64, coefficients: &[i128]) -> u128
    ensures { result ≡ factor_of divisor coefficients.now }
{
    if divisor < 1 {
        1
    } else {
        content(divisor.unsigned_abs() as u128, coefficients)
    }
}

/// A lower bound (`up`) or an upper one without common factors.
#[tactic(auto, unfolding(crate::specs::steps::Rounded::rounded))]
pub fn rounded(alloc: Global, form: &Form, divisor: i64, up: bool) -> Result<Bound, Stop>
    requires { unsigned_abs divisor ≤ 2 ^ 40 }
    ensures bound { IfOk result (λ b. b ≡ rounded up (record { form = form.now; divisor = divisor })) }
    ensures small { IfOk result (λ b. IsOverUpTo (2 ^ 45) b.form b.divisor) }
{
    let by = factor_of(divisor, form.coefficients());
    let form = form_by(alloc, form, by, up)?;
    let divisor = divisor_by(divisor, by)?;
    Ok(Bound { form, divisor })
}

/// `form >= 0` without common factors.
#[tactic(auto, unfolding(crate::specs::steps::Rounded::rounded_test))]
pub fn rounded_at_least(alloc: Global, form: &Form) -> Result<Test, Stop>
    ensures test { IfOk result (λ t. test_of t ≡ rounded_test (at_least form.now)) }
    ensures small { IfOk result (λ t. TestIsUpTo (2 ^ 45) (test_of t)) }
{
    let by = content(0, form.coefficients());
    Ok(Test::AtLeast(form_by(alloc, form, by, false)?))
}

/// `form == 0` without common factors.
#[tactic(auto, unfolding(crate::specs::steps::Rounded::rounded_test))]
pub fn rounded_equal(alloc: Global, form: &Form) -> Result<Test, Stop>
    ensures test { IfOk result (λ t. test_of t ≡ rounded_test (equal form.now)) }
    ensures small { IfOk result (λ t. TestIsUpTo (2 ^ 45) (test_of t)) }
{
    let by = content(form.constant().unsigned_abs(), form.coefficients());
    Ok(Test::Equal(form_by(alloc, form, by, false)?))
}
