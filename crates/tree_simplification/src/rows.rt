//! Rows of a context. Promises exactly those of specs/steps/Context.antt.

ghost use Rattle.std.specs.Prelude.{◌≡◌, ◌≤◌, ◌++◌, ◌+ℤ◌, ◌*ℤ◌, All, IfOk, OnOk, false, insert, length, map};
ghost use Rattle.whole_numbers.specs.Affine.{widened};
ghost use Rattle.whole_numbers.specs.Lists.{multiples};
ghost use Rattle.affine_forms.specs.Parts.{variables_of};
ghost use Rattle.loop_tree.specs.View.{test_of};
ghost use Rattle.tree_simplification.specs.steps.Context.{form_row, less_of, part_row, sign_of};
ghost use Rattle.tree_simplification.specs.steps.Context.{test_rows, tests_rows};

use affine_forms::{Form, push, push_widened};
use iteration_domains::form_from;
use loop_tree::{Bound, Test};
use scop_syntax::Aff;
use std::alloc::{AllocError, Global};

/// The number or its opposite.
pub fn signed(number: i64, turned: bool) -> i128
    ensures { result ≡ sign_of turned *ℤ number }
{
    if turned {
        -(number as i128)
    } else {
        number as i128
    }
}

/// The number or its opposite, or 1 less.
fn signed_less(number: i64, turned: bool, less: bool) -> i128
    ensures { result ≡ (sign_of turned *ℤ number) +ℤ less_of less }
{
    let number = signed(number, turned);
    if less { number - 1 } else { number }
}

/// The numbers or their opposites.
fn signed_all(alloc: Global, numbers: &[i64], turned: bool) -> Result<Vec<i128>, AllocError>
    ensures { IfOk result (λ v. v.items ≡ multiples (sign_of turned) numbers.now) }
{
    let mut out = Vec::new(alloc);
    for number in numbers {
        push(&mut out, signed(*number, turned))?;
    }
    Ok(out)
}

/// A form's coefficients or their opposites.
fn signed_coefficients(alloc: Global, form: &Aff, turned: bool) -> Result<Vec<i128>, AllocError>
    ensures { IfOk result (λ v. v.items ≡ multiples (sign_of turned) form.now.coefficients) }
{
    signed_all(alloc, &form.coefficients, turned)
}

/// The numbers with one more at a place.
fn put_at(numbers: &mut Vec<i128>, place: usize, number: i128) -> Result<(), AllocError>
    requires { place ≤ length numbers.old.items }
    ensures { OnOk result (numbers.new.items ≡ insert numbers.old.items place number) }
{
    match numbers.insert(place, number) {
        Err(_) => Err(AllocError),
        Ok(()) => Ok(()),
    }
}

/// A form or its opposite, or 1 less.
pub fn form_row(alloc: Global, form: &Aff, turned: bool, less: bool) -> Result<Form, AllocError>
    ensures { IfOk result (λ f. f ≡ form_row turned less form.now) }
{
    let numbers = signed_coefficients(alloc, form, turned)?;
    form_from(alloc, &numbers, signed_less(form.constant, turned, less))
}

/// A form less the divisor times the value of the loop behind so many others; or the opposite, or 1 less.
fn spread(
    alloc: Global,
    form: &Aff,
    divisor: i64,
    loops: usize,
    turned: bool,
    less: bool,
) -> Result<Form, AllocError>
    requires { loops ≤ variables_of form.now }
    ensures { IfOk result (λ f. f ≡ part_row loops turned less (record { form = form.now; divisor = divisor })) }
{
    let mut numbers = signed_coefficients(alloc, form, turned)?;
    put_at(&mut numbers, loops, signed(divisor, !turned))?;
    form_from(alloc, &numbers, signed_less(form.constant, turned, less))
}

/// A part of the bounds of the loop behind so many others as a row, or its opposite, or 1 less.
pub fn part_row(
    alloc: Global,
    part: &Bound,
    loops: usize,
    turned: bool,
    less: bool,
) -> Result<Form, AllocError>
    requires { loops ≤ variables_of part.now.form }
    ensures { IfOk result (λ f. f ≡ part_row loops turned less part.now) }
{
    spread(alloc, &part.form, part.divisor, loops, turned, less)
}

/// Rows within one loop more, behind so many others.
pub fn widen_all(alloc: Global, rows: &[Form], loops: usize) -> Result<Vec<Form>, AllocError>
    requires { All (λ f. loops ≤ variables_of f) rows.now }
    ensures { IfOk result (λ v. v.items ≡ map (widened loops) rows.now) }
{
    let mut out = Vec::new(alloc);
    push_widened(alloc, &mut out, rows, loops)?;
    Ok(out)
}

/// Appends the rows of parts of bounds.
pub fn push_parts(
    alloc: Global,
    rows: &mut Vec<Form>,
    parts: &[Bound],
    loops: usize,
    turned: bool,
) -> Result<(), AllocError>
    requires { All (λ b. loops ≤ variables_of b.form) parts.now }
    ensures { OnOk result (rows.new.items ≡ rows.old.items ++ map (part_row loops turned false) parts.now) }
{
    for part in parts {
        push(rows, part_row(alloc, part, loops, turned, false)?)?;
    }
    Ok(())
}

/// Appends the rows of a test.
fn push_test(alloc: Global, rows: &mut Vec<Form>, test: &Test) -> Result<(), AllocError>
    ensures { OnOk result (rows.new.items ≡ rows.old.items ++ test_rows (test_of test.now)) }
{
    match test {
        Test::AtLeast(form) => push(rows, form_row(alloc, form, false, false)?),
        Test::Equal(form) => {
            push(rows, form_row(alloc, form, false, false)?)?;
            push(rows, form_row(alloc, form, true, false)?)
        }
        Test::Multiple(_, _) => Ok(()),
    }
}

/// Appends the rows of tests.
pub fn push_tests(alloc: Global, rows: &mut Vec<Form>, tests: &[Test]) -> Result<(), AllocError>
    ensures { OnOk result (rows.new.items ≡ rows.old.items ++ tests_rows (map test_of tests.now)) }
{
    for test in tests {
        push_test(alloc, rows, test)?;
    }
    Ok(())
}
