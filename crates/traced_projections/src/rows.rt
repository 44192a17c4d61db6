//! Rows that know of which of the first rows they are made.

ghost use Rattle.std.specs.Prelude.{◌≡◌, ◌<◌, ◌^◌, ◌++◌, ◌∷◌, [], IfOk, OnOk, Some, length};
ghost use Rattle.fractions.specs.Elimination.{coefficient_of};
ghost use Rattle.fm_projection.specs.Tightest.{are_parallel};
ghost use Rattle.traced_projections.specs.Tracing.{digit, forms_of, has_sign, numbered, place_of, placed, row_of};
ghost use Rattle.traced_projections.specs.Tracing.{signed, with_row};

use affine_forms::{Form, push_copy};
use std::alloc::{AllocError, Global};
use std::marker::Model;

/// A row, and of which of the first rows it is made: a binary digit for each of the first 128.
#[derive(Drop)]
pub struct Row {
    pub form: Form,
    pub history: u128,
}

impl Model for Row {
    ghost use Rattle.traced_projections.specs.Tracing.{Row as Plain};

    ghost Value = { Plain };

    ghost view = { λ r. record { form = r.form; history = r.history } };
}

/// Where a number stands to 0.
#[derive(Clone, Copy)]
pub enum Sign {
    Zero,
    NotZero,
    Positive,
    Negative,
}

/// Whether the number has the sign.
fn has_sign(number: i128, sign: Sign) -> bool
    ensures { result ≡ has_sign sign number }
{
    match sign {
        Sign::Zero => number == 0,
        Sign::NotZero => number != 0,
        Sign::Positive => number > 0,
        Sign::Negative => number < 0,
    }
}

/// The coefficient of a variable.
pub fn coefficient(form: &Form, variable: usize) -> i128
    ensures { result ≡ coefficient_of variable form.now }
{
    let numbers = form.coefficients();
    if variable < numbers.len() {
        numbers[variable]
    } else {
        0
    }
}

/// The digit of a first row.
fn digit(number: usize) -> u128
    ensures { result ≡ digit number }
{
    if number < 128 { 1u128 << number } else { 0 }
}

/// One row more at the end.
pub fn push_row(rows: &mut Vec<Row>, form: &Form, history: u128) -> Result<(), AllocError>
    ensures { OnOk result (rows.new.items ≡ rows.old.items ++ row_of form.now history ∷ []) }
{
    match form.copy() {
        Err(_) => Err(AllocError),
        Ok(form) => {
            rows.push(Row { form, history })?;
            Ok(())
        }
    }
}

/// The rows whose coefficient of a variable has the sign.
pub fn signed(
    alloc: Global,
    rows: &[Row],
    variable: usize,
    sign: Sign,
) -> Result<Vec<Row>, AllocError>
    ensures { IfOk result (λ v. v.items ≡ signed sign variable rows.now) }
{
    let mut out = Vec::new(alloc);
    for row in rows {
        if has_sign(coefficient(&row.form, variable), sign) {
            push_row(&mut out, &row.form, row.history)?;
        }
    }
    Ok(out)
}

/// Whether the rows have the same coefficients.
fn are_parallel(row: &Form, other: &Form) -> bool
    ensures { result ≡ are_parallel row.now other.now }
{
    row.coefficients() == other.coefficients()
}

/// The place of the first row with these coefficients.
fn place_of(rows: &[Row], form: &Form) -> Option<usize>
    ensures { result ≡ place_of rows.now form.now }
{
    rows.iter().position(|row| are_parallel(&row.form, form))
}

/// One row more: of those with the same coefficients the tightest stays, of two equal ones the first.
pub fn put(rows: &mut Vec<Row>, form: &Form, history: u128) -> Result<(), AllocError>
    ensures { OnOk result (rows.new.items ≡ with_row rows.old.items (row_of form.now history)) }
{
    match place_of(rows, form) {
        None => push_row(rows, form, history),
        Some(place) => put_at(rows, place, form, history),
    }
}

/// A row in the place of another, if it is tighter.
fn put_at(rows: &mut Vec<Row>, place: usize, form: &Form, history: u128) -> Result<(), AllocError>
    requires { place < length rows.old.items }
    ensures { OnOk result (rows.new.items ≡ placed (Some place) rows.old.items (row_of form.now history)) }
{
    if form.constant() >= rows[place].form.constant() {
        return Ok(());
    }
    match form.copy() {
        Err(_) => Err(AllocError),
        Ok(form) => {
            rows[place] = Row { form, history };
            Ok(())
        }
    }
}

/// First rows more, from a number on.
pub fn push_numbered(rows: &mut Vec<Row>, forms: &[Form], first: usize) -> Result<(), AllocError>
    requires { first < 2 ^ 40 }
    ensures { OnOk result (rows.new.items ≡ rows.old.items ++ numbered first forms.now) }
{
    for at in 0..forms.len() {
        push_row(rows, &forms[at], digit(first + at))?;
    }
    Ok(())
}

/// Copies of rows more.
pub fn push_rows(rows: &mut Vec<Row>, more: &[Row]) -> Result<(), AllocError>
    ensures { OnOk result (rows.new.items ≡ rows.old.items ++ more.now) }
{
    for row in more {
        push_row(rows, &row.form, row.history)?;
    }
    Ok(())
}

/// Copies of the forms of rows.
pub fn forms_of(alloc: Global, rows: &[Row]) -> Result<Vec<Form>, AllocError>
    ensures { IfOk result (λ v. v.items ≡ forms_of rows.now) }
{
    let mut out = Vec::new(alloc);
    for row in rows {
        push_copy(&mut out, &row.form)?;
    }
    Ok(out)
}
