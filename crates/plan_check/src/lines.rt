//! A line of a derivation: the row that it adds to those before it.
ghost use Rattle.std.specs.Prelude.{◌≡◌, ◌≤ℤ◌, All, IfOk, Ok, Some, length, option_map, pos};
ghost use Rattle.whole_numbers.specs.Floor.{floor, floors};
ghost use Rattle.wide_math.specs.Gives.{Gives};
ghost use Rattle.affine_forms.specs.Parts.{variables_of};
ghost use Rattle.plan_check.specs.Derivations.{IsLine, are_multiples, are_zero, divided, factors_of, fault_of};
ghost use Rattle.plan_check.specs.Derivations.{is_contradiction, named, quotient_said, row_at, row_said, step_of, sum_said};

use affine_forms::{Form, FormStop, push_copy};
use std::alloc::{AllocError, Global};
use wide_math::{floor_div, remainder};

/// A row by its number, counted from 1, and how often it is taken.
#[derive(Clone, Copy)]
pub struct Term {
    pub row: usize,
    pub factor: i128,
}

/// A line: the sum of its terms' rows, divided.
#[derive(Drop)]
pub struct Line {
    pub divisor: i128,
    pub terms: Vec<Term>,
}

/// What is wrong with a line.
#[derive(Clone, Copy)]
pub enum Fault {
    /// A term names no row so far.
    Row,
    /// The divisor does not divide a coefficient.
    Division,
    /// The last row is no contradiction.
    Goal,
    /// A product or a sum leaves 128 bits.
    Wide,
}

/// Why a line adds no row.
#[derive(Clone, Copy)]
pub enum LineStop {
    Faulty(Fault),
    NoMemory,
}

/// A row by its number, counted from 1.
fn row_by_number(rows: &[Form], number: usize) -> Option<&Form>
    ensures { option_map (λ f. f.now) result ≡ row_at rows.now number }
{
    if number == 0 {
        return None;
    }
    rows.get(number - 1)
}

/// Copies of the rows that terms name, if each names one.
fn gathered(alloc: Global, rows: &[Form], terms: &[Term]) -> Result<Option<Vec<Form>>, AllocError>
    ensures { IfOk result (λ found. option_map (λ v. v.items) found ≡ named rows.now terms.now) }
{
    let mut found = Vec::new(alloc);
    for term in terms {
        match row_by_number(rows, term.row) {
            None => return Ok(None),
            Some(row) => match push_copy(&mut found, row) {
                Err(error) => return Err(error),
                Ok(()) => {}
            },
        }
    }
    Ok(Some(found))
}

/// How often terms take their rows.
fn factors(alloc: Global, terms: &[Term]) -> Result<Vec<i128>, AllocError>
    ensures { IfOk result (λ v. v.items ≡ factors_of terms.now) }
{
    terms.iter().map(|term: &Term| term.factor).collect(alloc)
}

/// Whether the divisor divides each number.
fn divides(divisor: i128, numbers: &[i128]) -> bool
    requires { pos 1 ≤ℤ divisor }
    ensures { result ≡ are_multiples divisor numbers.now }
{
    for at in 0..numbers.len() {
        if remainder(numbers[at], divisor) != 0 {
            return false;
        }
    }
    true
}

/// A number over the divisor, rounded down.
fn quotient(number: i128, divisor: i128) -> i128
    requires { pos 1 ≤ℤ divisor }
    ensures { result ≡ floor number divisor }
{
    match floor_div(number, divisor) {
        Err(_) => 0,
        Ok(quotient) => quotient,
    }
}

/// Each number over the divisor, rounded down.
fn quotients(alloc: Global, divisor: i128, numbers: &[i128]) -> Result<Vec<i128>, AllocError>
    requires { pos 1 ≤ℤ divisor }
    ensures { IfOk result (λ v. v.items ≡ floors divisor numbers.now) }
{
    numbers
        .iter()
        .map(|number: &i128| quotient(*number, divisor))
        .collect(alloc)
}

/// Whether each number is 0.
fn all_zero(numbers: &[i128]) -> bool
    ensures { result ≡ are_zero numbers.now }
{
    for at in 0..numbers.len() {
        if numbers[at] != 0 {
            return false;
        }
    }
    true
}

/// Whether a row has no coefficient and a negative constant.
pub fn contradicts(row: &Form) -> bool
    ensures { result ≡ is_contradiction row.now }
{
    if all_zero(row.coefficients()) {
        row.constant() < 0
    } else {
        false
    }
}

/// The sum of rows, each taken as often as its term says.
fn sum_of(alloc: Global, variables: usize, terms: &[Term], rows: &[Form]) -> Result<Form, LineStop>
    requires sized { All (λ f. variables_of f ≡ variables) rows.now }
    requires each { length rows.now ≡ length terms.now }
    ensures run { Gives fault_of (λ f. f) result (sum_said variables terms.now (Some rows.now)) }
    ensures size { IfOk result (λ f. variables_of f ≡ variables) }
{
    match factors(alloc, terms) {
        Err(_) => Err(LineStop::NoMemory),
        Ok(numbers) => match Form::of(alloc, &numbers, 0) {
            Err(_) => Err(LineStop::NoMemory),
            Ok(factors) => match factors.compose(rows, variables) {
                Err(FormStop::NoMemory) => Err(LineStop::NoMemory),
                Err(FormStop::Wide(_)) => Err(LineStop::Faulty(Fault::Wide)),
                Ok(sum) => Ok(sum),
            },
        },
    }
}

/// A row over the divisor, its constant rounded down, if that divides its coefficients.
///
/// # Errors
/// `Faulty` exactly with Division, or `NoMemory`.
pub fn quotient_of(alloc: Global, divisor: i128, row: &Form) -> Result<Form, LineStop>
    requires { pos 1 ≤ℤ divisor }
    ensures run { Gives fault_of (λ f. f) result (quotient_said divisor (Ok row.now)) }
    ensures size { IfOk result (λ f. variables_of f ≡ variables_of row.now) }
{
    if !divides(divisor, row.coefficients()) {
        return Err(LineStop::Faulty(Fault::Division));
    }
    match quotients(alloc, divisor, row.coefficients()) {
        Err(_) => Err(LineStop::NoMemory),
        Ok(numbers) => match Form::of(alloc, &numbers, quotient(row.constant(), divisor)) {
            Err(_) => Err(LineStop::NoMemory),
            Ok(row) => Ok(row),
        },
    }
}

/// The sum of the rows that terms name, each taken as often as its term says.
///
/// # Errors
/// `Faulty` exactly with Row where a term names none, with Wide where a product or a sum leaves 128 bits; or `NoMemory`.
pub fn sum_of_terms(
    alloc: Global,
    variables: usize,
    rows: &[Form],
    terms: &[Term],
) -> Result<Form, LineStop>
    requires sized { All (λ f. variables_of f ≡ variables) rows.now }
    ensures run { Gives fault_of (λ f. f) result (sum_said variables terms.now (named rows.now terms.now)) }
    ensures size { IfOk result (λ f. variables_of f ≡ variables) }
{
    match gathered(alloc, rows, terms) {
        Err(_) => Err(LineStop::NoMemory),
        Ok(None) => Err(LineStop::Faulty(Fault::Row)),
        Ok(Some(found)) => sum_of(alloc, variables, terms, &found),
    }
}

/// The row that a line adds to those before it.
pub fn row_of(alloc: Global, variables: usize, rows: &[Form], line: &Line) -> Result<Form, LineStop>
    requires sized { All (λ f. variables_of f ≡ variables) rows.now }
    requires line { IsLine (step_of line.now) }
    ensures run { Gives fault_of (λ f. f) result (row_said variables rows.now (step_of line.now)) }
    ensures size { IfOk result (λ f. variables_of f ≡ variables) }
{
    match sum_of_terms(alloc, variables, rows, &line.terms) {
        Err(stop) => Err(stop),
        Ok(sum) => quotient_of(alloc, line.divisor, &sum),
    }
}
