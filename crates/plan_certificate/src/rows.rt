//! A goal's rows while they are derived from: behind its own stand those that lines have added. What comes of a step is
//! told as specs/Derivation.antt says it, by the rows as they stand behind it.
ghost use Rattle.std.specs.Prelude.{◌≡◌, ◌≤ℤ◌, ◌++◌, ◌∷◌, [], ℕ, All, IfOk, Ok, OnOk, pos, suc};
ghost use Rattle.whole_numbers.specs.Content.{content};
ghost use Rattle.affine_forms.specs.Parts.{variables_of};
ghost use Rattle.plan_check.specs.Derivations.{named, quotient_said, step_of, sum_said};
ghost use Rattle.plan_certificate.specs.Derivation.{divisor_of, times, with_row, with_sum, with_terms};
ghost use Rattle.plan_certificate.specs.steps.States.{Comes, Grows, IsNumber, IsTimes, line_of, state_of, term_of};

use affine_forms::{Form, content, push};
use plan_check::{Line, LineStop, Term, contradicts, quotient_of, sum_of_terms};
use std::alloc::{AllocError, Global};

/// A goal's rows and behind them those of the lines, the lines, and the places of the rows that go on.
#[derive(Drop)]
pub struct Rows {
    pub rows: Vec<Form>,
    pub lines: Vec<Line>,
    pub going: Vec<usize>,
}

/// What comes of a step: it goes on, its last line is a contradiction, or a limit is passed.
#[derive(Clone, Copy)]
pub enum Move {
    Goes,
    Ended,
    Passed,
}

/// The content of a row's coefficients.
pub fn content_of(row: &Form) -> u128
    ensures { result ≡ content row.now.coefficients }
{
    content(0, row.coefficients())
}

/// What a sum of rows is divided by.
fn divisor_of(row: &Form) -> u128
    ensures { result ≡ divisor_of row.now }
{
    let content = content_of(row);
    if content == 0 { 1 } else { content }
}

/// The number, if it is at least 0 and 128 bits hold it with its sign.
fn held(number: u128) -> Option<i128>
    ensures { IsNumber number result }
{
    match i128::try_from(number) {
        Err(_) => None,
        Ok(number) => Some(number),
    }
}

/// The number of the row at a place.
fn number_of(place: usize) -> Result<usize, AllocError>
    ensures { IfOk result (λ n. n ≡ suc place) }
{
    match place.checked_add(1) {
        None => Err(AllocError),
        Some(number) => Ok(number),
    }
}

/// The row at a place so many times.
fn times(place: usize, factor: i128) -> Result<Term, AllocError>
    ensures { IfOk result (λ t. t ≡ term_of place factor) }
{
    match number_of(place) {
        Err(error) => Err(error),
        Ok(row) => Ok(Term { row, factor }),
    }
}

/// The row at a place so many times, if 128 bits hold this number.
pub fn held_times(place: usize, number: u128) -> Result<Option<Term>, AllocError>
    ensures { IfOk result (IsTimes place number) }
{
    match number_of(place) {
        Err(error) => Err(error),
        Ok(row) => match i128::try_from(number) {
            Err(_) => Ok(None),
            Ok(factor) => Ok(Some(Term { row, factor })),
        },
    }
}

/// A line with its row; a row that is no contradiction goes on.
fn with_row(rows: &mut Rows, line: Line, row: Form) -> Result<Move, AllocError>
    ensures comes { Comes result rows.new (with_row (state_of rows.old) (step_of line) (Ok row)) }
    ensures front { OnOk result (rows.new.rows.items ≡ rows.old.rows.items ++ row ∷ []) }
{
    let ended = contradicts(&row);
    let place = rows.rows.len();
    push(&mut rows.rows, row)?;
    push(&mut rows.lines, line)?;
    if ended {
        return Ok(Move::Ended);
    }
    push(&mut rows.going, place)?;
    Ok(Move::Goes)
}

/// The line of terms with this divisor, by their sum.
fn with_divisor(
    alloc: Global,
    rows: &mut Rows,
    divisor: i128,
    terms: &[Term],
    sum: &Form,
) -> Result<Move, AllocError>
    requires { pos 1 ≤ℤ divisor }
    ensures comes { Comes result rows.new (with_row (state_of rows.old) (line_of divisor terms.now) (quotient_said divisor (Ok sum.now))) }
    ensures grows { OnOk result (Grows (variables_of sum.now) rows.old.rows.items rows.new.rows.items) }
{
    match quotient_of(alloc, divisor, sum) {
        Err(LineStop::NoMemory) => Err(AllocError),
        Err(LineStop::Faulty(_)) => Ok(Move::Passed),
        Ok(row) => match Vec::from_slice(alloc, terms) {
            Err(error) => Err(error),
            Ok(terms) => with_row(rows, Line { divisor, terms }, row),
        },
    }
}

/// The line of terms, by their sum.
fn with_sum(alloc: Global, rows: &mut Rows, terms: &[Term], sum: &Form) -> Result<Move, AllocError>
    ensures comes { (n : ℕ) → sum_said n terms.now (named rows.old.rows.items terms.now) ≡ Ok sum.now
        → Comes result rows.new (with_sum n (state_of rows.old) terms.now (Ok sum.now)) }
    ensures grows { OnOk result (Grows (variables_of sum.now) rows.old.rows.items rows.new.rows.items) }
{
    match held(divisor_of(sum)) {
        None => Ok(Move::Passed),
        Some(divisor) => with_divisor(alloc, rows, divisor, terms, sum),
    }
}

/// The line of terms, with its row.
pub fn with_terms(
    alloc: Global,
    variables: usize,
    rows: &mut Rows,
    terms: &[Term],
) -> Result<Move, AllocError>
    requires sized { All (λ f. variables_of f ≡ variables) rows.old.rows.items }
    ensures comes { Comes result rows.new (with_terms variables (state_of rows.old) terms.now) }
    ensures grows { OnOk result (Grows variables rows.old.rows.items rows.new.rows.items) }
{
    match sum_of_terms(alloc, variables, &rows.rows, terms) {
        Err(LineStop::NoMemory) => Err(AllocError),
        Err(LineStop::Faulty(_)) => Ok(Move::Passed),
        Ok(sum) => with_sum(alloc, rows, terms, &sum),
    }
}

/// The line of a row alone.
pub fn with_place(
    alloc: Global,
    variables: usize,
    rows: &mut Rows,
    place: usize,
) -> Result<Move, AllocError>
    requires sized { All (λ f. variables_of f ≡ variables) rows.old.rows.items }
    ensures comes { Comes result rows.new (with_terms variables (state_of rows.old) (times place 1 ∷ [])) }
    ensures grows { OnOk result (Grows variables rows.old.rows.items rows.new.rows.items) }
{
    match times(place, 1) {
        Err(error) => Err(error),
        Ok(term) => with_terms(alloc, variables, rows, &[term]),
    }
}
