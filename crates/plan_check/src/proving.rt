//! The lines of goals.
ghost use Rattle.std.specs.Prelude.{◌≡◌, ◌<◌, ◌^◌, ◌-◌, IfOk, map, option_map, suc};
ghost use Rattle.std.specs.List.{list_all};
ghost use Rattle.wide_math.specs.Gives.{Gives};
ghost use Rattle.plan_check.specs.Derivations.{fault_of, step_of};
ghost use Rattle.plan_check.specs.Judged.{factor_held, goal_judged, kind_of, names_row, rejected_at, step_held, step_judged};
ghost use Rattle.plan_check.specs.Judged.{row_named, step_of_line, term_named, unheld};
ghost use Rattle.plan_check.specs.Text.{IsStep};
ghost use Rattle.plan_check.specs.TextView.{rejected_in, step_view, term_view};

use crate::checker::Checker;
use crate::kinds::{CheckStop, FaultKind, rejected, rejected_here};
use crate::laying::{is_held, is_next};
use crate::lines::{Fault, Line, LineStop, Term};
use crate::text::{StepLine, TermLine};
use affine_forms::push;
use std::alloc::{AllocError, Global};

/// The fault of the line behind so many others that a call of the checker tells.
fn told(stop: LineStop, lines: usize) -> CheckStop
    requires { lines < 2 ^ 64 - 1 }
    ensures { rejected_in result ≡ option_map (λ f. rejected_at (kind_of f) (suc lines)) (fault_of stop) }
{
    match stop {
        LineStop::NoMemory => CheckStop::NoMemory,
        LineStop::Faulty(Fault::Row) => rejected(FaultKind::Row, lines),
        LineStop::Faulty(Fault::Division) => rejected(FaultKind::Division, lines),
        LineStop::Faulty(Fault::Goal) => rejected(FaultKind::Goal, lines),
        LineStop::Faulty(Fault::Wide) => rejected(FaultKind::Wide, lines),
    }
}

/// A row's number, or 0 where it leaves 64 bits.
fn row_named(row: u128) -> usize
    ensures { result ≡ row_named row }
{
    match usize::try_from(row) {
        Err(_) => 0,
        Ok(row) => row,
    }
}

/// A term, if 128 bits hold its factor.
fn term_of(term: &TermLine) -> Result<Term, AllocError>
    ensures { IfOk result (λ t. t ≡ term_named (term_view term.now)) }
{
    match i128::try_from(term.factor) {
        Err(_) => Err(AllocError),
        Ok(factor) => Ok(Term {
            row: row_named(term.row),
            factor,
        }),
    }
}

/// The terms of a step.
fn terms_of(alloc: Global, terms: &[TermLine]) -> Result<Vec<Term>, AllocError>
    ensures { IfOk result (λ v. v.items ≡ map term_named (map term_view terms.now)) }
{
    let mut found = Vec::new(alloc);
    for term in terms {
        match term_of(term) {
            Err(error) => return Err(error),
            Ok(term) => match push(&mut found, term) {
                Err(error) => return Err(error),
                Ok(()) => {}
            },
        }
    }
    Ok(found)
}

/// The line of a step, if 128 bits hold its numbers.
fn line_of(alloc: Global, step: &StepLine) -> Result<Line, AllocError>
    ensures { IfOk result (λ l. step_of l ≡ step_of_line (step_view step.now)) }
{
    match i128::try_from(step.divisor) {
        Err(_) => Err(AllocError),
        Ok(divisor) => match terms_of(alloc, &step.terms) {
            Err(error) => Err(error),
            Ok(terms) => Ok(Line { divisor, terms }),
        },
    }
}

/// Whether 128 bits hold the factors of terms.
fn factors_held(terms: &[TermLine]) -> bool
    ensures { result ≡ list_all factor_held (map term_view terms.now) }
{
    for term in terms {
        if !is_held(term.factor) {
            return false;
        }
    }
    true
}

/// Whether 128 bits hold the numbers of a step.
fn step_held(step: &StepLine) -> bool
    ensures { result ≡ step_held (step_view step.now) }
{
    if !is_held(step.divisor) {
        return false;
    }
    factors_held(&step.terms)
}

/// Whether a term names one of so many rows.
fn names_row(rows: usize, term: &TermLine) -> bool
    ensures { result ≡ names_row rows (term_view term.now) }
{
    if term.row == 0 {
        return false;
    }
    term.row <= rows as u128
}

/// Whether each term names one of so many rows.
fn names_rows(rows: usize, terms: &[TermLine]) -> bool
    ensures { result ≡ list_all (names_row rows) (map term_view terms.now) }
{
    for term in terms {
        if !names_row(rows, term) {
            return false;
        }
    }
    true
}

/// What is wrong with a step that 128 bits do not hold, over so many rows.
fn unheld(rows: usize, step: &StepLine) -> FaultKind
    ensures { result ≡ unheld rows (step_view step.now) }
{
    if names_rows(rows, &step.terms) {
        FaultKind::Wide
    } else {
        FaultKind::Row
    }
}

/// A step of the open goal.
pub fn prove_step(
    alloc: Global,
    lines: usize,
    checker: Checker,
    step: &StepLine,
) -> Result<Checker, CheckStop>
    requires lines { lines < 2 ^ 64 - 1 }
    requires step { IsStep (step_view step.now) }
    ensures { Gives rejected_in (λ c. c) result (step_judged lines checker (step_view step.now)) }
{
    if !step_held(step) {
        let kind = unheld(checker.row_count(), step);
        drop(checker);
        return Err(rejected(kind, lines));
    }
    match line_of(alloc, step) {
        Err(_) => {
            drop(checker);
            Err(CheckStop::NoMemory)
        }
        Ok(line) => match checker.add_line(alloc, &line) {
            Err(stop) => Err(told(stop, lines)),
            Ok(checker) => Ok(checker),
        },
    }
}

/// The line of a goal.
pub fn prove_goal(
    alloc: Global,
    lines: usize,
    checker: Checker,
    number: u128,
) -> Result<Checker, CheckStop>
    requires lines { lines < 2 ^ 64 - 1 }
    ensures { Gives rejected_in (λ c. c) result (goal_judged lines checker number) }
{
    if !checker.is_ended() {
        drop(checker);
        return Err(rejected_here(FaultKind::Goal, lines));
    }
    if !is_next(number, checker.begun() as u128) {
        drop(checker);
        return Err(rejected(FaultKind::Goal, lines));
    }
    match checker.begin_goal(alloc) {
        Err(stop) => Err(told(stop, lines)),
        Ok(checker) => Ok(checker),
    }
}
