//! Rows that the others imply are dropped.

ghost use Rattle.std.specs.Prelude.{◌≡◌, ◌<◌, HoldsAt, IfOk, length};
ghost use Rattle.affine_forms.specs.Parts.{variables_of};
ghost use Rattle.farkas.specs.Run.{dropped_run};
ghost use Rattle.farkas.specs.Gives.{Follows};
ghost use Rattle.farkas.specs.steps.Questions.{Asks, Poses, settled};

use crate::stuck::{Stuck, by_form, by_solver};
use affine_forms::{Form, FormStop};
use integer_sets::System;
use pip_solver::{is_empty, opposite};
use std::alloc::{AllocError, Global};

/// The question whether the others imply the row at a place, which has its negation behind the others; and the row.
fn pose(alloc: Global, system: System, at: usize) -> Result<(System, Form), FormStop>
    requires place { at < length system.rows }
    requires flat { system.parameters ≡ 0 }
    ensures question { HoldsAt (Poses system at result) system.rows at }
    ensures sized { IfOk result (λ p. variables_of p.1 ≡ p.0.dimensions) }
{
    let dimensions = system.dimensions();
    let (equalities, mut rows) = system.into_parts();
    let row = rows.remove(at);
    let negation = match opposite(alloc, &row) {
        Err(stop) => return Err(stop),
        Ok(negation) => negation,
    };
    match rows.push(negation) {
        Err(_) => Err(FormStop::NoMemory),
        Ok(()) => Ok((System::from_parts(dimensions, 0, equalities, rows), row)),
    }
}

/// The system that a question was of: without the form behind the others, and the row put back unless it is lost.
fn settle(question: System, row: Form, at: usize, lost: bool) -> Result<System, AllocError>
    requires place { at < length question.rows }
    requires flat { question.parameters ≡ 0 }
    requires sized { variables_of row ≡ question.dimensions }
    ensures { IfOk result (λ t. t ≡ settled question at lost row) }
{
    let dimensions = question.dimensions();
    let count = question.rows().len() - 1;
    let (equalities, mut rows) = question.into_parts();
    rows.truncate(count);
    if lost {
        return Ok(System::from_parts(dimensions, 0, equalities, rows));
    }
    match rows.insert(at, row) {
        Err(_) => Err(AllocError),
        Ok(()) => Ok(System::from_parts(dimensions, 0, equalities, rows)),
    }
}

/// Asks whether the others imply the row at a place, and drops it where they do. It stays a function of its own in the
/// program, so that a debugger can count the questions.
#[inline(never)]
fn ask(alloc: Global, system: System, at: usize, budget: u64) -> Result<System, Stuck>
    requires place { at < length system.rows }
    requires flat { system.parameters ≡ 0 }
    ensures { HoldsAt (Asks budget system at result) system.rows at }
{
    let (question, row) = match pose(alloc, system, at) {
        Err(stop) => return Err(by_form(stop)),
        Ok(posed) => posed,
    };
    let lost = match is_empty(alloc, &question, budget) {
        Err(stop) => return Err(by_solver(stop)),
        Ok(lost) => lost,
    };
    match settle(question, row, at, lost) {
        Err(_) => Err(Stuck::NoMemory),
        Ok(left) => Ok(left),
    }
}

/// The system without the rows, from a place on, that all others which are left imply.
pub fn without_implied(
    alloc: Global,
    system: System,
    first: usize,
    budget: u64,
) -> Result<System, Stuck>
    requires { system.parameters ≡ 0 }
    ensures { Follows (λ s. s) budget result (dropped_run budget first system) }
{
    let mut system = system;
    let mut at = first;
    while at < system.rows().len() {
        let count = system.rows().len();
        match ask(alloc, system, at, budget) {
            Err(stuck) => return Err(stuck),
            Ok(next) => {
                if next.rows().len() == count {
                    at += 1;
                }
                system = next;
            }
        }
    }
    Ok(system)
}
