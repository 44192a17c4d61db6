//! The determined derivation of rows, as specs/Derivation.antt says it.
ghost use Rattle.std.specs.Prelude.{◌≡◌, [], All, IfOk, length, map, option_map};
ghost use Rattle.affine_forms.specs.Parts.{variables_of};
ghost use Rattle.plan_check.specs.Derivations.{step_of};
ghost use Rattle.plan_certificate.specs.Derivation.{all_eliminated, and_then, derivation, divided_from, run, start};
ghost use Rattle.plan_certificate.specs.steps.States.{Comes, state_of};

use crate::dividing::{contradiction_in, divide};
use crate::eliminating::eliminate_all;
use crate::needed::needed_lines;
use crate::rows::{Move, Rows, with_place};
use affine_forms::Form;
use plan_check::Line;
use std::alloc::{AllocError, Global};

/// All divisions, and then all eliminations.
fn divide_and_eliminate(
    alloc: Global,
    variables: usize,
    rows: &mut Rows,
) -> Result<Move, AllocError>
    requires sized { All (λ f. variables_of f ≡ variables) rows.old.rows.items }
    ensures { Comes result rows.new (and_then (divided_from variables 0 rows.old.rows.items (state_of rows.old))
        (all_eliminated variables 0 variables)) }
{
    match divide(alloc, variables, rows) {
        Err(error) => Err(error),
        Ok(Move::Ended) => Ok(Move::Ended),
        Ok(Move::Passed) => Ok(Move::Passed),
        Ok(Move::Goes) => eliminate_all(alloc, variables, rows),
    }
}

/// What comes of a goal's rows.
fn run(alloc: Global, variables: usize, rows: &mut Rows) -> Result<Move, AllocError>
    requires sized { All (λ f. variables_of f ≡ variables) rows.old.rows.items }
    requires fresh { state_of rows.old ≡ start rows.old.rows.items }
    ensures { Comes result rows.new (run variables rows.old.rows.items) }
{
    match contradiction_in(&rows.rows) {
        Some(place) => with_place(alloc, variables, rows, place),
        None => divide_and_eliminate(alloc, variables, rows),
    }
}

/// The derivation of rows over so many variables, if they have one.
///
/// # Errors
/// `AllocError` alone.
#[tactic(auto, unfolding(crate::specs::Derivation::derivation))]
pub fn derivation(
    alloc: Global,
    variables: usize,
    rows: Vec<Form>,
) -> Result<Option<Vec<Line>>, AllocError>
    requires sized { All (λ f. variables_of f ≡ variables) rows.items }
    ensures { IfOk result (λ found. option_map (λ v. map step_of v.items) found ≡ derivation variables rows.items) }
{
    let count = rows.len();
    let mut state = Rows {
        rows,
        lines: Vec::new(alloc),
        going: Vec::new(alloc),
    };
    match run(alloc, variables, &mut state) {
        Err(error) => Err(error),
        Ok(Move::Goes) => Ok(None),
        Ok(Move::Passed) => Ok(None),
        Ok(Move::Ended) => match needed_lines(alloc, count, &state.lines) {
            Err(error) => Err(error),
            Ok(lines) => Ok(Some(lines)),
        },
    }
}
