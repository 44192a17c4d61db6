//! The divisions that a derivation begins with, and a goal's own contradiction.
ghost use Rattle.std.specs.Prelude.{◌≡◌, ◌<◌, All, OnOk, length};
ghost use Rattle.affine_forms.specs.Parts.{variables_of};
ghost use Rattle.plan_certificate.specs.Derivation.{contradiction_in, divided_from, row_of};
ghost use Rattle.plan_certificate.specs.steps.States.{Comes, Grows, divided_one, state_of};

use crate::rows::{Move, Rows, content_of, with_place};
use affine_forms::{Form, push};
use plan_check::contradicts;
use std::alloc::{AllocError, Global};

/// The place of the first row that is a contradiction.
pub fn contradiction_in(rows: &[Form]) -> Option<usize>
    ensures { result ≡ contradiction_in 0 rows.now }
{
    for at in 0..rows.len() {
        if contradicts(&rows[at]) {
            return Some(at);
        }
    }
    None
}

/// The row at a place goes on; one whose content is above 1 is divided by it.
fn divide_row(
    alloc: Global,
    variables: usize,
    rows: &mut Rows,
    at: usize,
) -> Result<Move, AllocError>
    requires sized { All (λ f. variables_of f ≡ variables) rows.old.rows.items }
    requires place { at < length rows.old.rows.items }
    ensures comes { Comes result rows.new
        (divided_one variables at (row_of rows.old.rows.items at) (state_of rows.old)) }
    ensures grows { OnOk result (Grows variables rows.old.rows.items rows.new.rows.items) }
{
    if content_of(&rows.rows[at]) > 1 {
        return with_place(alloc, variables, rows, at);
    }
    match push(&mut rows.going, at) {
        Err(error) => Err(error),
        Ok(()) => Ok(Move::Goes),
    }
}

/// All rows go on; those whose content is above 1 are divided by it.
pub fn divide(alloc: Global, variables: usize, rows: &mut Rows) -> Result<Move, AllocError>
    requires sized { All (λ f. variables_of f ≡ variables) rows.old.rows.items }
    ensures comes { Comes result rows.new (divided_from variables 0 rows.old.rows.items (state_of rows.old)) }
    ensures grows { OnOk result (Grows variables rows.old.rows.items rows.new.rows.items) }
{
    let count = rows.rows.len();
    for at in 0..count {
        match divide_row(alloc, variables, rows, at) {
            Err(error) => return Err(error),
            Ok(Move::Ended) => return Ok(Move::Ended),
            Ok(Move::Passed) => return Ok(Move::Passed),
            Ok(Move::Goes) => {}
        }
    }
    Ok(Move::Goes)
}
