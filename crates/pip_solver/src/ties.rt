//! What ties a new parameter, the quotient of a form by a divisor: a cut over it, and two forms.
ghost use Rattle.std.specs.Prelude.{◌≡◌, ◌<◌, length, None, Some};
ghost use Rattle.affine_forms.specs.Gives.{Gives};
ghost use Rattle.checked_tableau.specs.Moves.{row_at, cut_run};
ghost use Rattle.checked_tableau.specs.Nodes.{longer_row};
ghost use Rattle.checked_tableau.specs.Lines.{behind_columns};
ghost use Rattle.pip_solver.specs.steps.Cuts.{tied_run, ties_run, TiesParts, TiesRows};

use crate::forms::{at_least, under};
use affine_forms::{Form, FormStop};
use checked_tableau::{Rows, TableauStop};
use std::alloc::Global;

/// The rows over one parameter more, with the cut on a row, tied to it.
fn tied_rows(alloc: Global, rows: &Rows, row: usize) -> Result<Rows, TableauStop>
    requires row { row < length rows.now.rows }
    requires going { rows.now.stopped ≡ None }
    ensures { TiesRows rows.now result (cut_run rows.now.unknowns
        (behind_columns rows.now.unknowns (Some rows.now.parameters)) (longer_row (row_at rows.now.rows row))) }
{
    let mut wider = match rows.widened(alloc) {
        Err(_) => return Err(TableauStop::NoMemory),
        Ok(wider) => wider,
    };
    match wider.cut(row, Some(rows.parameters())) {
        Err(stop) => Err(stop),
        Ok(()) => Ok(wider),
    }
}

/// The two forms that tie the parameter.
fn ties(alloc: Global, divisor: i128, form: &Form) -> Result<(Form, Form), FormStop>
    ensures { Gives (λ p. p) result (ties_run divisor form.now) }
{
    let low = match at_least(alloc, divisor, form) {
        Err(stop) => return Err(stop),
        Ok(low) => low,
    };
    match under(alloc, divisor, form) {
        Err(stop) => Err(stop),
        Ok(high) => Ok((low, high)),
    }
}

/// The rows with the new parameter and the cut on a row, tied to it, and the two forms that tie the parameter.
pub fn tied_parts(
    alloc: Global,
    rows: &Rows,
    row: usize,
    divisor: i128,
    form: &Form,
) -> Result<(Rows, Form, Form), TableauStop>
    requires row { row < length rows.now.rows }
    requires going { rows.now.stopped ≡ None }
    ensures { TiesParts rows.now result (tied_run rows.now.unknowns rows.now.parameters (row_at rows.now.rows row)
        divisor form.now) }
{
    let tied = match tied_rows(alloc, rows, row) {
        Err(stop) => return Err(stop),
        Ok(tied) => tied,
    };
    match ties(alloc, divisor, form) {
        Err(FormStop::NoMemory) => Err(TableauStop::NoMemory),
        Err(FormStop::Wide(wide)) => Err(TableauStop::Wide(wide)),
        Ok((low, high)) => Ok((tied, low, high)),
    }
}
