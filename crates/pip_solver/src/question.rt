//! A question: whether rows without parameters have a whole point. Each move is paid for before its numbers
//! are formed.
ghost use Rattle.std.specs.Prelude.{◌≡◌, ◌<◌, ◌≤◌, length, Ok, None};
ghost use Rattle.tableau_rows.specs.Run.{cuts, next, pivots, run};
ghost use Rattle.checked_tableau.specs.Nodes.{answered};
ghost use Rattle.pip_solver.specs.steps.Promises.{Shows, Advances, Tells, stop_of};

use checked_tableau::{Rows, TableauStop};

/// What a question does next.
enum Step {
    /// It ends: whether there is a point.
    Ends(bool),
    /// A pivot on the row.
    Pivots(usize),
    /// A cut on the row.
    Cuts(usize),
}

/// Why a question stops.
#[derive(Clone, Copy)]
pub enum QuestionStop {
    /// A number does not fit 128 bits.
    Wide,
    /// The budget is spent.
    Spent,
    /// There is no memory.
    NoMemory,
}

impl From<TableauStop> for QuestionStop {
    ghost from_gives = { λ stop asked. asked ≡ stop_of stop };

    fn from(stop: TableauStop) -> QuestionStop {
        match stop {
            TableauStop::Wide(_) => QuestionStop::Wide,
            TableauStop::NoMemory => QuestionStop::NoMemory,
        }
    }
}

/// The next step. It forms no number.
fn next_step(rows: &Rows) -> Step
    requires { rows.now.stopped ≡ None }
    ensures { Shows result rows.now }
{
    match rows.first_below() {
        Some(row) => {
            if rows.has_positive(row) {
                Step::Pivots(row)
            } else {
                Step::Ends(false)
            }
        }
        None => match rows.first_fraction() {
            Some(row) => Step::Cuts(row),
            None => Step::Ends(true),
        },
    }
}

/// A pivot, paid for with a move.
fn pay_for_pivot(rows: &mut Rows, row: usize, left: &mut u64) -> Result<(), QuestionStop>
    requires going { rows.old.stopped ≡ None }
    requires row { row < length rows.old.rows }
    requires next { next rows.old.unknowns rows.old.rows ≡ pivots row }
    ensures advances { Advances rows.old left.old rows.new left.new result }
    ensures less { left.new ≤ left.old }
{
    if *left == 0 {
        return Err(QuestionStop::Spent);
    }
    match rows.pivot_on(row) {
        Err(_) => Err(QuestionStop::Wide),
        Ok(()) => {
            *left -= 1;
            Ok(())
        }
    }
}

/// A cut, paid for with a move.
fn pay_for_cut(rows: &mut Rows, row: usize, left: &mut u64) -> Result<(), QuestionStop>
    requires going { rows.old.stopped ≡ None }
    requires row { row < length rows.old.rows }
    requires next { next rows.old.unknowns rows.old.rows ≡ cuts row }
    ensures advances { Advances rows.old left.old rows.new left.new result }
    ensures less { left.new ≤ left.old }
{
    if *left == 0 {
        return Err(QuestionStop::Spent);
    }
    rows.cut(row, None)?;
    *left -= 1;
    Ok(())
}

/// Whether the rows have a whole point that is not negative, in so many moves.
///
/// # Errors
/// `Wide` and `Spent` exactly where the run stops so, with what is left of the budget in `left`.
pub fn question(rows: &mut Rows, left: &mut u64) -> Result<bool, QuestionStop>
    requires { rows.old.stopped ≡ None }
    ensures run { Tells result left.new (answered (run rows.old.unknowns left.old rows.old.rows)) }
    ensures less { left.new ≤ left.old }
{
    loop {
        match next_step(rows) {
            Step::Ends(found) => return Ok(found),
            Step::Pivots(row) => match pay_for_pivot(rows, row, left) {
                Err(stop) => return Err(stop),
                Ok(()) => {}
            },
            Step::Cuts(row) => match pay_for_cut(rows, row, left) {
                Err(stop) => return Err(stop),
                Ok(()) => {}
            },
        }
    }
}
