//! What a statement touches: its place, and what it loads, which is all that it reads, or, where it adds to its place, all
//! but that.
ghost use Rattle.std.specs.Prelude.{◌≡◌, ◌<◌, ◌≤◌, Some, length, slice_get};
ghost use Rattle.scop_syntax.specs.Cells.{reads};
ghost use Rattle.scop_syntax.specs.Reductions.{is_marked as exact_is_marked};
ghost use Rattle.scop_syntax.specs.View.{statement_of};
ghost use Rattle.tile_table.specs.Codes.{loaded};
ghost use Rattle.tile_table.specs.Tables.{touched};

use scop_syntax::{Access, Stmt, access_at, is_marked, read_count};

/// Whether the statement adds to its place, where these arrays are marked.
pub(crate) fn adds_to_place(marked: &[usize], statement: &Stmt) -> bool
    ensures { result ≡ exact_is_marked marked.now (statement_of statement.now).place.array }
{
    let place = &statement.place;
    is_marked(marked, place.array)
}

/// How many cells the statement loads.
pub(crate) fn load_count(statement: &Stmt, adds: bool) -> usize
    requires { length (reads (statement_of statement.now)) ≤ 16 }
    ensures { result ≡ length (loaded adds (statement_of statement.now)) }
{
    let count = read_count(statement);
    if adds { count.saturating_sub(1) } else { count }
}

/// The access of the statement with this number among those that it touches.
pub(crate) fn touched_at(statement: &Stmt, adds: bool, number: usize) -> &Access
    requires there { number < length (touched adds (statement_of statement.now)) }
    requires few { length (reads (statement_of statement.now)) ≤ 16 }
    ensures { slice_get (touched adds (statement_of statement.now)) number ≡ Some result.now }
{
    if adds && number > 0 {
        access_at(statement, number + 1)
    } else {
        access_at(statement, number)
    }
}
