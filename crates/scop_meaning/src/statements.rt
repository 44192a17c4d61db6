//! One instance of a statement: all its cells are read, its value is computed, and stored.
ghost use Rattle.std.specs.Prelude.{◌≡◌, ◌<◌, ◌≤◌, [], length, slice_index_or};
ghost use Rattle.scop_syntax.specs.Cells.{accesses, cell_of, reads as reads_by};
ghost use Rattle.scop_syntax.specs.Execution.{IsCell, held, offset_of, performed_by, stored, values_read_by};
ghost use Rattle.scop_syntax.specs.View.{statement_of};
ghost use Rattle.scop_meaning.specs.steps.Conditions.{AreCells, IsReady};

use crate::cells::offset_at;
use crate::expressions::stored_on;
use crate::layout::Layout;
use arrayvec::ArrayVec;
use scop_syntax::{Access, Arrays, MOST_READS, Stmt, access_at, read_count};

/// Where the cell of `access` at `point` lies in its array.
fn offset_in(access: &Access, layout: &Layout, point: &[i64], arrays: &Arrays) -> usize
    requires cell { IsCell layout.now (cell_of access.now point.now) }
    requires ready { IsReady layout.now arrays.now }
    ensures offset { result ≡ offset_of layout.now (cell_of access.now point.now) }
    ensures array { access.now.array < length arrays.now }
    ensures below { result < length (slice_index_or arrays.now access.now.array []) }
{
    offset_at(layout.array(access.array), &access.subscripts, point)
}

/// What the cell of `access` at `point` holds.
fn read(access: &Access, layout: &Layout, point: &[i64], arrays: &Arrays) -> u64
    requires cell { IsCell layout.now (cell_of access.now point.now) }
    requires ready { IsReady layout.now arrays.now }
    ensures { result ≡ held layout.now arrays.now (cell_of access.now point.now) }
{
    arrays.cell(access.array, offset_in(access, layout, point, arrays))
}

/// Puts `value` into the cell of `access` at `point`.
fn write(access: &Access, layout: &Layout, point: &[i64], value: u64, arrays: &mut Arrays)
    requires cell { IsCell layout.now (cell_of access.now point.now) }
    requires ready { IsReady layout.now arrays.old }
    ensures arrays { arrays.new ≡ stored layout.now arrays.old (cell_of access.now point.now) value }
    ensures ready { IsReady layout.now arrays.new }
{
    let offset = offset_in(access, layout, point, arrays);
    arrays.set_cell(access.array, offset, value);
}

/// What `statement` reads at `point`, in the order of the text.
fn values_read(
    statement: &Stmt,
    layout: &Layout,
    point: &[i64],
    arrays: &Arrays,
) -> ArrayVec<u64, MOST_READS>
    requires cells { AreCells layout.now point.now (accesses (statement_of statement.now)) }
    requires few { length (reads_by (statement_of statement.now)) ≤ 16 }
    requires ready { IsReady layout.now arrays.now }
    ensures { result.items ≡ values_read_by layout.now arrays.now (statement_of statement.now) point.now }
{
    let mut values = ArrayVec::new();
    for number in 0..read_count(statement) {
        let access = access_at(statement, number + 1);
        values.push(read(access, layout, point, arrays));
    }
    values
}

/// Runs `statement` at `point`.
pub fn run_statement(statement: &Stmt, layout: &Layout, point: &[i64], arrays: &mut Arrays)
    requires cells { AreCells layout.now point.now (accesses (statement_of statement.now)) }
    requires few { length (reads_by (statement_of statement.now)) ≤ 16 }
    requires ready { IsReady layout.now arrays.old }
    ensures arrays { arrays.new ≡ performed_by layout.now arrays.old (statement_of statement.now) point.now }
    ensures ready { IsReady layout.now arrays.new }
{
    let reads = values_read(statement, layout, point, arrays);
    let value = stored_on(&statement.right, point, reads.as_slice());
    write(&statement.place, layout, point, value, arrays);
}
