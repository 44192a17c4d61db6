//! Of each cell a mark: 0, or one more than the place that wrote it last. Promises that what is put down of a place's reads
//! are the marks of the cells that it reads.
ghost use Rattle.std.specs.Prelude.{◌≡◌, ◌++◌, ◌<◌, ℕ, OnOk, get_or, length, slice_get};
ghost use Rattle.expansions.specs.steps.Marks.{IsMarked, firsts, mark_of, read_marks};

use std::alloc::AllocError;
use tile_table::Row;

/// The mark of the cell that an access touches at these turns; 0 where there is no such access.
fn mark_at(marks: &[u32], row: &Row, turns: &[i64], access: usize) -> u32
    ensures { result ≡ mark_of marks.now turns.now (slice_get row.now.cells.items access) }
{
    if access >= row.cells.len() {
        return 0;
    }
    match marks.get(row.cell_at(turns, access)) {
        None => 0,
        Some(mark) => *mark,
    }
}

/// Puts the marks of the cells that are read at these turns behind other numbers, and then zeros: `most` numbers in all.
pub(crate) fn put_marks(
    marks: &[u32],
    row: &Row,
    turns: &[i64],
    most: usize,
    numbers: &mut Vec<u32>,
) -> Result<(), AllocError>
    ensures { OnOk result (numbers.new.items
        ≡ numbers.old.items ++ firsts (read_marks marks.now row.now turns.now) most) }
{
    for read in 0..most {
        numbers.push(mark_at(marks, row, turns, read + 1))?;
    }
    Ok(())
}

/// Makes room for a cell.
fn reach(marks: &mut Vec<u32>, cell: usize) -> Result<(), AllocError>
    ensures same { OnOk result ((c : ℕ) → get_or marks.new.items c 0 ≡ get_or marks.old.items c 0) }
    ensures room { OnOk result (cell < length marks.new.items) }
{
    while marks.len() <= cell {
        marks.push(0)?;
    }
    Ok(())
}

/// A place writes a cell.
pub(crate) fn mark(marks: &mut Vec<u32>, cell: usize, place: u32) -> Result<(), AllocError>
    requires { place < 4194304 }
    ensures { OnOk result (IsMarked cell place marks.old.items marks.new.items) }
{
    reach(marks, cell)?;
    marks[cell] = place + 1;
    Ok(())
}
