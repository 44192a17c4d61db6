//! A pivot over rows in one buffer, each with its denominator in front.
ghost use Rattle.std.specs.Prelude.{◌≡◌, ◌+◌, ◌*◌, ◌<◌, ◌<ℤ◌, pos, length, slice_index_or};
ghost use Rattle.wide_math.specs.Gives.{Becomes};
ghost use Rattle.tableau_rows.specs.Moves.{unit_line, placed_line_run, buffer_run, HeadsPositive};

use crate::contents::reduce;
use crate::rows::combine;
use crate::staying::surely_fit;
use wide_math::Wide;

/// The row that is the column itself.
pub fn write_unit(row: &mut [i128], column: usize)
    requires { column + 1 < length row.old }
    ensures { row.new ≡ unit_line (length row.old) column }
{
    row.fill(0);
    row[0] = 1;
    row[column + 1] = 1;
}

/// A row after the pivot.
fn place_row(row: &mut [i128], pivot: &[i128], is_pivot: bool, column: usize) -> Result<(), Wide>
    requires lengths { length row.old ≡ length pivot.now }
    requires column { column + 1 < length row.old }
    requires positive { pos 0 <ℤ slice_index_or row.old 0 (pos 0) }
    requires entry { pos 0 <ℤ slice_index_or pivot.now (column + 1) (pos 0) }
    ensures { Becomes row.new result (placed_line_run is_pivot column pivot.now row.old) }
{
    if is_pivot {
        write_unit(row, column);
        return Ok(());
    }
    // The pivot would only multiply the row, and its lowest terms stay.
    if row[column + 1] == 0 && surely_fit(row, pivot[column + 1]) {
        reduce(row);
        return Ok(());
    }
    match combine(row, pivot, column) {
        Err(wide) => return Err(wide),
        Ok(()) => {}
    }
    reduce(row);
    Ok(())
}

/// The pivot on the row at `row`, whose numbers `pivot` repeats, in the column.
pub fn pivot_rows(
    cells: &mut [i128],
    pivot: &[i128],
    count: usize,
    row: usize,
    column: usize,
) -> Result<(), Wide>
    requires lengths { length cells.old ≡ count * length pivot.now }
    requires column { column + 1 < length pivot.now }
    requires positive { HeadsPositive (length pivot.now) count cells.old }
    requires entry { pos 0 <ℤ slice_index_or pivot.now (column + 1) (pos 0) }
    ensures { Becomes cells.new result (buffer_run row column pivot.now 0 count cells.old) }
{
    let stride = pivot.len();
    let mut start = 0usize;
    for at in 0..count {
        match place_row(&mut cells[start..start + stride], pivot, at == row, column) {
            Err(wide) => return Err(wide),
            Ok(()) => {}
        }
        start += stride;
    }
    Ok(())
}
