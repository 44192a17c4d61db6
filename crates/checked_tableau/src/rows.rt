//! One row combined with the pivot row, in place.
ghost use Rattle.std.specs.Prelude.{◌≡◌, ◌<◌, ◌+◌, pos, length, slice_index_or};
ghost use Rattle.wide_math.specs.Gives.{Becomes};
ghost use Rattle.tableau_rows.specs.Moves.{crossed_run, entries_run, line_run};

use affine_forms::zip_in_place;
use wide_math::{Wide, cross, mul};

/// Each entry of `row` times `a`, less `b` times the other's entry at its place.
pub fn cross_row(row: &mut [i128], a: i128, b: i128, other: &[i128]) -> Result<(), Wide>
    requires { length row.old ≡ length other.now }
    ensures { Becomes row.new result (crossed_run a b row.old other.now) }
{
    zip_in_place(row, other, &|x, y| cross(x, a, b, y))
}

/// The entries of a row with the pivot row put in: crossed before and behind the column, and in it
/// the entry times the pivot row's denominator.
pub fn combine_entries(
    entries: &mut [i128],
    pivot: &[i128],
    column: usize,
    denominator: i128,
) -> Result<(), Wide>
    requires lengths { length entries.old ≡ length pivot.now }
    requires column { column < length entries.old }
    ensures { Becomes entries.new result (entries_run column (slice_index_or pivot.now column (pos 0))
        (slice_index_or entries.old column (pos 0)) denominator entries.old pivot.now) }
{
    let a = pivot[column];
    let b = entries[column];
    let (front, rest) = entries.split_at_mut(column);
    let (cell, back) = rest.split_at_mut(1);
    match cross_row(front, a, b, &pivot[..column]) {
        Err(wide) => return Err(wide),
        Ok(()) => {}
    }
    match mul(b, denominator) {
        Err(wide) => return Err(wide),
        Ok(product) => cell[0] = product,
    }
    cross_row(back, a, b, &pivot[column + 1..])
}

/// A row, its denominator in front of its entries, with the pivot row put in, before lowest terms.
pub fn combine(row: &mut [i128], pivot: &[i128], column: usize) -> Result<(), Wide>
    requires lengths { length row.old ≡ length pivot.now }
    requires column { column + 1 < length row.old }
    ensures { Becomes row.new result (line_run column pivot.now row.old) }
{
    let (denominator, entries) = row.split_at_mut(1);
    match mul(denominator[0], pivot[column + 1]) {
        Err(wide) => return Err(wide),
        Ok(product) => denominator[0] = product,
    }
    combine_entries(entries, &pivot[1..], column, pivot[0])
}
