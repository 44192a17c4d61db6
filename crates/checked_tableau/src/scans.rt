//! What a run looks for in a buffer of rows: each row has its denominator in front of its entries, the
//! columns' first, then the constant.
ghost use Rattle.std.specs.Prelude.{◌≡◌, ℕ, ◌+◌, ◌*◌, ◌<◌, ◌<ℤ◌, pos, length, slice_index_or, true, None, Some};
ghost use Rattle.std.specs.Prelude.{Ok};
ghost use Rattle.tableau_rows.specs.Rows.{entry};
ghost use Rattle.tableau_rows.specs.Moves.{is_positive, line_row, rows_in, HeadsPositive, precedes_run, column_run};
ghost use Rattle.tableau_rows.specs.Moves.{better_run};
ghost use Rattle.checked_tableau.specs.steps.Leads.{Leads};
ghost use Rattle.tableau_rows.specs.Run.{first_row, has_below, has_fraction, some_positive};

use crate::cuts::remainder_of;
use wide_math::{Wide, mul};

/// Whether the constant is below 0.
fn is_below(row: &[i128], unknowns: usize) -> bool
    requires { unknowns + 1 < length row.now }
    ensures { result ≡ has_below unknowns (line_row row.now) }
{
    row[unknowns + 1] < 0
}

/// The first of `count` rows whose constant is below 0.
pub fn first_below(cells: &[i128], stride: usize, count: usize, unknowns: usize) -> Option<usize>
    requires lengths { length cells.now ≡ count * stride }
    requires constant { unknowns + 1 < stride }
    ensures { result ≡ first_row (has_below unknowns) 0 (rows_in stride count cells.now) }
{
    let mut rest = cells;
    for at in 0..count {
        let (row, others) = rest.split_at(stride);
        if is_below(row, unknowns) {
            return Some(at);
        }
        rest = others;
    }
    None
}

/// Whether a number is positive.
#[inline]
fn is_positive(number: i128) -> bool
    ensures { result ≡ is_positive number }
{
    number > 0
}

/// Whether the denominator does not divide the constant.
fn is_fraction(row: &[i128], unknowns: usize) -> bool
    requires constant { unknowns + 1 < length row.now }
    requires positive { pos 0 <ℤ slice_index_or row.now 0 (pos 0) }
    ensures { result ≡ has_fraction unknowns (line_row row.now) }
{
    let divisor = row[0];
    if divisor == 1 {
        return false;
    }
    is_positive(remainder_of(row[unknowns + 1], divisor))
}

/// The first of `count` rows whose constant its denominator does not divide.
pub fn first_fraction(cells: &[i128], stride: usize, count: usize, unknowns: usize) -> Option<usize>
    requires lengths { length cells.now ≡ count * stride }
    requires constant { unknowns + 1 < stride }
    requires positive { HeadsPositive stride count cells.now }
    ensures { result ≡ first_row (has_fraction unknowns) 0 (rows_in stride count cells.now) }
{
    let mut rest = cells;
    for at in 0..count {
        let (row, others) = rest.split_at(stride);
        if is_fraction(row, unknowns) {
            return Some(at);
        }
        rest = others;
    }
    None
}

/// Whether the entry in a column is positive.
fn is_positive_at(row: &[i128], column: usize) -> bool
    requires { column + 1 < length row.now }
    ensures value { result ≡ is_positive (entry (line_row row.now) column) }
    ensures sign { result ≡ true → pos 0 <ℤ slice_index_or row.now (column + 1) (pos 0) }
{
    row[column + 1] > 0
}

/// Whether a row has a positive entry in one of its columns.
pub fn has_positive(row: &[i128], unknowns: usize) -> bool
    requires { unknowns + 1 < length row.now }
    ensures { result ≡ some_positive (line_row row.now) 0 unknowns }
{
    for column in 0..unknowns {
        if is_positive_at(row, column) {
            return true;
        }
    }
    false
}

/// Whether `column`, divided by its entry in the pivot row, comes before the best so far, divided by its
/// own: the first row in which they differ decides.
fn precedes(
    unknowns: &[i128],
    pivot: &[i128],
    count: usize,
    column: usize,
    best: usize,
) -> Result<bool, Wide>
    requires lengths { length unknowns.now ≡ count * length pivot.now }
    requires column { column + 1 < length pivot.now }
    requires best { best + 1 < length pivot.now }
    ensures { result ≡ precedes_run (slice_index_or pivot.now (column + 1) (pos 0))
        (slice_index_or pivot.now (best + 1) (pos 0))
        column best (rows_in (length pivot.now) count unknowns.now) }
{
    let mut rest = unknowns;
    for _ in 0..count {
        let (row, others) = rest.split_at(pivot.len());
        let new = match mul(row[column + 1], pivot[best + 1]) {
            Err(wide) => return Err(wide),
            Ok(new) => new,
        };
        let old = match mul(row[best + 1], pivot[column + 1]) {
            Err(wide) => return Err(wide),
            Ok(old) => old,
        };
        if new < old {
            return Ok(true);
        }
        if old < new {
            return Ok(false);
        }
        rest = others;
    }
    Ok(false)
}

/// The better of the best column so far and `column`, which is one of the row's positive ones or none.
fn better(
    unknowns: &[i128],
    pivot: &[i128],
    count: usize,
    columns: usize,
    column: usize,
    best: Option<usize>,
) -> Result<Option<usize>, Wide>
    requires lengths { length unknowns.now ≡ count * length pivot.now }
    requires columns { columns + 1 < length pivot.now }
    requires column { column < columns }
    requires best { (s : ℕ) → best ≡ Some s → Leads columns pivot.now s }
    ensures run { result ≡ better_run (rows_in (length pivot.now) count unknowns.now) (line_row pivot.now) column best }
    ensures leads { (s : ℕ) → result ≡ Ok (Some s) → Leads columns pivot.now s }
{
    if !is_positive_at(pivot, column) {
        return Ok(best);
    }
    match best {
        None => Ok(Some(column)),
        Some(champion) => match precedes(unknowns, pivot, count, column, champion) {
            Err(wide) => Err(wide),
            Ok(true) => Ok(Some(column)),
            Ok(false) => Ok(Some(champion)),
        },
    }
}

/// The column of a pivot: among those with a positive entry in the pivot row the one that, over the rows of
/// the unknowns and divided by that entry, is lexicographically least.
pub fn choose(
    unknowns: &[i128],
    pivot: &[i128],
    count: usize,
    columns: usize,
) -> Result<Option<usize>, Wide>
    requires lengths { length unknowns.now ≡ count * length pivot.now }
    requires columns { columns + 1 < length pivot.now }
    ensures run { result ≡ column_run (rows_in (length pivot.now) count unknowns.now) (line_row pivot.now) columns 0
        None }
    ensures leads { (s : ℕ) → result ≡ Ok (Some s) → Leads columns pivot.now s }
{
    let mut best = None;
    for column in 0..columns {
        match better(unknowns, pivot, count, columns, column, best) {
            Err(wide) => return Err(wide),
            Ok(next) => best = next,
        }
    }
    Ok(best)
}
