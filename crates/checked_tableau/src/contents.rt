//! A row brought to lowest terms in place, its denominator in front of its entries.
ghost use Rattle.std.specs.Prelude.{◌≡◌, ◌<◌, ◌<ℤ◌, pos, length, slice_index_or};
ghost use Rattle.whole_numbers.specs.Content.{lowest};

use affine_forms::{content, divide_row};

/// Brings a row to lowest terms. A denominator of 1 divides by nothing else.
#[inline]
pub fn reduce(row: &mut [i128])
    requires length { 0 < length row.old }
    requires positive { pos 0 <ℤ slice_index_or row.old 0 (pos 0) }
    ensures { row.new ≡ lowest row.old }
{
    if row[0] == 1 {
        return;
    }
    divide_out(row);
}

/// Divides a row by its content.
#[inline(never)]
fn divide_out(row: &mut [i128])
    ensures { row.new ≡ lowest row.old }
{
    let divisor = content(0, row);
    if divisor > 1 {
        divide_row(row, divisor);
    }
}
