//! What is told of the arrays in the end: how many cells they have, and the sum of these modulo 2^64.

ghost use Rattle.std.specs.Prelude.{◌≡◌, ◌+◌, ◌≤◌, ◌%◌, ◌^◌};
ghost use Rattle.std.specs.List.{sum};
ghost use Rattle.scop_syntax.specs.Execution.{IsShaped, total_cells};
ghost use Rattle.kernel_gen.specs.Totals.{cells_in, sum_of};

use data_text::Case;
use scop_syntax::Arrays;

/// How many cells arrays have.
fn count(arrays: &Arrays) -> u64
    requires { cells_in arrays.now ≤ 2 ^ 22 }
    ensures { result ≡ cells_in arrays.now }
{
    let mut count: u64 = 0;
    for at in 0..arrays.count() {
        count += arrays.array(at).len() as u64;
    }
    count
}

/// A number with some cells added to it, modulo 2^64.
fn with_cells(total: u64, cells: &[u64]) -> u64
    ensures { result ≡ (total + sum cells.now) % 2 ^ 64 }
{
    let mut total = total;
    for cell in cells {
        total = total.wrapping_add(*cell);
    }
    total
}

/// How many cells the arrays of a case have.
pub fn cells_in(case: &Case) -> u64
    requires shape { IsShaped case.now.extents case.now.arrays }
    requires few { total_cells case.now.extents ≤ 2 ^ 22 }
    ensures { result ≡ cells_in case.now.arrays }
{
    count(&case.arrays)
}

/// The sum of all cells of arrays, modulo 2^64.
pub fn sum_of(arrays: &Arrays) -> u64
    ensures { result ≡ sum_of arrays.now }
{
    let mut total: u64 = 0;
    for at in 0..arrays.count() {
        total = with_cells(total, arrays.array(at));
    }
    total
}
