//! The number of a cell at any point, modulo 2^64.
ghost use Rattle.std.specs.Prelude.{◌≡◌, ◌≤◌, ◌^◌, All, pos};
ghost use Rattle.std.specs.Int.{int_wrap, w64};
ghost use Rattle.scop_syntax.specs.Cells.{values};
ghost use Rattle.tile_table.specs.Numbers.{number_behind as exact_number, row_major};

use scop_syntax::{Aff, value_at, with_product};

/// The row-major offset of these subscripts at `point`, in an array with these extents.
fn offset_at(extents: &[u64], subscripts: &[Aff], point: &[i64]) -> i64
    requires { All (λ e. (1 ≤ e) × (e ≤ 2 ^ 22)) extents.now }
    ensures { result ≡ int_wrap w64 (row_major (pos 0) extents.now (values subscripts.now point.now)) }
{
    let mut offset = 0;
    let count = extents.len().min(subscripts.len());
    for at in 0..count {
        offset = with_product(value_at(&subscripts[at], point), extents[at] as i64, offset);
    }
    offset
}

/// The number of the cell with these subscripts at `point`, in an array with these extents behind so many cells.
pub(crate) fn number_behind(
    before: usize,
    extents: &[u64],
    subscripts: &[Aff],
    point: &[i64],
) -> i64
    requires few { before ≤ 2 ^ 22 }
    requires extents { All (λ e. (1 ≤ e) × (e ≤ 2 ^ 22)) extents.now }
    ensures { result ≡ int_wrap w64 (exact_number before extents.now subscripts.now point.now) }
{
    let front = before as i64;
    let offset = offset_at(extents, subscripts, point);
    front.wrapping_add(offset)
}
