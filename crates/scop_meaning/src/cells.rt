//! Cells of arrays, row by row.
ghost use Rattle.std.specs.Prelude.{◌≡◌, ◌+◌, ◌*◌, ◌<◌, ◌^◌, ◌≤ℤ◌, ◌<ℤ◌, pos};
ghost use Rattle.whole_numbers.specs.Affine.{value_of};
ghost use Rattle.scop_syntax.specs.Cells.{values};
ghost use Rattle.scop_syntax.specs.Execution.{AreWithin, cell_count, offset_from, size_of};

use scop_syntax::{Aff, wrapped_at};

/// One step of Horner's rule: `offset * extent + subscript`, with the subscript at `point`.
fn next_offset(offset: u64, extent: u64, subscript: &Aff, point: &[i64]) -> u64
    requires low { pos 0 ≤ℤ value_of subscript.now point.now }
    requires high { value_of subscript.now point.now <ℤ pos extent }
    requires room { offset * extent + size_of (value_of subscript.now point.now) < 2 ^ 64 }
    ensures { result ≡ offset * extent + size_of (value_of subscript.now point.now) }
{
    offset * extent + wrapped_at(subscript, point)
}

/// The row-major offset of the cell with these subscripts at `point`, in an array with these
/// extents.
pub fn offset_at(extents: &[u64], subscripts: &[Aff], point: &[i64]) -> usize
    requires within { AreWithin (values subscripts.now point.now) extents.now }
    requires count { cell_count extents.now < 2 ^ 64 }
    ensures offset { result ≡ offset_from 0 extents.now (values subscripts.now point.now) }
    ensures below { result < cell_count extents.now }
{
    let mut offset = 0;
    for at in 0..subscripts.len() {
        offset = next_offset(offset, extents[at], &subscripts[at], point);
    }
    offset as usize
}
