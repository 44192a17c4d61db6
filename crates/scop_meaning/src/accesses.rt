//! The numbers of the cells that accesses touch, among those of all arrays.
ghost use Rattle.std.specs.Prelude.{◌≡◌, ◌<◌, ◌≤◌, ◌^◌, length, take};
ghost use Rattle.scop_syntax.specs.Cells.{cell_of};
ghost use Rattle.scop_syntax.specs.Execution.{IsCell, cell_count, cell_number, total_cells};
ghost use Rattle.scop_meaning.specs.Instances.{AreLayout};
ghost use Rattle.scop_meaning.specs.steps.Conditions.{AreExtents};

use crate::cells::offset_at;
use scop_syntax::{Access, Extents};

/// How many cells an array with these extents has.
fn count_cells(extents: &[u64]) -> usize
    requires { AreExtents extents.now }
    ensures { result ≡ cell_count extents.now }
{
    if extents.is_empty() {
        1
    } else {
        extents[0] as usize * count_cells(&extents[1..])
    }
}

/// How many cells the arrays before this one have.
pub fn cells_before(extents: &Extents, array: usize) -> usize
    requires layout { AreLayout extents.now }
    requires array { array < length extents.now }
    ensures number { result ≡ total_cells (take array extents.now) }
    ensures few { result ≤ 2 ^ 22 }
{
    let mut total = 0;
    for at in 0..array {
        total += count_cells(extents.array(at));
    }
    total
}

/// The number of the cell of `access` at `point`, among those of all arrays.
pub fn number_of(access: &Access, extents: &Extents, point: &[i64]) -> usize
    requires layout { AreLayout extents.now }
    requires cell { IsCell extents.now (cell_of access.now point.now) }
    ensures { result ≡ cell_number extents.now (cell_of access.now point.now) }
{
    let before = cells_before(extents, access.array);
    before + offset_at(extents.array(access.array), &access.subscripts, point)
}
