//! The end of a run in which each instance wrote a copy of its own: the copies are put, in the order of the kernel's
//! own execution, into the cells that it writes, so that in each the last one stays. Promises the arrays of that
//! execution.
ghost use Rattle.std.specs.Prelude.{◌≡◌, ◌+◌, ◌<◌, ◌≤◌, ℕ, List, [], get_or, length, slice_set};
ghost use Rattle.scop_syntax.specs.Execution.{IsShaped, total_cells};
ghost use Rattle.scop_syntax.specs.Members.{In};
ghost use Rattle.scop_syntax.specs.View.{instance_of};
ghost use Rattle.loop_tree.specs.Conditions.{CanWalk};
ghost use Rattle.loop_tree.specs.SpotView.{IsSpotOf, to_come};
ghost use Rattle.loop_tree.specs.View.{trees_in};
ghost use Rattle.tile_core.specs.Plans.{IsPlan, extents_in, place_of, places_in, plain_shape, walk_in};
ghost use Rattle.tile_runs.specs.Running.{HasArrays, HasCopies};

use loop_tree::{Spot, Tree};
use scop_syntax::{Instance, cells_have_numbers_of_their_own, walks_are_in_order};
use tile_core::Plan;

/// The cell that a walked instance writes in the kernel's own execution, by its number among those of all arrays.
fn own_cell(plan: &Plan, instance: &Instance) -> usize
    requires plan { IsPlan plan.now }
    requires walked { In (instance_of instance.now) (places_in plan.now) }
    ensures { result ≡ (plain_shape plan.now).written (place_of plan.now instance.now) }
{
    plan.row(instance).cell_at(instance.turns(), 0)
}

/// Puts what stands in one cell of a row into another.
fn put(row: &mut Vec<u64>, cell: usize, from: usize)
    requires cell { cell < length row.old.items }
    requires from { from < length row.old.items }
    ensures { row.new.items ≡ slice_set row.old.items cell (get_or row.old.items from 0) }
{
    row[cell] = row[from];
}

/// Puts the copy of each place of the walk, one after another, into the cell that the place writes in the kernel's own
/// execution. `source` is the kernel's own tree, at whose beginning the spot stands, and `cells` is how many cells all
/// arrays have, behind which the copies stand.
pub(crate) fn settle(plan: &Plan, source: &Tree, spot: &mut Spot, cells: usize, row: &mut Vec<u64>)
    requires plan { IsPlan plan.now }
    requires walk { CanWalk (trees_in source.now) plan.now.params.now [] }
    requires spot { IsSpotOf (trees_in source.now) plan.now.params.now spot.old }
    requires rest { to_come (trees_in source.now) plan.now.params.now spot.old ≡ places_in plan.now }
    requires cells { cells ≡ total_cells (extents_in plan.now) }
    requires room { cells + length (walk_in plan.now) ≤ length row.old.items }
    ensures { (contents : List (List ℕ)) → IsShaped (extents_in plan.now) contents
        → HasCopies plan.now contents row.old.items → HasArrays plan.now contents row.new.items }
{
    cells_have_numbers_of_their_own();
    walks_are_in_order();
    let mut place = 0;
    while let Some(instance) = spot.next(source, plan.params) {
        put(row, own_cell(plan, &instance), cells + place);
        place += 1;
    }
}
