//! An instance that writes a copy of its own and reads those of its sources, done on a row of cells with copies behind them.
//! Promises that the cells end as that instance of the worker's tile leaves them.
ghost use Rattle.std.specs.Prelude.{◌≡◌, ◌⊎◌, ◌≤◌, [], length};
ghost use Rattle.tile_core.specs.Plans.{IsPlan, walk_shape};
ghost use Rattle.tile_core.specs.Workers.{IsWorker};
ghost use Rattle.tile_core.specs.steps.Copied.{DoesNone, DoesSome};

use crate::plan::Plan;
use crate::stretching::updated;
use crate::worker::Worker;

/// Does the worker's next instance, where it has one due, and goes on behind it; tells how many instances that are: one, or
/// none.
pub(crate) fn do_copied(cells: &mut [u64], plan: &Plan, worker: &mut Worker) -> usize
    requires plan { IsPlan plan.now }
    requires worker { IsWorker plan.now worker.old }
    requires reads { worker.old.reads.items ≡ [] }
    requires cells { (walk_shape plan.now).cells ≤ length cells.old }
    ensures done { DoesNone plan.now worker.old.stage worker.new.stage cells.old cells.new result
        ⊎ DoesSome plan.now worker.old.stage worker.new.stage cells.old cells.new result }
    ensures reads { worker.new.reads.items ≡ [] }
    ensures worker { IsWorker plan.now worker.new }
{
    let Some(due) = worker.due(plan) else {
        return 0;
    };
    let instance = *due;
    let (tile, done) = worker.at();
    for read in 0..plan.reads(&instance) {
        worker.read(cells[plan.cell_read(&instance, tile, done, read)]);
    }
    let at = plan.cell_written(&instance, tile, done);
    let value = worker.value(plan, &instance);
    cells[at] = updated(plan.adds(&instance), cells[at], value);
    worker.advance(plan);
    1
}
