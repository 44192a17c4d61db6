//! Instances that a worker has ahead, done on a row of cells by its desk, one after another. Promises that the cells end
//! as those instances of its tile leave them, each by the values that its reads find.
ghost use Rattle.std.specs.Prelude.{◌≡◌, ◌≤◌, ℕ, ℤ, List, length, take};
ghost use Rattle.scop_syntax.specs.Walk.{Instance};
ghost use Rattle.tile_table.specs.Desks.{HasSameRoom, IsLaid};
ghost use Rattle.tile_core.specs.Plans.{IsPlan, places_in, plain_shape};
ghost use Rattle.tile_core.specs.Ranks.{place_in};
ghost use Rattle.tile_core.specs.Stretches.{IsAhead};
ghost use Rattle.tile_core.specs.Workers.{IsWorker};
ghost use Rattle.tile_core.specs.declared.plan.Plan.{Plan as AnyPlan};
ghost use Rattle.tile_core.specs.declared.worker.Stage.TheVariants as stage_of;
ghost use Rattle.tile_core.specs.steps.Acts.{after_instances, after_place, values_at};
ghost use Rattle.tile_core.specs.steps.Desks.{IsDeskAt, StandsIn, StaysLaid};
ghost use Rattle.tile_events.specs.Plan.{updated as exact_updated};
ghost use Rattle.whole_numbers.specs.Lists.{sums};

use crate::joining::do_joins;
use crate::plan::Plan;
use crate::plan_laws::rows_tell_instances;
use crate::worker::Worker;
use tile_table::{Desk, Row};

/// What a cell holds that held `old`, after the value was added or stored.
#[inline]
pub(crate) fn updated(adds: bool, old: u64, value: u64) -> u64
    ensures { result ≡ exact_updated adds old value }
{
    if adds { old.wrapping_add(value) } else { value }
}

/// Reads the cells of the instance where the desk stands.
#[inline]
fn read_all(cells: &[u64], row: &Row, desk: &mut Desk)
    requires { StandsIn row.now desk.old cells.now }
    ensures reads { (plan : AnyPlan) (steps : List ℤ) (x : Instance) → IsDeskAt plan row.now steps x desk.old
        → take row.now.code.reads desk.new.slots.items
        ≡ values_at cells.now ((plain_shape plan).read (place_in (places_in plan) x)) }
    ensures stays { StaysLaid row.now desk.old desk.new }
{
    for read in 0..row.code.reads {
        let value = cells[row.cell(desk, read + 1)];
        row.put(desk, read, value);
    }
}

/// Does the instance where the desk stands, and takes the desk one step on.
#[inline]
pub(crate) fn do_laid(cells: &mut [u64], row: &Row, desk: &mut Desk)
    requires { StandsIn row.now desk.old cells.old }
    ensures cells { (plan : AnyPlan) (steps : List ℤ) (x : Instance) → IsDeskAt plan row.now steps x desk.old
        → cells.new ≡ after_place (plain_shape plan) (place_in (places_in plan) x) cells.old }
    ensures laid { (steps turns : List ℤ) → IsLaid row.now steps turns desk.old
        → IsLaid row.now steps (sums turns steps) desk.new }
    ensures room { HasSameRoom desk.old desk.new }
{
    read_all(cells, row, desk);
    let value = row.value(desk);
    let at = row.cell(desk, 0);
    cells[at] = updated(row.adds, cells[at], value);
    row.go_on(desk);
}

/// Does so many of the instances that the worker has ahead. Of the worker nothing but its desk changes.
pub(crate) fn do_ahead(cells: &mut [u64], plan: &Plan, worker: &mut Worker, count: usize)
    requires plan { IsPlan plan.now }
    requires worker { IsWorker plan.now worker.old }
    requires ahead { IsAhead plan.now worker.old.stage worker.old.next worker.old.spot.stretch count }
    requires cells { (plain_shape plan.now).cells ≤ length cells.old }
    ensures cells { (t k : ℕ) → worker.old.stage ≡ stage_of.Working t k
        → cells.new ≡ after_instances (plain_shape plan.now) t k count cells.old }
    ensures same { worker.new ≡ record worker.old { desk = worker.new.desk } }
    ensures worker { IsWorker plan.now worker.new }
{
    rows_tell_instances();
    let Some(first) = worker.next else {
        return;
    };
    let row = plan.row(&first);
    let steps = &worker.spot.stretch.steps[..first.loops];
    if let Some(lanes) = row.lay_join(first.turns(), steps) {
        do_joins(cells, lanes, count);
        return;
    }
    row.lay(&mut worker.desk, first.turns(), steps);
    for _ in 0..count {
        do_laid(cells, row, &mut worker.desk);
    }
}
