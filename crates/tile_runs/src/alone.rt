//! One worker's run of a plan on the caller's own thread: the core claims, opens and finishes its tiles one after another,
//! does the instances of each by stretches, and releases the tiles that wait for it.
ghost use Rattle.std.specs.Prelude.{◌≡◌, ◌+◌, ◌<◌, [], length, suc};
ghost use Rattle.tile_core.specs.Boards.{event_of, seen_of};
ghost use Rattle.tile_core.specs.Cores.{IsCore, plan_in, state_in};
ghost use Rattle.tile_core.specs.Plans.{IsPlan, walk_shape};
ghost use Rattle.tile_events.specs.Core.{idle, step as stepped, working};
ghost use Rattle.tile_runs.specs.steps.Alone.{IsAlone, IsLater, shape_in};

use tile_core::{Core, Event, NotEnabled, Plan, Seen, opened_tiles_were_released};

/// One event of the worker.
fn act(core: &mut Core, event: Event) -> Result<Seen, NotEnabled>
    requires core { IsCore core.old }
    requires some { 0 < length (state_in core.old).workers }
    ensures later { IsLater core.old core.new }
    ensures step { stepped (shape_in core.old) (state_in core.old) 0 (event_of event)
        ≡ (state_in core.new, seen_of result) }
{
    core.step(0, event)
}

/// Claims the next tile and opens it.
fn open_next(core: &mut Core, tile: u64)
    requires core { IsCore core.old }
    requires tile { tile < (shape_in core.old).tiles }
    requires alone { IsAlone (state_in core.old) tile tile idle }
    ensures later { IsLater core.old core.new }
    ensures alone { IsAlone (state_in core.new) (suc tile) tile (working tile 0 []) }
{
    opened_tiles_were_released();
    let _ = act(core, Event::Claim);
    let _ = act(core, Event::Open);
}

/// Does the instances of the tile, which are so many.
fn do_instances(core: &mut Core, tile: u64, size: usize)
    requires core { IsCore core.old }
    requires size { size ≡ (walk_shape (plan_in core.old)).size tile }
    requires alone { IsAlone (state_in core.old) (suc tile) tile (working tile 0 []) }
    ensures later { IsLater core.old core.new }
    ensures alone { IsAlone (state_in core.new) (suc tile) tile (working tile size []) }
{
    let mut done = 0;
    while done < size {
        done += core.do_stretch(0);
    }
}

/// Releases the tiles that wait for the tile, which are so many.
fn release_all(core: &mut Core, tile: u64, size: usize, waiting: usize)
    requires core { IsCore core.old }
    requires size { size ≡ (walk_shape (plan_in core.old)).size tile }
    requires waiting { size + waiting ≡ (shape_in core.old).size tile }
    requires alone { IsAlone (state_in core.old) (suc tile) tile (working tile size []) }
    ensures later { IsLater core.old core.new }
    ensures alone { IsAlone (state_in core.new) (suc tile) tile (working tile (size + waiting) []) }
{
    for _ in 0..waiting {
        let _ = act(core, Event::Release);
    }
}

/// Does the next tile, which has so many instances, and for which so many tiles wait.
fn do_tile(core: &mut Core, tile: u64, size: usize, waiting: usize)
    requires core { IsCore core.old }
    requires tile { tile < (shape_in core.old).tiles }
    requires size { size ≡ (walk_shape (plan_in core.old)).size tile }
    requires waiting { size + waiting ≡ (shape_in core.old).size tile }
    requires alone { IsAlone (state_in core.old) tile tile idle }
    ensures later { IsLater core.old core.new }
    ensures alone { IsAlone (state_in core.new) (suc tile) (suc tile) idle }
{
    open_next(core, tile);
    do_instances(core, tile, size);
    release_all(core, tile, size, waiting);
    let _ = act(core, Event::Finish);
}

/// Does every tile of its plan.
pub(crate) fn do_all(core: &mut Core, plan: &Plan)
    requires core { IsCore core.old }
    requires plan { IsPlan plan.now }
    requires same { plan_in core.old ≡ plan.now }
    requires alone { IsAlone (state_in core.old) 0 0 idle }
    ensures later { IsLater core.old core.new }
    ensures alone { IsAlone (state_in core.new) (shape_in core.old).tiles (shape_in core.old).tiles idle }
{
    for tile in 0..plan.tiles() {
        do_tile(core, tile, plan.instances(tile), plan.successors(tile));
    }
}
