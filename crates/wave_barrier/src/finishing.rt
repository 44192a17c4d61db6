//! The end of a tile: one `fetch_add` of word 1.
ghost use Rattle.std.specs.Prelude.{◌≡◌, []};
ghost use Rattle.tile_core.specs.Passes.{IsPass, plan_in};
ghost use Rattle.tile_core.specs.declared.worker.Stage.TheVariants.{Idle};
ghost use Rattle.wave_barrier.specs.Finishes.{DoesFinish, IsFull};

use atomic_table::Play;
use tile_core::{Pass, Stage, View, Words};
use tile_events::events_are_allowed;

/// What the end of a tile tells its pass.
pub struct Finishing;

impl Play<(), View> for Finishing {
    ghost use Rattle.wave_barrier.specs.Finishes.{Finishes};

    ghost then = { Finishes };
}

/// Counts the tile that the pass holds as finished, where every instance of it is done and every tile that waits for it
/// released, and gives it up. It takes no memory and waits for nobody.
#[inline]
pub fn finish(words: &Words, pass: &mut Pass)
    requires pass { IsPass words.now pass.old }
    requires full { IsFull (plan_in words.now) pass.old.worker.stage }
    ensures pass { IsPass words.now pass.new }
    ensures stage { pass.new.worker.stage ≡ Idle }
    ensures reads { pass.new.worker.reads.items ≡ [] }
    ensures event { DoesFinish words.now pass.old pass.new }
{
    events_are_allowed::<View, Finishing>();
    words
        .table
        .shared
        .fetch_add::<Finishing>(&mut pass.seat, 1, 1);
    pass.worker.put(Stage::Idle);
}
