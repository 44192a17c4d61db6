//! The opening of a tile by waves: one load of word 1, which counts the finished ones.
ghost use Rattle.std.specs.Prelude.{◌≡◌, ◌<◌, IfErr, IfOk, None, []};
ghost use Rattle.tile_core.specs.Passes.{IsPass, IsWords, plan_in};
ghost use Rattle.tile_core.specs.Plans.{shape_of};
ghost use Rattle.tile_core.specs.Views.{needs_at, tile_at};
ghost use Rattle.tile_core.specs.declared.worker.Stage.TheVariants.{Working};
ghost use Rattle.tile_events.specs.Core.{needed_by};
ghost use Rattle.wave_barrier.specs.Opens.{DoesOpen, IsHolding};

use atomic_table::Play;
use tile_core::{Pass, Stage, View, Words};
use tile_events::events_are_allowed;

/// What an opening tells its pass.
pub struct Opening;

impl Play<(), View> for Opening {
    ghost use Rattle.wave_barrier.specs.Opens.{Opens};

    ghost then = { Opens };
}

/// So many tiles were finished, and so many have to be.
#[derive(Clone, Copy)]
pub struct NotYet {
    pub done: u64,
    pub needs: u64,
}

/// How much has to be seen before the tile is opened.
pub(crate) fn needed(words: &Words, tile: u64) -> u64
    requires words { IsWords words.now }
    requires tile { tile < (shape_of words.now.plan).tiles }
    ensures { result ≡ needed_by (plan_in words.now).gate (plan_in words.now) tile }
{
    words.plan.needs(tile)
}

/// Opens the tile that the pass holds, where all tiles of earlier waves are finished. It takes no memory and waits for
/// nobody.
///
/// # Errors
/// `NotYet` exactly where fewer tiles were finished at this load than lie in earlier waves; it tells both numbers.
#[inline]
pub fn try_open(words: &Words, pass: &mut Pass) -> Result<(), NotYet>
    requires pass { IsPass words.now pass.old }
    requires holding { IsHolding pass.old.worker.stage }
    requires edges { words.now.plan.edges ≡ None }
    ensures pass { IsPass words.now pass.new }
    ensures opened { IfOk result (λ _. pass.new.worker.stage ≡ Working (tile_at pass.old.worker.stage) 0) }
    ensures reads { IfOk result (λ _. pass.new.worker.reads.items ≡ []) }
    ensures not_yet { IfErr result (λ e. (e.done < e.needs)
        × (e.needs ≡ needs_at (plan_in words.now) pass.old.worker.stage)
        × (pass.new.worker.stage ≡ pass.old.worker.stage)) }
    ensures event { DoesOpen words.now pass.old result pass.new }
{
    events_are_allowed::<View, Opening>();
    let Stage::Holding(tile) = pass.worker.stage else {
        unreachable!()
    };
    let needs = needed(words, tile);
    let done = words.table.shared.load::<Opening>(&mut pass.seat, 1);
    if done < needs {
        return Err(NotYet { done, needs });
    }
    pass.worker.open(&words.plan, tile);
    Ok(())
}
