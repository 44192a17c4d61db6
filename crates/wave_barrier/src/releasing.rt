//! The release of a tile that waits: one `fetch_add` of its counter's word.
ghost use Rattle.std.specs.Prelude.{◌≡◌, ◌<◌, [], suc};
ghost use Rattle.tile_core.specs.Passes.{IsPass, plan_in};
ghost use Rattle.tile_core.specs.Views.{done_at, tile_at};
ghost use Rattle.tile_core.specs.declared.worker.Stage.TheVariants.{Working};
ghost use Rattle.wave_barrier.specs.Releases.{DoesAdd, DoesRelease, IsLeft, next_word};

use crate::counting::counter_word;
use atomic_table::Play;
use tile_core::{Pass, View, Words};
use tile_events::events_are_allowed;

/// What a release tells its pass.
pub struct Releasing;

impl Play<(), View> for Releasing {
    ghost use Rattle.wave_barrier.specs.Releases.{Releases};

    ghost then = { Releases };
}

/// Adds 1 to this word, the counter to which the pass's next release goes.
fn add_to(words: &Words, pass: &mut Pass, word: usize)
    requires pass { IsPass words.now pass.old }
    requires left { IsLeft words.now.plan pass.old.worker.stage }
    requires word { next_word (plan_in words.now) pass.old.worker.stage ≡ word }
    requires inside { word < words.now.table.shared.table_id.words }
    ensures pass { IsPass words.now pass.new }
    ensures stage { pass.new.worker.stage
        ≡ Working (tile_at pass.old.worker.stage) (suc (done_at pass.old.worker.stage)) }
    ensures reads { pass.new.worker.reads.items ≡ [] }
    ensures event { DoesAdd words.now pass.old word pass.new }
{
    events_are_allowed::<View, Releasing>();
    words
        .table
        .shared
        .fetch_add::<Releasing>(&mut pass.seat, word, 1);
    pass.worker.pass_release(&words.plan);
}

/// Releases the next of the tiles that wait for the pass's tile, where every instance of that is done. It takes no memory
/// and waits for nobody.
pub fn release(words: &Words, pass: &mut Pass)
    requires pass { IsPass words.now pass.old }
    requires left { IsLeft words.now.plan pass.old.worker.stage }
    ensures pass { IsPass words.now pass.new }
    ensures stage { pass.new.worker.stage
        ≡ Working (tile_at pass.old.worker.stage) (suc (done_at pass.old.worker.stage)) }
    ensures reads { pass.new.worker.reads.items ≡ [] }
    ensures event { DoesRelease words.now pass.old pass.new }
{
    let Some(next) = pass.worker.releases(&words.plan) else {
        unreachable!()
    };
    add_to(words, pass, counter_word(words, next));
}
