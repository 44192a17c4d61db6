//! The opening of a tile by its counter: one load of the counter's word, which tells how many tiles have released it.
ghost use Rattle.std.specs.Prelude.{◌≡◌, ◌+◌, ◌<◌, IfErr, IfOk, []};
ghost use Rattle.tile_core.specs.Passes.{IsPass, IsWords, plan_in};
ghost use Rattle.tile_core.specs.Plans.{HasEdges, shape_of, walk_shape};
ghost use Rattle.tile_core.specs.Views.{needs_at, tile_at};
ghost use Rattle.tile_core.specs.declared.worker.Stage.TheVariants.{Holding, Working};
ghost use Rattle.tile_events.specs.Core.{needed_by};
ghost use Rattle.tile_events.specs.Rule.{gate_word};
ghost use Rattle.wave_barrier.specs.Opens.{DoesOpenBy, DoesOpenTile, IsHolding};

use crate::waves::{Opening, needed};
use tile_core::{Pass, Stage, View, Words};
use tile_events::events_are_allowed;

/// So many tiles had released this one, and so many have to.
#[derive(Clone, Copy)]
pub struct Short {
    pub seen: u64,
    pub needs: u64,
}

/// The word of the tile's counter: the counters stand behind the counts, the cells of all arrays and their copies.
pub(crate) fn counter_word(words: &Words, tile: u64) -> usize
    requires words { IsWords words.now }
    requires edges { HasEdges words.now.plan }
    requires tile { tile < (shape_of words.now.plan).tiles }
    ensures word { result ≡ ((walk_shape words.now.plan).cells + tile) + 2 }
    ensures inside { result < words.now.table.shared.table_id.words }
{
    words.table.word_count() - words.plan.tiles() as usize + tile as usize
}

/// Opens the tile that the pass holds, whose gate looks at this word and needs so much.
fn open_by(words: &Words, pass: &mut Pass, tile: u64, word: usize, needs: u64) -> Result<(), Short>
    requires pass { IsPass words.now pass.old }
    requires holding { pass.old.worker.stage ≡ Holding tile }
    requires word { gate_word (plan_in words.now).gate tile ≡ word }
    requires inside { word < words.now.table.shared.table_id.words }
    requires needs { needed_by (plan_in words.now).gate (plan_in words.now) tile ≡ needs }
    ensures pass { IsPass words.now pass.new }
    ensures opened { IfOk result (λ _. pass.new.worker.stage ≡ Working tile 0) }
    ensures reads { IfOk result (λ _. pass.new.worker.reads.items ≡ []) }
    ensures short { IfErr result (λ e. (e.seen < e.needs) × (e.needs ≡ needs)
        × (pass.new.worker.stage ≡ pass.old.worker.stage)) }
    ensures event { DoesOpenBy words.now pass.old word needs result pass.new }
{
    events_are_allowed::<View, Opening>();
    let seen = words.table.shared.load::<Opening>(&mut pass.seat, word);
    if seen < needs {
        return Err(Short { seen, needs });
    }
    pass.worker.open(&words.plan, tile);
    Ok(())
}

/// Opens the tile that the pass holds, where all tiles for which it waits have released it. It takes no memory and waits
/// for nobody.
///
/// # Errors
/// `Short` exactly where fewer tiles had released it at this load than it waits for; it tells both numbers.
pub fn try_open_tile(words: &Words, pass: &mut Pass) -> Result<(), Short>
    requires pass { IsPass words.now pass.old }
    requires holding { IsHolding pass.old.worker.stage }
    requires edges { HasEdges words.now.plan }
    ensures pass { IsPass words.now pass.new }
    ensures opened { IfOk result (λ _. pass.new.worker.stage ≡ Working (tile_at pass.old.worker.stage) 0) }
    ensures reads { IfOk result (λ _. pass.new.worker.reads.items ≡ []) }
    ensures short { IfErr result (λ e. (e.seen < e.needs)
        × (e.needs ≡ needs_at (plan_in words.now) pass.old.worker.stage)
        × (pass.new.worker.stage ≡ pass.old.worker.stage)) }
    ensures event { DoesOpenTile words.now pass.old result pass.new }
{
    let Stage::Holding(tile) = pass.worker.stage else {
        unreachable!()
    };
    let word = counter_word(words, tile);
    let needs = needed(words, tile);
    open_by(words, pass, tile, word, needs)
}
