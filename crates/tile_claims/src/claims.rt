//! The claim: one `fetch_add` of word 0.
ghost use Rattle.std.specs.Prelude.{◌≡◌, []};
ghost use Rattle.tile_claims.specs.Claims.{DoesClaim, stage_claimed};
ghost use Rattle.tile_core.specs.Passes.{IsPass};
ghost use Rattle.tile_core.specs.declared.worker.Stage.TheVariants.{Idle};

use atomic_table::Play;
use tile_core::{Pass, Stage, View, Words};
use tile_events::events_are_allowed;

/// What a claim tells its pass.
pub struct Claiming;

impl Play<(), View> for Claiming {
    ghost use Rattle.tile_claims.specs.Claims.{Claims};

    ghost then = { Claims };
}

/// Claims the next tile for a pass that holds none; None exactly where the number fetched is not below that of the
/// tiles, and the pass has then ended. It takes no memory and waits for nobody.
#[inline]
pub fn claim(words: &Words, pass: &mut Pass) -> Option<u64>
    requires pass { IsPass words.now pass.old }
    requires idle { pass.old.worker.stage ≡ Idle }
    ensures pass { IsPass words.now pass.new }
    ensures stage { pass.new.worker.stage ≡ stage_claimed result }
    ensures reads { pass.new.worker.reads.items ≡ [] }
    ensures event { DoesClaim words.now pass.old result pass.new }
{
    events_are_allowed::<View, Claiming>();
    let fetched = words
        .table
        .shared
        .fetch_add::<Claiming>(&mut pass.seat, 0, 1);
    if fetched < words.plan.tiles() {
        pass.worker.put(Stage::Holding(fetched));
        Some(fetched)
    } else {
        pass.worker.put(Stage::Ended);
        None
    }
}
