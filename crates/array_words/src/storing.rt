//! The store of a cell: one store of its word.
ghost use Rattle.std.specs.Prelude.{◌≡◌, [], suc};
ghost use Rattle.array_words.specs.Seats.{IsSeat};
ghost use Rattle.array_words.specs.Stores.{DoesStore, IsNextStore, StoresAt};
ghost use Rattle.tile_core.specs.Passes.{IsPass, walk_in};
ghost use Rattle.tile_core.specs.Views.{done_at, tile_at};
ghost use Rattle.tile_core.specs.declared.worker.Stage.TheVariants.{Working};

use atomic_table::{Play, Seat};
use tile_core::{Pass, View, Words, walks_are_dealt};
use tile_events::events_are_allowed;

/// What a store tells its seat.
pub struct Storing;

impl Play<(), View> for Storing {
    ghost use Rattle.array_words.specs.Stores.{Stores};

    ghost then = { Stores };
}

/// Stores the value of the next instance of the seat's worker in its cell; the worker then stands behind that instance.
/// It takes no memory and waits for nobody.
#[inline]
pub fn store_at(words: &Words, seat: &mut Seat<(), View>, cell: usize, value: u64)
    requires seat { IsSeat words.now seat.old.me.0.stage seat.old.me.0.reads seat.old }
    requires next { IsNextStore (walk_in words.now) seat.old.me.0.stage seat.old.me.0.reads cell value }
    ensures seat { IsSeat words.now (Working (tile_at seat.old.me.0.stage) (suc (done_at seat.old.me.0.stage))) []
        seat.new }
    ensures event { StoresAt words.now seat.old cell value seat.new }
{
    walks_are_dealt();
    events_are_allowed::<View, Storing>();
    words.table.shared.store::<Storing>(seat, cell + 2, value);
}

/// Stores the value of the pass's next instance in its cell, and goes on to the one behind it. It takes no memory and
/// waits for nobody.
#[inline]
pub fn store(words: &Words, pass: &mut Pass, cell: usize, value: u64)
    requires pass { IsPass words.now pass.old }
    requires next { IsNextStore (walk_in words.now) pass.old.worker.stage pass.old.worker.reads.items cell value }
    ensures pass { IsPass words.now pass.new }
    ensures stage { pass.new.worker.stage
        ≡ Working (tile_at pass.old.worker.stage) (suc (done_at pass.old.worker.stage)) }
    ensures reads { pass.new.worker.reads.items ≡ [] }
    ensures event { DoesStore words.now pass.old cell value pass.new }
{
    store_at(words, &mut pass.seat, cell, value);
    pass.worker.advance(&words.plan);
}
