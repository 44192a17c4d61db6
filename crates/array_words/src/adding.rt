//! The add to a cell: one `fetch_add` of its word.
ghost use Rattle.std.specs.Prelude.{◌≡◌, [], suc};
ghost use Rattle.array_words.specs.Seats.{IsSeat};
ghost use Rattle.array_words.specs.Stores.{AddsAt, DoesAdd, IsNextAdd};
ghost use Rattle.tile_core.specs.Passes.{IsPass, walk_in};
ghost use Rattle.tile_core.specs.Views.{done_at, tile_at};
ghost use Rattle.tile_core.specs.declared.worker.Stage.TheVariants.{Working};

use atomic_table::{Play, Seat};
use tile_core::{Pass, View, Words, walks_are_dealt};
use tile_events::events_are_allowed;

/// What an add tells its seat.
pub struct Adding;

impl Play<(), View> for Adding {
    ghost use Rattle.array_words.specs.Stores.{Adds};

    ghost then = { Adds };
}

/// Adds the value of the next instance of the seat's worker to its cell, whatever that holds; the worker then stands
/// behind that instance. It takes no memory and waits for nobody.
#[inline]
pub fn add_at(words: &Words, seat: &mut Seat<(), View>, cell: usize, value: u64)
    requires seat { IsSeat words.now seat.old.me.0.stage seat.old.me.0.reads seat.old }
    requires next { IsNextAdd (walk_in words.now) seat.old.me.0.stage seat.old.me.0.reads cell value }
    ensures seat { IsSeat words.now (Working (tile_at seat.old.me.0.stage) (suc (done_at seat.old.me.0.stage))) []
        seat.new }
    ensures event { AddsAt words.now seat.old cell value seat.new }
{
    walks_are_dealt();
    events_are_allowed::<View, Adding>();
    words
        .table
        .shared
        .fetch_add::<Adding>(seat, cell + 2, value);
}

/// Adds the value of the pass's next instance to its cell, and goes on to the one behind it. It takes no memory and waits
/// for nobody.
#[inline]
pub fn add(words: &Words, pass: &mut Pass, cell: usize, value: u64)
    requires pass { IsPass words.now pass.old }
    requires next { IsNextAdd (walk_in words.now) pass.old.worker.stage pass.old.worker.reads.items cell value }
    ensures pass { IsPass words.now pass.new }
    ensures stage { pass.new.worker.stage
        ≡ Working (tile_at pass.old.worker.stage) (suc (done_at pass.old.worker.stage)) }
    ensures reads { pass.new.worker.reads.items ≡ [] }
    ensures event { DoesAdd words.now pass.old cell value pass.new }
{
    add_at(words, &mut pass.seat, cell, value);
    pass.worker.advance(&words.plan);
}
