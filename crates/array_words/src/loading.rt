//! The load of a cell: one load of its word.
ghost use Rattle.std.specs.Prelude.{◌≡◌, ◌++◌, ◌∷◌, []};
ghost use Rattle.array_words.specs.Loads.{DoesLoad, IsNextRead, LoadsAt};
ghost use Rattle.array_words.specs.Seats.{IsSeat};
ghost use Rattle.tile_core.specs.Passes.{IsPass, plan_in, walk_in};
ghost use Rattle.tile_core.specs.Views.{executed};

use atomic_table::{Play, Seat};
use tile_core::{Pass, View, Words, instances_read_few, walks_are_dealt};
use tile_events::events_are_allowed;

/// What a load tells its seat.
pub struct Loading;

impl Play<(), View> for Loading {
    ghost use Rattle.array_words.specs.Loads.{Loads};

    ghost then = { Loads };
}

/// The value of the cell that the next instance of the seat's worker reads next: the one that execution reads there. It
/// takes no memory and waits for nobody.
#[inline]
pub fn load_at(words: &Words, seat: &mut Seat<(), View>, cell: usize) -> u64
    requires seat { IsSeat words.now seat.old.me.0.stage seat.old.me.0.reads seat.old }
    requires next { IsNextRead (walk_in words.now) seat.old.me.0.stage seat.old.me.0.reads cell }
    ensures seat { IsSeat words.now seat.old.me.0.stage (seat.old.me.0.reads ++ result ∷ []) seat.new }
    ensures value { result ≡ executed (plan_in words.now) seat.old.me.0.stage seat.old.me.0.reads }
    ensures event { LoadsAt words.now seat.old cell result seat.new }
{
    walks_are_dealt();
    events_are_allowed::<View, Loading>();
    words.table.shared.load::<Loading>(seat, cell + 2)
}

/// The value of the cell that the pass's next instance reads next: the one that execution reads there. It takes no
/// memory and waits for nobody.
#[inline]
pub fn load(words: &Words, pass: &mut Pass, cell: usize) -> u64
    requires pass { IsPass words.now pass.old }
    requires next { IsNextRead (walk_in words.now) pass.old.worker.stage pass.old.worker.reads.items cell }
    ensures pass { IsPass words.now pass.new }
    ensures value { result ≡ executed (plan_in words.now) pass.old.worker.stage pass.old.worker.reads.items }
    ensures stage { pass.new.worker.stage ≡ pass.old.worker.stage }
    ensures reads { pass.new.worker.reads.items ≡ pass.old.worker.reads.items ++ result ∷ [] }
    ensures event { DoesLoad words.now pass.old cell result pass.new }
{
    walks_are_dealt();
    instances_read_few();
    let value = load_at(words, &mut pass.seat, cell);
    pass.worker.read(value);
    value
}
