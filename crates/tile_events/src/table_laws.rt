//! Laws of the rule of an atomic table, as contracts of functions that do nothing: which steps it allows a seat, and
//! what the words are at the end.
ghost use Rattle.tile_events.specs.Allowed.{AddIsAllowed, ClaimIsAllowed, EndIsExecuted, FinishIsAllowed};
ghost use Rattle.tile_events.specs.Allowed.{JoinIsAllowed, LoadIsAllowed, MissesCount, OpenIsAllowed, OpeningIsSeen};
ghost use Rattle.tile_events.specs.Allowed.{SplitIsAllowed, StepsAreSeen, StoreIsAllowed};

use atomic_table::Play;

/// Each event is one step on the words, for any view and whatever the step tells.
pub fn events_are_allowed<V, M: Play<(), V>>()
    ensures claim { ClaimIsAllowed M.then }
    ensures open { OpenIsAllowed M.then }
    ensures load { LoadIsAllowed M.then }
    ensures store { StoreIsAllowed M.then }
    ensures add { AddIsAllowed M.then }
    ensures finish { FinishIsAllowed M.then }
{}

/// Seats that hold no tile come and go, and one that stands for all workers and has ended sees the cells of execution.
pub fn seats_are_allowed<V>()
    ensures split { SplitIsAllowed V }
    ensures join { JoinIsAllowed V }
    ensures end { EndIsExecuted V }
{}

/// What clocks tell: what the last step of a seat left in its word, that a claim which finds no tile counts, and that
/// where no step was made the words are those of the opening state.
pub fn clocks_tell<V>()
    ensures steps { StepsAreSeen V }
    ensures misses { MissesCount V }
    ensures opening { OpeningIsSeen V }
{}
