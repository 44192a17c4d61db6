//! Laws of cells that are only added to, as contracts of functions that do nothing.
ghost use Rattle.std.specs.Prelude.{◌≡◌, ℕ, ◌+◌, ◌<◌, ◌%◌, ◌^◌, slice_index_or, take, true};
ghost use Rattle.tile_events.specs.Core.{State, add, added, not_enabled, release, replay, step, store};
ghost use Rattle.tile_events.specs.Example.{adding, adding_first, adding_last, adding_run};
ghost use Rattle.tile_events.specs.Plan.{Plan};
ghost use Rattle.tile_events.specs.Sound.{Sound, is_done};
ghost use Rattle.tile_events.specs.Sums.{sum_of};

/// At a sound state such a cell holds what it held at first and the addends of the places that are done, each once,
/// modulo 2^64.
pub fn cells_hold_their_sums()
    ensures { (p : Plan) (s : State) (c : ℕ) → Sound p s → c < p.cells → p.adds c ≡ true
        → p.initial c < 18446744073709551616
        → slice_index_or s.cells c 0 ≡ (p.initial c + sum_of p (is_done p s) p.places c) % 2 ^ 64 }
{}

/// A run of two workers over three tiles that add to one cell and have no counters: neither a store nor a release is an
/// event there, and an add is.
pub fn two_workers_add()
    ensures store { (step adding (replay adding adding_first (take 2 adding_run)) 0 store).1 ≡ not_enabled }
    ensures release { (step adding (replay adding adding_first (take 2 adding_run)) 0 release).1 ≡ not_enabled }
    ensures add { (step adding (replay adding adding_first (take 2 adding_run)) 0 add).1 ≡ added }
    ensures end { replay adding adding_first adding_run ≡ adding_last }
{}
