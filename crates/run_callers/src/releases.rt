//! Callers of the laws of releases, covers, sums and copies, over the small plans of `tile_events`' examples.
ghost use Rattle.std.specs.Prelude.{◌≡◌, ◌<◌, ◌≤◌, ◌≢◌, ◌∷◌, ℕ, [], Bool, List, false, if◌then◌else◌};
ghost use Rattle.std.specs.Prelude.{slice_index_or, take, true};
ghost use Rattle.tile_events.specs.Copies.{expanded};
ghost use Rattle.tile_events.specs.Core.{Event, State, add, added, not_enabled, open_tile, release, replay, short};
ghost use Rattle.tile_events.specs.Core.{step, store};
ghost use Rattle.tile_events.specs.Covers.{ArePairsOf, Covered};
ghost use Rattle.tile_events.specs.Deal.{tile_at};
ghost use Rattle.tile_events.specs.Example.{adding, adding_first, adding_run, both_to_last, counted, counted_first};
ghost use Rattle.tile_events.specs.Example.{counted_run, sources_of_two, three, two};
ghost use Rattle.tile_events.specs.Plan.{GoodPlan, IsDealt, Plan, Touch, before, values_read, waves, words_of};
ghost use Rattle.tile_events.specs.Releases.{AreCovered, AreEdges, Edges, Leads};
ghost use Rattle.tile_events.specs.Sound.{IsBegun, IsFinished, Sound, is_done};

use tile_events::{
    all_interleavings_agree, cells_hold_their_sums, copies_keep_what_is_read,
    covers_join_what_touches, opened_tiles_have_waited, pairs_make_plans, two_workers_add,
    two_workers_release,
};

/// Of pairs of three tiles the first and the third are not the same, by `once` of `pairs_make_plans`.
pub fn pairs_of_three_tiles()
    ensures { (e : Edges) → AreEdges 3 e → 2 < e.count → tile_at e.start 3 0 ≡ tile_at e.start 3 2
        → e.target 0 ≢ e.target 2 }
{
    pairs_make_plans();
}

/// The plan of three tiles, of which the last waits for both others, is dealt with its releases, by `dealt` of
/// `pairs_make_plans`, and good, by `good`; its last place reads 5 and 6, by `reads`, and cell 2 ends as 11, by `end`;
/// whichever places are done, it holds what it holds without releases, by `words`.
pub fn plan_of_three_tiles()
    ensures dealt { IsDealt counted }
    ensures good { GoodPlan counted }
    ensures reads { values_read counted 2 ≡ 5 ∷ 6 ∷ [] }
    ensures end { before counted counted.places 2 ≡ 11 }
    ensures words { (done : ℕ → Bool) → words_of counted done counted.places 2 ≡ words_of three done 3 2 }
{
    pairs_make_plans();
}

/// Places 0 and 2 of any plan that touch are joined by covers, by `closed` of `covers_join_what_touches`; the pairs of
/// those three tiles join what touches there, by `covered`; a pair leads from a tile to one of a later wave, by `rise`.
pub fn covers_of_three_tiles()
    ensures closed { (p : Plan) → 2 < p.places → Touch p 0 2 → (ks : List ℕ) × Covered p ks 0 2 }
    ensures covered { AreCovered three both_to_last }
    ensures rise { (p : Plan) → ((c : ℕ) → p.adds c ≡ false) → p.gate ≡ waves → GoodPlan p
        → ArePairsOf p both_to_last → Leads p both_to_last 0 2 → p.wave 0 < p.wave 2 }
{
    covers_join_what_touches();
}

/// Where the last of three tiles is opened or finished, the second has its instance done and has released it, and its
/// counter holds 2; who has released it has done its instance; by `released` of `opened_tiles_have_waited`. Then the
/// first tile is done too, whose place the last one's touches, by `conflicts`; and where both others are finished the
/// counter holds enough, by `filled`.
pub fn last_of_three_tiles()
    ensures opened { (s : State) → Sound counted s → IsBegun s 2
        → (is_done counted s 1 ≡ true) × (is_done counted s 4 ≡ true) }
    ensures counts { (s : State) → Sound counted s → IsBegun s 2 → slice_index_or s.cells 5 0 ≡ 2 }
    ensures releases { (s : State) → Sound counted s → is_done counted s 3 ≡ true → is_done counted s 0 ≡ true }
    ensures conflicts { (s : State) → Sound counted s → IsBegun s 2 → is_done counted s 0 ≡ true }
    ensures filled { (s : State) → Sound counted s → IsFinished s 0 → IsFinished s 1
        → 2 ≤ slice_index_or s.cells 5 0 }
{
    opened_tiles_have_waited();
}

/// Whatever two workers do there from the start on, the state is sound, and there is one at which the last tile is
/// opened and the others are finished, by `start` and `replay` of `all_interleavings_agree`.
pub fn states_over_three_tiles()
    ensures sound { (es : List (ℕ × Event)) → Sound counted (replay counted counted_first es) }
    ensures begun { (s : State) × Sound counted s × IsBegun s 2 × IsFinished s 0 × IsFinished s 1 }
{
    all_interleavings_agree();
    pairs_make_plans();
}

/// The last tile is not opened where one other has released it, by `short` of `two_workers_release`, and at the end of
/// that run cell 2 holds 11, by `end`.
pub fn run_over_three_tiles()
    ensures short { (step counted (replay counted counted_first (take 11 counted_run)) 1 open_tile).1 ≡ short 1 2 }
    ensures end { slice_index_or (replay counted counted_first counted_run).cells 2 0 ≡ 11 }
{
    two_workers_release();
}

/// Where three tiles add to one cell, a store and a release are refused there and an add is told, by `store`, `release`
/// and `add` of `two_workers_add`, and the cell ends as 6, by `end`.
pub fn run_of_three_adds()
    ensures store { (step adding (replay adding adding_first (take 2 adding_run)) 0 store).1 ≡ not_enabled }
    ensures release { (step adding (replay adding adding_first (take 2 adding_run)) 0 release).1 ≡ not_enabled }
    ensures add { (step adding (replay adding adding_first (take 2 adding_run)) 0 add).1 ≡ added }
    ensures end { slice_index_or (replay adding adding_first adding_run).cells 0 0 ≡ 6 }
{
    two_workers_add();
}

/// Whatever two workers do there from the start on, the state is sound, and there is one at which all places are done,
/// by `start` and `replay` of `all_interleavings_agree`.
pub fn states_of_three_adds()
    ensures sound { (es : List (ℕ × Event)) → Sound adding (replay adding adding_first es) }
    ensures done { (s : State) × Sound adding s × (is_done adding s 0 ≡ true) × (is_done adding s 1 ≡ true)
        × (is_done adding s 2 ≡ true) }
{
    all_interleavings_agree();
}

/// Where three places have added 1, 2 and 3 to a cell it holds 6, by the clause of `cells_hold_their_sums`.
pub fn sum_of_three_places()
    ensures { (s : State) → Sound adding s → is_done adding s 0 ≡ true → is_done adding s 1 ≡ true
        → is_done adding s 2 ≡ true → slice_index_or s.cells 0 0 ≡ 6 }
{
    cells_hold_their_sums();
}

/// The second of two places reads 5 from the first one's copy, by `reads` of `copies_keep_what_is_read`; the plan with
/// copies is dealt and good, by `dealt` and `good`; the second copy holds 6 once its place is done, by `copies`, and a
/// cell what it held at first, by `cells`.
pub fn copies_of_two_places()
    ensures reads { values_read (expanded two sources_of_two) 1 ≡ 5 ∷ [] }
    ensures dealt { IsDealt (expanded two sources_of_two) }
    ensures good { GoodPlan (expanded two sources_of_two) }
    ensures copies { (done : ℕ → Bool) → words_of (expanded two sources_of_two) done 2 3 ≡ (if done 1 then 6 else 0) }
    ensures cells { (done : ℕ → Bool) → words_of (expanded two sources_of_two) done 2 0 ≡ 0 }
{
    copies_keep_what_is_read();
}
