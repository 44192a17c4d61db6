//! Callers of the laws of events, seats, scans and walks.
ghost use Rattle.std.specs.Prelude.{◌≡◌, ◌∷◌, ◌<◌, ◌+◌, ◌-◌, ◌%◌, ◌^◌, ℕ, [], Bool, List, Some, if◌then◌else◌, false};
ghost use Rattle.std.specs.Prelude.{length, map, nat_eq, slice_get, slice_index, slice_index_or, suc};
ghost use lib.ListN.{get_elem?};
ghost use mathlib.Core.Option.{none, some};
ghost use Rattle.atomic_table.specs.Table as table;
ghost use Rattle.atomic_table.specs.Table.{Allows, Joins, Me, Splits, State};
ghost use Rattle.scop_syntax.specs.Cells.{Cell, Conflict, cell_of};
ghost use Rattle.scop_syntax.specs.Covers.{Cover};
ghost use Rattle.scop_syntax.specs.Execution.{AreInside, IsCell, IsShaped, cell_number, held, performed_all};
ghost use Rattle.scop_syntax.specs.Walk.{Visit};
ghost use Rattle.tile_events.specs.Allowed.{IsBehind};
ghost use Rattle.tile_events.specs.Core.{Event, Worker, ended, holding, idle, replay, step, working};
ghost use Rattle.tile_events.specs.Covers.{Covers};
ghost use Rattle.tile_events.specs.Deal.{dealt};
ghost use Rattle.tile_events.specs.Example.{counted, first, some_run, two};
ghost use Rattle.scop_syntax.specs.Reductions.{AreMarked, is_marked, loads};
ghost use Rattle.tile_events.specs.Flat.{IsWalk, flat};
ghost use Rattle.tile_events.specs.Plan.{GoodPlan, IsDealt, Plan, Touch, before, values_read, waves};
ghost use Rattle.tile_events.specs.Rule.{AreCounted, Held, missed, ticked, unmoved};
ghost use Rattle.tile_events.specs.Sound.{Sound};
ghost use Rattle.tile_events.specs.declared.clock.Clock.{Clock};

use atomic_table::Play;
use tile_events::{
    all_interleavings_agree, clocks_tell, covers_are_those_of_the_walk, events_are_allowed,
    events_keep_count, plans_by_waves_are_good, plans_execute_the_walk, scans_are_dealt,
    seats_are_allowed, two_workers_run,
};

/// Whatever two workers do from the start on, the state is sound, by `start` and `replay` of `all_interleavings_agree`.
pub fn states_after_events_of_two_workers()
    ensures { (es : List (ℕ × Event)) → Sound two (replay two first es) }
{
    all_interleavings_agree();
}

/// At the end of a run of two workers the second cell holds 6, by the clause of `two_workers_run`.
pub fn run_over_two_tiles()
    ensures { slice_index_or (replay two first some_run).cells 1 0 ≡ 6 }
{
    two_workers_run();
}

/// In any good plan by waves of which places 0 and 2 touch and lie in one wave, they stand in one tile in turn, by
/// `ordered` of `plans_by_waves_are_good`; the plan of two tiles is good, by `good`.
pub fn plans_by_waves()
    ensures ordered { (p : Plan) → p.gate ≡ waves → GoodPlan p → 2 < p.places → Touch p 0 2
        → p.wave (p.tile 0) ≡ p.wave (p.tile 2)
        → (p.tile 0 ≡ p.tile 2) × (p.position 0 < p.position 2) }
    ensures good { GoodPlan two }
{
    plans_by_waves_are_good();
}

/// An event leaves two workers, by `workers` of `events_keep_count`, and its claim is counted, by `claims`.
pub fn counts_after_an_event()
    ensures workers { (e : Event) → length (step two first 1 e).0.workers ≡ 2 }
    ensures claims { (e : Event) → AreCounted two (step two first 0 e).0 }
{
    events_keep_count();
}

/// Two places that are scanned in turned order, each a tile and a wave, are dealt, by the clause of `scans_are_dealt`.
pub fn two_places_in_turned_order()
    ensures { (adds : ℕ → Bool) (value : ℕ → List ℕ → ℕ) (initial : ℕ → ℕ) → IsDealt (dealt
        (record { places = 2; tiles = 2; rank = λ j. 1 - j; at = λ r. 1 - r; start = λ t. t; wave = λ t. t })
        2 adds (λ j. j) (λ j. []) value initial) }
{
    scans_are_dealt();
}

/// Over an array of four cells the first place of a walk loads from the first contents, by `reads` of
/// `plans_execute_the_walk`, the cells at the end are those of execution, by `end`, the row holds them, by `row`, and
/// where the first two places touch they are in conflict on an array that is not marked, by `conflicts`.
pub fn walks_over_four_cells()
    ensures reads { (contents : List (List ℕ)) (marked : List ℕ) (visits : List Visit) (p : Plan) (v : Visit)
        → IsWalk ((4 ∷ []) ∷ []) contents marked visits p → AreMarked marked visits
        → IsShaped ((4 ∷ []) ∷ []) contents → AreInside ((4 ∷ []) ∷ []) visits → slice_get visits 0 ≡ Some v
        → values_read p 0
        ≡ map (λ access. held ((4 ∷ []) ∷ []) contents (cell_of access v.point)) (loads marked v.body) }
    ensures end { (contents : List (List ℕ)) (marked : List ℕ) (visits : List Visit) (p : Plan)
        → IsWalk ((4 ∷ []) ∷ []) contents marked visits p → AreMarked marked visits
        → IsShaped ((4 ∷ []) ∷ []) contents → AreInside ((4 ∷ []) ∷ []) visits
        → (c : Cell) → IsCell ((4 ∷ []) ∷ []) c
        → before p (length visits) (cell_number ((4 ∷ []) ∷ []) c)
        ≡ held ((4 ∷ []) ∷ []) (performed_all ((4 ∷ []) ∷ []) contents visits) c }
    ensures row { (contents : List (List ℕ)) (c : Cell) → IsShaped ((4 ∷ []) ∷ []) contents → IsCell ((4 ∷ []) ∷ []) c
        → slice_index_or (flat contents) (cell_number ((4 ∷ []) ∷ []) c) 0 ≡ held ((4 ∷ []) ∷ []) contents c }
    ensures conflicts { (contents : List (List ℕ)) (marked : List ℕ) (visits : List Visit) (p : Plan)
        → IsWalk ((4 ∷ []) ∷ []) contents marked visits p → AreMarked marked visits
        → AreInside ((4 ∷ []) ∷ []) visits → (v w : Visit) → slice_get visits 0 ≡ Some v
        → slice_get visits 1 ≡ Some w → Touch p 0 1
        → (a : ℕ) × (b : ℕ) × (c : Conflict v a w b) × (is_marked marked c.first.array ≡ false) }
{
    plans_execute_the_walk();
}

/// There the first place covers the second where its visit covers the other's, by the clause of
/// `covers_are_those_of_the_walk`.
pub fn covers_over_four_cells()
    ensures { (contents : List (List ℕ)) (visits : List Visit) (p : Plan)
        → IsWalk ((4 ∷ []) ∷ []) contents [] visits p → AreInside ((4 ∷ []) ∷ []) visits
        → p.places ≡ length visits
        → (Covers p 0 1 → Cover visits 0 1) × (Cover visits 0 1 → Covers p 0 1) }
{
    covers_are_those_of_the_walk();
}

/// A seat that stands for one of two workers may claim one of two tiles, open the second, load 5 and store 6 there, and
/// finish it; where the last of three tiles has a counter, it may open that tile by it, and release it from the first;
/// where each step may tell so, by the clauses of `events_are_allowed`.
pub fn steps_of_one_worker<V, M: Play<(), V>>()
    ensures claim { (worker : V → Worker) (clock : V → Clock) (me : Me (Unit {0}) V) (won lost : ℕ → ℕ → V)
        → worker me.0 ≡ idle
        → ((stamp t : ℕ)
        → IsBehind worker (λ v. 1) clock me.0 (won stamp t) (holding t) (ticked (clock me.0) stamp 0 (suc t)))
        → ((stamp t : ℕ)
        → IsBehind worker (λ v. 1) clock me.0 (lost stamp t) ended (missed (clock me.0) stamp 0 (suc t)))
        → ((n : ℕ) (v : V) → M.then (table.step 0 0 1 0 none) me n (v, me.1))
        → Allows (Held two 2 worker (λ v. 1) clock) 0 0 me 0 (λ n. (n + 1) % 2 ^ 64)
        (M.then (table.step 0 0 1 0 none) me) }
    ensures open { (worker : V → Worker) (clock : V → Clock) (me : Me (Unit {0}) V) (opened waits : ℕ → ℕ → V)
        → worker me.0 ≡ holding 1
        → ((stamp n : ℕ)
        → IsBehind worker (λ v. 1) clock me.0 (opened stamp n) (working 1 0 []) (ticked (clock me.0) stamp 1 n))
        → ((stamp n : ℕ)
        → IsBehind worker (λ v. 1) clock me.0 (waits stamp n) (holding 1) (ticked (clock me.0) stamp 1 n))
        → ((n : ℕ) (v : V) → M.then (table.step 0 1 0 0 none) me n (v, me.1))
        → Allows (Held two 2 worker (λ v. 1) clock) 0 0 me 1 (λ n. n) (M.then (table.step 0 1 0 0 none) me) }
    ensures open_by_counter { (worker : V → Worker) (clock : V → Clock) (me : Me (Unit {0}) V)
        (opened waits : ℕ → ℕ → V) → worker me.0 ≡ holding 2
        → ((stamp n : ℕ)
        → IsBehind worker (λ v. 1) clock me.0 (opened stamp n) (working 2 0 []) (ticked (clock me.0) stamp 7 n))
        → ((stamp n : ℕ)
        → IsBehind worker (λ v. 1) clock me.0 (waits stamp n) (holding 2) (ticked (clock me.0) stamp 7 n))
        → ((n : ℕ) (v : V) → M.then (table.step 0 7 0 0 none) me n (v, me.1))
        → Allows (Held counted 2 worker (λ v. 1) clock) 0 0 me 7 (λ n. n) (M.then (table.step 0 7 0 0 none) me) }
    ensures load { (worker : V → Worker) (clock : V → Clock) (me : Me (Unit {0}) V) (next : ℕ → ℕ → V)
        → worker me.0 ≡ working 1 0 []
        → ((stamp x : ℕ)
        → IsBehind worker (λ v. 1) clock me.0 (next stamp x) (working 1 0 (x ∷ [])) (ticked (clock me.0) stamp 2 x))
        → ((stamp : ℕ) → M.then (table.step 0 2 0 0 none) me 5 (next stamp 5, me.1))
        → Allows (Held two 2 worker (λ v. 1) clock) 0 0 me 2 (λ n. n) (M.then (table.step 0 2 0 0 none) me) }
    ensures store { (worker : V → Worker) (clock : V → Clock) (me : Me (Unit {0}) V) (next : ℕ → V)
        → worker me.0 ≡ working 1 0 (5 ∷ [])
        → ((stamp : ℕ)
        → IsBehind worker (λ v. 1) clock me.0 (next stamp) (working 1 1 []) (ticked (clock me.0) stamp 3 6))
        → ((stamp : ℕ) → M.then (table.step 0 3 6 0 none) me 6 (next stamp, me.1))
        → Allows (Held two 2 worker (λ v. 1) clock) 0 0 me 3 (λ n. 6) (λ n. M.then (table.step 0 3 6 0 none) me 6) }
    ensures add { (worker : V → Worker) (clock : V → Clock) (me : Me (Unit {0}) V) (next : ℕ → ℕ → V)
        → worker me.0 ≡ working 0 1 []
        → ((stamp n : ℕ) → IsBehind worker (λ v. 1) clock me.0 (next stamp n) (working 0 2 [])
        (ticked (clock me.0) stamp 7 ((n + 1) % 2 ^ 64)))
        → ((stamp n : ℕ) → M.then (table.step 0 7 1 0 none) me n (next stamp n, me.1))
        → Allows (Held counted 2 worker (λ v. 1) clock) 0 0 me 7 (λ n. (n + 1) % 2 ^ 64)
        (M.then (table.step 0 7 1 0 none) me) }
    ensures finish { (worker : V → Worker) (clock : V → Clock) (me : Me (Unit {0}) V) (next : ℕ → ℕ → V)
        → worker me.0 ≡ working 1 1 []
        → ((stamp n : ℕ)
        → IsBehind worker (λ v. 1) clock me.0 (next stamp n) idle (ticked (clock me.0) stamp 1 (suc n)))
        → ((stamp n : ℕ) → M.then (table.step 0 1 1 0 none) me n (next stamp n, me.1))
        → Allows (Held two 2 worker (λ v. 1) clock) 0 0 me 1 (λ n. (n + 1) % 2 ^ 64)
        (M.then (table.step 0 1 1 0 none) me) }
{
    events_are_allowed::<V, M>();
}

/// Where one seat alone goes on by one step, what its clock says that this left in word 1 is there, by `steps` of
/// `clocks_tell`; where it was a claim that found no tile of two, the count of claims goes on from 2 to 3, by `misses`;
/// where it has made no step, the first cell is 0, by `opening`.
pub fn clocks_of_one_seat<V>()
    ensures steps { (worker : V → Worker) (clock : V → Clock) (s t : State (Unit {0}) V) (v w : V)
        → Held two 2 worker (λ v. 1) clock s → Held two 2 worker (λ v. 1) clock t → s.views ≡ v ∷ []
        → t.views ≡ w ∷ [] → clock w ≡ ticked (clock v) 9 1 2 → slice_index t.words 1 ≡ 2 }
    ensures misses { (worker : V → Worker) (clock : V → Clock) (s t : State (Unit {0}) V) (v w : V)
        → Held two 2 worker (λ v. 1) clock s → Held two 2 worker (λ v. 1) clock t → s.views ≡ v ∷ []
        → t.views ≡ w ∷ [] → (clock w).misses ≡ suc (clock v).misses → slice_index s.words 0 ≡ 2
        → slice_index t.words 0 ≡ 3 }
    ensures opening { (worker : V → Worker) (clock : V → Clock) (s : State (Unit {0}) V)
        → Held two 2 worker (λ v. 1) clock s
        → ((i : ℕ) (v : V) → get_elem? s.views i ≡ some v → (clock v).steps ≡ 0) → slice_index s.words 2 ≡ 0 }
{
    clocks_tell::<V>();
}

/// Where a seat is the number of workers for whom it stands, an idle seat of three is split into one of one and one of
/// two, by `split` of `seats_are_allowed`; two that have ended become one of three and one of nobody, by `join`; where
/// a seat of all three has ended, the second cell of two tiles holds 6, by `end`.
pub fn seats_of_three_workers()
    ensures split { Splits (Held two 3 (λ v. idle) (λ v. v) (λ v. unmoved)) 0 3 1 2 }
    ensures join { Joins (Held two 3 (λ v. if nat_eq v 0 then idle else ended) (λ v. v) (λ v. unmoved)) 0 1 1 2 3 0 }
    ensures end { (s : State (Unit {0}) ℕ) → Held two 3 (λ v. ended) (λ v. v) (λ v. unmoved) s → s.views ≡ 3 ∷ []
        → slice_index s.words 3 ≡ 6 }
{
    seats_are_allowed::<u64>();
}
