//! Laws of plans whose tiles are opened by counters, as contracts of functions that do nothing.
ghost use Rattle.std.specs.Prelude.{◌≡◌, ◌⊎◌, ℕ, ◌<◌, ◌≤◌, Bool, List, false, take};
ghost use Rattle.tile_events.specs.Core.{State, needed_by, open_tile, replay, seen_by, short, step};
ghost use Rattle.tile_events.specs.Covers.{ArePairsOf, Covered};
ghost use Rattle.tile_events.specs.Deal.{tile_at};
ghost use Rattle.tile_events.specs.Example.{counted, counted_first, counted_last, counted_run};
ghost use Rattle.tile_events.specs.Plan.{GoodPlan, IsDealt, Plan, Touch, before, values_read, waves, words_of};
ghost use Rattle.tile_events.specs.Releases.{AreCovered, AreEdges, Edges, IsDone, Leads, Released, released};
ghost use Rattle.tile_events.specs.Sound.{IsBegun, IsFinished, Sound};

/// No two pairs are the same. A plan with releases deals each place once, is good where chains of pairs join all that
/// touch, and executes what the plan without them does; whichever places are done, the cells of that plan hold what
/// they hold without releases.
pub fn pairs_make_plans()
    ensures once { (n : ℕ) (e : Edges) → AreEdges n e → (i j : ℕ) → i < e.count → j < e.count
        → tile_at e.start n i ≡ tile_at e.start n j → e.target i ≡ e.target j → i ≡ j }
    ensures dealt { (p : Plan) (e : Edges) → IsDealt p → AreEdges p.tiles e → IsDealt (released p e) }
    ensures good { (p : Plan) (e : Edges) → IsDealt p → AreEdges p.tiles e → AreCovered p e
        → GoodPlan (released p e) }
    ensures reads { (p : Plan) (e : Edges) → IsDealt p → AreEdges p.tiles e → (k : ℕ) → k < p.places
        → values_read (released p e) k ≡ values_read p k }
    ensures end { (p : Plan) (e : Edges) → IsDealt p → AreEdges p.tiles e → (c : ℕ) → c < p.cells
        → before (released p e) (released p e).places c ≡ before p p.places c }
    ensures words { (p : Plan) (e : Edges) → IsDealt p → AreEdges p.tiles e → (done : ℕ → Bool) (c : ℕ) → c < p.cells
        → words_of (released p e) done (released p e).places c ≡ words_of p done p.places c }
{}

/// Chains of covers join all that touch, so the pairs of tiles that hold such places are enough, and each leads to a
/// later wave.
pub fn covers_join_what_touches()
    ensures closed { (p : Plan) (i j : ℕ) → i < j → j < p.places → Touch p i j → (ks : List ℕ) × Covered p ks i j }
    ensures covered { (p : Plan) (e : Edges) → ((c : ℕ) → p.adds c ≡ false) → p.gate ≡ waves → GoodPlan p
        → ArePairsOf p e → AreCovered p e }
    ensures rise { (p : Plan) (e : Edges) → ((c : ℕ) → p.adds c ≡ false) → p.gate ≡ waves → GoodPlan p
        → ArePairsOf p e → (t u : ℕ) → Leads p e t u → p.wave t < p.wave u }
{}

/// At a sound state counters tell how many pairs to their tiles are released, a tile releases another only once all its
/// instances are done, and an opened tile was released by all that lead to it; so every other tile that holds an
/// earlier place which touches one of its own has all instances done. Where all that lead to a tile are finished, it
/// can be opened.
pub fn opened_tiles_have_waited()
    ensures released { (p : Plan) (e : Edges) (s : State) → IsDealt p → AreEdges p.tiles e
        → e.count < 18446744073709551616 → Sound (released p e) s → Released p e s }
    ensures conflicts { (p : Plan) (e : Edges) (s : State) (i j : ℕ) → IsDealt p → AreEdges p.tiles e
        → AreCovered p e → Sound (released p e) s → i < j → j < p.places → Touch p i j → IsBegun s (p.tile j)
        → (p.tile i ≡ p.tile j) ⊎ IsDone p e s (p.tile i) }
    ensures filled { (p : Plan) (e : Edges) (s : State) (u : ℕ) → IsDealt p → AreEdges p.tiles e
        → e.count < 18446744073709551616 → Sound (released p e) s → u < p.tiles
        → ((t : ℕ) → Leads p e t u → IsFinished s t)
        → needed_by (released p e).gate (released p e) u ≤ seen_by (released p e).gate s u }
{}

/// A run of two workers over three tiles, of which the last waits for the other two: before the second has released it,
/// its counter falls short.
pub fn two_workers_release()
    ensures short { (step counted (replay counted counted_first (take 11 counted_run)) 1 open_tile).1 ≡ short 1 2 }
    ensures end { replay counted counted_first counted_run ≡ counted_last }
{}
