//! Laws that tie a plan to the walk of a program, as contracts of functions that call the law which their proofs use.
ghost use Rattle.std.specs.Prelude.{◌≡◌, ℕ, ◌≤◌, Bool, List, [], length, map, slice_get, slice_index_or, Some, false};
ghost use Rattle.scop_syntax.specs.Walk.{Visit};
ghost use Rattle.scop_syntax.specs.Cells.{Cell, Conflict, cell_of};
ghost use Rattle.scop_syntax.specs.Covers.{Cover};
ghost use Rattle.scop_syntax.specs.Execution.{AreInside, IsCell, IsShaped, before_place, cell_number, held};
ghost use Rattle.scop_syntax.specs.Execution.{performed_all, value_stored_by};
ghost use Rattle.tile_events.specs.Covers.{Covers};
ghost use Rattle.tile_events.specs.DonePlaces.{HasNoWriter, IsLastWriter};
ghost use Rattle.scop_syntax.specs.Reductions.{AreMarked, is_marked, loads};
ghost use Rattle.tile_events.specs.Flat.{IsWalk, flat};
ghost use Rattle.tile_events.specs.Plan.{Plan, Touch, before, values_read, words_of};

use scop_syntax::cells_have_numbers_of_their_own;

/// The values that a place loads and the cells at the end are those of the walk's execution, the row of the arrays
/// holds what they hold, and places that touch are in conflict, on an array that is not marked.
pub fn plans_execute_the_walk()
    ensures reads { (extents contents : List (List ℕ)) (marked : List ℕ) (visits : List Visit) (p : Plan)
        → IsWalk extents contents marked visits p → AreMarked marked visits → IsShaped extents contents
        → AreInside extents visits → (k : ℕ) (v : Visit) → slice_get visits k ≡ Some v → k ≤ length visits
        → values_read p k ≡ map (λ access. held extents (before_place extents contents visits k)
        (cell_of access v.point)) (loads marked v.body) }
    ensures end { (extents contents : List (List ℕ)) (marked : List ℕ) (visits : List Visit) (p : Plan)
        → IsWalk extents contents marked visits p → AreMarked marked visits → IsShaped extents contents
        → AreInside extents visits → (c : Cell) → IsCell extents c
        → before p (length visits) (cell_number extents c) ≡ held extents (performed_all extents contents visits) c }
    ensures row { (extents contents : List (List ℕ)) (c : Cell) → IsShaped extents contents → IsCell extents c
        → slice_index_or (flat contents) (cell_number extents c) 0 ≡ held extents contents c }
    ensures conflicts { (extents contents : List (List ℕ)) (marked : List ℕ) (visits : List Visit) (p : Plan)
        → IsWalk extents contents marked visits p → AreMarked marked visits → AreInside extents visits
        → (i j : ℕ) (v w : Visit) → slice_get visits i ≡ Some v → slice_get visits j ≡ Some w → Touch p i j
        → (a : ℕ) × (b : ℕ) × (c : Conflict v a w b) × (is_marked marked c.first.array ≡ false) }
{
    cells_have_numbers_of_their_own();
}

/// Where some places are done, a cell of an array that is not marked holds what the last of them that writes it stores in
/// the walk's own execution, and any cell what it held at first where none does.
pub fn cells_hold_what_is_done()
    ensures last { (extents contents : List (List ℕ)) (marked : List ℕ) (visits : List Visit) (p : Plan)
        (done : ℕ → Bool) → IsWalk extents contents marked visits p → AreMarked marked visits
        → IsShaped extents contents → AreInside extents visits → (c : Cell) (i : ℕ) (v : Visit) → IsCell extents c
        → is_marked marked c.array ≡ false → IsLastWriter visits done c i v
        → words_of p done (length visits) (cell_number extents c)
        ≡ value_stored_by extents (before_place extents contents visits i) v.body v.point }
    ensures first { (extents contents : List (List ℕ)) (marked : List ℕ) (visits : List Visit) (p : Plan)
        (done : ℕ → Bool) → IsWalk extents contents marked visits p → AreInside extents visits
        → (c : Cell) → IsCell extents c → HasNoWriter visits done c
        → words_of p done (length visits) (cell_number extents c) ≡ held extents contents c }
{
    cells_have_numbers_of_their_own();
}

/// Where no array is marked, the covers of a walk's plan are those of its visits.
pub fn covers_are_those_of_the_walk()
    ensures { (extents contents : List (List ℕ)) (visits : List Visit) (p : Plan)
        → IsWalk extents contents [] visits p → AreInside extents visits → p.places ≡ length visits → (i j : ℕ)
        → (Covers p i j → Cover visits i j) × (Cover visits i j → Covers p i j) }
{
    cells_have_numbers_of_their_own();
}
