//! Callers of what cells and words hold between any two events of a run: before the first claim, and where the last place
//! of the walk is done.
ghost use Rattle.std.specs.Prelude.{◌≡◌, ℕ, suc, ◌+◌, ◌%◌, ◌^◌, ◌<◌, true, false, List, Some, length, map, slice_get, slice_index};
ghost use Rattle.std.specs.Prelude.{slice_index_or};
ghost use Rattle.atomic_table.specs.Table as table;
ghost use Rattle.scop_syntax.specs.Cells.{Cell, written};
ghost use Rattle.scop_syntax.specs.Execution.{IsCell, IsShaped, before_place, cell_number, held, value_stored_by};
ghost use Rattle.scop_syntax.specs.Reductions.{added_by, is_marked};
ghost use Rattle.scop_syntax.specs.Walk.{Visit};
ghost use Rattle.tile_events.specs.Core.{State};
ghost use Rattle.tile_events.specs.Flat.{flat};
ghost use Rattle.tile_events.specs.Rule.{core};
ghost use Rattle.tile_events.specs.Sound.{Sound, is_done};
ghost use Rattle.tile_core.specs.Marks.{values_loaded_by};
ghost use Rattle.tile_core.specs.Plans.{HoldsContents, IsPlan, extents_in, is_expanded, plain_shape, plan_of, shape_of};
ghost use Rattle.tile_core.specs.Plans.{walk_in};
ghost use Rattle.tile_core.specs.Views.{Ruled, worker_in};
ghost use Rattle.tile_core.specs.declared.plan.Plan.{Plan};
ghost use Rattle.tile_core.specs.declared.view.Key.{Key};
ghost use Rattle.tile_core.specs.declared.view.View.{View};

use tile_core::{cells_are_those_of_the_execution, words_are_those_of_the_execution};

/// Where nothing is claimed a cell holds what it held at first, by `first` of `cells_are_those_of_the_execution`; where
/// the last place is done, the cell that it writes holds what it stores, by `last`, if its array is not marked. Where
/// it is, and a single place is done, that cell holds the addend more, by `sum` and `addend`. With an expansion a cell
/// holds what it held at first, by `kept`, and the copy of the first place, once that is done, what it stores, by
/// `copy`.
pub fn cells_of_the_last_place()
    ensures first { (plan : Plan) (contents : List (List ℕ)) (s : State) (c : Cell) → IsPlan plan
        → is_expanded plan ≡ false → IsShaped (extents_in plan) contents → Sound (plan_of plan (flat contents)) s
        → IsCell (extents_in plan) c → s.claims ≡ 0
        → slice_index_or s.cells (cell_number (extents_in plan) c) 0 ≡ held (extents_in plan) contents c }
    ensures last { (plan : Plan) (contents : List (List ℕ)) (s : State) (c : Cell) (i : ℕ) (v : Visit) → IsPlan plan
        → is_expanded plan ≡ false → IsShaped (extents_in plan) contents → Sound (plan_of plan (flat contents)) s
        → IsCell (extents_in plan) c → is_marked plan.marked.now c.array ≡ false
        → suc i ≡ length (walk_in plan) → slice_get (walk_in plan) i ≡ Some v → written v ≡ c
        → is_done (shape_of plan) s i ≡ true
        → slice_index_or s.cells (cell_number (extents_in plan) c) 0
        ≡ value_stored_by (extents_in plan) (before_place (extents_in plan) contents (walk_in plan) i) v.body v.point }
    ensures sum { (plan : Plan) (contents : List (List ℕ)) (s : State) (c : Cell) (v : Visit) → IsPlan plan
        → IsShaped (extents_in plan) contents → Sound (plan_of plan (flat contents)) s → IsCell (extents_in plan) c
        → is_marked plan.marked.now c.array ≡ true → held (extents_in plan) contents c < 18446744073709551616
        → length (walk_in plan) ≡ 1 → slice_get (walk_in plan) 0 ≡ Some v → written v ≡ c
        → is_done (shape_of plan) s 0 ≡ true
        → slice_index_or s.cells (cell_number (extents_in plan) c) 0
        ≡ (held (extents_in plan) contents c + added_by v.body.right v.point
        (values_loaded_by plan.marked.now (extents_in plan) contents v.body v.point)) % 2 ^ 64 }
    ensures kept { (plan : Plan) (contents : List (List ℕ)) (s : State) (c : Cell) → IsPlan plan
        → is_expanded plan ≡ true → IsShaped (extents_in plan) contents → Sound (plan_of plan (flat contents)) s
        → IsCell (extents_in plan) c
        → slice_index_or s.cells (cell_number (extents_in plan) c) 0 ≡ held (extents_in plan) contents c }
    ensures copy { (plan : Plan) (contents : List (List ℕ)) (s : State) (v : Visit) → IsPlan plan
        → is_expanded plan ≡ true → IsShaped (extents_in plan) contents → Sound (plan_of plan (flat contents)) s
        → slice_get (walk_in plan) 0 ≡ Some v → is_done (shape_of plan) s 0 ≡ true
        → slice_index_or s.cells (plain_shape plan).cells 0
        ≡ value_stored_by (extents_in plan) contents v.body v.point }
{
    cells_are_those_of_the_execution();
}

/// The same of words, by the clauses of `words_are_those_of_the_execution`; a sum of no addends, by `sum`.
pub fn words_of_the_last_place()
    ensures first { (key : Key) (st : table.State (Unit {0}) View) (contents : List (List ℕ)) (c : Cell)
        → Ruled key st → IsPlan key.plan → is_expanded key.plan ≡ false → IsShaped (extents_in key.plan) contents
        → HoldsContents contents key.cells.items → IsCell (extents_in key.plan) c → slice_index st.words 0 ≡ 0
        → slice_index st.words (cell_number (extents_in key.plan) c + 2) ≡ held (extents_in key.plan) contents c }
    ensures last { (key : Key) (st : table.State (Unit {0}) View) (contents : List (List ℕ)) (c : Cell) (i : ℕ) (v : Visit)
        → Ruled key st → IsPlan key.plan → is_expanded key.plan ≡ false → IsShaped (extents_in key.plan) contents
        → HoldsContents contents key.cells.items → IsCell (extents_in key.plan) c
        → is_marked key.plan.marked.now c.array ≡ false
        → suc i ≡ length (walk_in key.plan) → slice_get (walk_in key.plan) i ≡ Some v → written v ≡ c
        → is_done (shape_of key.plan) (core st.words (map worker_in st.views)) i ≡ true
        → slice_index st.words (cell_number (extents_in key.plan) c + 2)
        ≡ value_stored_by (extents_in key.plan) (before_place (extents_in key.plan) contents (walk_in key.plan) i)
        v.body v.point }
    ensures sum { (key : Key) (st : table.State (Unit {0}) View) (contents : List (List ℕ)) (c : Cell)
        → Ruled key st → IsPlan key.plan → IsShaped (extents_in key.plan) contents → HoldsContents contents key.cells.items
        → IsCell (extents_in key.plan) c → is_marked key.plan.marked.now c.array ≡ true
        → held (extents_in key.plan) contents c < 18446744073709551616 → length (walk_in key.plan) ≡ 0
        → slice_index st.words (cell_number (extents_in key.plan) c + 2)
        ≡ (held (extents_in key.plan) contents c + 0) % 2 ^ 64 }
    ensures kept { (key : Key) (st : table.State (Unit {0}) View) (contents : List (List ℕ)) (c : Cell)
        → Ruled key st → IsPlan key.plan → is_expanded key.plan ≡ true → IsShaped (extents_in key.plan) contents
        → HoldsContents contents key.cells.items → IsCell (extents_in key.plan) c
        → slice_index st.words (cell_number (extents_in key.plan) c + 2) ≡ held (extents_in key.plan) contents c }
    ensures copy { (key : Key) (st : table.State (Unit {0}) View) (contents : List (List ℕ)) (v : Visit)
        → Ruled key st → IsPlan key.plan → is_expanded key.plan ≡ true → IsShaped (extents_in key.plan) contents
        → HoldsContents contents key.cells.items → slice_get (walk_in key.plan) 0 ≡ Some v
        → is_done (shape_of key.plan) (core st.words (map worker_in st.views)) 0 ≡ true
        → slice_index st.words ((plain_shape key.plan).cells + 2)
        ≡ value_stored_by (extents_in key.plan) contents v.body v.point }
{
    words_are_those_of_the_execution();
}
