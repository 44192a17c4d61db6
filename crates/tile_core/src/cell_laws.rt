//! What a cell holds between any two events of a run, in the words of the kernel's own execution.
ghost use Rattle.std.specs.Prelude.{◌≡◌, ℕ, ◌+◌, ◌%◌, ◌^◌, ◌<◌, List, Some, false, length, map, slice_get, true};
ghost use Rattle.std.specs.Prelude.{slice_index, slice_index_or};
ghost use Rattle.atomic_table.specs.Table as table;
ghost use Rattle.scop_syntax.specs.Cells.{Cell};
ghost use Rattle.scop_syntax.specs.Execution.{IsCell, IsShaped, before_place, cell_number, held};
ghost use Rattle.scop_syntax.specs.Execution.{value_stored_at, value_stored_by};
ghost use Rattle.scop_syntax.specs.Reductions.{added_by, is_marked};
ghost use Rattle.scop_syntax.specs.Walk.{Visit};
ghost use Rattle.tile_events.specs.Core.{State};
ghost use Rattle.tile_events.specs.DonePlaces.{HasNoWriter, IsLastWriter};
ghost use Rattle.tile_events.specs.Flat.{flat};
ghost use Rattle.tile_events.specs.Plan.{stored};
ghost use Rattle.tile_events.specs.Rule.{core};
ghost use Rattle.tile_events.specs.Sound.{Sound, is_done};
ghost use Rattle.tile_events.specs.Sums.{sum_of};
ghost use Rattle.tile_core.specs.Marks.{values_loaded_by};
ghost use Rattle.tile_core.specs.Plans.{HoldsContents, IsPlan, extents_in, is_expanded, plain_shape};
ghost use Rattle.tile_core.specs.Plans.{plan_of, shape_of, walk_in, walk_plan};
ghost use Rattle.tile_core.specs.Views.{Ruled, worker_in};
ghost use Rattle.tile_core.specs.declared.plan.Plan.{Plan};
ghost use Rattle.tile_core.specs.declared.view.Key.{Key};
ghost use Rattle.tile_core.specs.declared.view.View.{View};

use crate::plan_laws::walks_are_dealt;
use scop_syntax::cells_have_numbers_of_their_own;
use tile_events::{
    cells_hold_their_sums, cells_hold_what_is_done, copies_keep_what_is_read, pairs_make_plans,
    plans_execute_the_walk,
};

/// In a sound state of a plan over the arrays' contents one behind another, a cell of an array that is not marked holds
/// the value that the last done instance which writes it stores in the kernel's own execution; any cell what it held at
/// first where no done one does; and one of a marked array that, and the addends of the done instances that add to it,
/// each once, modulo 2^64. These addends are made of the values that the kernel's own execution reads. With an expansion
/// cells hold what they held at first, and the copy of each done place what the kernel's own execution stores there.
pub fn cells_are_those_of_the_execution()
    ensures last { (plan : Plan) (contents : List (List ℕ)) (s : State) (c : Cell) (i : ℕ) (v : Visit)
        → IsPlan plan → is_expanded plan ≡ false → IsShaped (extents_in plan) contents
        → Sound (plan_of plan (flat contents)) s → IsCell (extents_in plan) c → is_marked plan.marked.now c.array ≡ false
        → IsLastWriter (walk_in plan) (is_done (shape_of plan) s) c i v
        → slice_index_or s.cells (cell_number (extents_in plan) c) 0
        ≡ value_stored_by (extents_in plan) (before_place (extents_in plan) contents (walk_in plan) i) v.body v.point }
    ensures first { (plan : Plan) (contents : List (List ℕ)) (s : State) (c : Cell)
        → IsPlan plan → is_expanded plan ≡ false → IsShaped (extents_in plan) contents
        → Sound (plan_of plan (flat contents)) s → IsCell (extents_in plan) c
        → HasNoWriter (walk_in plan) (is_done (shape_of plan) s) c
        → slice_index_or s.cells (cell_number (extents_in plan) c) 0 ≡ held (extents_in plan) contents c }
    ensures sum { (plan : Plan) (contents : List (List ℕ)) (s : State) (c : Cell)
        → IsPlan plan → IsShaped (extents_in plan) contents → Sound (plan_of plan (flat contents)) s
        → IsCell (extents_in plan) c → is_marked plan.marked.now c.array ≡ true
        → held (extents_in plan) contents c < 18446744073709551616
        → slice_index_or s.cells (cell_number (extents_in plan) c) 0
        ≡ (held (extents_in plan) contents c + sum_of (walk_plan plan (flat contents)) (is_done (shape_of plan) s)
        (length (walk_in plan)) (cell_number (extents_in plan) c)) % 2 ^ 64 }
    ensures addend { (plan : Plan) (contents : List (List ℕ)) (j : ℕ) (v : Visit)
        → IsPlan plan → IsShaped (extents_in plan) contents → slice_get (walk_in plan) j ≡ Some v
        → is_marked plan.marked.now v.body.place.array ≡ true
        → stored (walk_plan plan (flat contents)) j
        ≡ added_by v.body.right v.point (values_loaded_by plan.marked.now (extents_in plan)
        (before_place (extents_in plan) contents (walk_in plan) j) v.body v.point) }
    ensures kept { (plan : Plan) (contents : List (List ℕ)) (s : State) (c : Cell)
        → IsPlan plan → is_expanded plan ≡ true → IsShaped (extents_in plan) contents
        → Sound (plan_of plan (flat contents)) s → IsCell (extents_in plan) c
        → slice_index_or s.cells (cell_number (extents_in plan) c) 0 ≡ held (extents_in plan) contents c }
    ensures copy { (plan : Plan) (contents : List (List ℕ)) (s : State) (j : ℕ)
        → IsPlan plan → is_expanded plan ≡ true → IsShaped (extents_in plan) contents
        → Sound (plan_of plan (flat contents)) s → j < length (walk_in plan) → is_done (shape_of plan) s j ≡ true
        → slice_index_or s.cells ((plain_shape plan).cells + j) 0
        ≡ value_stored_at (extents_in plan) contents (walk_in plan) j }
{
    walks_are_dealt();
    pairs_make_plans();
    copies_keep_what_is_read();
    plans_execute_the_walk();
    cells_hold_what_is_done();
    cells_hold_their_sums();
    cells_have_numbers_of_their_own();
}

/// The same of the words of a run, between any two steps; behind the arrays' contents stand copies and counters that are
/// 0 at first.
pub fn words_are_those_of_the_execution()
    ensures last { (key : Key) (st : table.State (Unit {0}) View) (contents : List (List ℕ)) (c : Cell) (i : ℕ) (v : Visit)
        → Ruled key st → IsPlan key.plan → is_expanded key.plan ≡ false → IsShaped (extents_in key.plan) contents
        → HoldsContents contents key.cells.items → IsCell (extents_in key.plan) c → is_marked key.plan.marked.now c.array ≡ false
        → IsLastWriter (walk_in key.plan) (is_done (shape_of key.plan) (core st.words (map worker_in st.views))) c i v
        → slice_index st.words (cell_number (extents_in key.plan) c + 2)
        ≡ value_stored_by (extents_in key.plan) (before_place (extents_in key.plan) contents (walk_in key.plan) i)
        v.body v.point }
    ensures first { (key : Key) (st : table.State (Unit {0}) View) (contents : List (List ℕ)) (c : Cell)
        → Ruled key st → IsPlan key.plan → is_expanded key.plan ≡ false → IsShaped (extents_in key.plan) contents
        → HoldsContents contents key.cells.items → IsCell (extents_in key.plan) c
        → HasNoWriter (walk_in key.plan) (is_done (shape_of key.plan) (core st.words (map worker_in st.views))) c
        → slice_index st.words (cell_number (extents_in key.plan) c + 2) ≡ held (extents_in key.plan) contents c }
    ensures sum { (key : Key) (st : table.State (Unit {0}) View) (contents : List (List ℕ)) (c : Cell)
        → Ruled key st → IsPlan key.plan → IsShaped (extents_in key.plan) contents
        → HoldsContents contents key.cells.items → IsCell (extents_in key.plan) c → is_marked key.plan.marked.now c.array ≡ true
        → held (extents_in key.plan) contents c < 18446744073709551616
        → slice_index st.words (cell_number (extents_in key.plan) c + 2)
        ≡ (held (extents_in key.plan) contents c + sum_of (walk_plan key.plan (flat contents))
        (is_done (shape_of key.plan) (core st.words (map worker_in st.views))) (length (walk_in key.plan))
        (cell_number (extents_in key.plan) c)) % 2 ^ 64 }
    ensures kept { (key : Key) (st : table.State (Unit {0}) View) (contents : List (List ℕ)) (c : Cell)
        → Ruled key st → IsPlan key.plan → is_expanded key.plan ≡ true → IsShaped (extents_in key.plan) contents
        → HoldsContents contents key.cells.items → IsCell (extents_in key.plan) c
        → slice_index st.words (cell_number (extents_in key.plan) c + 2) ≡ held (extents_in key.plan) contents c }
    ensures copy { (key : Key) (st : table.State (Unit {0}) View) (contents : List (List ℕ)) (j : ℕ)
        → Ruled key st → IsPlan key.plan → is_expanded key.plan ≡ true → IsShaped (extents_in key.plan) contents
        → HoldsContents contents key.cells.items → j < length (walk_in key.plan)
        → is_done (shape_of key.plan) (core st.words (map worker_in st.views)) j ≡ true
        → slice_index st.words ((plain_shape key.plan).cells + j + 2)
        ≡ value_stored_at (extents_in key.plan) contents (walk_in key.plan) j }
{
    cells_are_those_of_the_execution();
}
