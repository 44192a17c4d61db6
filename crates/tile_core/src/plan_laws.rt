//! Laws of plans, as contracts of functions that call the laws which their proofs use.
ghost use Rattle.std.specs.Prelude.{◌≡◌, ℕ, ◌<◌, ◌≤◌, List, Some, false, length, slice_get, true};
ghost use Rattle.scop_syntax.specs.Execution.{IsShaped, before_place};
ghost use Rattle.scop_syntax.specs.Members.{In};
ghost use Rattle.scop_syntax.specs.Walk.{Instance, Visit, instance};
ghost use Rattle.tile_table.specs.declared.table.Row.{Row};
ghost use Rattle.tile_edges.specs.Edges.{IsTileOf};
ghost use Rattle.tile_events.specs.Copies.{AreSources, expanded};
ghost use Rattle.tile_events.specs.Core.{State};
ghost use Rattle.tile_events.specs.Deal.{IsScan};
ghost use Rattle.tile_events.specs.Flat.{flat};
ghost use Rattle.tile_events.specs.Opening.{IsQuiet};
ghost use Rattle.tile_events.specs.Plan.{GoodPlan, IsDealt, values_read};
ghost use Rattle.tile_events.specs.Sound.{Sound};
ghost use Rattle.tile_core.specs.Marks.{values_loaded_by};
ghost use Rattle.tile_core.specs.Plans.{
  AreCopies,
  AreHeld,
  AreKept,
  HoldsContents,
  IsPlan,
  deal_of,
  extents_in,
  is_expanded,
  places_in,
  plain_plan,
  plain_shape,
  plan_of,
  scan_in,
  sources_in,
  walk_in,
  walk_plan,
  walk_shape,
};
ghost use Rattle.tile_core.specs.Rows.{IsRowAt};
ghost use Rattle.tile_core.specs.declared.plan.Plan.{Plan};

use scop_syntax::{
    cells_have_numbers_of_their_own, cells_lie_within_22_bits, instances_are_those_of_statements,
    statements_are_numbered, walks_are_in_order,
};
use tile_events::{
    all_interleavings_agree, copies_keep_what_is_read, covers_are_those_of_the_walk,
    covers_join_what_touches, pairs_make_plans, plans_execute_the_walk, scans_are_dealt,
};
use tile_list::{numbers_tell_waves, tiles_stand_one_behind_another};

/// The tiles of a plan hold each place of the walk once, that of its instance, and of two places that touch one cell,
/// but not where both add to it, the earlier comes first in one tile or lies in an earlier wave. Its places are those of
/// the walk, over the cells of all arrays; with an expansion each has a copy behind them.
pub fn walks_are_dealt()
    ensures scan { (plan : Plan) → IsPlan plan → IsScan (deal_of plan) }
    ensures count { (plan : Plan) → IsPlan plan → length (scan_in plan) ≡ length (walk_in plan) }
    ensures held { (plan : Plan) (is : IsPlan plan) (j : ℕ) (v : Visit) → slice_get (walk_in plan) j ≡ Some v
        → IsTileOf is.tiling plan.list.now ((walk_shape plan).tile j) (instance v) }
    ensures good { (plan : Plan) (cells : List ℕ) → IsPlan plan → GoodPlan (walk_plan plan cells) }
    ensures dealt { (plan : Plan) (cells : List ℕ) → IsPlan plan → IsDealt (walk_plan plan cells) }
    ensures plain { (plan : Plan) (cells : List ℕ) → is_expanded plan ≡ false
        → walk_plan plan cells ≡ plain_plan plan cells }
    ensures copied { (plan : Plan) (cells : List ℕ) → is_expanded plan ≡ true
        → walk_plan plan cells ≡ expanded (plain_plan plan cells) (sources_in plan) }
    ensures sources { (plan : Plan) (j : ℕ) → IsPlan plan → is_expanded plan ≡ true → j < length (walk_in plan)
        → AreSources (plain_shape plan) j ((plain_shape plan).read j) (sources_in plan j) }
{
    walks_are_in_order();
    cells_have_numbers_of_their_own();
    scans_are_dealt();
    plans_execute_the_walk();
    copies_keep_what_is_read();
    tiles_stand_one_behind_another();
    numbers_tell_waves();
}

/// A plan, also one whose tiles are released one by one, deals each place to a tile, and of two places that touch one
/// cell the later waits for the earlier, at once or by way of places in between.
pub fn plans_are_good()
    ensures scan { (plan : Plan) → IsPlan plan → IsScan (deal_of plan) }
    ensures count { (plan : Plan) → IsPlan plan → length (scan_in plan) ≡ length (walk_in plan) }
    ensures good { (plan : Plan) (cells : List ℕ) → IsPlan plan → GoodPlan (plan_of plan cells) }
    ensures dealt { (plan : Plan) (cells : List ℕ) → IsPlan plan → IsDealt (plan_of plan cells) }
{
    walks_are_dealt();
    covers_are_those_of_the_walk();
    covers_join_what_touches();
    cells_have_numbers_of_their_own();
    pairs_make_plans();
}

/// Over the arrays' contents one behind another, each place of a plan loads what the kernel's own execution reads there,
/// and a sound state in which all tiles are done has its arrays; with an expansion it has the contents as they were, and
/// in the copy of each place the value that the kernel's own execution stores there. Zeros behind the contents change no
/// plan.
pub fn plans_execute_the_kernel()
    ensures row { (plan : Plan) (contents : List (List ℕ)) (cells : List ℕ) → HoldsContents contents cells
        → plan_of plan cells ≡ plan_of plan (flat contents) }
    ensures reads { (plan : Plan) (contents : List (List ℕ)) (j : ℕ) (v : Visit) → IsPlan plan
        → IsShaped (extents_in plan) contents → slice_get (walk_in plan) j ≡ Some v
        → values_read (plan_of plan (flat contents)) j
        ≡ values_loaded_by plan.marked.now (extents_in plan) (before_place (extents_in plan) contents (walk_in plan) j)
        v.body v.point }
    ensures end { (plan : Plan) (contents : List (List ℕ)) (s : State) → IsPlan plan → is_expanded plan ≡ false
        → IsShaped (extents_in plan) contents → Sound (plan_of plan (flat contents)) s
        → IsQuiet (plan_of plan (flat contents)) s → AreHeld plan contents s.cells }
    ensures kept { (plan : Plan) (contents : List (List ℕ)) (s : State) → IsPlan plan → is_expanded plan ≡ true
        → IsShaped (extents_in plan) contents → Sound (plan_of plan (flat contents)) s
        → AreKept plan contents s.cells }
    ensures copies { (plan : Plan) (contents : List (List ℕ)) (s : State) → IsPlan plan → is_expanded plan ≡ true
        → IsShaped (extents_in plan) contents → Sound (plan_of plan (flat contents)) s
        → IsQuiet (plan_of plan (flat contents)) s → AreCopies plan contents s.cells }
{
    walks_are_dealt();
    pairs_make_plans();
    copies_keep_what_is_read();
    plans_are_good();
    plans_execute_the_walk();
    cells_have_numbers_of_their_own();
    all_interleavings_agree();
}

/// No instance of a plan has more than 16 reads.
pub fn instances_read_few()
    ensures { (plan : Plan) (j : ℕ) → IsPlan plan → j < (walk_shape plan).places
        → length ((walk_shape plan).read j) ≤ 16 }
{
    instances_are_those_of_statements();
    statements_are_numbered();
}

/// The row of a walked instance's statement tells the cells that the instance touches, and what it stores or adds.
pub fn rows_tell_instances()
    ensures there { (plan : Plan) (x : Instance) → IsPlan plan → In x (places_in plan)
        → x.number < length plan.table.now.rows.items }
    ensures tells { (plan : Plan) (x : Instance) (row : Row) → IsPlan plan → In x (places_in plan)
        → slice_get plan.table.now.rows.items x.number ≡ Some row → IsRowAt plan row x }
{
    walks_are_in_order();
    instances_are_those_of_statements();
    statements_are_numbered();
    cells_have_numbers_of_their_own();
    cells_lie_within_22_bits();
}
