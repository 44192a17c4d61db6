//! Callers of what a plan whose tiles are released one by one promises between any two events of a run.
ghost use Rattle.std.specs.Borrow.{Bor};
ghost use Rattle.std.specs.Prelude.{◌≡◌, ◌≢◌, ℕ, ◌<◌, ◌≤◌, List, Some, false, true};
ghost use Rattle.scop_syntax.specs.Cells.{PlacesConflict};
ghost use Rattle.scop_syntax.specs.Writers.{last_of};
ghost use Rattle.tile_edges.specs.Edges.{edges_of};
ghost use Rattle.tile_edges.specs.declared.waiting.TileEdges.{TileEdges};
ghost use Rattle.tile_events.specs.Core.{State, needed_by, seen_by};
ghost use Rattle.tile_events.specs.Releases.{IsDone, IsReleased, Leads};
ghost use Rattle.tile_events.specs.Sound.{IsBegun, Sound};
ghost use Rattle.tile_core.specs.Plans.{IsPlan, is_expanded, plan_of, shape_of, walk_in, walk_plan, walk_shape};
ghost use Rattle.tile_core.specs.declared.plan.Plan.{Plan};

use tile_core::opened_tiles_were_released;

/// Where the second tile of the first pair is opened, the first has released it, by `released` of
/// `opened_tiles_were_released`; where the tile of the second place is opened, and the first place is in conflict with
/// that and lies in another tile, all instances of this one are done, by `conflicts`; with an expansion so they are
/// where the first read of the second place finds what the first place wrote, by `sources`; no tile leads to the first
/// one, by `rise`, and that can be opened at any time, by `filled`.
pub fn tiles_that_wait()
    ensures released { (plan : Plan) (e : Bor TileEdges) (cells : List ℕ) (s : State) → IsPlan plan
        → plan.edges ≡ Some e → Sound (plan_of plan cells) s → 0 < (edges_of e.now).count
        → IsBegun s ((edges_of e.now).target 0) → IsReleased (walk_plan plan cells) (edges_of e.now) s 0 }
    ensures conflicts { (plan : Plan) (e : Bor TileEdges) (cells : List ℕ) (s : State) → IsPlan plan
        → is_expanded plan ≡ false → plan.edges ≡ Some e → Sound (plan_of plan cells) s
        → PlacesConflict (walk_in plan) 0 1
        → IsBegun s ((walk_shape plan).tile 1) → (walk_shape plan).tile 0 ≢ (walk_shape plan).tile 1
        → IsDone (walk_plan plan cells) (edges_of e.now) s ((walk_shape plan).tile 0) }
    ensures sources { (plan : Plan) (e : Bor TileEdges) (cells : List ℕ) (s : State) → IsPlan plan
        → is_expanded plan ≡ true → plan.edges ≡ Some e → Sound (plan_of plan cells) s
        → last_of (walk_in plan) 1 1 ≡ Some 0
        → IsBegun s ((walk_shape plan).tile 1) → (walk_shape plan).tile 0 ≢ (walk_shape plan).tile 1
        → IsDone (walk_plan plan cells) (edges_of e.now) s ((walk_shape plan).tile 0) }
    ensures rise { (plan : Plan) (e : Bor TileEdges) (t : ℕ) → IsPlan plan → plan.edges ≡ Some e
        → Leads (walk_shape plan) (edges_of e.now) t 0 → ⊥ }
    ensures filled { (plan : Plan) (e : Bor TileEdges) (cells : List ℕ) (s : State) → IsPlan plan
        → plan.edges ≡ Some e → Sound (plan_of plan cells) s → 0 < (shape_of plan).tiles
        → needed_by (shape_of plan).gate (shape_of plan) 0 ≤ seen_by (shape_of plan).gate s 0 }
{
    opened_tiles_were_released();
}
