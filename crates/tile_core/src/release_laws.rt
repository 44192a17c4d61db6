//! What holds between any two events of a run whose tiles are released one by one, in the words of the kernel's walk.
ghost use Rattle.std.specs.Borrow.{Bor};
ghost use Rattle.std.specs.Prelude.{◌≡◌, ◌⊎◌, ℕ, ◌<◌, ◌≤◌, List, Some, false, suc, true};
ghost use Rattle.scop_syntax.specs.Cells.{PlacesConflict};
ghost use Rattle.scop_syntax.specs.Writers.{last_of};
ghost use Rattle.tile_edges.specs.Edges.{edges_of};
ghost use Rattle.tile_edges.specs.declared.waiting.TileEdges.{TileEdges};
ghost use Rattle.tile_events.specs.Core.{State, needed_by, seen_by};
ghost use Rattle.tile_events.specs.Releases.{IsDone, Leads, Released};
ghost use Rattle.tile_events.specs.Sound.{IsBegun, IsFinished, Sound};
ghost use Rattle.tile_core.specs.Plans.{IsPlan, is_expanded, plan_of, shape_of, walk_in, walk_plan, walk_shape};
ghost use Rattle.tile_core.specs.declared.plan.Plan.{Plan};

use crate::plan_laws::walks_are_dealt;
use scop_syntax::cells_have_numbers_of_their_own;
use tile_events::{
    covers_are_those_of_the_walk, covers_join_what_touches, opened_tiles_have_waited,
    pairs_make_plans,
};

/// At a sound state of a plan with pairs of tiles, each tile from which one leads to an opened or finished tile has all
/// instances done and has released that one, each counter holds how many have released its tile, and a tile releases
/// others only when all its instances are done. So each other tile that holds an earlier conflicting place, or, with an
/// expansion, the last writer of what a place reads, has all instances done. A pair leads to a later tile, and where all
/// earlier tiles are finished, a tile can be opened.
pub fn opened_tiles_were_released()
    ensures released { (plan : Plan) (e : Bor TileEdges) (cells : List ℕ) (s : State) → IsPlan plan
        → plan.edges ≡ Some e → Sound (plan_of plan cells) s → Released (walk_plan plan cells) (edges_of e.now) s }
    ensures conflicts { (plan : Plan) (e : Bor TileEdges) (cells : List ℕ) (s : State) (i j : ℕ) → IsPlan plan
        → is_expanded plan ≡ false → plan.edges ≡ Some e → Sound (plan_of plan cells) s
        → PlacesConflict (walk_in plan) i j → IsBegun s ((walk_shape plan).tile j)
        → ((walk_shape plan).tile i ≡ (walk_shape plan).tile j)
        ⊎ IsDone (walk_plan plan cells) (edges_of e.now) s ((walk_shape plan).tile i) }
    ensures sources { (plan : Plan) (e : Bor TileEdges) (cells : List ℕ) (s : State) (i j r : ℕ) → IsPlan plan
        → is_expanded plan ≡ true → plan.edges ≡ Some e → Sound (plan_of plan cells) s
        → last_of (walk_in plan) j (suc r) ≡ Some i → IsBegun s ((walk_shape plan).tile j)
        → ((walk_shape plan).tile i ≡ (walk_shape plan).tile j)
        ⊎ IsDone (walk_plan plan cells) (edges_of e.now) s ((walk_shape plan).tile i) }
    ensures rise { (plan : Plan) (e : Bor TileEdges) (t u : ℕ) → IsPlan plan → plan.edges ≡ Some e
        → Leads (walk_shape plan) (edges_of e.now) t u → t < u }
    ensures filled { (plan : Plan) (e : Bor TileEdges) (cells : List ℕ) (s : State) (u : ℕ) → IsPlan plan
        → plan.edges ≡ Some e → Sound (plan_of plan cells) s → u < (shape_of plan).tiles
        → ((t : ℕ) → t < u → IsFinished s t)
        → needed_by (shape_of plan).gate (shape_of plan) u ≤ seen_by (shape_of plan).gate s u }
{
    walks_are_dealt();
    cells_have_numbers_of_their_own();
    covers_are_those_of_the_walk();
    covers_join_what_touches();
    pairs_make_plans();
    opened_tiles_have_waited();
}
