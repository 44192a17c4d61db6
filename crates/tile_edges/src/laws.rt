//! How many pairs of tiles there are: laws, as contracts of functions that do nothing.
ghost use Rattle.std.specs.Prelude.{◌≡◌, ℕ, ℤ, Bool, List, Option, Some, length, true};
ghost use Rattle.scop_syntax.specs.Tree.{Program};
ghost use Rattle.scop_syntax.specs.Walk.{Visit, walk_of};
ghost use Rattle.loop_tree.specs.Plans.{AreInOrder};
ghost use Rattle.loop_tree.specs.Tiling.{Tiling, kept};
ghost use Rattle.loop_tree.specs.Tree.{Trees};
ghost use Rattle.loop_tree.specs.Walk.{visits};
ghost use Rattle.tile_list.specs.TilesView.{IsTileListOf};
ghost use Rattle.tile_list.specs.declared.list.TileList.{TileList};
ghost use Rattle.tile_edges.specs.Counting.{HasEdges, HasMoreEdges, IsReleaseOf};
ghost use Rattle.tile_edges.specs.Edges.{AreEdgesOf, AreTooMany};
ghost use Rattle.tile_edges.specs.declared.waiting.TileEdges.{TileEdges};

use tile_events::pairs_make_plans;

/// The pairs of numbers that are given for a list of tiles are as many as there are pairs of tiles of which the second
/// waits for the first; where there are too many of the ones, so there are of the others.
pub fn edges_are_counted()
    ensures edges { (flow : Bool) (program : Program) (params : List ℤ) (ts : Trees) (tiling : Tiling)
        (list : TileList) (e : TileEdges) → IsTileListOf ts params tiling list
        → AreInOrder program params tiling (visits ts params) → AreEdgesOf flow program params tiling list e
        → HasEdges flow tiling (walk_of program params) (length e.targets.items) }
    ensures more { (flow : Bool) (program : Program) (params : List ℤ) (ts : Trees) (tiling : Tiling) (list : TileList)
        → IsTileListOf ts params tiling list → AreTooMany flow program params tiling list
        → HasMoreEdges flow tiling (walk_of program params) }
{
    pairs_make_plans();
}

/// The source's order, which is one tile, has no pair.
pub fn kept_orders_have_no_edges()
    ensures { (flow : Bool) (visits : List Visit) (told : Option ℕ) → IsReleaseOf true flow kept visits told
        → told ≡ Some 0 }
{}
