//! Callers of the laws of pairs of tiles, at tiles of size 1 of visits without parameters, and in the source's order:
//! of pairs by all conflicts, and by flow alone.
ghost use Rattle.std.specs.Prelude.{◌≡◌, [], Bool, List, Option, Some, length, true, ℕ};
ghost use Rattle.scop_syntax.specs.Tree.{Program};
ghost use Rattle.scop_syntax.specs.Walk.{walk_of};
ghost use Rattle.loop_tree.specs.Plans.{AreInOrder};
ghost use Rattle.loop_tree.specs.Tiling.{Items, kept, tiled};
ghost use Rattle.loop_tree.specs.Tree.{Trees};
ghost use Rattle.loop_tree.specs.Walk.{visits};
ghost use Rattle.tile_list.specs.TilesView.{IsTileListOf};
ghost use Rattle.tile_list.specs.declared.list.TileList.{TileList};
ghost use Rattle.tile_edges.specs.Counting.{HasEdges, HasMoreEdges, IsReleaseOf};
ghost use Rattle.tile_edges.specs.Edges.{AreEdgesOf, AreTooMany};
ghost use Rattle.tile_edges.specs.declared.waiting.TileEdges.{TileEdges};

use tile_edges::{edges_are_counted, kept_orders_have_no_edges};

/// The pairs of tiles of size 1 are as many as there are of these, by `edges` of `edges_are_counted`, and where there are
/// too many in numbers, so there are of these, by `more`.
pub fn pairs_of_tiles_of_size_1()
    ensures edges { (flow : Bool) (program : Program) (ts : Trees) (statements : List Items) (list : TileList)
        (e : TileEdges) → IsTileListOf ts [] (tiled 1 statements) list
        → AreInOrder program [] (tiled 1 statements) (visits ts [])
        → AreEdgesOf flow program [] (tiled 1 statements) list e
        → HasEdges flow (tiled 1 statements) (walk_of program []) (length e.targets.items) }
    ensures more { (flow : Bool) (program : Program) (ts : Trees) (statements : List Items) (list : TileList)
        → IsTileListOf ts [] (tiled 1 statements) list → AreTooMany flow program [] (tiled 1 statements) list
        → HasMoreEdges flow (tiled 1 statements) (walk_of program []) }
{
    edges_are_counted();
}

/// The source's order of a program without parameters has no pair of tiles, by the clause of `kept_orders_have_no_edges`.
pub fn no_pairs_in_the_source_s_order()
    ensures { (flow : Bool) (program : Program) (told : Option ℕ) → IsReleaseOf true flow kept (walk_of program []) told
        → told ≡ Some 0 }
{
    kept_orders_have_no_edges();
}
