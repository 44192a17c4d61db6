//! The pairs of a run's tiles of which the second waits for the first, where tiles are to be released one by one.
ghost use Rattle.std.specs.Prelude.{◌≡◌, ℕ, ⊤, true, IfOk, List, MatchOption, Some, length};
ghost use Rattle.std.specs.Option.{option_map};
ghost use Rattle.scop_syntax.specs.Execution.{IsInside};
ghost use Rattle.scop_syntax.specs.Limits.{WithinLimits};
ghost use Rattle.scop_syntax.specs.View.{program_of};
ghost use Rattle.scop_syntax.specs.Walk.{walk_of};
ghost use Rattle.loop_tree.specs.TilingView.{tiling_of};
ghost use Rattle.loop_tree.specs.View.{trees_in};
ghost use Rattle.loop_tree.specs.Walk.{visits};
ghost use Rattle.planned_trees.specs.Trees.{AreTreesOf};
ghost use Rattle.tile_table.specs.Tables.{IsTableOf};
ghost use Rattle.tile_core.specs.Plans.{HaveRoom};
ghost use Rattle.tile_edges.specs.Counting.{IsReleaseOf};
ghost use Rattle.tile_edges.specs.Edges.{AreEdgesOf};
ghost use Rattle.tile_list.specs.Tiles.{CanTile};
ghost use Rattle.tile_list.specs.TilesView.{IsTileListOf};

use data_text::Case;
use loop_tree::{Tiling, Tree};
use planned_trees::trees_of_plans_can_be_walked;
use scop_syntax::Kernel;
use std::alloc::{AllocError, Global};
use tile_core::have_room;
use tile_edges::{EdgesStop, TileEdges, edges, edges_are_counted};
use tile_list::TileList;
use tile_table::Table;

/// The pairs of tiles, where the instances of each tile and all pairs can be counted; else memory is wanting.
fn counted(list: &TileList, pairs: TileEdges) -> Result<Option<TileEdges>, AllocError>
    ensures same { IfOk result (λ o. o ≡ Some pairs) }
    ensures room { IfOk result (λ _. HaveRoom list.now pairs) }
{
    if have_room(list, &pairs) {
        return Ok(Some(pairs));
    }
    Err(AllocError)
}

/// How many pairs there are.
pub(crate) fn pairs_in(pairs: &Option<TileEdges>) -> Option<u64>
    ensures { result ≡ option_map (λ e. length e.targets.items) pairs.now }
{
    match pairs {
        None => None,
        Some(pairs) => Some(pairs.targets.len() as u64),
    }
}

/// The pairs of tiles of which the second waits for the first, where tiles are to be released one by one and there are
/// not too many of them: where `flow` alone counts, by what their instances read.
///
/// # Errors
/// `AllocError` alone.
pub(crate) fn edges_of(
    alloc: Global,
    kernel: &Kernel,
    case: &Case,
    table: &Table,
    tree: &Tree,
    tiling: &Tiling,
    list: &TileList,
    release: bool,
    flow: bool,
) -> Result<Option<TileEdges>, AllocError>
    requires limits { WithinLimits (program_of kernel.now) case.now.params.items }
    requires inside { IsInside (program_of kernel.now) case.now.params.items }
    requires trees { (marked : List ℕ)
        × AreTreesOf (program_of kernel.now) marked (tiling_of tiling.now) (trees_in tree.now) }
    requires fits { CanTile (tiling_of tiling.now) (visits (trees_in tree.now) case.now.params.items) }
    requires table { release ≡ true → IsTableOf (program_of kernel.now) case.now.params.items table.now }
    requires tiles { IsTileListOf (trees_in tree.now) case.now.params.items (tiling_of tiling.now) list.now }
    ensures edges { IfOk result (λ o. MatchOption o ⊤
        (AreEdgesOf flow (program_of kernel.now) case.now.params.items (tiling_of tiling.now) list.now)) }
    ensures room { IfOk result (λ o. MatchOption o ⊤ (HaveRoom list.now)) }
    ensures released { IfOk result (λ o. MatchOption o ⊤ (λ e. release ≡ true)) }
    ensures count { IfOk result (λ o. IsReleaseOf release flow (tiling_of tiling.now)
        (walk_of (program_of kernel.now) case.now.params.items) (option_map (λ e. length e.targets.items) o)) }
{
    trees_of_plans_can_be_walked();
    edges_are_counted();
    if !release {
        return Ok(None);
    }
    match edges(alloc, kernel, &case.params, table, tree, tiling, list, flow) {
        Ok(pairs) => counted(list, pairs),
        Err(EdgesStop::TooMany) => Ok(None),
        Err(EdgesStop::NoMemory) => Err(AllocError),
    }
}
