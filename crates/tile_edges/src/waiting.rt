//! The pairs of a plan's tiles, by one pass over the walk.
ghost use Rattle.std.specs.Prelude.{◌≡◌, ◌<◌, ◌≤◌, [], IfErr, IfOk, length};
ghost use Rattle.scop_syntax.specs.Execution.{IsInside};
ghost use Rattle.scop_syntax.specs.Limits.{WithinLimits};
ghost use Rattle.scop_syntax.specs.View.{program_of};
ghost use Rattle.loop_tree.specs.Conditions.{CanWalk};
ghost use Rattle.loop_tree.specs.Plans.{AreInOrder};
ghost use Rattle.loop_tree.specs.TilingView.{tiling_of};
ghost use Rattle.loop_tree.specs.View.{trees_in};
ghost use Rattle.loop_tree.specs.Walk.{visits};
ghost use Rattle.tile_table.specs.Tables.{IsTableOf};
ghost use Rattle.tile_list.specs.Tiles.{CanTile};
ghost use Rattle.tile_list.specs.TilesView.{IsTileListOf};
ghost use Rattle.tile_edges.specs.Edges.{AreEdgesOf, AreTooMany};
ghost use Rattle.tile_edges.specs.declared.waiting.EdgesStop.TheVariants.{TooMany as too_many};

use crate::rows::rows_of;
use crate::walking::{MOST_EDGES, pairs_of};
use loop_tree::{Tiling, Tree};
use scop_syntax::{Kernel, cells_have_numbers_of_their_own};
use std::alloc::{AllocError, Global};
use tile_events::{covers_are_those_of_the_walk, pairs_make_plans};
use tile_list::TileList;
use tile_table::Table;

/// The pairs in compressed rows: tile `t` is waited for by the tiles `targets[starts[t]..starts[t + 1]]`, in rising order;
/// tile `u` waits for `needs[u]` tiles.
#[derive(Drop)]
pub struct TileEdges {
    pub starts: Vec<usize>,
    pub targets: Vec<usize>,
    pub needs: Vec<u64>,
}

/// Why no pairs are given: there are more than 2^22, or memory ran out.
#[derive(Clone, Copy)]
pub enum EdgesStop {
    TooMany,
    NoMemory,
}

/// The pairs of tiles of which the second waits for the first, or more than 2^22 of them.
fn edges_or_more(
    alloc: Global,
    kernel: &Kernel,
    params: &[i64],
    table: &Table,
    tree: &Tree,
    tiling: &Tiling,
    list: &TileList,
    flow: bool,
) -> Result<TileEdges, AllocError>
    requires limits { WithinLimits (program_of kernel.now) params.now }
    requires inside { IsInside (program_of kernel.now) params.now }
    requires table { IsTableOf (program_of kernel.now) params.now table.now }
    requires walk { CanWalk (trees_in tree.now) params.now [] }
    requires order { AreInOrder (program_of kernel.now) params.now (tiling_of tiling.now)
        (visits (trees_in tree.now) params.now) }
    requires fits { CanTile (tiling_of tiling.now) (visits (trees_in tree.now) params.now) }
    requires tiles { IsTileListOf (trees_in tree.now) params.now (tiling_of tiling.now) list.now }
    ensures few { IfOk result (λ e. length e.targets.items ≤ 4194304
        → AreEdgesOf flow (program_of kernel.now) params.now (tiling_of tiling.now) list.now e) }
    ensures many { IfOk result (λ e. 4194304 < length e.targets.items
        → AreTooMany flow (program_of kernel.now) params.now (tiling_of tiling.now) list.now) }
{
    cells_have_numbers_of_their_own();
    covers_are_those_of_the_walk();
    pairs_make_plans();
    let pairs = pairs_of(alloc, kernel, params, table, tiling, list, flow)?;
    let edges = rows_of(alloc, &pairs)?;
    Ok(edges)
}

/// The pairs of tiles of which the second waits for the first: where `flow` alone counts, by what its places read, else
/// by what they cover. `tree` is that of the plan, whose tiles `list` has.
///
/// # Errors
/// `TooMany` exactly where there are more than 2^22 pairs, else `NoMemory`.
pub fn edges(
    alloc: Global,
    kernel: &Kernel,
    params: &[i64],
    table: &Table,
    tree: &Tree,
    tiling: &Tiling,
    list: &TileList,
    flow: bool,
) -> Result<TileEdges, EdgesStop>
    requires limits { WithinLimits (program_of kernel.now) params.now }
    requires inside { IsInside (program_of kernel.now) params.now }
    requires table { IsTableOf (program_of kernel.now) params.now table.now }
    requires walk { CanWalk (trees_in tree.now) params.now [] }
    requires order { AreInOrder (program_of kernel.now) params.now (tiling_of tiling.now)
        (visits (trees_in tree.now) params.now) }
    requires fits { CanTile (tiling_of tiling.now) (visits (trees_in tree.now) params.now) }
    requires tiles { IsTileListOf (trees_in tree.now) params.now (tiling_of tiling.now) list.now }
    ensures edges { IfOk result (AreEdgesOf flow (program_of kernel.now) params.now (tiling_of tiling.now) list.now) }
    ensures few { IfOk result (λ e. length e.targets.items ≤ 4194304) }
    ensures many { IfErr result (λ stop. stop ≡ too_many
        → AreTooMany flow (program_of kernel.now) params.now (tiling_of tiling.now) list.now) }
{
    match edges_or_more(alloc, kernel, params, table, tree, tiling, list, flow) {
        Err(_) => Err(EdgesStop::NoMemory),
        Ok(edges) => {
            if edges.targets.len() > MOST_EDGES {
                return Err(EdgesStop::TooMany);
            }
            Ok(edges)
        }
    }
}
