//! A kernel's case run by a plan, from arrays to arrays.
ghost use Rattle.std.specs.Prelude.{◌≡◌, ◌-◌, ◌≤◌, ◌++◌, ℕ, ⊤, true, List, [], IfErr, IfOk, MatchOption, is_some};
ghost use Rattle.std.specs.Prelude.{length};
ghost use Rattle.std.specs.Option.{option_map};
ghost use Rattle.scop_syntax.specs.Execution.{IsInside, IsShaped, exec, layout, total_cells};
ghost use Rattle.scop_syntax.specs.Limits.{WithinLimits};
ghost use Rattle.scop_syntax.specs.Reductions.{AreMarked};
ghost use Rattle.scop_syntax.specs.View.{program_of};
ghost use Rattle.scop_syntax.specs.Walk.{walk_of};
ghost use Rattle.loop_tree.specs.Plans.{walked};
ghost use Rattle.loop_tree.specs.TilingView.{tiling_of};
ghost use Rattle.loop_tree.specs.View.{trees_in};
ghost use Rattle.loop_tree.specs.Walk.{visits};
ghost use Rattle.planned_trees.specs.Trees.{AreFlowTreesOf, AreTreesOf};
ghost use Rattle.expansions.specs.Expansions.{AreSourcesOf};
ghost use Rattle.tile_table.specs.Tables.{IsTableBy};
ghost use Rattle.tile_core.specs.Expansions.{IsExpansionOf};
ghost use Rattle.tile_core.specs.Plans.{HaveRoom, IsPlan, extents_in, plain_shape, program_in};
ghost use Rattle.tile_edges.specs.Counting.{IsReleaseOf};
ghost use Rattle.tile_edges.specs.Edges.{AreEdgesOf};
ghost use Rattle.tile_events.specs.Flat.{flat};
ghost use Rattle.tile_list.specs.Counting.{HasTiles, HasWaves};
ghost use Rattle.tile_list.specs.Tiles.{CanTile};
ghost use Rattle.tile_list.specs.TilesView.{IsTileListOf};
ghost use Rattle.tile_runs.specs.steps.Rows.{Begins, Executes};

use crate::counters::{copies_of, counters_of, run_with_rest};
use crate::expansion::expansion_of;
use crate::pairs::{edges_of, pairs_in};
use crate::rows::{append_all, cells_with, give_back, give_first, take_first};
use crate::workers::Workers;
use data_text::Case;
use expansions::Sources;
use loop_tree::{Tiling, Tree};
use planned_trees::{trees_of_plans_can_be_walked, waves_have_one_length};
use scop_syntax::{Arrays, Kernel};
use std::alloc::{AllocError, Global};
use tile_core::{Expansion, Plan};
use tile_edges::TileEdges;
use tile_list::{TileList, orders_rise_by_tile, tiles, tiles_are_counted};
use tile_table::Table;

/// How many tiles hold an instance, how many waves hold such a tile, and, where tiles were released one by one, how many
/// pairs there are of which the second waits for the first.
#[derive(Clone, Copy)]
pub struct Counts {
    pub tiles: u64,
    pub waves: u64,
    pub edges: Option<u64>,
}

/// The tiles of what a plan's tree visits.
///
/// # Errors
/// `AllocError` alone.
pub fn tiles_of(
    alloc: Global,
    kernel: &Kernel,
    case: &Case,
    tree: &Tree,
    tiling: &Tiling,
) -> Result<TileList, AllocError>
    requires limits { WithinLimits (program_of kernel.now) case.now.params.items }
    requires trees { (marked : List ℕ)
        × AreTreesOf (program_of kernel.now) marked (tiling_of tiling.now) (trees_in tree.now) }
    requires fits { CanTile (tiling_of tiling.now) (visits (trees_in tree.now) case.now.params.items) }
    ensures { IfOk result
        (IsTileListOf (trees_in tree.now) case.now.params.items (tiling_of tiling.now)) }
{
    trees_of_plans_can_be_walked();
    waves_have_one_length();
    orders_rise_by_tile();
    tiles(alloc, tree, tiling, &case.params)
}

/// The plan of a run; the tiling is there for the contract alone.
pub fn plan_of<'a>(
    kernel: &'a Kernel,
    case: &'a Case,
    table: &'a Table,
    tree: &'a Tree,
    tiling: &'a Tiling,
    list: &'a TileList,
    edges: Option<&'a TileEdges>,
    marked: &'a [usize],
    expansion: Option<&'a Expansion>,
) -> Plan<'a>
    requires limits { WithinLimits (program_of kernel.now) case.now.params.items }
    requires laid { case.now.extents ≡ layout (program_of kernel.now) case.now.params.items }
    requires inside { IsInside (program_of kernel.now) case.now.params.items }
    requires marks { AreMarked marked.now (walk_of (program_of kernel.now) case.now.params.items) }
    requires trees { MatchOption expansion
        (AreTreesOf (program_of kernel.now) marked.now (tiling_of tiling.now) (trees_in tree.now))
        (λ e. AreFlowTreesOf (program_of kernel.now) (tiling_of tiling.now) (trees_in tree.now)) }
    requires table { IsTableBy marked.now (program_of kernel.now) case.now.params.items table.now }
    requires tiles { IsTileListOf (trees_in tree.now) case.now.params.items (tiling_of tiling.now) list.now }
    requires edges { MatchOption edges ⊤ (λ e. AreEdgesOf (is_some expansion) (program_of kernel.now)
        case.now.params.items (tiling_of tiling.now) list.now e.now) }
    requires room { MatchOption edges ⊤ (λ e. HaveRoom list.now e.now) }
    requires alone { MatchOption edges ⊤ (λ e. marked.now ≡ []) }
    requires copies { MatchOption expansion ⊤ (λ e. IsExpansionOf (program_of kernel.now) case.now.params.items
        (trees_in tree.now) list.now e.now) }
    requires unmarked { MatchOption expansion ⊤ (λ e. marked.now ≡ []) }
    ensures plan { IsPlan result }
    ensures program { program_in result ≡ program_of kernel.now }
    ensures params { result.params.now ≡ case.now.params.items }
    ensures laid { extents_in result ≡ case.now.extents }
{
    trees_of_plans_can_be_walked();
    Plan {
        kernel,
        params: &case.params,
        table,
        tree,
        list,
        edges,
        marked,
        expansion,
    }
}

/// Puts the cells of these arrays behind those of the row, and runs the plan on them.
///
/// # Errors
/// `AllocError`; the row begins as it was.
fn run_row<W: Workers>(
    by: &W,
    alloc: Global,
    plan: Plan,
    row: &mut Vec<u64>,
    arrays: &Arrays,
    workers: usize,
) -> Result<(), AllocError>
    requires ready { W.ready by.now }
    requires plan { IsPlan plan }
    requires cells { length (row.old.items ++ flat arrays.now) ≡ (plain_shape plan).cells }
    requires some { 1 ≤ workers }
    requires few { workers ≤ 64 }
    ensures executed { IfOk result (λ _. Executes (program_in plan.entry) plan.entry.params.now (extents_in plan.entry)
        (row.old.items ++ flat arrays.now) row.new.items) }
    ensures begins { IfErr result (λ _. Begins row.old.items row.new.items) }
{
    let behind = copies_of(&plan).saturating_add(counters_of(&plan));
    append_all(row, arrays, behind.saturating_add(2))?;
    run_with_rest(by, alloc, plan, row, workers)
}

/// How many tiles and waves a list has, with so many pairs of tiles.
fn counts_of(list: &TileList, edges: Option<u64>) -> Counts
    ensures tiles { result.tiles ≡ length list.now.tiles.items }
    ensures waves { result.waves ≡ length list.now.offsets.items - 1 }
    ensures edges { result.edges ≡ edges }
{
    Counts {
        tiles: list.tiles.len() as u64,
        waves: list.waves() as u64,
        edges,
    }
}

/// What a run goes by, beside its tree: the tiles, the table of statements and, where there are such, the pairs of
/// tiles and the expansion.
#[derive(Drop)]
struct Parts {
    list: TileList,
    table: Table,
    pairs: Option<TileEdges>,
    expansion: Option<Expansion>,
}

/// The parts of a run. `cells` is how many cells all arrays have.
///
/// # Errors
/// `AllocError` alone.
fn parts_of(
    alloc: Global,
    kernel: &Kernel,
    case: &Case,
    tree: &Tree,
    tiling: &Tiling,
    marked: &[usize],
    sources: Option<Sources>,
    release: bool,
    cells: usize,
) -> Result<Parts, AllocError>
    requires limits { WithinLimits (program_of kernel.now) case.now.params.items }
    requires laid { case.now.extents ≡ layout (program_of kernel.now) case.now.params.items }
    requires inside { IsInside (program_of kernel.now) case.now.params.items }
    requires trees { MatchOption sources
        (AreTreesOf (program_of kernel.now) marked.now (tiling_of tiling.now) (trees_in tree.now))
        (λ s. AreFlowTreesOf (program_of kernel.now) (tiling_of tiling.now) (trees_in tree.now)) }
    requires fits { CanTile (tiling_of tiling.now) (visits (trees_in tree.now) case.now.params.items) }
    requires alone { release ≡ true → marked.now ≡ [] }
    requires sources { MatchOption sources ⊤ (AreSourcesOf (program_of kernel.now) case.now.params.items) }
    requires cells { cells ≡ total_cells (layout (program_of kernel.now) case.now.params.items) }
    ensures list { IfOk result (λ p.
        IsTileListOf (trees_in tree.now) case.now.params.items (tiling_of tiling.now) p.list) }
    ensures table { IfOk result (λ p. IsTableBy marked.now (program_of kernel.now) case.now.params.items p.table) }
    ensures edges { IfOk result (λ p. MatchOption p.pairs ⊤ (AreEdgesOf (is_some sources) (program_of kernel.now)
        case.now.params.items (tiling_of tiling.now) p.list)) }
    ensures room { IfOk result (λ p. MatchOption p.pairs ⊤ (HaveRoom p.list)) }
    ensures alone { IfOk result (λ p. MatchOption p.pairs ⊤ (λ e. marked.now ≡ [])) }
    ensures count { IfOk result (λ p. IsReleaseOf release (is_some sources) (tiling_of tiling.now)
        (walk_of (program_of kernel.now) case.now.params.items) (option_map (λ e. length e.targets.items) p.pairs)) }
    ensures copies { IfOk result (λ p. MatchOption p.expansion ⊤ (IsExpansionOf (program_of kernel.now)
        case.now.params.items (trees_in tree.now) p.list)) }
    ensures some { IfOk result (λ p. is_some p.expansion ≡ is_some sources) }
{
    let list = tiles_of(alloc, kernel, case, tree, tiling)?;
    let table = Table::of(alloc, kernel, &case.params, &case.extents, marked)?;
    let flow = sources.is_some();
    let pairs = edges_of(
        alloc, kernel, case, &table, tree, tiling, &list, release, flow,
    )?;
    let expansion = expansion_of(alloc, kernel, case, tree, &list, cells, sources)?;
    Ok(Parts {
        list,
        table,
        pairs,
        expansion,
    })
}

/// Puts the cells of the case's arrays behind those of the row, and runs the case on them; tells how many tiles, waves
/// and pairs of tiles it has.
///
/// # Errors
/// `AllocError`; the row begins as it was.
fn run_shared<W: Workers>(
    by: &W,
    alloc: Global,
    kernel: &Kernel,
    case: &Case,
    row: &mut Vec<u64>,
    tree: &Tree,
    tiling: &Tiling,
    marked: &[usize],
    sources: Option<Sources>,
    release: bool,
    workers: u64,
) -> Result<Counts, AllocError>
    requires ready { W.ready by.now }
    requires limits { WithinLimits (program_of kernel.now) case.now.params.items }
    requires laid { case.now.extents ≡ layout (program_of kernel.now) case.now.params.items }
    requires cells { length (row.old.items ++ flat case.now.arrays) ≡ total_cells case.now.extents }
    requires inside { IsInside (program_of kernel.now) case.now.params.items }
    requires marks { AreMarked marked.now (walk_of (program_of kernel.now) case.now.params.items) }
    requires trees { MatchOption sources
        (AreTreesOf (program_of kernel.now) marked.now (tiling_of tiling.now) (trees_in tree.now))
        (λ s. AreFlowTreesOf (program_of kernel.now) (tiling_of tiling.now) (trees_in tree.now)) }
    requires fits { CanTile (tiling_of tiling.now) (visits (trees_in tree.now) case.now.params.items) }
    requires alone { release ≡ true → marked.now ≡ [] }
    requires sources { MatchOption sources ⊤ (AreSourcesOf (program_of kernel.now) case.now.params.items) }
    requires unmarked { MatchOption sources ⊤ (λ s. marked.now ≡ []) }
    requires some { 1 ≤ workers }
    requires few { workers ≤ 64 }
    ensures executed { IfOk result (λ _. Executes (program_of kernel.now) case.now.params.items case.now.extents
        (row.old.items ++ flat case.now.arrays) row.new.items) }
    ensures begins { IfErr result (λ _. Begins row.old.items row.new.items) }
    ensures tiles { IfOk result (λ n.
        HasTiles (tiling_of tiling.now) (walked (program_of kernel.now) case.now.params.items) n.tiles) }
    ensures waves { IfOk result (λ n.
        HasWaves (tiling_of tiling.now) (walked (program_of kernel.now) case.now.params.items) n.waves) }
    ensures edges { IfOk result (λ n. IsReleaseOf release (is_some sources) (tiling_of tiling.now)
        (walk_of (program_of kernel.now) case.now.params.items) n.edges) }
{
    tiles_are_counted();
    let cells = cells_with(row, &case.arrays);
    let parts = parts_of(
        alloc, kernel, case, tree, tiling, marked, sources, release, cells,
    )?;
    let edges = parts.pairs.as_ref();
    let expansion = parts.expansion.as_ref();
    let plan = plan_of(
        kernel,
        case,
        &parts.table,
        tree,
        tiling,
        &parts.list,
        edges,
        marked,
        expansion,
    );
    run_row(by, alloc, plan, row, &case.arrays, workers as usize)?;
    Ok(counts_of(&parts.list, pairs_in(&parts.pairs)))
}

/// Runs a kernel's case by the tree of a plan, with so many workers; the arrays are then those of the kernel's own
/// execution. What writes a cell of a marked array adds to it, and waits for no other that does. Where the sources of
/// the walk's reads are given, each instance writes a copy of its own, and waits for those alone whose copies it
/// reads. Where `release` is true, and there are not more than 2^22 pairs of tiles of which the second waits for the
/// first, tiles are released one by one; else they are opened by waves.
///
/// # Errors
/// `AllocError`; the case is then as it was.
pub fn run_case<W: Workers>(
    by: &W,
    alloc: Global,
    kernel: &Kernel,
    case: &mut Case,
    tree: &Tree,
    tiling: &Tiling,
    marked: &[usize],
    sources: Option<Sources>,
    release: bool,
    workers: u64,
) -> Result<Counts, AllocError>
    requires ready { W.ready by.now }
    requires limits { WithinLimits (program_of kernel.now) case.old.params.items }
    requires laid { case.old.extents ≡ layout (program_of kernel.now) case.old.params.items }
    requires shape { IsShaped case.old.extents case.old.arrays }
    requires inside { IsInside (program_of kernel.now) case.old.params.items }
    requires marks { AreMarked marked.now (walk_of (program_of kernel.now) case.old.params.items) }
    requires trees { MatchOption sources
        (AreTreesOf (program_of kernel.now) marked.now (tiling_of tiling.now) (trees_in tree.now))
        (λ s. AreFlowTreesOf (program_of kernel.now) (tiling_of tiling.now) (trees_in tree.now)) }
    requires fits { CanTile (tiling_of tiling.now) (visits (trees_in tree.now) case.old.params.items) }
    requires alone { release ≡ true → marked.now ≡ [] }
    requires sources { MatchOption sources ⊤ (AreSourcesOf (program_of kernel.now) case.old.params.items) }
    requires unmarked { MatchOption sources ⊤ (λ s. marked.now ≡ []) }
    requires workers { (1 ≤ workers) × (workers ≤ 64) }
    ensures arrays { IfOk result (λ _. case.new.arrays
        ≡ exec (program_of kernel.now) case.old.params.items case.old.arrays) }
    ensures tiles { IfOk result (λ n.
        HasTiles (tiling_of tiling.now) (walked (program_of kernel.now) case.old.params.items) n.tiles) }
    ensures waves { IfOk result (λ n.
        HasWaves (tiling_of tiling.now) (walked (program_of kernel.now) case.old.params.items) n.waves) }
    ensures edges { IfOk result (λ n. IsReleaseOf release (is_some sources) (tiling_of tiling.now)
        (walk_of (program_of kernel.now) case.old.params.items) n.edges) }
    ensures params { case.new.params.items ≡ case.old.params.items }
    ensures extents { case.new.extents ≡ case.old.extents }
    ensures shape { IsShaped case.new.extents case.new.arrays }
    ensures unchanged { IfErr result (λ _. case.new.arrays ≡ case.old.arrays) }
{
    let mut row = take_first(alloc, &mut case.arrays);
    let first = row.len();
    match run_shared(
        by, alloc, kernel, case, &mut row, tree, tiling, marked, sources, release, workers,
    ) {
        Ok(counts) => {
            give_back(&mut case.arrays, row, first);
            Ok(counts)
        }
        Err(AllocError) => {
            give_first(&mut case.arrays, row, first);
            Err(AllocError)
        }
    }
}
