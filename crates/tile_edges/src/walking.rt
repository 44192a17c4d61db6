//! One pass over a kernel's walk: which tiles meet at which cells.
ghost use Rattle.std.specs.Prelude.{◌≡◌, ◌∷◌, ◌<◌, ◌≤◌, ℕ, ℤ, IfOk, List, OnOk, Some, [], length, slice_get};
ghost use Rattle.scop_syntax.specs.Members.{In};
ghost use Rattle.scop_syntax.specs.View.{instance_of, program_of};
ghost use Rattle.loop_tree.specs.Conditions.{CanWalk};
ghost use Rattle.loop_tree.specs.SpotView.{to_come};
ghost use Rattle.loop_tree.specs.TilingView.{tiling_of};
ghost use Rattle.loop_tree.specs.View.{trees_in};
ghost use Rattle.tile_table.specs.Desks.{HasRoom, HasRoomForAll, IsLaid};
ghost use Rattle.tile_table.specs.declared.table.Row.{Row as GivenRow};
ghost use Rattle.tile_list.specs.Tiles.{RowsFit};
ghost use Rattle.tile_edges.specs.Edges.{IsTileOf};
ghost use Rattle.tile_edges.specs.steps.Ahead.{IsPassing, LieIn, to_come_on};
ghost use Rattle.tile_edges.specs.steps.Finding.{FirstsFit, HasTileOf, IsFinder, TilesRise};
ghost use Rattle.tile_edges.specs.steps.Gains.{Gains};
ghost use Rattle.tile_edges.specs.steps.Rows.{AreKept, joined, rows_in};
ghost use Rattle.tile_edges.specs.steps.Touches.{AreEven, marks_in, readers_in};
ghost use Rattle.tile_edges.specs.steps.Traces.{HasVisited, met_at};
ghost use Rattle.tile_edges.specs.steps.Walks.{AreFound, CanPass, CanTake, HasTaken, IsOnItsWay, IsTaken, cells_at};

use crate::finding::Finder;
use crate::pairing::Pairs;
use crate::stretching::go_along;
use crate::touching::Traces;
use loop_tree::{Spot, Tiling, Tree};
use scop_syntax::{
    Instance, Kernel, cells_lie_within_22_bits, instances_are_those_of_statements,
    statements_are_numbered,
};
use std::alloc::{AllocError, Global};
use tile_list::TileList;
use tile_table::{Desk, Row, Table};

/// Pairs of tiles that are kept.
pub const MOST_EDGES: usize = 4194304;

/// Where the search for tiles stands, what is kept of cells, the pairs so far, a desk for what lies ahead, and room for a
/// place's cells.
#[derive(Drop)]
pub struct Pass {
    pub finder: Finder,
    pub traces: Traces,
    pub pairs: Pairs,
    pub desk: Desk,
    pub cells: Vec<usize>,
}

/// The numbers of the cells that a row's accesses touch at these turns, the written one first.
fn put_cells(row: &Row, turns: &[i64], cells: &mut Vec<usize>) -> Result<(), AllocError>
    ensures { OnOk result (cells.new.items ≡ cells_at row.now turns.now) }
{
    cells.clear();
    for access in 0..row.cells.len() {
        cells.push(row.cell_at(turns, access))?;
    }
    Ok(())
}

/// The same where the row is laid on a desk.
fn put_laid(row: &Row, desk: &Desk, cells: &mut Vec<usize>) -> Result<(), AllocError>
    requires { HasRoom row.now desk.now }
    ensures { OnOk result ((steps turns : List ℤ) → IsLaid row.now steps turns desk.now
        → cells.new.items ≡ cells_at row.now turns) }
{
    cells.clear();
    for access in 0..row.cells.len() {
        cells.push(row.cell(desk, access))?;
    }
    Ok(())
}

/// A tile holds a place that reads cells and then writes one; `cells` are these, the written one first.
fn take(
    alloc: Global,
    cells: &[usize],
    written: usize,
    read: &[usize],
    tile: usize,
    flow: bool,
    traces: &mut Traces,
    pairs: &mut Pairs,
) -> Result<(), AllocError>
    requires cells { cells.now ≡ written ∷ read.now }
    requires can { CanTake flow cells.now traces.old pairs.old }
    ensures even { OnOk result (AreEven traces.new) }
    ensures kept { OnOk result (AreKept pairs.new) }
    ensures visited { OnOk result (HasVisited flow tile written read.now (marks_in traces.old) (readers_in traces.old)
        (marks_in traces.new) (readers_in traces.new)) }
    ensures gains { OnOk result (Gains (met_at flow (marks_in traces.old) (readers_in traces.old) written read.now) tile
        (rows_in pairs.old) (rows_in pairs.new)) }
{
    traces.reach_all(alloc, cells)?;
    traces.meet(read, written, tile, flow, pairs)?;
    traces.visit(read, written, tile, flow)?;
    Ok(())
}

/// A tile holds a place that touches these cells, the first by writing it.
fn take_all(
    alloc: Global,
    cells: &[usize],
    tile: usize,
    flow: bool,
    traces: &mut Traces,
    pairs: &mut Pairs,
) -> Result<(), AllocError>
    requires { CanTake flow cells.now traces.old pairs.old }
    ensures { OnOk result (HasTaken flow cells.now tile traces.old pairs.old traces.new pairs.new) }
{
    match cells.split_first() {
        None => Ok(()),
        Some((written, read)) => {
            take(alloc, cells, *written, read, tile, flow, traces, pairs)?;
            Ok(())
        }
    }
}

impl Pass {
    /// No place was passed.
    fn of(
        alloc: Global,
        table: &Table,
        tiling: &Tiling,
        list: &TileList,
    ) -> Result<Pass, AllocError>
        requires { FirstsFit (tiling_of tiling.now) list.now.tiles.items }
        ensures finder { IfOk result (λ pass. IsFinder (tiling_of tiling.now) list.now pass.finder) }
        ensures room { IfOk result (λ pass. HasRoomForAll table.now pass.desk) }
        ensures even { IfOk result (λ pass. AreEven pass.traces) }
        ensures marks { IfOk result (λ pass. marks_in pass.traces ≡ []) }
        ensures readers { IfOk result (λ pass. readers_in pass.traces ≡ []) }
        ensures long { IfOk result (λ pass. length pass.pairs.rows.items ≡ length list.now.tiles.items) }
        ensures none { IfOk result (λ pass. joined (rows_in pass.pairs) ≡ []) }
        ensures kept { IfOk result (λ pass. AreKept pass.pairs) }
    {
        let finder = Finder::of(alloc, tiling, list)?;
        let pairs = Pairs::none(alloc, list.tiles.len())?;
        let desk = table.desk(alloc)?;
        Ok(Pass {
            finder,
            traces: Traces::none(alloc),
            pairs,
            desk,
            cells: Vec::new(alloc),
        })
    }

    /// Passes the place of an instance.
    fn pass(
        &mut self,
        alloc: Global,
        table: &Table,
        tiling: &Tiling,
        list: &TileList,
        flow: bool,
        instance: &Instance,
    ) -> Result<(), AllocError>
        requires row { instance.now.statement < length table.now.rows.items }
        requires fits { RowsFit (tiling_of tiling.now) (instance_of instance.now) }
        requires rise { TilesRise (tiling_of tiling.now) list.now.tiles.items }
        requires finder { IsFinder (tiling_of tiling.now) list.now self.old.finder }
        requires there { HasTileOf (tiling_of tiling.now) list.now (instance_of instance.now) }
        requires take { (row : GivenRow) → slice_get table.now.rows.items instance.now.statement ≡ Some row
            → CanTake flow (cells_at row (instance_of instance.now).turns) self.old.traces self.old.pairs }
        ensures finder { OnOk result (IsFinder (tiling_of tiling.now) list.now self.new.finder) }
        ensures here { OnOk result (IsTileOf (tiling_of tiling.now) list.now self.new.finder.at (instance_of instance.now)) }
        ensures desk { self.new.desk ≡ self.old.desk }
        ensures taken { OnOk result ((row : GivenRow)
            → slice_get table.now.rows.items instance.now.statement ≡ Some row
            → IsTaken flow (tiling_of tiling.now) list.now (instance_of instance.now)
            (cells_at row (instance_of instance.now).turns) self.old.traces self.old.pairs self.new.traces
            self.new.pairs) }
    {
        let tile = self.finder.find(tiling, list, instance)?;
        put_cells(
            table.row(instance.statement),
            instance.turns(),
            &mut self.cells,
        )?;
        take_all(
            alloc,
            self.cells.as_slice(),
            tile,
            flow,
            &mut self.traces,
            &mut self.pairs,
        )?;
        Ok(())
    }
}

/// Passes so many of the next places of a stretch, which lie in the tile that was found last: the cells of each by a sum an
/// access.
fn take_ahead(
    alloc: Global,
    kernel: &Kernel,
    source: &Tree,
    params: &[i64],
    table: &Table,
    tiling: &Tiling,
    list: &TileList,
    flow: bool,
    spot: &Spot,
    count: u64,
    pass: &mut Pass,
) -> Result<(), AllocError>
    requires can { CanPass (program_of kernel.now) params.now (tiling_of tiling.now) list.now table.now }
    requires some { 1 ≤ count }
    requires few { count ≤ spot.now.stretch.left }
    requires tile { LieIn (tiling_of tiling.now) list.now pass.old.finder.at spot.now.stretch count }
    requires room { HasRoomForAll table.now pass.old.desk }
    requires way { IsOnItsWay flow (program_of kernel.now) params.now (tiling_of tiling.now) list.now
        (to_come (trees_in source.now) params.now spot.now) pass.old.traces pass.old.pairs }
    ensures finder { OnOk result (pass.new.finder ≡ pass.old.finder) }
    ensures room { OnOk result (HasRoomForAll table.now pass.new.desk) }
    ensures way { OnOk result (IsOnItsWay flow (program_of kernel.now) params.now (tiling_of tiling.now) list.now
        (to_come_on (trees_in source.now) params.now spot.now count) pass.new.traces pass.new.pairs) }
{
    instances_are_those_of_statements();
    statements_are_numbered();
    cells_lie_within_22_bits();
    let before = &spot.stretch.before;
    let tile = pass.finder.at;
    let row = table.row(before.statement);
    let steps = &spot.stretch.steps[..before.loops];
    row.lay(&mut pass.desk, before.turns(), steps);
    for _ in 0..count {
        row.go_on(&mut pass.desk);
        put_laid(row, &pass.desk, &mut pass.cells)?;
        let cells = pass.cells.as_slice();
        take_all(alloc, cells, tile, flow, &mut pass.traces, &mut pass.pairs)?;
    }
    Ok(())
}

/// Passes the places of the stretch behind an instance that was passed, as far as its tile surely holds them.
fn pass_ahead(
    alloc: Global,
    kernel: &Kernel,
    source: &Tree,
    params: &[i64],
    table: &Table,
    tiling: &Tiling,
    list: &TileList,
    flow: bool,
    passed: &Instance,
    spot: &mut Spot,
    pass: &mut Pass,
) -> Result<(), AllocError>
    requires can { CanPass (program_of kernel.now) params.now (tiling_of tiling.now) list.now table.now }
    requires front { IsTileOf (tiling_of tiling.now) list.now pass.old.finder.at (instance_of passed.now) }
    requires passing { IsPassing flow (program_of kernel.now) params.now (trees_in source.now) (tiling_of tiling.now)
        list.now table.now spot.old pass.old }
    ensures passing { OnOk result (IsPassing flow (program_of kernel.now) params.now (trees_in source.now)
        (tiling_of tiling.now) list.now table.now spot.new pass.new) }
    ensures fewer { OnOk result (length (to_come (trees_in source.now) params.now spot.new)
        ≤ length (to_come (trees_in source.now) params.now spot.old)) }
{
    if !spot.stretch.follows(passed) {
        return Ok(());
    }
    let count = pass.finder.ahead(tiling, list, &spot.stretch)?;
    if count == 0 {
        return Ok(());
    }
    take_ahead(
        alloc, kernel, source, params, table, tiling, list, flow, spot, count, pass,
    )?;
    go_along(&mut spot.stretch, count);
    Ok(())
}

/// Passes the places that are left, until there are too many pairs.
fn pass_rest(
    alloc: Global,
    kernel: &Kernel,
    source: &Tree,
    params: &[i64],
    table: &Table,
    tiling: &Tiling,
    list: &TileList,
    flow: bool,
    spot: &mut Spot,
    pass: &mut Pass,
) -> Result<(), AllocError>
    requires can { CanPass (program_of kernel.now) params.now (tiling_of tiling.now) list.now table.now }
    requires walk { CanWalk (trees_in source.now) params.now [] }
    requires passing { IsPassing flow (program_of kernel.now) params.now (trees_in source.now) (tiling_of tiling.now)
        list.now table.now spot.old pass.old }
    ensures { OnOk result (AreFound flow (program_of kernel.now) params.now (tiling_of tiling.now) list.now 4194304
        pass.new.pairs) }
{
    instances_are_those_of_statements();
    statements_are_numbered();
    cells_lie_within_22_bits();
    while let Some(instance) = spot.next(source, params) {
        pass.pass(alloc, table, tiling, list, flow, &instance)?;
        pass_ahead(
            alloc, kernel, source, params, table, tiling, list, flow, &instance, spot, pass,
        )?;
        if pass.pairs.count > MOST_EDGES {
            return Ok(());
        }
    }
    Ok(())
}

/// The pairs of tiles that a kernel's walk tells, or more than there may be, by flow alone or by all covers.
pub(crate) fn pairs_of(
    alloc: Global,
    kernel: &Kernel,
    params: &[i64],
    table: &Table,
    tiling: &Tiling,
    list: &TileList,
    flow: bool,
) -> Result<Pairs, AllocError>
    requires { CanPass (program_of kernel.now) params.now (tiling_of tiling.now) list.now table.now }
    ensures { IfOk result (AreFound flow (program_of kernel.now) params.now (tiling_of tiling.now) list.now 4194304) }
{
    let source = Tree::of_source(alloc, kernel)?;
    let mut spot = Spot::of(alloc, &source)?;
    let mut pass = Pass::of(alloc, table, tiling, list)?;
    pass_rest(
        alloc, kernel, &source, params, table, tiling, list, flow, &mut spot, &mut pass,
    )?;
    Ok(pass.pairs)
}
