//! A plan of a kernel for some parameters: its loop tree, cut into tiles in waves, and what each instance touches and
//! stores.
ghost use Rattle.std.specs.Prelude.{◌≡◌, ◌+◌, ◌<◌, ◌≤◌, Some, get_or, length, slice_get, true};
ghost use Rattle.scop_syntax.specs.Members.{In};
ghost use Rattle.scop_syntax.specs.View.{instance_of};
ghost use Rattle.tile_table.specs.Desks.{HasRoomForAll};
ghost use Rattle.tile_core.specs.Rows.{IsRowAt};
ghost use Rattle.tile_events.specs.Core.{needed_by};
ghost use Rattle.tile_core.specs.Plans.{HaveRoom, IsPlan, place_of, places_in, shape_of, walk_shape};

use crate::expansion::Expansion;
use crate::plan_laws::{rows_tell_instances, walks_are_dealt};
use loop_tree::Tree;
use scop_syntax::{Instance, Kernel};
use tile_edges::TileEdges;
use tile_list::{Tile, TileList};
use tile_table::{Desk, Row, Table};

/// A kernel with its parameters, the table of its statements, the tree of a plan of it, and the tiles of its visits. Where
/// it has the pairs of these of which one waits for the other, a tile is opened once all that lead to it have released
/// it, else once all tiles of earlier waves are finished. What writes a cell of one of the arrays that are marked adds to
/// it, without a load of it, and waits for no other that does. Where it has an expansion, each instance writes a copy of its
/// own and reads those of its sources, for which alone it waits.
#[derive(Clone, Copy)]
pub struct Plan<'a> {
    pub kernel: &'a Kernel,
    pub params: &'a [i64],
    pub table: &'a Table,
    pub tree: &'a Tree,
    pub list: &'a TileList,
    pub edges: Option<&'a TileEdges>,
    pub marked: &'a [usize],
    pub expansion: Option<&'a Expansion>,
}

/// The tile with this number.
#[inline]
fn tile_at(tiles: &[Tile], at: usize) -> &Tile
    requires { at < length tiles.now }
    ensures { slice_get tiles.now at ≡ Some result.now }
{
    &tiles[at]
}

/// Whether the instances of each tile and all pairs can be counted in 64 bits.
pub fn have_room(list: &TileList, edges: &TileEdges) -> bool
    ensures { result ≡ true → HaveRoom list.now edges.now }
{
    for tile in &list.tiles {
        if tile.size > usize::MAX - edges.targets.len() {
            return false;
        }
    }
    true
}

/// The number there.
#[inline]
fn number_at(numbers: &[usize], at: usize) -> usize
    requires { at < length numbers.now }
    ensures { slice_get numbers.now at ≡ Some result }
{
    numbers[at]
}

impl<'a> Plan<'a> {
    /// How many tiles there are.
    #[inline]
    pub fn tiles(&self) -> u64
        ensures { result ≡ (shape_of self.now).tiles }
    {
        self.list.tiles.len() as u64
    }

    /// A tile.
    #[inline]
    pub fn tile(&self, tile: u64) -> &Tile
        requires { tile < (shape_of self.now).tiles }
        ensures { slice_get self.now.list.now.tiles.items tile ≡ Some result.now }
    {
        tile_at(&self.list.tiles, tile as usize)
    }

    /// How much has to be seen before the tile may be opened: how many tiles are finished, or how many have released it.
    pub fn needs(&self, tile: u64) -> u64
        requires plan { IsPlan self.now }
        requires tile { tile < (shape_of self.now).tiles }
        ensures { result ≡ needed_by (shape_of self.now).gate (shape_of self.now) tile }
    {
        walks_are_dealt();
        match self.edges {
            None => number_at(&self.list.offsets, self.tile(tile).wave) as u64,
            Some(edges) => edges.needs[tile as usize],
        }
    }

    /// How many instances the tile has.
    #[inline]
    pub fn instances(&self, tile: u64) -> usize
        requires plan { IsPlan self.now }
        requires tile { tile < (shape_of self.now).tiles }
        ensures { result ≡ (walk_shape self.now).size tile }
    {
        self.tile(tile).size
    }

    /// How many tiles it releases.
    pub fn successors(&self, tile: u64) -> usize
        requires plan { IsPlan self.now }
        requires tile { tile < (shape_of self.now).tiles }
        ensures { (walk_shape self.now).size tile + result ≡ (shape_of self.now).size tile }
    {
        match self.edges {
            None => 0,
            Some(edges) => edges.starts[tile as usize + 1] - edges.starts[tile as usize],
        }
    }

    /// How many acts it has: its instances, and behind them the releases of others.
    pub fn size(&self, tile: u64) -> usize
        requires plan { IsPlan self.now }
        requires tile { tile < (shape_of self.now).tiles }
        ensures { result ≡ (shape_of self.now).size tile }
    {
        self.instances(tile) + self.successors(tile)
    }

    /// The tile that it releases behind so many others: the act adds to the counter of that one, which stands behind the
    /// cells of all arrays.
    pub fn successor(&self, tile: u64, released: usize) -> u64
        requires plan { IsPlan self.now }
        requires tile { tile < (shape_of self.now).tiles }
        requires left { (walk_shape self.now).size tile + released < (shape_of self.now).size tile }
        ensures tile { result < (shape_of self.now).tiles }
        ensures counter { (shape_of self.now).written
            ((shape_of self.now).place tile ((walk_shape self.now).size tile + released))
            ≡ (walk_shape self.now).cells + result }
    {
        let Some(edges) = self.edges else {
            unreachable!()
        };
        edges.targets[edges.starts[tile as usize] + released] as u64
    }

    /// The row of the instance's statement.
    #[inline]
    pub fn row(&self, instance: &Instance) -> &Row
        requires plan { IsPlan self.now }
        requires walked { In (instance_of instance.now) (places_in self.now) }
        ensures row { slice_get self.now.table.now.rows.items instance.now.statement ≡ Some result.now }
        ensures tells { IsRowAt self.now result.now (instance_of instance.now) }
    {
        rows_tell_instances();
        self.table.row(instance.statement)
    }

    /// How many cells the instance reads.
    #[inline]
    pub fn reads(&self, instance: &Instance) -> usize
        requires plan { IsPlan self.now }
        requires walked { In (instance_of instance.now) (places_in self.now) }
        ensures count { result ≡ length ((walk_shape self.now).read (place_of self.now instance.now)) }
        ensures few { result ≤ 16 }
    {
        self.row(instance).reads()
    }

    /// The cell of read `read` of instance `done` of a tile, by its number among those of all arrays and the copies behind
    /// them.
    #[inline]
    pub fn cell_read(&self, instance: &Instance, tile: u64, done: usize, read: usize) -> usize
        requires plan { IsPlan self.now }
        requires walked { In (instance_of instance.now) (places_in self.now) }
        requires tile { tile < (walk_shape self.now).tiles }
        requires left { done < (walk_shape self.now).size tile }
        requires place { place_of self.now instance.now ≡ (walk_shape self.now).place tile done }
        requires read { read < length ((walk_shape self.now).read (place_of self.now instance.now)) }
        ensures cell { result ≡ get_or ((walk_shape self.now).read (place_of self.now instance.now)) read 0 }
        ensures inside { result < (walk_shape self.now).cells }
    {
        walks_are_dealt();
        let own = self.row(instance).cell_at(instance.turns(), read + 1);
        match self.expansion {
            None => own,
            Some(expansion) => expansion.cell_read(own, expansion.place(tile, done), read),
        }
    }

    /// The cell that instance `done` of a tile writes, by its number among those of all arrays and the copies behind them.
    #[inline]
    pub fn cell_written(&self, instance: &Instance, tile: u64, done: usize) -> usize
        requires plan { IsPlan self.now }
        requires walked { In (instance_of instance.now) (places_in self.now) }
        requires tile { tile < (walk_shape self.now).tiles }
        requires left { done < (walk_shape self.now).size tile }
        requires place { place_of self.now instance.now ≡ (walk_shape self.now).place tile done }
        ensures cell { result ≡ (walk_shape self.now).written (place_of self.now instance.now) }
        ensures inside { result < (walk_shape self.now).cells }
    {
        walks_are_dealt();
        match self.expansion {
            None => self.row(instance).cell_at(instance.turns(), 0),
            Some(expansion) => expansion.cells + expansion.place(tile, done),
        }
    }

    /// Whether the instance adds to its cell; else it stores there.
    #[inline]
    pub fn adds(&self, instance: &Instance) -> bool
        requires plan { IsPlan self.now }
        requires walked { In (instance_of instance.now) (places_in self.now) }
        ensures { result ≡ (walk_shape self.now).adds ((walk_shape self.now).written (place_of self.now instance.now)) }
    {
        self.row(instance).adds
    }

    /// What the instance stores or adds, where its reads have these values. The desk is laid anew for it.
    pub fn value(&self, desk: &mut Desk, instance: &Instance, reads: &[u64]) -> u64
        requires plan { IsPlan self.now }
        requires walked { In (instance_of instance.now) (places_in self.now) }
        requires reads { length reads.now ≡ length ((walk_shape self.now).read (place_of self.now instance.now)) }
        requires desk { HasRoomForAll self.now.table.now desk.old }
        ensures value { result ≡ (walk_shape self.now).value (place_of self.now instance.now) reads.now }
        ensures desk { HasRoomForAll self.now.table.now desk.new }
    {
        rows_tell_instances();
        self.table.value(desk, instance, reads)
    }
}
