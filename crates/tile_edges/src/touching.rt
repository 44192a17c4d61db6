//! What is kept of each cell: the tile of its last writer, and unless flow alone counts, those of its readers since
//! then.
ghost use Rattle.std.specs.Prelude.{◌≡◌, ◌<◌, ◌≤◌, ℕ, [], OnOk, false, get_or, length, slice_set, suc, true};
ghost use Rattle.scop_syntax.specs.Members.{In};
ghost use Rattle.tile_edges.specs.steps.Gains.{Gains};
ghost use Rattle.tile_edges.specs.steps.Rows.{AreKept, rows_in};
ghost use Rattle.tile_edges.specs.steps.Touches.{AreEven, HasEntered, HasRoom, HasTile, KeepSame, marks_in, readers_in};
ghost use Rattle.tile_edges.specs.steps.Traces.{HasVisited, met, met_at};

use crate::pairing::Pairs;
use std::alloc::{AllocError, Global};

/// Of each cell a mark, 0 or one more than the tile of its last writer, and the tiles of its readers since then, unless
/// flow alone counts.
#[derive(Drop)]
pub struct Traces {
    pub marks: Vec<usize>,
    pub readers: Vec<Vec<usize>>,
}

/// Whether the list ends with the tile.
fn ends_with(list: &[usize], tile: usize) -> bool
    ensures { result ≡ true → In tile list.now }
{
    match list.last() {
        None => false,
        Some(last) => *last == tile,
    }
}

/// The tile stands in the list.
fn enter(list: &mut Vec<usize>, tile: usize) -> Result<(), AllocError>
    ensures { OnOk result (HasTile tile list.old.items list.new.items) }
{
    if ends_with(list.as_slice(), tile) {
        return Ok(());
    }
    list.push(tile)?;
    Ok(())
}

impl Traces {
    /// Nothing is kept of any cell.
    pub fn none(alloc: Global) -> Traces
        ensures even { AreEven result }
        ensures marks { marks_in result ≡ [] }
        ensures readers { readers_in result ≡ [] }
    {
        Traces {
            marks: Vec::new(alloc),
            readers: Vec::new(alloc),
        }
    }

    /// Makes room for a cell.
    fn reach(&mut self, alloc: Global, cell: usize) -> Result<(), AllocError>
        requires { AreEven self.old }
        ensures even { OnOk result (AreEven self.new) }
        ensures same { OnOk result (KeepSame self.old self.new) }
        ensures room { OnOk result (cell < length self.new.marks.items) }
    {
        while self.marks.len() <= cell {
            self.marks.push(0)?;
            self.readers.push(Vec::new(alloc))?;
        }
        Ok(())
    }

    /// Makes room for cells.
    pub fn reach_all(&mut self, alloc: Global, cells: &[usize]) -> Result<(), AllocError>
        requires { AreEven self.old }
        ensures even { OnOk result (AreEven self.new) }
        ensures same { OnOk result (KeepSame self.old self.new) }
        ensures room { OnOk result (HasRoom cells.now self.new) }
    {
        for cell in cells {
            self.reach(alloc, *cell)?;
        }
        Ok(())
    }

    /// The tile waits for the last writers of cells.
    fn meet_writers(
        &self,
        cells: &[usize],
        tile: usize,
        pairs: &mut Pairs,
    ) -> Result<(), AllocError>
        requires room { HasRoom cells.now self.now }
        requires tiles { (t : ℕ) → In t (met (marks_in self.now) cells.now) → t < length pairs.old.rows.items }
        requires kept { AreKept pairs.old }
        ensures gains { OnOk result (Gains (met (marks_in self.now) cells.now) tile (rows_in pairs.old)
            (rows_in pairs.new)) }
        ensures kept { OnOk result (AreKept pairs.new) }
    {
        for cell in cells {
            pairs.add_marked(self.marks[*cell], tile)?;
        }
        Ok(())
    }

    /// The tiles of a cell's readers.
    fn readers(&self, cell: usize) -> &[usize]
        requires { cell < length self.now.readers.items }
        ensures { result.now ≡ get_or (readers_in self.now) cell [] }
    {
        &self.readers[cell]
    }

    /// The tile waits for those that are met where it reads cells, and then writes one: for the writer and the readers
    /// of that one unless flow alone counts.
    pub fn meet(
        &self,
        cells: &[usize],
        cell: usize,
        tile: usize,
        flow: bool,
        pairs: &mut Pairs,
    ) -> Result<(), AllocError>
        requires even { AreEven self.now }
        requires room { HasRoom cells.now self.now }
        requires written { cell < length self.now.marks.items }
        requires tiles { (t : ℕ) → In t (met_at flow (marks_in self.now) (readers_in self.now) cell cells.now)
            → t < length pairs.old.rows.items }
        requires kept { AreKept pairs.old }
        ensures gains { OnOk result (Gains (met_at flow (marks_in self.now) (readers_in self.now) cell cells.now) tile
            (rows_in pairs.old) (rows_in pairs.new)) }
        ensures kept { OnOk result (AreKept pairs.new) }
    {
        self.meet_writers(cells, tile, pairs)?;
        if flow {
            return Ok(());
        }
        pairs.add_marked(self.marks[cell], tile)?;
        pairs.add_all(self.readers(cell), tile)?;
        Ok(())
    }

    /// The tile reads cells, which is kept unless flow alone counts.
    fn read(&mut self, cells: &[usize], tile: usize, flow: bool) -> Result<(), AllocError>
        requires even { AreEven self.old }
        requires room { HasRoom cells.now self.old }
        ensures even { OnOk result (AreEven self.new) }
        ensures marks { OnOk result (self.new.marks ≡ self.old.marks) }
        ensures entered { OnOk result (flow ≡ false
            → HasEntered tile cells.now (readers_in self.old) (readers_in self.new)) }
    {
        if flow {
            return Ok(());
        }
        for cell in cells {
            enter(&mut self.readers[*cell], tile)?;
        }
        Ok(())
    }

    /// The tile writes a cell.
    fn write(&mut self, cell: usize, tile: usize) -> Result<(), AllocError>
        requires even { AreEven self.old }
        requires room { cell < length self.old.marks.items }
        ensures even { OnOk result (AreEven self.new) }
        ensures mark { OnOk result (marks_in self.new ≡ slice_set (marks_in self.old) cell (suc tile)) }
        ensures readers { OnOk result (readers_in self.new ≡ slice_set (readers_in self.old) cell []) }
    {
        match tile.checked_add(1) {
            None => Err(AllocError),
            Some(mark) => {
                self.marks[cell] = mark;
                self.readers[cell].clear();
                Ok(())
            }
        }
    }

    /// The tile reads cells, and then writes one.
    pub fn visit(
        &mut self,
        cells: &[usize],
        cell: usize,
        tile: usize,
        flow: bool,
    ) -> Result<(), AllocError>
        requires even { AreEven self.old }
        requires room { HasRoom cells.now self.old }
        requires written { cell < length self.old.marks.items }
        ensures even { OnOk result (AreEven self.new) }
        ensures visited { OnOk result (HasVisited flow tile cell cells.now (marks_in self.old) (readers_in self.old)
            (marks_in self.new) (readers_in self.new)) }
    {
        self.read(cells, tile, flow)?;
        self.write(cell, tile)?;
        Ok(())
    }
}
