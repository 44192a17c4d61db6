//! What a run knows in which each instance writes a copy of its own, and a read takes that of its source, the instance
//! which wrote its cell last (P. Feautrier, "Array expansion", ICS 1988): copy `j`, behind the cells of all arrays, is that
//! of place `j` of the walk. Promises to tell the number of each cell that an instance touches.
ghost use Rattle.std.specs.Prelude.{[], ◌≡◌, ◌+◌, ◌*◌, ◌<◌, ◌≤◌, ℕ, IfOk, Some, get_or, length, slice_get, suc};
ghost use Rattle.scop_syntax.specs.Execution.{layout, total_cells};
ghost use Rattle.scop_syntax.specs.Limits.{WithinLimits};
ghost use Rattle.scop_syntax.specs.View.{program_of};
ghost use Rattle.loop_tree.specs.Conditions.{CanWalk};
ghost use Rattle.loop_tree.specs.View.{trees_in};
ghost use Rattle.loop_tree.specs.Walk.{visits};
ghost use Rattle.expansions.specs.Expansions.{AreSourcesOf, AreWalked};
ghost use Rattle.tile_core.specs.Expansions.{IsExpansionOf};
ghost use Rattle.tile_core.specs.Ranks.{sizes_of, start_at};

use expansions::{Sources, places_of_visits};
use loop_tree::Tree;
use scop_syntax::Kernel;
use std::alloc::{AllocError, Global};
use tile_list::{Tile, TileList};

/// How many cells all arrays have; of each read of the walk its source; of each visit of the plan's tree, in turn, its place
/// in the walk; and of each tile how many visits stand before it.
#[derive(Drop)]
pub struct Expansion {
    pub cells: usize,
    pub sources: Sources,
    pub places: Vec<u32>,
    pub starts: Vec<u32>,
}

/// The start of the tile behind one; memory is wanting where it does not fit 32 bits.
fn after(start: u32, size: usize) -> Result<u32, AllocError>
    ensures { IfOk result (λ n. n ≡ start + size) }
{
    match (start as usize).checked_add(size) {
        Some(end) if end <= u32::MAX as usize => Ok(end as u32),
        _ => Err(AllocError),
    }
}

/// How many visits stand before each tile; memory is wanting where they are too many to count in 32 bits.
fn starts_of(alloc: Global, tiles: &[Tile]) -> Result<Vec<u32>, AllocError>
    ensures { IfOk result (λ v. (t : ℕ) → t < length tiles.now
        → slice_get v.items t ≡ Some (start_at (sizes_of tiles.now) t)) }
{
    let mut starts = Vec::new(alloc);
    let mut start = 0u32;
    for tile in tiles {
        starts.push(start)?;
        start = after(start, tile.size)?;
    }
    Ok(starts)
}

impl Expansion {
    /// The expansion of a plan whose tree and tiles these are. `cells` is how many cells all arrays have.
    ///
    /// # Errors
    /// `AllocError` alone.
    pub fn of(
        alloc: Global,
        kernel: &Kernel,
        params: &[i64],
        tree: &Tree,
        list: &TileList,
        cells: usize,
        sources: Sources,
    ) -> Result<Expansion, AllocError>
        requires limits { WithinLimits (program_of kernel.now) params.now }
        requires walk { CanWalk (trees_in tree.now) params.now [] }
        requires walked { AreWalked (program_of kernel.now) params.now (visits (trees_in tree.now) params.now) }
        requires cells { cells ≡ total_cells (layout (program_of kernel.now) params.now) }
        requires sources { AreSourcesOf (program_of kernel.now) params.now sources }
        ensures { IfOk result (IsExpansionOf (program_of kernel.now) params.now (trees_in tree.now) list.now) }
    {
        let places = places_of_visits(alloc, kernel, params, tree)?;
        let starts = starts_of(alloc, list.tiles.as_slice())?;
        Ok(Expansion {
            cells,
            sources,
            places,
            starts,
        })
    }

    /// The place of the walk at which instance `done` of a tile stands.
    #[inline]
    pub(crate) fn place(&self, tile: u64, done: usize) -> usize
        requires tile { tile < length self.now.starts.items }
        requires place { get_or self.now.starts.items tile 0 + done < length self.now.places.items }
        ensures { result ≡ get_or self.now.places.items (get_or self.now.starts.items tile 0 + done) 0 }
    {
        self.places[self.starts[tile as usize] as usize + done] as usize
    }

    /// The cell that a place reads, where `own` is the cell of the array: the copy of the source, or that where it has none.
    #[inline]
    pub(crate) fn cell_read(&self, own: usize, place: usize, read: usize) -> usize
        requires cells { self.now.cells ≤ 4194304 }
        requires read { place * self.now.sources.most + read < length self.now.sources.numbers.items }
        ensures none { get_or self.now.sources.numbers.items (place * self.now.sources.most + read) 0 ≡ 0 → result ≡ own }
        ensures some { (i : ℕ) → get_or self.now.sources.numbers.items (place * self.now.sources.most + read) 0 ≡ suc i
            → result ≡ self.now.cells + i }
    {
        match self.sources.numbers[place * self.sources.most + read] {
            0 => own,
            number => self.cells + (number - 1) as usize,
        }
    }
}
