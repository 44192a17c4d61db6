//! The list of tiles as code holds it. Contracts say by `IsTileListOf` of specs/TilesView.antt whose tiles it has.
ghost use Rattle.std.specs.Prelude.{◌≡◌, ◌-◌, length};

use crate::place::Place;
use scop_syntax::Instance;

/// A tile: its first instance, its place in the tree's visits, the number of its wave, and how many instances it has.
#[derive(Drop)]
pub struct Tile {
    pub first: Instance,
    pub place: Place,
    pub wave: usize,
    pub size: usize,
}

/// Tiles in order, and for each wave, and behind all, how many tiles lie in the waves before it.
#[derive(Drop)]
pub struct TileList {
    pub tiles: Vec<Tile>,
    pub offsets: Vec<usize>,
}

impl TileList {
    /// How many waves there are.
    pub fn waves(&self) -> usize
        ensures { result ≡ length self.now.offsets.items - 1 }
    {
        self.offsets.len().saturating_sub(1)
    }
}
