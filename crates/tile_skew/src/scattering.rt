//! What the scan set of a statement is made of.

ghost use Rattle.std.specs.Prelude.{◌≡◌, ◌<◌, ◌≤◌, ◌^◌};
ghost use Rattle.loop_tree.specs.TilingView.{items_of};
ghost use Rattle.tile_skew.specs.ScanSets.{front_of, width};
ghost use Rattle.tile_skew.specs.steps.Sizes.{FitItems};

use crate::layout::Layout;
use iteration_domains::StatementModel;
use loop_tree::TileItems;

/// A statement and its items, the size of the tiles, and where the variables of the scan set lie.
#[derive(Drop)]
pub struct Scattering<'a> {
    pub statement: &'a StatementModel,
    pub items: &'a TileItems,
    pub size: u64,
    pub layout: Layout,
    ghost tiles: { (0 < size) × (size ≤ 1024) },
    ghost front: { layout.front ≡ front_of (items_of items.now) },
    ghost turns: { layout.turns ≡ statement.now.domain.dimensions },
    ghost parameters: { layout.parameters ≡ statement.now.domain.parameters },
    ghost fits: { width layout < 2 ^ 64 },
    ghost small: { FitItems layout.turns (items_of items.now) },
}
