//! How a plan's instances lie in tiles: the size of the tiles and of each statement its items in order, or the source's
//! order, kept. Contracts see a `Tiling` by `tiling_of` of specs/TilingView.antt as the plain data of
//! specs/Tiling.antt, which says what tile, wave and order of an instance are (U. Bondhugula and others, PLDI 2008).
use scop_syntax::Aff;
use std::marker::Model;
use std::num::NonZeroU64;

/// A row of the first band: its form over the turns of the loops round its statement, outermost first, and whether it
/// carries a dependence.
#[derive(Drop)]
pub struct TileRow {
    pub form: Aff,
    pub carries: bool,
}

impl Model for TileRow {
    ghost use Rattle.loop_tree.specs.Tiling.{TileRow as Plain};

    ghost Value = { Plain };

    ghost view = { λ r. record { form = r.form; carries = r.carries } };
}

/// An item behind the first band: a row's form over the turns, or a scalar.
#[derive(Drop)]
pub enum TileItem {
    Row(Aff),
    Scalar(usize),
}

/// A statement's items in order: the scalars before the first row, the rows of the first band, and the items behind it.
#[derive(Drop)]
pub struct TileItems {
    pub leading: Vec<usize>,
    pub band: Vec<TileRow>,
    pub behind: Vec<TileItem>,
}

/// The size of the tiles and the items of each statement in textual order, or the source's order, kept: one tile.
#[derive(Drop)]
pub enum Tiling {
    Kept,
    Tiled(NonZeroU64, Vec<TileItems>),
}
