//! The tiles of a plan's tree: exactly those that hold an instance, by wave, then by coordinates, each with its first
//! instance, its place and how many instances it has, and which tiles lie in which wave
//! (U. Bondhugula and others, "A practical automatic polyhedral parallelizer and locality optimizer", PLDI 2008).
#![tactic(auto)]

mod cutting;
mod keys;
mod laws;
mod list;
mod offsets;
mod place;

pub use cutting::{rounds_left, tiles};
pub use keys::{after, band_at, coordinate, leading_at};
pub use laws::{
    numbers_tell_waves, orders_rise_by_tile, tiles_are_counted, tiles_are_unique,
    tiles_stand_one_behind_another,
};
pub use list::{Tile, TileList};
pub use place::Place;
