//! Which tiles of a plan wait for which, so that a tile may begin as soon as those before it have released it (J. Park and
//! others, "Sparsifying synchronization for high-performance shared-memory sparse triangular solver", ISC 2014): exactly
//! the pairs of tiles of which the second holds a place of the walk that covers one of the first, or where flow alone
//! counts, reads what it wrote last. One pass over the walk finds them.
#![tactic(auto)]

mod finding;
mod laws;
mod pairing;
mod rows;
mod stretching;
mod touching;
mod waiting;
mod walking;

pub use laws::{edges_are_counted, kept_orders_have_no_edges};
pub use waiting::{EdgesStop, TileEdges, edges};
