//! Barriers between tiles, without waiting: a tile is opened where all tiles of earlier waves are finished, and counted
//! where it is finished (L. Lamport, "The parallel execution of DO loops", Communications of the ACM, 1974; M. Wolfe,
//! "Loop skewing: the wavefront method revisited", International Journal of Parallel Programming, 1986); or, where tiles
//! are released one by one, once all for which it waits have released it (J. Park and others, "Sparsifying
//! synchronization for high-performance shared-memory sparse triangular solver", ISC 2014).
#![tactic(auto)]

mod counting;
mod finishing;
mod releasing;
mod waves;

pub use counting::{Short, try_open_tile};
pub use finishing::{Finishing, finish};
pub use releasing::{Releasing, release};
pub use waves::{NotYet, Opening, try_open};
