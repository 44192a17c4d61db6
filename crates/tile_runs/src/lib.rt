//! Kernels run by a plan, from arrays to arrays: the tiles of the plan's loop tree are done by one worker, or by
//! several on threads (U. Bondhugula and others, "A practical automatic polyhedral parallelizer and locality
//! optimizer", PLDI 2008). Tiles are opened by waves, or released one by one; each instance writes its cell, or a copy
//! of its own (P. Feautrier, "Array expansion", ICS 1988). Promises that the arrays end as the kernel's own execution
//! leaves them, and how many tiles, waves and pairs of waiting tiles there are.
#![tactic(auto)]

mod alone;
mod cases;
mod copies;
mod counters;
mod expansion;
mod pairs;
mod rows;
mod threads;
mod workers;

pub use cases::{Counts, plan_of, run_case, tiles_of};
pub use expansion::sources_of;
pub use threads::{By, run_on_threads};
pub use workers::{OneWorker, Workers};

// Passed on: what goes with this crate's contracts.
pub use expansions::{NoSources, Sources};
pub use tile_core::Plan;
pub use tile_edges::TileEdges;
