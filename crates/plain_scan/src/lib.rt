//! Scanned trees without separation: one loop a dimension, between bounds that hold for all sets, and each statement
//! under all constraints of its set (C. Ancourt, F. Irigoin, Scanning polyhedra with DO loops, PPoPP 1991; the sets of
//! several statements: W. Kelly, W. Pugh, E. Rosser, Code generation for multiple mappings, Frontiers 1995).
#![tactic(auto)]

mod bounds;
mod hull;
mod numbers;
mod outline;
mod outlined_sets;
mod set_outline;
pub mod shared;
mod tree_of_sets;
mod widest;

pub use tree_of_sets::scan;

// Passed on: what goes with this crate's contracts.
pub use fm_projection::FmStop;
