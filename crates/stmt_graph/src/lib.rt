//! The strong components of a graph of statements, numbered in topological order; among those that are free the one
//! with the least statement comes first. Promises that the numbers are exactly those of specs/Graph.antt, and that
//! there is one such numbering (`numberings_are_unique`).
#![tactic(auto)]

mod closure;
mod laws;
mod numbers;

pub use laws::numberings_are_unique;
pub use numbers::components;
