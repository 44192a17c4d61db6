//! Loop trees: loops upwards, guards and instances, the list of instances that a tree visits, and
//! what makes that list exactly the points of a predicate, each once and in order.
//! The three languages of a polyhedral code generator, here the one of loops: Bastoul, "Code generation in the
//! polyhedral model is easier than you think" (PACT 2004).
#![tactic(auto)]

mod bookmark;
mod braid;
mod counting;
mod ending;
mod examples;
mod guards;
mod leaving;
mod near;
mod outer;
mod passing;
mod ranges;
mod resting;
mod run_laws;
mod source;
mod source_laws;
mod spot;
mod stretch;
mod tally;
mod tiling;
mod tree;
mod tree_laws;
mod visitor;
mod walking;

pub use bookmark::Step;
pub use braid::Braid;
pub use run_laws::{loops_interleave_their_iterations, two_iterations_in_both_orders};
pub use source_laws::source_trees_visit_the_walk;
pub use spot::{Mark, Spot};
pub use stretch::Stretch;
pub use tally::Passed;
pub use tiling::{TileItem, TileItems, TileRow, Tiling};
pub use tree::{Bound, Bounds, Guard, Leaf, Loop, Node, Test, Tree};
pub use tree_laws::marks_are_the_parallel_loops;
pub use visitor::Visitor;
