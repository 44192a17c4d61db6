//! The loop tree of a plan: of a schedule's tiles, or of the order of the source, which is kept. Promises that for all
//! parameters in 0..=65536 it visits each instance of the kernel once, in the plan's order, and, where no array is
//! marked, that iterations of its parallel loops do not conflict (U. Bondhugula and others, "A practical automatic
//! polyhedral parallelizer and locality optimizer", PLDI 2008; C. Bastoul, "Code generation in the polyhedral model is
//! easier than you think", PACT 2004).
#![tactic(auto)]

mod laws;
mod tiles;
mod trees;

pub use laws::{flow_schedules_have_flow_trees, rows_of_schedules_fit};
pub use trees::{hull_tree, source_tree, tiled_tree};

// Passed on: what goes with this crate's contracts.
pub use plain_scan::FmStop;
pub use planned_trees::{
    loops_end_as_the_source_does, trees_keep_conflicts_in_order, trees_of_plans_can_be_walked,
};
