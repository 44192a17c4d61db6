//! Callers that hold public promises of the planner in place: each function calls a public call or law of a crate
//! below, and its own contract follows from one clause of that call alone. Where such a clause is emptied or weakened,
//! and no proof above cites it, the caller here no longer proves. Nothing is built on this crate.
#![tactic(auto)]

pub mod covers;
pub mod flows;
pub mod loop_trees;
pub mod pairs;
pub mod plans;
pub mod posed_sets;
pub mod runs;
pub mod scans;
pub mod schedules;
pub mod sources;
pub mod tiles;
pub mod writers;
