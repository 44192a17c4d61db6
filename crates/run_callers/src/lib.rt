//! Callers that hold public promises of parallel runs in place: each function calls a public call or law of a crate
//! below, and its own contract follows from one clause of that call alone. Where such a clause is emptied or weakened,
//! and no proof above cites it, the caller here no longer proves. One caller more says of a whole run that each cell of
//! each array holds what the program's own execution leaves there. Nothing is built on this crate.
#![tactic(auto)]

pub mod cells;
pub mod cores;
pub mod events;
pub mod generated;
pub mod pairs;
pub mod releases;
pub mod runs;
pub mod sources;
pub mod tiles;
pub mod waiting;
pub mod words;
