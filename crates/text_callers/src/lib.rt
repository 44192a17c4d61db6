//! Callers that hold public promises of the crates that read and write texts in place: each function calls a public
//! call or law of a crate below, and its own contract follows from one clause of that call alone. Where such a clause
//! is emptied or weakened, and no proof above cites it, the caller here no longer proves. Nothing is built on this
//! crate.
#![tactic(auto)]

pub mod arithmetic;
pub mod certificates;
pub mod data;
pub mod expressions;
pub mod forms;
pub mod meanings;
pub mod names;
pub mod printed;
pub mod quasts;
pub mod statuses;
pub mod worked_loop;
