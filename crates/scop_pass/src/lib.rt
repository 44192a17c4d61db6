//! The pass over a kernel's parts, one by one: it stops at the first unit with a fault, which is the kernel's first, or
//! leaves the kernel's tree. `specs/Machine` is the same pass over pieces, which goes on behind faults.
//! Static-control parts: P. Feautrier, "Dataflow analysis of array and scalar references" (1991).
#![tactic(auto)]

mod frames;
mod hand;
mod laws;
mod lists;
mod names;
mod open_items;
mod pass;
mod pending;

pub use laws::{passes_may_stop_at_a_fault, passes_may_stop_at_an_array};
pub use pass::{Pass, Stop};
