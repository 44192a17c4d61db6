//! What of a kernel is judged at once: its words and names in scope, and each unit (a declared name, an array, a loop's
//! head, a statement) with its first fault and what it stands for. `specs/Judging` says which faults a kernel of the
//! grammar has, `specs/Programs` which program it stands for; a kernel without faults is within the limits (`laws`).
//! Static-control parts: P. Feautrier, "Dataflow analysis of array and scalar references" (1991).
#![tactic(auto)]

mod laws;
mod loops;
mod padding;
mod scope;
mod units;
mod words;

pub use laws::{faultless_kernels_are_within_limits, names_are_those_of_tokens};
pub use loops::{Change, LoopHead, loop_fault, loop_of};
pub use padding::all_over;
pub use scope::{Look, Scope, copied};
pub use units::{
    Stored, array_fault, array_of, kernel_name_fault, name_fault, number_fault, statement_fault,
    statement_of,
};
pub use words::Words;
