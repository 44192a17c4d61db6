//! The top call of Polypar: words, a source and two sinks in; the answer on the sinks and a status out.
//!
//! The clause of `plain_command` and `polypar` carries the whole claim: what `run` prints are exactly the arrays of the
//! kernel's own sequential execution, for any number of workers, what `schedule` prints is the schedule of the
//! determined run over the kernel's covers, or why its order is kept, what `deps` prints names for each read that is
//! resolved its last write, what `emit` prints are loops that visit each instance once, conflicting ones in order, what
//! `gen` prints tells what a generated kernel's own execution leaves, what `certify` prints is the certificate of the
//! schedule, the number of the first goal without one, or why the order is kept, where `check` prints `yes` the plan that
//! it was given is good for tiles of every size and all parameters, and each status comes from its cause alone.
#![tactic(auto)]

mod asked;
mod call;
mod certify;
mod check;
mod cut;
mod deps;
mod emit;
mod expansion;
mod generate;
mod index_check;
mod input;
mod laws;
mod memory;
mod run;
mod schedule;
mod told;

pub use call::{command_by, deserved_once, plain_command, polypar};
pub use input::LONGEST_INPUT;
pub use laws::{
    only_plans_have_lines, printed_arrays_are_data, printed_loops_are_read_back,
    printed_loops_run_the_kernel, printed_sources_tell_last_writes,
};
pub use memory::command_in_memory;

// Passed on: what goes with this crate's contracts.
pub use plan_search::{
    DataRefusal, FaultKind, Kept, Outside, Refusal, RefusalKind, Schedule, Status, Stuck, covers,
    hull_tree, schedule_of, tiled_tree, trees_of_plans_can_be_walked,
};
pub use tile_runs::{OneWorker, Workers};
