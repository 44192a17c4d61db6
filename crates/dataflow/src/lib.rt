//! Where the values that a kernel reads come from, and what overwrites them: for each read the last write before it to
//! the cell that it touches, and the next one behind it, as quasts over the kernel's parameters and the reader's turns.
//! Promises that where a read is resolved, its quast names at each walked instance the last writer, or the next, and
//! the initial value exactly where nothing writes the cell before, or behind.
//! P. Feautrier, "Dataflow analysis of array and scalar references" (International Journal of Parallel Programming
//! 20(1), 1991).
#![tactic(auto)]

mod candidate;
mod cover_laws;
mod covers;
mod ends;
mod flow_deps;
mod forms;
mod leaf_deps;
mod leaf_rows;
mod problem;
mod reads;
mod source;
mod source_laws;

pub use cover_laws::{
    covering_points_are_covers, covers_are_held, covers_lie_between_statements,
    flow_holds_the_sources, flow_lies_between_statements, flow_points_are_the_sources,
};
pub use covers::covering;
pub use flow_deps::flow;
pub use reads::{last_writes, next_writes};
pub use source::{ReadSource, SourceStop};
pub use source_laws::{
    joins_are_the_writers, minima_are_maxima, minima_are_the_writers,
    resolved_reads_have_their_writers, sources_are_told,
};

// Passed on: what goes with this crate's contracts.
pub use pip_solver::Stop;
