//! The traits of the outside through which the program reads and writes, and the loops over them.
//!
//! Each shows of itself (`shows`) what it tells: its bytes, its count of faults, and how far it is sure to go on.
//! It fails only where that count rises and where it was not sure. In-memory ports tell their bytes and fail at
//! chosen calls; `StdSource` and `StdSink` adapt std's readers and writers.
#![tactic(auto)]

mod arguments;
mod calls;
mod fault;
mod gate;
mod pieces;
mod sink;
mod sink_in_memory;
mod source;
mod source_in_memory;
mod streams;

pub use arguments::words;
pub use fault::Failed;
pub use gate::{Gate, OpenGate};
pub use pieces::Pieces;
pub use sink::{Sink, write_whole};
pub use sink_in_memory::MemSink;
pub use source::{ReadError, Source, read_to_end};
pub use source_in_memory::MemSource;
pub use streams::{StdSink, StdSource};
