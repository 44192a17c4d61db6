//! The statuses that a call can end with, the exit status that each has, and the line on the error stream that tells
//! it; the text of a schedule, and the lines that tell why a kernel's order is kept, why a run is not expanded, how
//! many tiles and waves a plan has, how its tiles were released and which goal has no derivation; the text of the
//! sources of reads.
#![tactic(auto)]

mod data_line;
mod deps_laws;
mod deps_lines;
mod deps_names;
mod edges_line;
mod item_lines;
mod kept_line;
mod line;
mod outside_line;
mod parts;
mod pieces;
mod schedule_laws;
mod status;
mod tiles_line;
mod uncertified_line;
mod unexpanded_line;

pub use data_text::DataRefusal;
pub use deps_laws::{
    deps_texts_are_read_in_one_way, printed_sources_are_read_in_one_way, texts_of_two_kernels,
};
pub use deps_lines::deps_text;
pub use edges_line::{edges_text, waves_edges_text, waves_reduce_text};
pub use item_lines::schedule_text;
pub use kept_line::{KeptLine, kept_text};
pub use line::status_line;
pub use plan_check::FaultKind;
pub use schedule_laws::a_schedule_and_its_text;
pub use scop_meaning::Outside;
pub use scop_parser::{Refusal, RefusalKind};
pub use status::Status;
pub use tiles_line::tiles_text;
pub use uncertified_line::uncertified_text;
pub use unexpanded_line::{UnexpandedLine, unexpanded_text};
