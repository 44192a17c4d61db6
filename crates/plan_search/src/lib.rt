//! The plan of a kernel: that of the schedule which the search finds, or the kept order and why. Promises that the
//! plan's loop tree is one of the tiles of the schedule of the determined run, or the source's own, behind the line of
//! a cause that holds, and that its tiles can be told for all parameters in 0..=65536 (U. Bondhugula and others, "A
//! practical automatic polyhedral parallelizer and locality optimizer", PLDI 2008); for runs in which each instance has
//! a copy of its own, that a plan of tiles keeps each read behind its last writer (P. Feautrier, "Dataflow analysis of
//! array and scalar references", International Journal of Parallel Programming 20(1), 1991); and the certificate of
//! the schedule that keeps all conflicts in order, which the checker accepts.
#![tactic(auto)]

mod certificates;
mod laws;
mod lines;
mod planning;
mod plans;
mod schedules;
mod text;

pub use certificates::certificate_text;
pub use laws::models_have_one_plan_text;
pub use planning::{planned, planned_by_flow};
pub use plans::Planned;
pub use schedules::{covers, schedule_of};
pub use text::plan_text;

// Passed on: what goes with this crate's contracts, and lines and texts that commands tell.
pub use dataflow::{ReadSource, SourceStop, last_writes};
pub use plan_certificate::{
    DataRefusal, FaultKind, KeptLine, Outside, Refusal, RefusalKind, Status, UnexpandedLine,
    deps_text, edges_text, status_line, tiles_text, unexpanded_text, waves_edges_text,
    waves_reduce_text,
};
pub use plan_tree::{
    hull_tree, loops_end_as_the_source_does, tiled_tree, trees_keep_conflicts_in_order,
    trees_of_plans_can_be_walked,
};
pub use pluto_search::{Kept, Schedule, Stuck};
