//! Conflicts of a kernel's accesses as systems of whole numbers: which instance may have to run before which.
//! Promises that the list is exactly that of specs/Conflicts.antt, that where no parameter is negative the whole
//! points of its systems are exactly the pairs of conflicting places, the earlier first, each in one system only
//! (`conflict_laws`), and that a read's earlier writers are the points of the systems from writes to it, its later
//! writers those of the systems from it to writes (`source_laws`).
//! Feautrier, "Dataflow analysis of array and scalar references" (1991).
#![tactic(auto)]

mod conflict_laws;
mod deps;
mod forms;
mod pair;
mod source_laws;
mod worked_rows;

pub use conflict_laws::{conflicts_are_the_points_of_the_systems, systems_have_parts};
pub use deps::{AccessOf, conflicts, conflicts_without};
pub use forms::{push_sources, push_subscripts, push_targets};
pub use source_laws::{
    earlier_writers_are_points, last_writers_are_last_points, later_writers_are_points,
};
