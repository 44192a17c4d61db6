//! The core of parallel runs over a kernel's plan: workers claim, open, do and finish the tiles of the plan's loop
//! tree, one event after another, each worker for itself (L. Lamport, "The parallel execution of DO loops",
//! Communications of the ACM, 1974). Promises that each event is exactly the one that `tile_events` describes, that
//! each value read is the one that the kernel's own execution reads there, and that the cells end as it leaves them.
#![tactic(auto)]

mod board;
mod cell_laws;
mod copying;
mod cores;
mod expansion;
mod first_words;
mod joining;
mod plan;
mod plan_laws;
mod release_laws;
mod stretching;
mod view;
mod weaving;
mod words;
mod worker;

pub use board::{Event, NotEnabled, Seen};
pub use cell_laws::{cells_are_those_of_the_execution, words_are_those_of_the_execution};
pub use cores::{Core, Turn};
pub use expansion::Expansion;
pub use first_words::FirstWords;
pub use plan::{Plan, have_room};
pub use plan_laws::{
    instances_read_few, plans_are_good, plans_execute_the_kernel, rows_tell_instances,
    walks_are_dealt,
};
pub use release_laws::opened_tiles_were_released;
pub use view::{Key, View, WordRule};
pub use words::{Pass, Words};
pub use worker::{Reads, Stage, Worker, idle_workers};

// Passed on: what goes with this crate's contracts.
pub use tile_edges::TileEdges;
