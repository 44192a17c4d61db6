//! The core of a parallel run as plain data: a plan deals the places of a walk to tiles, and workers claim, open, do
//! and finish them, one event after another, each worker for itself (L. Lamport, "The parallel execution of DO loops",
//! Communications of the ACM, 1974; M. Wolfe, "Loop skewing: the wavefront method revisited", International Journal of
//! Parallel Programming, 1986). A tile is opened by waves or by a counter of its own, a cell is stored to or added to.
//! Promises, as laws: whatever the order of the events, each load reads what execution of the walk reads there, and at
//! the end the cells are those that it leaves; on a table of atomic words each event is one step that the table's rule
//! allows. No code.
#![tactic(auto)]

mod clock;
mod copy_laws;
mod core_laws;
mod deal_laws;
mod flat_laws;
mod release_laws;
mod sum_laws;
mod table_laws;

pub use clock::Clock;
pub use copy_laws::copies_keep_what_is_read;
pub use core_laws::{
    all_interleavings_agree, events_keep_count, plans_by_waves_are_good, two_workers_run,
};
pub use deal_laws::scans_are_dealt;
pub use flat_laws::{
    cells_hold_what_is_done, covers_are_those_of_the_walk, plans_execute_the_walk,
};
pub use release_laws::{
    covers_join_what_touches, opened_tiles_have_waited, pairs_make_plans, two_workers_release,
};
pub use sum_laws::{cells_hold_their_sums, two_workers_add};
pub use table_laws::{clocks_tell, events_are_allowed, seats_are_allowed};
