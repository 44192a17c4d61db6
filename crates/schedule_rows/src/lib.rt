//! Rows and bands of a schedule: the posed set of a next row, the determined run of a search that takes the least row,
//! and what it is for: conflicting instances in order (U. Bondhugula and others, "A practical automatic polyhedral
//! parallelizer and locality optimizer", PLDI 2008). A `Schedule` is always that of the determined run. Each law is the
//! contract of a function that does nothing, or that calls the laws which its proof uses.
#![tactic(auto)]

mod item;
mod pair_laws;
mod run_laws;
mod schedule;

pub use item::{Band, Block, Item, Marked, Part, Row};
pub use pair_laws::{
    equal_rows_restrict, farkas_rows_bound_distances, farkas_rows_do_not_fall, kept_pairs_chain,
    no_rising_pair_is_parallel,
};
pub use run_laws::{
    dependences_have_one_schedule, each_state_has_one_outcome, least_rows_are_unique,
    runs_are_short, schedules_bound_distances, schedules_have_small_items,
    schedules_keep_every_band, times_rise_along_dependences, values_are_in_order,
};
pub use schedule::Schedule;
