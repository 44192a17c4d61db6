//! The search for a schedule, row by row: each row is the least of its posed set, a band ends where there is none, and
//! a scalar item goes between (U. Bondhugula and others, "A practical automatic polyhedral parallelizer and locality
//! optimizer", PLDI 2008). Promises exactly the schedule of the determined run, or why the run has none, or the first
//! question of that run that stops.
#![tactic(auto)]

mod begin;
mod ends;
mod kept;
mod laws;
mod next;
mod restricting;
mod rows;
mod searching;
mod state;
mod stops;

pub use kept::Kept;
pub use laws::{schedules_order_conflicts, searches_answer_once};
pub use searching::search;

// Passed on: what goes with this crate's contracts.
pub use pip_solver::Stop;
pub use pluto_systems::Stuck;
pub use schedule_rows::{Schedule, dependences_have_one_schedule, each_state_has_one_outcome};
