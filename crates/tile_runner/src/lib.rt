//! The workers of a run: each claims tiles, opens each in its wave or once all for which it waits have released it, does
//! its instances, releases the tiles that wait for it and finishes it, until the claims run out, and all of them do so at
//! once, each on its own pass (U. Bondhugula and others, "A practical automatic polyhedral parallelizer and locality
//! optimizer", PLDI 2008). The cells end as execution leaves them, or, where each instance has a copy of its own, the
//! copies hold what it stores; for any number of workers.
#![tactic(auto)]

mod ahead;
mod copies;
mod joins;
mod rounds;
mod stretches;
mod worker;
mod workers;

pub use worker::{do_tile, is_opened, release_all, work};
pub use workers::run_plan;
