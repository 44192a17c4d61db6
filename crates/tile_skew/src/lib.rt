//! Tiles of a schedule and their wavefronts: the tiling that a schedule and a size of tiles give, and of each statement
//! the set of its instances at their places in the scanned order, tile by tile within rising waves (U. Bondhugula and
//! others, "A practical automatic polyhedral parallelizer and locality optimizer", PLDI 2008; scattering dimensions:
//! C. Bastoul, "Code generation in the polyhedral model is easier than you think", PACT 2004).
//! Promises that `tiling_and_sets` gives exactly the tiling of specs/Tilings.antt and the sets of specs/ScanSets.antt
//! (`tiling`, `tiled` one of the two), that the tiling of a schedule of covers is a good plan at all parameters, that
//! the whole points of those sets are the places of the instances, each once, that places come in the tiling's order,
//! and that those sets can be scanned (`laws`).
#![tactic(auto)]

mod forms;
mod items;
mod laws;
mod layout;
mod scattering;
mod sets;
mod statement_sets;

pub use laws::{
    kept_orders_are_good_plans, pairs_along_blocks_are_in_order, places_are_in_order,
    rows_that_are_not_parallel_carry, scan_sets_are_alike, scan_sets_can_be_scanned,
    scan_sets_hold_the_instances, tiled_dependences_are_in_order, tiled_flows_are_flow_plans,
    tiled_schedules_are_good_plans, tilings_have_the_items_of_schedules,
};
pub use statement_sets::{tiled, tiling, tiling_and_sets};

// Passed on: what goes with this crate's contracts.
pub use schedule_rows::{Schedule, schedules_have_small_items};
