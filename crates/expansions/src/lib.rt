//! What a run with copies asks of a kernel's walk: of each read the place whose value it takes, by one pass over the walk,
//! and of each visit of a plan's tree its place in the walk (P. Feautrier, "Array expansion", ICS 1988).
#![tactic(auto)]

mod counting;
mod listing;
mod marking;
mod placing;
mod sourcing;

pub use placing::places_of_visits;
pub use sourcing::{NoSources, Sources, source_places};
