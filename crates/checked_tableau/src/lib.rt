//! The tableau of parametric integer programming: rows in one buffer, changed in place.
#![tactic(auto)]

mod contents;
mod cuts;
mod first;
mod longer;
mod pivot;
mod problem;
mod rows;
mod scans;
mod staying;
mod stop;
mod table;

pub use cuts::remainder_of;
pub use problem::Problem;
pub use stop::TableauStop;
pub use table::Rows;
