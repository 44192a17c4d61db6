//! Joins of quasts: at each point the later one, or the earlier one, of the two instances that two quasts answer there.
//! The nodes of a join are counted first, and then written once each.
#![tactic(auto)]

pub use join::{earlier_of, later_of};
pub use laws::{
    joins_are_built, joins_are_counted, joins_can_be_told, joins_choose,
    joins_keep_the_signs_of_binds, tests_are_small,
};
pub use way::{JoinStop, Way};

mod binds;
mod count;
mod forms;
mod join;
mod laws;
mod leaves;
mod nodes;
mod way;
