//! The words of a run: the counts of claims and of finished tiles, and the cells, each a word of one table on which all
//! workers step, each with a pass of its own (M. Herlihy and J. Wing, "Linearizability: a correctness condition for
//! concurrent objects", ACM Transactions on Programming Languages and Systems, 1990). Whatever the order of the steps,
//! a load tells the value that execution reads there.
#![tactic(auto)]

mod adding;
mod closing;
mod gathering;
mod loading;
mod opening_state;
mod storing;

pub use adding::{Adding, add, add_at};
pub use closing::{Closed, close};
pub use gathering::Merge;
pub use loading::{Loading, load, load_at};
pub use opening_state::{Cut, start};
pub use storing::{Storing, store, store_at};
