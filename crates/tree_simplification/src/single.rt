//! The step that takes out the loops that run once, and takes several turns of a loop at once.

mod heads;
mod nodes;
mod numbers;
mod once;
mod place;
mod rounding;
mod straight;
mod stride;
mod turns;

pub(crate) use nodes::without_single;
