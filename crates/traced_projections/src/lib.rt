//! Projections whose rows know of which of the first rows they are made, so that an elimination forms no row that is made
//! of more of them than a row has to be: behind k eliminations by pairs k + 1 are enough, over fractions (S. N. Chernikov
//! 1960; D. A. Kohler, Projections of convex polyhedral sets, 1967). What is claimed of the rows that are kept does not
//! rest on that: they hold at each point of the projection.
#![tactic(auto)]

mod alone;
mod elimination;
mod making;
mod projections;
mod rows;
mod traced;

pub use projections::Projection;
pub use traced::Traced;
