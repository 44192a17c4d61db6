//! Parametric integer programming: the lexicographically least whole point of a problem, or that there is
//! none, by dual simplex pivots and Gomory's cuts in a budget of moves. P. Feautrier, "Parametric integer
//! programming", RAIRO Recherche opérationnelle 22(3), 1988.
#![tactic(auto)]

mod asking;
mod bounds;
mod emptiness;
mod forms;
mod frames;
mod leaf;
mod looking;
mod minimum;
mod node;
mod parts;
mod point;
mod question;
mod run;
mod step;
mod stop;
mod system_point;
mod system_rows;
mod ties;

pub use emptiness::is_empty;
pub use forms::opposite;
pub use minimum::{Solution, lexmin, solve};
pub use node::{Move, Tableau};
pub use point::least_point;
pub use stop::Stop;
pub use system_point::least_point_in;

// Passed on: what goes with this crate's contracts.
pub use checked_tableau::Problem;
