//! Scanned trees with separation: at each dimension the hull of the sets is cut into parts, each with the sets that
//! have points there, and the parts run one after another (F. Quilleré, S. Rajopadhye, D. Wilde, Generation of
//! efficient nested loops from polyhedra, International Journal of Parallel Programming 28, 2000; C. Bastoul, Code
//! generation in the polyhedral model is easier than you think, PACT 2004).
#![tactic(auto)]

mod bars;
mod copies;
mod cutting;
mod halt;
mod level;
mod marking;
mod narrowing;
mod nodes;
mod ordering;
mod part;
mod questions;
mod tree;

pub use tree::scan;
