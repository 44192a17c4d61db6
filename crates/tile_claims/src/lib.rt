//! Claims of tiles: each worker takes the next one, by one atomic step on a count that all share (C. Polychronopoulos
//! and D. Kuck, "Guided self-scheduling: a practical scheduling scheme for parallel supercomputers", IEEE Transactions
//! on Computers, 1987, 'self-scheduling').
#![tactic(auto)]

mod claims;

pub use claims::{Claiming, claim};
