//! Why the solver stops.

use checked_tableau::Problem;
use thiserror::Error;

/// Why a problem is not solved. It tells the problem, and how many moves were made.
#[derive(Debug, Drop, Error)]
pub enum Stop {
    /// A number does not fit 128 bits.
    #[error("a number does not fit 128 bits after {moves} moves")]
    Wide { posed: Problem, moves: u64 },
    /// The budget is spent.
    #[error("the budget is spent after {moves} moves")]
    Spent { posed: Problem, moves: u64 },
    /// There is no memory.
    #[error("out of memory")]
    NoMemory,
}
