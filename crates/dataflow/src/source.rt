//! The source of a read.

use pip_solver::Stop;
use quast_trees::Quast;

/// Why a read's source is not told.
#[derive(Drop)]
pub enum SourceStop {
    /// A candidate's problem stops so, by a number that is too wide or by its budget.
    Solver(Stop),
    /// A join has more than 4,096 nodes.
    Join {
        /// So many, or 2^128 - 1 where there are more.
        nodes: u128,
    },
}

/// What a read's value comes from, or what overwrites it: a quast over the kernel's parameters and then the reader's
/// turns, or the first stop that was met.
#[derive(Drop)]
pub enum ReadSource {
    /// At each instance of the reader the last or next writer, or the initial value.
    Resolved(Quast),
    /// Not told.
    Unresolved(SourceStop),
}
