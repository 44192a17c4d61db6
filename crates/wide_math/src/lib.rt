//! Checked arithmetic of `i128`: each operation gives exactly its result in the whole numbers, or
//! exactly the error `Wide` that names the operation and its two numbers.
#![tactic(auto)]

mod divisors;
mod exactness;
mod quotients;
mod ranges;
mod sums;

pub use divisors::{gcd, gcd_of_sizes};
pub use exactness::checked_operations_are_exact;
pub use quotients::{ceil_div, floor_div, remainder};
pub use ranges::held;
pub use sums::{add, cross, cross_sum, mul, sub};
use thiserror::Error;

/// An operation of checked arithmetic.
#[derive(Clone, Copy, Debug, PartialEq, Eq)]
pub enum Op {
    /// The sum.
    Add,
    /// The difference.
    Sub,
    /// The product.
    Mul,
    /// The quotient, rounded down.
    FloorDiv,
    /// The quotient, rounded up.
    CeilDiv,
    /// The greatest common divisor.
    Gcd,
}

/// The exact result of `op` at `a` and `b` does not fit 128 bits.
#[derive(Clone, Copy, Debug, PartialEq, Eq, Error)]
#[error("the result of {op:?} at {a} and {b} does not fit 128 bits")]
pub struct Wide {
    pub op: Op,
    pub a: i128,
    pub b: i128,
}
