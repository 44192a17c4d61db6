//! The tokens that the grammar reads, and an operator in front of its operand.

pub use scop_tokens::{Assign, Base, Count, Op, Outside, Suffix, Token, Width};

/// An operator in front of its operand.
#[derive(Clone, Copy)]
pub enum Sign {
    /// `-`
    Minus,
    /// `~`
    Complement,
    /// `!`
    Not,
}
