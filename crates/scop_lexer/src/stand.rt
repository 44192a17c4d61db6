//! What stands at a place of a text.

use crate::token::{FaultKind, Kind};

/// What stands at a place of a text, and how many bytes it has.
#[derive(Clone, Copy)]
pub enum Stand {
    /// The text's end.
    End,
    /// A blank, a comment or a directive line.
    Gap(usize),
    /// A token, with the number that a constant is, 0 of any other.
    Lexeme(Kind, u64, usize),
    /// A fault, so many bytes behind the place.
    Wrong(FaultKind, usize),
}
