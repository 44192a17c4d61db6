//! The tokens of a kernel's text: their kinds, their spans, and what is wrong where a token would begin.

ghost use Rattle.std.specs.Prelude.{◌≡◌};
ghost use Rattle.scop_lexer.specs.declared.token.Stop.TheVariants as stop;

use std::alloc::AllocError;

/// The kind of a token, which is all that the grammars see of it.
pub use scop_tokens::Token as Kind;

/// A token: its kind, what it is worth, and the span of its bytes in the text.
#[derive(Clone, Copy)]
pub struct Token {
    pub kind: Kind,
    /// The number that a constant is; 0 of any other token.
    pub value: u64,
    /// The place of its first byte, counted from 0.
    pub start: usize,
    /// The place behind its last byte.
    pub end: usize,
}

/// What can be wrong with a text's tokens.
#[derive(Clone, Copy)]
pub enum FaultKind {
    /// A byte begins no token, or is the 64th of a name.
    Character,
    /// A directive line is neither `include` nor `pragma`, or goes on behind its line.
    Directive,
    /// A word that begins with a digit is no constant.
    LiteralRange,
    /// A comment has no end.
    UnendedComment,
}

/// A fault, and the place of the byte where it stands, counted from 0.
#[derive(Clone, Copy)]
pub struct Fault {
    pub kind: FaultKind,
    pub place: usize,
}

/// Why there are no tokens.
#[derive(Clone, Copy)]
pub enum Stop {
    /// The first fault of the text.
    Refused(Fault),
    /// There is no memory for the tokens.
    NoMemory,
}

impl From<AllocError> for Stop {
    ghost from_gives = { λ _ s. s ≡ stop.NoMemory };

    fn from(_: AllocError) -> Stop {
        Stop::NoMemory
    }
}
