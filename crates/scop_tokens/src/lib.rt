//! The tokens of a kernel's text as the grammars see them: their kinds. How a name is spelled and what a constant is
//! worth is looked up by its place among the tokens.
#![tactic(auto)]

/// A binary operator, or the comma between arguments.
#[derive(Clone, Copy)]
pub enum Op {
    Comma,
    LogicalOr,
    LogicalAnd,
    BitOr,
    BitXor,
    BitAnd,
    Equal,
    NotEqual,
    Less,
    AtMost,
    Greater,
    AtLeast,
    ShiftLeft,
    ShiftRight,
    Plus,
    Minus,
    Times,
    Divide,
    Remainder,
}

/// How a constant is written: decimal (`0` counts as such) or hexadecimal.
#[derive(Clone, Copy)]
pub enum Base {
    Decimal,
    Hexadecimal,
}

/// Whether a constant has a suffix, which makes it unsigned.
#[derive(Clone, Copy)]
pub enum Suffix {
    Absent(Base),
    Present,
}

/// How wide an unsigned type is.
#[derive(Clone, Copy)]
pub enum Width {
    /// 32 bits: `uint32_t`.
    Narrow,
    /// 64 bits: `uint64_t`.
    Full,
}

/// An operator that assigns.
#[derive(Clone, Copy)]
pub enum Assign {
    /// `=`
    Set,
    Plus,
    Minus,
    Times,
    Divide,
    Remainder,
    And,
    Or,
    Xor,
    ShiftLeft,
    ShiftRight,
}

/// `++` or `--`.
#[derive(Clone, Copy)]
pub enum Count {
    Up,
    Down,
}

/// The tokens between expressions.
#[derive(Clone, Copy)]
pub enum Outside {
    Void,
    If,
    For,
    /// `int64_t`
    Int64,
    /// Any other keyword.
    Keyword,
    BraceOpen,
    BraceClose,
    Semicolon,
    Assign(Assign),
    Count(Count),
}

/// A token's kind. `Binary(Op::Minus)` is a sign in front of its operand too.
#[derive(Clone, Copy)]
pub enum Token {
    Name,
    Constant(Suffix),
    /// `uint64_t` or `uint32_t`
    Unsigned(Width),
    Binary(Op),
    /// `~`
    Complement,
    /// `!`
    Not,
    /// `(`
    Open,
    /// `)`
    Close,
    /// `[`
    OpenIndex,
    /// `]`
    CloseIndex,
    /// A token that no expression has.
    Outside(Outside),
}
