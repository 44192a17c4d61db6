//! An expression as it is held: its nodes in postfix order, each with its token's place among the tokens.
//! What waits on the stack while it is read.

use crate::token::{Op, Sign, Suffix, Width};

/// A node, behind the nodes of its operands. Parentheses are no nodes.
#[derive(Clone, Copy)]
pub enum Node {
    Constant(Suffix, usize),
    Name(usize),
    /// A place with one subscript more, at its `[`.
    Index(usize),
    /// A call without arguments, at its `(`, behind its name.
    BareCall(usize),
    /// A call, at its `(`, behind its name and its arguments, which commas join.
    Call(usize),
    Unary(Sign, usize),
    /// A cast, at its `(`.
    Cast(Width, usize),
    Binary(Op, usize),
}

/// An operator that waits for its right operand, or an open bracket, with its place.
#[derive(Clone, Copy)]
pub enum Held {
    Binary(Op, usize),
    Unary(Sign, usize),
    Cast(Width, usize),
    Group(usize),
    Index(usize),
    Call(usize),
}

/// What an operand ends with.
#[derive(Clone, Copy)]
pub enum Last {
    /// A name.
    Name,
    /// The `]` of a subscript.
    Subscript,
    Other,
}

/// What may come next.
#[derive(Clone, Copy)]
pub enum Mode {
    /// An operand.
    Want,
    /// The `)` of a cast to this type.
    Casting(Width),
    /// What stands behind an operand.
    Done(Last),
}
