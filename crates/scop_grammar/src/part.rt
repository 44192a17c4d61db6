//! A kernel as it is held: one list of parts in textual order, which nothing nests in.

use scop_expressions::{Assign, Count, Node, Width};

/// What a sign between expressions is.
#[derive(Clone, Copy)]
pub enum Mark {
    /// The kernel's name.
    Kernel,
    /// The name of a parameter that is a number.
    Number,
    /// The name of an array of this type: its extents follow.
    Array(Width),
    /// The name of an iterator that is declared at the start.
    Declared,
    /// `{`
    Begin,
    /// `}`
    End,
    /// `;`
    Empty,
    /// `if`: its condition and its item follow.
    If,
    /// `for`: its iterator, first part, second part, step and item follow.
    For,
    /// The name of a loop's iterator.
    Iterator,
    /// The name of a loop's iterator, which the loop declares.
    NewIterator,
    /// The name in a loop's step.
    StepName,
    /// `++` or `--` in a loop's step.
    Count(Count),
    /// A name that is stored to: its subscripts and an assigning operator follow.
    Place,
    /// An assigning operator: the value follows.
    Assign(Assign),
}

/// A part of a kernel, with its token's place.
#[derive(Drop)]
pub enum Part {
    Sign(Mark, usize),
    /// An expression from this token on: its nodes, with places counted from there.
    Expression(usize, Vec<Node>),
}
