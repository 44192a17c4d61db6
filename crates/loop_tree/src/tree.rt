//! The tree as code holds it. Contracts see `Bound` as the plain data of specs/Tree.antt,
//! `Bounds` by `bounds_in`, a `Node` by `tree_of` and a `Tree` by `trees_in` of specs/View.antt.

use scop_syntax::Aff;
use std::marker::Model;

/// A form over a divisor.
#[derive(Drop)]
pub struct Bound {
    pub form: Aff,
    pub divisor: i64,
}

impl Model for Bound {
    ghost use Rattle.loop_tree.specs.Tree.{Bound as Plain};

    ghost Value = { Plain };

    ghost view = { λ b. record { form = b.form; divisor = b.divisor } };
}

/// The bounds of a loop from one side, of which there is one.
#[derive(Drop)]
pub struct Bounds {
    pub first: Bound,
    pub others: Vec<Bound>,
}

/// A loop upwards, whose turns may run in any order where it is parallel.
#[derive(Drop)]
pub struct Loop {
    pub parallel: bool,
    pub lower: Bounds,
    pub upper: Bounds,
}

/// A form that is at least 0, that is 0, or that is a multiple of a number.
#[derive(Drop)]
pub enum Test {
    AtLeast(Aff),
    Equal(Aff),
    Multiple(Aff, i64),
}

/// The tests of a guard.
#[derive(Drop)]
pub struct Guard {
    pub tests: Vec<Test>,
}

/// A statement's number from 0, and a form for the turn of each of the source's loops round it.
#[derive(Drop)]
pub struct Leaf {
    pub statement: usize,
    pub turns: Vec<Aff>,
}

/// A loop or a guard with its body, or an instance.
#[derive(Drop)]
pub enum Node {
    Loop(Loop, Vec<Node>),
    Guard(Guard, Vec<Node>),
    Instance(Leaf),
}

/// A loop tree: nodes one after another.
#[derive(Drop)]
pub struct Tree {
    pub nodes: Vec<Node>,
}
