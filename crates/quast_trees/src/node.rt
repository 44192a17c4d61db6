//! The nodes of a quast as it is held: a list in postfix order, each node behind the nodes of its sides.

use affine_forms::Form;
use std::marker::Model;

/// What a leaf is an instance of: a statement, and the numbers of the loops round it, outermost first.
#[derive(Drop)]
pub struct Source {
    pub statement: usize,
    pub loops: Vec<usize>,
}

/// A leaf's forms, each over `variables` variables, and what the leaf is an instance of, where that is
/// known: the leaves of a solver have none.
#[derive(Drop)]
pub struct Forms {
    pub source: Option<Source>,
    pub variables: usize,
    pub forms: Vec<Form>,
}

impl Model for Forms {
    ghost use Rattle.quast_trees.specs.Source.{Forms, source_held};

    ghost Value = { Forms };

    ghost view = { λ s. record { source = source_held s.source; variables = s.variables; forms = s.forms.items } };
}

/// One node of a quast.
#[derive(Drop)]
pub enum Node {
    /// A leaf: the initial value.
    Initial,
    /// A leaf: forms.
    Forms(Forms),
    /// The first side where `test` is at least 0, else the second, whose `second` nodes stand just before.
    Branch { test: Form, second: usize },
    /// The quotient of `form` by `divisor`, rounded down, as one more variable for the body just before.
    Bind { form: Form, divisor: i128 },
}
