//! A quast read from a place down: a tree's own node, and the places of its sides.
ghost use Rattle.std.specs.Prelude.{◌≡◌};
ghost use Rattle.quast_trees.specs.Postfix.{tree_of};
ghost use Rattle.quast_trees.specs.Place.{subtree};
ghost use Rattle.quast_trees.specs.Shows.{Shows};

use crate::node::{Forms, Node};
use crate::quast::Quast;
use affine_forms::Form;
use std::marker::Model;

/// The place of a tree in a quast.
#[derive(Drop)]
pub struct Place<'a> {
    nodes: &'a [Node],
    at: usize,
}

impl<'a> Model for Place<'a> {
    ghost use Rattle.quast_trees.specs.Place.{Spot, place_in, IsPlace};

    ghost Value = { Spot };

    ghost view = { λ p. place_in p.nodes.now p.at };

    ghost invariant = { λ p. IsPlace (place_in p.nodes.now p.at) };
}

/// What stands at a place.
#[derive(Drop)]
pub enum Part<'a> {
    Initial,
    Forms(&'a Forms),
    Branch {
        test: &'a Form,
        first: Place<'a>,
        second: Place<'a>,
    },
    Bind {
        form: &'a Form,
        divisor: i128,
        body: Place<'a>,
    },
}

impl Quast {
    /// The whole tree's place.
    pub fn root(&self) -> Place
        ensures { subtree result ≡ tree_of self.now }
    {
        let nodes = self.nodes();
        Place {
            nodes,
            at: nodes.len() - 1,
        }
    }
}

impl<'a> Place<'a> {
    /// The tree's own node, with the places of its sides.
    pub fn part(&self) -> Part<'a>
        ensures { Shows result (subtree self.now) }
    {
        let nodes = self.nodes;
        match &nodes[self.at] {
            Node::Initial => Part::Initial,
            Node::Forms(forms) => Part::Forms(forms),
            Node::Branch { test, second } => Part::Branch {
                test,
                first: Place {
                    nodes,
                    at: self.at - (*second + 1),
                },
                second: Place {
                    nodes,
                    at: self.at - 1,
                },
            },
            Node::Bind { form, divisor } => Part::Bind {
                form,
                divisor: *divisor,
                body: Place {
                    nodes,
                    at: self.at - 1,
                },
            },
        }
    }
}
