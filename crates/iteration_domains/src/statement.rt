//! A statement of a model: its place in the text, its iteration domain, and its accesses, over the turns
//! of the loops round it and the parameters. Contracts see the plain data of specs/Model.antt.
//! Feautrier, "Dataflow analysis of array and scalar references" (1991).
ghost use Rattle.std.specs.Prelude.{◌≡◌, ◌+◌, ◌≤◌, All, length};
ghost use Rattle.iteration_domains.specs.Model.{statement_model};
ghost use Rattle.iteration_domains.specs.Sizes.{IsModelled, IsNarrow};

use integer_sets::{Form, System};
use std::marker::Model;

/// An access: an array's number, and a form for each subscript.
#[derive(Drop)]
pub struct AccessForms {
    pub array: usize,
    pub subscripts: Vec<Form>,
}

impl Model for AccessForms {
    ghost use Rattle.scop_syntax.specs.Tree.{Access};

    ghost Value = { Access };

    ghost view = { λ a. record { array = a.array; subscripts = a.subscripts.items } };
}

/// A statement of a model.
#[derive(Drop)]
pub struct StatementModel {
    number: usize,
    loops: Vec<usize>,
    domain: System,
    accesses: Vec<AccessForms>,
}

impl Model for StatementModel {
    ghost use Rattle.iteration_domains.specs.Model.{Modelled, statement_model};
    ghost use Rattle.iteration_domains.specs.Sizes.{IsModelled};

    ghost Value = { Modelled };

    ghost view = { λ s. statement_model s.number s.loops.items s.domain s.accesses.items };

    ghost invariant = { λ s. IsModelled (statement_model s.number s.loops.items s.domain s.accesses.items) };
}

impl StatementModel {
    /// The statement of these parts.
    pub fn from_parts(
        number: usize,
        loops: Vec<usize>,
        domain: System,
        accesses: Vec<AccessForms>,
    ) -> StatementModel
        requires { IsModelled (statement_model number loops.items domain accesses.items) }
        ensures { result ≡ statement_model number loops.items domain accesses.items }
    {
        StatementModel {
            number,
            loops,
            domain,
            accesses,
        }
    }

    /// The statement's number in textual order, from 0.
    pub fn number(&self) -> usize
        ensures { result ≡ self.now.number }
    {
        self.number
    }

    /// The loops round the statement, outermost first, each known by the number of its first statement. Two statements
    /// have the loops of their common front in common.
    pub fn loops(&self) -> &[usize]
        ensures loops { result.now ≡ self.now.loops }
        ensures dimensions { length result.now ≡ self.now.domain.dimensions }
        ensures few { length result.now ≤ 5 }
    {
        self.loops.as_slice()
    }

    /// The turns at which the statement runs: a dimension for each loop.
    pub fn domain(&self) -> &System
        ensures { result.now ≡ self.now.domain }
    {
        &self.domain
    }

    /// The statement's accesses by number: access 0 is the place that is written, the reads are numbered from 1.
    pub fn accesses(&self) -> &[AccessForms]
        ensures accesses { result.now ≡ self.now.accesses }
        ensures narrow { All
            (λ a. All (IsNarrow (self.now.domain.dimensions + self.now.domain.parameters)) a.subscripts) result.now }
        ensures dimensions { length self.now.loops ≡ self.now.domain.dimensions }
        ensures few { self.now.domain.dimensions ≤ 5 }
    {
        self.accesses.as_slice()
    }
}
