//! A system whose rows know of which of the first rows they are made.

ghost use Rattle.std.specs.Prelude.{◌≡◌, ◌+◌, ◌*◌, ◌<◌, ◌^◌, [], All, IfOk};
ghost use Rattle.affine_forms.specs.Parts.{variables_of};
ghost use Rattle.integer_sets.specs.Constraints.{variables_in};
ghost use Rattle.traced_projections.specs.Tracing.{constraints_of, traced};

use crate::rows::{Row, forms_of, push_numbered};
use affine_forms::{Form, copies};
use integer_sets::System;
use std::alloc::{AllocError, Global};
use std::marker::Model;

/// A system whose rows know of which of the first rows they are made, behind so many eliminations by pairs.
#[derive(Drop)]
pub struct Traced {
    pub(crate) dimensions: usize,
    pub(crate) parameters: usize,
    pub(crate) equalities: Vec<Form>,
    pub(crate) rows: Vec<Row>,
    pub(crate) pairings: usize,
}

impl Model for Traced {
    ghost use Rattle.traced_projections.specs.Tracing.{IsTraced, Tracing, tracing};

    ghost Value = { Tracing };

    ghost view = { λ t. tracing t.dimensions t.parameters t.equalities.items t.rows.items t.pairings };

    ghost invariant = { λ t. IsTraced (tracing t.dimensions t.parameters t.equalities.items t.rows.items t.pairings) };
}

impl Traced {
    /// The system, each row of which is a first one. The digits of the first ones are left to the rows of the range of
    /// the parameters.
    ///
    /// # Errors
    /// `AllocError` alone.
    pub fn of(alloc: Global, system: &System) -> Result<Traced, AllocError>
        requires { variables_in system.now < 2 ^ 32 }
        ensures { IfOk result (λ t. t ≡ traced system.now) }
    {
        let equalities = copies(alloc, system.equalities())?;
        let mut rows = Vec::new(alloc);
        push_numbered(&mut rows, system.rows(), 2 * system.parameters())?;
        Ok(Traced {
            dimensions: system.dimensions(),
            parameters: system.parameters(),
            equalities,
            rows,
            pairings: 0,
        })
    }

    /// How many dimensions a point has.
    pub fn dimensions(&self) -> usize
        ensures { result ≡ self.now.dimensions }
    {
        self.dimensions
    }

    /// Its constraints.
    ///
    /// # Errors
    /// `AllocError` alone.
    pub fn system(&self, alloc: Global) -> Result<System, AllocError>
        ensures { IfOk result (λ s. s ≡ constraints_of self.now) }
    {
        let equalities = copies(alloc, &self.equalities)?;
        let rows = forms_of(alloc, &self.rows)?;
        Ok(System::from_parts(self.dimensions, self.parameters, equalities, rows))
    }
}
