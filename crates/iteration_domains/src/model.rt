//! The model of a kernel: its statements in textual order, each with its domain and its accesses.
ghost use Rattle.std.specs.Prelude.{◌≡◌, ◌≤◌, ℕ, All, IfOk, slice_get, Some};
ghost use Rattle.scop_syntax.specs.Kernel.{IsKernel};
ghost use Rattle.scop_syntax.specs.Limits.{WithinLimits};
ghost use Rattle.scop_syntax.specs.View.{program_of};
ghost use Rattle.iteration_domains.specs.Model.{Modelled, model_of};
ghost use Rattle.iteration_domains.specs.Outside.{outside_systems};
ghost use Rattle.iteration_domains.specs.Sizes.{HaveOneCount, IsKernelModel};

use crate::items::{Path, model_items};
use crate::outside::push_statement;
use crate::statement::StatementModel;
use integer_sets::System;
use scop_syntax::{Kernel, cells_lie_within_22_bits, statements_are_numbered};
use std::alloc::{AllocError, Global};

/// The model of a kernel. Contracts see the plain data of specs/Model.antt.
#[derive(Drop)]
pub struct Model {
    parameters: usize,
    statements: Vec<StatementModel>,
}

impl std::marker::Model for Model {
    ghost use Rattle.iteration_domains.specs.Model.{KernelModel, kernel_model};
    ghost use Rattle.iteration_domains.specs.Sizes.{IsKernelModel};

    ghost Value = { KernelModel };

    ghost view = { λ m. kernel_model m.parameters m.statements.items };

    ghost invariant = { λ m. IsKernelModel (kernel_model m.parameters m.statements.items) };
}

impl Model {
    /// The model of `kernel`. Within the limits of a kernel no number of it is too wide.
    ///
    /// # Errors
    /// `AllocError` alone.
    pub fn of(alloc: Global, kernel: &Kernel) -> Result<Model, AllocError>
        requires { IsKernel (program_of kernel.now) }
        ensures { IfOk result (λ model. model ≡ model_of (program_of kernel.now)) }
    {
        statements_are_numbered();
        let parameters = kernel.parameters.len();
        let mut path = Path {
            parameters,
            scopes: Vec::new(alloc),
            loops: Vec::new(alloc),
        };
        let mut statements = Vec::new(alloc);
        model_items(alloc, &kernel.items, &mut path, &mut statements)?;
        Ok(Model {
            parameters,
            statements,
        })
    }

    /// How many parameters the kernel has.
    pub fn parameters(&self) -> usize
        ensures parameters { result ≡ self.now.parameters }
        ensures few { result ≤ 4 }
        ensures kernel { IsKernelModel self.now }
    {
        self.parameters
    }

    /// The statements in textual order.
    pub fn statements(&self) -> &[StatementModel]
        ensures statements { result.now ≡ self.now.statements }
        ensures parameters { All (λ s. s.domain.parameters ≡ self.now.parameters) result.now }
        ensures numbers { All (λ s. All (HaveOneCount s) result.now) result.now }
        ensures places { (k : ℕ) (s : Modelled) → slice_get result.now k ≡ Some s → s.number ≡ k }
    {
        self.statements.as_slice()
    }

    /// The systems of the index check at these parameters: by statement, access and dimension two each, whose whole
    /// points are the instances at which the subscript is at most -1, and at least its extent.
    ///
    /// # Errors
    /// `AllocError` alone.
    pub fn outside_systems(
        &self,
        alloc: Global,
        kernel: &Kernel,
        params: &[i64],
    ) -> Result<Vec<System>, AllocError>
        requires kernel { IsKernel (program_of kernel.now) }
        requires model { self.now ≡ model_of (program_of kernel.now) }
        requires params { WithinLimits (program_of kernel.now) params.now }
        ensures { IfOk result (λ v. v.items ≡ outside_systems (program_of kernel.now) params.now) }
    {
        statements_are_numbered();
        cells_lie_within_22_bits();
        let mut systems = Vec::new(alloc);
        for statement in &self.statements {
            push_statement(alloc, &mut systems, statement, kernel, params)?;
        }
        Ok(systems)
    }
}
