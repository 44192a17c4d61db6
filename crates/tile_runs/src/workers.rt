//! Who runs the tiles of a plan, as a trait, and one worker by itself.
ghost use Rattle.std.specs.Prelude.{◌≡◌, ◌≤◌, IfErr, IfOk, length};
ghost use Rattle.tile_core.specs.Plans.{HasRest, IsPlan, shape_of};
ghost use Rattle.tile_runs.specs.Running.{AreExecuted};

use crate::alone::do_all;
use scop_syntax::cells_have_numbers_of_their_own;
use std::alloc::{AllocError, Global};
use tile_core::{Core, Plan, plans_execute_the_kernel};

/// Runs the tiles of plans.
pub trait Workers {
    /// Where it may be asked to.
    ghost ready: { Self → Type 0 };

    /// Runs the plan on these cells with so many workers. Where the cells are those of all arrays, one array behind
    /// another, with the counters behind them, they are left as the kernel's own execution leaves them.
    ///
    /// # Errors
    /// `AllocError`; the cells are then as they were.
    fn run(
        &self,
        alloc: Global,
        plan: Plan,
        cells: &mut Vec<u64>,
        workers: usize,
    ) -> Result<(), AllocError>
        requires ready { ready self.now }
        requires plan { IsPlan plan }
        requires cells { length cells.old.items ≡ (shape_of plan).cells }
        requires rest { HasRest plan cells.old.items }
        requires some { 1 ≤ workers }
        requires few { workers ≤ 64 }
        ensures arrays { IfOk result (λ _. AreExecuted plan.entry cells.old.items cells.new.items) }
        ensures unchanged { IfErr result (λ _. cells.new.items ≡ cells.old.items) };
}

/// One worker, whose events go through the core one after another, on the caller's own thread.
#[derive(Clone, Copy)]
pub struct OneWorker;

impl Workers for OneWorker {
    ghost ready = { λ _. Unit {0} };

    fn run(
        &self,
        alloc: Global,
        plan: Plan,
        cells: &mut Vec<u64>,
        _workers: usize,
    ) -> Result<(), AllocError> {
        plans_execute_the_kernel();
        cells_have_numbers_of_their_own();
        let mut core = Core::of(alloc, &plan, cells, 1)?;
        do_all(&mut core, &plan);
        *cells = core.into_cells();
        Ok(())
    }
}
