//! Plans run by a closure, and by workers who each have a thread.
ghost use Rattle.std.specs.Prelude.{◌≡◌, ◌≤◌, ℕ, IfErr, IfOk, length};
ghost use Rattle.tile_core.specs.Plans.{HasRest, IsPlan, shape_of};
ghost use Rattle.tile_runs.specs.Running.{AreExecuted};

use crate::workers::{OneWorker, Workers};
use io_ports::Gate;
use scop_syntax::cells_have_numbers_of_their_own;
use std::alloc::{AllocError, Global};
use std::sync::Wait;
use std::thread::Threads;
use tile_core::Plan;
use tile_runner::run_plan;

/// Runs plans by a closure that keeps the promise of `Workers::run`, as one round `run_on_threads`: so code that runs
/// kernels by any workers needs no handle for threads.
#[derive(Clone, Copy)]
pub struct By<F> {
    pub run: F,
}

impl<F: Fn(Global, Plan, &mut Vec<u64>, usize) -> Result<(), AllocError>> Workers for By<F> {
    ghost ready = { λ by. (alloc : _) (plan : _) (cells : _) (workers : ℕ) → IsPlan plan
        → length cells.now.items ≡ (shape_of plan).cells → HasRest plan cells.now.items → 1 ≤ workers → workers ≤ 64
        → F.pre by.run alloc plan cells workers
        × ((result : _) (after : _) → F.post by.run alloc plan cells workers result after
        → IfOk result (λ _. AreExecuted plan cells.now.items after.now.items)
        × IfErr result (λ _. after.now.items ≡ cells.now.items)) };

    fn run(
        &self,
        alloc: Global,
        plan: Plan,
        cells: &mut Vec<u64>,
        workers: usize,
    ) -> Result<(), AllocError> {
        (self.run)(alloc, plan, cells, workers)
    }
}

/// Runs a plan with so many workers, each on a thread of its own where there are two or more, who pass the gate round
/// each tile; one goes through the core.
///
/// # Errors
/// `AllocError`; the cells are then as they were.
pub fn run_on_threads<R: Threads + Wait + Sync, G: Gate>(
    rt: &R,
    alloc: Global,
    gate: &G,
    plan: Plan,
    cells: &mut Vec<u64>,
    workers: usize,
) -> Result<(), AllocError>
    requires plan { IsPlan plan }
    requires cells { length cells.old.items ≡ (shape_of plan).cells }
    requires rest { HasRest plan cells.old.items }
    requires some { 1 ≤ workers }
    requires few { workers ≤ 64 }
    ensures arrays { IfOk result (λ _. AreExecuted plan.entry cells.old.items cells.new.items) }
    ensures unchanged { IfErr result (λ _. cells.new.items ≡ cells.old.items) }
{
    cells_have_numbers_of_their_own();
    if workers < 2 {
        return OneWorker.run(alloc, plan, cells, workers);
    }
    match run_plan(rt, alloc, plan, cells, workers, gate) {
        Ok(_) => Ok(()),
        Err(AllocError) => Err(AllocError),
    }
}
