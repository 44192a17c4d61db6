//! The run of all workers.
ghost use Rattle.array_words.specs.Closing.{IsClosed};
ghost use Rattle.std.specs.Prelude.{◌≡◌, ℕ, ◌<◌, ◌≤◌, All, IfErr, IfOk, List, length};
ghost use Rattle.scop_syntax.specs.Execution.{IsShaped};
ghost use Rattle.tile_core.specs.Plans.{HasRest, HoldsContents, HoldsResults, IsPlan, extents_in, plan_of, shape_of};
ghost use Rattle.tile_runner.specs.steps.Running.{IsOver, IsReady};

use crate::worker::work;
use array_words::{Closed, close, start};
use io_ports::Gate;
use std::alloc::{AllocError, Global};
use std::sync::Wait;
use std::thread;
use std::thread::Threads;
use tile_core::{Pass, Plan, Words};

/// Runs every pass, on at most so many threads.
fn work_all<R: Threads + Wait + Sync, G: Gate>(
    rt: &R,
    words: &Words,
    passes: &mut [Pass],
    threads: usize,
    gate: &G,
)
    requires threads { 0 < threads }
    requires passes { All (IsReady words.now) passes.old }
    ensures passes { All (IsOver words.now) passes.new }
    ensures count { length passes.new ≡ length passes.old }
{
    thread::for_each_mut(
        rt,
        passes,
        threads,
        &|_, pass: &mut Pass|
            requires { IsReady words.now pass.old }
            ensures { IsOver words.entry.now pass.new }
        { work(rt, words, pass, gate) },
    );
}

/// Runs the plan on these cells with so many workers, each on a thread where there is one. All memory is taken before
/// the first claim. Where the cells are those of all arrays, one array behind another, and behind them stand zeros, the
/// copies of an expansion and the counters of tiles that are released one by one, each is left as the kernel's own
/// execution leaves it; with an expansion each is left as it was, and the copy of each place holds what that execution
/// stores there.
///
/// # Errors
/// `AllocError`; the cells are then as they were.
pub fn run_plan<'a, R: Threads + Wait + Sync, G: Gate>(
    rt: &R,
    alloc: Global,
    plan: Plan<'a>,
    cells: &mut Vec<u64>,
    workers: usize,
    gate: &G,
) -> Result<Closed<'a>, AllocError>
    requires plan { IsPlan plan }
    requires cells { length cells.old.items ≡ (shape_of plan).cells }
    requires rest { HasRest plan cells.old.items }
    requires some { 1 ≤ workers }
    requires few { workers ≤ 64 }
    ensures results { IfOk result (λ _. (contents : List (List ℕ)) → IsShaped (extents_in plan.entry) contents
        → HoldsContents contents cells.old.items → HoldsResults plan.entry contents cells.new.items) }
    ensures cells { IfOk result (λ _. IsClosed (plan_of plan.entry cells.old.items) cells.old.items cells.new.items) }
    ensures plan { IfOk result (λ c. c.plan ≡ plan.entry) }
    ensures ended { IfOk result (λ c. c.ended ≡ workers) }
    ensures unchanged { IfErr result (λ _. cells.new.items ≡ cells.old.items) }
{
    let (words, mut passes) = start(alloc, plan, cells, workers)?;
    work_all(rt, &words, &mut passes, workers, gate);
    Ok(close(words, passes, cells))
}
