//! The search for a kernel's plan: the tiles of its schedule; where the search or the scan of the schedule's sets
//! stops, the kernel's own order. What the schedule keeps in order are all conflicts, or, for runs in which each
//! instance has a copy of its own, reads behind their last writers alone.

ghost use Rattle.std.specs.Prelude.{◌≡◌, ◌≤◌, ℕ, IfOk, List};
ghost use Rattle.scop_syntax.specs.Kernel.{IsKernel};
ghost use Rattle.scop_syntax.specs.View.{program_of};
ghost use Rattle.iteration_domains.specs.Dependence.{Dependence};
ghost use Rattle.iteration_domains.specs.Model.{model_of};
ghost use Rattle.pluto_search.specs.Schedule.{IsScheduled};
ghost use Rattle.plan_tree.specs.Schedules.{IsScheduleFor};
ghost use Rattle.plan_search.specs.Found.{HoldFor, LieBetween};
ghost use Rattle.plan_search.specs.Planned.{AreSourcesTold, IsExpandedPlan, IsPlanned};
ghost use Rattle.plan_search.specs.Planning.{IsSearched};
ghost use Rattle.plan_search.specs.steps.Plans.{IsPlanOver};

use crate::lines::line_of;
use crate::plans::{Planned, kept_plan, tiled_plan};
use crate::schedules::{covers, schedule_of};
use dataflow::{ReadSource, flow, flow_holds_the_sources, flow_lies_between_statements};
use iteration_domains::{Dep, Model};
use plan_tree::{flow_schedules_have_flow_trees, rows_of_schedules_fit, tiled_tree};
use pluto_search::{Schedule, Stuck};
use scop_syntax::Kernel;
use std::alloc::{AllocError, Global};

/// The plan of a schedule's tiles, or that of the kernel's own order where the scan of the schedule's sets stops.
fn schedule_plan(
    alloc: Global,
    kernel: &Kernel,
    schedule: &Schedule,
    tile: u64,
    budget: u64,
    report: bool,
) -> Result<Planned, AllocError>
    requires tile { (1 ≤ tile) × (tile ≤ 1024) }
    requires program { (marked : List ℕ) × IsScheduleFor (program_of kernel.now) marked schedule.now }
    ensures { (s : IsScheduled schedule.now) (deps : List Dependence) (marked : List ℕ)
        → IsScheduleFor (program_of kernel.now) marked schedule.now
        → IsSearched budget deps (model_of (program_of kernel.now)) s.blocks
        → IfOk result (IsPlanOver tile budget report deps marked (program_of kernel.now)) }
{
    rows_of_schedules_fit();
    match tiled_tree(alloc, schedule, tile, budget) {
        Ok((tree, tiling)) => tiled_plan(alloc, schedule, tree, tiling, report),
        Err(stop) => {
            let stuck = Stuck::Elimination(stop);
            let line = line_of(&stuck);
            drop(stuck);
            kept_plan(alloc, kernel, line)
        }
    }
}

/// The plan of the schedule that is found over these dependences, or of the kernel's own order where the search stops.
fn plan_over(
    alloc: Global,
    kernel: &Kernel,
    model: &Model,
    deps: &[Dep],
    tile: u64,
    budget: u64,
    report: bool,
) -> Result<Planned, AllocError>
    requires kernel { IsKernel (program_of kernel.now) }
    requires model { model.now ≡ model_of (program_of kernel.now) }
    requires between { LieBetween model.now deps.now }
    requires held { (marked : List ℕ) × HoldFor (program_of kernel.now) marked deps.now }
    requires tile { (1 ≤ tile) × (tile ≤ 1024) }
    ensures { (marked : List ℕ) → HoldFor (program_of kernel.now) marked deps.now
        → IfOk result (IsPlanOver tile budget report deps.now marked (program_of kernel.now)) }
{
    match schedule_of(alloc, model, deps, budget) {
        Ok(schedule) => schedule_plan(alloc, kernel, &schedule, tile, budget, report),
        Err(line) => kept_plan(alloc, kernel, line),
    }
}

/// The plan of a kernel for tiles of this size, where each question of the search may make `budget` moves of the solver:
/// that of the schedule which is found, told where a report is asked for, or the kept order with the line of its cause.
/// Conflicts on marked arrays are not kept in order.
///
/// # Errors
/// `AllocError` alone.
pub fn planned(
    alloc: Global,
    kernel: &Kernel,
    model: &Model,
    marked: &[usize],
    tile: u64,
    budget: u64,
    report: bool,
) -> Result<Planned, AllocError>
    requires kernel { IsKernel (program_of kernel.now) }
    requires model { model.now ≡ model_of (program_of kernel.now) }
    requires tile { (1 ≤ tile) × (tile ≤ 1024) }
    ensures { IfOk result (IsPlanned tile budget report marked.now (program_of kernel.now)) }
{
    let deps = match covers(alloc, model, marked, budget) {
        Ok(deps) => deps,
        Err(_) => return Err(AllocError),
    };
    plan_over(alloc, kernel, model, &deps, tile, budget, report)
}

/// The plan of a kernel for runs in which each instance has a copy of its own: as `planned`, where the schedule keeps
/// in order only reads behind their last writers. `sources` are those that `last_writes` tells for the model.
///
/// # Errors
/// `AllocError` alone.
pub fn planned_by_flow(
    alloc: Global,
    kernel: &Kernel,
    model: &Model,
    sources: &[ReadSource],
    tile: u64,
    budget: u64,
    report: bool,
) -> Result<Planned, AllocError>
    requires kernel { IsKernel (program_of kernel.now) }
    requires model { model.now ≡ model_of (program_of kernel.now) }
    requires sources { AreSourcesTold budget (program_of kernel.now) sources.now }
    requires tile { (1 ≤ tile) × (tile ≤ 1024) }
    ensures { IfOk result (IsExpandedPlan tile budget report (program_of kernel.now)) }
{
    flow_holds_the_sources();
    flow_lies_between_statements();
    flow_schedules_have_flow_trees();
    let deps = match flow(alloc, model, sources) {
        Ok(deps) => deps,
        Err(_) => return Err(AllocError),
    };
    plan_over(alloc, kernel, model, &deps, tile, budget, report)
}
