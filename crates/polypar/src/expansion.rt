//! How a run goes: by which plan, and whether each instance has a copy of its own cell. Where that is asked for, no
//! array is marked, the source of each read is told and there are few enough instances, the plan keeps in order a read
//! behind its last writer alone; else it is that of a run without copies, and a line tells why.

ghost use Rattle.std.specs.Prelude.{◌≡◌, ℤ, IfOk, List, [], true};
ghost use Rattle.scop_syntax.specs.Execution.{IsInside, layout};
ghost use Rattle.scop_syntax.specs.Kernel.{IsKernel};
ghost use Rattle.scop_syntax.specs.Limits.{WithinLimits};
ghost use Rattle.scop_syntax.specs.View.{program_of};
ghost use Rattle.tile_runs.specs.Expansions.{AreSourcesOf};
ghost use Rattle.iteration_domains.specs.Model.{model_of};
ghost use Rattle.command_line.specs.Command.{AreSized};
ghost use Rattle.plan_search.specs.Planned.{AreSourcesTold};
ghost use Rattle.polypar.specs.Expanding.{line_of_stop, marks_by};
ghost use Rattle.polypar.specs.steps.Courses.{HasNoCopies, IsCourse, IsExpansion, IsFirstLine};

use command_line::RunOptions;
use data_text::Case;
use iteration_domains::Model;
use pip_solver::Stop;
use plan_search::{
    Planned, ReadSource, SourceStop, UnexpandedLine, last_writes, planned, planned_by_flow,
};
use scop_syntax::Kernel;
use std::alloc::{AllocError, Global};
use tile_runs::{NoSources, Sources, sources_of};

/// How a run goes: by its plan; where it has the sources of all reads, each instance has a copy of its own cell; where
/// that was asked for and is not so, a line tells why.
#[derive(Drop)]
pub(crate) struct Course {
    pub(crate) plan: Planned,
    pub(crate) sources: Option<Sources>,
    pub(crate) unexpanded: Option<UnexpandedLine>,
}

/// What comes of an expansion that is asked for.
#[derive(Drop)]
enum Expansion {
    /// The sources of the kernel's reads, and those of the places of the walk.
    Told(Vec<ReadSource>, Sources),
    /// It is set aside.
    Aside(UnexpandedLine),
}

/// The line of a source that is not told; none for want of memory.
fn line_of_stop(stop: &SourceStop) -> Option<UnexpandedLine>
    ensures { result ≡ line_of_stop stop.now }
{
    match stop {
        SourceStop::Solver(Stop::Wide { .. }) => Some(UnexpandedLine::Wide),
        SourceStop::Solver(Stop::Spent { moves, .. }) => Some(UnexpandedLine::Spent(*moves)),
        SourceStop::Solver(Stop::NoMemory) => None,
        SourceStop::Join { nodes } => Some(UnexpandedLine::Nodes(*nodes)),
    }
}

/// The line of the first source that is not told, where there is one.
fn first_line(sources: &[ReadSource]) -> Result<Option<UnexpandedLine>, AllocError>
    ensures { IfOk result (IsFirstLine sources.now) }
{
    for source in sources {
        match source {
            ReadSource::Resolved(_) => {}
            ReadSource::Unresolved(stop) => match line_of_stop(stop) {
                Some(line) => return Ok(Some(line)),
                None => return Err(AllocError),
            },
        }
    }
    Ok(None)
}

/// What comes of an expansion where no array is marked and all sources are told.
fn with_places(
    alloc: Global,
    kernel: &Kernel,
    case: &Case,
    told: Vec<ReadSource>,
    options: RunOptions,
) -> Result<Expansion, AllocError>
    requires limits { WithinLimits (program_of kernel.now) case.now.params.items }
    requires laid { case.now.extents ≡ layout (program_of kernel.now) case.now.params.items }
    requires inside { IsInside (program_of kernel.now) case.now.params.items }
    requires marked { marks_by options (program_of kernel.now) ≡ [] }
    requires told { AreSourcesTold options.budget (program_of kernel.now) told.items }
    ensures { IfOk result (IsExpansion options (program_of kernel.now) case.now.params.items) }
{
    match sources_of(alloc, kernel, case) {
        Ok(sources) => Ok(Expansion::Told(told, sources)),
        Err(NoSources::Copies) => Ok(Expansion::Aside(UnexpandedLine::Copies)),
        Err(NoSources::NoMemory) => Err(AllocError),
    }
}

/// What comes of an expansion that is asked for.
fn expansion_of(
    alloc: Global,
    kernel: &Kernel,
    model: &Model,
    case: &Case,
    marked: &[usize],
    options: RunOptions,
) -> Result<Expansion, AllocError>
    requires kernel { IsKernel (program_of kernel.now) }
    requires model { model.now ≡ model_of (program_of kernel.now) }
    requires limits { WithinLimits (program_of kernel.now) case.now.params.items }
    requires laid { case.now.extents ≡ layout (program_of kernel.now) case.now.params.items }
    requires inside { IsInside (program_of kernel.now) case.now.params.items }
    requires marked { marked.now ≡ marks_by options (program_of kernel.now) }
    ensures { IfOk result (IsExpansion options (program_of kernel.now) case.now.params.items) }
{
    if !marked.is_empty() {
        return Ok(Expansion::Aside(UnexpandedLine::Reduce));
    }
    let told = last_writes(alloc, model, options.budget)?;
    match first_line(&told)? {
        Some(line) => Ok(Expansion::Aside(line)),
        None => with_places(alloc, kernel, case, told, options),
    }
}

/// A run without copies: its plan keeps conflicts in order but for those on marked arrays.
fn course_as_is(
    alloc: Global,
    kernel: &Kernel,
    model: &Model,
    marked: &[usize],
    options: RunOptions,
    unexpanded: Option<UnexpandedLine>,
) -> Result<Course, AllocError>
    requires kernel { IsKernel (program_of kernel.now) }
    requires model { model.now ≡ model_of (program_of kernel.now) }
    requires options { AreSized options }
    requires marked { marked.now ≡ marks_by options (program_of kernel.now) }
    ensures { (params : List ℤ) → HasNoCopies options (program_of kernel.now) params unexpanded
        → IfOk result (IsCourse options (program_of kernel.now) params) }
{
    let plan = planned(
        alloc,
        kernel,
        model,
        marked,
        options.tile,
        options.budget,
        options.report,
    )?;
    Ok(Course {
        plan,
        sources: None,
        unexpanded,
    })
}

/// A run whose sources are told: where its plan is tiled, each instance has a copy of its own; a kept order needs none.
fn course_by_flow(
    alloc: Global,
    kernel: &Kernel,
    model: &Model,
    told: &[ReadSource],
    sources: Sources,
    options: RunOptions,
) -> Result<Course, AllocError>
    requires kernel { IsKernel (program_of kernel.now) }
    requires model { model.now ≡ model_of (program_of kernel.now) }
    requires options { AreSized options }
    requires told { AreSourcesTold options.budget (program_of kernel.now) told.now }
    ensures { (params : List ℤ) → options.expand ≡ true → marks_by options (program_of kernel.now) ≡ []
        → AreSourcesOf (program_of kernel.now) params sources
        → IfOk result (IsCourse options (program_of kernel.now) params) }
{
    let plan = planned_by_flow(
        alloc,
        kernel,
        model,
        told,
        options.tile,
        options.budget,
        options.report,
    )?;
    if plan.is_tiled() {
        return Ok(Course {
            plan,
            sources: Some(sources),
            unexpanded: None,
        });
    }
    Ok(Course {
        plan,
        sources: None,
        unexpanded: None,
    })
}

/// How a run of a case by these options goes, where some arrays are marked.
///
/// # Errors
/// `AllocError` alone.
pub(crate) fn course_of(
    alloc: Global,
    kernel: &Kernel,
    case: &Case,
    marked: &[usize],
    options: RunOptions,
) -> Result<Course, AllocError>
    requires limits { WithinLimits (program_of kernel.now) case.now.params.items }
    requires laid { case.now.extents ≡ layout (program_of kernel.now) case.now.params.items }
    requires inside { IsInside (program_of kernel.now) case.now.params.items }
    requires options { AreSized options }
    requires marked { marked.now ≡ marks_by options (program_of kernel.now) }
    ensures { IfOk result (IsCourse options (program_of kernel.now) case.now.params.items) }
{
    let model = Model::of(alloc, kernel)?;
    if !options.expand {
        return course_as_is(alloc, kernel, &model, marked, options, None);
    }
    match expansion_of(alloc, kernel, &model, case, marked, options)? {
        Expansion::Told(told, sources) => {
            course_by_flow(alloc, kernel, &model, &told, sources, options)
        }
        Expansion::Aside(line) => {
            course_as_is(alloc, kernel, &model, marked, options, Some(line))
        }
    }
}
