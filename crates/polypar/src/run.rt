//! The run of a case by the plan of its kernel, and what is told of that plan on lines.

ghost use Rattle.std.specs.Prelude.{◌≡◌, ◌++◌, [], IfOk, if◌then◌else◌};
ghost use Rattle.scop_syntax.specs.Execution.{IsInside, IsShaped, exec, layout};
ghost use Rattle.scop_syntax.specs.Limits.{WithinLimits};
ghost use Rattle.scop_syntax.specs.View.{program_of};
ghost use Rattle.command_line.specs.Command.{AreSized};
ghost use Rattle.plan_search.specs.TilesText.{tiles_text};
ghost use Rattle.polypar.specs.Expanding.{marks_by};
ghost use Rattle.polypar.specs.Runs.{IsPlanTold, are_released, edges_line, release_line, unexpanded_line};

use crate::expansion::{Course, course_of};
use command_line::{RunOptions, Sync};
use data_text::Case;
use plan_search::{
    UnexpandedLine, edges_text, tiles_text, unexpanded_text, waves_edges_text, waves_reduce_text,
};
use scop_syntax::{Kernel, marked_arrays, marks_are_the_reduced_arrays};
use std::alloc::{AllocError, Global};
use tile_runs::{Counts, Workers, run_case};

/// What a run leaves to tell: the lines of its plan, and how many tiles and waves that has, and how many pairs of tiles.
#[derive(Drop)]
pub(crate) struct Ran {
    pub(crate) lines: Vec<u8>,
    pub(crate) counts: Counts,
}

/// The arrays that are marked: where sums may be made in any order, those that the kernel's statements only add to.
fn marks_by(alloc: Global, kernel: &Kernel, options: RunOptions) -> Result<Vec<usize>, AllocError>
    ensures { IfOk result (λ v. v.items ≡ marks_by options (program_of kernel.now)) }
{
    if options.reduce {
        return marked_arrays(alloc, kernel);
    }
    Ok(Vec::new(alloc))
}

/// Whether tiles begin when those that they wait for have released them: where it is asked for, and no array is marked.
fn are_released(sync: Sync, unmarked: bool) -> bool
    ensures { result ≡ are_released sync unmarked }
{
    match sync {
        Sync::Waves => false,
        Sync::Tiles => unmarked,
    }
}

/// The first line: why no instance has a copy of its own, where that was asked for.
fn unexpanded_line(alloc: Global, line: Option<UnexpandedLine>) -> Result<Vec<u8>, AllocError>
    ensures { IfOk result (λ text. text.items ≡ unexpanded_line line) }
{
    match line {
        Some(line) => unexpanded_text(alloc, line),
        None => Ok(Vec::new(alloc)),
    }
}

/// The next line: that tiles begin by waves, where it was asked for otherwise.
fn release_line(
    alloc: Global,
    sync: Sync,
    unmarked: bool,
    edges: Option<u64>,
) -> Result<Vec<u8>, AllocError>
    ensures { IfOk result (λ text. text.items ≡ release_line sync unmarked edges) }
{
    match (sync, unmarked, edges) {
        (Sync::Tiles, false, _) => waves_reduce_text(alloc),
        (Sync::Tiles, true, None) => waves_edges_text(alloc),
        _ => Ok(Vec::new(alloc)),
    }
}

/// The last line of a report: how many pairs of tiles there are, where they were counted.
fn edges_line(alloc: Global, edges: Option<u64>) -> Result<Vec<u8>, AllocError>
    ensures { IfOk result (λ text. text.items ≡ edges_line edges) }
{
    match edges {
        Some(edges) => edges_text(alloc, edges),
        None => Ok(Vec::new(alloc)),
    }
}

/// The last lines of a report: how many tiles, waves and workers there are, and how many pairs of tiles.
fn counts_lines(alloc: Global, counts: Counts, workers: u64) -> Result<Vec<u8>, AllocError>
    ensures { IfOk result (λ text. text.items
        ≡ tiles_text counts.tiles counts.waves workers ++ edges_line counts.edges) }
{
    let mut text = tiles_text(alloc, counts.tiles, counts.waves, workers)?;
    let last = edges_line(alloc, counts.edges)?;
    text.extend_from_slice(&last)?;
    Ok(text)
}

/// What is told of a run behind the line that tells why it has no copies: first that tiles begin by waves, where it was
/// asked for otherwise, then the lines of its plan, and behind them the numbers of a report, where one is asked for.
fn plan_lines(
    alloc: Global,
    lines: &[u8],
    counts: Counts,
    unmarked: bool,
    options: RunOptions,
) -> Result<Vec<u8>, AllocError>
    ensures { IfOk result (λ text. text.items ≡ release_line options.sync unmarked counts.edges
        ++ (lines.now ++ (if options.report
        then tiles_text counts.tiles counts.waves options.workers ++ edges_line counts.edges
        else []))) }
{
    let mut told = release_line(alloc, options.sync, unmarked, counts.edges)?;
    told.extend_from_slice(lines)?;
    if options.report {
        let last = counts_lines(alloc, counts, options.workers)?;
        told.extend_from_slice(&last)?;
    }
    Ok(told)
}

/// What is told of a run: why it has no copies, where they were asked for, and then the lines of its plan.
fn run_lines(
    alloc: Global,
    unexpanded: Option<UnexpandedLine>,
    lines: Vec<u8>,
    counts: Counts,
    unmarked: bool,
    options: RunOptions,
) -> Result<Ran, AllocError>
    ensures lines { IfOk result (λ ran. ran.lines.items ≡ unexpanded_line unexpanded
        ++ (release_line options.sync unmarked counts.edges ++ (lines.items ++ (if options.report
        then tiles_text counts.tiles counts.waves options.workers ++ edges_line counts.edges
        else [])))) }
    ensures counts { IfOk result (λ ran. ran.counts ≡ counts) }
{
    let mut told = unexpanded_line(alloc, unexpanded)?;
    let behind = plan_lines(alloc, &lines, counts, unmarked, options)?;
    told.extend_from_slice(&behind)?;
    Ok(Ran {
        lines: told,
        counts,
    })
}

/// Plans a kernel and runs a case of it, whose subscripts are all inside, by that plan.
///
/// # Errors
/// `AllocError` alone.
pub(crate) fn run_planned<W: Workers>(
    by: &W,
    alloc: Global,
    kernel: &Kernel,
    case: &mut Case,
    options: RunOptions,
) -> Result<Ran, AllocError>
    requires ready { W.ready by.now }
    requires limits { WithinLimits (program_of kernel.now) case.old.params.items }
    requires extents { case.old.extents ≡ layout (program_of kernel.now) case.old.params.items }
    requires shape { IsShaped case.old.extents case.old.arrays }
    requires inside { IsInside (program_of kernel.now) case.old.params.items }
    requires options { AreSized options }
    ensures arrays { IfOk result (λ _. case.new.arrays
        ≡ exec (program_of kernel.now) case.old.params.items case.old.arrays) }
    ensures shape { IfOk result (λ _. IsShaped case.new.extents case.new.arrays) }
    ensures extents { IfOk result (λ _. case.new.extents ≡ case.old.extents) }
    ensures told { IfOk result (λ ran. IsPlanTold options (program_of kernel.now) case.old.params.items
        ran.counts.tiles ran.counts.waves ran.lines.items) }
{
    marks_are_the_reduced_arrays();
    let marks = marks_by(alloc, kernel, options)?;
    let marked = marks.as_slice();
    let unmarked = marked.is_empty();
    let Course {
        plan,
        sources,
        unexpanded,
    } = course_of(alloc, kernel, case, marked, options)?;
    match run_case(
        by,
        alloc,
        kernel,
        case,
        &plan.tree,
        &plan.tiling,
        plan.added(marked),
        sources,
        are_released(options.sync, unmarked),
        options.workers,
    ) {
        Ok(counts) => Ok(run_lines(alloc, unexpanded, plan.lines, counts, unmarked, options)?),
        Err(_) => Err(AllocError),
    }
}
