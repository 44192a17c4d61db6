//! The command `gen`: a generated kernel is planned and run as by `run`, and a summary of what it left is printed.

ghost use Rattle.std.specs.Prelude.{◌≡◌, ◌≤◌, false, IfOk};
ghost use Rattle.kernel_gen.specs.Cases.{params, program};
ghost use Rattle.kernel_gen.specs.Totals.{cells_in, sum_of};
ghost use Rattle.command_line.specs.Command.{AreSized};
ghost use Rattle.command_line.specs.declared.command.Sync.TheVariants.{Waves};
ghost use Rattle.polypar.specs.steps.Promises.{AnswersTold};
ghost use Rattle.polypar.specs.Runs.{IsPlanTold, IsSummaryText, left_by};
ghost use Rattle.polypar.specs.Told.{IsHeld, told_of};

use crate::asked::print_made;
use crate::run::{Ran, run_planned};
use crate::told::Told;
use command_line::{GeneratedKernel, RunOptions, Sync};
use io_ports::Sink;
use kernel_gen::{cells_in, generated, sum_of, summary};
use plan_search::Status;
use std::alloc::{AllocError, Global};
use tile_runs::Workers;

/// Runs a generated kernel by waves and without copies: what that leaves to tell, without a report, how many cells its
/// arrays have, and their sum.
fn run_generated<W: Workers>(
    by: &W,
    alloc: Global,
    kernel: GeneratedKernel,
    options: RunOptions,
) -> Result<(Ran, u64, u64), AllocError>
    requires ready { W.ready by.now }
    requires size { (1 ≤ kernel.size) × (kernel.size ≤ 512) }
    requires options { AreSized options }
    ensures told { IfOk result (λ left. IsPlanTold (record options
        { report = false; expand = false; sync = Waves; reduce = false }) (program kernel.kind kernel.seed)
        (params kernel.kind kernel.size) left.0.counts.tiles left.0.counts.waves left.0.lines.items) }
    ensures cells { IfOk result (λ left. left.1 ≡ cells_in (left_by kernel)) }
    ensures sum { IfOk result (λ left. left.2 ≡ sum_of (left_by kernel)) }
{
    let GeneratedKernel { kind, seed, size } = kernel;
    let (made, mut case) = generated(alloc, kind, seed, size)?;
    let quiet = RunOptions {
        report: false,
        expand: false,
        sync: Sync::Waves,
        reduce: false,
        ..options
    };
    match run_planned(by, alloc, &made, &mut case, quiet) {
        Ok(ran) => Ok((ran, cells_in(&case), sum_of(&case.arrays))),
        Err(_) => Err(AllocError),
    }
}

/// The summary of a generated kernel's run, behind the line of a kept order, if it is kept.
fn summary_told<W: Workers>(
    by: &W,
    alloc: Global,
    kernel: GeneratedKernel,
    options: RunOptions,
) -> Result<Told, AllocError>
    requires ready { W.ready by.now }
    requires size { (1 ≤ kernel.size) × (kernel.size ≤ 512) }
    requires options { AreSized options }
    ensures { IfOk result (λ told. IsSummaryText kernel options (told_of told)) }
{
    let (ran, cells, sum) = run_generated(by, alloc, kernel, options)?;
    let text = summary(
        alloc,
        kernel.kind,
        kernel.seed,
        kernel.size,
        ran.counts.tiles,
        ran.counts.waves,
        cells,
        sum,
    )?;
    Ok(Told {
        lines: ran.lines,
        text,
    })
}

/// Runs a generated kernel, and prints the summary.
pub(crate) fn print_summary<W: Workers, O: Sink, E: Sink>(
    by: &W,
    alloc: Global,
    kernel: GeneratedKernel,
    options: RunOptions,
    out: &mut O,
    err: &mut E,
) -> Status
    requires ready { W.ready by.now }
    requires size { (1 ≤ kernel.size) × (kernel.size ≤ 512) }
    requires options { AreSized options }
    ensures { AnswersTold (λ told. IsSummaryText kernel options told × IsHeld told) result (O.shows out.old)
        (O.shows out.new) (E.shows err.old) (E.shows err.new) }
{
    print_made(summary_told(by, alloc, kernel, options), out, err)
}
