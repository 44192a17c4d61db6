//! What a command that reads an input does: the source is read to its end and cut into a kernel and its data. For `run`
//! the data's case is run by the kernel's plan, and the final arrays are printed; for the other commands see `asked` and
//! `check`.

ghost use Rattle.std.specs.Prelude.{◌≡◌, MatchResult, Some, option_map};
ghost use Rattle.io_ports.specs.Writes.{Writes};
ghost use Rattle.scop_syntax.specs.View.{program_of};
ghost use Rattle.scop_syntax.specs.Kernel.{IsKernel};
ghost use Rattle.scop_syntax.specs.Execution.{layout, IsInside, IsShaped};
ghost use Rattle.scop_syntax.specs.Limits.{WithinLimits};
ghost use Rattle.data_text.specs.ArrayText.{array_text};
ghost use Rattle.polypar.specs.Case.{IsShort};
ghost use Rattle.polypar.specs.Deserves.{too_long};
ghost use Rattle.polypar.specs.steps.Promises.{AnswersCase, AnswersData, AnswersKernel, AnswersFor, AnswersCommand};
ghost use Rattle.polypar.specs.Told.{lines_and_arrays};
ghost use Rattle.polypar.specs.steps.Promises.{CutsTold, Ends, ReadsKernel, WritesTold};
ghost use Rattle.command_line.specs.Command.{AreSized, HasSize};
ghost use Rattle.polypar.specs.Answered.{NamesOf};

use crate::asked::print_asked;
use crate::check::check;
use crate::cut::cut;
use crate::index_check::outside_in;
use crate::run::run_planned;
use command_line::{Command, RunOptions};
use data_text::{Case, DataStop, read_data, write_arrays};
use io_ports::{Failed, ReadError, Sink, Source, read_to_end, write_whole};
use plan_search::{Refusal, RefusalKind, Status};
use scop_parser::{ReadKernelError, read_kernel};
use scop_syntax::{Kernel, accesses_have_the_ranks_of_arrays, failures_are_the_first};
use std::alloc::Global;
use tile_runs::Workers;

/// The longest input that is read, in bytes.
pub const LONGEST_INPUT: usize = 1 << 27;

/// How a run ended, and the kernel that it read: the line of the status has its names.
#[derive(Drop)]
pub(crate) struct Ending {
    pub(crate) status: Status,
    pub(crate) kernel: Option<Kernel>,
}

impl Ending {
    /// The end of a run that read no kernel.
    pub(crate) fn of(status: Status) -> Ending
        ensures { result ≡ record { status = status; kernel = None } }
    {
        Ending {
            status,
            kernel: None,
        }
    }
}

/// Reads the source to its end, and prints what the command asks for.
pub(crate) fn run<W: Workers, S: Source, O: Sink, E: Sink>(
    by: &W,
    alloc: Global,
    command: Command,
    source: &mut S,
    out: &mut O,
    err: &mut E,
) -> Ending
    requires ready { W.ready by.now }
    requires size { HasSize command }
    requires reads { ReadsKernel command }
    ensures { Ends (AnswersCommand command result.status (S.shows source.old) (S.shows source.new)
        (O.shows out.old) (O.shows out.new) (E.shows err.old) (E.shows err.new))
        result.status (option_map program_of result.kernel) (S.shows source.old) (S.shows source.new) }
{
    match read_to_end(alloc, source, LONGEST_INPUT) {
        Ok(input) => run_input(by, alloc, command, &input, out, err),
        Err(ReadError::Failed) => Ending::of(Status::ReadFault),
        Err(ReadError::TooLong) => Ending::of(too_long()),
        Err(ReadError::NoMemory) => Ending::of(Status::NoMemory),
    }
}

/// The refusal of an input that is too long, which stands at its first byte.
fn too_long() -> Status
    ensures { result ≡ too_long }
{
    Status::Refused(Refusal {
        kind: RefusalKind::TooLong,
        line: 1,
        column: 1,
    })
}

/// Reads the kernel of an input, and goes on with what the command asks.
fn run_input<W: Workers, O: Sink, E: Sink>(
    by: &W,
    alloc: Global,
    command: Command,
    input: &[u8],
    out: &mut O,
    err: &mut E,
) -> Ending
    requires ready { W.ready by.now }
    requires short { IsShort input.now }
    requires size { HasSize command }
    requires reads { ReadsKernel command }
    ensures answer { AnswersFor command result.status input.now (O.shows out.old) (O.shows out.new) (E.shows err.old)
        (E.shows err.new) }
    ensures names { NamesOf (Some input.now) result.status (option_map program_of result.kernel) }
{
    let parts = cut(input);
    match read_kernel(alloc, parts.kernel) {
        Ok(kernel) => {
            let status = run_command(by, alloc, command, &kernel, parts.case, out, err);
            Ending {
                status,
                kernel: Some(kernel),
            }
        }
        Err(ReadKernelError::Refused(refusal)) => Ending::of(Status::Refused(refusal)),
        Err(ReadKernelError::NoMemory) => Ending::of(Status::NoMemory),
    }
}

/// Goes on with what the command asks of a kernel; `text` is what stands behind it.
fn run_command<W: Workers, O: Sink, E: Sink>(
    by: &W,
    alloc: Global,
    command: Command,
    kernel: &Kernel,
    text: &[u8],
    out: &mut O,
    err: &mut E,
) -> Status
    requires ready { W.ready by.now }
    requires kernel { IsKernel (program_of kernel.now) }
    requires size { HasSize command }
    requires reads { ReadsKernel command }
    ensures { AnswersKernel command result (program_of kernel.now) text.now (O.shows out.old) (O.shows out.new)
        (E.shows err.old) (E.shows err.new) }
{
    match command {
        Command::Run(options) => run_kernel(by, alloc, kernel, text, options, out, err),
        Command::OfKernel(asked) => print_asked(alloc, kernel, asked, out, err),
        Command::Check => check(alloc, kernel, text, out),
        Command::Gen { .. } => unreachable!(),
    }
}

/// Reads the data of a kernel, and goes on with the case that it says.
fn run_kernel<W: Workers, O: Sink, E: Sink>(
    by: &W,
    alloc: Global,
    kernel: &Kernel,
    text: &[u8],
    options: RunOptions,
    out: &mut O,
    err: &mut E,
) -> Status
    requires ready { W.ready by.now }
    requires kernel { IsKernel (program_of kernel.now) }
    requires options { AreSized options }
    ensures { AnswersData options result (program_of kernel.now) text.now (O.shows out.old) (O.shows out.new)
        (E.shows err.old) (E.shows err.new) }
{
    match read_data(alloc, kernel, text) {
        Ok(mut case) => run_case(by, alloc, kernel, &mut case, options, out, err),
        Err(DataStop::Refused(refusal)) => Status::BadData(refusal),
        Err(DataStop::NoMemory) => Status::NoMemory,
    }
}

/// Checks the subscripts of a case, and runs it where all lie in their extents.
fn run_case<W: Workers, O: Sink, E: Sink>(
    by: &W,
    alloc: Global,
    kernel: &Kernel,
    case: &mut Case,
    options: RunOptions,
    out: &mut O,
    err: &mut E,
) -> Status
    requires ready { W.ready by.now }
    requires limits { WithinLimits (program_of kernel.now) case.old.params.items }
    requires shape { IsShaped case.old.extents case.old.arrays }
    requires extents { case.old.extents ≡ layout (program_of kernel.now) case.old.params.items }
    requires options { AreSized options }
    ensures { AnswersCase options result (program_of kernel.now) case.old.params.items case.old.arrays (O.shows out.old)
        (O.shows out.new) (E.shows err.old) (E.shows err.new) }
{
    accesses_have_the_ranks_of_arrays();
    failures_are_the_first();
    match outside_in(alloc, kernel, &case.params, &case.extents) {
        Some(outside) => Status::Outside(outside),
        None => run_inside(by, alloc, kernel, case, options, out, err),
    }
}

/// Runs a case whose subscripts all lie in their extents by the kernel's plan, and prints its lines and the arrays.
fn run_inside<W: Workers, O: Sink, E: Sink>(
    by: &W,
    alloc: Global,
    kernel: &Kernel,
    case: &mut Case,
    options: RunOptions,
    out: &mut O,
    err: &mut E,
) -> Status
    requires ready { W.ready by.now }
    requires limits { WithinLimits (program_of kernel.now) case.old.params.items }
    requires shape { IsShaped case.old.extents case.old.arrays }
    requires extents { case.old.extents ≡ layout (program_of kernel.now) case.old.params.items }
    requires inside { IsInside (program_of kernel.now) case.old.params.items }
    requires options { AreSized options }
    ensures { AnswersCase options result (program_of kernel.now) case.old.params.items case.old.arrays (O.shows out.old)
        (O.shows out.new) (E.shows err.old) (E.shows err.new) }
{
    match run_planned(by, alloc, kernel, case, options) {
        Ok(ran) => match print_run(kernel, case, &ran.lines, out, err) {
            Ok(()) => Status::Done,
            Err(Failed) => Status::WriteFault,
        },
        Err(_) => Status::NoMemory,
    }
}

/// Writes the text of a case's arrays, and flushes it.
#[tactic(auto, using(io_ports::proofs::PutTexts::flushed))]
fn print_arrays<O: Sink>(kernel: &Kernel, case: &Case, out: &mut O) -> Result<(), Failed>
    ensures { Writes (O.shows out.old) (O.shows out.new) (array_text (program_of kernel.now) case.now.arrays) result }
{
    match write_arrays(kernel, case, out) {
        Ok(()) => out.flush(),
        Err(failed) => Err(failed),
    }
}

/// Writes the lines of a run to `err`, and then the text of its arrays to `out`, which is flushed.
fn print_run<O: Sink, E: Sink>(
    kernel: &Kernel,
    case: &Case,
    lines: &[u8],
    out: &mut O,
    err: &mut E,
) -> Result<(), Failed>
    ensures { MatchResult result
        (λ _. WritesTold (lines_and_arrays (program_of kernel.now) case.now.arrays lines.now) (O.shows out.old) (O.shows out.new) (E.shows err.old) (E.shows err.new))
        (λ _. CutsTold (lines_and_arrays (program_of kernel.now) case.now.arrays lines.now) (O.shows out.old) (O.shows out.new) (E.shows err.old) (E.shows err.new)) }
{
    write_whole(err, lines)?;
    print_arrays(kernel, case, out)
}
