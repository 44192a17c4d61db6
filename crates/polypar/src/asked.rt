//! What a command asks of a kernel alone, by `schedule`, `deps`, `emit` or `certify`: it is told, and printed.

ghost use Rattle.std.specs.Prelude.{◌≡◌, IfOk, MatchResult};
ghost use Rattle.io_ports.specs.Writes.{Writes};
ghost use Rattle.scop_syntax.specs.Kernel.{IsKernel};
ghost use Rattle.scop_syntax.specs.View.{program_of};
ghost use Rattle.iteration_domains.specs.Model.{model_of};
ghost use Rattle.polypar.specs.Told.{told_of};
ghost use Rattle.polypar.specs.KernelText.{IsTextFor};
ghost use Rattle.command_line.specs.Command.{IsSized};
ghost use Rattle.polypar.specs.steps.Promises.{AnswersMade, AnswersProgram, WritesTold, CutsTold};

use crate::certify::certificate_told;
use crate::deps::sources_told;
use crate::emit::loops_told;
use crate::schedule::plan_told;
use crate::told::Told;
use command_line::KernelCommand;
use io_ports::{Failed, Sink, write_whole};
use iteration_domains::Model;
use plan_search::Status;
use scop_syntax::Kernel;
use std::alloc::{AllocError, Global};

/// What a command asks of a kernel with this model.
fn model_told(
    alloc: Global,
    kernel: &Kernel,
    model: &Model,
    asked: KernelCommand,
) -> Result<Told, AllocError>
    requires kernel { IsKernel (program_of kernel.now) }
    requires model { model.now ≡ model_of (program_of kernel.now) }
    requires size { IsSized asked }
    ensures { IfOk result (λ told. IsTextFor asked (program_of kernel.now) (told_of told)) }
{
    match asked {
        KernelCommand::Schedule { budget } => plan_told(alloc, model, budget),
        KernelCommand::Deps { budget } => sources_told(alloc, kernel, model, budget),
        KernelCommand::Emit { tile, budget } => loops_told(alloc, kernel, model, tile, budget),
        KernelCommand::Certify { budget } => certificate_told(alloc, kernel, model, budget),
    }
}

/// What a command asks of a kernel.
fn kernel_told(alloc: Global, kernel: &Kernel, asked: KernelCommand) -> Result<Told, AllocError>
    requires kernel { IsKernel (program_of kernel.now) }
    requires size { IsSized asked }
    ensures { IfOk result (λ told. IsTextFor asked (program_of kernel.now) (told_of told)) }
{
    match Model::of(alloc, kernel) {
        Ok(model) => model_told(alloc, kernel, &model, asked),
        Err(_) => Err(AllocError),
    }
}

/// Writes a text, and flushes it.
#[tactic(auto, using(io_ports::proofs::PutTexts::flushed))]
pub(crate) fn print_text<O: Sink>(text: &[u8], out: &mut O) -> Result<(), Failed>
    ensures { Writes (O.shows out.old) (O.shows out.new) text.now result }
{
    match write_whole(out, text) {
        Ok(()) => out.flush(),
        Err(failed) => Err(failed),
    }
}

/// Writes what is told: the lines to `err`, and then the text to `out`, which is flushed.
pub(crate) fn print_told<O: Sink, E: Sink>(
    told: &Told,
    out: &mut O,
    err: &mut E,
) -> Result<(), Failed>
    ensures { MatchResult result
        (λ _. WritesTold (told_of told.now) (O.shows out.old) (O.shows out.new) (E.shows err.old) (E.shows err.new))
        (λ _. CutsTold (told_of told.now) (O.shows out.old) (O.shows out.new) (E.shows err.old) (E.shows err.new)) }
{
    match write_whole(err, &told.lines) {
        Ok(()) => print_text(&told.text, out),
        Err(failed) => Err(failed),
    }
}

/// Prints what was made to be told; where it was not made, memory ran out.
#[tactic(auto, using(crate::proofs::PrintLemmas::held))]
pub(crate) fn print_made<O: Sink, E: Sink>(
    made: Result<Told, AllocError>,
    out: &mut O,
    err: &mut E,
) -> Status
    ensures { AnswersMade made result (O.shows out.old) (O.shows out.new) (E.shows err.old) (E.shows err.new) }
{
    match made {
        Ok(told) => match print_told(&told, out, err) {
            Ok(()) => Status::Done,
            Err(Failed) => Status::WriteFault,
        },
        Err(_) => Status::NoMemory,
    }
}

/// Prints what a command asks of a kernel.
pub(crate) fn print_asked<O: Sink, E: Sink>(
    alloc: Global,
    kernel: &Kernel,
    asked: KernelCommand,
    out: &mut O,
    err: &mut E,
) -> Status
    requires kernel { IsKernel (program_of kernel.now) }
    requires size { IsSized asked }
    ensures { AnswersProgram asked result (program_of kernel.now) (O.shows out.old) (O.shows out.new) (E.shows err.old)
        (E.shows err.new) }
{
    print_made(kernel_told(alloc, kernel, asked), out, err)
}
