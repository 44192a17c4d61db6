//! The two top calls. Their one clause, `Answered`, is the headline, the cause of each status, and completeness.

ghost use Rattle.std.specs.Prelude.{◌≡◌, ◌≤◌, ℕ, IfErr, IfOk, List, length, map, string_bytes, option_map};
ghost use Rattle.scop_syntax.specs.View.{program_of};
ghost use Rattle.tile_runs.specs.Plans.{HasRest, IsPlan, shape_of};
ghost use Rattle.tile_runs.specs.Running.{AreExecuted};
ghost use Rattle.plan_search.specs.Status.{Status};
ghost use Rattle.polypar.specs.Deserves.{Deserves, IsVerdict};
ghost use Rattle.command_line.specs.Command.{HasSize};
ghost use Rattle.polypar.specs.steps.Promises.{AnswersCommand, AnswersWords, Ends, TellsStatus};
ghost use Rattle.polypar.specs.Answered.{Answered};

use crate::generate::print_summary;
use crate::input::{Ending, run};
use command_line::{Command, CommandStop, command_of};
use data_text::{said_once, texts_say_what_lines_describe};
use io_ports::{Failed, Gate, Sink, Source};
use plan_search::{Status, status_line};
use scop_parser::{
    faults_leave_no_program, spelled_programs_are_kernels, texts_have_one_first_fault,
    texts_spell_a_program_or_have_a_fault, texts_spell_one_program,
};
use scop_syntax::{Kernel, accesses_have_the_ranks_of_arrays, failures_are_the_first};
use std::alloc::{AllocError, Global};
use std::sync::Wait;
use std::thread::Threads;
use tile_runs::{By, OneWorker, Plan, Workers, run_on_threads};

/// Does what the words ask for, and tells a status other than Done on `err` as the last act. Whatever number of workers
/// is asked for, one does the tiles of all, on the caller's thread: it starts no thread and waits for nobody.
pub fn plain_command<S: Source, O: Sink, E: Sink>(
    alloc: Global,
    words: &[String],
    source: &mut S,
    out: &mut O,
    err: &mut E,
) -> Status
    ensures { Answered (map string_bytes words.now) result (S.shows source.old) (S.shows source.new) (O.shows out.old)
        (O.shows out.new) (E.shows err.old) (E.shows err.new) }
{
    command_by(&OneWorker, alloc, words, source, out, err)
}

/// Does what the words ask for, as `plain_command`, but two or more workers run the tiles each on a thread of its own,
/// one where there is one.
pub fn polypar<R: Threads + Wait + Sync, S: Source, O: Sink, E: Sink, G: Gate>(
    rt: &R,
    alloc: Global,
    words: &[String],
    source: &mut S,
    out: &mut O,
    err: &mut E,
    gate: &G,
) -> Status
    ensures { Answered (map string_bytes words.now) result (S.shows source.old) (S.shows source.new) (O.shows out.old)
        (O.shows out.new) (E.shows err.old) (E.shows err.new) }
{
    let run = |alloc: Global, plan: Plan, cells: &mut Vec<u64>, workers: usize| -> Result<
        (),
        AllocError,
    >
        requires plan { IsPlan plan }
        requires cells { length cells.old.items ≡ (shape_of plan).cells }
        requires rest { HasRest plan cells.old.items }
        requires some { 1 ≤ workers }
        requires few { workers ≤ 64 }
        ensures arrays { IfOk result (λ _. AreExecuted plan.entry cells.old.items cells.new.items) }
        ensures unchanged { IfErr result (λ _. cells.new.items ≡ cells.old.items) }
    { run_on_threads(rt, alloc, gate, plan, cells, workers) };
    command_by(&By { run }, alloc, words, source, out, err)
}

/// Does what the words ask for, as `plain_command`, but these workers run the tiles.
pub fn command_by<W: Workers, S: Source, O: Sink, E: Sink>(
    by: &W,
    alloc: Global,
    words: &[String],
    source: &mut S,
    out: &mut O,
    err: &mut E,
) -> Status
    requires ready { W.ready by.now }
    ensures { Answered (map string_bytes words.now) result (S.shows source.old) (S.shows source.new) (O.shows out.old)
        (O.shows out.new) (E.shows err.old) (E.shows err.new) }
{
    deserved_once();
    let ending = answer(by, alloc, words, source, out, err);
    tell(ending.status, ending.kernel.as_ref(), err);
    ending.status
}

/// Any words and any input deserve a status, and only one; it is no fault and no want of memory.
pub fn deserved_once()
    ensures one { (words : List (List ℕ)) (input : List ℕ) (a b : Status) → Deserves words input a
        → Deserves words input b → a ≡ b }
    ensures some { (words : List (List ℕ)) (input : List ℕ)
        → (status : Status) × IsVerdict status × Deserves words input status }
{
    failures_are_the_first();
    accesses_have_the_ranks_of_arrays();
    texts_spell_one_program();
    texts_spell_a_program_or_have_a_fault();
    spelled_programs_are_kernels();
    faults_leave_no_program();
    texts_have_one_first_fault();
    said_once();
    texts_say_what_lines_describe();
}

/// All of a call but the line that tells its status.
fn answer<W: Workers, S: Source, O: Sink, E: Sink>(
    by: &W,
    alloc: Global,
    words: &[String],
    source: &mut S,
    out: &mut O,
    err: &mut E,
) -> Ending
    requires ready { W.ready by.now }
    ensures { Ends (AnswersWords (map string_bytes words.now) result.status (S.shows source.old) (S.shows source.new)
        (O.shows out.old) (O.shows out.new) (E.shows err.old) (E.shows err.new))
        result.status (option_map program_of result.kernel) (S.shows source.old) (S.shows source.new) }
{
    match command_of(alloc, words) {
        Ok(command) => answer_command(by, alloc, command, source, out, err),
        Err(CommandStop::Usage) => Ending::of(Status::Usage),
        Err(CommandStop::NoMemory) => Ending::of(Status::NoMemory),
    }
}

/// All of a command but the line that tells its status.
fn answer_command<W: Workers, S: Source, O: Sink, E: Sink>(
    by: &W,
    alloc: Global,
    command: Command,
    source: &mut S,
    out: &mut O,
    err: &mut E,
) -> Ending
    requires ready { W.ready by.now }
    requires size { HasSize command }
    ensures { Ends (AnswersCommand command result.status (S.shows source.old) (S.shows source.new)
        (O.shows out.old) (O.shows out.new) (E.shows err.old) (E.shows err.new))
        result.status (option_map program_of result.kernel) (S.shows source.old) (S.shows source.new) }
{
    let ending = end_of(by, alloc, command, source, out, err);
    match ending.status {
        Status::Done => match err.flush() {
            Ok(()) => ending,
            Err(Failed) => Ending {
                status: Status::WriteFault,
                kernel: ending.kernel,
            },
        },
        _ => ending,
    }
}

/// All of a command but the last flush and the line that tells its status.
fn end_of<W: Workers, S: Source, O: Sink, E: Sink>(
    by: &W,
    alloc: Global,
    command: Command,
    source: &mut S,
    out: &mut O,
    err: &mut E,
) -> Ending
    requires ready { W.ready by.now }
    requires size { HasSize command }
    ensures { Ends (AnswersCommand command result.status (S.shows source.old) (S.shows source.new)
        (O.shows out.old) (O.shows out.new) (E.shows err.old) (E.shows err.new))
        result.status (option_map program_of result.kernel) (S.shows source.old) (S.shows source.new) }
{
    match command {
        Command::Gen { generated, options } => {
            Ending::of(print_summary(by, alloc, generated, options, out, err))
        }
        reading => run(by, alloc, reading, source, out, err),
    }
}

/// Tells a status other than Done, with the names of the kernel that was read.
fn tell<E: Sink>(status: Status, kernel: Option<&Kernel>, err: &mut E)
    ensures { TellsStatus (option_map (λ k. program_of k.now) kernel.entry) status (E.shows err.old) (E.shows err.new) }
{
    match status {
        Status::Done => {}
        // The status stays where its line cannot be written.
        _ => {
            let _ = status_line(status, kernel, err);
        }
    }
}
