//! The top call with a clock: what it answers, and on standard error how many nanoseconds after its start the tiles were
//! begun (what is read, planned and listed lies before), when they were done, and when it ended (what is written lies
//! between).

ghost use Rattle.std.specs.Prelude.{◌≡◌, ◌≤◌, IfErr, IfOk, length};
ghost use Rattle.tile_runs.specs.Plans.{HasRest, IsPlan, shape_of};
ghost use Rattle.tile_runs.specs.Running.{AreExecuted};

use io_ports::{OpenGate, Sink, Source};
use polypar::command_by;
use std::alloc::{AllocError, Global};
use std::io;
use std::sync::Wait;
use std::thread::Threads;
use std::time::{Clock, Instant};
use tile_runs::{By, Plan, run_on_threads};

/// Tells how many nanoseconds have passed since a start.
fn tell<R: Clock + Eprint>(rt: &R, what: &str, begun: &Instant) -> io::Result<()> {
    let passed = begun.elapsed(rt)?;
    eprintln!(rt; "{what} {}", passed.as_nanos())
}

/// Does what the words ask for, as `polypar` does, and tells when its tiles were begun and done, and when it ended.
pub fn clocked<R: Threads + Wait + Sync + Clock + Eprint, S: Source, O: Sink, E: Sink>(
    rt: &R,
    alloc: Global,
    words: &[String],
    source: &mut S,
    out: &mut O,
    err: &mut E,
) -> io::Result<()> {
    let begun = Instant::now(rt)?;
    let run = |alloc: Global, plan: Plan, cells: &mut Vec<u64>, workers: usize| -> Result<
        (),
        AllocError,
    >
        requires plan { IsPlan plan }
        requires cells { length cells.old.items ≡ (shape_of plan).cells }
        requires rest { HasRest plan cells.old.items }
        requires some { 1 ≤ workers }
        requires few { workers ≤ 64 }
        ensures arrays { IfOk result (λ _. AreExecuted plan.entry cells.old.items cells.new.items) }
        ensures unchanged { IfErr result (λ _. cells.new.items ≡ cells.old.items) }
    {
        let _told = tell(rt, "begun", &begun);
        let done = run_on_threads(rt, alloc, &OpenGate, plan, cells, workers);
        let _told = tell(rt, "done", &begun);
        done
    };
    let _status = command_by(&By { run }, alloc, words, source, out, err);
    tell(rt, "ended", &begun)
}
