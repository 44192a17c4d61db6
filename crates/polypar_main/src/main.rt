//! The program: makes the process's own streams and the open gate, calls `polypar`, and gives the exit status of its
//! answer. Its stored run is Done.
#![tactic(auto)]

use io_ports::{OpenGate, StdSink, StdSource, words};
use polypar::polypar;
use std::process::ExitCode;

/// Does what the words ask for over standard input, output and error.
fn main(rt: HostRuntime) -> ExitCode {
    let words = words(&rt);
    let mut source = StdSource::of(rt.stdin());
    let mut out = StdSink::of(rt.stdout());
    let mut err = StdSink::of(rt.stderr());
    let status = polypar(
        &rt,
        rt.alloc(),
        &words,
        &mut source,
        &mut out,
        &mut err,
        &OpenGate,
    );
    ExitCode::from(status.exit_code())
}
