//! What the benches time: the program of `bench/forms.sh`, `bench/farkas.sh` and `bench/workers.sh`.
//!
//! `bench_cases CASE ROUNDS` does a case so many times and prints what it leaves. `multiply_add`, `multiply_add_wide`, `value_at` and
//! `row_operation` are the planner's innermost steps; `conflicts`, `legal` and `bounded` are the planner's calls on the
//! kernel on standard input; `all` is each in turn. With any other words it does what `polypar` does, and tells the time.
#![tactic(auto)]

mod clocked;
mod rows;
mod steps;

use crate::clocked::clocked;
use io_ports::{StdSink, StdSource, words};
use std::io;
use std::io::Read;
use std::process::ExitCode;

/// Every case by its name.
const CASES: [&str; 7] = [
    "multiply_add",
    "multiply_add_wide",
    "value_at",
    "row_operation",
    "conflicts",
    "legal",
    "bounded",
];

/// Does the case of this name; false where there is none, or the kernel does not serve.
fn repeat(rt: &HostRuntime, case: &str, rounds: u64, text: &[u8]) -> io::Result<bool> {
    if let Some(step) = steps::step_of(case) {
        steps::report(rt, step, rounds)?;
        return Ok(true);
    }
    match rows::call_of(case) {
        Some(call) => rows::report(rt, call, rounds, text),
        None => Ok(false),
    }
}

/// Does every case; false from the first that the kernel does not serve.
fn repeat_each(rt: &HostRuntime, rounds: u64, text: &[u8]) -> io::Result<bool> {
    for case in CASES {
        if !repeat(rt, case, rounds, text)? {
            return Ok(false);
        }
    }
    Ok(true)
}

/// Does a case, or every one, on standard input; false where there is no such case, or the kernel does not serve.
fn repeat_named(rt: &HostRuntime, case: &str, rounds: u64) -> io::Result<bool> {
    let mut text = Vec::new(rt.alloc());
    let _count = rt.stdin().read_to_end(&mut text)?;
    match case {
        "all" => repeat_each(rt, rounds, &text),
        _ => repeat(rt, case, rounds, &text),
    }
}

/// The case and the rounds that words ask for, where they are a name and a number.
fn case_of(words: &[String]) -> Option<(&str, u64)> {
    if words.len() != 3 {
        return None;
    }
    match words[2].as_str().parse::<u64>() {
        Ok(rounds) => Some((words[1].as_str(), rounds)),
        Err(_) => None,
    }
}

/// Does a case, or what `polypar` does over standard input, output and error, with a clock.
fn main(rt: HostRuntime) -> ExitCode {
    let words = words(&rt);
    if let Some((case, rounds)) = case_of(&words) {
        return match repeat_named(&rt, case, rounds) {
            Ok(true) => ExitCode::SUCCESS,
            _ => ExitCode::FAILURE,
        };
    }
    let mut source = StdSource::of(rt.stdin());
    let mut out = StdSink::of(rt.stdout());
    let mut err = StdSink::of(rt.stderr());
    match clocked(&rt, rt.alloc(), &words, &mut source, &mut out, &mut err) {
        Ok(()) => ExitCode::SUCCESS,
        Err(_) => ExitCode::FAILURE,
    }
}
