//! Reads cases on standard input, leaves their answers out of account, and prints them again with the program's own: a
//! file whose answers are right comes out as it went in. Records of whole calls stand first, then cases by lines.
//!
//! A record has four parts, and a line feed of its own ends each: the line `case NAME EXIT INPUT OUT ERR WORD ..`, the
//! input, what standard output gains, what standard error gains. INPUT, OUT and ERR count the bytes of these three,
//! which may be any bytes. EXIT is the exit status. The words are those of the command line behind the program's name.
//!
//! A case of the solver is `problem UNKNOWNS PARAMETERS BUDGET`, lines `row A .. B .. CONSTANT`, lines `context B ..
//! CONSTANT`, and `answer quast MOVES Q`, `answer spent MOVES` or `answer wide MOVES`. Q is `none`, `(leaf F ..)`,
//! `(if F Q Q)` or `(let F D Q)`, F the numbers of a form in brackets. With a word TIMES each problem is solved so many
//! times over, and answered once: so `bench/lexmin.sh` tells the time of solving from that of reading and printing.
//!
//! A case of an elimination is `system DIMENSIONS PARAMETERS`, its lines `equality C .. CONSTANT` and then `row C ..
//! CONSTANT`, the line `eliminate V` (variables count from 1, parameters behind dimensions), and the answer: the lines
//! of the result and `end`, or `crowded PAIRS`, or `wide`.
//!
//! A case of Farkas's lemma is `dep SOURCE LOOPS TARGET LOOPS` with its system, and the answers: `legal N` and `bounded
//! N`, each with the lines of the rows over the N unknowns and `end`; or `legal stuck KIND NUMBER`.
//!
//! A case of a kernel is `kernel BYTES` and the text, which has so many bytes, and the answers: `domain SN` with its
//! system for each statement, `dep SOURCE ACCESS TARGET ACCESS DEPTH` with its system for each conflict, and `end`.
//!
//! At a line that begins no such case, or is not what it is to be, or behind a text that is no kernel, the program
//! prints `unknown: LINE` and ends. In the stored input the answers are left out, or wrong, in many places, so that an
//! echo would not pass.
#![tactic(auto)]

mod answer;
mod calls;
mod dependences;
mod elimination;
mod forms;
mod lines;
mod model;
mod problem;
mod quast;
mod systems;

use answer::print_answered;
use calls::first_call;
use dependences::farkas_rows;
use elimination::elimination;
use lines::Lines;
use model::domains_and_conflicts;
use problem::problem;
use std::io::Read;
use std::rt::Env;
use std::{env, io};

/// How many times each problem is solved: what the first word says, once where it says none.
fn times<R: AllocGlobal + Env>(rt: &R) -> io::Result<u64> {
    let words: Vec<String> = env::args(rt)?.collect(rt.alloc())?;
    if words.len() < 2 {
        return Ok(1);
    }
    Ok(words[1].as_str().parse::<u64>().unwrap_or(1))
}

/// Prints the records of calls at the front of a text with the program's answers; the text behind them.
fn print_calls<'a>(rt: &HostRuntime, text: &'a [u8]) -> io::Result<&'a [u8]> {
    let mut rest = text;
    for _ in 0..text.len() {
        match first_call(rt.alloc(), rest)? {
            None => return Ok(rest),
            Some(call) => {
                print_answered(rt, &call)?;
                rest = call.rest;
            }
        }
    }
    Ok(rest)
}

/// Prints the case by lines in front with the program's answers. False where the line in front begins none.
fn print_case(rt: &HostRuntime, lines: &mut Lines, times: u64) -> io::Result<bool> {
    if lines.begins("problem") {
        problem(rt, lines, times)
    } else if lines.begins("dep") {
        farkas_rows(rt, lines)
    } else if lines.begins("kernel") {
        domains_and_conflicts(rt, lines)
    } else {
        elimination(rt, lines)
    }
}

/// Prints the cases of a text with the program's answers.
fn print_cases(rt: &HostRuntime, text: &[u8], times: u64) -> io::Result<()> {
    let rest = print_calls(rt, text)?;
    let mut lines = Lines::of(rt.alloc(), rest)?;
    for _ in 0..lines.left() {
        if lines.left() == 0 {
            return Ok(());
        }
        if !print_case(rt, &mut lines, times)? {
            return println!(rt; "unknown: {}", lines.front());
        }
    }
    Ok(())
}

fn main(rt: HostRuntime) -> io::Result<()> {
    let times = times(&rt)?;
    let mut text = Vec::new(rt.alloc());
    let _count = rt.stdin().read_to_end(&mut text)?;
    print_cases(&rt, &text, times)
}
