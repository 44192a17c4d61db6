//! The cases of an elimination: a system, a variable, and what the elimination answers.

ghost use Rattle.std.specs.Prelude.{◌<◌};
ghost use Rattle.integer_sets.specs.Constraints.{variables_in};

use crate::lines::Lines;
use crate::systems::{print_ended, read_system};
use fm_projection::{FmStop, eliminate};
use integer_sets::System;
use std::io;

/// Passes the lines in front that are an answer.
fn pass_answer(lines: &mut Lines) {
    for _ in 0..lines.left() {
        let inside = lines.begins("equality") || lines.begins("row");
        let last = lines.begins("end") || lines.begins("crowded") || lines.begins("wide");
        if !inside && !last {
            return;
        }
        lines.pass();
        if last {
            return;
        }
    }
}

/// Prints what the elimination of a variable, counted from 0, answers.
fn print_answer<R: Print + AllocGlobal>(rt: &R, system: &System, variable: usize) -> io::Result<()>
    requires { variable < variables_in system.now }
{
    match eliminate(rt.alloc(), system, variable) {
        Err(FmStop::Wide(_)) => println!(rt; "wide"),
        Err(FmStop::Crowded { pairs }) => println!(rt; "crowded {pairs}"),
        Err(FmStop::Large { number }) => println!(rt; "large {number}"),
        Err(FmStop::NoMemory) => println!(rt; "no memory"),
        Ok(result) => print_ended(rt, &result),
    }
}

/// Reads what is eliminated from a system, and prints it with the planner's answer. False where the line in front does
/// not say it.
fn eliminated<R: Print + AllocGlobal>(
    rt: &R,
    lines: &mut Lines,
    system: &System,
) -> io::Result<bool> {
    let [variable, _, _, _] = match lines.counts(rt.alloc(), "eliminate", 1)? {
        Some(counts) => counts,
        None => return Ok(false),
    };
    let variables = match system.dimensions().checked_add(system.parameters()) {
        Some(variables) => variables,
        None => return Ok(false),
    };
    if variable == 0 || variable > variables {
        return Ok(false);
    }
    lines.pass();
    pass_answer(lines);
    println!(rt; "eliminate {variable}")?;
    print_answer(rt, system, variable - 1)?;
    Ok(true)
}

/// Reads a case, leaves its answer out of account, and prints it with that of the planner. False where the line in
/// front is not what it is to be.
pub fn elimination<R: Print + AllocGlobal>(rt: &R, lines: &mut Lines) -> io::Result<bool> {
    match read_system(rt, lines)? {
        Some(system) => eliminated(rt, lines, &system),
        None => Ok(false),
    }
}
