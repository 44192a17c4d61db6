//! The cases of Farkas's lemma: a dependence, and its legal and its bounded rows.

use crate::lines::Lines;
use crate::systems::{print_ended, read_system};
use farkas::{Stuck, bounded_rows, legal_rows};
use fm_projection::FmStop;
use integer_sets::System;
use iteration_domains::{Dep, DepEnd};
use pip_solver::Stop;
use std::io;

/// How many moves a question may make.
const BUDGET: u64 = 20000;

/// Reads the line that heads a dependence, and prints it: its source and its target.
fn read_sides<R: Print + AllocGlobal>(
    rt: &R,
    lines: &mut Lines,
) -> io::Result<Option<(DepEnd, DepEnd)>> {
    let counts = match lines.counts(rt.alloc(), "dep", 4)? {
        Some(counts) => counts,
        None => return Ok(None),
    };
    let source = DepEnd {
        statement: counts[0],
        loops: counts[1],
        access: 0,
    };
    let target = DepEnd {
        statement: counts[2],
        loops: counts[3],
        access: 0,
    };
    lines.pass();
    println!(rt;
        "dep {} {} {} {}",
        source.statement, source.loops, target.statement, target.loops
    )?;
    Ok(Some((source, target)))
}

/// The dependence, where its parts go together; its accesses and its depth have no part in Farkas's lemma.
fn dependence(source: DepEnd, target: DepEnd, system: System) -> Option<Dep> {
    let iterators = source.loops.checked_add(target.loops)?;
    let one = source.statement == target.statement;
    if system.dimensions() < iterators || (one && source.loops != target.loops) {
        return None;
    }
    Some(Dep {
        source,
        target,
        depth: 1,
        system,
    })
}

/// Passes the lines in front that are an answer: its head, and its rows where it has some.
fn pass_answer(lines: &mut Lines, head: &str) {
    if !lines.begins(head) {
        return;
    }
    lines.pass();
    for _ in 0..lines.left() {
        let last = lines.begins("end");
        if !last && !lines.begins("equality") && !lines.begins("row") {
            return;
        }
        lines.pass();
        if last {
            return;
        }
    }
}

/// Prints why rows are not found.
fn print_stuck<R: Print + AllocGlobal>(rt: &R, head: &str, stuck: &Stuck) -> io::Result<()> {
    match stuck {
        Stuck::Solver(Stop::Wide { moves, .. }) => println!(rt; "{head} stuck wide {moves}"),
        Stuck::Solver(Stop::Spent { moves, .. }) => println!(rt; "{head} stuck spent {moves}"),
        Stuck::Elimination(FmStop::Wide(_)) => println!(rt; "{head} stuck wide 0"),
        Stuck::Elimination(FmStop::Crowded { pairs }) => {
            println!(rt; "{head} stuck crowded {pairs}")
        }
        _ => println!(rt; "{head} no memory"),
    }
}

/// Prints rows that are found.
fn print_found<R: Print + AllocGlobal>(rt: &R, head: &str, rows: &System) -> io::Result<()> {
    println!(rt; "{head} {}", rows.dimensions())?;
    print_ended(rt, rows)
}

/// Prints rows, or why they are not found.
fn print_rows<R: Print + AllocGlobal>(
    rt: &R,
    head: &str,
    answer: Result<System, Stuck>,
) -> io::Result<()> {
    match answer {
        Ok(rows) => print_found(rt, head, &rows),
        Err(stuck) => print_stuck(rt, head, &stuck),
    }
}

/// Reads a dependence and prints it; none where its lines are not what they are to be.
fn read_dependence<R: Print + AllocGlobal>(rt: &R, lines: &mut Lines) -> io::Result<Option<Dep>> {
    let (source, target) = match read_sides(rt, lines)? {
        Some(sides) => sides,
        None => return Ok(None),
    };
    match read_system(rt, lines)? {
        Some(system) => Ok(dependence(source, target, system)),
        None => Ok(None),
    }
}

/// Reads a dependence, leaves its answers out of account, and prints it with those of the planner. False where the line
/// in front is not what it is to be.
pub fn farkas_rows<R: Print + AllocGlobal>(rt: &R, lines: &mut Lines) -> io::Result<bool> {
    let dependence = match read_dependence(rt, lines)? {
        Some(dependence) => dependence,
        None => return Ok(false),
    };
    pass_answer(lines, "legal");
    pass_answer(lines, "bounded");
    print_rows(rt, "legal", legal_rows(rt.alloc(), &dependence, BUDGET))?;
    print_rows(rt, "bounded", bounded_rows(rt.alloc(), &dependence, BUDGET))?;
    Ok(true)
}
