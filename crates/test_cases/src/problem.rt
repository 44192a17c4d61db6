//! The cases of a problem, and what the solver answers.

ghost use Rattle.std.specs.Prelude.{IfOk};
ghost use Rattle.std.specs.Option.{ForSome};
ghost use Rattle.pip_solver.specs.Solving.{IsOver};

use crate::forms::{print_forms, read_forms};
use crate::lines::Lines;
use crate::quast::print_quast;
use affine_forms::copies;
use checked_tableau::Problem;
use pip_solver::{Solution, Stop, solve};
use std::alloc::{AllocError, Global};
use std::io;

/// Solves a copy of a problem, and lets what comes of it go.
fn solve_again(alloc: Global, problem: &Problem, budget: u64) -> Result<(), AllocError>
    requires { IsOver problem.now.unknowns problem.now.parameters problem.now }
{
    let rows = copies(alloc, &problem.rows)?;
    let context = copies(alloc, &problem.context)?;
    let copy = Problem {
        unknowns: problem.unknowns,
        parameters: problem.parameters,
        rows,
        context,
    };
    let _answer = solve(alloc, copy, budget);
    Ok(())
}

/// Prints the answer line of a problem that is solved.
fn print_solution<R: Print + AllocGlobal>(rt: &R, solution: &Solution) -> io::Result<()> {
    print!(rt; "answer quast {} ", solution.moves)?;
    print_quast(rt, &solution.quast)?;
    println!(rt; "")
}

/// Prints the answer line of one whose run stops.
fn print_stop<R: Print + AllocGlobal>(rt: &R, stop: &Stop) -> io::Result<()> {
    match stop {
        Stop::Wide { moves, .. } => println!(rt; "answer wide {moves}"),
        Stop::Spent { moves, .. } => println!(rt; "answer spent {moves}"),
        Stop::NoMemory => println!(rt; "no memory"),
    }
}

/// Prints the answer line of a problem.
fn print_answer<R: Print + AllocGlobal>(rt: &R, problem: Problem, budget: u64) -> io::Result<()>
    requires { IsOver problem.unknowns problem.parameters problem }
{
    match solve(rt.alloc(), problem, budget) {
        Ok(solution) => print_solution(rt, &solution),
        Err(stop) => print_stop(rt, &stop),
    }
}

/// Reads the rows and the context of a problem; nothing where so many variables have no number.
fn read_problem(
    alloc: Global,
    lines: &mut Lines,
    unknowns: usize,
    parameters: usize,
) -> Result<Option<Problem>, AllocError>
    ensures { IfOk result (λ o. ForSome o (λ p. IsOver p.unknowns p.parameters p)) }
{
    let variables = match unknowns.checked_add(parameters) {
        Some(variables) => variables,
        None => return Ok(None),
    };
    lines.pass();
    let rows = read_forms(alloc, lines, "row", variables)?;
    let context = read_forms(alloc, lines, "context", parameters)?;
    Ok(Some(Problem {
        unknowns,
        parameters,
        rows,
        context,
    }))
}

/// Prints a problem but for its answer.
fn print_problem<R: Print + AllocGlobal>(
    rt: &R,
    problem: &Problem,
    budget: usize,
) -> io::Result<()> {
    println!(rt;
        "problem {} {} {budget}",
        problem.unknowns, problem.parameters
    )?;
    print_forms(rt, "row", &problem.rows)?;
    print_forms(rt, "context", &problem.context)
}

/// Reads a case, leaves its answer out of account, and prints it with that of the solver, which is asked so many times
/// over, once at least. False where the line in front is not what it is to be.
pub fn problem<R: Print + AllocGlobal>(rt: &R, lines: &mut Lines, times: u64) -> io::Result<bool> {
    let [unknowns, parameters, budget, _] = match lines.counts(rt.alloc(), "problem", 3)? {
        Some(counts) => counts,
        None => return Ok(false),
    };
    let problem = match read_problem(rt.alloc(), lines, unknowns, parameters)? {
        Some(problem) => problem,
        None => return Ok(false),
    };
    if !lines.begins("answer") {
        return Ok(false);
    }
    lines.pass();
    print_problem(rt, &problem, budget)?;
    for _ in 1..times {
        solve_again(rt.alloc(), &problem, budget as u64)?;
    }
    print_answer(rt, problem, budget as u64)?;
    Ok(true)
}
