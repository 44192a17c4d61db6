//! The cases of a kernel: its text, and the domains and the conflicts of its model.

use crate::lines::Lines;
use crate::systems::print_system;
use conflict_deps::conflicts;
use iteration_domains::{Dep, Model};
use scop_parser::read_kernel;
use std::alloc::{AllocError, Global};
use std::io;

/// Reads so many bytes of text, the line feeds between its lines counted; nothing where no line ends there.
fn read_text(alloc: Global, lines: &mut Lines, bytes: usize) -> Result<Option<String>, AllocError> {
    let mut text = String::new(alloc);
    for _ in 0..lines.left() {
        text.push_str(lines.front())?;
        lines.pass();
        if text.len() == bytes {
            return Ok(Some(text));
        }
        text.push('\n')?;
    }
    Ok(None)
}

/// Reads the line that heads a kernel and the kernel's text, and prints them.
fn read_heading<R: Print + AllocGlobal>(rt: &R, lines: &mut Lines) -> io::Result<Option<String>> {
    let [bytes, _, _, _] = match lines.counts(rt.alloc(), "kernel", 1)? {
        Some(counts) => counts,
        None => return Ok(None),
    };
    lines.pass();
    match read_text(rt.alloc(), lines, bytes)? {
        None => Ok(None),
        Some(text) => {
            println!(rt; "kernel {bytes}")?;
            println!(rt; "{text}")?;
            Ok(Some(text))
        }
    }
}

/// Passes the lines in front that are an answer: domains and dependences up to the line `end`.
fn pass_answer(lines: &mut Lines) {
    if !lines.begins("domain") && !lines.begins("end") {
        return;
    }
    for _ in 0..lines.left() {
        let last = lines.begins("end");
        lines.pass();
        if last {
            return;
        }
    }
}

/// Prints a dependence: the statements count from 1.
fn print_dependence<R: Print + AllocGlobal>(rt: &R, dep: &Dep) -> io::Result<()> {
    let source = dep.source.statement.saturating_add(1);
    let target = dep.target.statement.saturating_add(1);
    println!(rt;
        "dep {source} {} {target} {} {}",
        dep.source.access, dep.target.access, dep.depth
    )?;
    print_system(rt, &dep.system)
}

/// Prints the domains and the conflicts of a model.
fn print_model<R: Print + AllocGlobal>(rt: &R, model: &Model) -> io::Result<()> {
    for statement in model.statements() {
        println!(rt; "domain S{}", statement.number().saturating_add(1))?;
        print_system(rt, statement.domain())?;
    }
    for dep in &conflicts(rt.alloc(), model)? {
        print_dependence(rt, dep)?;
    }
    println!(rt; "end")
}

/// Reads a kernel, leaves its answers out of account, and prints it with those of the planner. False where the line in
/// front is not what it is to be, or the text is no kernel.
pub fn domains_and_conflicts<R: Print + AllocGlobal>(
    rt: &R,
    lines: &mut Lines,
) -> io::Result<bool> {
    let text = match read_heading(rt, lines)? {
        Some(text) => text,
        None => return Ok(false),
    };
    match read_kernel(rt.alloc(), text.as_bytes()) {
        Err(_) => Ok(false),
        Ok(kernel) => {
            pass_answer(lines);
            let model = Model::of(rt.alloc(), &kernel)?;
            print_model(rt, &model)?;
            Ok(true)
        }
    }
}
