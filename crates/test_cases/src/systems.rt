//! A system as lines: its numbers of dimensions and parameters, then its constraints.

use crate::forms::{print_forms, read_forms};
use crate::lines::Lines;
use integer_sets::System;
use std::io;

/// Prints the constraints of a system.
fn print_constraints<R: Print + AllocGlobal>(rt: &R, system: &System) -> io::Result<()> {
    print_forms(rt, "equality", system.equalities())?;
    print_forms(rt, "row", system.rows())
}

/// So, and the line that ends an answer.
pub fn print_ended<R: Print + AllocGlobal>(rt: &R, system: &System) -> io::Result<()> {
    print_constraints(rt, system)?;
    println!(rt; "end")
}

/// Prints a system.
pub fn print_system<R: Print + AllocGlobal>(rt: &R, system: &System) -> io::Result<()> {
    println!(rt; "system {} {}", system.dimensions(), system.parameters())?;
    print_constraints(rt, system)
}

/// Reads a system and prints it; nothing where the line in front heads none.
pub fn read_system<R: Print + AllocGlobal>(
    rt: &R,
    lines: &mut Lines,
) -> io::Result<Option<System>> {
    let [dimensions, parameters, _, _] = match lines.counts(rt.alloc(), "system", 2)? {
        Some(counts) => counts,
        None => return Ok(None),
    };
    let variables = match dimensions.checked_add(parameters) {
        Some(variables) => variables,
        None => return Ok(None),
    };
    lines.pass();
    let equalities = read_forms(rt.alloc(), lines, "equality", variables)?;
    let rows = read_forms(rt.alloc(), lines, "row", variables)?;
    let system = System::from_parts(dimensions, parameters, equalities, rows);
    print_system(rt, &system)?;
    Ok(Some(system))
}
