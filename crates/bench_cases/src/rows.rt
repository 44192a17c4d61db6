//! The planner's calls on a kernel: its conflicts, and the rows of all of them.
//!
//! It prints how many conflicts there are, how many rows the last round left, and of how many conflicts it was stuck.

use conflict_deps::conflicts;
use farkas::{bounded_rows, legal_rows};
use iteration_domains::{Dep, Model};
use scop_parser::read_kernel;
use std::alloc::{AllocError, Global};
use std::io;

/// How many moves a question may make.
const BUDGET: u64 = 20000;

/// A call that is timed.
#[derive(Clone, Copy)]
pub enum Call {
    Conflicts,
    Legal,
    Bounded,
}

/// The call of this name.
pub fn call_of(word: &str) -> Option<Call> {
    match word {
        "conflicts" => Some(Call::Conflicts),
        "legal" => Some(Call::Legal),
        "bounded" => Some(Call::Bounded),
        _ => None,
    }
}

/// What a round leaves.
#[derive(Clone, Copy)]
struct Left {
    rows: usize,
    stuck: usize,
}

/// The rows of all dependences.
fn rows_of(alloc: Global, call: Call, deps: &[Dep]) -> Left {
    let mut left = Left { rows: 0, stuck: 0 };
    for dep in deps {
        let rows = match call {
            Call::Legal => legal_rows(alloc, dep, BUDGET),
            _ => bounded_rows(alloc, dep, BUDGET),
        };
        match rows {
            Ok(rows) => left.rows = left.rows.saturating_add(rows.rows().len()),
            Err(_) => left.stuck = left.stuck.saturating_add(1),
        }
    }
    left
}

/// One round of a call.
fn round(alloc: Global, call: Call, model: &Model, deps: &[Dep]) -> Result<Left, AllocError> {
    match call {
        Call::Conflicts => {
            let found = conflicts(alloc, model)?;
            let rows = found.len();
            Ok(Left { rows, stuck: 0 })
        }
        _ => Ok(rows_of(alloc, call, deps)),
    }
}

/// Makes a call on the kernel of this text so many times, and prints what is left; false where it is no kernel's text.
pub fn report<R: Print + AllocGlobal>(
    rt: &R,
    call: Call,
    rounds: u64,
    text: &[u8],
) -> io::Result<bool> {
    let Ok(kernel) = read_kernel(rt.alloc(), text) else {
        return Ok(false);
    };
    let model = Model::of(rt.alloc(), &kernel)?;
    let deps = conflicts(rt.alloc(), &model)?;
    let mut left = Left { rows: 0, stuck: 0 };
    for _ in 0..rounds {
        left = round(rt.alloc(), call, &model, &deps)?;
    }
    println!(rt; "{} {} {}", deps.len(), left.rows, left.stuck)?;
    Ok(true)
}
