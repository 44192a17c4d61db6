//! The lines that the last one needs, itself among them, with rows named by their new numbers.
ghost use Rattle.std.specs.Prelude.{◌≡◌, ◌&&◌, ◌+◌, ◌++◌, ◌∷◌, [], IfOk, OnOk, drop, length, map, suc};
ghost use Rattle.plan_check.specs.Derivations.{renumbered, step_of};
ghost use Rattle.plan_certificate.specs.Derivation.{marked_takes, needed, needed_lines, takes};
ghost use Rattle.plan_certificate.specs.steps.Numbers.{number_in, number_of, one_if, term_in};

use affine_forms::push;
use plan_check::{Line, Term};
use std::alloc::{AllocError, Global};

/// Whether a term takes the row of a number.
fn takes(number: usize, terms: &[Term]) -> bool
    ensures { result ≡ takes number terms.now }
{
    for at in 0..terms.len() {
        if terms[at].row == number {
            return true;
        }
    }
    false
}

/// Whether a line is marked, and takes the row of a number.
fn mark_takes(number: usize, mark: bool, line: &Line) -> bool
    ensures { result ≡ (mark && takes number (step_of line.now).terms) }
{
    if mark {
        takes(number, &line.terms)
    } else {
        false
    }
}

/// Whether a marked line, from a place on, takes the row of a number.
fn marked_takes(number: usize, marks: &[bool], lines: &[Line], from: usize) -> bool
    requires { length marks.now ≡ length lines.now }
    ensures { result ≡ marked_takes number (drop from marks.now) (map step_of (drop from lines.now)) }
{
    for at in from..lines.len() {
        if mark_takes(number, marks[at], &lines[at]) {
            return true;
        }
    }
    false
}

/// The number of the row of the line at a place.
fn number_at(rows: usize, at: usize) -> Result<usize, AllocError>
    ensures { IfOk result (λ n. n ≡ suc (rows + at)) }
{
    match rows.checked_add(at) {
        None => Err(AllocError),
        Some(before) => match before.checked_add(1) {
            None => Err(AllocError),
            Some(number) => Ok(number),
        },
    }
}

/// Which lines of a goal with so many rows are needed.
fn needed(alloc: Global, rows: usize, lines: &[Line]) -> Result<Vec<bool>, AllocError>
    ensures marks { IfOk result (λ v. v.items ≡ needed (suc rows) (map step_of lines.now)) }
    ensures each { IfOk result (λ v. length v.items ≡ length lines.now) }
{
    let mut marks = Vec::from_elem(alloc, true, lines.len())?;
    let mut at = lines.len();
    while at > 1 {
        let number = number_at(rows, at - 2)?;
        marks[at - 2] = marked_takes(number, &marks, lines, at - 1);
        at -= 1;
    }
    Ok(marks)
}

/// The new number of a row: a goal's own keep theirs.
fn number_in(rows: usize, numbers: &[usize], row: usize) -> usize
    ensures { result ≡ number_in rows numbers.now row }
{
    if row <= rows {
        return row;
    }
    match numbers.get(row - rows - 1) {
        None => row,
        Some(number) => *number,
    }
}

/// A term with its row's new number.
fn term_in(rows: usize, numbers: &[usize], term: Term) -> Term
    ensures { result ≡ term_in (number_in rows numbers.now) term }
{
    Term {
        row: number_in(rows, numbers, term.row),
        ..term
    }
}

/// A line with its rows' new numbers.
fn renumbered(
    alloc: Global,
    rows: usize,
    numbers: &[usize],
    line: &Line,
) -> Result<Line, AllocError>
    ensures { IfOk result (λ l. step_of l ≡ renumbered (number_in rows numbers.now) (step_of line.now)) }
{
    let mut terms = Vec::new(alloc);
    for term in &line.terms {
        match push(&mut terms, term_in(rows, numbers, *term)) {
            Err(error) => return Err(error),
            Ok(()) => {}
        }
    }
    let divisor = line.divisor;
    Ok(Line { divisor, terms })
}

/// A line with its rows' new numbers more, and the number of its row; one that is not needed keeps its number.
fn keep(
    alloc: Global,
    rows: usize,
    numbers: &mut Vec<usize>,
    kept: &mut Vec<Line>,
    line: &Line,
    mark: bool,
) -> Result<(), AllocError>
    ensures lines { OnOk result (map step_of kept.new.items
        ≡ map step_of kept.old.items ++ one_if mark (renumbered (number_in rows numbers.old.items) (step_of line.now))) }
    ensures numbers { OnOk result (numbers.new.items
        ≡ numbers.old.items ++ suc (rows + number_of mark (length kept.old.items) (length numbers.old.items)) ∷ []) }
{
    if !mark {
        let number = number_at(rows, numbers.len())?;
        return push(numbers, number);
    }
    let number = number_at(rows, kept.len())?;
    let line = renumbered(alloc, rows, numbers, line)?;
    push(kept, line)?;
    push(numbers, number)
}

/// The lines of a goal with so many rows that its last one needs.
pub fn needed_lines(alloc: Global, rows: usize, lines: &[Line]) -> Result<Vec<Line>, AllocError>
    ensures { IfOk result (λ v. map step_of v.items ≡ needed_lines rows (map step_of lines.now)) }
{
    let marks = needed(alloc, rows, lines)?;
    let mut numbers = Vec::new(alloc);
    let mut kept = Vec::new(alloc);
    for at in 0..lines.len() {
        match keep(alloc, rows, &mut numbers, &mut kept, &lines[at], marks[at]) {
            Err(error) => return Err(error),
            Ok(()) => {}
        }
    }
    Ok(kept)
}
