//! Component after component gets its number.
ghost use Rattle.std.specs.Prelude.{◌≡◌, ◌<◌, length, map, replicate, IfOk};
ghost use Rattle.stmt_graph.specs.Graph.{AreWithin, IsNumbering};
ghost use Rattle.stmt_graph.specs.steps.Closure.{AreSquare, joined, Frees, IsNext, IsGiven};

use crate::closure::{closure, is_reached};
use std::alloc::{AllocError, Global};

/// Whether a and b are reached from each other.
fn is_joined(rows: &[Vec<bool>], a: usize, b: usize) -> bool
    requires square { AreSquare (map (λ v. v.items) rows.now) }
    requires a { a < length rows.now }
    requires b { b < length rows.now }
    ensures { result ≡ joined (map (λ v. v.items) rows.now) a b }
{
    is_reached(rows, a, b) && is_reached(rows, b, a)
}

/// Whether all statements from which a is reached, of those without a number below k, are in its component.
fn is_free(rows: &[Vec<bool>], numbers: &[usize], k: usize, a: usize) -> bool
    requires square { AreSquare (map (λ v. v.items) rows.now) }
    requires a { a < length rows.now }
    requires numbers { length numbers.now ≡ length rows.now }
    ensures { Frees (length rows.now) (map (λ v. v.items) rows.now) numbers.now k a result }
{
    for b in 0..numbers.len() {
        if k <= numbers[b] && is_reached(rows, b, a) && !is_reached(rows, a, b) {
            return false;
        }
    }
    true
}

/// The least statement without a number below k that is free.
fn next_free(rows: &[Vec<bool>], numbers: &[usize], k: usize) -> Option<usize>
    requires square { AreSquare (map (λ v. v.items) rows.now) }
    requires numbers { length numbers.now ≡ length rows.now }
    ensures { IsNext (length rows.now) (map (λ v. v.items) rows.now) numbers.now k result }
{
    for a in 0..numbers.len() {
        if k <= numbers[a] && is_free(rows, numbers, k, a) {
            return Some(a);
        }
    }
    None
}

/// Gives the statements of a's component the number k.
fn number_component(numbers: &mut Vec<usize>, rows: &[Vec<bool>], a: usize, k: usize)
    requires square { AreSquare (map (λ v. v.items) rows.now) }
    requires a { a < length rows.now }
    requires numbers { length numbers.old.items ≡ length rows.now }
    ensures size { length numbers.new.items ≡ length numbers.old.items }
    ensures given { IsGiven (map (λ v. v.items) rows.now) a k numbers.old.items numbers.new.items }
{
    for b in 0..numbers.len() {
        if is_joined(rows, a, b) {
            numbers[b] = k;
        }
    }
}

/// So many numbers, each the number of statements.
fn without_numbers(alloc: Global, n: usize) -> Result<Vec<usize>, AllocError>
    ensures { IfOk result (λ v. v.items ≡ replicate n n) }
{
    vec![in alloc; n; n]
}

/// The numbers of the strong components of n statements, in topological order; among those that are free the one with
/// the least statement comes first.
///
/// # Errors
/// `AllocError` alone.
pub fn components(
    alloc: Global,
    n: usize,
    edges: &[(usize, usize)],
) -> Result<Vec<usize>, AllocError>
    requires edges { AreWithin n edges.now }
    ensures { IfOk result (λ numbers. IsNumbering n edges.now numbers.items) }
{
    let rows = closure(alloc, n, edges)?;
    let mut numbers = without_numbers(alloc, n)?;
    for k in 0..n {
        match next_free(&rows, &numbers, k) {
            None => return Ok(numbers),
            Some(a) => number_component(&mut numbers, &rows, a, k),
        }
    }
    Ok(numbers)
}
