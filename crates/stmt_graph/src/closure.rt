//! Which statements are reached from which, edge by edge.
ghost use Rattle.std.specs.Prelude.{◌≡◌, ◌<◌, length, IfOk, slice_index_or, map, []};
ghost use Rattle.stmt_graph.specs.steps.Closure.{Leads, IsReached, IsClosure, reaches};
ghost use Rattle.stmt_graph.specs.Graph.{AreWithin};

use std::alloc::{AllocError, Global};

/// Row a tells which statements are reached from a.
pub type Rows = Vec<Vec<bool>>;

/// The target of an edge that leads from what is reached to what is not yet.
fn next_reached(edges: &[(usize, usize)], reached: &[bool]) -> Option<usize>
    requires { AreWithin (length reached.now) edges.now }
    ensures { Leads edges.now reached.now result }
{
    for at in 0..edges.len() {
        let (source, target) = edges[at];
        if reached[source] && !reached[target] {
            return Some(target);
        }
    }
    None
}

/// What is reached from a statement.
fn reached_from(
    alloc: Global,
    n: usize,
    edges: &[(usize, usize)],
    from: usize,
) -> Result<Vec<bool>, AllocError>
    requires from { from < n }
    requires edges { AreWithin n edges.now }
    ensures { IfOk result (λ v. IsReached n edges.now from v.items) }
{
    let mut reached = vec![in alloc; false; n]?;
    reached[from] = true;
    while let Some(next) = next_reached(edges, &reached) {
        reached[next] = true;
    }
    Ok(reached)
}

/// What is reached from each statement.
pub fn closure(alloc: Global, n: usize, edges: &[(usize, usize)]) -> Result<Rows, AllocError>
    requires edges { AreWithin n edges.now }
    ensures { IfOk result (λ rows. IsClosure n edges.now (map (λ v. v.items) rows.items)) }
{
    let mut rows = Vec::new(alloc);
    for from in 0..n {
        let reached = reached_from(alloc, n, edges, from)?;
        rows.push(reached)?;
    }
    Ok(rows)
}

/// One of the rows.
fn row_at(rows: &[Vec<bool>], a: usize) -> &[bool]
    requires { a < length rows.now }
    ensures { result.now ≡ slice_index_or (map (λ v. v.items) rows.now) a [] }
{
    &rows[a]
}

/// Whether b is reached from a.
pub fn is_reached(rows: &[Vec<bool>], a: usize, b: usize) -> bool
    requires a { a < length rows.now }
    requires b { b < length (slice_index_or (map (λ v. v.items) rows.now) a []) }
    ensures { result ≡ reaches (map (λ v. v.items) rows.now) a b }
{
    row_at(rows, a)[b]
}
