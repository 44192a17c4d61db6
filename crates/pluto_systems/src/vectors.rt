//! The kernel vectors of each statement's rows.
ghost use Rattle.std.specs.Prelude.{◌≡◌, ◌≤◌, ◌<◌, [], All, IfOk, length, map, slice_index_or};
ghost use Rattle.pluto_systems.specs.Posing.{AreCoefficientRows, vectors_for};
ghost use Rattle.schedule_rows.specs.Schedule.{loops_in};

use crate::columns::Columns;
use iteration_domains::Model;
use null_space::{Rows, kernel_vectors};
use std::alloc::{AllocError, Global};

/// How many loops stand round each statement.
pub fn loops_in(alloc: Global, model: &Model) -> Result<Vec<usize>, AllocError>
    ensures loops { IfOk result (λ v. v.items ≡ loops_in model.now) }
    ensures few { IfOk result (λ v. All (λ l. l ≤ 5) v.items) }
{
    let mut loops = Vec::new(alloc);
    for statement in model.statements() {
        loops.push(statement.loops().len())?;
    }
    Ok(loops)
}

/// The vectors, or rows, of one statement.
pub fn vectors_at(vectors: &[Rows], s: usize) -> &[Vec<i128>]
    requires { s < length vectors.now }
    ensures { map (λ v. v.items) result.now
        ≡ slice_index_or (map (λ vs. map (λ v. v.items) vs.items) vectors.now) s [] }
{
    &vectors[s]
}

/// The kernel vectors of each statement's rows.
pub fn vectors_for(alloc: Global, columns: &Columns, rows: &[Rows]) -> Result<Vec<Rows>, AllocError>
    requires { AreCoefficientRows columns.now.loops.now (map (λ vs. map (λ v. v.items) vs.items) rows.now) }
    ensures { IfOk result (λ vectors. map (λ vs. map (λ v. v.items) vs.items) vectors.items
        ≡ vectors_for columns.now.loops.now (map (λ vs. map (λ v. v.items) vs.items) rows.now)) }
{
    let loops = columns.loops;
    let mut vectors = Vec::new(alloc);
    for s in 0..loops.len() {
        let own = kernel_vectors(alloc, loops[s], vectors_at(rows, s))?;
        vectors.push(own)?;
    }
    Ok(vectors)
}
