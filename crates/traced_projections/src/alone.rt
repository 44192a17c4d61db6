//! What eliminations leave of the last dimension alone.

ghost use Rattle.std.specs.Prelude.{◌≡◌, ◌+◌, ◌-◌, ◌≤◌, ◌<◌, IfOk};
ghost use Rattle.integer_sets.specs.Constraints.{variables_in};
ghost use Rattle.fm_projection.specs.Alone.{range_rows};
ghost use Rattle.traced_projections.specs.Tracing.{constraints_of};
ghost use Rattle.traced_projections.specs.Projections.{GoesTraced, LastFollows, LeavesOf, ranged_traced};
ghost use Rattle.traced_projections.specs.declared.projections.Projection.TheVariants as projection;

use crate::rows::{push_numbered, push_rows};
use crate::traced::Traced;
use affine_forms::{Form, copies};
use fm_projection::{FmStop, place_form};
use integer_sets::System;
use std::alloc::{AllocError, Global};

/// The rows of the range of the last variables, from the first on.
fn range(alloc: Global, variables: usize, first: usize) -> Result<Vec<Form>, AllocError>
    requires { first ≤ variables }
    ensures { IfOk result (λ v. v.items ≡ range_rows variables first (variables - first)) }
{
    let mut rows = Vec::new(alloc);
    for place in first..variables {
        let least = place_form(alloc, variables, place, 1, 0)?;
        rows.push(least)?;
        let most = place_form(alloc, variables, place, -1, 65536)?;
        rows.push(most)?;
    }
    Ok(rows)
}

/// The system with its parameters in range, as dimensions behind the others.
fn with_range(alloc: Global, traced: &Traced) -> Result<Traced, AllocError>
    ensures { IfOk result (λ t. t ≡ ranged_traced traced.now) }
{
    let variables = traced.dimensions + traced.parameters;
    let equalities = copies(alloc, &traced.equalities)?;
    let mut rows = Vec::new(alloc);
    push_rows(&mut rows, &traced.rows)?;
    let range = range(alloc, variables, traced.dimensions)?;
    push_numbered(&mut rows, &range, 0)?;
    Ok(Traced {
        dimensions: variables,
        parameters: 0,
        equalities,
        rows,
        pairings: traced.pairings,
    })
}

/// The system without the dimension at a place, so many times.
fn all_gone(alloc: Global, traced: Traced, place: usize, times: usize) -> Result<Traced, FmStop>
    requires { place + times ≤ traced.dimensions }
    ensures { GoesTraced place times traced result }
{
    let mut left = traced;
    for time in 0..times {
        match left.without(alloc, place) {
            Err(stop) => return Err(stop),
            Ok(next) => left = next,
        }
    }
    Ok(left)
}

/// What is left of the last dimension alone, for parameters in 0..=65536.
pub fn alone(alloc: Global, traced: &Traced) -> Result<System, FmStop>
    requires { 0 < traced.now.dimensions }
    ensures run { LeavesOf (projection.Traced traced.now) result }
    ensures points { IfOk result (LastFollows (constraints_of traced.now)) }
{
    match with_range(alloc, traced) {
        Err(_) => Err(FmStop::NoMemory),
        Ok(all) => match all_gone(alloc, all, 0, traced.dimensions - 1) {
            Err(stop) => Err(stop),
            Ok(last) => match all_gone(alloc, last, 1, traced.parameters) {
                Err(stop) => Err(stop),
                Ok(alone) => match alone.system(alloc) {
                    Err(_) => Err(FmStop::NoMemory),
                    Ok(system) => Ok(system),
                },
            },
        },
    }
}
