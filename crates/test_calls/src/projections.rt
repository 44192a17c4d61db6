//! Projections of either kind, computed by Python's integers.

use crate::made::system;
use affine_forms::Form;
use fm_projection::FmStop;
use integer_sets::System;
use std::alloc::Global;
use traced_projections::{Projection, Traced};

/// Rows over three dimensions.
const ROWS: &[&[i128]] = &[
    &[-1, 1, 1, 0],
    &[-1, 0, -1, 4],
    &[1, 0, 0, 4],
    &[1, -1, 0, 2],
];

/// The rows as a projection that traces them, or an exact one.
fn start(alloc: Global, traced: bool) -> Result<Projection, FmStop> {
    let Ok(system) = system(alloc, 3, 0, &[], ROWS) else {
        return Err(FmStop::NoMemory);
    };
    if !traced {
        return Ok(Projection::Exact(system));
    }
    match Traced::of(alloc, &system) {
        Err(_) => Err(FmStop::NoMemory),
        Ok(traced) => Ok(Projection::Traced(traced)),
    }
}

/// What is left without the first dimension, if there is one.
fn without_first(alloc: Global, projection: &Projection) -> Result<Projection, FmStop> {
    if projection.dimensions() == 0 {
        return Err(FmStop::NoMemory);
    }
    projection.without(alloc, 0)
}

/// What is left without the first two dimensions.
fn without_two(alloc: Global, traced: bool) -> Result<Projection, FmStop> {
    let first = start(alloc, traced)?;
    let second = without_first(alloc, &first)?;
    without_first(alloc, &second)
}

/// So as a system.
fn last(alloc: Global, traced: bool) -> Result<System, FmStop> {
    let left = without_two(alloc, traced)?;
    match left.system(alloc) {
        Err(_) => Err(FmStop::NoMemory),
        Ok(system) => Ok(system),
    }
}

/// Whether rows are these.
fn are_rows(rows: &[Form], wanted: &[(i128, i128)]) -> bool {
    if rows.len() != wanted.len() {
        return false;
    }
    for (row, want) in rows.iter().zip(wanted.iter()) {
        if row.coefficients() != [want.0].as_slice() || row.constant() != want.1 {
            return false;
        }
    }
    true
}

/// Whether the rows of the system are these.
fn has_rows(left: Result<System, FmStop>, rows: &[(i128, i128)]) -> bool {
    match left {
        Ok(system) => are_rows(system.rows(), rows),
        Err(_) => false,
    }
}

#[test]
fn projections(rt: HostRuntime) {
    let alloc = rt.alloc();
    assert!(rt; has_rows(last(alloc, true), &[(-1, 8), (1, 2)]));
    assert!(rt; has_rows(last(alloc, false), &[(-1, 8), (1, 2), (0, 1)]));
}
