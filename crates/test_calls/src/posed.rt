//! The posed set of a schedule's next row at points that are worked out by hand: behind no row, where the row keeps and
//! bounds a dependence, and behind one row of one of two statements, where it only grows the rank.

ghost use Rattle.std.specs.Prelude.{◌≡◌, ◌∷◌, [], true, IfOk, map};
ghost use Rattle.pluto_systems.specs.Posing.{AreCoefficientRows, IsBetween};
ghost use Rattle.pluto_systems.specs.Schedule.{loops_in};

use crate::made::kernel_of;
use conflict_deps::conflicts;
use farkas::{bounded_rows, legal_rows};
use integer_sets::System;
use iteration_domains::{Dep, Model};
use pluto_systems::{Rows, loops_in, posed};
use std::alloc::{AllocError, Global};
use std::slice;
use std::test::Fail;

/// A turn reads what the turn before it wrote.
const PREFIX: &str = "void pre(int64_t N, uint64_t A[N]) {
    for (int64_t i = 1; i < N; i++) A[i] += A[i-1]; }";

/// A loop in a loop, and a loop.
const PAIR: &str = "void k(int64_t N, uint64_t A[N][N], uint64_t B[N]) {
    for (int64_t i = 0; i < N; i++) for (int64_t j = 0; j < N; j++) A[i][j] = 1;
    for (int64_t k = 0; k < N; k++) B[k] = 2; }";

/// u, w, the coefficient and the shift, and whether that is a row that keeps the dependence of a turn on the one before,
/// has it go by at most `u * N + w` where N is at least 3, and is not 0.
const FIRST_ROWS: &[([i128; 4], bool)] = &[
    ([0, 1, 1, 0], true),
    ([0, 0, 1, 0], false),
    ([0, 1, 2, 0], false),
    ([0, 2, 2, 7], true),
    ([1, 0, 3, 0], true),
    ([1, 0, 4, 0], false),
    ([0, 1, 0, 0], false),
];

/// u, w, the inner and the outer coefficient and the shift of the first statement, the coefficient and the shift of the
/// second, and whether that row grows the rank of both: the first has the outer loop as its row, the second has none.
const SECOND_ROWS: &[([i128; 7], bool)] = &[
    ([0, 0, 1, 0, 0, 1, 0], true),
    ([0, 0, 2, 5, 9, 3, 4], true),
    ([0, 0, 0, 1, 0, 1, 0], false),
    ([0, 0, 1, 0, 0, 0, 1], false),
];

/// Whether so many loops stand round the statements of a model.
fn has_loops(alloc: Global, model: &Model, loops: &[usize]) -> Result<bool, AllocError>
    ensures { IfOk result (λ is. is ≡ true → loops_in model.now ≡ loops.now) }
{
    let found = loops_in(alloc, model)?;
    Ok(found.as_slice() == loops)
}

/// Whether a dependence is one of a single statement with one loop.
fn is_own(dep: &Dep, parameters: usize) -> bool
    ensures { result ≡ true → IsBetween parameters (1 ∷ []) dep.now }
{
    if dep.source.statement != 0 || dep.target.statement != 0 {
        return false;
    }
    if dep.source.loops != 1 || dep.target.loops != 1 {
        return false;
    }
    dep.system.parameters() == parameters
}

/// Whether a dependence is that of the second turn on the first.
fn is_of_turns(dep: &Dep) -> bool {
    if dep.system.dimensions() != 2 || dep.system.parameters() != 1 {
        return false;
    }
    dep.system.holds_at(&[0, 1, 4]) == Ok(true)
}

/// The posed set of a model's dependence behind rows.
fn posed_with(alloc: Global, model: &Model, dep: &Dep, rows: &[Rows]) -> Result<System, AllocError>
    requires rows { AreCoefficientRows (loops_in model.now) (map (λ vs. map (λ v. v.items) vs.items) rows.now) }
    requires dep { IsBetween model.now.parameters (loops_in model.now) dep.now }
{
    match legal_rows(alloc, dep, 20000) {
        Err(_) => Err(AllocError),
        Ok(legal) => match bounded_rows(alloc, dep, 20000) {
            Err(_) => Err(AllocError),
            Ok(bounded) => posed(
                alloc,
                model,
                slice::from_ref(dep),
                rows,
                slice::from_ref(&legal),
                slice::from_ref(&bounded),
            ),
        },
    }
}

/// The posed set of the first row; none where the dependence is another one.
fn first_posed(alloc: Global, model: &Model, dep: &Dep) -> Result<Option<System>, AllocError> {
    if !is_of_turns(dep) {
        return Ok(None);
    }
    if !is_own(dep, model.parameters()) {
        return Ok(None);
    }
    if !has_loops(alloc, model, &[1])? {
        return Ok(None);
    }
    let rows = vec![in alloc; Rows::new(alloc)]?;
    let system = posed_with(alloc, model, dep, &rows)?;
    Ok(Some(system))
}

/// The posed set of the second row; none where the model has not a statement in two loops and one in a loop.
fn second_posed(alloc: Global, model: &Model) -> Result<Option<System>, AllocError> {
    if !has_loops(alloc, model, &[2, 1])? {
        return Ok(None);
    }
    let row = vec![in alloc; 1, 0]?;
    let before = vec![in alloc; row]?;
    let rows = vec![in alloc; before, Rows::new(alloc)]?;
    let system = posed(alloc, model, &[], &rows, &[], &[])?;
    Ok(Some(system))
}

/// Whether a posed set has a point, or has not, as told.
fn is_told(posed: &System, point: &[i128], inside: bool) -> bool {
    if posed.parameters() != 0 || posed.dimensions() != point.len() {
        return false;
    }
    posed.holds_at(point) == Ok(inside)
}

/// The model of a text's kernel; an error where it has none.
fn model_of(alloc: Global, text: &str) -> Result<Model, AllocError> {
    let kernel = kernel_of(alloc, text)?;
    Model::of(alloc, &kernel)
}

/// Whether the first rows are as told.
fn has_first_rows(alloc: Global, model: &Model) -> Result<bool, AllocError> {
    for dep in &conflicts(alloc, model)? {
        if let Some(posed) = first_posed(alloc, model, dep)? {
            return Ok(FIRST_ROWS.iter().all(|row| is_told(&posed, &row.0, row.1)));
        }
    }
    Ok(false)
}

/// Whether the second rows are as told.
fn has_second_rows(alloc: Global, model: &Model) -> Result<bool, AllocError> {
    match second_posed(alloc, model)? {
        None => Ok(false),
        Some(posed) => Ok(SECOND_ROWS.iter().all(|row| is_told(&posed, &row.0, row.1))),
    }
}

#[test]
fn posed_sets_hold_these_rows(rt: HostRuntime) -> Result<(), Fail> {
    let prefix = model_of(rt.alloc(), PREFIX)?;
    assert!(rt; has_first_rows(rt.alloc(), &prefix)?);
    let pair = model_of(rt.alloc(), PAIR)?;
    assert!(rt; has_second_rows(rt.alloc(), &pair)?);
    Ok(())
}
