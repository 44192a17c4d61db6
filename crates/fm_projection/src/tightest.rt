//! Of rows with the same coefficients the tightest alone.

ghost use Rattle.std.specs.Prelude.{◌≡◌, ◌<◌, IfOk, OnOk, length};
ghost use Rattle.std.specs.Prelude.{get_or};
ghost use Rattle.fm_projection.specs.Tightest.{are_parallel, tightened, tightest, with_row};
ghost use Rattle.fm_projection.specs.steps.Places.{parallel_place};

use affine_forms::{Form, push_copy};
use integer_sets::System;
use std::alloc::{AllocError, Global};

/// Whether two rows have the same coefficients.
fn are_parallel(row: &Form, other: &Form) -> bool
    ensures { result ≡ are_parallel row.now other.now }
{
    row.coefficients() == other.coefficients()
}

/// The place of the first row with these coefficients; the number of rows where none has them.
fn parallel_place(rows: &[Form], form: &Form) -> usize
    ensures { result ≡ parallel_place form.now rows.now }
{
    for at in 0..rows.len() {
        if are_parallel(&rows[at], form) {
            return at;
        }
    }
    rows.len()
}

/// One row more: behind the others, or where one of them has its coefficients, the tighter of the two in its place.
pub fn put(rows: &mut Vec<Form>, form: &Form) -> Result<(), AllocError>
    ensures { OnOk result (rows.new.items ≡ with_row rows.old.items form.now) }
{
    let place = parallel_place(rows, form);
    if place >= rows.len() {
        return push_copy(rows, form);
    }
    if form.constant() < rows[place].constant() {
        match form.copy() {
            Err(_) => return Err(AllocError),
            Ok(copy) => rows[place] = copy,
        }
    }
    Ok(())
}

/// Of rows with the same coefficients the tightest, in the place of the first of them.
fn tightest(alloc: Global, rows: &[Form]) -> Result<Vec<Form>, AllocError>
    ensures { IfOk result (λ v. v.items ≡ tightest rows.now) }
{
    let mut out = Vec::new(alloc);
    for row in rows {
        put(&mut out, row)?;
    }
    Ok(out)
}

/// The system with the tightest of its rows.
pub fn tightened(alloc: Global, system: System) -> Result<System, AllocError>
    ensures { IfOk result (λ s. s ≡ tightened system) }
{
    let dimensions = system.dimensions();
    let parameters = system.parameters();
    let (equalities, all) = system.into_parts();
    let rows = tightest(alloc, &all)?;
    Ok(System::from_parts(dimensions, parameters, equalities, rows))
}
