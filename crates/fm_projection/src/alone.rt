//! The numbers between which a system's last dimension lies, for parameters in 0..=65536: what eliminations leave of it
//! alone.

ghost use Rattle.std.specs.Prelude.{◌≡◌, ◌<◌, ◌≤◌, ◌+◌, ◌-◌, [], ◌∷◌, ◌++◌, ◌^◌, IfOk, OnOk};
ghost use Rattle.integer_sets.specs.Constraints.{variables_in};
ghost use Rattle.fm_projection.specs.Alone.{Going, LeavesAlone, place_form, range_rows, ranged};

use crate::projecting::without;
use crate::stop::FmStop;
use affine_forms::Form;
use integer_sets::System;
use std::alloc::{AllocError, Global};

/// A form of so many variables: so many times one of them, and a constant.
///
/// # Errors
/// `AllocError` alone.
pub fn place_form(
    alloc: Global,
    variables: usize,
    place: usize,
    factor: i128,
    constant: i128,
) -> Result<Form, AllocError>
    requires { place < variables }
    ensures { IfOk result (λ f. f ≡ place_form variables place factor constant) }
{
    let mut coefficients = Vec::from_elem(alloc, 0i128, variables)?;
    coefficients[place] = factor;
    match Form::of(alloc, &coefficients, constant) {
        Err(_) => Err(AllocError),
        Ok(form) => Ok(form),
    }
}

/// Appends a form of so many variables: so many times one of them, and a constant.
fn push_place(
    alloc: Global,
    rows: &mut Vec<Form>,
    variables: usize,
    place: usize,
    factor: i128,
    constant: i128,
) -> Result<(), AllocError>
    requires { place < variables }
    ensures { OnOk result (rows.new.items ≡ rows.old.items ++ place_form variables place factor constant ∷ []) }
{
    let form = place_form(alloc, variables, place, factor, constant)?;
    rows.push(form)?;
    Ok(())
}

/// Appends the rows of the range of the last variables, from the first on.
fn append_range(
    alloc: Global,
    rows: &mut Vec<Form>,
    variables: usize,
    first: usize,
) -> Result<(), AllocError>
    requires { first ≤ variables }
    ensures { OnOk result (rows.new.items ≡ rows.old.items ++ range_rows variables first (variables - first)) }
{
    for place in first..variables {
        push_place(alloc, rows, variables, place, 1, 0)?;
        push_place(alloc, rows, variables, place, -1, 65536)?;
    }
    Ok(())
}

/// The system with its parameters in range, as dimensions behind the others.
fn with_range(alloc: Global, system: &System) -> Result<System, AllocError>
    requires { variables_in system.now < 2 ^ 32 }
    ensures { IfOk result (λ s. s ≡ ranged system.now) }
{
    let dimensions = system.dimensions();
    let variables = dimensions + system.parameters();
    let copy = System::of(alloc, variables, 0, system.equalities(), system.rows())?;
    let (equalities, own) = copy.into_parts();
    let mut rows = own;
    append_range(alloc, &mut rows, variables, dimensions)?;
    Ok(System::from_parts(variables, 0, equalities, rows))
}

/// The system without the dimension at a place, so many times.
fn all_gone(alloc: Global, system: System, place: usize, times: usize) -> Result<System, FmStop>
    requires { place + times ≤ system.dimensions }
    ensures { Going place times system result }
{
    let mut system = system;
    for time in 0..times {
        match without(alloc, &system, place) {
            Err(stop) => return Err(stop),
            Ok(next) => system = next,
        }
    }
    Ok(system)
}

/// What is left of the last dimension alone, for parameters in 0..=65536: a system of one dimension.
///
/// # Errors
/// `Crowded` or `Wide` exactly as the first elimination that stops: the other dimensions go from the first on, and then
/// the parameters.
pub fn last_alone(alloc: Global, system: &System) -> Result<System, FmStop>
    requires some { 0 < system.now.dimensions }
    requires few { variables_in system.now < 2 ^ 32 }
    ensures { LeavesAlone system.now result }
{
    let others = system.dimensions() - 1;
    match with_range(alloc, system) {
        Err(_) => Err(FmStop::NoMemory),
        Ok(all) => match all_gone(alloc, all, 0, others) {
            Err(stop) => Err(stop),
            Ok(last) => all_gone(alloc, last, 1, system.parameters()),
        },
    }
}
