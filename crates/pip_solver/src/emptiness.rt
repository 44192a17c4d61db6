//! Whether a system has no whole point with dimensions from 0 on and parameters in 0..=65536.
ghost use Rattle.std.specs.Prelude.{◌≡◌, ◌<◌, ◌≤◌, ◌-◌, ◌++◌, OnOk, set, Ok, negsuc, pos};
ghost use Rattle.std.specs.Prelude.{All, IfOk, true, false, ℤ, List};
ghost use Rattle.whole_numbers.specs.Affine.{form_of};
ghost use Rattle.affine_forms.specs.Parts.{variables_of};
ghost use Rattle.integer_sets.specs.Constraints.{IsSized, variables_in};
ghost use Rattle.whole_numbers.specs.Lists.{zeros};
ghost use Rattle.checked_tableau.specs.Emptiness.{equality_rows_run, bound_rows};
ghost use Rattle.checked_tableau.specs.Emptiness.{IsBoundedPoint, HasBoundedPoint};
ghost use Rattle.pip_solver.specs.Promises.{Empties};
ghost use Rattle.pip_solver.specs.steps.Promises.{Decides};

use crate::asking::ask;
use crate::question::QuestionStop;
use crate::stop::Stop;
use crate::system_rows::{equality_rows, joined};
use affine_forms::{Form, copies, push};
use integer_sets::System;
use std::alloc::{AllocError, Global};

/// 65536 less a variable.
fn bound(alloc: Global, variables: usize, place: usize) -> Result<Form, AllocError>
    requires { place < variables }
    ensures { IfOk result (λ f. f ≡ form_of (set (zeros variables) place (negsuc 0)) (pos 65536)) }
{
    let mut coefficients = match Vec::from_elem(alloc, 0i128, variables) {
        Err(error) => return Err(error),
        Ok(coefficients) => coefficients,
    };
    coefficients[place] = -1;
    match Form::of(alloc, &coefficients, 65536) {
        Err(_) => Err(AllocError),
        Ok(form) => Ok(form),
    }
}

/// Appends the bounds of the last variables.
fn push_bounds(
    alloc: Global,
    rows: &mut Vec<Form>,
    variables: usize,
    first: usize,
) -> Result<(), AllocError>
    requires { first ≤ variables }
    ensures { OnOk result (rows.new.items ≡ rows.old.items ++ bound_rows variables first (variables - first)) }
{
    for place in first..variables {
        match bound(alloc, variables, place) {
            Err(error) => return Err(error),
            Ok(form) => match push(rows, form) {
                Err(error) => return Err(error),
                Ok(()) => {}
            },
        }
    }
    Ok(())
}

/// The rows of a system behind its equalities' pairs: its own, and last the bounds of its parameters.
fn bounded_rows(alloc: Global, system: &System, variables: usize) -> Result<Vec<Form>, AllocError>
    requires { variables ≡ variables_in system.now }
    ensures { IfOk result (λ v. v.items
        ≡ system.now.rows ++ bound_rows variables system.now.dimensions system.now.parameters) }
{
    let mut rows = match copies(alloc, system.rows()) {
        Err(error) => return Err(error),
        Ok(rows) => rows,
    };
    match push_bounds(alloc, &mut rows, variables, system.dimensions()) {
        Err(error) => Err(error),
        Ok(()) => Ok(rows),
    }
}

/// Whether rows in two parts have no point. The second part stays where it is; only a stop copies it.
fn decide(
    alloc: Global,
    unknowns: usize,
    front: Vec<Form>,
    own: &[Form],
    budget: u64,
) -> Result<bool, Stop>
    requires { All (λ f. variables_of f ≡ unknowns) (front.items ++ own.now) }
    ensures { Decides result budget unknowns (front.items ++ own.now) }
{
    let mut left = budget;
    let stop = match ask(alloc, unknowns, &front, own, &mut left) {
        Ok(found) => return Ok(!found),
        Err(stop) => stop,
    };
    if matches!(stop, QuestionStop::NoMemory) {
        return Err(Stop::NoMemory);
    }
    let posed = match joined(alloc, unknowns, front, own) {
        Err(_) => return Err(Stop::NoMemory),
        Ok(posed) => posed,
    };
    match stop {
        QuestionStop::Wide => Err(Stop::Wide {
            posed,
            moves: budget - left,
        }),
        QuestionStop::Spent => Err(Stop::Spent {
            posed,
            moves: budget,
        }),
        QuestionStop::NoMemory => Err(Stop::NoMemory),
    }
}

/// Whether a system has no point, with the rows of its equalities in hand, and its own.
fn decide_system(
    alloc: Global,
    system: &System,
    unknowns: usize,
    front: Vec<Form>,
    own: &[Form],
    budget: u64,
) -> Result<bool, Stop>
    requires unknowns { unknowns ≡ variables_in system.now }
    requires own { own.now ≡ system.now.rows }
    requires front { equality_rows_run system.now.equalities ≡ Ok front.items }
    requires sized { IsSized (variables_in system.now) system.now.equalities system.now.rows }
    ensures { Empties result budget system.now }
{
    if system.parameters() == 0 {
        return decide(alloc, unknowns, front, own, budget);
    }
    match bounded_rows(alloc, system, unknowns) {
        Err(_) => Err(Stop::NoMemory),
        Ok(bounded) => decide(alloc, unknowns, front, &bounded, budget),
    }
}

/// The answer of `is_empty`, as its run gives it.
fn answer(alloc: Global, system: &System, budget: u64) -> Result<bool, Stop>
    ensures run { Empties result budget system.now }
    ensures sized { IfOk result (λ _. IsSized (variables_in system.now) system.now.equalities system.now.rows) }
{
    let own = system.rows();
    let unknowns = match system.dimensions().checked_add(system.parameters()) {
        None => return Err(Stop::NoMemory),
        Some(unknowns) => unknowns,
    };
    match equality_rows(alloc, system, unknowns) {
        Err(stop) => Err(stop),
        Ok(front) => decide_system(alloc, system, unknowns, front, own, budget),
    }
}

/// Whether no whole point with dimensions from 0 on and parameters in 0..=65536 satisfies the system, in so many
/// moves. The posed problem has the dimensions, then the parameters, as its unknowns; where an equality's opposite is
/// too wide, it has the rows of the equalities before.
///
/// # Errors
/// `Wide` and `Spent` exactly where the run stops so, after so many moves; `NoMemory`.
pub fn is_empty(alloc: Global, system: &System, budget: u64) -> Result<bool, Stop>
    ensures run { Empties result budget system.now }
    ensures empty { result ≡ Ok true → (x p : List ℤ) → IsBoundedPoint system.now x p → ⊥ }
    ensures point { result ≡ Ok false → HasBoundedPoint system.now }
{
    answer(alloc, system, budget)
}
