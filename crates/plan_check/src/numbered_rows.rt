//! The rows of a goal, numbered from 1: its equalities, each as two rows, then its other rows.
ghost use Rattle.std.specs.Prelude.{◌≡◌, ◌++◌, ◌∷◌, [], All, IfOk, OnOk, negsuc};
ghost use Rattle.affine_forms.specs.Runs.{scaled_run};
ghost use Rattle.wide_math.specs.Gives.{Gives};
ghost use Rattle.affine_forms.specs.Parts.{variables_of};
ghost use Rattle.integer_sets.specs.Constraints.{variables_in};
ghost use Rattle.plan_check.specs.Derivations.{fault_of, held};
ghost use Rattle.plan_check.specs.Progress.{both_run, goal_run};

use crate::lines::{Fault, LineStop};
use affine_forms::{Form, FormStop, push, push_copies, push_copy};
use iteration_domains::Dep;
use std::alloc::{AllocError, Global};

/// A form's opposite.
fn opposite(form: &Form) -> Result<Form, LineStop>
    ensures { Gives fault_of (λ f. f) result (held (scaled_run (negsuc 0) form.now)) }
{
    match form.scaled(-1) {
        Err(FormStop::NoMemory) => Err(LineStop::NoMemory),
        Err(FormStop::Wide(_)) => Err(LineStop::Faulty(Fault::Wide)),
        Ok(opposite) => Ok(opposite),
    }
}

/// Equalities, each as two rows.
fn both(alloc: Global, equalities: &[Form]) -> Result<Vec<Form>, LineStop>
    ensures { Gives fault_of (λ v. v.items) result (held (both_run equalities.now)) }
{
    let mut rows = Vec::new(alloc);
    for form in equalities {
        match opposite(form) {
            Err(stop) => return Err(stop),
            Ok(opposite) => match push_both(&mut rows, form, opposite) {
                Err(_) => return Err(LineStop::NoMemory),
                Ok(()) => {}
            },
        }
    }
    Ok(rows)
}

/// A form and its opposite more.
fn push_both(rows: &mut Vec<Form>, form: &Form, opposite: Form) -> Result<(), AllocError>
    ensures { OnOk result (rows.new.items ≡ rows.old.items ++ form.now ∷ opposite ∷ []) }
{
    match push_copy(rows, form) {
        Err(error) => Err(error),
        Ok(()) => push(rows, opposite),
    }
}

/// The rows of a goal.
pub fn goal_rows(alloc: Global, dep: &Dep) -> Result<Vec<Form>, LineStop>
    ensures rows { Gives fault_of (λ v. v.items) result (held (goal_run dep.now)) }
    ensures sized { IfOk result (λ v. All (λ f. variables_of f ≡ variables_in dep.now.system) v.items) }
{
    match both(alloc, dep.system.equalities()) {
        Err(stop) => Err(stop),
        Ok(mut rows) => match push_copies(&mut rows, dep.system.rows()) {
            Err(_) => Err(LineStop::NoMemory),
            Ok(()) => Ok(rows),
        },
    }
}

/// How many variables a goal has.
pub fn goal_variables(dep: &Dep) -> Result<usize, AllocError>
    ensures { IfOk result (λ n. n ≡ variables_in dep.now.system) }
{
    match dep.system.dimensions().checked_add(dep.system.parameters()) {
        None => Err(AllocError),
        Some(variables) => Ok(variables),
    }
}
