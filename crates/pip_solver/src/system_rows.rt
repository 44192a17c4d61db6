//! The rows of a system as those of a problem: of each equality the form and its opposite, then the system's own rows.
ghost use Rattle.std.specs.Prelude.{◌≡◌, [], ◌∷◌, ◌++◌, All, IfOk, OnOk};
ghost use Rattle.affine_forms.specs.Gives.{Gives};
ghost use Rattle.affine_forms.specs.Parts.{variables_of};
ghost use Rattle.integer_sets.specs.Constraints.{variables_in};
ghost use Rattle.checked_tableau.specs.Emptiness.{negated_run};
ghost use Rattle.pip_solver.specs.steps.Promises.{Forms, FormsEqualities, IsProblem};

use crate::forms::oppose;
use crate::stop::Stop;
use affine_forms::{Form, FormStop, push, push_copies, push_copy};
use checked_tableau::Problem;
use integer_sets::System;
use std::alloc::{AllocError, Global};
use wide_math::sub;

/// The form with each sign turned: the coefficients in order, then the constant.
fn negated(alloc: Global, form: &Form) -> Result<Form, FormStop>
    ensures { Gives (λ f. f) result (negated_run form.now) }
{
    let mut coefficients = match Vec::from_slice(alloc, form.coefficients()) {
        Err(_) => return Err(FormStop::NoMemory),
        Ok(coefficients) => coefficients,
    };
    match oppose(&mut coefficients) {
        Err(wide) => return Err(FormStop::Wide(wide)),
        Ok(()) => {}
    }
    match sub(0, form.constant()) {
        Err(wide) => Err(FormStop::Wide(wide)),
        Ok(constant) => Form::of(alloc, &coefficients, constant),
    }
}

/// Appends a copy of a form, and one more.
fn push_both(rows: &mut Vec<Form>, form: &Form, second: Form) -> Result<(), AllocError>
    ensures { OnOk result (rows.new.items ≡ rows.old.items ++ form.now ∷ second ∷ []) }
{
    match push_copy(rows, form) {
        Err(error) => Err(error),
        Ok(()) => push(rows, second),
    }
}

/// Forms the rows of equalities: of each the form, and the form with each sign turned.
fn pose_equalities(alloc: Global, rows: &mut Vec<Form>, forms: &[Form]) -> Result<(), FormStop>
    requires { rows.old.items ≡ [] }
    ensures { Forms result forms.now rows.new.items }
{
    for form in forms {
        match negated(alloc, form) {
            Err(stop) => return Err(stop),
            Ok(second) => match push_both(rows, form, second) {
                Err(_) => return Err(FormStop::NoMemory),
                Ok(()) => {}
            },
        }
    }
    Ok(())
}

/// The rows of a system's equalities; where an opposite is too wide, a stop tells those of the equalities before.
pub fn equality_rows(alloc: Global, system: &System, unknowns: usize) -> Result<Vec<Form>, Stop>
    requires { unknowns ≡ variables_in system.now }
    ensures formed { FormsEqualities result system.now }
    ensures sized { All (λ f. variables_of f ≡ variables_in system.now) system.now.equalities }
{
    let mut rows = Vec::new(alloc);
    match pose_equalities(alloc, &mut rows, system.equalities()) {
        Ok(()) => Ok(rows),
        Err(FormStop::NoMemory) => Err(Stop::NoMemory),
        Err(FormStop::Wide(_)) => {
            let posed = Problem {
                unknowns,
                parameters: 0,
                rows,
                context: Vec::new(alloc),
            };
            Err(Stop::Wide { posed, moves: 0 })
        }
    }
}

/// The problem of rows in two parts.
pub fn joined(
    alloc: Global,
    unknowns: usize,
    front: Vec<Form>,
    own: &[Form],
) -> Result<Problem, AllocError>
    ensures { IfOk result (IsProblem unknowns (front.items ++ own.now)) }
{
    let mut rows = front;
    match push_copies(&mut rows, own) {
        Err(error) => Err(error),
        Ok(()) => Ok(Problem {
            unknowns,
            parameters: 0,
            rows,
            context: Vec::new(alloc),
        }),
    }
}
