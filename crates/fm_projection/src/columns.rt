//! Columns that no constraint has, dropped.

ghost use Rattle.std.specs.Prelude.{◌≡◌, ◌<◌, All, IfOk, map};
ghost use Rattle.affine_forms.specs.Parts.{variables_of};
ghost use Rattle.fractions.specs.Elimination.{narrowed};
ghost use Rattle.fm_projection.specs.Projecting.{without_column};

use affine_forms::Form;
use integer_sets::System;
use std::alloc::{AllocError, Global};

/// A form without the column of a variable.
///
/// # Errors
/// `AllocError` alone.
pub fn narrow_form(alloc: Global, form: &Form, variable: usize) -> Result<Form, AllocError>
    requires { variable < variables_of form.now }
    ensures { IfOk result (λ f. f ≡ narrowed variable form.now) }
{
    let mut numbers = Vec::from_slice(alloc, form.coefficients())?;
    numbers.remove(variable);
    match Form::of(alloc, &numbers, form.constant()) {
        Err(_) => Err(AllocError),
        Ok(narrow) => Ok(narrow),
    }
}

/// The forms without the column of a variable.
fn narrow(alloc: Global, forms: &[Form], variable: usize) -> Result<Vec<Form>, AllocError>
    requires { All (λ f. variable < variables_of f) forms.now }
    ensures { IfOk result (λ v. v.items ≡ map (narrowed variable) forms.now) }
{
    let mut out = Vec::new(alloc);
    for form in forms {
        let narrow = narrow_form(alloc, form, variable)?;
        out.push(narrow)?;
    }
    Ok(out)
}

/// The system without the column of a dimension.
///
/// # Errors
/// `AllocError` alone.
pub fn without_column(
    alloc: Global,
    system: &System,
    dimension: usize,
) -> Result<System, AllocError>
    requires { dimension < system.now.dimensions }
    ensures { IfOk result (λ s. s ≡ without_column dimension system.now) }
{
    let equalities = narrow(alloc, system.equalities(), dimension)?;
    let rows = narrow(alloc, system.rows(), dimension)?;
    Ok(System::from_parts(
        system.dimensions() - 1,
        system.parameters(),
        equalities,
        rows,
    ))
}
