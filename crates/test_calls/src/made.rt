//! Forms, systems and problems made from their numbers: a row has a number for each variable, and then its constant; and
//! kernels from their texts.

ghost use Rattle.std.specs.Prelude.{◌≡◌, All, IfOk};
ghost use Rattle.affine_forms.specs.Parts.{variables_of};
ghost use Rattle.pip_solver.specs.Solving.{IsOver};
ghost use Rattle.scop_syntax.specs.Kernel.{IsKernel};
ghost use Rattle.scop_syntax.specs.View.{program_of};

use affine_forms::Form;
use checked_tableau::Problem;
use integer_sets::System;
use scop_parser::read_kernel;
use scop_syntax::Kernel;
use std::alloc::{AllocError, Global};

/// The form of a row over so many variables; an error where it has other numbers.
pub fn form(alloc: Global, variables: usize, row: &[i128]) -> Result<Form, AllocError>
    ensures { IfOk result (λ f. variables_of f ≡ variables) }
{
    let (constant, coefficients) = match row.split_last() {
        None => return Err(AllocError),
        Some(parts) => parts,
    };
    if coefficients.len() != variables {
        return Err(AllocError);
    }
    match Form::of(alloc, coefficients, *constant) {
        Err(_) => Err(AllocError),
        Ok(form) => Ok(form),
    }
}

/// The forms of rows.
pub fn forms(alloc: Global, variables: usize, rows: &[&[i128]]) -> Result<Vec<Form>, AllocError>
    ensures { IfOk result (λ v. All (λ f. variables_of f ≡ variables) v.items) }
{
    let mut forms = Vec::new(alloc);
    for row in rows {
        forms.push(form(alloc, variables, row)?)?;
    }
    Ok(forms)
}

/// The system of equalities and rows.
pub fn system(
    alloc: Global,
    dimensions: usize,
    parameters: usize,
    equalities: &[&[i128]],
    rows: &[&[i128]],
) -> Result<System, AllocError>
    ensures dimensions { IfOk result (λ s. s.dimensions ≡ dimensions) }
    ensures parameters { IfOk result (λ s. s.parameters ≡ parameters) }
{
    let variables = dimensions.checked_add(parameters).ok_or(AllocError)?;
    let equalities = forms(alloc, variables, equalities)?;
    let rows = forms(alloc, variables, rows)?;
    Ok(System::from_parts(dimensions, parameters, equalities, rows))
}

/// The problem of rows and a context.
pub fn problem(
    alloc: Global,
    unknowns: usize,
    parameters: usize,
    rows: &[&[i128]],
    context: &[&[i128]],
) -> Result<Problem, AllocError>
    ensures { IfOk result (IsOver unknowns parameters) }
{
    let variables = unknowns.checked_add(parameters).ok_or(AllocError)?;
    let rows = forms(alloc, variables, rows)?;
    let context = forms(alloc, parameters, context)?;
    Ok(Problem {
        unknowns,
        parameters,
        rows,
        context,
    })
}

/// Whether a form has the numbers of a row.
pub fn is_row(form: &Form, row: &[i128]) -> bool {
    match row.split_last() {
        None => false,
        Some((constant, coefficients)) => {
            form.constant() == *constant && form.coefficients() == coefficients
        }
    }
}

/// The kernel of a text; an error where it is none.
pub fn kernel_of(alloc: Global, text: &str) -> Result<Kernel, AllocError>
    ensures { IfOk result (λ kernel. IsKernel (program_of kernel)) }
{
    match read_kernel(alloc, text.as_bytes()) {
        Ok(kernel) => Ok(kernel),
        Err(_) => Err(AllocError),
    }
}
