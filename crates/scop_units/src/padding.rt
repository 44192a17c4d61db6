//! Arrays with their extents as forms over all parameters: those that are declared behind an array count nothing.

ghost use Rattle.std.specs.Prelude.{◌≡◌, IfOk, map};
ghost use Rattle.scop_units.specs.Units.{declared_over, padded};

use crate::scope::copied;
use scop_syntax::{Aff, Array, zeros};
use std::alloc::{AllocError, Global};

// The form over so many entries at least.
fn padded(alloc: Global, form: &Aff, count: usize) -> Result<Aff, AllocError>
    ensures { IfOk result (λ f. f ≡ padded count form.now) }
{
    let mut coefficients = Vec::from_slice(alloc, &form.coefficients)?;
    let zeros = zeros(alloc, count.saturating_sub(coefficients.len()))?;
    coefficients.extend_from_slice(&zeros)?;
    Ok(Aff {
        coefficients,
        constant: form.constant,
    })
}

fn padded_all(alloc: Global, forms: &[Aff], count: usize) -> Result<Vec<Aff>, AllocError>
    ensures { IfOk result (λ v. v.items ≡ map (padded count) forms.now) }
{
    let mut made = Vec::new(alloc);
    for form in forms {
        let next = padded(alloc, form, count)?;
        made.push(next)?;
    }
    Ok(made)
}

// The array with its extents over all parameters.
fn declared_over(alloc: Global, array: &Array, count: usize) -> Result<Array, AllocError>
    ensures { IfOk result (λ a. a ≡ declared_over count array.now) }
{
    Ok(Array {
        name: copied(alloc, &array.name)?,
        parameters_before: array.parameters_before,
        narrow: array.narrow,
        extents: padded_all(alloc, &array.extents, count)?,
    })
}

/// The arrays with their extents over so many parameters.
pub fn all_over(alloc: Global, arrays: &[Array], count: usize) -> Result<Vec<Array>, AllocError>
    ensures { IfOk result (λ v. v.items ≡ map (declared_over count) arrays.now) }
{
    let mut made = Vec::new(alloc);
    for array in arrays {
        let next = declared_over(alloc, array, count)?;
        made.push(next)?;
    }
    Ok(made)
}
