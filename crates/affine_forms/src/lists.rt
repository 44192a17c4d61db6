//! Lists that grow by one, where what finds no room is dropped, copies of forms, and forms over one variable more.

ghost use Rattle.std.specs.Prelude.{◌≡◌, ◌≤◌, [], ◌∷◌, ◌++◌, All, IfOk, OnErr, OnOk, map};
ghost use Rattle.wide_math.specs.Affine.{widened};
ghost use Rattle.affine_forms.specs.Parts.{variables_of};

use crate::form::Form;
use std::alloc::{AllocError, Global};

/// One element more at the end; without memory for it the list stays as it was.
///
/// # Errors
/// `AllocError` alone.
pub fn push<T: Drop>(list: &mut Vec<T>, last: T) -> Result<(), AllocError>
    ensures pushed { OnOk result (list.new.items ≡ list.old.items ++ last ∷ []) }
    ensures kept { OnErr result (list.new.items ≡ list.old.items) }
{
    match list.push(last) {
        Err(_) => Err(AllocError),
        Ok(()) => Ok(()),
    }
}

/// A copy of a form more at the end.
///
/// # Errors
/// `AllocError` alone.
pub fn push_copy(forms: &mut Vec<Form>, form: &Form) -> Result<(), AllocError>
    ensures { OnOk result (forms.new.items ≡ forms.old.items ++ form.now ∷ []) }
{
    match form.copy() {
        Err(_) => Err(AllocError),
        Ok(copy) => push(forms, copy),
    }
}

/// Copies of forms more at the end.
///
/// # Errors
/// `AllocError` alone.
pub fn push_copies(forms: &mut Vec<Form>, more: &[Form]) -> Result<(), AllocError>
    ensures { OnOk result (forms.new.items ≡ forms.old.items ++ more.now) }
{
    for form in more {
        match push_copy(forms, form) {
            Err(error) => return Err(error),
            Ok(()) => {}
        }
    }
    Ok(())
}

/// Copies of forms.
///
/// # Errors
/// `AllocError` alone.
pub fn copies(alloc: Global, forms: &[Form]) -> Result<Vec<Form>, AllocError>
    ensures { IfOk result (λ v. v.items ≡ forms.now) }
{
    match Vec::with_capacity(alloc, forms.len()) {
        Err(error) => Err(error),
        Ok(mut copied) => match push_copies(&mut copied, forms) {
            Err(error) => Err(error),
            Ok(()) => Ok(copied),
        },
    }
}

/// The form over one variable more, at a place, of which it does not speak.
fn widen(alloc: Global, form: &Form, place: usize) -> Result<Form, AllocError>
    requires { place ≤ variables_of form.now }
    ensures { IfOk result (λ f. f ≡ widened place form.now) }
{
    let mut numbers = Vec::from_slice(alloc, form.coefficients())?;
    match numbers.insert(place, 0i128) {
        Err(_) => return Err(AllocError),
        Ok(()) => {}
    }
    match Form::of(alloc, &numbers, form.constant()) {
        Err(_) => Err(AllocError),
        Ok(wide) => Ok(wide),
    }
}

/// Forms more at the end, each over one variable more, at a place, of which it does not speak.
///
/// # Errors
/// `AllocError` alone.
pub fn push_widened(
    alloc: Global,
    out: &mut Vec<Form>,
    forms: &[Form],
    place: usize,
) -> Result<(), AllocError>
    requires { All (λ f. place ≤ variables_of f) forms.now }
    ensures { OnOk result (out.new.items ≡ out.old.items ++ map (widened place) forms.now) }
{
    for form in forms {
        let wide = widen(alloc, form, place)?;
        push(out, wide)?;
    }
    Ok(())
}
