//! Forms of a tree, wide for sums and narrow again: each number of a new tree lies within 2^45.
ghost use Rattle.std.specs.Prelude.{◌≡◌, ◌≤◌, ◌^◌, All, IfOk, IfSome, length, unsigned_abs};
ghost use Rattle.whole_numbers.specs.Affine.{composed};
ghost use Rattle.scop_syntax.specs.Kernel.{AreAtMost};
ghost use Rattle.loop_tree.specs.Shape.{IsOver, IsUpTo};
ghost use Rattle.tree_simplification.specs.declared.single.numbers.Stop.TheVariants as stop;

use affine_forms::{Form, FormStop, push};
use iteration_domains::wide_form;
use scop_syntax::Aff;
use std::alloc::{AllocError, Global};

/// Why a tree is not made: a number would pass 2^45, or there is no memory.
#[derive(Drop)]
pub enum Stop {
    Large,
    NoMemory,
}

/// The greatest number of a new tree.
const MOST: u128 = 35_184_372_088_832;

impl From<AllocError> for Stop {
    ghost from_gives = { λ _ s. s ≡ stop.NoMemory };

    fn from(_: AllocError) -> Stop {
        Stop::NoMemory
    }
}

/// A number as one of a tree, if it lies within 2^45.
pub fn narrow_number(number: i128) -> Option<i64>
    ensures { IfSome result (λ x. (x ≡ number) × (unsigned_abs x ≤ 2 ^ 45)) }
{
    if number.unsigned_abs() <= MOST {
        Some(number as i64)
    } else {
        None
    }
}

/// Numbers as those of a tree.
pub fn narrow_numbers(alloc: Global, numbers: &[i128]) -> Result<Vec<i64>, Stop>
    ensures same { IfOk result (λ xs. xs.items ≡ numbers.now) }
    ensures small { IfOk result (λ xs. AreAtMost (2 ^ 45) numbers.now) }
{
    let mut narrowed = Vec::new(alloc);
    for number in numbers {
        match narrow_number(*number) {
            None => return Err(Stop::Large),
            Some(narrow) => push(&mut narrowed, narrow)?,
        }
    }
    Ok(narrowed)
}

/// A form as one of a tree.
pub fn narrow(alloc: Global, form: &Form) -> Result<Aff, Stop>
    ensures form { IfOk result (λ a. a ≡ form.now) }
    ensures small { IfOk result (λ a. IsUpTo (2 ^ 45) form.now) }
{
    let coefficients = narrow_numbers(alloc, form.coefficients())?;
    match narrow_number(form.constant()) {
        None => Err(Stop::Large),
        Some(constant) => Ok(Aff {
            coefficients,
            constant,
        }),
    }
}

/// The form over `variables` variables that puts `forms`, in order, in place of the variables of `form`.
pub fn composed(alloc: Global, form: &Aff, forms: &[Form], variables: usize) -> Result<Form, Stop>
    requires count { IsOver (length forms.now) form.now }
    requires sized { All (IsOver variables) forms.now }
    ensures { IfOk result (λ a. a ≡ composed form.now forms.now variables) }
{
    let wide = wide_form(alloc, form)?;
    match wide.compose(forms, variables) {
        Ok(composed) => Ok(composed),
        Err(FormStop::Wide(_)) => Err(Stop::Large),
        Err(FormStop::NoMemory) => Err(Stop::NoMemory),
    }
}

/// So as a form of a tree.
pub fn composition(alloc: Global, form: &Aff, forms: &[Form], variables: usize) -> Result<Aff, Stop>
    requires count { IsOver (length forms.now) form.now }
    requires sized { All (IsOver variables) forms.now }
    ensures form { IfOk result (λ a. a ≡ composed form.now forms.now variables) }
    ensures small { IfOk result (IsUpTo (2 ^ 45)) }
{
    let composed = composed(alloc, form, forms, variables)?;
    narrow(alloc, &composed)
}
