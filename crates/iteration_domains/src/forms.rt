//! Forms of 128 bits of a kernel's affine forms, composed over other variables. Within the limits of a kernel no number
//! on the way is too wide, so only memory may run out.
ghost use Rattle.std.specs.Prelude.{◌≡◌, ◌+◌, ◌*◌, ◌<◌, ◌≤◌, ◌^◌, ◌++◌, ◌∷◌, [], IfOk, OnOk, set, unsigned_abs};
ghost use Rattle.integer_sets.specs.Parts.{variables_of};
ghost use Rattle.whole_numbers.specs.Affine.{composed, form_of, multiple_of_form, sum_of_forms};
ghost use Rattle.whole_numbers.specs.Lists.{zeros};
ghost use Rattle.iteration_domains.specs.Rows.{variable, variables};
ghost use Rattle.iteration_domains.specs.Sizes.{CanCompose, form_size};

use integer_sets::{Form, FormStop, INLINE, push};
use scop_syntax::Aff;
use smallvec::SmallVec;
use std::alloc::{AllocError, Global};

/// A form's coefficients while they are put together.
pub type Numbers = SmallVec<i128, INLINE>;

/// Appends zeros.
///
/// # Errors
/// `AllocError` alone.
pub fn push_zeros(numbers: &mut Numbers, count: usize) -> Result<(), AllocError>
    ensures { OnOk result (numbers.new.items ≡ numbers.old.items ++ zeros count) }
{
    let Some(len) = numbers.len().checked_add(count) else {
        return Err(AllocError);
    };
    numbers.resize(len, 0)?;
    Ok(())
}

/// The form with these numbers.
///
/// # Errors
/// `AllocError` alone.
pub fn form_from(alloc: Global, coefficients: &[i128], constant: i128) -> Result<Form, AllocError>
    ensures { IfOk result (λ f. f ≡ form_of coefficients.now constant) }
{
    match Form::of(alloc, coefficients, constant) {
        Err(_) => Err(AllocError),
        Ok(form) => Ok(form),
    }
}

/// Appends numbers of 64 bits.
///
/// # Errors
/// `AllocError` alone.
pub fn push_numbers(numbers: &mut Numbers, more: &[i64]) -> Result<(), AllocError>
    ensures { OnOk result (numbers.new.items ≡ numbers.old.items ++ more.now) }
{
    for number in more {
        numbers.push(*number as i128)?;
    }
    Ok(())
}

/// A kernel's form with numbers of 128 bits.
///
/// # Errors
/// `AllocError` alone.
pub fn wide_form(alloc: Global, aff: &Aff) -> Result<Form, AllocError>
    ensures { IfOk result (λ f. f ≡ aff.now) }
{
    let mut coefficients = Numbers::new(alloc);
    push_numbers(&mut coefficients, aff.coefficients.as_slice())?;
    form_from(alloc, coefficients.as_slice(), aff.constant as i128)
}

/// The form over so many variables that has one value everywhere.
///
/// # Errors
/// `AllocError` alone.
pub fn constant_form(alloc: Global, variables: usize, constant: i128) -> Result<Form, AllocError>
    ensures { IfOk result (λ f. f ≡ form_of (zeros variables) constant) }
{
    let mut coefficients = Numbers::new(alloc);
    push_zeros(&mut coefficients, variables)?;
    form_from(alloc, coefficients.as_slice(), constant)
}

/// The form whose coefficient of the variable `at` of so many is `factor`, and all others 0.
///
/// # Errors
/// `AllocError` alone.
pub fn term_form(
    alloc: Global,
    variables: usize,
    at: usize,
    factor: i128,
    constant: i128,
) -> Result<Form, AllocError>
    requires { at < variables }
    ensures { IfOk result (λ f. f ≡ form_of (set (zeros variables) at factor) constant) }
{
    let mut coefficients = Numbers::from_elem(alloc, 0, variables)?;
    coefficients[at] = factor;
    form_from(alloc, coefficients.as_slice(), constant)
}

/// The variable `at` of so many variables.
pub fn variable_form(alloc: Global, variables: usize, at: usize) -> Result<Form, AllocError>
    requires { at < variables }
    ensures { IfOk result (λ f. f ≡ variable variables at) }
{
    term_form(alloc, variables, at, 1, 0)
}

/// Appends `count` variables of `of`, from `from` on.
///
/// # Errors
/// `AllocError` alone.
pub fn push_variables(
    alloc: Global,
    out: &mut Vec<Form>,
    of: usize,
    from: usize,
    count: usize,
) -> Result<(), AllocError>
    requires { from + count ≤ of }
    ensures { OnOk result (out.new.items ≡ out.old.items ++ variables of from count) }
{
    for step in 0..count {
        let form = variable_form(alloc, of, from + step)?;
        push(out, form)?;
    }
    Ok(())
}

/// `form` plus `factor` times `other`, whose numbers are small.
pub fn plus_multiple(form: &Form, factor: i128, other: &Form) -> Result<Form, AllocError>
    requires sized { variables_of other.now ≡ variables_of form.now }
    requires small { form_size form.now + unsigned_abs factor * form_size other.now ≤ 2 ^ 100 }
    ensures { IfOk result (λ f. f ≡ sum_of_forms form.now (multiple_of_form factor other.now)) }
{
    match form.sum_of_multiples(1, factor, other) {
        Ok(sum) => Ok(sum),
        Err(FormStop::Wide(_)) => unreachable!(),
        Err(FormStop::NoMemory) => Err(AllocError),
    }
}

/// The form over `variables` variables that puts `forms`, in order, in place of those of `form`, all of small numbers.
///
/// # Errors
/// `AllocError` alone.
pub fn compose_form(form: &Form, forms: &[Form], variables: usize) -> Result<Form, AllocError>
    requires { CanCompose variables forms.now form.now }
    ensures form { IfOk result (λ f. f ≡ composed form.now forms.now variables) }
    ensures sized { IfOk result (λ f. variables_of f ≡ variables) }
{
    match form.compose(forms, variables) {
        Ok(composition) => Ok(composition),
        Err(FormStop::Wide(_)) => unreachable!(),
        Err(FormStop::NoMemory) => Err(AllocError),
    }
}

/// The form over `variables` variables that puts `forms`, in order, in place of the variables of `aff`.
pub fn compose(
    alloc: Global,
    aff: &Aff,
    forms: &[Form],
    variables: usize,
) -> Result<Form, AllocError>
    requires { CanCompose variables forms.now aff.now }
    ensures form { IfOk result (λ f. f ≡ composed aff.now forms.now variables) }
    ensures sized { IfOk result (λ f. variables_of f ≡ variables) }
{
    let form = wide_form(alloc, aff)?;
    compose_form(&form, forms, variables)
}

/// Appends that form.
pub fn push_composed(
    alloc: Global,
    out: &mut Vec<Form>,
    aff: &Aff,
    forms: &[Form],
    variables: usize,
) -> Result<(), AllocError>
    requires { CanCompose variables forms.now aff.now }
    ensures { OnOk result (out.new.items ≡ out.old.items ++ composed aff.now forms.now variables ∷ []) }
{
    let form = compose(alloc, aff, forms, variables)?;
    push(out, form)
}
