//! Forms for a candidate's problem: a number less a variable, and forms with others in place of their variables, whose
//! numbers are small, so that only memory may run out.
ghost use Rattle.std.specs.Prelude.{◌≡◌, ◌+◌, ◌^◌, ◌≤◌, ◌<◌, ◌++◌, ◌∷◌, [], All, IfOk, OnOk, map, negsuc, pos};
ghost use Rattle.whole_numbers.specs.Affine.{composed, multiple_of_form};
ghost use Rattle.iteration_domains.specs.Sizes.{CanCompose, form_size};
ghost use Rattle.dataflow.specs.Problems.{all_below, below, flat};

use affine_forms::{Form, FormStop, push};
use iteration_domains::{compose_form, term_form};
use std::alloc::{AllocError, Global};

// A number less the variable `at` of so many variables.
fn below_form(alloc: Global, most: u64, of: usize, at: usize) -> Result<Form, AllocError>
    requires { at < of }
    ensures { IfOk result (λ f. f ≡ below (pos most) of at) }
{
    term_form(alloc, of, at, -1, most as i128)
}

/// Appends a number less each of `count` variables from `from` on.
pub fn push_below(
    alloc: Global,
    out: &mut Vec<Form>,
    most: u64,
    of: usize,
    from: usize,
    count: usize,
) -> Result<(), AllocError>
    requires { from + count ≤ of }
    ensures { OnOk result (out.new.items ≡ out.old.items ++ all_below (pos most) of from count) }
{
    for step in 0..count {
        let form = below_form(alloc, most, of, from + step)?;
        push(out, form)?;
    }
    Ok(())
}

/// Appends forms with the inner forms in place of their variables.
pub fn push_composed(
    out: &mut Vec<Form>,
    forms: &[Form],
    inner: &[Form],
    of: usize,
) -> Result<(), AllocError>
    requires { All (CanCompose of inner.now) forms.now }
    ensures { OnOk result (out.new.items ≡ out.old.items ++ map (λ f. composed f inner.now of) forms.now) }
{
    for form in forms {
        let composition = compose_form(form, inner, of)?;
        push(out, composition)?;
    }
    Ok(())
}

// The form times -1.
fn opposite(form: &Form) -> Result<Form, AllocError>
    requires { form_size form.now ≤ 2 ^ 100 }
    ensures { IfOk result (λ f. f ≡ multiple_of_form (negsuc 0) form.now) }
{
    match form.scaled(-1) {
        Ok(multiple) => Ok(multiple),
        Err(FormStop::Wide(_)) => unreachable!(),
        Err(FormStop::NoMemory) => Err(AllocError),
    }
}

// Appends a form that is 0 as two rows.
fn push_both(out: &mut Vec<Form>, form: Form) -> Result<(), AllocError>
    requires { form_size form ≤ 2 ^ 100 }
    ensures { OnOk result (out.new.items ≡ out.old.items ++ flat (form ∷ [])) }
{
    let second = opposite(&form)?;
    push(out, form)?;
    push(out, second)
}

/// Appends equalities with the inner forms in place of their variables, each as two rows.
pub fn push_flat(
    out: &mut Vec<Form>,
    forms: &[Form],
    inner: &[Form],
    of: usize,
) -> Result<(), AllocError>
    requires { All (CanCompose of inner.now) forms.now }
    ensures { OnOk result
        (out.new.items ≡ out.old.items ++ flat (map (λ f. composed f inner.now of) forms.now)) }
{
    for form in forms {
        let composition = compose_form(form, inner, of)?;
        push_both(out, composition)?;
    }
    Ok(())
}
