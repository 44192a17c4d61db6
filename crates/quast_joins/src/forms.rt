//! The forms of a join: those of leaves, tests and binds with variables put in, and the tests between two leaves.
ghost use Rattle.std.specs.Prelude.{◌≡◌, ◌+◌, ◌≤◌, IfOk, All, map};
ghost use Rattle.affine_forms.specs.Parts.{variables_of};
ghost use Rattle.quast_joins.specs.Joins.{test_of, less_by_one};
ghost use Rattle.quast_joins.specs.Limits.{leaf_limit};
ghost use Rattle.quast_joins.specs.Shifts.{shifted_form, shifted_leaf, widened};
ghost use Rattle.quast_joins.specs.Sizes.{IsFormWithin};

use crate::way::Way;
use affine_forms::{Form, FormStop, INLINE, copies, push};
use quast_trees::{Forms, copied_source};
use smallvec::SmallVec;
use std::alloc::{AllocError, Global};

// A form's coefficients while they are put together.
type Numbers = SmallVec<i128, INLINE>;

/// The form with its variables from `variables` on moved by `more`.
pub fn move_form(
    alloc: Global,
    form: &Form,
    variables: usize,
    more: usize,
) -> Result<Form, AllocError>
    requires { variables ≤ variables_of form.now }
    ensures { IfOk result (λ f. f ≡ shifted_form variables more form.now) }
{
    let coefficients = form.coefficients();
    let zeros = Numbers::from_elem(alloc, 0, more)?;
    let mut numbers = Numbers::from_slice(alloc, &coefficients[..variables])?;
    numbers.extend_from_slice(zeros.as_slice())?;
    numbers.extend_from_slice(&coefficients[variables..])?;
    match Form::of(alloc, numbers.as_slice(), form.constant()) {
        Err(_) => Err(AllocError),
        Ok(form) => Ok(form),
    }
}

// Each form with its variables from `variables` on moved by `more`.
fn move_forms(
    alloc: Global,
    forms: &[Form],
    variables: usize,
    more: usize,
) -> Result<Vec<Form>, AllocError>
    requires { All (λ f. variables ≤ variables_of f) forms.now }
    ensures { IfOk result (λ v. v.items ≡ map (shifted_form variables more) forms.now) }
{
    let mut moved = match Vec::with_capacity(alloc, forms.len()) {
        Err(error) => return Err(error),
        Ok(moved) => moved,
    };
    for form in forms {
        match move_form(alloc, form, variables, more) {
            Err(error) => return Err(error),
            Ok(form) => match push(&mut moved, form) {
                Err(error) => return Err(error),
                Ok(()) => {}
            },
        }
    }
    Ok(moved)
}

// A leaf over `more` variables more, with other forms.
fn with_forms(
    alloc: Global,
    leaf: &Forms,
    more: usize,
    forms: Vec<Form>,
) -> Result<Forms, AllocError>
    ensures { IfOk result
        (λ l. l ≡ record leaf.now { variables = leaf.now.variables + more; forms = forms.items }) }
{
    let Some(variables) = leaf.variables.checked_add(more) else {
        return Err(AllocError);
    };
    match copied_source(alloc, &leaf.source) {
        Err(error) => Err(error),
        Ok(source) => Ok(Forms {
            source,
            variables,
            forms,
        }),
    }
}

/// A leaf with each form's variables from `variables` on moved by `more`.
pub fn move_leaf(
    alloc: Global,
    leaf: &Forms,
    variables: usize,
    more: usize,
) -> Result<Forms, AllocError>
    requires { All (λ f. variables ≤ variables_of f) leaf.now.forms }
    ensures { IfOk result (λ l. l ≡ shifted_leaf variables more leaf.now) }
{
    match move_forms(alloc, &leaf.forms, variables, more) {
        Err(error) => Err(error),
        Ok(forms) => with_forms(alloc, leaf, more, forms),
    }
}

/// A leaf over `more` variables more behind its own, which its forms do not use.
pub fn widen_leaf(alloc: Global, leaf: &Forms, more: usize) -> Result<Forms, AllocError>
    requires { All (λ f. leaf.now.variables ≤ variables_of f) leaf.now.forms }
    ensures { IfOk result (λ l. l ≡ widened more leaf.now) }
{
    move_leaf(alloc, leaf, leaf.variables, more)
}

/// The same leaf again.
pub fn copy_leaf(alloc: Global, leaf: &Forms) -> Result<Forms, AllocError>
    ensures { IfOk result (λ l. l ≡ leaf.now) }
{
    let source = match copied_source(alloc, &leaf.source) {
        Err(error) => return Err(error),
        Ok(source) => source,
    };
    match copies(alloc, &leaf.forms) {
        Err(error) => Err(error),
        Ok(forms) => Ok(Forms {
            source,
            variables: leaf.variables,
            forms,
        }),
    }
}

// The first form less the second and 1.
fn less_by_one(alloc: Global, first: &Form, second: &Form) -> Result<Form, AllocError>
    requires variables { variables_of second.now ≡ variables_of first.now }
    requires first { IsFormWithin leaf_limit first.now }
    requires second { IsFormWithin leaf_limit second.now }
    ensures { IfOk result (λ f. f ≡ less_by_one first.now second.now) }
{
    match first.difference_of_multiples(1, 1, second) {
        Err(FormStop::NoMemory) => Err(AllocError),
        Err(FormStop::Wide(_)) => unreachable!(),
        Ok(difference) => match Form::of(
            alloc,
            difference.coefficients(),
            difference.constant() - 1,
        ) {
            Err(_) => Err(AllocError),
            Ok(form) => Ok(form),
        },
    }
}

/// The form that is at least 0 just where the first's value is wanted before the second's.
pub fn test_between(
    alloc: Global,
    way: Way,
    first: &Form,
    second: &Form,
) -> Result<Form, AllocError>
    requires variables { variables_of second.now ≡ variables_of first.now }
    requires first { IsFormWithin leaf_limit first.now }
    requires second { IsFormWithin leaf_limit second.now }
    ensures { IfOk result (λ f. f ≡ test_of way first.now second.now) }
{
    match way {
        Way::Later => less_by_one(alloc, first, second),
        Way::Earlier => less_by_one(alloc, second, first),
    }
}
