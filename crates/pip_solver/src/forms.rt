//! The forms that a node's questions and ties are made of.
ghost use Rattle.std.specs.Prelude.{◌≡◌, pos, [], ◌∷◌, ◌++◌, map, Ok, IfOk, OnOk};
ghost use Rattle.wide_math.specs.Checked.{difference_of};
ghost use Rattle.wide_math.specs.Gives.{Becomes};
ghost use Rattle.whole_numbers.specs.Affine.{form_of};
ghost use Rattle.affine_forms.specs.Gives.{Gives};
ghost use Rattle.affine_forms.specs.Runs.{map_run};
ghost use Rattle.checked_tableau.specs.Nodes.{opposites_run, opposite_run, above_run, under_run};
ghost use Rattle.checked_tableau.specs.Nodes.{at_least_run, longer_form};

use affine_forms::{Form, FormStop, copies, map_in_place, push};
use std::alloc::{AllocError, Global};
use wide_math::{Wide, sub};

/// Turns the sign of each number.
pub fn oppose(numbers: &mut [i128]) -> Result<(), Wide>
    ensures { Becomes numbers.new result (map_run (difference_of (pos 0)) numbers.old) }
{
    map_in_place(numbers, |number| sub(0, number))
}

/// The opposite of each number.
fn opposites(alloc: Global, numbers: &[i128]) -> Result<Vec<i128>, FormStop>
    ensures { Gives (λ v. v.items) result (opposites_run numbers.now) }
{
    let mut opposites = match Vec::from_slice(alloc, numbers) {
        Err(_) => return Err(FormStop::NoMemory),
        Ok(opposites) => opposites,
    };
    match oppose(&mut opposites) {
        Err(wide) => Err(FormStop::Wide(wide)),
        Ok(()) => Ok(opposites),
    }
}

/// The form of these coefficients, one more behind them, and a constant.
fn extended(
    alloc: Global,
    coefficients: &[i128],
    last: i128,
    constant: i128,
) -> Result<Form, FormStop>
    ensures { Gives (λ f. f) result (Ok (form_of (coefficients.now ++ last ∷ []) constant)) }
{
    let mut longer = match Vec::from_slice(alloc, coefficients) {
        Err(_) => return Err(FormStop::NoMemory),
        Ok(longer) => longer,
    };
    match longer.push(last) {
        Err(_) => return Err(FormStop::NoMemory),
        Ok(()) => {}
    }
    Form::of(alloc, &longer, constant)
}

/// -f - 1: the coefficients in order, then the constant, and 1 taken off it.
#[tactic(auto, unfolding(crate::specs::Node::opposite_run))]
pub fn opposite(alloc: Global, form: &Form) -> Result<Form, FormStop>
    ensures { Gives (λ f. f) result (opposite_run form.now) }
{
    let coefficients = match opposites(alloc, form.coefficients()) {
        Err(stop) => return Err(stop),
        Ok(coefficients) => coefficients,
    };
    let constant = match sub(0, form.constant()) {
        Err(wide) => return Err(FormStop::Wide(wide)),
        Ok(constant) => constant,
    };
    match sub(constant, 1) {
        Err(wide) => Err(FormStop::Wide(wide)),
        Ok(less) => Form::of(alloc, &coefficients, less),
    }
}

/// f - d q - 1, over one unknown q more.
#[tactic(auto, unfolding(crate::specs::Node::above_run))]
pub fn above(alloc: Global, divisor: i128, form: &Form) -> Result<Form, FormStop>
    ensures { Gives (λ f. f) result (above_run divisor form.now) }
{
    let last = match sub(0, divisor) {
        Err(wide) => return Err(FormStop::Wide(wide)),
        Ok(last) => last,
    };
    match sub(form.constant(), 1) {
        Err(wide) => Err(FormStop::Wide(wide)),
        Ok(less) => extended(alloc, form.coefficients(), last, less),
    }
}

/// d q + d - 1 - f, over one unknown q more.
#[tactic(auto, unfolding(crate::specs::Node::under_run))]
pub fn under(alloc: Global, divisor: i128, form: &Form) -> Result<Form, FormStop>
    ensures { Gives (λ f. f) result (under_run divisor form.now) }
{
    let coefficients = match opposites(alloc, form.coefficients()) {
        Err(stop) => return Err(stop),
        Ok(coefficients) => coefficients,
    };
    let less = match sub(divisor, 1) {
        Err(wide) => return Err(FormStop::Wide(wide)),
        Ok(less) => less,
    };
    match sub(less, form.constant()) {
        Err(wide) => Err(FormStop::Wide(wide)),
        Ok(constant) => extended(alloc, &coefficients, divisor, constant),
    }
}

/// f - d q, over one unknown q more.
#[tactic(auto, unfolding(crate::specs::Node::at_least_run))]
pub fn at_least(alloc: Global, divisor: i128, form: &Form) -> Result<Form, FormStop>
    ensures { Gives (λ f. f) result (at_least_run divisor form.now) }
{
    match sub(0, divisor) {
        Err(wide) => Err(FormStop::Wide(wide)),
        Ok(last) => extended(alloc, form.coefficients(), last, form.constant()),
    }
}

/// Appends the form over one variable more, of which it does not speak.
fn push_longer(alloc: Global, forms: &mut Vec<Form>, form: &Form) -> Result<(), AllocError>
    ensures { OnOk result (forms.new.items ≡ forms.old.items ++ longer_form form.now ∷ []) }
{
    match extended(alloc, form.coefficients(), 0, form.constant()) {
        Err(_) => Err(AllocError),
        Ok(longer) => push(forms, longer),
    }
}

/// Each form over one variable more, of which it does not speak.
pub fn longer_forms(alloc: Global, forms: &[Form]) -> Result<Vec<Form>, AllocError>
    ensures { IfOk result (λ v. v.items ≡ map longer_form forms.now) }
{
    let mut all = match Vec::with_capacity(alloc, forms.len()) {
        Err(error) => return Err(error),
        Ok(all) => all,
    };
    for form in forms {
        match push_longer(alloc, &mut all, form) {
            Err(error) => return Err(error),
            Ok(()) => {}
        }
    }
    Ok(all)
}

/// A copy of each form, and one form behind them.
pub fn copies_with(alloc: Global, forms: &[Form], last: Form) -> Result<Vec<Form>, AllocError>
    ensures { IfOk result (λ v. v.items ≡ forms.now ++ last ∷ []) }
{
    let mut all = match copies(alloc, forms) {
        Err(error) => return Err(error),
        Ok(all) => all,
    };
    match push(&mut all, last) {
        Err(error) => Err(error),
        Ok(()) => Ok(all),
    }
}

/// Appends two forms.
fn push_both(forms: &mut Vec<Form>, first: Form, second: Form) -> Result<(), AllocError>
    ensures { OnOk result (forms.new.items ≡ forms.old.items ++ first ∷ second ∷ []) }
{
    match push(forms, first) {
        Err(error) => Err(error),
        Ok(()) => push(forms, second),
    }
}

/// The forms over one unknown more, and two forms behind them.
pub fn tied_forms(
    alloc: Global,
    forms: &[Form],
    low: Form,
    high: Form,
) -> Result<Vec<Form>, AllocError>
    ensures { IfOk result (λ v. v.items ≡ map longer_form forms.now ++ low ∷ high ∷ []) }
{
    let mut all = match longer_forms(alloc, forms) {
        Err(error) => return Err(error),
        Ok(all) => all,
    };
    match push_both(&mut all, low, high) {
        Err(error) => Err(error),
        Ok(()) => Ok(all),
    }
}
