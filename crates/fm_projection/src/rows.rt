//! The loops of an elimination, each of which appends forms to a list.

ghost use Rattle.std.specs.Prelude.{◌≡◌, ◌<◌, ◌∷◌, [], ◌++◌, length, map};
ghost use Rattle.std.specs.Prelude.{All, OnOk, Result};
ghost use Rattle.wide_math.specs.declared.Wide.{Wide};
ghost use Rattle.whole_numbers.specs.Affine.{Affine};
ghost use Rattle.whole_numbers.specs.Content.{lowest_of_form};
ghost use Rattle.fractions.specs.Elimination.{coefficient_of, chosen, sign};
ghost use Rattle.fractions.specs.Elimination.{is_zero, is_not_zero, is_positive, is_negative};
ghost use Rattle.affine_forms.specs.Parts.{variables_of};
ghost use Rattle.affine_forms.specs.Gives.{Gives};
ghost use Rattle.fm_projection.specs.Runs.{forms_run, pair_run, pairs_run, place_of, projected_run};
ghost use Rattle.fm_projection.specs.Runs.{reduced_all_run, reduced_run, single, size_run};
ghost use Rattle.fm_projection.specs.Gives.{Gains};

use affine_forms::{Form, FormStop, push};
use std::alloc::{AllocError, Global};
use wide_math::{Wide, mul, sub};

/// The coefficient of a variable.
#[inline]
pub fn coefficient(form: &Form, variable: usize) -> i128
    requires { variable < variables_of form.now }
    ensures { result ≡ coefficient_of variable form.now }
{
    form.coefficients()[variable]
}

/// Appends a form that was made, or stops as its making did.
fn append(out: &mut Vec<Form>, made: Result<Form, FormStop>) -> Result<(), FormStop>
    ensures { (run : Result Affine Wide) → Gives (λ f. f) made run
        → Gains out.old.items out.new.items result (single run) }
{
    match made {
        Err(stop) => Err(stop),
        Ok(form) => match push(out, form) {
            Err(_) => Err(FormStop::NoMemory),
            Ok(()) => Ok(()),
        },
    }
}

/// Appends the form in lowest terms.
fn append_copy(out: &mut Vec<Form>, form: &Form) -> Result<(), AllocError>
    ensures { OnOk result (out.new.items ≡ out.old.items ++ lowest_of_form form.now ∷ []) }
{
    match form.copy() {
        Err(_) => Err(AllocError),
        Ok(mut copy) => {
            copy.lower();
            push(out, copy)
        }
    }
}

/// Appends each form in lowest terms.
pub fn append_lowest(out: &mut Vec<Form>, forms: &[Form]) -> Result<(), AllocError>
    ensures { OnOk result (out.new.items ≡ out.old.items ++ map lowest_of_form forms.now) }
{
    for form in forms {
        append_copy(out, form)?;
    }
    Ok(())
}

/// Appends each form without the variable, in lowest terms.
pub fn append_without(
    out: &mut Vec<Form>,
    forms: &[Form],
    variable: usize,
) -> Result<(), AllocError>
    requires { All (λ f. variable < variables_of f) forms.now }
    ensures { OnOk result (out.new.items ≡ out.old.items ++ map lowest_of_form (chosen is_zero variable forms.now)) }
{
    for form in forms {
        if coefficient(form, variable) == 0 {
            append_copy(out, form)?;
        }
    }
    Ok(())
}

/// The pair of a row whose coefficient is above 0 and one whose coefficient is below.
#[tactic(auto, unfolding(crate::specs::Runs::pair_run))]
fn pair(upper: &Form, lower: &Form, variable: usize) -> Result<Form, FormStop>
    requires variable { variable < variables_of upper.now }
    requires sized { variables_of lower.now ≡ variables_of upper.now }
    ensures { Gives (λ f. f) result (pair_run variable upper.now lower.now) }
{
    let above = coefficient(upper, variable);
    match sub(0, coefficient(lower, variable)) {
        Err(wide) => Err(FormStop::Wide(wide)),
        Ok(below) => match upper.sum_of_multiples(below, above, lower) {
            Err(stop) => Err(stop),
            Ok(mut sum) => {
                sum.lower();
                Ok(sum)
            }
        },
    }
}

/// Appends the pair of `upper` with each row whose coefficient is below 0.
fn append_pairs_with(
    out: &mut Vec<Form>,
    upper: &Form,
    rows: &[Form],
    variable: usize,
) -> Result<(), FormStop>
    requires variable { variable < variables_of upper.now }
    requires sized { All (λ f. variables_of f ≡ variables_of upper.now) rows.now }
    ensures { Gains out.old.items out.new.items result
        (forms_run (pair_run variable upper.now) (chosen is_negative variable rows.now)) }
{
    for row in rows {
        if coefficient(row, variable) < 0 {
            match append(out, pair(upper, row, variable)) {
                Err(stop) => return Err(stop),
                Ok(()) => {}
            }
        }
    }
    Ok(())
}

/// Appends the pairs of each row whose coefficient is above 0 with each row whose coefficient is below.
pub fn append_pairs(out: &mut Vec<Form>, rows: &[Form], variable: usize) -> Result<(), FormStop>
    requires variable { All (λ f. variable < variables_of f) rows.now }
    requires sized { All (λ f. All (λ g. variables_of g ≡ variables_of f) rows.now) rows.now }
    ensures { Gains out.old.items out.new.items result
        (pairs_run variable (chosen is_positive variable rows.now) (chosen is_negative variable rows.now)) }
{
    for row in rows {
        if coefficient(row, variable) > 0 {
            match append_pairs_with(out, row, rows, variable) {
                Err(stop) => return Err(stop),
                Ok(()) => {}
            }
        }
    }
    Ok(())
}

/// The absolute value.
fn size_of(number: i128) -> Result<i128, Wide>
    ensures { result ≡ size_run number }
{
    if number < 0 {
        sub(0, number)
    } else {
        Ok(number)
    }
}

/// -1 for a number below 0, else 1.
fn sign_of(number: i128) -> i128
    ensures { result ≡ sign number }
{
    if number < 0 { -1 } else { 1 }
}

/// A form with the variable's value by an equality in its place.
#[tactic(auto, unfolding(crate::specs::Runs::reduced_run))]
pub fn reduced(equality: &Form, form: &Form, variable: usize) -> Result<Form, FormStop>
    requires variable { variable < variables_of equality.now }
    requires sized { variables_of form.now ≡ variables_of equality.now }
    ensures { Gives (λ f. f) result (reduced_run variable equality.now form.now) }
{
    let factor = coefficient(equality, variable);
    match size_of(factor) {
        Err(wide) => Err(FormStop::Wide(wide)),
        Ok(size) => match mul(sign_of(factor), coefficient(form, variable)) {
            Err(wide) => Err(FormStop::Wide(wide)),
            Ok(own) => match form.difference_of_multiples(size, own, equality) {
                Err(stop) => Err(stop),
                Ok(mut difference) => {
                    difference.lower();
                    Ok(difference)
                }
            },
        },
    }
}

/// Appends each form that has the variable with its value by an equality in its place.
pub fn append_reduced(
    out: &mut Vec<Form>,
    equality: &Form,
    forms: &[Form],
    variable: usize,
) -> Result<(), FormStop>
    requires variable { variable < variables_of equality.now }
    requires sized { All (λ f. variables_of f ≡ variables_of equality.now) forms.now }
    ensures { Gains out.old.items out.new.items result
        (forms_run (reduced_run variable equality.now) (chosen is_not_zero variable forms.now)) }
{
    for form in forms {
        if coefficient(form, variable) != 0 {
            match append(out, reduced(equality, form, variable)) {
                Err(stop) => return Err(stop),
                Ok(()) => {}
            }
        }
    }
    Ok(())
}

/// How many rows have a coefficient above 0.
pub fn count_positive(rows: &[Form], variable: usize) -> usize
    requires { All (λ f. variable < variables_of f) rows.now }
    ensures { result ≡ length (chosen is_positive variable rows.now) }
{
    let mut count = 0;
    for row in rows {
        if coefficient(row, variable) > 0 {
            count += 1;
        }
    }
    count
}

/// How many rows have a coefficient below 0.
pub fn count_negative(rows: &[Form], variable: usize) -> usize
    requires { All (λ f. variable < variables_of f) rows.now }
    ensures { result ≡ length (chosen is_negative variable rows.now) }
{
    let mut count = 0;
    for row in rows {
        if coefficient(row, variable) < 0 {
            count += 1;
        }
    }
    count
}

/// The place of the first form with the variable; the number of forms where none has it.
pub fn first_place(forms: &[Form], variable: usize) -> usize
    requires { All (λ f. variable < variables_of f) forms.now }
    ensures { result ≡ place_of variable forms.now }
{
    for at in 0..forms.len() {
        if coefficient(&forms[at], variable) != 0 {
            return at;
        }
    }
    forms.len()
}

/// The forms without the variable, then the others with its value by an equality in its place.
pub fn reduce_all(
    alloc: Global,
    equality: &Form,
    before: &[Form],
    after: &[Form],
    variable: usize,
) -> Result<Vec<Form>, FormStop>
    requires variable { variable < variables_of equality.now }
    requires before { All (λ f. variables_of f ≡ variables_of equality.now) before.now }
    requires after { All (λ f. variables_of f ≡ variables_of equality.now) after.now }
    ensures { Gives (λ v. v.items) result (reduced_all_run variable equality.now (before.now ++ after.now)) }
{
    let mut out = Vec::new(alloc);
    match append_without(&mut out, before, variable) {
        Err(_) => return Err(FormStop::NoMemory),
        Ok(()) => {}
    }
    match append_without(&mut out, after, variable) {
        Err(_) => return Err(FormStop::NoMemory),
        Ok(()) => {}
    }
    match append_reduced(&mut out, equality, before, variable) {
        Err(stop) => return Err(stop),
        Ok(()) => {}
    }
    match append_reduced(&mut out, equality, after, variable) {
        Err(stop) => return Err(stop),
        Ok(()) => {}
    }
    Ok(out)
}

/// The rows without the variable, then the pairs.
pub fn project_all(alloc: Global, rows: &[Form], variable: usize) -> Result<Vec<Form>, FormStop>
    requires variable { All (λ f. variable < variables_of f) rows.now }
    requires sized { All (λ f. All (λ g. variables_of g ≡ variables_of f) rows.now) rows.now }
    ensures { Gives (λ v. v.items) result (projected_run variable rows.now) }
{
    let mut out = Vec::new(alloc);
    match append_without(&mut out, rows, variable) {
        Err(_) => return Err(FormStop::NoMemory),
        Ok(()) => {}
    }
    match append_pairs(&mut out, rows, variable) {
        Err(stop) => return Err(stop),
        Ok(()) => {}
    }
    Ok(out)
}
