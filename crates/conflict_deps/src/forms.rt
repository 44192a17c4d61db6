//! Forms over the variables of a pair of instances: the source's turns, the target's, and the parameters.
ghost use Rattle.std.specs.Prelude.{◌≡◌, ◌+◌, ◌<◌, ◌≤◌, ◌++◌, ◌∷◌, [], All, IfOk, OnOk, length, map};
ghost use Rattle.iteration_domains.specs.Parts.{variables_of};
ghost use Rattle.iteration_domains.specs.Constraints.{equalities_in};
ghost use Rattle.iteration_domains.specs.Sizes.{IsNarrow};
ghost use Rattle.conflict_deps.specs.Conflicts.{difference_of_forms, equal_turns, one_form, same_subscripts};
ghost use Rattle.conflict_deps.specs.Conflicts.{source_form, spread, step, target_form};

use iteration_domains::{
    Form, Numbers, constant_form, form_from, plus_multiple, push, push_zeros, variable_form,
};
use std::alloc::{AllocError, Global};

/// The coefficients of a form of the source, which has `loops` turns, where the target has `others`.
fn spread_numbers(
    alloc: Global,
    numbers: &[i128],
    loops: usize,
    others: usize,
) -> Result<Numbers, AllocError>
    requires { loops ≤ length numbers.now }
    ensures { IfOk result (λ all. all.items ≡ spread others loops numbers.now) }
{
    let mut coefficients = Numbers::new(alloc);
    coefficients.extend_from_slice(&numbers[..loops])?;
    push_zeros(&mut coefficients, others)?;
    coefficients.extend_from_slice(&numbers[loops..])?;
    Ok(coefficients)
}

/// That form.
fn spread_source(
    alloc: Global,
    form: &Form,
    loops: usize,
    others: usize,
) -> Result<Form, AllocError>
    requires { loops ≤ variables_of form.now }
    ensures { IfOk result (λ f. f ≡ source_form loops others form.now) }
{
    let coefficients = spread_numbers(alloc, form.coefficients(), loops, others)?;
    form_from(alloc, coefficients.as_slice(), form.constant())
}

/// A form of the target, where the source has `loops` turns.
fn shift_target(alloc: Global, form: &Form, loops: usize) -> Result<Form, AllocError>
    ensures { IfOk result (λ f. f ≡ target_form loops form.now) }
{
    let mut coefficients = Numbers::new(alloc);
    push_zeros(&mut coefficients, loops)?;
    coefficients.extend_from_slice(form.coefficients())?;
    form_from(alloc, coefficients.as_slice(), form.constant())
}

/// Appends forms of the source.
pub fn push_sources(
    alloc: Global,
    out: &mut Vec<Form>,
    forms: &[Form],
    loops: usize,
    others: usize,
) -> Result<(), AllocError>
    requires { All (λ f. loops ≤ variables_of f) forms.now }
    ensures { OnOk result (out.new.items ≡ out.old.items ++ map (source_form loops others) forms.now) }
{
    for form in forms {
        let spread = spread_source(alloc, form, loops, others)?;
        push(out, spread)?;
    }
    Ok(())
}

/// Appends forms of the target.
pub fn push_targets(
    alloc: Global,
    out: &mut Vec<Form>,
    forms: &[Form],
    loops: usize,
) -> Result<(), AllocError>
    ensures { OnOk result (out.new.items ≡ out.old.items ++ map (target_form loops) forms.now) }
{
    for form in forms {
        let shifted = shift_target(alloc, form, loops)?;
        push(out, shifted)?;
    }
    Ok(())
}

/// Source's subscript minus target's.
fn subscript_difference(
    alloc: Global,
    first: &Form,
    second: &Form,
    loops: usize,
    others: usize,
    parameters: usize,
) -> Result<Form, AllocError>
    requires first { IsNarrow (loops + parameters) first.now }
    requires second { IsNarrow (others + parameters) second.now }
    ensures { IfOk result
        (λ f. f ≡ difference_of_forms (source_form loops others first.now) (target_form loops second.now)) }
{
    let source = spread_source(alloc, first, loops, others)?;
    let target = shift_target(alloc, second, loops)?;
    plus_multiple(&source, -1, &target)
}

/// Appends that the subscripts are equal.
pub fn push_subscripts(
    alloc: Global,
    out: &mut Vec<Form>,
    first: &[Form],
    second: &[Form],
    loops: usize,
    others: usize,
    parameters: usize,
) -> Result<(), AllocError>
    requires first { All (IsNarrow (loops + parameters)) first.now }
    requires second { All (IsNarrow (others + parameters)) second.now }
    ensures { OnOk result (out.new.items
        ≡ out.old.items ++ equalities_in (same_subscripts loops others first.now second.now)) }
{
    for at in 0..first.len() {
        if at >= second.len() {
            return Ok(());
        }
        let equality = subscript_difference(
            alloc,
            &first[at],
            &second[at],
            loops,
            others,
            parameters,
        )?;
        push(out, equality)?;
    }
    Ok(())
}

/// Target's turn minus source's of loop `at`, counted from 0, where the source has `loops` turns.
fn turn_difference(
    alloc: Global,
    variables: usize,
    loops: usize,
    at: usize,
) -> Result<Form, AllocError>
    requires { loops + at < variables }
    ensures { IfOk result (λ f. f ≡ step variables loops at) }
{
    let target = variable_form(alloc, variables, loops + at)?;
    let source = variable_form(alloc, variables, at)?;
    plus_multiple(&target, -1, &source)
}

/// Appends that the turns of the outermost `count` loops are equal.
pub fn push_equal_turns(
    alloc: Global,
    out: &mut Vec<Form>,
    variables: usize,
    loops: usize,
    count: usize,
) -> Result<(), AllocError>
    requires { loops + count ≤ variables }
    ensures { OnOk result (out.new.items ≡ out.old.items ++ equalities_in (equal_turns variables loops count)) }
{
    for at in 0..count {
        let equality = turn_difference(alloc, variables, loops, at)?;
        push(out, equality)?;
    }
    Ok(())
}

/// Target's turn minus source's of loop `at`, minus 1.
fn later_turn(alloc: Global, variables: usize, loops: usize, at: usize) -> Result<Form, AllocError>
    requires { loops + at < variables }
    ensures { IfOk result (λ f. f ≡ difference_of_forms (step variables loops at) (one_form variables)) }
{
    let difference = turn_difference(alloc, variables, loops, at)?;
    let one = constant_form(alloc, variables, 1)?;
    plus_multiple(&difference, -1, &one)
}

/// Appends that the target's turn of loop `at` is later.
pub fn push_later_turn(
    alloc: Global,
    out: &mut Vec<Form>,
    variables: usize,
    loops: usize,
    at: usize,
) -> Result<(), AllocError>
    requires { loops + at < variables }
    ensures { OnOk result (out.new.items
        ≡ out.old.items ++ difference_of_forms (step variables loops at) (one_form variables) ∷ []) }
{
    let row = later_turn(alloc, variables, loops, at)?;
    push(out, row)
}
