//! Questions whether something holds wherever a context speaks. Where the solver stops, the answer is no.

ghost use Rattle.std.specs.Prelude.{◌≡◌, ◌+◌, ◌++◌, ◌≤ℤ◌, All, IfOk, List, false, map, pos, true, ℤ};
ghost use Rattle.whole_numbers.specs.Affine.{value_of};
ghost use Rattle.whole_numbers.specs.Lists.{NotNegative};
ghost use Rattle.affine_forms.specs.Parts.{variables_of};
ghost use Rattle.pip_solver.specs.Emptiness.{IsBoundedPoint};
ghost use Rattle.loop_tree.specs.Fits.{form_in};
ghost use Rattle.loop_tree.specs.View.{test_of};
ghost use Rattle.loop_tree.specs.Walk.{holds};
ghost use Rattle.tree_simplification.specs.steps.Context.{ArePartsOver, Meets, NaturalAbove, NaturalBetween};
ghost use Rattle.tree_simplification.specs.steps.Context.{NeverHolds, NeverSpeaks};
ghost use Rattle.tree_simplification.specs.steps.Context.{ImpliesPart, form_row, tested};
ghost use Rattle.tree_simplification.specs.steps.ContextView.{context_of};

use crate::context::Context;
use crate::entering::{sided, tested};
use crate::rows::{form_row, part_row};
use affine_forms::{Form, copies, push};
use integer_sets::System;
use loop_tree::{Bound, Test};
use pip_solver::{Stop, is_empty};
use scop_syntax::Aff;
use std::alloc::{AllocError, Global};

/// Whether a system is found to have no point with dimensions from 0 on and parameters in 0..=65536.
fn found_empty(alloc: Global, system: &System, budget: u64) -> Result<bool, AllocError>
    ensures { IfOk result (λ b. b ≡ true → (x p : List ℤ) → IsBoundedPoint system.now x p → ⊥) }
{
    match is_empty(alloc, system, budget) {
        Ok(empty) => Ok(empty),
        Err(Stop::NoMemory) => Err(AllocError),
        Err(_) => Ok(false),
    }
}

/// Whether a form is found to be below 0 wherever the context speaks.
fn never_holds(alloc: Global, context: Context, row: Form, budget: u64) -> Result<bool, AllocError>
    requires { variables_of row ≡ context.loops + context.parameters }
    ensures { IfOk result (λ b. b ≡ true → NeverHolds (context_of context) row) }
{
    if !context.natural {
        return Ok(false);
    }
    let mut rows = context.rows;
    push(&mut rows, row)?;
    let system = System::from_parts(context.loops, context.parameters, Vec::new(alloc), rows);
    found_empty(alloc, &system, budget)
}

/// Whether the context is found to speak of no values.
pub fn never_speaks(alloc: Global, context: &Context, budget: u64) -> Result<bool, AllocError>
    ensures { IfOk result (λ b. b ≡ true → NeverSpeaks (context_of context.now)) }
{
    if !context.natural {
        return Ok(false);
    }
    let rows = copies(alloc, &context.rows)?;
    let system = System::from_parts(context.loops, context.parameters, Vec::new(alloc), rows);
    found_empty(alloc, &system, budget)
}

/// Whether a form or its opposite, less 1, is found to be below 0 wherever the context under tests speaks.
fn never_holds_under(
    alloc: Global,
    context: &Context,
    tests: &[Test],
    form: &Aff,
    turned: bool,
    budget: u64,
) -> Result<bool, AllocError>
    requires tests { All (λ test. variables_of (form_in test) ≡ context.now.loops + context.now.parameters)
        (map test_of tests.now) }
    requires form { variables_of form.now ≡ context.now.loops + context.now.parameters }
    ensures { IfOk result (λ b. b ≡ true
        → NeverHolds (tested (context_of context.now) (map test_of tests.now)) (form_row turned true form.now)) }
{
    let row = form_row(alloc, form, turned, true)?;
    let under = tested(alloc, context, tests)?;
    never_holds(alloc, under, row, budget)
}

/// Whether two answers are yes, of which the second is asked after the first.
fn and_then(first: bool, second: bool) -> bool
    ensures { result ≡ true → (first ≡ true) × (second ≡ true) }
{
    if first { second } else { false }
}

/// Whether a test is found to hold wherever the context under others speaks.
pub fn is_implied_test(
    alloc: Global,
    context: &Context,
    others: &[Test],
    test: &Test,
    budget: u64,
) -> Result<bool, AllocError>
    requires others { All (λ test. variables_of (form_in test) ≡ context.now.loops + context.now.parameters)
        (map test_of others.now) }
    requires test { variables_of (form_in (test_of test.now)) ≡ context.now.loops + context.now.parameters }
    ensures { IfOk result (λ b. b ≡ true → (params outer : List ℤ)
        → Meets (tested (context_of context.now) (map test_of others.now)) params outer
        → holds (test_of test.now) (outer ++ params) ≡ true) }
{
    match test {
        Test::AtLeast(form) => never_holds_under(alloc, context, others, form, true, budget),
        Test::Equal(form) => {
            let up = never_holds_under(alloc, context, others, form, true, budget)?;
            let down = never_holds_under(alloc, context, others, form, false, budget)?;
            Ok(and_then(up, down))
        }
        Test::Multiple(_, _) => Ok(false),
    }
}

/// Whether no number is negative.
fn are_natural(numbers: &[i64]) -> bool
    ensures { result ≡ true → NotNegative numbers.now }
{
    for number in numbers {
        if *number < 0 {
            return false;
        }
    }
    true
}

/// Whether a form has no negative number.
fn is_natural(form: &Aff) -> bool
    ensures { result ≡ true → NotNegative form.now.coefficients × (pos 0 ≤ℤ form.now.constant) }
{
    and_then(are_natural(&form.coefficients), form.constant >= 0)
}

/// Whether a form is found to be at least 0 wherever the context speaks: by its numbers, or by a question.
fn never_falls(
    alloc: Global,
    context: &Context,
    form: &Aff,
    asks: bool,
    budget: u64,
) -> Result<bool, AllocError>
    requires form { variables_of form.now ≡ context.now.loops + context.now.parameters }
    requires natural { context.now.natural ≡ true }
    ensures { IfOk result (λ b. b ≡ true → (params outer : List ℤ) → Meets (context_of context.now) params outer
        → pos 0 ≤ℤ value_of form.now (outer ++ params)) }
{
    if asks {
        never_holds_under(alloc, context, &[], form, true, budget)
    } else {
        Ok(is_natural(form))
    }
}

/// Whether the form of a bound is found so.
fn starts_natural(
    alloc: Global,
    context: &Context,
    part: &Bound,
    asks: bool,
    budget: u64,
) -> Result<bool, AllocError>
    requires form { variables_of part.now.form ≡ context.now.loops + context.now.parameters }
    requires natural { context.now.natural ≡ true }
    ensures { IfOk result (λ b. b ≡ true → (params outer : List ℤ) → Meets (context_of context.now) params outer
        → pos 0 ≤ℤ value_of part.now.form (outer ++ params)) }
{
    never_falls(alloc, context, &part.form, asks, budget)
}

/// Whether one of lower bounds is found so.
fn some_natural(
    alloc: Global,
    context: &Context,
    lows: &[Bound],
    asks: bool,
    budget: u64,
) -> Result<bool, AllocError>
    requires lows { ArePartsOver (context.now.loops + context.now.parameters) lows.now }
    requires natural { context.now.natural ≡ true }
    ensures { IfOk result (λ b. b ≡ true → NaturalAbove (context_of context.now) lows.now) }
{
    for part in lows {
        if starts_natural(alloc, context, part, asks, budget)? {
            return Ok(true);
        }
    }
    Ok(false)
}

/// Whether no value at or above lower bounds is found to be negative.
pub fn are_natural_above(
    alloc: Global,
    context: &Context,
    lows: &[Bound],
    budget: u64,
) -> Result<bool, AllocError>
    requires lows { ArePartsOver (context.now.loops + context.now.parameters) lows.now }
    ensures { IfOk result (λ b. b ≡ true → NaturalAbove (context_of context.now) lows.now) }
{
    if !context.natural {
        return Ok(false);
    }
    if some_natural(alloc, context, lows, false, budget)? {
        return Ok(true);
    }
    some_natural(alloc, context, lows, true, budget)
}

/// Whether no value between the bounds of a loop is found to be negative; the first ones are lower bounds where turned.
fn are_natural_between(
    alloc: Global,
    context: &Context,
    turned: bool,
    parts: &[Bound],
    others: &[Bound],
    budget: u64,
) -> Result<bool, AllocError>
    requires parts { ArePartsOver (context.now.loops + context.now.parameters) parts.now }
    requires others { ArePartsOver (context.now.loops + context.now.parameters) others.now }
    ensures { IfOk result (λ b. b ≡ true → NaturalBetween (context_of context.now) turned parts.now others.now) }
{
    if turned {
        are_natural_above(alloc, context, parts, budget)
    } else {
        are_natural_above(alloc, context, others, budget)
    }
}

/// Whether a part of a loop's bounds is found to be implied by others of its side and those of the other side.
pub fn is_implied_part(
    alloc: Global,
    context: &Context,
    turned: bool,
    parts: &[Bound],
    others: &[Bound],
    part: &Bound,
    budget: u64,
) -> Result<bool, AllocError>
    requires parts { ArePartsOver (context.now.loops + context.now.parameters) parts.now }
    requires others { ArePartsOver (context.now.loops + context.now.parameters) others.now }
    requires part { variables_of part.now.form ≡ context.now.loops + context.now.parameters }
    ensures { IfOk result (λ b. b ≡ true
        → ImpliesPart (context_of context.now) turned parts.now others.now part.now) }
{
    if !are_natural_between(alloc, context, turned, parts, others, budget)? {
        return Ok(false);
    }
    let row = part_row(alloc, part, context.loops, !turned, true)?;
    let within = sided(alloc, context, turned, parts, others, true)?;
    never_holds(alloc, within, row, budget)
}
