//! A loop whose turns are taken so many at once: one over blocks of values, and in it the body for each value.
ghost use Rattle.std.specs.Prelude.{◌≡◌, ◌+◌, ◌-◌, ◌*ℤ◌, ◌-ℤ◌, ◌<◌, ◌≤◌, ◌^◌, ◌++◌, All, IfOk, IfSome};
ghost use Rattle.std.specs.Prelude.{false, map, pos, true, unsigned_abs};
ghost use Rattle.affine_forms.specs.Parts.{variables_of};
ghost use Rattle.loop_tree.specs.Shape.{BoundsAreOver, BoundsAreUpTo, IsOverUpTo};
ghost use Rattle.loop_tree.specs.View.{bounds_in, test_of};
ghost use Rattle.tree_simplification.specs.steps.Context.{parts};
ghost use Rattle.tree_simplification.specs.steps.Inlined.{AreTestsOf, side_tests};
ghost use Rattle.tree_simplification.specs.steps.Strided.{AreEnds, AreTestsAt, CanBound, block, blocks, turn_form};

use crate::copies::copied_parts;
use crate::single::heads::{Ends, ends_at};
use crate::single::numbers::Stop;
use crate::single::once::{Once, side_tests};
use crate::single::place::Place;
use affine_forms::{Form, push};
use iteration_domains::term_form;
use loop_tree::{Bound, Bounds, Loop};
use scop_syntax::Aff;
use std::alloc::{AllocError, Global};

/// The greatest number of a tree that is simplified.
const MOST: u128 = 1_099_511_627_776;

/// A number, if it lies within 2^40.
fn small_number(number: i128) -> Option<i64>
    ensures { IfSome result (λ x. (x ≡ number) × (unsigned_abs x ≤ 2 ^ 40)) }
{
    if number.unsigned_abs() <= MOST {
        Some(number as i64)
    } else {
        None
    }
}

/// So, or it is too large.
fn small(number: i128) -> Result<i64, Stop>
    ensures { IfOk result (λ x. (x ≡ number) × (unsigned_abs x ≤ 2 ^ 40)) }
{
    match small_number(number) {
        None => Err(Stop::Large),
        Some(number) => Ok(number),
    }
}

/// A number so many times.
fn times(number: i64, by: usize) -> i128
    requires few { by ≤ 4 }
    requires small { unsigned_abs number ≤ 2 ^ 40 }
    ensures value { result ≡ number *ℤ pos by }
    ensures small { unsigned_abs result ≤ 2 ^ 42 }
{
    number as i128 * by as i128
}

/// A number less another.
fn less(number: i64, other: i128) -> Result<i64, Stop>
    requires { unsigned_abs other ≤ 2 ^ 42 }
    ensures { IfOk result (λ x. (x ≡ number -ℤ other) × (unsigned_abs x ≤ 2 ^ 40)) }
{
    small(number as i128 - other)
}

/// A part of a loop's bounds as one of the loop over blocks of so many values, of which the one at a place counts.
fn block_part(alloc: Global, part: &Bound, by: usize, at: usize) -> Result<Bound, Stop>
    requires few { by ≤ 4 }
    requires within { at ≤ 4 }
    requires small { IsOverUpTo (2 ^ 40) part.now.form part.now.divisor }
    ensures part { IfOk result (λ b. b ≡ block by at part.now) }
    ensures small { IfOk result (λ b. IsOverUpTo (2 ^ 40) b.form b.divisor) }
{
    let coefficients = Vec::from_slice(alloc, part.form.coefficients.as_slice())?;
    let constant = less(part.form.constant, times(part.divisor, at))?;
    let divisor = small(times(part.divisor, by))?;
    let form = Aff {
        coefficients,
        constant,
    };
    Ok(Bound { form, divisor })
}

/// Parts, one after another.
fn block_parts(alloc: Global, parts: &[Bound], by: usize, at: usize) -> Result<Vec<Bound>, Stop>
    requires few { by ≤ 4 }
    requires within { at ≤ 4 }
    requires small { All (λ b. IsOverUpTo (2 ^ 40) b.form b.divisor) parts.now }
    ensures parts { IfOk result (λ bs. bs.items ≡ map (block by at) parts.now) }
    ensures small { IfOk result (λ bs. All (λ b. IsOverUpTo (2 ^ 40) b.form b.divisor) bs.items) }
{
    let mut all = Vec::new(alloc);
    for part in parts {
        push(&mut all, block_part(alloc, part, by, at)?)?;
    }
    Ok(all)
}

/// The bounds of a loop over blocks of so many values, whose value at a place lies within these.
pub fn blocks(alloc: Global, bounds: &Bounds, by: usize, at: usize) -> Result<Bounds, Stop>
    requires few { by ≤ 4 }
    requires within { at ≤ 4 }
    requires small { BoundsAreUpTo (2 ^ 40) (bounds_in bounds.now) }
    ensures bounds { IfOk result (λ bs. bounds_in bs ≡ blocks by at (bounds_in bounds.now)) }
    ensures small { IfOk result (λ bs. BoundsAreUpTo (2 ^ 40) (bounds_in bs)) }
{
    let first = block_part(alloc, &bounds.first, by, at)?;
    let others = block_parts(alloc, bounds.others.as_slice(), by, at)?;
    Ok(Bounds { first, others })
}

/// The value at a place of a block of so many, whose number is a variable.
fn turn_form(
    alloc: Global,
    variables: usize,
    variable: usize,
    turns: usize,
    at: usize,
) -> Result<Form, AllocError>
    requires { variable < variables }
    ensures { IfOk result (λ f. f ≡ turn_form variables variable turns at) }
{
    term_form(alloc, variables, variable, turns as i128, at as i128)
}

/// The tests whether a form lies between bounds.
fn tests_between(alloc: Global, form: Form, lower: &Bounds, upper: &Bounds) -> Result<Once, Stop>
    requires low { BoundsAreOver (variables_of form) (bounds_in lower.now) }
    requires high { BoundsAreOver (variables_of form) (bounds_in upper.now) }
    ensures { IfOk result (λ o. (o.form ≡ form) × AreTestsOf (variables_of form)
        (side_tests true form (parts (bounds_in lower.now)) ++ side_tests false form (parts (bounds_in upper.now)))
        (map test_of o.tests.items)) }
{
    let lows = copied_parts(alloc, lower)?;
    let ups = copied_parts(alloc, upper)?;
    let tests = side_tests(alloc, &form, &lows, &ups)?;
    Ok(Once { form, tests })
}

/// The value at a place of a block of so many, at a place whose last loop is over blocks, and the tests whether it lies
/// within a loop's bounds.
pub fn turn_at(
    alloc: Global,
    head: &Loop,
    turns: usize,
    at: usize,
    place: &Place,
) -> Result<Once, Stop>
    requires inner { 1 ≤ place.now.kept }
    requires few { place.now.kept + place.now.parameters ≤ 2 ^ 34 }
    requires can { CanBound (place.now.kept + place.now.parameters) place.now.forms.items (bounds_in head.now.lower)
        (bounds_in head.now.upper) }
    ensures { IfOk result (λ o.
        (o.form ≡ turn_form (place.now.kept + place.now.parameters) (place.now.kept - 1) turns at)
        × AreTestsAt (place.now.kept + place.now.parameters) place.now.forms.items (bounds_in head.now.lower)
        (bounds_in head.now.upper) o.form (map test_of o.tests.items)) }
{
    let variables = place.kept + place.parameters;
    let ends = ends_at(
        alloc,
        &head.lower,
        &head.upper,
        place.forms.as_slice(),
        variables,
    )?;
    let form = turn_form(alloc, variables, place.kept - 1, turns, at)?;
    tests_between(alloc, form, &ends.lower, &ends.upper)
}

/// The loop over blocks of so many values of a loop.
pub fn block_at(alloc: Global, head: &Loop, turns: usize, place: &Place) -> Result<Ends, Stop>
    requires some { 1 ≤ turns }
    requires small { turns ≤ 4 }
    requires few { place.now.kept + place.now.parameters ≤ 2 ^ 34 }
    requires can { CanBound (place.now.kept + place.now.parameters) place.now.forms.items (bounds_in head.now.lower)
        (bounds_in head.now.upper) }
    ensures { IfOk result (λ e. AreEnds (place.now.kept + place.now.parameters) place.now.forms.items
        (blocks turns (turns - 1) (bounds_in head.now.lower)) (blocks turns 0 (bounds_in head.now.upper))
        (bounds_in e.lower) (bounds_in e.upper)) }
{
    let low = blocks(alloc, &head.lower, turns, turns - 1)?;
    let high = blocks(alloc, &head.upper, turns, 0)?;
    ends_at(
        alloc,
        &low,
        &high,
        place.forms.as_slice(),
        place.kept + place.parameters,
    )
}
