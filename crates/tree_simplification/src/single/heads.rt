//! Bounds, tests and turns of nodes, as forms over the new loops and the parameters.
ghost use Rattle.std.specs.Prelude.{◌≡◌, ◌*ℤ◌, ◌≤◌, ◌≤ℤ◌, ◌^◌, All, IfOk, OnOk, ℤ, List, false, length, map, pos, true};
ghost use Rattle.std.specs.Prelude.{unsigned_abs};
ghost use Rattle.std.specs.Int.Signed.{le_z};
ghost use Rattle.whole_numbers.specs.Affine.{composed};
ghost use Rattle.whole_numbers.specs.Floor.{floor};
ghost use Rattle.loop_tree.specs.Fits.{AreZeros, form_in};
ghost use Rattle.loop_tree.specs.Shape.{BoundsAreOver, BoundsAreUpTo, IsOver, IsOverUpTo, IsUpTo, TestIsUpTo};
ghost use Rattle.loop_tree.specs.View.{bounds_in, test_of};
ghost use Rattle.loop_tree.specs.Walk.{holds};
ghost use Rattle.tree_simplification.specs.steps.Inlined.{AreTestsFor, AreWith, bound_over, bounds_over};
ghost use Rattle.tree_simplification.specs.steps.Inlined.{test_over};
ghost use Rattle.tree_simplification.specs.steps.Strided.{AreEnds, CanBound};

use crate::single::numbers::{Stop, composed, composition};
use crate::single::rounding::{rounded, rounded_at_least, rounded_equal};
use affine_forms::{Form, push};
use loop_tree::{Bound, Bounds, Leaf, Test};
use scop_syntax::Aff;
use std::alloc::Global;
use wide_math::remainder;

/// A bound.
fn bound_at(
    alloc: Global,
    bound: &Bound,
    forms: &[Form],
    variables: usize,
    up: bool,
) -> Result<Bound, Stop>
    requires count { IsOver (length forms.now) bound.now.form }
    requires divisor { unsigned_abs bound.now.divisor ≤ 2 ^ 40 }
    requires sized { All (IsOver variables) forms.now }
    ensures bound { IfOk result (λ b. b ≡ bound_over up variables forms.now bound.now) }
    ensures small { IfOk result (λ b. IsOverUpTo (2 ^ 45) b.form b.divisor) }
{
    let form = composed(alloc, &bound.form, forms, variables)?;
    rounded(alloc, &form, bound.divisor, up)
}

/// Bounds, one after another.
fn all_bounds(
    alloc: Global,
    bounds: &[Bound],
    forms: &[Form],
    variables: usize,
    up: bool,
) -> Result<Vec<Bound>, Stop>
    requires count { All (λ b. IsOver (length forms.now) b.form) bounds.now }
    requires divisors { All (λ b. unsigned_abs b.divisor ≤ 2 ^ 40) bounds.now }
    requires sized { All (IsOver variables) forms.now }
    ensures bounds { IfOk result (λ bs. bs.items ≡ map (bound_over up variables forms.now) bounds.now) }
    ensures small { IfOk result (λ bs. All (λ b. IsOverUpTo (2 ^ 45) b.form b.divisor) bs.items) }
{
    let mut all = Vec::new(alloc);
    for bound in bounds {
        push(&mut all, bound_at(alloc, bound, forms, variables, up)?)?;
    }
    Ok(all)
}

/// The bounds of a loop from one side, the lower one (`up`) or the upper one.
pub fn bounds_at(
    alloc: Global,
    bounds: &Bounds,
    forms: &[Form],
    variables: usize,
    up: bool,
) -> Result<Bounds, Stop>
    requires count { BoundsAreOver (length forms.now) (bounds_in bounds.now) }
    requires numbers { BoundsAreUpTo (2 ^ 40) (bounds_in bounds.now) }
    requires sized { All (IsOver variables) forms.now }
    ensures bounds { IfOk result (λ bs. bounds_in bs ≡ bounds_over up variables forms.now (bounds_in bounds.now)) }
    ensures small { IfOk result (λ bs. BoundsAreUpTo (2 ^ 45) (bounds_in bs)) }
{
    let first = bound_at(alloc, &bounds.first, forms, variables, up)?;
    let others = all_bounds(alloc, bounds.others.as_slice(), forms, variables, up)?;
    Ok(Bounds { first, others })
}

/// The bounds of a loop from both sides.
#[derive(Drop)]
pub struct Ends {
    pub lower: Bounds,
    pub upper: Bounds,
}

/// The bounds of a loop over other variables.
pub fn ends_at(
    alloc: Global,
    lower: &Bounds,
    upper: &Bounds,
    forms: &[Form],
    variables: usize,
) -> Result<Ends, Stop>
    requires { CanBound variables forms.now (bounds_in lower.now) (bounds_in upper.now) }
    ensures { IfOk result (λ e. AreEnds variables forms.now (bounds_in lower.now) (bounds_in upper.now)
        (bounds_in e.lower) (bounds_in e.upper)) }
{
    let lower = bounds_at(alloc, lower, forms, variables, true)?;
    let upper = bounds_at(alloc, upper, forms, variables, false)?;
    Ok(Ends { lower, upper })
}

/// A test.
fn test_at(alloc: Global, test: &Test, forms: &[Form], variables: usize) -> Result<Test, Stop>
    requires count { IsOver (length forms.now) (form_in (test_of test.now)) }
    requires numbers { TestIsUpTo (2 ^ 40) (test_of test.now) }
    requires sized { All (IsOver variables) forms.now }
    ensures test { IfOk result (λ t. test_of t ≡ test_over variables forms.now (test_of test.now)) }
    ensures small { IfOk result (λ t. TestIsUpTo (2 ^ 45) (test_of t)) }
{
    match test {
        Test::AtLeast(form) => {
            let form = composed(alloc, form, forms, variables)?;
            rounded_at_least(alloc, &form)
        }
        Test::Equal(form) => {
            let form = composed(alloc, form, forms, variables)?;
            rounded_equal(alloc, &form)
        }
        Test::Multiple(form, divisor) => {
            let form = composition(alloc, form, forms, variables)?;
            Ok(Test::Multiple(form, *divisor))
        }
    }
}

/// Whether all numbers are 0.
fn are_zeros(numbers: &[i64]) -> bool
    ensures { result ≡ true → AreZeros numbers.now }
{
    numbers.iter().all(|number| *number == 0)
}

/// Whether a form is a number.
fn is_number(form: &Aff) -> bool
    ensures { result ≡ true → AreZeros form.now.coefficients }
{
    are_zeros(form.coefficients.as_slice())
}

/// Whether a form's constant is not negative.
fn constant_is_up(form: &Aff) -> bool
    ensures { result ≡ true → pos 0 ≤ℤ form.now.constant }
{
    form.constant >= 0
}

/// Whether a form's constant is 0.
fn constant_is_zero(form: &Aff) -> bool
    ensures { result ≡ true → form.now.constant ≡ pos 0 }
{
    form.constant == 0
}

/// Whether a number is a multiple of another.
pub fn is_multiple(number: i128, of: i128) -> bool
    requires { pos 1 ≤ℤ of }
    ensures { result ≡ le_z number (floor number of *ℤ of) }
{
    remainder(number, of) == 0
}

/// Whether a form's constant is a multiple of a number that is at least 1.
fn constant_is_multiple(form: &Aff, of: i64) -> bool
    ensures { result ≡ true → le_z form.now.constant (floor form.now.constant of *ℤ of) ≡ true }
{
    if of < 1 {
        return false;
    }
    is_multiple(form.constant as i128, of as i128)
}

/// Whether a test is seen to hold everywhere: its form is a number that passes.
fn always_holds(test: &Test) -> bool
    ensures { result ≡ true → (point : List ℤ) → holds (test_of test.now) point ≡ true }
{
    match test {
        Test::AtLeast(form) => {
            if !constant_is_up(form) {
                return false;
            }
            is_number(form)
        }
        Test::Equal(form) => {
            if !constant_is_zero(form) {
                return false;
            }
            is_number(form)
        }
        Test::Multiple(form, divisor) => {
            if !constant_is_multiple(form, *divisor) {
                return false;
            }
            is_number(form)
        }
    }
}

/// Appends a test, but for one that holds everywhere.
pub fn push_test(tests: &mut Vec<Test>, test: Test) -> Result<(), Stop>
    ensures { OnOk result (AreWith tests.old.items test tests.new.items) }
{
    if always_holds(&test) {
        return Ok(());
    }
    push(tests, test)?;
    Ok(())
}

/// The tests of a guard, but for those that hold everywhere.
pub fn tests_at(
    alloc: Global,
    tests: &[Test],
    forms: &[Form],
    variables: usize,
) -> Result<Vec<Test>, Stop>
    requires count { All (λ test. IsOver (length forms.now) (form_in test)) (map test_of tests.now) }
    requires numbers { All (TestIsUpTo (2 ^ 40)) (map test_of tests.now) }
    requires sized { All (IsOver variables) forms.now }
    ensures { IfOk result (λ ts. AreTestsFor variables forms.now (map test_of tests.now) (map test_of ts.items)) }
{
    let mut all = Vec::new(alloc);
    for test in tests {
        let test = test_at(alloc, test, forms, variables)?;
        push_test(&mut all, test)?;
    }
    Ok(all)
}

/// Forms, one after another.
fn all_forms(alloc: Global, old: &[Aff], forms: &[Form], variables: usize) -> Result<Vec<Aff>, Stop>
    requires count { All (IsOver (length forms.now)) old.now }
    requires sized { All (IsOver variables) forms.now }
    ensures forms { IfOk result (λ fs. fs.items ≡ map (λ f. composed f forms.now variables) old.now) }
    ensures small { IfOk result (λ fs. All (IsUpTo (2 ^ 45)) fs.items) }
{
    let mut all = Vec::new(alloc);
    for form in old {
        push(&mut all, composition(alloc, form, forms, variables)?)?;
    }
    Ok(all)
}

/// An instance.
pub fn leaf_at(alloc: Global, leaf: &Leaf, forms: &[Form], variables: usize) -> Result<Leaf, Stop>
    requires count { All (IsOver (length forms.now)) leaf.now.turns.items }
    requires sized { All (IsOver variables) forms.now }
    ensures statement { IfOk result (λ l. l.statement ≡ leaf.now.statement) }
    ensures turns { IfOk result (λ l. l.turns.items ≡ map (λ f. composed f forms.now variables) leaf.now.turns.items) }
    ensures small { IfOk result (λ l. All (IsUpTo (2 ^ 45)) l.turns.items) }
{
    let turns = all_forms(alloc, leaf.turns.as_slice(), forms, variables)?;
    Ok(Leaf {
        statement: leaf.statement,
        turns,
    })
}
