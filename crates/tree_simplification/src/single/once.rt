//! Loops that run at most once: a form bounds them from both sides. The form stands for the loop's value where it lies
//! between the other bounds, and that is what is tested.
ghost use Rattle.std.specs.Prelude.{◌≡◌, ◌++◌, All, IfOk, IfSome, OnOk, List, false, map, true};
ghost use Rattle.affine_forms.specs.Parts.{variables_of};
ghost use Rattle.scop_syntax.specs.Members.{In};
ghost use Rattle.loop_tree.specs.Shape.{BoundsAreOver, IsOver};
ghost use Rattle.loop_tree.specs.Tree.{Test as PlainTest};
ghost use Rattle.loop_tree.specs.View.{bounds_in, test_of};
ghost use Rattle.tree_simplification.specs.steps.Inlined.{AreTestsOf, IsOnce, IsOnceIn, side_form, side_tests, whole};

use crate::copies::copied_parts;
use crate::rows::signed;
use crate::single::heads::push_test;
use crate::single::numbers::Stop;
use crate::single::rounding::rounded_at_least;
use affine_forms::{Form, FormStop};
use iteration_domains::wide_form;
use loop_tree::{Bound, Bounds, Test};
use scop_syntax::Aff;
use std::alloc::{AllocError, Global};

/// Whether two lists have the same numbers.
fn same_numbers(xs: &[i64], ys: &[i64]) -> bool
    ensures { result ≡ true → xs.now ≡ ys.now }
{
    xs == ys
}

/// Whether two forms are one.
fn same_form(a: &Aff, b: &Aff) -> bool
    ensures { result ≡ true → a.now ≡ b.now }
{
    if a.constant != b.constant {
        return false;
    }
    same_numbers(a.coefficients.as_slice(), b.coefficients.as_slice())
}

/// Whether two parts of bounds are one.
pub fn same_part(a: &Bound, b: &Bound) -> bool
    ensures { result ≡ true → a.now ≡ b.now }
{
    if a.divisor != b.divisor {
        return false;
    }
    same_form(&a.form, &b.form)
}

/// Whether a part of bounds is one of these.
pub fn is_among(part: &Bound, parts: &[Bound]) -> bool
    ensures { result ≡ true → In part.now parts.now }
{
    for other in parts {
        if same_part(part, other) {
            return true;
        }
    }
    false
}

/// Whether a part of bounds is a form, and one of these.
fn is_shared(part: &Bound, parts: &[Bound]) -> bool
    ensures { result ≡ true → (part.now ≡ whole part.now.form) × In part.now parts.now }
{
    if part.divisor != 1 {
        return false;
    }
    is_among(part, parts)
}

/// A form that bounds a loop from both sides.
pub fn shared_form(alloc: Global, lows: &[Bound], ups: &[Bound]) -> Result<Option<Form>, AllocError>
    ensures { IfOk result (λ r. IfSome r (λ f. In (whole f) lows.now × In (whole f) ups.now)) }
{
    for part in lows {
        if is_shared(part, ups) {
            return Ok(Some(wide_form(alloc, &part.form)?));
        }
    }
    Ok(None)
}

/// What is at least 0 where the form is at least a lower bound (`turned`), or at most an upper one.
fn side_form(alloc: Global, form: &Form, part: &Bound, turned: bool) -> Result<Form, Stop>
    requires { variables_of form.now ≡ variables_of part.now.form }
    ensures { IfOk result (λ f. f ≡ side_form turned form.now part.now) }
{
    let own = wide_form(alloc, &part.form)?;
    match own.sum_of_multiples(signed(1, turned), signed(part.divisor, !turned), form) {
        Ok(side) => Ok(side),
        Err(FormStop::Wide(_)) => Err(Stop::Large),
        Err(FormStop::NoMemory) => Err(Stop::NoMemory),
    }
}

/// Appends the tests that the form is at least lower bounds (`turned`), or at most upper ones.
pub fn push_side(
    alloc: Global,
    tests: &mut Vec<Test>,
    form: &Form,
    parts: &[Bound],
    turned: bool,
) -> Result<(), Stop>
    requires { All (λ b. IsOver (variables_of form.now) b.form) parts.now }
    ensures { OnOk result ((old : List PlainTest) → AreTestsOf (variables_of form.now) old (map test_of tests.old.items)
        → AreTestsOf (variables_of form.now) (old ++ side_tests turned form.now parts.now)
        (map test_of tests.new.items)) }
{
    for part in parts {
        let side = side_form(alloc, form, part, turned)?;
        push_test(tests, rounded_at_least(alloc, &side)?)?;
    }
    Ok(())
}

/// The form of a loop that runs at most once, and the tests whether it does.
#[derive(Drop)]
pub struct Once {
    pub form: Form,
    pub tests: Vec<Test>,
}

/// The tests whether a form lies between bounds.
pub fn side_tests(
    alloc: Global,
    form: &Form,
    lows: &[Bound],
    ups: &[Bound],
) -> Result<Vec<Test>, Stop>
    requires lows { All (λ b. IsOver (variables_of form.now) b.form) lows.now }
    requires ups { All (λ b. IsOver (variables_of form.now) b.form) ups.now }
    ensures { IfOk result (λ ts. AreTestsOf (variables_of form.now)
        (side_tests true form.now lows.now ++ side_tests false form.now ups.now) (map test_of ts.items)) }
{
    let mut tests = Vec::new(alloc);
    push_side(alloc, &mut tests, form, lows, true)?;
    push_side(alloc, &mut tests, form, ups, false)?;
    Ok(tests)
}

/// The form under its tests; nothing where there are tests, and the loop rather stays.
fn once_under(form: Form, tests: Vec<Test>, stays: bool) -> Option<Once>
    ensures { IfSome result (λ o. (o.form ≡ form) × (o.tests.items ≡ tests.items)) }
{
    if stays && !tests.is_empty() {
        return None;
    }
    Some(Once { form, tests })
}

/// What is known of a loop between these parts that runs at most once, if it is found to.
fn once_between(
    alloc: Global,
    lows: &[Bound],
    ups: &[Bound],
    variables: usize,
    stays: bool,
) -> Result<Option<Once>, Stop>
    requires lows { All (λ b. IsOver variables b.form) lows.now }
    requires ups { All (λ b. IsOver variables b.form) ups.now }
    ensures { IfOk result (λ r. IfSome r (λ o. IsOnceIn variables o.form lows.now ups.now
        (map test_of o.tests.items))) }
{
    match shared_form(alloc, lows, ups)? {
        None => Ok(None),
        Some(form) => {
            let tests = side_tests(alloc, &form, lows, ups)?;
            Ok(once_under(form, tests, stays))
        }
    }
}

/// What is known of a loop with these bounds, which is parallel or not, if it is not, and is found to run at most once.
/// Nothing where it stays a loop rather than go under a test.
pub fn once_at(
    alloc: Global,
    parallel: bool,
    stays: bool,
    lower: &Bounds,
    upper: &Bounds,
    variables: usize,
) -> Result<Option<Once>, Stop>
    requires lower { BoundsAreOver variables (bounds_in lower.now) }
    requires upper { BoundsAreOver variables (bounds_in upper.now) }
    ensures { IfOk result (λ r. IfSome r (λ o. (parallel ≡ false)
        × IsOnce variables o.form (bounds_in lower.now) (bounds_in upper.now) (map test_of o.tests.items))) }
{
    if parallel {
        return Ok(None);
    }
    let lows = copied_parts(alloc, lower)?;
    let ups = copied_parts(alloc, upper)?;
    once_between(alloc, &lows, &ups, variables, stays)
}
