//! Parts of bounds and tests that are implied where they stand are left out, from the first on, each asked against
//! those that are left.

ghost use Rattle.std.specs.Prelude.{◌≡◌, ◌+◌, ◌<◌, ◌≤◌, All, IfOk, OnOk, length, drop, map, true};
ghost use Rattle.affine_forms.specs.Parts.{variables_of};
ghost use Rattle.loop_tree.specs.Fits.{form_in};
ghost use Rattle.loop_tree.specs.View.{test_of};
ghost use Rattle.tree_simplification.specs.steps.Context.{ArePartsOver, TrimsSide};
ghost use Rattle.tree_simplification.specs.steps.Trimmed.{TrimsTests};
ghost use Rattle.tree_simplification.specs.steps.ContextView.{context_of};

use crate::asking::{is_implied_part, is_implied_test};
use crate::context::Context;
use affine_forms::push;
use loop_tree::{Bound, Test};
use std::alloc::{AllocError, Global};

/// Whether the first part is found to be implied by the others, of which there is one at least, and the other side's.
fn first_part_goes(
    alloc: Global,
    context: &Context,
    turned: bool,
    left: &[Bound],
    others: &[Bound],
    budget: u64,
) -> Result<bool, AllocError>
    requires left { ArePartsOver (context.now.loops + context.now.parameters) left.now }
    requires others { ArePartsOver (context.now.loops + context.now.parameters) others.now }
    ensures { IfOk result (λ b. b ≡ true
        → TrimsSide (context_of context.now) turned left.now others.now (drop 1 left.now)) }
{
    match left.split_first() {
        None => Ok(false),
        Some((part, rest)) => {
            if rest.is_empty() {
                Ok(false)
            } else {
                is_implied_part(alloc, context, turned, rest, others, part, budget)
            }
        }
    }
}

/// Takes the first part off, and puts it behind the others unless they imply it.
fn turn_part(
    alloc: Global,
    context: &Context,
    turned: bool,
    left: &mut Vec<Bound>,
    others: &[Bound],
    budget: u64,
) -> Result<(), AllocError>
    requires some { 0 < length left.old.items }
    requires left { ArePartsOver (context.now.loops + context.now.parameters) left.old.items }
    requires others { ArePartsOver (context.now.loops + context.now.parameters) others.now }
    ensures { OnOk result (TrimsSide (context_of context.now) turned left.old.items others.now left.new.items) }
{
    let goes = first_part_goes(alloc, context, turned, left, others, budget)?;
    let part = left.remove(0);
    if goes { Ok(()) } else { push(left, part) }
}

/// Leaves out what is implied of a loop's bounds of one side.
pub fn trim_parts(
    alloc: Global,
    context: &Context,
    turned: bool,
    left: &mut Vec<Bound>,
    others: &[Bound],
    budget: u64,
) -> Result<(), AllocError>
    requires some { 0 < length left.old.items }
    requires left { ArePartsOver (context.now.loops + context.now.parameters) left.old.items }
    requires others { ArePartsOver (context.now.loops + context.now.parameters) others.now }
    ensures { OnOk result (TrimsSide (context_of context.now) turned left.old.items others.now left.new.items) }
{
    let count = left.len();
    for _ in 0..count {
        turn_part(alloc, context, turned, left, others, budget)?;
    }
    Ok(())
}

/// Whether the first test is found to be implied by the others.
fn first_test_goes(
    alloc: Global,
    context: &Context,
    left: &[Test],
    budget: u64,
) -> Result<bool, AllocError>
    requires over { All (λ test. variables_of (form_in test) ≡ context.now.loops + context.now.parameters)
        (map test_of left.now) }
    ensures { IfOk result (λ b. b ≡ true
        → TrimsTests (context_of context.now) (map test_of left.now) (map test_of (drop 1 left.now))) }
{
    match left.split_first() {
        None => Ok(false),
        Some((test, rest)) => is_implied_test(alloc, context, rest, test, budget),
    }
}

/// Takes the first test off, and puts it behind the others unless they imply it.
fn turn_test(
    alloc: Global,
    context: &Context,
    left: &mut Vec<Test>,
    budget: u64,
) -> Result<(), AllocError>
    requires some { 0 < length left.old.items }
    requires over { All (λ test. variables_of (form_in test) ≡ context.now.loops + context.now.parameters)
        (map test_of left.old.items) }
    ensures tests { OnOk result
        (TrimsTests (context_of context.now) (map test_of left.old.items) (map test_of left.new.items)) }
    ensures count { OnOk result (length left.old.items ≤ length left.new.items + 1) }
{
    let goes = first_test_goes(alloc, context, left, budget)?;
    let test = left.remove(0);
    if goes {
        drop(test);
        Ok(())
    } else {
        push(left, test)
    }
}

/// Leaves out the tests that are implied.
pub fn trim_tests(
    alloc: Global,
    context: &Context,
    left: &mut Vec<Test>,
    budget: u64,
) -> Result<(), AllocError>
    requires over { All (λ test. variables_of (form_in test) ≡ context.now.loops + context.now.parameters)
        (map test_of left.old.items) }
    ensures { OnOk result
        (TrimsTests (context_of context.now) (map test_of left.old.items) (map test_of left.new.items)) }
{
    let count = left.len();
    for _ in 0..count {
        turn_test(alloc, context, left, budget)?;
    }
    Ok(())
}
