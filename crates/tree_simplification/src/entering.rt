//! Contexts within loops and under tests. Promises exactly those of specs/steps/Context.antt.

ghost use Rattle.std.specs.Prelude.{◌≡◌, ◌+◌, All, IfOk, map};
ghost use Rattle.affine_forms.specs.Parts.{variables_of};
ghost use Rattle.loop_tree.specs.View.{test_of};
ghost use Rattle.loop_tree.specs.Fits.{form_in};
ghost use Rattle.tree_simplification.specs.steps.Context.{ArePartsOver, sided, tested};
ghost use Rattle.tree_simplification.specs.steps.ContextView.{context_of};

use crate::context::Context;
use crate::rows::{push_parts, push_tests, widen_all};
use affine_forms::copies;
use loop_tree::{Bound, Test};
use std::alloc::{AllocError, Global};

/// The context within a loop of which parts of bounds of one side are known and others of the other one.
pub fn sided(
    alloc: Global,
    context: &Context,
    turned: bool,
    parts: &[Bound],
    others: &[Bound],
    natural: bool,
) -> Result<Context, AllocError>
    requires parts { ArePartsOver (context.now.loops + context.now.parameters) parts.now }
    requires others { ArePartsOver (context.now.loops + context.now.parameters) others.now }
    ensures { IfOk result (λ c. context_of c ≡ sided (context_of context.now) turned parts.now others.now natural) }
{
    let Some(loops) = context.loops.checked_add(1) else {
        return Err(AllocError);
    };
    let mut rows = widen_all(alloc, &context.rows, context.loops)?;
    push_parts(alloc, &mut rows, parts, context.loops, turned)?;
    push_parts(alloc, &mut rows, others, context.loops, !turned)?;
    Ok(Context {
        loops,
        parameters: context.parameters,
        natural,
        rows,
    })
}

/// The context under tests.
pub fn tested(alloc: Global, context: &Context, tests: &[Test]) -> Result<Context, AllocError>
    requires { All (λ test. variables_of (form_in test) ≡ context.now.loops + context.now.parameters)
        (map test_of tests.now) }
    ensures { IfOk result (λ c. context_of c ≡ tested (context_of context.now) (map test_of tests.now)) }
{
    let mut rows = copies(alloc, &context.rows)?;
    push_tests(alloc, &mut rows, tests)?;
    Ok(Context {
        loops: context.loops,
        parameters: context.parameters,
        natural: context.natural,
        rows,
    })
}
