//! Copies of the parts of a tree.

ghost use Rattle.std.specs.Prelude.{◌≡◌, ◌∷◌, IfOk, map};
ghost use Rattle.loop_tree.specs.View.{bounds_in, test_of};
ghost use Rattle.tree_simplification.specs.steps.Context.{parts};

use affine_forms::push;
use loop_tree::{Bound, Bounds, Leaf, Test};
use scop_syntax::Aff;
use std::alloc::{AllocError, Global};

/// The same form again.
fn copied_form(alloc: Global, form: &Aff) -> Result<Aff, AllocError>
    ensures { IfOk result (λ f. f ≡ form.now) }
{
    Ok(Aff {
        coefficients: Vec::from_slice(alloc, &form.coefficients)?,
        constant: form.constant,
    })
}

/// The same forms again.
fn copied_forms(alloc: Global, forms: &[Aff]) -> Result<Vec<Aff>, AllocError>
    ensures { IfOk result (λ v. v.items ≡ forms.now) }
{
    let mut out = Vec::new(alloc);
    for form in forms {
        push(&mut out, copied_form(alloc, form)?)?;
    }
    Ok(out)
}

/// The same part of bounds again.
fn copied_part(alloc: Global, part: &Bound) -> Result<Bound, AllocError>
    ensures { IfOk result (λ b. b ≡ part.now) }
{
    let form = copied_form(alloc, &part.form)?;
    Ok(Bound {
        form,
        divisor: part.divisor,
    })
}

/// Copies of a part and of those behind it.
fn copied_behind(alloc: Global, first: &Bound, others: &[Bound]) -> Result<Vec<Bound>, AllocError>
    ensures { IfOk result (λ v. v.items ≡ first.now ∷ others.now) }
{
    let mut out = Vec::new(alloc);
    push(&mut out, copied_part(alloc, first)?)?;
    for part in others {
        push(&mut out, copied_part(alloc, part)?)?;
    }
    Ok(out)
}

/// The parts of bounds.
pub fn copied_parts(alloc: Global, bounds: &Bounds) -> Result<Vec<Bound>, AllocError>
    ensures { IfOk result (λ v. v.items ≡ parts (bounds_in bounds.now)) }
{
    copied_behind(alloc, &bounds.first, &bounds.others)
}

/// The same test again.
fn copied_test(alloc: Global, test: &Test) -> Result<Test, AllocError>
    ensures { IfOk result (λ t. test_of t ≡ test_of test.now) }
{
    match test {
        Test::AtLeast(form) => Ok(Test::AtLeast(copied_form(alloc, form)?)),
        Test::Equal(form) => Ok(Test::Equal(copied_form(alloc, form)?)),
        Test::Multiple(form, divisor) => Ok(Test::Multiple(copied_form(alloc, form)?, *divisor)),
    }
}

/// The same tests again.
pub fn copied_tests(alloc: Global, tests: &[Test]) -> Result<Vec<Test>, AllocError>
    ensures { IfOk result (λ v. map test_of v.items ≡ map test_of tests.now) }
{
    let mut out = Vec::new(alloc);
    for test in tests {
        push(&mut out, copied_test(alloc, test)?)?;
    }
    Ok(out)
}

/// The same instance again.
pub fn copied_leaf(alloc: Global, leaf: &Leaf) -> Result<Leaf, AllocError>
    ensures { IfOk result (λ l. (l.statement ≡ leaf.now.statement) × (l.turns.items ≡ leaf.now.turns.items)) }
{
    let turns = copied_forms(alloc, &leaf.turns)?;
    Ok(Leaf {
        statement: leaf.statement,
        turns,
    })
}
