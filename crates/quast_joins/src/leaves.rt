//! Where two leaves of a join meet: the tests over their common loops, from the outermost, and the leaf at their end.
ghost use Rattle.std.specs.Prelude.{◌≡◌, ◌≤◌, ◌∷◌, OnOk, drop, length};
ghost use Rattle.affine_forms.specs.Parts.{variables_of};
ghost use Rattle.quast_trees.specs.Source.{source_held};
ghost use Rattle.quast_trees.specs.Tree as Tree;
ghost use Rattle.quast_trees.specs.Tree.{leaf};
ghost use Rattle.quast_trees.specs.Postfix.{branched, standing};
ghost use Rattle.quast_trees.specs.declared.node.Node.TheVariants as Node;
ghost use Rattle.quast_joins.specs.Ways.{loops_of, statement_of, text};
ghost use Rattle.quast_joins.specs.Joins.{chain, last_leaf, meet, test_of};
ghost use Rattle.quast_joins.specs.Counts.{tested};
ghost use Rattle.quast_joins.specs.Limits.{leaf_limit};
ghost use Rattle.quast_joins.specs.Steps.{FitsAt};
ghost use Rattle.quast_joins.specs.Sizes.{IsFormWithin};

use crate::count::common_loops;
use crate::forms::{copy_leaf, test_between};
use crate::way::Way;
use affine_forms::Form;
use quast_trees::{Builder, Forms, Source};
use std::alloc::AllocError;

// The statement of a leaf's instances; the first where its source is not known.
fn statement(source: &Option<Source>) -> usize
    ensures { result ≡ statement_of (source_held source.now) }
{
    match source {
        None => 0,
        Some(source) => source.statement,
    }
}

// Whether of two statements the first stands at the end of the tests.
fn stands(way: Way, first: usize, second: usize) -> bool
    ensures { result ≡ text way first second }
{
    match way {
        Way::Later => first >= second,
        Way::Earlier => second >= first,
    }
}

// The leaf again.
fn push_copy(builder: &mut Builder, leaf: &Forms) -> Result<(), AllocError>
    ensures { OnOk result (standing builder.new ≡ Tree.leaf leaf.now ∷ standing builder.old) }
{
    let copy = copy_leaf(builder.allocator(), leaf)?;
    builder.source_leaf(copy)
}

// The leaf at the end of the tests.
fn push_last(
    builder: &mut Builder,
    way: Way,
    first: &Forms,
    second: &Forms,
) -> Result<(), AllocError>
    ensures { OnOk result (standing builder.new ≡ last_leaf way first.now second.now ∷ standing builder.old) }
{
    if stands(way, statement(&first.source), statement(&second.source)) {
        push_copy(builder, first)
    } else {
        push_copy(builder, second)
    }
}

// Both leaves, the second on top.
fn push_both(builder: &mut Builder, first: &Forms, second: &Forms) -> Result<(), AllocError>
    ensures { OnOk result (standing builder.new ≡ leaf second.now ∷ leaf first.now ∷ standing builder.old) }
{
    push_copy(builder, first)?;
    push_copy(builder, second)
}

// The test that is at least 0 just where the first form's value is wanted before the second's.
fn push_test(builder: &mut Builder, way: Way, first: &Form, second: &Form) -> Result<(), AllocError>
    requires stands { 2 ≤ length (standing builder.old) }
    requires variables { variables_of second.now ≡ variables_of first.now }
    requires first { IsFormWithin leaf_limit first.now }
    requires second { IsFormWithin leaf_limit second.now }
    ensures { OnOk result
        (standing builder.new ≡ branched (test_of way first.now second.now) (standing builder.old)) }
{
    let test = test_between(builder.allocator(), way, first, second)?;
    builder.branch(test)
}

// The two tests of one loop: whether the second leaf's instance is wanted, and before it whether the first's is.
fn push_tests(
    builder: &mut Builder,
    way: Way,
    first: &Form,
    second: &Form,
) -> Result<(), AllocError>
    requires stands { 3 ≤ length (standing builder.old) }
    requires variables { variables_of second.now ≡ variables_of first.now }
    requires first { IsFormWithin leaf_limit first.now }
    requires second { IsFormWithin leaf_limit second.now }
    ensures { OnOk result (standing builder.new ≡ branched (test_of way first.now second.now)
        (branched (test_of way second.now first.now) (standing builder.old))) }
{
    push_test(builder, way, second, first)?;
    push_test(builder, way, first, second)
}

// The tests between two leaves from common loop `at` on, and the leaf at their end.
fn push_chain(
    builder: &mut Builder,
    way: Way,
    first: &Forms,
    second: &Forms,
    at: usize,
    common: usize,
) -> Result<(), AllocError>
    requires at { at ≤ common }
    requires common { common
        ≡ tested (loops_of first.now.source) (loops_of second.now.source) first.now.forms second.now.forms }
    requires variables { first.now.variables ≡ second.now.variables }
    requires first { FitsAt leaf_limit first.now.variables (Node.Forms first.now) 0 }
    requires second { FitsAt leaf_limit second.now.variables (Node.Forms second.now) 0 }
    ensures { OnOk result (standing builder.new
        ≡ chain way (leaf first.now) (leaf second.now) (last_leaf way first.now second.now)
        (drop at (loops_of first.now.source)) (drop at (loops_of second.now.source)) (drop at first.now.forms)
        (drop at second.now.forms) ∷ standing builder.old) }
{
    if at >= common {
        return push_last(builder, way, first, second);
    }
    push_both(builder, first, second)?;
    push_chain(builder, way, first, second, at + 1, common)?;
    let ours = &first.forms[at];
    let theirs = &second.forms[at];
    push_tests(builder, way, ours, theirs)
}

/// What stands where two leaves meet.
pub fn push_meet(
    builder: &mut Builder,
    way: Way,
    first: &Forms,
    second: &Forms,
) -> Result<(), AllocError>
    requires variables { first.now.variables ≡ second.now.variables }
    requires first { FitsAt leaf_limit first.now.variables (Node.Forms first.now) 0 }
    requires second { FitsAt leaf_limit second.now.variables (Node.Forms second.now) 0 }
    ensures { OnOk result (standing builder.new ≡ meet way first.now second.now ∷ standing builder.old) }
{
    let common = common_loops(first, second);
    push_chain(builder, way, first, second, 0, common)
}
