//! The nodes of a join, written once each: those of the first quast, and under each of its leaves those of the second.
ghost use Rattle.std.specs.Prelude.{◌≡◌, OnOk};
ghost use Rattle.quast_trees.specs.Postfix.{standing};
ghost use Rattle.quast_trees.specs.declared.node.Node.TheVariants as Node;
ghost use Rattle.quast_joins.specs.Limits.{leaf_limit};
ghost use Rattle.quast_joins.specs.Steps.{pairs, steps, under_built, moved_built, join_built};
ghost use Rattle.quast_joins.specs.Steps.{under_step, moved_step, join_step, Takes, FitsAt, IsMarked};

use crate::forms::{move_form, move_leaf, widen_leaf};
use crate::leaves::push_meet;
use crate::way::Way;
use quast_trees::{Builder, Forms, Node};
use std::alloc::AllocError;

// One node of the second quast, with `binds` binds round it, under a leaf of the first, at which `more` parameters are
// bound.
fn push_under(
    builder: &mut Builder,
    way: Way,
    variables: usize,
    more: usize,
    leaf: &Forms,
    node: &Node,
    binds: usize,
) -> Result<(), AllocError>
    requires takes { Takes node.now (standing builder.old) }
    requires node { FitsAt leaf_limit variables node.now binds }
    requires leaf { FitsAt leaf_limit variables (Node.Forms leaf.now) more }
    ensures { OnOk result
        (standing builder.new ≡ under_built way variables more leaf.now (standing builder.old) binds node.now) }
{
    let alloc = builder.allocator();
    match node {
        Node::Initial => builder.source_leaf(widen_leaf(alloc, leaf, binds)?),
        Node::Forms(other) => push_leaves(builder, way, variables, more, leaf, other, binds),
        Node::Branch { .. } => push_moved(builder, variables, more, node, binds),
        Node::Bind { .. } => push_moved(builder, variables, more, node, binds),
    }
}

// What stands where a leaf of the first quast meets one of the second.
fn push_leaves(
    builder: &mut Builder,
    way: Way,
    variables: usize,
    more: usize,
    leaf: &Forms,
    other: &Forms,
    binds: usize,
) -> Result<(), AllocError>
    requires leaf { FitsAt leaf_limit variables (Node.Forms leaf.now) more }
    requires other { FitsAt leaf_limit variables (Node.Forms other.now) binds }
    ensures { OnOk result (standing builder.new
        ≡ under_built way variables more leaf.now (standing builder.old) binds (Node.Forms other.now)) }
{
    let alloc = builder.allocator();
    let first = widen_leaf(alloc, leaf, binds)?;
    let second = move_leaf(alloc, other, variables, more)?;
    push_meet(builder, way, &first, &second)
}

// The second quast's nodes under a leaf of the first.
fn push_all_under(
    builder: &mut Builder,
    way: Way,
    variables: usize,
    more: usize,
    leaf: &Forms,
    nodes: &[Node],
    binds: &[usize],
) -> Result<(), AllocError>
    requires nodes { IsMarked leaf_limit variables nodes.now binds.now }
    requires leaf { FitsAt leaf_limit variables (Node.Forms leaf.now) more }
    ensures { OnOk result (standing builder.new
        ≡ steps (under_step way variables more leaf.now) (standing builder.old) (pairs nodes.now binds.now)) }
{
    for at in 0..nodes.len() {
        match push_under(builder, way, variables, more, leaf, &nodes[at], binds[at]) {
            Err(error) => return Err(error),
            Ok(()) => {}
        }
    }
    Ok(())
}

// One node of the second quast under an initial value of the first, at which `more` parameters are bound.
fn push_moved(
    builder: &mut Builder,
    variables: usize,
    more: usize,
    node: &Node,
    binds: usize,
) -> Result<(), AllocError>
    requires takes { Takes node.now (standing builder.old) }
    requires node { FitsAt leaf_limit variables node.now binds }
    ensures { OnOk result (standing builder.new ≡ moved_built variables more (standing builder.old) node.now) }
{
    let alloc = builder.allocator();
    match node {
        Node::Initial => builder.initial(),
        Node::Forms(other) => builder.source_leaf(move_leaf(alloc, other, variables, more)?),
        Node::Branch { test, .. } => builder.branch(move_form(alloc, test, variables, more)?),
        Node::Bind { form, divisor } => {
            builder.bind(move_form(alloc, form, variables, more)?, *divisor)
        }
    }
}

// The second quast's nodes under an initial value of the first.
fn push_all_moved(
    builder: &mut Builder,
    variables: usize,
    more: usize,
    nodes: &[Node],
    binds: &[usize],
) -> Result<(), AllocError>
    requires { IsMarked leaf_limit variables nodes.now binds.now }
    ensures { OnOk result (standing builder.new
        ≡ steps (moved_step variables more) (standing builder.old) (pairs nodes.now binds.now)) }
{
    for at in 0..nodes.len() {
        match push_moved(builder, variables, more, &nodes[at], binds[at]) {
            Err(error) => return Err(error),
            Ok(()) => {}
        }
    }
    Ok(())
}

// What a node of the first quast becomes, at which `more` parameters are bound.
fn push_join(
    builder: &mut Builder,
    way: Way,
    variables: usize,
    node: &Node,
    more: usize,
    others: &[Node],
    binds: &[usize],
) -> Result<(), AllocError>
    requires takes { Takes node.now (standing builder.old) }
    requires node { FitsAt leaf_limit variables node.now more }
    requires others { IsMarked leaf_limit variables others.now binds.now }
    ensures { OnOk result (standing builder.new
        ≡ join_built way variables (pairs others.now binds.now) (standing builder.old) more node.now) }
{
    match node {
        Node::Initial => push_all_moved(builder, variables, more, others, binds),
        Node::Forms(leaf) => push_all_under(builder, way, variables, more, leaf, others, binds),
        Node::Branch { test, .. } => match test.copy() {
            Err(_) => Err(AllocError),
            Ok(test) => builder.branch(test),
        },
        Node::Bind { form, divisor } => match form.copy() {
            Err(_) => Err(AllocError),
            Ok(form) => builder.bind(form, *divisor),
        },
    }
}

/// What the first quast's nodes become, each with the number of binds round it; the second's are the others.
pub fn push_nodes(
    builder: &mut Builder,
    way: Way,
    variables: usize,
    nodes: &[Node],
    rounds: &[usize],
    others: &[Node],
    binds: &[usize],
) -> Result<(), AllocError>
    requires nodes { IsMarked leaf_limit variables nodes.now rounds.now }
    requires others { IsMarked leaf_limit variables others.now binds.now }
    ensures { OnOk result (standing builder.new
        ≡ steps (join_step way variables (pairs others.now binds.now)) (standing builder.old)
        (pairs nodes.now rounds.now)) }
{
    for at in 0..nodes.len() {
        match push_join(
            builder, way, variables, &nodes[at], rounds[at], others, binds,
        ) {
            Err(error) => return Err(error),
            Ok(()) => {}
        }
    }
    Ok(())
}
