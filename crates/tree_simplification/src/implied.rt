//! The tree without the tests and the parts of bounds that the loops and tests round them imply.

ghost use Rattle.std.specs.Prelude.{◌≡◌, ◌+◌, ◌<◌, All, IfOk, OnOk, length, map};
ghost use Rattle.affine_forms.specs.Parts.{variables_of};
ghost use Rattle.loop_tree.specs.Fits.{form_in};
ghost use Rattle.loop_tree.specs.Marks.{AreBounds, FlatAll};
ghost use Rattle.loop_tree.specs.Shape.{BoundsAreOver, TreesAreOver};
ghost use Rattle.loop_tree.specs.Tree.{guard as guards, instance, loop as loops, more, none};
ghost use Rattle.loop_tree.specs.View.{bounds_in, nodes_of, test_of, tree_of, trees_in};
ghost use Rattle.tree_simplification.specs.steps.Context.{parts};
ghost use Rattle.tree_simplification.specs.steps.ContextView.{context_of};
ghost use Rattle.tree_simplification.specs.steps.Joined.{joined};
ghost use Rattle.tree_simplification.specs.steps.Trimmed.{CanTrim, IsEntered, IsTrimmed, Trims, TrimsAll};
ghost use Rattle.tree_simplification.specs.steps.Trimmed.{TrimsBounds, TrimsTests, under};

use crate::asking::{are_natural_above, never_speaks};
use crate::context::Context;
use crate::copies::{copied_leaf, copied_parts, copied_tests};
use crate::entering::{sided, tested};
use crate::trimming::{trim_parts, trim_tests};
use affine_forms::push;
use loop_tree::{Bound, Bounds, Guard, Leaf, Loop, Node, Test, Tree};
use std::alloc::{AllocError, Global};

/// The bounds of these parts.
fn bounds_from(kept: Vec<Bound>) -> Bounds
    requires { 0 < length kept.items }
    ensures { parts (bounds_in result) ≡ kept.items }
{
    let mut others = kept;
    let first = others.remove(0);
    Bounds { first, others }
}

/// A loop's head without the parts of bounds that are implied where the context speaks.
fn trimmed_head(
    alloc: Global,
    context: &Context,
    head: &Loop,
    budget: u64,
) -> Result<Loop, AllocError>
    requires flat { AreBounds (bounds_in head.now.lower) × AreBounds (bounds_in head.now.upper) }
    requires over { BoundsAreOver (context.now.loops + context.now.parameters) (bounds_in head.now.lower)
        × BoundsAreOver (context.now.loops + context.now.parameters) (bounds_in head.now.upper) }
    ensures parallel { IfOk result (λ l. l.parallel ≡ head.now.parallel) }
    ensures bounds { IfOk result (λ l. TrimsBounds (context_of context.now) (bounds_in head.now.lower)
        (bounds_in head.now.upper) (bounds_in l.lower) (bounds_in l.upper)) }
{
    let mut lower = copied_parts(alloc, &head.lower)?;
    let mut upper = copied_parts(alloc, &head.upper)?;
    trim_parts(alloc, context, true, &mut lower, &upper, budget)?;
    trim_parts(alloc, context, false, &mut upper, &lower, budget)?;
    Ok(Loop {
        parallel: head.parallel,
        lower: bounds_from(lower),
        upper: bounds_from(upper),
    })
}

/// The context within a loop.
fn entered(
    alloc: Global,
    context: &Context,
    head: &Loop,
    budget: u64,
) -> Result<Context, AllocError>
    requires flat { AreBounds (bounds_in head.now.lower) × AreBounds (bounds_in head.now.upper) }
    requires over { BoundsAreOver (context.now.loops + context.now.parameters) (bounds_in head.now.lower)
        × BoundsAreOver (context.now.loops + context.now.parameters) (bounds_in head.now.upper) }
    ensures { IfOk result (λ c. IsEntered (context_of context.now) (bounds_in head.now.lower)
        (bounds_in head.now.upper) (context_of c)) }
{
    let lower = copied_parts(alloc, &head.lower)?;
    let upper = copied_parts(alloc, &head.upper)?;
    let natural = are_natural_above(alloc, context, &lower, budget)?;
    sided(alloc, context, true, &lower, &upper, natural)
}

/// A guard's tests without those that are implied where the context speaks.
fn kept_tests(
    alloc: Global,
    context: &Context,
    tests: &[Test],
    budget: u64,
) -> Result<Vec<Test>, AllocError>
    requires over { All (λ test. variables_of (form_in test) ≡ context.now.loops + context.now.parameters)
        (map test_of tests.now) }
    ensures { IfOk result (λ v. TrimsTests (context_of context.now) (map test_of tests.now) (map test_of v.items)) }
{
    let mut kept = copied_tests(alloc, tests)?;
    trim_tests(alloc, context, &mut kept, budget)?;
    Ok(kept)
}

/// One node.
fn alone(alloc: Global, node: Node) -> Result<Vec<Node>, AllocError>
    ensures { IfOk result (λ v. nodes_of v.items ≡ more (tree_of node) none) }
{
    let mut nodes = Vec::new(alloc);
    push(&mut nodes, node)?;
    Ok(nodes)
}

/// A loop round a body.
fn looped(alloc: Global, head: Loop, body: Vec<Node>) -> Result<Vec<Node>, AllocError>
    ensures { IfOk result (λ v. nodes_of v.items
        ≡ more (loops head.parallel (bounds_in head.lower) (bounds_in head.upper) (nodes_of body.items)) none) }
{
    alone(alloc, Node::Loop(head, body))
}

/// A body under tests, of which there may be none.
fn guarded(alloc: Global, tests: Vec<Test>, body: Vec<Node>) -> Result<Vec<Node>, AllocError>
    ensures { IfOk result (λ v. nodes_of v.items ≡ under (map test_of tests.items) (nodes_of body.items)) }
{
    if tests.is_empty() {
        Ok(body)
    } else {
        alone(alloc, Node::Guard(Guard { tests }, body))
    }
}

/// An instance again.
fn instance_again(alloc: Global, leaf: &Leaf) -> Result<Vec<Node>, AllocError>
    ensures { IfOk result (λ v. nodes_of v.items ≡ more (instance leaf.now.statement leaf.now.turns.items) none) }
{
    let leaf = copied_leaf(alloc, leaf)?;
    alone(alloc, Node::Instance(leaf))
}

/// What is left of an instance: nothing, where it is found never to be visited.
fn trim_leaf(
    alloc: Global,
    leaf: &Leaf,
    context: &Context,
    budget: u64,
) -> Result<Vec<Node>, AllocError>
    ensures { IfOk result (λ v. Trims (context_of context.now)
        (instance leaf.now.statement leaf.now.turns.items) (nodes_of v.items)) }
{
    if never_speaks(alloc, context, budget)? {
        return Ok(Vec::new(alloc));
    }
    instance_again(alloc, leaf)
}

/// Nodes with others behind them.
fn append(nodes: &mut Vec<Node>, more: Vec<Node>) -> Result<(), AllocError>
    ensures { OnOk result (nodes_of nodes.new.items ≡ joined (nodes_of nodes.old.items) (nodes_of more.items)) }
{
    let mut more = more;
    nodes.append(&mut more)
}

/// What is left of nodes where the context speaks.
#[cycle(leaving)]
fn trim_nodes(
    alloc: Global,
    nodes: &[Node],
    context: &Context,
    budget: u64,
) -> Result<Vec<Node>, AllocError>
    requires { CanTrim (context_of context.now) (nodes_of nodes.now) }
    ensures { IfOk result (λ v. TrimsAll (context_of context.now) (nodes_of nodes.now) (nodes_of v.items)) }
{
    let mut out = Vec::new(alloc);
    for node in nodes {
        append(&mut out, trim_node(alloc, node, context, budget)?)?;
    }
    Ok(out)
}

/// What is left of a node.
#[cycle(leaving)]
fn trim_node(
    alloc: Global,
    node: &Node,
    context: &Context,
    budget: u64,
) -> Result<Vec<Node>, AllocError>
    requires { CanTrim (context_of context.now) (more (tree_of node.now) none) }
    ensures { IfOk result (λ v. Trims (context_of context.now) (tree_of node.now) (nodes_of v.items)) }
{
    match node {
        Node::Loop(head, body) => trim_loop(alloc, head, body, context, budget),
        Node::Guard(guard, body) => trim_guard(alloc, guard, body, context, budget),
        Node::Instance(leaf) => trim_leaf(alloc, leaf, context, budget),
    }
}

/// What is left of a loop.
#[cycle(leaving)]
fn trim_loop(
    alloc: Global,
    head: &Loop,
    body: &[Node],
    context: &Context,
    budget: u64,
) -> Result<Vec<Node>, AllocError>
    requires { CanTrim (context_of context.now)
        (more (loops head.now.parallel (bounds_in head.now.lower) (bounds_in head.now.upper) (nodes_of body.now))
        none) }
    ensures { IfOk result (λ v. Trims (context_of context.now)
        (loops head.now.parallel (bounds_in head.now.lower) (bounds_in head.now.upper) (nodes_of body.now))
        (nodes_of v.items)) }
{
    let within = entered(alloc, context, head, budget)?;
    let nodes = trim_nodes(alloc, body, &within, budget)?;
    if nodes.is_empty() {
        return Ok(nodes);
    }
    let head = trimmed_head(alloc, context, head, budget)?;
    looped(alloc, head, nodes)
}

/// What is left of a guard.
#[cycle(leaving)]
fn trim_guard(
    alloc: Global,
    guard: &Guard,
    body: &[Node],
    context: &Context,
    budget: u64,
) -> Result<Vec<Node>, AllocError>
    requires { CanTrim (context_of context.now)
        (more (guards (map test_of guard.now.tests.items) (nodes_of body.now)) none) }
    ensures { IfOk result (λ v. Trims (context_of context.now)
        (guards (map test_of guard.now.tests.items) (nodes_of body.now)) (nodes_of v.items)) }
{
    let within = tested(alloc, context, &guard.tests)?;
    let nodes = trim_nodes(alloc, body, &within, budget)?;
    if nodes.is_empty() {
        return Ok(nodes);
    }
    let tests = kept_tests(alloc, context, &guard.tests, budget)?;
    guarded(alloc, tests, nodes)
}

/// The tree without the tests and the parts of bounds that the loops and tests round them imply, and without what they
/// show is never visited. The tree speaks of so many parameters. Each question may make so many moves of the solver;
/// where it needs more, the thing stays.
///
/// # Errors
/// `AllocError` alone.
pub fn without_implied(
    alloc: Global,
    tree: &Tree,
    parameters: usize,
    budget: u64,
) -> Result<Tree, AllocError>
    requires flat { FlatAll (trees_in tree.now) }
    requires over { TreesAreOver parameters (trees_in tree.now) }
    ensures { IfOk result (λ t. IsTrimmed parameters (trees_in tree.now) (trees_in t)) }
{
    let context = Context {
        loops: 0,
        parameters,
        natural: true,
        rows: Vec::new(alloc),
    };
    let nodes = trim_nodes(alloc, &tree.nodes, &context, budget)?;
    Ok(Tree { nodes })
}
