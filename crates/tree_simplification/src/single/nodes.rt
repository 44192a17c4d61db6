//! The nodes of a tree, gone down with the place at which they stand.
ghost use Rattle.std.specs.Prelude.{◌<◌, ◌^◌, IfOk, IfSome, OnOk, map, ℕ};
ghost use Rattle.loop_tree.specs.Marks.{FlatAll};
ghost use Rattle.loop_tree.specs.Shape.{NestAllTo, TreesAreOver, TreesAreUpTo};
ghost use Rattle.loop_tree.specs.Tree.{guard as guarded, loop as loops, more, none};
ghost use Rattle.loop_tree.specs.View.{bounds_in, nodes_of, test_of, tree_of, trees_in};
ghost use Rattle.tree_simplification.specs.steps.Inlined.{CanInline, CanKeep, Extends, IsInlined};
ghost use Rattle.tree_simplification.specs.steps.Strided.{CanGoAt, CanStride, ExtendsAt};

use crate::single::heads::{bounds_at, leaf_at, tests_at};
use crate::single::numbers::Stop;
use crate::single::once::{Once, once_at};
use crate::single::place::{Place, place_of, within_block, within_loop, within_once};
use crate::single::straight::is_border;
use crate::single::stride::{block_at, turn_at};
use crate::single::turns::turns_at_once;
use affine_forms::push;
use loop_tree::{Bounds, Guard, Loop, Node, Tree};
use std::alloc::{AllocError, Global};

/// Appends the nodes that stand for these.
#[cycle(inlining)]
fn inline_nodes(
    alloc: Global,
    nodes: &[Node],
    place: &Place,
    out: &mut Vec<Node>,
) -> Result<(), Stop>
    requires { CanInline place.now.parameters place.now.kept place.now.loops.items place.now.forms.items
        (nodes_of nodes.now) }
    ensures { OnOk result (Extends place.now.parameters place.now.kept place.now.loops.items (nodes_of nodes.now)
        (nodes_of out.old.items) (nodes_of out.new.items)) }
{
    for node in nodes {
        inline_node(alloc, node, place, out)?;
    }
    Ok(())
}

/// Appends those that stand for a node.
#[cycle(inlining)]
fn inline_node(alloc: Global, node: &Node, place: &Place, out: &mut Vec<Node>) -> Result<(), Stop>
    requires { CanInline place.now.parameters place.now.kept place.now.loops.items place.now.forms.items
        (more (tree_of node.now) none) }
    ensures { OnOk result (Extends place.now.parameters place.now.kept place.now.loops.items
        (more (tree_of node.now) none) (nodes_of out.old.items) (nodes_of out.new.items)) }
{
    match node {
        Node::Loop(head, body) => inline_loop(alloc, head, body, place, out),
        Node::Guard(guard, body) => inline_guard(alloc, guard, body, place, out),
        Node::Instance(leaf) => {
            let variables = place.kept + place.parameters;
            let leaf = leaf_at(alloc, leaf, place.forms.as_slice(), variables)?;
            push(out, Node::Instance(leaf))?;
            Ok(())
        }
    }
}

/// Appends those that stand for a loop.
#[cycle(inlining)]
fn inline_loop(
    alloc: Global,
    head: &Loop,
    body: &[Node],
    place: &Place,
    out: &mut Vec<Node>,
) -> Result<(), Stop>
    requires { CanInline place.now.parameters place.now.kept place.now.loops.items place.now.forms.items
        (more (loops head.now.parallel (bounds_in head.now.lower) (bounds_in head.now.upper) (nodes_of body.now))
        none) }
    ensures { OnOk result (Extends place.now.parameters place.now.kept place.now.loops.items
        (more (loops head.now.parallel (bounds_in head.now.lower) (bounds_in head.now.upper) (nodes_of body.now)) none)
        (nodes_of out.old.items) (nodes_of out.new.items)) }
{
    let variables = place.kept + place.parameters;
    let lower = bounds_at(alloc, &head.lower, place.forms.as_slice(), variables, true)?;
    let upper = bounds_at(alloc, &head.upper, place.forms.as_slice(), variables, false)?;
    let stays = is_border(place.within_tile, body);
    match once_at(alloc, head.parallel, stays, &lower, &upper, variables)? {
        None => stay_loop(alloc, head, lower, upper, body, place, out),
        Some(once) => inline_at(alloc, head, once, body, place, out),
    }
}

/// Appends those that stand for a loop with these bounds that does not run at most once.
#[cycle(inlining)]
fn stay_loop(
    alloc: Global,
    head: &Loop,
    lower: Bounds,
    upper: Bounds,
    body: &[Node],
    place: &Place,
    out: &mut Vec<Node>,
) -> Result<(), Stop>
    requires { CanKeep place.now.parameters place.now.kept place.now.loops.items place.now.forms.items
        (bounds_in head.now.lower) (bounds_in head.now.upper) (bounds_in lower) (bounds_in upper)
        (more (loops head.now.parallel (bounds_in head.now.lower) (bounds_in head.now.upper) (nodes_of body.now))
        none) }
    ensures { OnOk result (Extends place.now.parameters place.now.kept place.now.loops.items
        (more (loops head.now.parallel (bounds_in head.now.lower) (bounds_in head.now.upper) (nodes_of body.now)) none)
        (nodes_of out.old.items) (nodes_of out.new.items)) }
{
    let turns = turns_at_once(head.parallel, body, place.loops.len());
    if turns > 1 {
        return stride_loop(alloc, head, turns, body, place, out);
    }
    keep_loop(alloc, head, lower, upper, body, place, out)
}

/// Appends a loop with these bounds.
#[cycle(inlining)]
fn keep_loop(
    alloc: Global,
    head: &Loop,
    lower: Bounds,
    upper: Bounds,
    body: &[Node],
    place: &Place,
    out: &mut Vec<Node>,
) -> Result<(), Stop>
    requires { CanKeep place.now.parameters place.now.kept place.now.loops.items place.now.forms.items
        (bounds_in head.now.lower) (bounds_in head.now.upper) (bounds_in lower) (bounds_in upper)
        (more (loops head.now.parallel (bounds_in head.now.lower) (bounds_in head.now.upper) (nodes_of body.now))
        none) }
    ensures { OnOk result (Extends place.now.parameters place.now.kept place.now.loops.items
        (more (loops head.now.parallel (bounds_in head.now.lower) (bounds_in head.now.upper) (nodes_of body.now)) none)
        (nodes_of out.old.items) (nodes_of out.new.items)) }
{
    let within = within_loop(alloc, place, head.parallel)?;
    let mut nodes = Vec::new(alloc);
    inline_nodes(alloc, body, &within, &mut nodes)?;
    let parallel = head.parallel;
    let head = Loop {
        parallel,
        lower,
        upper,
    };
    push(out, Node::Loop(head, nodes))?;
    Ok(())
}

/// Appends a loop over blocks of so many values, and in it the body for each value of a block.
#[cycle(inlining)]
fn stride_loop(
    alloc: Global,
    head: &Loop,
    turns: usize,
    body: &[Node],
    place: &Place,
    out: &mut Vec<Node>,
) -> Result<(), Stop>
    requires { CanStride place.now.parameters place.now.kept place.now.loops.items place.now.forms.items
        head.now.parallel turns
        (more (loops head.now.parallel (bounds_in head.now.lower) (bounds_in head.now.upper) (nodes_of body.now))
        none) }
    ensures { OnOk result (Extends place.now.parameters place.now.kept place.now.loops.items
        (more (loops head.now.parallel (bounds_in head.now.lower) (bounds_in head.now.upper) (nodes_of body.now)) none)
        (nodes_of out.old.items) (nodes_of out.new.items)) }
{
    let within = within_block(alloc, place)?;
    let mut nodes = Vec::new(alloc);
    for at in 0..turns {
        let once = turn_at(alloc, head, turns, at, &within)?;
        inline_at(alloc, head, once, body, &within, &mut nodes)?;
    }
    let ends = block_at(alloc, head, turns, place)?;
    let head = Loop {
        parallel: false,
        lower: ends.lower,
        upper: ends.upper,
    };
    push(out, Node::Loop(head, nodes))?;
    Ok(())
}

/// Appends those that stand for a loop's body at the one value that a form gives, under tests whether the loop has it.
#[cycle(inlining)]
fn inline_at(
    alloc: Global,
    head: &Loop,
    once: Once,
    body: &[Node],
    place: &Place,
    out: &mut Vec<Node>,
) -> Result<(), Stop>
    requires { CanGoAt place.now.parameters place.now.kept place.now.loops.items place.now.forms.items
        (bounds_in head.now.lower) (bounds_in head.now.upper) once.form (map test_of once.tests.items)
        (nodes_of body.now) }
    ensures { OnOk result (ExtendsAt place.now.parameters place.now.kept place.now.loops.items
        (bounds_in head.now.lower) (bounds_in head.now.upper) once.form (nodes_of body.now) (nodes_of out.old.items)
        (nodes_of out.new.items)) }
{
    let within = within_once(alloc, place, &once.form)?;
    let tests = once.tests;
    if tests.is_empty() {
        return inline_nodes(alloc, body, &within, out);
    }
    let mut nodes = Vec::new(alloc);
    inline_nodes(alloc, body, &within, &mut nodes)?;
    push(out, Node::Guard(Guard { tests }, nodes))?;
    Ok(())
}

/// Appends those that stand for a guard.
#[cycle(inlining)]
fn inline_guard(
    alloc: Global,
    guard: &Guard,
    body: &[Node],
    place: &Place,
    out: &mut Vec<Node>,
) -> Result<(), Stop>
    requires { CanInline place.now.parameters place.now.kept place.now.loops.items place.now.forms.items
        (more (guarded (map test_of guard.now.tests.items) (nodes_of body.now)) none) }
    ensures { OnOk result (Extends place.now.parameters place.now.kept place.now.loops.items
        (more (guarded (map test_of guard.now.tests.items) (nodes_of body.now)) none)
        (nodes_of out.old.items) (nodes_of out.new.items)) }
{
    let variables = place.kept + place.parameters;
    let tests = tests_at(
        alloc,
        guard.tests.as_slice(),
        place.forms.as_slice(),
        variables,
    )?;
    if tests.is_empty() {
        return inline_nodes(alloc, body, place, out);
    }
    let mut nodes = Vec::new(alloc);
    inline_nodes(alloc, body, place, &mut nodes)?;
    push(out, Node::Guard(Guard { tests }, nodes))?;
    Ok(())
}

/// The tree without the loops that run at most once.
fn inlined_tree(alloc: Global, tree: &Tree, parameters: usize) -> Result<Tree, Stop>
    requires few { parameters < 2 ^ 32 }
    requires flat { FlatAll (trees_in tree.now) }
    requires over { TreesAreOver parameters (trees_in tree.now) }
    requires numbers { TreesAreUpTo (2 ^ 40) (trees_in tree.now) }
    requires nested { (d : ℕ) × (d < 2 ^ 32) × NestAllTo d (trees_in tree.now) }
    ensures { IfOk result (λ t. IsInlined parameters (trees_in tree.now) (trees_in t)) }
{
    let place = place_of(alloc, Vec::new(alloc), 0, parameters, false)?;
    let mut nodes = Vec::new(alloc);
    inline_nodes(alloc, tree.nodes.as_slice(), &place, &mut nodes)?;
    Ok(Tree { nodes })
}

/// The tree without the loops that run at most once: those that are not parallel, and that a form bounds from both
/// sides, but for those at the border of a tile. The form stands for the loop's value within, under tests whether it
/// lies between the other bounds. Turns are taken so many at once where a loop within divides by so many. Bounds and
/// tests lose common factors. Nothing where a number would pass 2^45.
///
/// # Errors
/// `AllocError` alone.
pub(crate) fn without_single(
    alloc: Global,
    tree: &Tree,
    parameters: usize,
) -> Result<Option<Tree>, AllocError>
    requires few { parameters < 2 ^ 32 }
    requires flat { FlatAll (trees_in tree.now) }
    requires over { TreesAreOver parameters (trees_in tree.now) }
    requires numbers { TreesAreUpTo (2 ^ 40) (trees_in tree.now) }
    requires nested { (d : ℕ) × (d < 2 ^ 32) × NestAllTo d (trees_in tree.now) }
    ensures { IfOk result (λ r. IfSome r (λ t. IsInlined parameters (trees_in tree.now) (trees_in t))) }
{
    match inlined_tree(alloc, tree, parameters) {
        Ok(tree) => Ok(Some(tree)),
        Err(Stop::Large) => Ok(None),
        Err(Stop::NoMemory) => Err(AllocError),
    }
}
