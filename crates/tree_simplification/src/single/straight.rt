//! Nodes in which no loop may run more than once.

use crate::single::once::{is_among, same_part};
use loop_tree::{Bound, Bounds, Loop, Node};

/// How deep such nodes stand in one another.
const DEEPEST: usize = 32;

/// Whether a part is one of bounds.
pub fn is_in(part: &Bound, bounds: &Bounds) -> bool {
    if same_part(part, &bounds.first) {
        return true;
    }
    is_among(part, bounds.others.as_slice())
}

/// Whether a part bounds a loop from both sides, so that it runs at most once.
fn is_straight_loop(head: &Loop) -> bool {
    if is_in(&head.lower.first, &head.upper) {
        return true;
    }
    for part in head.lower.others.as_slice() {
        if is_in(part, &head.upper) {
            return true;
        }
    }
    false
}

/// Whether so it is with all loops of nodes, which stand in one another so deep at most.
#[cycle(looking)]
fn are_straight(nodes: &[Node], depth: usize) -> bool {
    for node in nodes {
        if !is_straight(node, depth) {
            return false;
        }
    }
    true
}

/// Whether so it is with a node.
#[cycle(looking)]
fn is_straight(node: &Node, depth: usize) -> bool {
    match node {
        Node::Loop(head, body) => is_straight_under(is_straight_loop(head), body, depth),
        Node::Guard(_, body) => is_straight_under(true, body, depth),
        Node::Instance(_) => true,
    }
}

/// Whether so it is with these, and with what stands round them.
#[cycle(looking)]
fn is_straight_under(round: bool, body: &[Node], depth: usize) -> bool {
    if !round {
        return false;
    }
    if depth == 0 {
        return false;
    }
    are_straight(body, depth - 1)
}

/// Whether a loop with this body stays a loop though it runs at most once: directly within a parallel loop, where no
/// loop in it runs more than once.
pub fn is_border(within_tile: bool, body: &[Node]) -> bool {
    if !within_tile {
        return false;
    }
    are_straight(body, DEEPEST)
}
