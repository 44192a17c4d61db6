//! How many turns of a loop are taken at once: as many as a part divides by that bounds a loop within it from both
//! sides, if the value of the loop round it alone decides what remains. Of so many turns in a row that loop within runs
//! in one, where nothing has to be divided.
ghost use Rattle.std.specs.Prelude.{◌≡◌, ◌<◌, ◌≤◌, false};

use crate::single::heads::is_multiple;
use crate::single::straight::is_in;
use loop_tree::{Bound, Bounds, Loop, Node};

/// The most nodes of a body of which copies are made.
const MOST_NODES: usize = 16;

/// How deep the loops and guards of a body are looked into.
const DEEPEST: usize = 32;

/// What a part divides by, if that is from 2 to 4, or 1.
fn divisor_of(part: &Bound) -> usize
    ensures some { 1 ≤ result }
    ensures few { result ≤ 4 }
{
    match part.divisor {
        2 => 2,
        3 => 3,
        4 => 4,
        _ => 1,
    }
}

/// Whether a number divides all coefficients but the one at a place.
fn divides_others(coefficients: &[i64], by: usize, at: usize) -> bool
    requires { 1 ≤ by }
{
    for variable in 0..coefficients.len() {
        if is_multiple(coefficients[variable] as i128, by as i128) == (variable == at) {
            return false;
        }
    }
    true
}

/// How many turns of the loop at a place are taken at once for a lower part of a loop within, of which these are the
/// upper bounds.
fn turns_for_part(part: &Bound, upper: &Bounds, at: usize) -> usize
    ensures { result ≤ 4 }
{
    let turns = divisor_of(part);
    if !divides_others(part.form.coefficients.as_slice(), turns, at) {
        return 1;
    }
    if !is_in(part, upper) {
        return 1;
    }
    turns
}

/// The greater of two numbers.
fn greater(one: usize, other: usize) -> usize
    ensures { one ≤ 4 → other ≤ 4 → result ≤ 4 }
{
    if one < other { other } else { one }
}

/// How many are for a loop within.
fn turns_for_loop(head: &Loop, at: usize) -> usize
    ensures { result ≤ 4 }
{
    let mut most = turns_for_part(&head.lower.first, &head.upper, at);
    for part in head.lower.others.as_slice() {
        most = greater(most, turns_for_part(part, &head.upper, at));
    }
    most
}

/// The most that are for one of the loops of nodes, looked into so deep.
#[cycle(dividing)]
fn turns_in(nodes: &[Node], at: usize, depth: usize) -> usize
    ensures { result ≤ 4 }
{
    let mut most = 1;
    for node in nodes {
        most = greater(most, turns_in_node(node, at, depth));
    }
    most
}

/// So of a node.
#[cycle(dividing)]
fn turns_in_node(node: &Node, at: usize, depth: usize) -> usize
    ensures { result ≤ 4 }
{
    if depth == 0 {
        return 1;
    }
    match node {
        Node::Loop(head, body) => greater(turns_for_loop(head, at), turns_in(body, at, depth - 1)),
        Node::Guard(_, body) => turns_in(body, at, depth - 1),
        Node::Instance(_) => 1,
    }
}

/// How many turns are taken at once of a loop with this body, behind so many others.
pub fn turns_at_once(parallel: bool, body: &[Node], at: usize) -> usize
    ensures serial { 1 < result → parallel ≡ false }
    ensures few { result ≤ 4 }
{
    if parallel {
        return 1;
    }
    if body.len() > MOST_NODES {
        return 1;
    }
    turns_in(body, at, DEEPEST)
}
