//! The paths of a quast from its root to the leaves of forms, found from the last node to the first: each node stands
//! behind its sides. A path on which a test fails by itself, or is passed on both sides, is left out.
ghost use Rattle.std.specs.Prelude.{◌≡◌, false, true, [], ◌∷◌, ◌++◌, IfOk, OnOk, map, reverse, pos};
ghost use Rattle.std.specs.List.{list_all};
ghost use Rattle.std.specs.Ordering.{int_eq};
ghost use Rattle.quast_trees.specs.Postfix.{tree_of};
ghost use Rattle.quast_trees.specs.Paths.{are_opposite, down, fails, is_same, live_paths, up};
ghost use Rattle.quast_trees.specs.steps.Ways.{met, met_by, path_found, side_ways, with_turn};
ghost use Rattle.quast_trees.specs.PathView.{turn_held, turns_held};

use crate::node::{Forms, Node};
use crate::quast::Quast;
use affine_forms::{Form, push};
use std::alloc::{AllocError, Global};
use std::marker::Model;

/// What is passed on the way to a leaf: a test on its first side or on its second, or a bind.
#[derive(Clone, Copy)]
pub enum Turn<'a> {
    Up(&'a Form),
    Down(&'a Form),
    Bound { form: &'a Form, divisor: i128 },
}

/// A leaf of forms, and what is passed from the root to it.
#[derive(Drop)]
pub struct Path<'a> {
    pub turns: Vec<Turn<'a>>,
    pub leaf: &'a Forms,
}

impl<'a> Model for Path<'a> {
    ghost use Rattle.quast_trees.specs.Paths.{LeafPath, path_to};
    ghost use Rattle.quast_trees.specs.PathView.{turns_held};

    ghost Value = { LeafPath };

    ghost view = { λ p. path_to (turns_held p.turns.items) p.leaf.now };
}

// The way to a tree, none where it is blocked.
#[derive(Drop)]
struct Way<'a> {
    turns: Option<Vec<Turn<'a>>>,
}

impl<'a> Model for Way<'a> {
    ghost use Rattle.std.specs.Prelude.{List, Option};
    ghost use Rattle.quast_trees.specs.Paths.{Turn};
    ghost use Rattle.quast_trees.specs.steps.Ways.{way_held};

    ghost Value = { Option (List Turn) };

    ghost view = { λ w. way_held w.turns };
}

// Whether two forms have the same numbers.
fn is_same(a: &Form, b: &Form) -> bool
    ensures { result ≡ is_same a.now b.now }
{
    a.constant() == b.constant() && a.coefficients() == b.coefficients()
}

// Whether all numbers are 0.
fn are_zeros(numbers: &[i128]) -> bool
    ensures { result ≡ list_all (λ c. int_eq c (pos 0)) numbers.now }
{
    for number in numbers {
        if *number != 0 {
            return false;
        }
    }
    true
}

// Whether a test speaks of no variable, and fails on the side on which it is passed.
fn fails(turn: &Turn) -> bool
    ensures { result ≡ fails (turn_held turn.now) }
{
    match turn {
        Turn::Up(test) => are_zeros(test.coefficients()) && test.constant() < 0,
        Turn::Down(test) => are_zeros(test.coefficients()) && test.constant() >= 0,
        Turn::Bound { .. } => false,
    }
}

// Whether they are the two sides of one test.
fn are_opposite(a: &Turn, b: &Turn) -> bool
    ensures { result ≡ are_opposite (turn_held a.now) (turn_held b.now) }
{
    match (a, b) {
        (Turn::Up(test), Turn::Down(other)) => is_same(test, other),
        (Turn::Down(test), Turn::Up(other)) => is_same(test, other),
        _ => false,
    }
}

// Whether the other side of a test was passed, with no bind since, once this is passed too.
fn is_met_by(turn: &Turn, before: bool, passed: &Turn) -> bool
    ensures { result ≡ met_by (turn_held turn.now) before (turn_held passed.now) }
{
    match passed {
        Turn::Bound { .. } => false,
        _ => before || are_opposite(passed, turn),
    }
}

// The same once all of these are passed, with none before.
fn is_met(turn: &Turn, turns: &[Turn]) -> bool
    ensures { result ≡ met (turn_held turn.now) false (turns_held turns.now) }
{
    let mut found = false;
    for passed in turns {
        found = is_met_by(turn, found, passed);
    }
    found
}

// The way with a turn behind it, where it is not blocked by that.
fn with_turn<'a>(mut turns: Vec<Turn<'a>>, turn: Turn<'a>) -> Result<Way<'a>, AllocError>
    ensures { IfOk result (λ w. w ≡ with_turn (turns_held turns.entry.items) (turn_held turn.entry)) }
{
    if fails(&turn) || is_met(&turn, &turns) {
        return Ok(Way { turns: None });
    }
    match push_turn(&mut turns, turn) {
        Err(error) => Err(error),
        Ok(()) => Ok(Way { turns: Some(turns) }),
    }
}

// A turn more.
fn push_turn<'a>(turns: &mut Vec<Turn<'a>>, turn: Turn<'a>) -> Result<(), AllocError>
    ensures { OnOk result (turns_held turns.new.items ≡ turns_held turns.old.items ++ turn_held turn.entry ∷ []) }
{
    push(turns, turn)
}

// The way with a turn behind it on top.
fn push_way<'a>(
    waiting: &mut Vec<Way<'a>>,
    turns: Vec<Turn<'a>>,
    turn: Turn<'a>,
) -> Result<(), AllocError>
    ensures { OnOk result (reverse waiting.new.items
        ≡ with_turn (turns_held turns.entry.items) (turn_held turn.entry) ∷ reverse waiting.old.items) }
{
    match with_turn(turns, turn) {
        Err(error) => Err(error),
        Ok(way) => push(waiting, way),
    }
}

// The ways to the sides of a test, the second on top.
fn push_sides<'a>(
    alloc: Global,
    waiting: &mut Vec<Way<'a>>,
    turns: Vec<Turn<'a>>,
    test: &'a Form,
) -> Result<(), AllocError>
    ensures { OnOk result (reverse waiting.new.items
        ≡ with_turn (turns_held turns.entry.items) (down test.now)
        ∷ with_turn (turns_held turns.entry.items) (up test.now)
        ∷ reverse waiting.old.items) }
{
    let again = match Vec::from_slice(alloc, &turns) {
        Err(error) => return Err(error),
        Ok(again) => again,
    };
    match push_way(waiting, turns, Turn::Up(test)) {
        Err(error) => Err(error),
        Ok(()) => push_way(waiting, again, Turn::Down(test)),
    }
}

// The ways to the sides of a node, and the path to it where it is a leaf of forms.
fn push_node<'a>(
    alloc: Global,
    waiting: &mut Vec<Way<'a>>,
    found: &mut Vec<Path<'a>>,
    node: &'a Node,
    way: Way<'a>,
) -> Result<(), AllocError>
    ensures waiting { OnOk result (reverse waiting.new.items ≡ side_ways node.now way.entry (reverse waiting.old.items)) }
    ensures found { OnOk result (reverse found.new.items ≡ path_found node.now way.entry (reverse found.old.items)) }
{
    match node {
        Node::Initial => Ok(()),
        Node::Forms(leaf) => match way.turns {
            None => Ok(()),
            Some(turns) => push(found, Path { turns, leaf }),
        },
        Node::Branch { test, .. } => match way.turns {
            None => match push(waiting, Way { turns: None }) {
                Err(error) => Err(error),
                Ok(()) => push(waiting, Way { turns: None }),
            },
            Some(turns) => push_sides(alloc, waiting, turns, test),
        },
        Node::Bind { form, divisor } => match way.turns {
            None => push(waiting, Way { turns: None }),
            Some(turns) => push_way(
                waiting,
                turns,
                Turn::Bound {
                    form,
                    divisor: *divisor,
                },
            ),
        },
    }
}

impl Quast {
    /// The paths to the leaves of forms that a point may go, depth first. The time is that of the nodes and of all
    /// turns on these paths.
    pub fn live_paths(&self) -> Result<Vec<Path>, AllocError>
        ensures { IfOk result (λ v. v.items ≡ live_paths (tree_of self.now)) }
    {
        let alloc = self.allocator();
        let nodes = self.nodes();
        let mut waiting = Vec::new(alloc);
        match push(
            &mut waiting,
            Way {
                turns: Some(Vec::new(alloc)),
            },
        ) {
            Err(error) => return Err(error),
            Ok(()) => {}
        }
        let mut found = Vec::new(alloc);
        // A node stands behind its sides, so the last is the root.
        let mut at = nodes.len();
        while at > 0 {
            at -= 1;
            let way = match waiting.pop() {
                None => Way { turns: None },
                Some(way) => way,
            };
            match push_node(alloc, &mut waiting, &mut found, &nodes[at], way) {
                Err(error) => return Err(error),
                Ok(()) => {}
            }
        }
        found.reverse();
        Ok(found)
    }
}
