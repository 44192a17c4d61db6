//! A place in a tree's visits, which goes on from one instance to the next and takes no memory for it: all room is
//! made with the spot. What a spot gives, with what is then still to come of the visits, is what was to come.
ghost use Rattle.std.specs.Prelude.{
  ◌≡◌,
  ◌^◌,
  ◌-◌,
  ◌↔◌,
  ◌++◌,
  ◌∷◌,
  [],
  All,
  IfOk,
  IfSome,
  IsNone,
  IsSome,
  List,
  false,
  if◌then◌else◌,
  length,
  map,
  max,
  min,
  pos,
  true,
  ℤ,
};
ghost use Rattle.loop_tree.specs.steps.Chain.{values_in};
ghost use Rattle.loop_tree.specs.steps.Going.{CanGo, CanTurn, HasGone, HasTurned, alone, rest_from, restarted};
ghost use Rattle.loop_tree.specs.steps.Passing.{CanPass, IsSpent, shown_in};
ghost use Rattle.loop_tree.specs.Braids.{IsBraid, left_of_braid};
ghost use Rattle.loop_tree.specs.Conditions.{CanWalk, IsHeld};
ghost use Rattle.loop_tree.specs.Fits.{BoundsFit, TestsFit};
ghost use Rattle.loop_tree.specs.Marks.{AreBounds, AreTests};
ghost use Rattle.loop_tree.specs.Spot.{deep, deep_all, mark as marked_at, rest_of};
ghost use Rattle.loop_tree.specs.SpotView.{IsSpotOf, StandAlike, found_in, mark_of, marks_of, to_come};
ghost use Rattle.loop_tree.specs.Stretches.{left_of};
ghost use Rattle.loop_tree.specs.Tree.{loop as loops, more, none};
ghost use Rattle.loop_tree.specs.View.{bounds_in, nodes_of, test_of, tree_of, trees_in};
ghost use Rattle.loop_tree.specs.Walk.{all_hold as tests_hold, lower, upper, visits};

use crate::braid::Braid;
use crate::ending::is_ended;
use crate::guards::plus;
use crate::near::near_of;
use crate::outer::{MOST_IN_ROW, Outer};
use crate::passing::pass_more;
use crate::ranges::{all_hold, range_at};
use crate::stretch::Stretch;
use crate::tree::{Guard, Loop, Node, Tree};
use crate::walking::instance_at;
use scop_syntax::Instance;
use std::alloc::{AllocError, Global};

/// The place of a node in a sequence, whether it was begun, and where it is a loop its value and its last one.
#[derive(Clone, Copy)]
pub struct Mark {
    pub place: usize,
    pub begun: bool,
    pub value: i128,
    pub last: i128,
}

/// A place in a tree's visits: a mark for each sequence of nodes that may stand in one another.
#[derive(Drop)]
pub struct Spot {
    pub marks: Vec<Mark>,
    pub stretch: Stretch,
    pub braid: Braid,
}

/// The greater of two numbers.
fn greater(a: u64, b: u64) -> u64
    ensures { result ≡ max a b }
{
    if a <= b { b } else { a }
}

/// How many sequences of nodes stand in one another; 2^64 - 1 also where there are more.
#[cycle(deepening)]
fn depth_of(nodes: &[Node]) -> u64
    ensures { result ≡ min (deep_all (nodes_of nodes.now)) (2 ^ 64 - 1) }
{
    let mut depth = 1u64;
    for node in nodes {
        depth = greater(depth, plus(depth_in(node), 1));
    }
    depth
}

/// How many in a node.
#[cycle(deepening)]
fn depth_in(node: &Node) -> u64
    ensures { result ≡ min (deep (tree_of node.now)) (2 ^ 64 - 1) }
{
    match node {
        Node::Loop(_, body) => depth_of(body),
        Node::Guard(_, body) => depth_of(body),
        Node::Instance(_) => 0,
    }
}

/// A place where nothing was begun.
#[inline]
fn fresh() -> Mark
    ensures { mark_of result ≡ marked_at 0 false (pos 0) (pos 0) }
{
    Mark {
        place: 0,
        begun: false,
        value: 0,
        last: 0,
    }
}

/// Stands before all.
#[inline]
fn restart(marks: &mut [Mark])
    ensures { marks_of marks.new ≡ restarted (marks_of marks.old) }
{
    if let Some(mark) = marks.first_mut() {
        *mark = fresh();
    }
}

/// Begins a node with these values, where it was not begun.
#[inline]
fn begin(mark: &mut Mark, value: i128, last: i128, deeper: &mut [Mark])
    requires { mark.old.begun ≡ false }
    ensures mark { mark_of mark.new ≡ marked_at mark.old.place true value last }
    ensures deeper { marks_of deeper.new ≡ restarted (marks_of deeper.old) }
{
    mark.begun = true;
    mark.value = value;
    mark.last = last;
    restart(deeper);
}

/// Begins a guard that lets pass, unless it was begun.
#[inline]
fn begin_guard(mark: &mut Mark, deeper: &mut [Mark])
    ensures place { mark.new.place ≡ mark.old.place }
    ensures begun { mark.new.begun ≡ true }
    ensures deeper { marks_of deeper.new
        ≡ (if mark.old.begun then marks_of deeper.old else restarted (marks_of deeper.old)) }
{
    if !mark.begun {
        begin(mark, 0, 0, deeper);
    }
}

/// Begins a loop at its first value, unless it was begun: then its bounds are not asked again.
#[inline]
fn begin_loop(head: &Loop, mark: &mut Mark, deeper: &mut [Mark], outer: &Outer, params: &[i64])
    requires divisors { AreBounds (bounds_in head.now.lower) × AreBounds (bounds_in head.now.upper) }
    requires fits { BoundsFit (bounds_in head.now.lower) (values_in outer.now ++ params.now)
        × BoundsFit (bounds_in head.now.upper) (values_in outer.now ++ params.now) }
    requires last { mark.old.begun ≡ true
        → mark.old.last ≡ upper (bounds_in head.now.upper) (values_in outer.now ++ params.now) }
    ensures mark { mark_of mark.new ≡ marked_at mark.old.place true (if mark.old.begun then mark.old.value
        else lower (bounds_in head.now.lower) (values_in outer.now ++ params.now))
        (upper (bounds_in head.now.upper) (values_in outer.now ++ params.now)) }
    ensures deeper { marks_of deeper.new
        ≡ (if mark.old.begun then marks_of deeper.old else restarted (marks_of deeper.old)) }
{
    if !mark.begun {
        let range = range_at(head, outer, params);
        begin(mark, range.first, range.last, deeper);
    }
}

/// Whether a guard lets pass: one that was begun does, and its tests are not asked again.
#[inline]
fn lets_pass(guard: &Guard, begun: bool, outer: &Outer, params: &[i64]) -> bool
    requires divisors { AreTests (map test_of guard.now.tests.items) }
    requires fits { TestsFit (map test_of guard.now.tests.items) (values_in outer.now ++ params.now) }
    requires begun { begun ≡ true → tests_hold (map test_of guard.now.tests.items) (values_in outer.now ++ params.now)
        ≡ true }
    ensures { result ≡ tests_hold (map test_of guard.now.tests.items) (values_in outer.now ++ params.now) }
{
    if begun {
        return true;
    }
    all_hold(&guard.tests, outer, params)
}

/// Whether there is a next instance of nodes, which is then put in front of the stretch; and what the marks pass by
/// behind it, as the stretch or the braid.
#[cycle(going)]
fn next_of(
    nodes: &[Node],
    marks: &mut [Mark],
    outer: &Outer,
    params: &[i64],
    stretch: &mut Stretch,
    braid: &mut Braid,
) -> bool
    requires go { CanGo (nodes_of nodes.now) (marks_of marks.old) params.now (values_in outer.now) }
    requires spent { IsSpent stretch.old braid.old }
    ensures gone { HasGone (nodes_of nodes.now) (marks_of marks.old) (marks_of marks.new)
        (shown_in result stretch.new braid.new) params.now (values_in outer.now) }
    ensures ready { result ≡ false → IsSpent stretch.new braid.new }
    ensures held { result ≡ true → CanPass stretch.new braid.new }
    ensures none { result ≡ false
        → rest_of (nodes_of nodes.now) (marks_of marks.old) params.now (values_in outer.now) ≡ [] }
{
    match marks.split_first_mut() {
        None => false,
        Some((mark, deeper)) => next_from(nodes, mark, deeper, outer, params, stretch, braid),
    }
}

/// The next instance of nodes from the one at a mark on.
#[cycle(going)]
fn next_from(
    nodes: &[Node],
    mark: &mut Mark,
    deeper: &mut [Mark],
    outer: &Outer,
    params: &[i64],
    stretch: &mut Stretch,
    braid: &mut Braid,
) -> bool
    requires go { CanGo (nodes_of nodes.now) (marks_of (mark.old ∷ deeper.old)) params.now (values_in outer.now) }
    requires spent { IsSpent stretch.old braid.old }
    ensures gone { HasGone (nodes_of nodes.now) (marks_of (mark.old ∷ deeper.old)) (marks_of (mark.new ∷ deeper.new))
        (shown_in result stretch.new braid.new) params.now (values_in outer.now) }
    ensures ready { result ≡ false → IsSpent stretch.new braid.new }
    ensures held { result ≡ true → CanPass stretch.new braid.new }
    ensures none { result ≡ false
        → rest_of (nodes_of nodes.now) (marks_of (mark.old ∷ deeper.old)) params.now (values_in outer.now) ≡ [] }
{
    while mark.place < nodes.len() {
        let node = &nodes[mark.place];
        if next_in(node, mark, deeper, outer, params, stretch, braid) {
            return true;
        }
        mark.place += 1;
        mark.begun = false;
    }
    false
}

/// The next instance of the node at a mark.
#[cycle(going)]
fn next_in(
    node: &Node,
    mark: &mut Mark,
    deeper: &mut [Mark],
    outer: &Outer,
    params: &[i64],
    stretch: &mut Stretch,
    braid: &mut Braid,
) -> bool
    requires go { CanGo (more (tree_of node.now) none) (alone (mark_of mark.old) (marks_of deeper.old)) params.now
        (values_in outer.now) }
    requires spent { IsSpent stretch.old braid.old }
    ensures gone { result ≡ true → HasGone (more (tree_of node.now) none)
        (alone (mark_of mark.old) (marks_of deeper.old)) (alone (mark_of mark.new) (marks_of deeper.new))
        (shown_in true stretch.new braid.new) params.now (values_in outer.now) }
    ensures ready { result ≡ false → IsSpent stretch.new braid.new }
    ensures held { result ≡ true → CanPass stretch.new braid.new }
    ensures none { result ≡ false → rest_of (more (tree_of node.now) none)
        (alone (mark_of mark.old) (marks_of deeper.old)) params.now (values_in outer.now) ≡ [] }
    ensures place { mark.new.place ≡ mark.old.place }
    ensures room { length deeper.new ≡ length deeper.old }
    ensures begun { result ≡ true → mark.new.begun ≡ true }
{
    match node {
        Node::Loop(head, body) => next_loop(
            head, body, mark, deeper, outer, params, stretch, braid,
        ),
        Node::Guard(guard, body) => {
            if lets_pass(guard, mark.begun, outer, params) {
                begin_guard(mark, deeper);
                next_of(body, deeper, outer, params, stretch, braid)
            } else {
                false
            }
        }
        Node::Instance(leaf) => {
            if mark.begun {
                return false;
            }
            begin(mark, 0, 0, deeper);
            stretch.before = instance_at(leaf, outer, params);
            true
        }
    }
}

/// The next instance of a loop.
#[cycle(going)]
fn next_loop(
    head: &Loop,
    body: &[Node],
    mark: &mut Mark,
    deeper: &mut [Mark],
    outer: &Outer,
    params: &[i64],
    stretch: &mut Stretch,
    braid: &mut Braid,
) -> bool
    requires go { CanGo (more (loops head.now.parallel (bounds_in head.now.lower) (bounds_in head.now.upper)
        (nodes_of body.now)) none) (alone (mark_of mark.old) (marks_of deeper.old)) params.now (values_in outer.now) }
    requires spent { IsSpent stretch.old braid.old }
    ensures gone { result ≡ true → HasGone (more (loops head.now.parallel (bounds_in head.now.lower)
        (bounds_in head.now.upper) (nodes_of body.now)) none)
        (alone (mark_of mark.old) (marks_of deeper.old)) (alone (mark_of mark.new) (marks_of deeper.new))
        (shown_in true stretch.new braid.new) params.now (values_in outer.now) }
    ensures ready { result ≡ false → IsSpent stretch.new braid.new }
    ensures held { result ≡ true → CanPass stretch.new braid.new }
    ensures none { result ≡ false → rest_of (more (loops head.now.parallel (bounds_in head.now.lower)
        (bounds_in head.now.upper) (nodes_of body.now)) none)
        (alone (mark_of mark.old) (marks_of deeper.old)) params.now (values_in outer.now) ≡ [] }
    ensures place { mark.new.place ≡ mark.old.place }
    ensures room { length deeper.new ≡ length deeper.old }
    ensures begun { result ≡ true → mark.new.begun ≡ true }
{
    begin_loop(head, mark, deeper, outer, params);
    next_turn(body, mark, deeper, outer, params, stretch, braid)
}

/// The next instance of a loop's body from the value at a mark on.
#[cycle(going)]
fn next_turn(
    body: &[Node],
    mark: &mut Mark,
    deeper: &mut [Mark],
    outer: &Outer,
    params: &[i64],
    stretch: &mut Stretch,
    braid: &mut Braid,
) -> bool
    requires turn { CanTurn (nodes_of body.now) (marks_of deeper.old) mark.old.value mark.old.last params.now
        (values_in outer.now) }
    requires spent { IsSpent stretch.old braid.old }
    ensures gone { result ≡ true → HasTurned (nodes_of body.now) mark.old.value (marks_of deeper.old) mark.new.value
        (marks_of deeper.new) mark.old.last (shown_in true stretch.new braid.new) params.now (values_in outer.now) }
    ensures ready { result ≡ false → IsSpent stretch.new braid.new }
    ensures held { result ≡ true → CanPass stretch.new braid.new }
    ensures none { result ≡ false
        → rest_from (nodes_of body.now) (marks_of deeper.old) mark.old.value mark.old.last params.now
        (values_in outer.now) ≡ [] }
    ensures place { mark.new.place ≡ mark.old.place }
    ensures begun { mark.new.begun ≡ mark.old.begun }
    ensures last { mark.new.last ≡ mark.old.last }
    ensures room { length deeper.new ≡ length deeper.old }
{
    while mark.value <= mark.last {
        if next_within(body, mark.value, deeper, outer, params, stretch, braid) {
            pass_more(body, mark, deeper, outer, params, stretch, braid);
            return true;
        }
        if mark.last <= mark.value {
            return false;
        }
        mark.value += 1;
        restart(deeper);
    }
    false
}

/// The next instance of a loop's body at a value.
#[cycle(going)]
fn next_within(
    body: &[Node],
    value: i128,
    deeper: &mut [Mark],
    outer: &Outer,
    params: &[i64],
    stretch: &mut Stretch,
    braid: &mut Braid,
) -> bool
    requires go { CanGo (nodes_of body.now) (marks_of deeper.old) params.now (values_in outer.now ++ value ∷ []) }
    requires spent { IsSpent stretch.old braid.old }
    ensures gone { HasGone (nodes_of body.now) (marks_of deeper.old) (marks_of deeper.new)
        (shown_in result stretch.new braid.new) params.now (values_in outer.now ++ value ∷ []) }
    ensures ready { result ≡ false → IsSpent stretch.new braid.new }
    ensures held { result ≡ true → CanPass stretch.new braid.new }
    ensures none { result ≡ false
        → rest_of (nodes_of body.now) (marks_of deeper.old) params.now (values_in outer.now ++ value ∷ []) ≡ [] }
{
    if is_ended(body, deeper) {
        return false;
    }
    let within = Outer::Within(&*outer, value);
    next_of(body, deeper, &within, params, stretch, braid)
}

/// The next instance of nodes from the innermost loop with values left on; none where the search has to begin further
/// out.
fn next_near(
    nodes: &[Node],
    marks: &mut [Mark],
    params: &[i64],
    stretch: &mut Stretch,
    braid: &mut Braid,
) -> bool
    requires go { CanGo (nodes_of nodes.now) (marks_of marks.old) params.now [] }
    requires spent { IsSpent stretch.old braid.old }
    ensures gone { HasGone (nodes_of nodes.now) (marks_of marks.old) (marks_of marks.new)
        (shown_in result stretch.new braid.new) params.now [] }
    ensures ready { result ≡ false → IsSpent stretch.new braid.new }
    ensures held { result ≡ true → CanPass stretch.new braid.new }
{
    let mut row = [0; MOST_IN_ROW];
    let near = near_of(nodes, marks, &mut row);
    let (_, inner) = marks.split_at_mut(near.depth);
    let outer = Outer::Row(row.split_at(near.depth).0);
    next_of(near.nodes, inner, &outer, params, stretch, braid)
}

/// The next instance of nodes within no loop: from the innermost loop with values left on, or else from the outermost.
fn next_behind(
    nodes: &[Node],
    marks: &mut [Mark],
    outer: &Outer,
    params: &[i64],
    stretch: &mut Stretch,
    braid: &mut Braid,
) -> bool
    requires outer { values_in outer.now ≡ [] }
    requires go { CanGo (nodes_of nodes.now) (marks_of marks.old) params.now [] }
    requires spent { IsSpent stretch.old braid.old }
    ensures gone { HasGone (nodes_of nodes.now) (marks_of marks.old) (marks_of marks.new)
        (shown_in result stretch.new braid.new) params.now [] }
    ensures ready { result ≡ false → IsSpent stretch.new braid.new }
    ensures held { result ≡ true → CanPass stretch.new braid.new }
    ensures none { result ≡ false → rest_of (nodes_of nodes.now) (marks_of marks.old) params.now [] ≡ [] }
{
    if next_near(nodes, marks, params, stretch, braid) {
        return true;
    }
    next_of(nodes, marks, outer, params, stretch, braid)
}

impl Spot {
    /// The place before the first instance of `tree`, whatever the parameters.
    ///
    /// # Errors
    /// `AllocError` alone.
    pub fn of(alloc: Global, tree: &Tree) -> Result<Spot, AllocError>
        ensures spot { IfOk result (λ s. (params : List ℤ) → IsSpotOf (trees_in tree.now) params s) }
        ensures rest { IfOk result (λ s. (params : List ℤ)
            → to_come (trees_in tree.now) params s ≡ visits (trees_in tree.now) params) }
    {
        match Vec::from_elem(alloc, fresh(), depth_of(tree.nodes.as_slice()) as usize) {
            Err(_) => Err(AllocError),
            Ok(marks) => Ok(Spot {
                marks,
                stretch: Stretch::empty(),
                braid: Braid::empty(),
            }),
        }
    }

    /// The next instance behind the marks, which then go on by the stretch or the braid behind it.
    fn search(&mut self, nodes: &[Node], params: &[i64]) -> Option<Instance>
        requires walk { CanWalk (nodes_of nodes.now) params.now [] }
        requires spot { IsSpotOf (nodes_of nodes.now) params.now self.old }
        requires stretch { self.old.stretch.left ≡ 0 }
        requires braid { left_of_braid self.old.braid ≡ [] }
        ensures rest { to_come (nodes_of nodes.now) params.now self.old
            ≡ found_in result ++ to_come (nodes_of nodes.now) params.now self.new }
        ensures none { IsNone result → to_come (nodes_of nodes.now) params.now self.old ≡ [] }
        ensures spot { IsSpotOf (nodes_of nodes.now) params.now self.new }
    {
        if next_behind(
            nodes,
            self.marks.as_mut_slice(),
            &Outer::Row(&[]),
            params,
            &mut self.stretch,
            &mut self.braid,
        ) {
            return Some(self.stretch.before);
        }
        None
    }

    /// The next instance that `tree`, of which this is a spot, visits for `params`, with which it came to its place;
    /// None exactly where none is left, and then again and again. It takes no memory.
    #[inline]
    pub fn next(&mut self, tree: &Tree, params: &[i64]) -> Option<Instance>
        requires walk { CanWalk (trees_in tree.now) params.now [] }
        requires spot { IsSpotOf (trees_in tree.now) params.now self.old }
        ensures rest { to_come (trees_in tree.now) params.now self.old
            ≡ found_in result ++ to_come (trees_in tree.now) params.now self.new }
        ensures none { IsNone result ↔ (to_come (trees_in tree.now) params.now self.old ≡ []) }
        ensures spot { IsSpotOf (trees_in tree.now) params.now self.new }
    {
        if self.stretch.left > 0 {
            return Some(self.stretch.next());
        }
        match self.braid.next() {
            Some(instance) => Some(instance),
            None => self.search(tree.nodes.as_slice(), params),
        }
    }

    /// The same place once more.
    ///
    /// # Errors
    /// `AllocError` alone.
    pub fn copy(&self, alloc: Global) -> Result<Spot, AllocError>
        ensures { IfOk result (λ s. StandAlike s self.now) }
    {
        let marks = Vec::from_slice(alloc, self.marks.as_slice())?;
        Ok(Spot {
            marks,
            stretch: self.stretch,
            braid: self.braid,
        })
    }

    /// Goes to the place of another spot of the same tree, which has as many marks. It takes no memory.
    pub fn set(&mut self, other: &Spot)
        requires { length self.old.marks.items ≡ length other.now.marks.items }
        ensures { StandAlike self.new other.now }
    {
        self.stretch = other.stretch;
        self.braid = other.braid;
        self.marks
            .as_mut_slice()
            .copy_from_slice(other.marks.as_slice());
    }
}
