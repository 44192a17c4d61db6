//! The end of the loop that a place stands in, where a few instances are all that it has in it: the marks go there at
//! once, and the instances that they pass by are told as a stretch or a braid.
ghost use Rattle.std.specs.Prelude.{◌≡◌, ◌≤◌, ◌<◌, ◌+ℤ◌, ◌-ℤ◌, ◌≤ℤ◌, ◌++◌, ◌∷◌, [], IfSome, IsSome, IsTrue, List};
ghost use Rattle.std.specs.Prelude.{ℤ, false, get_or, length, map, pos, take, true};
ghost use Rattle.scop_syntax.specs.View.{instance_of};
ghost use Rattle.loop_tree.specs.steps.Chain.{values_in};
ghost use Rattle.loop_tree.specs.steps.Going.{CanTurn, HasTurned};
ghost use Rattle.loop_tree.specs.steps.Passing.{AreLeaves, CanPass, IsAlone, IsOf, IsSpent, passed_by, shown_along};
ghost use Rattle.loop_tree.specs.steps.Passing.{shown_in};
ghost use Rattle.loop_tree.specs.steps.Stepping.{steps_of};
ghost use Rattle.loop_tree.specs.Braids.{IsBraid, left_of_braid};
ghost use Rattle.loop_tree.specs.Conditions.{CanWalk};
ghost use Rattle.loop_tree.specs.Spot.{Mark as PlainMark, rest_of};
ghost use Rattle.loop_tree.specs.SpotView.{mark_of, marks_of};
ghost use Rattle.loop_tree.specs.Stretches.{left_of};
ghost use Rattle.loop_tree.specs.Tree.{instance as leaf_in, more, none};
ghost use Rattle.loop_tree.specs.View.{nodes_of, tree_of};

use crate::braid::{Braid, MOST_STRANDS};
use crate::outer::{Outer, behind};
use crate::spot::Mark;
use crate::stretch::Stretch;
use crate::tree::{Leaf, Node};
use crate::walking::instance_at;
use arrayvec::ArrayVec;
use scop_syntax::{Aff, Instance, MOST_LOOPS};

/// The first of some numbers; 0 where there is none.
#[inline]
fn first_of(numbers: &[i64]) -> i64
    ensures { result ≡ get_or numbers.now 0 (pos 0) }
{
    match numbers.split_first() {
        None => 0,
        Some((number, _)) => *number,
    }
}

/// The coefficient of a form for the value of a loop within these; 0 where it has none.
#[inline]
fn coefficient_within(form: &Aff, outer: &Outer) -> i64
    ensures { result ≡ get_or form.now.coefficients (length (values_in outer.now)) (pos 0) }
{
    first_of(behind(outer, form.coefficients.as_slice()))
}

/// The numbers, and zeros behind them.
#[inline]
fn padded(numbers: &[i64]) -> [i64; MOST_LOOPS]
    requires { length numbers.now ≤ 5 }
    ensures { take (length numbers.now) result ≡ numbers.now }
{
    let mut kept = [0; MOST_LOOPS];
    kept[..numbers.len()].copy_from_slice(numbers);
    kept
}

/// What the turns of a leaf have more at the next value of a loop within these.
fn steps_within(forms: &[Aff], outer: &Outer) -> [i64; MOST_LOOPS]
    requires { length forms.now ≤ 5 }
    ensures { take (length forms.now) result ≡ steps_of forms.now (length (values_in outer.now)) }
{
    let mut steps: ArrayVec<i64, MOST_LOOPS> = ArrayVec::new();
    for form in forms {
        steps.push(coefficient_within(form, outer));
    }
    padded(steps.as_slice())
}

/// How far it is from a number up to another; None where it is not up, or a word has no room for it.
#[inline]
pub(crate) fn way_up(from: i128, to: i128) -> Option<u64>
    ensures { IfSome result (λ n. pos n ≡ to -ℤ from) }
{
    if to <= from {
        return None;
    }
    match to.checked_sub(from) {
        None => None,
        Some(way) => u64::try_from(way).ok(),
    }
}

/// The leaf that a node is.
#[inline]
fn leaf_of(node: &Node) -> Option<&Leaf>
    ensures { IfSome result (λ leaf. tree_of node.now ≡ leaf_in leaf.now.statement leaf.now.turns.items) }
{
    match node {
        Node::Loop(_, _) => None,
        Node::Guard(_, _) => None,
        Node::Instance(leaf) => Some(leaf),
    }
}

/// Whether a node is a leaf.
#[inline]
pub(crate) fn is_leaf(node: &Node) -> bool
    ensures { IsTrue result → AreLeaves (more (tree_of node.now) none) }
{
    match node {
        Node::Loop(_, _) => false,
        Node::Guard(_, _) => false,
        Node::Instance(_) => true,
    }
}

/// The leaf that nodes are, where they are one alone.
#[inline]
fn leaf_alone(nodes: &[Node]) -> Option<&Leaf>
    ensures { IfSome result (λ leaf. nodes_of nodes.now
        ≡ more (leaf_in leaf.now.statement leaf.now.turns.items) none) }
{
    match nodes.split_first() {
        None => None,
        Some((node, others)) => {
            if !others.is_empty() {
                return None;
            }
            leaf_of(node)
        }
    }
}

/// Whether the last of these nodes is a leaf, and was begun at this mark.
#[inline]
fn is_last(nodes: &[Node], mark: &Mark) -> bool
    ensures { IsTrue result → (ms : List PlainMark) → (params outer : List ℤ)
        → rest_of (nodes_of nodes.now) (mark_of mark.now ∷ ms) params outer ≡ [] }
{
    match nodes.split_last() {
        None => false,
        Some((node, others)) => {
            if !mark.begun || mark.place != others.len() {
                return false;
            }
            is_leaf(node)
        }
    }
}

/// The same at the first of some marks.
#[inline]
fn is_over(nodes: &[Node], marks: &[Mark]) -> bool
    ensures { IsTrue result → (params outer : List ℤ)
        → rest_of (nodes_of nodes.now) (marks_of marks.now) params outer ≡ [] }
{
    match marks.split_first() {
        None => false,
        Some((mark, _)) => is_last(nodes, mark),
    }
}

/// Whether something is left of a stretch or a braid.
#[inline]
pub(crate) fn has_left(stretch: &Stretch, braid: &Braid) -> bool
    requires { IsBraid braid.now }
    ensures { result ≡ false → IsSpent stretch.now braid.now }
{
    if stretch.left > 0 {
        return true;
    }
    braid.strands[braid.at].left > 0
}

/// So many instances of a leaf behind this one, which stands at a value of the loop within these.
#[inline]
fn stretch_behind(leaf: &Leaf, before: Instance, left: u64, outer: &Outer) -> Stretch
    requires { length leaf.now.turns.items ≤ 5 }
    ensures before { result.before ≡ before }
    ensures rest { (params : List ℤ) (x : ℤ)
        → IsOf leaf.now.statement leaf.now.turns.items (instance_of before) params (values_in outer.now ++ x ∷ [])
        → left_of result ≡ shown_along (more (leaf_in leaf.now.statement leaf.now.turns.items) none) params
        (values_in outer.now) (x +ℤ pos 1) left }
{
    let steps = steps_within(leaf.turns.as_slice(), outer);
    Stretch {
        before,
        steps,
        left,
    }
}

/// The same of a node, where it is a leaf.
fn strand_behind(
    node: &Node,
    value: i128,
    left: u64,
    outer: &Outer,
    params: &[i64],
) -> Option<Stretch>
    requires { CanWalk (more (tree_of node.now) none) params.now (values_in outer.now ++ value ∷ []) }
    ensures leaf { IsSome result → AreLeaves (more (tree_of node.now) none) }
    ensures rest { IfSome result (λ s. left_of s ≡ shown_along (more (tree_of node.now) none) params.now
        (values_in outer.now) (value +ℤ pos 1) left) }
{
    match leaf_of(node) {
        None => None,
        Some(leaf) => {
            let within = Outer::Within(&*outer, value);
            let before = instance_at(leaf, &within, params);
            Some(stretch_behind(leaf, before, left, outer))
        }
    }
}

/// So many instances of each of a few leaves behind those at a value of the loop within these.
fn braid_behind(
    nodes: &[Node],
    value: i128,
    left: u64,
    outer: &Outer,
    params: &[i64],
) -> Option<Braid>
    requires some { 0 < length nodes.now }
    requires few { length nodes.now ≤ 4 }
    requires walk { (y : ℤ) → value ≤ℤ y → y ≤ℤ (value +ℤ pos left)
        → CanWalk (nodes_of nodes.now) params.now (values_in outer.now ++ y ∷ []) }
    ensures leaves { IsSome result → AreLeaves (nodes_of nodes.now) }
    ensures rest { IfSome result (λ b. left_of_braid b ≡ shown_along (nodes_of nodes.now) params.now
        (values_in outer.now) (value +ℤ pos 1) left) }
    ensures braid { IfSome result IsBraid }
{
    let mut strands = [Stretch::empty(); MOST_STRANDS];
    let mut count = 0usize;
    for node in nodes {
        match strand_behind(node, value, left, outer, params) {
            None => return None,
            Some(strand) => strands[count] = strand,
        }
        count += 1;
    }
    Some(Braid {
        strands,
        count,
        at: 0,
    })
}

/// So many instances of nodes behind those at a value, the last of which was found, where the nodes are a few leaves.
fn leaves_behind(
    nodes: &[Node],
    value: i128,
    left: u64,
    outer: &Outer,
    params: &[i64],
    stretch: &mut Stretch,
    braid: &mut Braid,
) -> bool
    requires walk { (y : ℤ) → value ≤ℤ y → y ≤ℤ (value +ℤ pos left)
        → CanWalk (nodes_of nodes.now) params.now (values_in outer.now ++ y ∷ []) }
    requires alone { IsAlone (nodes_of nodes.now) (instance_of stretch.old.before) params.now
        (values_in outer.now ++ value ∷ []) }
    requires spent { IsSpent stretch.old braid.old }
    ensures before { stretch.new.before ≡ stretch.old.before }
    ensures none { result ≡ false → IsSpent stretch.new braid.new }
    ensures leaves { result ≡ true → AreLeaves (nodes_of nodes.now) }
    ensures rest { result ≡ true → passed_by stretch.new braid.new ≡ shown_along (nodes_of nodes.now) params.now
        (values_in outer.now) (value +ℤ pos 1) left }
    ensures held { result ≡ true → CanPass stretch.new braid.new }
{
    if let Some(leaf) = leaf_alone(nodes) {
        *stretch = stretch_behind(leaf, stretch.before, left, outer);
        return true;
    }
    if nodes.is_empty() || nodes.len() > MOST_STRANDS {
        return false;
    }
    match braid_behind(nodes, value, left, outer, params) {
        None => false,
        Some(found) => {
            *braid = found;
            true
        }
    }
}

/// Goes to the last value of a loop that has a few leaves in it and nothing else, from behind those at a value.
fn pass_leaves(
    body: &[Node],
    mark: &mut Mark,
    deeper: &[Mark],
    outer: &Outer,
    params: &[i64],
    stretch: &mut Stretch,
    braid: &mut Braid,
)
    requires turn { CanTurn (nodes_of body.now) (marks_of deeper.now) mark.old.value mark.old.last params.now
        (values_in outer.now) }
    requires within { mark.old.value ≤ℤ mark.old.last }
    requires alone { IsAlone (nodes_of body.now) (instance_of stretch.old.before) params.now
        (values_in outer.now ++ mark.old.value ∷ []) }
    requires over { (ps vs : List ℤ) → rest_of (nodes_of body.now) (marks_of deeper.now) ps vs ≡ [] }
    requires spent { IsSpent stretch.old braid.old }
    ensures gone { HasTurned (nodes_of body.now) mark.old.value (marks_of deeper.now) mark.new.value
        (marks_of deeper.now) mark.old.last (passed_by stretch.new braid.new) params.now (values_in outer.now) }
    ensures before { stretch.new.before ≡ stretch.old.before }
    ensures held { CanPass stretch.new braid.new }
    ensures place { mark.new.place ≡ mark.old.place }
    ensures begun { mark.new.begun ≡ mark.old.begun }
    ensures last { mark.new.last ≡ mark.old.last }
{
    let Some(left) = way_up(mark.value, mark.last) else {
        return;
    };
    if leaves_behind(body, mark.value, left, outer, params, stretch, braid) {
        mark.value = mark.last;
    }
}

/// The same behind an instance that was found at the mark's value, where the nodes are over at the marks within them,
/// unless something was passed by behind it already.
pub(crate) fn pass_more(
    body: &[Node],
    mark: &mut Mark,
    deeper: &[Mark],
    outer: &Outer,
    params: &[i64],
    stretch: &mut Stretch,
    braid: &mut Braid,
)
    requires turn { CanTurn (nodes_of body.now) (marks_of deeper.now) mark.old.value mark.old.last params.now
        (values_in outer.now) }
    requires within { mark.old.value ≤ℤ mark.old.last }
    requires alone { IsAlone (nodes_of body.now) (instance_of stretch.old.before) params.now
        (values_in outer.now ++ mark.old.value ∷ []) }
    requires held { CanPass stretch.old braid.old }
    ensures gone { (x : ℤ) (ms : List PlainMark)
        → HasTurned (nodes_of body.now) x ms mark.old.value (marks_of deeper.now) mark.old.last
        (shown_in true stretch.old braid.old) params.now (values_in outer.now)
        → HasTurned (nodes_of body.now) x ms mark.new.value (marks_of deeper.now) mark.old.last
        (shown_in true stretch.new braid.new) params.now (values_in outer.now) }
    ensures held { CanPass stretch.new braid.new }
    ensures place { mark.new.place ≡ mark.old.place }
    ensures begun { mark.new.begun ≡ mark.old.begun }
    ensures last { mark.new.last ≡ mark.old.last }
{
    if has_left(stretch, braid) {
        return;
    }
    if is_over(body, deeper) {
        pass_leaves(body, mark, deeper, outer, params, stretch, braid);
    }
}
