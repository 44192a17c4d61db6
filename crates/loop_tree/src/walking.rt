//! The walk over a tree: it shows a visitor each instance in turn, or many at once where it need not look at them, and
//! takes no memory.
ghost use Rattle.std.specs.Prelude.{◌≡◌, ◌≤◌, ◌≤ℤ◌, ◌++◌, ◌∷◌, [], All, FitsSigned, List};
ghost use Rattle.std.specs.Prelude.{length, map, ℤ};
ghost use Rattle.std.specs.Int.{w64};
ghost use Rattle.scop_syntax.specs.View.{instance_of};
ghost use Rattle.scop_syntax.specs.Walk.{Instance as PlainInstance};
ghost use Rattle.whole_numbers.specs.Affine.{value_of, values_of};
ghost use Rattle.loop_tree.specs.steps.Chain.{values_at, values_in};
ghost use Rattle.loop_tree.specs.Conditions.{CanWalk, IsHeld};
ghost use Rattle.loop_tree.specs.Fits.{FormFits, FormsFit};
ghost use Rattle.loop_tree.specs.Spot.{shown_from};
ghost use Rattle.loop_tree.specs.Tree.{loop as loops, more, none};
ghost use Rattle.loop_tree.specs.View.{bounds_in, nodes_of, tree_of, trees_in};
ghost use Rattle.loop_tree.specs.Walk.{between, given, visits, walk, walk_all};

use crate::counting::count_before;
use crate::outer::{MOST_IN_ROW, Outer, Point, point_in, value_at};
use crate::passing::is_leaf;
use crate::ranges::{all_hold, range_at};
use crate::tree::{Leaf, Loop, Node, Tree};
use crate::visitor::{Visitor, can_skip, passes_by, skips_one};
use arrayvec::ArrayVec;
use scop_syntax::{Aff, Instance, MOST_LOOPS};

/// The value of a form, as a turn.
#[inline]
fn turn_at(form: &Aff, point: &Point, params: &[i64]) -> i64
    requires fits { FormFits form.now (values_at point.now ++ params.now) }
    requires held { FitsSigned w64 (value_of form.now (values_at point.now ++ params.now)) }
    ensures { result ≡ value_of form.now (values_at point.now ++ params.now) }
{
    value_at(form, point, params) as i64
}

/// The turns that forms give.
fn turns_at(forms: &[Aff], point: &Point, params: &[i64]) -> ArrayVec<i64, MOST_LOOPS>
    requires few { length forms.now ≤ 5 }
    requires fits { FormsFit forms.now (values_at point.now ++ params.now) }
    requires held { All (FitsSigned w64) (values_of forms.now (values_at point.now ++ params.now)) }
    ensures { result.items ≡ values_of forms.now (values_at point.now ++ params.now) }
{
    let mut turns: ArrayVec<i64, MOST_LOOPS> = ArrayVec::new();
    for form in forms {
        turns.push(turn_at(form, point, params));
    }
    turns
}

/// The instance of a leaf within these loops.
pub fn instance_at(leaf: &Leaf, outer: &Outer, params: &[i64]) -> Instance
    requires fits { FormsFit leaf.now.turns.items (values_in outer.now ++ params.now) }
    requires held { IsHeld (record {
      number = leaf.now.statement;
      turns = values_of leaf.now.turns.items (values_in outer.now ++ params.now);
    }) }
    ensures { instance_of result ≡ record {
      number = leaf.now.statement;
      turns = values_of leaf.now.turns.items (values_in outer.now ++ params.now);
    } }
{
    let mut row = [0; MOST_IN_ROW];
    let point = point_in(outer, &mut row);
    let turns = turns_at(leaf.turns.as_slice(), &point, params);
    Instance::of(leaf.statement, turns.as_slice())
}

/// The place of the last leaf among nodes, 0 where there is none: since a leaf shows an instance, none in front of it is
/// the last.
pub(crate) fn last_leaf(nodes: &[Node]) -> usize {
    let mut last = 0;
    for (place, node) in nodes.iter().enumerate() {
        if is_leaf(node) {
            last = place;
        }
    }
    last
}

/// Shows the instances of a loop's body at its values in front of the last one at once, where the visitor can see them
/// so. It tells from which value on those are that were not shown.
fn skip_values<V: Visitor>(
    body: &[Node],
    first: i128,
    last: i128,
    outer: &Outer,
    params: &[i64],
    visitor: &mut V,
) -> i128
    requires { (x : ℤ) → first ≤ℤ x → x ≤ℤ last
        → CanWalk (nodes_of body.now) params.now (values_in outer.now ++ x ∷ []) }
    ensures up { first ≤ℤ result }
    ensures shown { (l : List PlainInstance) → V.stands visitor.old l → (done : List PlainInstance)
        × (done ++ shown_from (nodes_of body.now) params.now (values_in outer.now) result last
        ≡ l ++ shown_from (nodes_of body.now) params.now (values_in outer.now) first last) × V.stands visitor.new done }
{
    if last <= first {
        return first;
    }
    if visitor.pass_by() {
        return last;
    }
    if !can_skip(visitor) {
        return first;
    }
    match count_before(body, first, last, outer, params) {
        None => first,
        Some(count) => {
            if visitor.skip(count) {
                return last;
            }
            first
        }
    }
}

/// Shows the instances of nodes within these loops, in turn. The last of them need not be looked at where it is unseen.
#[cycle(walking)]
pub(crate) fn walk_nodes<V: Visitor>(
    nodes: &[Node],
    outer: &Outer,
    params: &[i64],
    unseen: bool,
    visitor: &mut V,
)
    requires { CanWalk (nodes_of nodes.now) params.now (values_in outer.now) }
    ensures { (l : List PlainInstance) → V.stands visitor.old l → V.stands visitor.new
        (l ++ map given (walk_all (nodes_of nodes.now) params.now (values_in outer.now))) }
{
    let last = last_leaf(nodes);
    let mut place = 0;
    for node in nodes {
        walk_node(node, outer, params, unseen || place < last, visitor);
        place += 1;
    }
}

/// Shows those of a node.
#[cycle(walking)]
pub(crate) fn walk_node<V: Visitor>(
    node: &Node,
    outer: &Outer,
    params: &[i64],
    unseen: bool,
    visitor: &mut V,
)
    requires { CanWalk (more (tree_of node.now) none) params.now (values_in outer.now) }
    ensures { (l : List PlainInstance) → V.stands visitor.old l → V.stands visitor.new
        (l ++ map given (walk (tree_of node.now) params.now (values_in outer.now))) }
{
    if passes_by(unseen, visitor) {
        return;
    }
    match node {
        Node::Loop(head, body) => walk_loop(head, body, outer, params, unseen, visitor),
        Node::Guard(guard, body) => {
            if all_hold(&guard.tests, outer, params) {
                walk_nodes(body, outer, params, unseen, visitor);
            }
        }
        Node::Instance(leaf) => {
            if skips_one(unseen, visitor) {
                return;
            }
            visitor.visit(instance_at(leaf, outer, params));
        }
    }
}

/// Shows those of a loop.
#[cycle(walking)]
fn walk_loop<V: Visitor>(
    head: &Loop,
    body: &[Node],
    outer: &Outer,
    params: &[i64],
    unseen: bool,
    visitor: &mut V,
)
    requires { CanWalk (more (loops head.now.parallel (bounds_in head.now.lower) (bounds_in head.now.upper)
        (nodes_of body.now)) none) params.now (values_in outer.now) }
    ensures { (l : List PlainInstance) → V.stands visitor.old l → V.stands visitor.new
        (l ++ map given (walk (loops head.now.parallel (bounds_in head.now.lower) (bounds_in head.now.upper)
        (nodes_of body.now)) params.now (values_in outer.now))) }
{
    let range = range_at(head, outer, params);
    walk_values(
        body,
        range.first,
        range.last,
        outer,
        params,
        unseen,
        visitor,
    );
}

/// Shows those of a loop's body at all values: at once where it can, but for the last.
#[cycle(walking)]
pub(crate) fn walk_values<V: Visitor>(
    body: &[Node],
    first: i128,
    last: i128,
    outer: &Outer,
    params: &[i64],
    unseen: bool,
    visitor: &mut V,
)
    requires { (x : ℤ) → first ≤ℤ x → x ≤ℤ last
        → CanWalk (nodes_of body.now) params.now (values_in outer.now ++ x ∷ []) }
    ensures { (l : List PlainInstance) → V.stands visitor.old l → V.stands visitor.new
        (l ++ map given (between (λ x. walk_all (nodes_of body.now) params.now (values_in outer.now ++ x ∷ []))
        first last)) }
{
    let start = skip_values(body, first, last, outer, params, visitor);
    walk_each(body, start, last, outer, params, unseen, visitor);
}

/// Shows those of a loop's body, value after value.
#[cycle(walking)]
fn walk_each<V: Visitor>(
    body: &[Node],
    first: i128,
    last: i128,
    outer: &Outer,
    params: &[i64],
    unseen: bool,
    visitor: &mut V,
)
    requires { (x : ℤ) → first ≤ℤ x → x ≤ℤ last
        → CanWalk (nodes_of body.now) params.now (values_in outer.now ++ x ∷ []) }
    ensures { (l : List PlainInstance) → V.stands visitor.old l → V.stands visitor.new
        (l ++ map given (between (λ x. walk_all (nodes_of body.now) params.now (values_in outer.now ++ x ∷ []))
        first last)) }
{
    let mut value = first;
    while value < last {
        walk_turn(body, value, outer, params, true, visitor);
        value += 1;
    }
    if value == last {
        walk_turn(body, value, outer, params, unseen, visitor);
    }
}

/// Shows those of a loop's body at a value.
#[cycle(walking)]
fn walk_turn<V: Visitor>(
    body: &[Node],
    value: i128,
    outer: &Outer,
    params: &[i64],
    unseen: bool,
    visitor: &mut V,
)
    requires { CanWalk (nodes_of body.now) params.now (values_in outer.now ++ value ∷ []) }
    ensures { (l : List PlainInstance) → V.stands visitor.old l → V.stands visitor.new
        (l ++ map given (walk_all (nodes_of body.now) params.now (values_in outer.now ++ value ∷ []))) }
{
    let within = Outer::Within(&*outer, value);
    walk_nodes(body, &within, params, unseen, visitor);
}

impl Tree {
    /// Shows `visitor` the instances that the tree visits for `params`, in turn. It takes no memory.
    pub fn walk<V: Visitor>(&self, params: &[i64], visitor: &mut V)
        requires { CanWalk (trees_in self.now) params.now [] }
        ensures { (l : List PlainInstance) → V.stands visitor.old l
            → V.stands visitor.new (l ++ visits (trees_in self.now) params.now) }
    {
        walk_nodes(
            self.nodes.as_slice(),
            &Outer::Row(&[]),
            params,
            false,
            visitor,
        );
    }
}
