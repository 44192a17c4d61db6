//! What is still to come behind marks, shown to a visitor in turn.
ghost use Rattle.std.specs.Prelude.{◌≡◌, ◌≤ℤ◌, ◌++◌, ◌∷◌, [], List, drop, map, true, ℤ};
ghost use Rattle.scop_syntax.specs.Walk.{Instance as PlainInstance};
ghost use Rattle.loop_tree.specs.steps.Chain.{values_in};
ghost use Rattle.loop_tree.specs.steps.Going.{rest_from};
ghost use Rattle.loop_tree.specs.Conditions.{CanWalk};
ghost use Rattle.loop_tree.specs.Spot.{IsAt, IsWithin, rest_in, rest_of};
ghost use Rattle.loop_tree.specs.SpotView.{mark_of, marks_of};
ghost use Rattle.loop_tree.specs.Tree.{more, none};
ghost use Rattle.loop_tree.specs.View.{nodes_of, tree_of};

use crate::outer::Outer;
use crate::spot::Mark;
use crate::tree::Node;
use crate::visitor::{Visitor, passes_by};
use crate::walking::{last_leaf, walk_nodes, walk_values};

/// The nodes from a place on.
#[inline]
fn nodes_from(nodes: &[Node], place: usize) -> &[Node]
    ensures { result.now ≡ drop place nodes.now }
{
    if nodes.len() <= place {
        return &[];
    }
    nodes.split_at(place).1
}

/// Shows the instances still to come of nodes at these marks, in turn. The last of them need not be looked at where it
/// is unseen.
#[cycle(resting)]
pub(crate) fn rest_nodes<V: Visitor>(
    nodes: &[Node],
    marks: &[Mark],
    outer: &Outer,
    params: &[i64],
    unseen: bool,
    visitor: &mut V,
)
    requires walk { CanWalk (nodes_of nodes.now) params.now (values_in outer.now) }
    requires at { IsAt (nodes_of nodes.now) (marks_of marks.now) params.now (values_in outer.now) }
    ensures { (l : List PlainInstance) → V.stands visitor.old l → V.stands visitor.new
        (l ++ rest_of (nodes_of nodes.now) (marks_of marks.now) params.now (values_in outer.now)) }
{
    match marks.split_first() {
        None => {}
        Some((mark, deeper)) => rest_at(nodes, mark, deeper, outer, params, unseen, visitor),
    }
}

/// The same where the first mark is told apart.
#[cycle(resting)]
fn rest_at<V: Visitor>(
    nodes: &[Node],
    mark: &Mark,
    deeper: &[Mark],
    outer: &Outer,
    params: &[i64],
    unseen: bool,
    visitor: &mut V,
)
    requires walk { CanWalk (nodes_of nodes.now) params.now (values_in outer.now) }
    requires at { IsAt (nodes_of nodes.now) (mark_of mark.now ∷ marks_of deeper.now) params.now (values_in outer.now) }
    ensures { (l : List PlainInstance) → V.stands visitor.old l → V.stands visitor.new (l ++ rest_of
        (nodes_of nodes.now) (mark_of mark.now ∷ marks_of deeper.now) params.now (values_in outer.now)) }
{
    if !mark.begun {
        walk_nodes(
            nodes_from(nodes, mark.place),
            outer,
            params,
            unseen,
            visitor,
        );
        return;
    }
    if nodes.len() <= mark.place {
        return;
    }
    rest_node(
        &nodes[mark.place],
        mark,
        deeper,
        outer,
        params,
        unseen || mark.place < last_leaf(nodes),
        visitor,
    );
    walk_nodes(
        nodes_from(nodes, mark.place + 1),
        outer,
        params,
        unseen,
        visitor,
    );
}

/// Shows those of a node that was begun.
#[cycle(resting)]
fn rest_node<V: Visitor>(
    node: &Node,
    mark: &Mark,
    deeper: &[Mark],
    outer: &Outer,
    params: &[i64],
    unseen: bool,
    visitor: &mut V,
)
    requires walk { CanWalk (more (tree_of node.now) none) params.now (values_in outer.now) }
    requires within { IsWithin (tree_of node.now) mark.now.value mark.now.last (marks_of deeper.now) params.now
        (values_in outer.now) }
    ensures { (l : List PlainInstance) → V.stands visitor.old l → V.stands visitor.new (l ++ rest_in
        (tree_of node.now) mark.now.value (marks_of deeper.now) params.now (values_in outer.now)) }
{
    if passes_by(unseen, visitor) {
        return;
    }
    match node {
        Node::Loop(_, body) => rest_loop(body, mark, deeper, outer, params, unseen, visitor),
        Node::Guard(_, body) => rest_nodes(body, deeper, outer, params, unseen, visitor),
        Node::Instance(_) => {}
    }
}

/// Shows those of a loop's body from the value at a mark on.
#[cycle(resting)]
fn rest_loop<V: Visitor>(
    body: &[Node],
    mark: &Mark,
    deeper: &[Mark],
    outer: &Outer,
    params: &[i64],
    unseen: bool,
    visitor: &mut V,
)
    requires walk { (y : ℤ) → mark.now.value ≤ℤ y → y ≤ℤ mark.now.last
        → CanWalk (nodes_of body.now) params.now (values_in outer.now ++ y ∷ []) }
    requires at { mark.now.value ≤ℤ mark.now.last → IsAt (nodes_of body.now) (marks_of deeper.now) params.now
        (values_in outer.now ++ mark.now.value ∷ []) }
    ensures { (l : List PlainInstance) → V.stands visitor.old l → V.stands visitor.new (l ++ rest_from
        (nodes_of body.now) (marks_of deeper.now) mark.now.value mark.now.last params.now (values_in outer.now)) }
{
    if mark.last < mark.value {
        return;
    }
    rest_turn(
        body,
        mark.value,
        deeper,
        outer,
        params,
        unseen || mark.value < mark.last,
        visitor,
    );
    if mark.value < mark.last {
        walk_values(
            body,
            mark.value + 1,
            mark.last,
            outer,
            params,
            unseen,
            visitor,
        );
    }
}

/// Shows those of a loop's body at a value.
#[cycle(resting)]
fn rest_turn<V: Visitor>(
    body: &[Node],
    value: i128,
    deeper: &[Mark],
    outer: &Outer,
    params: &[i64],
    unseen: bool,
    visitor: &mut V,
)
    requires walk { CanWalk (nodes_of body.now) params.now (values_in outer.now ++ value ∷ []) }
    requires at { IsAt (nodes_of body.now) (marks_of deeper.now) params.now (values_in outer.now ++ value ∷ []) }
    ensures { (l : List PlainInstance) → V.stands visitor.old l → V.stands visitor.new (l ++ rest_of
        (nodes_of body.now) (marks_of deeper.now) params.now (values_in outer.now ++ value ∷ [])) }
{
    let within = Outer::Within(&*outer, value);
    rest_nodes(body, deeper, &within, params, unseen, visitor);
}
