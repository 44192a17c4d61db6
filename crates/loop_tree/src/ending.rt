//! Whether a place has nothing to come, as seen from its marks alone: it stands at the last node of its sequence, and
//! that is a leaf, or a loop at its last value whose body has nothing to come.
ghost use Rattle.std.specs.Prelude.{◌≡◌, ◌∷◌, [], IsTrue, List, true, ℤ};
ghost use Rattle.loop_tree.specs.Spot.{IsAt, mark as marked_at, rest_of};
ghost use Rattle.loop_tree.specs.SpotView.{mark_of, marks_of};
ghost use Rattle.loop_tree.specs.Tree.{more, none};
ghost use Rattle.loop_tree.specs.View.{nodes_of, tree_of};

use crate::spot::Mark;
use crate::tree::Node;

/// Whether nothing is to come of nodes at these marks.
#[cycle(ending)]
pub(crate) fn is_ended(nodes: &[Node], marks: &[Mark]) -> bool
    ensures { IsTrue result → (params outer : List ℤ) → IsAt (nodes_of nodes.now) (marks_of marks.now) params outer
        → rest_of (nodes_of nodes.now) (marks_of marks.now) params outer ≡ [] }
{
    match marks.split_first() {
        None => false,
        Some((mark, deeper)) => ends_at(nodes, mark, deeper),
    }
}

/// The same where the first mark is told apart.
#[cycle(ending)]
fn ends_at(nodes: &[Node], mark: &Mark, deeper: &[Mark]) -> bool
    ensures { IsTrue result → (params outer : List ℤ)
        → IsAt (nodes_of nodes.now) (mark_of mark.now ∷ marks_of deeper.now) params outer
        → rest_of (nodes_of nodes.now) (mark_of mark.now ∷ marks_of deeper.now) params outer ≡ [] }
{
    if !mark.begun || nodes.len() <= mark.place {
        return false;
    }
    if mark.place + 1 < nodes.len() {
        return false;
    }
    node_ends(&nodes[mark.place], mark, deeper)
}

/// Whether nothing is to come of a node that was begun.
#[cycle(ending)]
fn node_ends(node: &Node, mark: &Mark, deeper: &[Mark]) -> bool
    ensures { IsTrue result → (params outer : List ℤ)
        → IsAt (more (tree_of node.now) none) (marked_at 0 true mark.now.value mark.now.last ∷ marks_of deeper.now) params
        outer
        → rest_of (more (tree_of node.now) none) (marked_at 0 true mark.now.value mark.now.last ∷ marks_of deeper.now)
        params outer ≡ [] }
{
    match node {
        Node::Loop(_, body) => {
            if mark.value < mark.last {
                return false;
            }
            is_ended(body, deeper)
        }
        Node::Guard(_, _) => false,
        Node::Instance(_) => true,
    }
}
