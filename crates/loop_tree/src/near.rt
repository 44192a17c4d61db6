//! The innermost loop of a place that has values left, as seen from its marks: the search for the next instance begins
//! there, and goes by the loops round it, whose values are laid in a row.
ghost use Rattle.std.specs.Prelude.{◌≡◌, ◌≤◌, ◌⊎◌, [], List, IfSome, length, take, ℤ};
ghost use Rattle.loop_tree.specs.steps.Going.{CanGo, Leads, Within};
ghost use Rattle.loop_tree.specs.SpotView.{mark_of, marks_of};
ghost use Rattle.loop_tree.specs.View.{nodes_of};

use crate::spot::Mark;
use crate::tree::Node;

/// Nodes that a place stands in, and how many loops stand round them.
#[derive(Clone, Copy)]
pub struct Near<'a> {
    pub nodes: &'a [Node],
    pub depth: usize,
}

/// The body of the loop at a mark, where that was begun and is at no value behind its last.
#[inline]
pub(crate) fn body_at<'a>(nodes: &'a [Node], mark: &Mark) -> Option<&'a [Node]>
    ensures { IfSome result (λ body. Within (nodes_of nodes.now) (mark_of mark.now) mark.now.value (nodes_of body.now)) }
{
    if !mark.begun || nodes.len() <= mark.place {
        return None;
    }
    if mark.last < mark.value {
        return None;
    }
    match &nodes[mark.place] {
        Node::Loop(_, body) => Some(body),
        Node::Guard(_, _) => None,
        Node::Instance(_) => None,
    }
}

/// The place itself, where a mark's loop has values left; else the one that was found further out.
#[inline]
fn nearer<'a>(found: Near<'a>, nodes: &'a [Node], depth: usize, mark: &Mark) -> Near<'a>
    ensures { ((result.depth ≡ depth) × (result.nodes.now ≡ nodes.now))
        ⊎ ((result.depth ≡ found.entry.depth) × (result.nodes.now ≡ found.entry.nodes.now)) }
{
    if mark.value < mark.last {
        return Near { nodes, depth };
    }
    found
}

/// The innermost nodes at a loop with values left, with the values of the loops round them in the row; all nodes where
/// there is none.
pub(crate) fn near_of<'a>(nodes: &'a [Node], marks: &[Mark], row: &mut [i128]) -> Near<'a>
    ensures marks { result.depth ≤ length marks.now }
    ensures row { result.depth ≤ length row.new }
    ensures leads { (params : List ℤ) → CanGo (nodes_of nodes.now) (marks_of marks.now) params []
        → Leads (nodes_of nodes.now) (marks_of marks.now) params (nodes_of result.nodes.now) result.depth
        (take result.depth row.new) }
{
    let mut at = nodes;
    let mut depth = 0;
    let mut found = Near { nodes, depth };
    while depth < row.len() {
        if marks.len() <= depth {
            return found;
        }
        let mark = &marks[depth];
        let Some(body) = body_at(at, mark) else {
            return found;
        };
        found = nearer(found, at, depth, mark);
        row[depth] = mark.value;
        at = body;
        depth += 1;
    }
    found
}
