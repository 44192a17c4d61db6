//! Leaves what is still to come within a loop, all at once: it tells how many instances these were, and the last of
//! them. Before that it can tell the last of them alone, which takes no longer than the tree is deep.
ghost use Rattle.std.specs.Prelude.{◌≡◌, ◌≤◌, ◌++◌, [], IfSome, List, length, take, ℤ};
ghost use Rattle.scop_syntax.specs.Members.{In};
ghost use Rattle.scop_syntax.specs.View.{instance_of};
ghost use Rattle.scop_syntax.specs.Walk.{Instance as PlainInstance};
ghost use Rattle.loop_tree.specs.steps.Going.{CanGo, Leads};
ghost use Rattle.loop_tree.specs.Braids.{left_of_braid};
ghost use Rattle.loop_tree.specs.Conditions.{CanWalk};
ghost use Rattle.loop_tree.specs.Passed.{AreRun, HasLeft, StandsFor};
ghost use Rattle.loop_tree.specs.Spot.{IsAt, rest_of};
ghost use Rattle.loop_tree.specs.SpotView.{IsSpotOf, marks_of, to_come};
ghost use Rattle.loop_tree.specs.Stretches.{left_of};
ghost use Rattle.loop_tree.specs.View.{nodes_of, trees_in};

use crate::near::{Near, body_at};
use crate::outer::{MOST_IN_ROW, Outer};
use crate::resting::rest_nodes;
use crate::spot::{Mark, Spot};
use crate::tally::{Last, Passed, Tally};
use crate::tree::{Node, Tree};
use scop_syntax::Instance;

/// The nodes in which the marks stand so many loops deep, or less deep where they do not lead so far through loops
/// that were begun, with the values of the loops round them in the row.
fn within_of<'a>(nodes: &'a [Node], marks: &[Mark], row: &mut [i128], level: usize) -> Near<'a>
    ensures marks { result.depth ≤ length marks.now }
    ensures row { result.depth ≤ length row.new }
    ensures leads { (params : List ℤ) → CanGo (nodes_of nodes.now) (marks_of marks.now) params []
        → Leads (nodes_of nodes.now) (marks_of marks.now) params (nodes_of result.nodes.now) result.depth
        (take result.depth row.new) }
{
    let mut at = nodes;
    let mut depth = 0;
    while depth < row.len() {
        if level <= depth || marks.len() <= depth {
            return Near { nodes: at, depth };
        }
        let mark = &marks[depth];
        let Some(body) = body_at(at, mark) else {
            return Near { nodes: at, depth };
        };
        row[depth] = mark.value;
        at = body;
        depth += 1;
    }
    Near { nodes: at, depth }
}

/// Stands behind all nodes.
#[inline]
fn pass_all(nodes: &[Node], marks: &mut [Mark])
    ensures room { length marks.new ≡ length marks.old }
    ensures rest { (params outer : List ℤ) → rest_of (nodes_of nodes.now) (marks_of marks.new) params outer ≡ [] }
    ensures stands { (params outer : List ℤ) → IsAt (nodes_of nodes.now) (marks_of marks.new) params outer }
{
    if let Some(mark) = marks.first_mut() {
        mark.place = nodes.len();
        mark.begun = false;
    }
}

/// How many instances a tally has, and the last of them; None where it has none or can't tell.
#[inline]
fn passed_in(tally: Tally) -> Option<Passed>
    ensures { (l : List PlainInstance) → StandsFor tally l
        → IfSome result (λ p. AreRun l p.count (instance_of p.last)) }
{
    match tally {
        Tally::Nothing => None,
        Tally::Unseen(_) => None,
        Tally::Seen(passed) => Some(passed),
        Tally::Lost => None,
    }
}

/// The last instance still to come of the nodes in which the marks stand so many loops deep; None where they do not
/// lead so far, where there is none, or where it was not looked for.
fn last_nodes(nodes: &[Node], marks: &[Mark], params: &[i64], level: usize) -> Option<Instance>
    requires { CanGo (nodes_of nodes.now) (marks_of marks.now) params.now [] }
    ensures { IfSome result (λ i. In (instance_of i) (rest_of (nodes_of nodes.now) (marks_of marks.now) params.now [])) }
{
    let mut row = [0; MOST_IN_ROW];
    let at = within_of(nodes, marks, &mut row, level);
    if at.depth != level {
        return None;
    }
    let inner = marks.split_at(at.depth).1;
    let outer = Outer::Row(row.split_at(at.depth).0);
    let mut last = Last { instance: None };
    rest_nodes(at.nodes, inner, &outer, params, false, &mut last);
    last.instance
}

/// Leaves what is still to come of the nodes in which the marks stand so many loops deep; None also where they do not
/// lead so far.
fn leave_nodes(nodes: &[Node], marks: &mut [Mark], params: &[i64], level: usize) -> Option<Passed>
    requires { CanGo (nodes_of nodes.now) (marks_of marks.old) params.now [] }
    ensures left { IfSome result (λ p. HasLeft (rest_of (nodes_of nodes.now) (marks_of marks.old) params.now []) p.count
        (instance_of p.last) (rest_of (nodes_of nodes.now) (marks_of marks.new) params.now [])) }
    ensures stands { IsAt (nodes_of nodes.now) (marks_of marks.new) params.now [] }
    ensures room { length marks.new ≡ length marks.old }
{
    let mut row = [0; MOST_IN_ROW];
    let at = within_of(nodes, marks, &mut row, level);
    if at.depth != level {
        return None;
    }
    let (_, inner) = marks.split_at_mut(at.depth);
    let outer = Outer::Row(row.split_at(at.depth).0);
    let mut tally = Tally::Nothing;
    rest_nodes(at.nodes, inner, &outer, params, false, &mut tally);
    pass_all(at.nodes, inner);
    passed_in(tally)
}

impl Spot {
    /// The last instance still to come of the nodes in which it stands `level` loops deep; None where it does not stand
    /// so far in, where there is none, or where it was not looked for.
    pub fn last_within(&self, tree: &Tree, params: &[i64], level: usize) -> Option<Instance>
        requires walk { CanWalk (trees_in tree.now) params.now [] }
        requires spot { IsSpotOf (trees_in tree.now) params.now self.now }
        ensures { IfSome result (λ i. In (instance_of i) (to_come (trees_in tree.now) params.now self.now)) }
    {
        last_nodes(tree.nodes.as_slice(), self.marks.as_slice(), params, level)
    }

    /// Leaves all that is still to come of the nodes in which it stands `level` loops deep. It tells how many instances
    /// it passed by, and the last of them; None where it does not stand so far in, where there was none, where the last
    /// was not looked at, or where they were too many to count: then its place is any.
    pub fn leave(&mut self, tree: &Tree, params: &[i64], level: usize) -> Option<Passed>
        requires walk { CanWalk (trees_in tree.now) params.now [] }
        requires spot { IsSpotOf (trees_in tree.now) params.now self.old }
        requires spent { left_of self.old.stretch ++ left_of_braid self.old.braid ≡ [] }
        ensures left { IfSome result (λ p. HasLeft (to_come (trees_in tree.now) params.now self.old) p.count
            (instance_of p.last) (to_come (trees_in tree.now) params.now self.new)) }
        ensures spot { IfSome result (λ _. IsSpotOf (trees_in tree.now) params.now self.new) }
        ensures room { length self.new.marks.items ≡ length self.old.marks.items }
    {
        leave_nodes(
            tree.nodes.as_slice(),
            self.marks.as_mut_slice(),
            params,
            level,
        )
    }
}
