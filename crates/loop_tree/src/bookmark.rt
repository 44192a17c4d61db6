//! Bookmarks: what is kept of a place in a tree's visits, in 16 bytes a mark, so that a spot can be put there again. Of
//! a stretch and a braid nothing is kept, so a place within one has none.
ghost use Rattle.std.specs.Prelude.{◌≡◌, ◌++◌, ◌∷◌, [], IfSome, IsTrue, List, length, map, true, ℤ};
ghost use Rattle.loop_tree.specs.steps.Chain.{values_in};
ghost use Rattle.loop_tree.specs.steps.Putting.{HasPut};
ghost use Rattle.loop_tree.specs.Bookmarks.{CanStand, IsBookmarkOf, kept_in, to_come_from, without_last};
ghost use Rattle.loop_tree.specs.Braids.{IsBraid};
ghost use Rattle.loop_tree.specs.Conditions.{CanWalk};
ghost use Rattle.loop_tree.specs.Spot.{deep_all};
ghost use Rattle.loop_tree.specs.SpotView.{IsSpotOf, mark_of, marks_of, to_come};
ghost use Rattle.loop_tree.specs.Tree.{Trees};
ghost use Rattle.loop_tree.specs.View.{nodes_of, trees_in};

use crate::braid::Braid;
use crate::outer::Outer;
use crate::passing::has_left;
use crate::ranges::range_at;
use crate::spot::{Mark, Spot};
use crate::stretch::Stretch;
use crate::tree::{Node, Tree};

/// What is kept of a mark.
#[derive(Clone, Copy)]
pub struct Step {
    pub place: u32,
    pub begun: bool,
    pub value: i64,
}

/// The step of a mark; None where a number has no room in it.
#[inline]
fn step_of(mark: &Mark) -> Option<Step>
    ensures { IfSome result (λ s. kept_in s ≡ without_last (mark_of mark.now)) }
{
    let Ok(place) = u32::try_from(mark.place) else {
        return None;
    };
    let Ok(value) = i64::try_from(mark.value) else {
        return None;
    };
    Some(Step {
        place,
        begun: mark.begun,
        value,
    })
}

/// Keeps marks in as many steps; false where a number has no room in one.
fn keep_marks(marks: &[Mark], steps: &mut [Step]) -> bool
    requires { length steps.old ≡ length marks.now }
    ensures room { length steps.new ≡ length steps.old }
    ensures kept { IsTrue result → map kept_in steps.new
        ≡ map (λ m. without_last (mark_of m)) marks.now }
{
    for at in 0..marks.len() {
        let Some(step) = step_of(&marks[at]) else {
            return false;
        };
        steps[at] = step;
    }
    true
}

/// The mark that a step keeps, but for its last value.
#[inline]
fn mark_in(step: &Step) -> Mark
    ensures { mark_of result ≡ kept_in step.now }
{
    Mark {
        place: step.place as usize,
        begun: step.begun,
        value: i128::from(step.value),
        last: 0,
    }
}

/// Puts back the marks that steps keep, but for their last values.
fn put_marks(steps: &[Step], marks: &mut [Mark])
    requires { length marks.old ≡ length steps.now }
    ensures room { length marks.new ≡ length marks.old }
    ensures kept { marks_of marks.new ≡ map kept_in steps.now }
{
    for at in 0..steps.len() {
        marks[at] = mark_in(&steps[at]);
    }
}

/// Puts the last values of marks right, by the bounds of the loops that were begun.
#[cycle(putting)]
fn put_lasts(nodes: &[Node], marks: &mut [Mark], outer: &Outer, params: &[i64])
    requires walk { CanWalk (nodes_of nodes.now) params.now (values_in outer.now) }
    requires stands { CanStand (nodes_of nodes.now) (marks_of marks.old) params.now (values_in outer.now) }
    ensures put { HasPut (nodes_of nodes.now) (marks_of marks.old) (marks_of marks.new) params.now
        (values_in outer.now) }
    ensures room { length marks.new ≡ length marks.old }
{
    match marks.split_first_mut() {
        None => {}
        Some((mark, deeper)) => put_at(nodes, mark, deeper, outer, params),
    }
}

/// The same where the first mark is told apart.
#[cycle(putting)]
fn put_at(nodes: &[Node], mark: &mut Mark, deeper: &mut [Mark], outer: &Outer, params: &[i64])
    requires walk { CanWalk (nodes_of nodes.now) params.now (values_in outer.now) }
    requires stands { CanStand (nodes_of nodes.now) (mark_of mark.old ∷ marks_of deeper.old) params.now
        (values_in outer.now) }
    ensures put { HasPut (nodes_of nodes.now) (mark_of mark.old ∷ marks_of deeper.old)
        (mark_of mark.new ∷ marks_of deeper.new) params.now (values_in outer.now) }
    ensures room { length deeper.new ≡ length deeper.old }
{
    if !mark.begun || nodes.len() <= mark.place {
        return;
    }
    match &nodes[mark.place] {
        Node::Loop(head, body) => {
            mark.last = range_at(head, outer, params).last;
            if mark.last < mark.value {
                return;
            }
            let within = Outer::Within(&*outer, mark.value);
            put_lasts(body, deeper, &within, params);
        }
        Node::Guard(_, body) => put_lasts(body, deeper, outer, params),
        Node::Instance(_) => {}
    }
}

impl Spot {
    /// Keeps its place in as many steps as it has marks; false where something is left of its stretch or its braid, or
    /// where a number has no room in a step.
    pub fn keep(&self, steps: &mut [Step]) -> bool
        requires room { length steps.old ≡ length self.now.marks.items }
        requires braid { IsBraid self.now.braid }
        ensures room { length steps.new ≡ length steps.old }
        ensures kept { IsTrue result → (ts : Trees) (params : List ℤ) → IsSpotOf ts params self.now
            → IsBookmarkOf ts params steps.new × (to_come_from ts params steps.new ≡ to_come ts params self.now) }
    {
        if has_left(&self.stretch, &self.braid) {
            return false;
        }
        keep_marks(self.marks.as_slice(), steps)
    }

    /// Goes to the place in the visits of `tree` for `params` that steps keep. It takes no memory.
    pub fn put(&mut self, tree: &Tree, params: &[i64], steps: &[Step])
        requires walk { CanWalk (trees_in tree.now) params.now [] }
        requires room { length self.old.marks.items ≡ deep_all (trees_in tree.now) }
        requires steps { IsBookmarkOf (trees_in tree.now) params.now steps.now }
        ensures spot { IsSpotOf (trees_in tree.now) params.now self.new }
        ensures rest { to_come (trees_in tree.now) params.now self.new
            ≡ to_come_from (trees_in tree.now) params.now steps.now }
    {
        self.stretch = Stretch::empty();
        self.braid = Braid::empty();
        put_marks(steps, self.marks.as_mut_slice());
        put_lasts(
            tree.nodes.as_slice(),
            self.marks.as_mut_slice(),
            &Outer::Row(&[]),
            params,
        );
    }
}
