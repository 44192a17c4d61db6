//! Visitors that count: how many instances were passed by, and the last of them.
ghost use Rattle.std.specs.Prelude.{◌≡◌, ◌++◌, IfSome, List, length};
ghost use Rattle.scop_syntax.specs.Members.{In};
ghost use Rattle.scop_syntax.specs.View.{instance_of};
ghost use Rattle.scop_syntax.specs.Walk.{Instance as PlainInstance};
ghost use Rattle.loop_tree.specs.Passed.{StandsFor};

use crate::visitor::Visitor;
use scop_syntax::Instance;

/// So many instances, at least one, and the last of them.
#[derive(Clone, Copy)]
pub struct Passed {
    pub count: u64,
    pub last: Instance,
}

/// What was passed by so far: nothing, so many of which the last was not looked at, so many of which it was, or more
/// than can be counted.
#[derive(Clone, Copy)]
pub enum Tally {
    Nothing,
    Unseen(u64),
    Seen(Passed),
    Lost,
}

/// The last instance that was shown; None where there was none, or it was not looked at.
#[derive(Clone, Copy)]
pub struct Last {
    pub instance: Option<Instance>,
}

/// How many a tally has.
#[inline]
fn count_of(tally: &Tally) -> Option<u64>
    ensures { (l : List PlainInstance) → StandsFor tally.now l → IfSome result (λ n. length l ≡ n) }
{
    match tally {
        Tally::Nothing => Some(0),
        Tally::Unseen(count) => Some(*count),
        Tally::Seen(passed) => Some(passed.count),
        Tally::Lost => None,
    }
}

/// How many it has with so many more.
#[inline]
fn count_with(tally: &Tally, more: u64) -> Option<u64>
    ensures { (l part : List PlainInstance) → StandsFor tally.now l → length part ≡ more
        → IfSome result (λ n. length (l ++ part) ≡ n) }
{
    match count_of(tally) {
        None => None,
        Some(count) => count.checked_add(more),
    }
}

impl Visitor for Tally {
    ghost stands = { StandsFor };

    #[inline]
    fn visit(&mut self, instance: Instance) {
        *self = match count_with(self, 1) {
            None => Tally::Lost,
            Some(count) => Tally::Seen(Passed {
                count,
                last: instance,
            }),
        };
    }

    #[inline]
    fn skip(&mut self, count: u64) -> bool {
        if count == 0 {
            return true;
        }
        *self = match count_with(self, count) {
            None => Tally::Lost,
            Some(count) => Tally::Unseen(count),
        };
        true
    }

    #[inline]
    fn pass_by(&mut self) -> bool {
        false
    }
}

impl Visitor for Last {
    ghost stands = { λ last l. IfSome last.instance (λ i. In (instance_of i) l) };

    #[inline]
    fn visit(&mut self, instance: Instance) {
        self.instance = Some(instance);
    }

    #[inline]
    fn skip(&mut self, count: u64) -> bool {
        self.instance = None;
        true
    }

    #[inline]
    fn pass_by(&mut self) -> bool {
        self.instance = None;
        true
    }
}
