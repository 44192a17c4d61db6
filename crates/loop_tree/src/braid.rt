//! Braids of a tree's visits: the instances of a loop with a few instances in it and nothing else. Each of these gives
//! a stretch, and the stretches take turns.
ghost use Rattle.std.specs.Prelude.{◌≡◌, ◌+◌, ◌<◌, ◌⊎◌, ◌++◌, [], IsNone};
ghost use Rattle.loop_tree.specs.Braids.{IsBraid, left_of_braid};
ghost use Rattle.loop_tree.specs.SpotView.{found_in};

use crate::stretch::Stretch;
use scop_syntax::Instance;

/// How many stretches may take turns.
pub const MOST_STRANDS: usize = 4;

/// Stretches that take turns: how many of them do, and whose turn it is.
#[derive(Clone, Copy)]
pub struct Braid {
    pub strands: [Stretch; MOST_STRANDS],
    pub count: usize,
    pub at: usize,
}

/// Whose turn it is behind one of so many.
#[inline]
fn turn_behind(at: usize, count: usize) -> usize
    requires { at < count }
    ensures turn { result < count }
    ensures next { (result ≡ at + 1) ⊎ ((result ≡ 0) × (count ≡ at + 1)) }
{
    if at + 1 < count { at + 1 } else { 0 }
}

impl Braid {
    /// One with nothing left.
    pub(crate) fn empty() -> Braid
        ensures braid { IsBraid result }
        ensures nothing { left_of_braid result ≡ [] }
    {
        Braid {
            strands: [Stretch::empty(); MOST_STRANDS],
            count: 1,
            at: 0,
        }
    }

    /// Takes the first instance that is left, if there is one.
    #[inline]
    pub(crate) fn next(&mut self) -> Option<Instance>
        requires { IsBraid self.old }
        ensures rest { left_of_braid self.old ≡ found_in result ++ left_of_braid self.new }
        ensures none { IsNone result → left_of_braid self.old ≡ [] }
        ensures braid { IsBraid self.new }
    {
        let strand = &mut self.strands[self.at];
        if strand.left == 0 {
            return None;
        }
        let found = strand.step();
        self.at = turn_behind(self.at, self.count);
        Some(found)
    }
}
