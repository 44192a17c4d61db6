//! A statement instance as code holds it: the statement's number and the turn of each loop round it.
ghost use Rattle.std.specs.Prelude.{◌≡◌, ◌≤◌, length};

use crate::limits::MOST_LOOPS;

/// The statement's number in textual order from 0, how many loops stand round it, and the turn of
/// each from 0, outermost first; the entries behind are zero.
#[derive(Clone, Copy)]
pub struct Instance {
    pub statement: usize,
    pub loops: usize,
    pub turns: [i64; MOST_LOOPS],
    ghost few: { loops ≤ 5 },
}

impl Instance {
    ghost use Rattle.scop_syntax.specs.View.{instance_of};

    /// The instance of `statement` at these turns.
    pub fn of(statement: usize, turns: &[i64]) -> Self
        requires { length turns.now ≤ 5 }
        ensures { instance_of result ≡ record { number = statement; turns = turns.now } }
    {
        let mut kept = [0; MOST_LOOPS];
        kept[..turns.len()].copy_from_slice(turns);
        Instance {
            statement,
            loops: turns.len(),
            turns: kept,
        }
    }

    /// The turn of each loop round the statement, outermost first.
    pub fn turns(&self) -> &[i64]
        ensures { result.now ≡ (instance_of self.now).turns }
    {
        &self.turns[..self.loops]
    }
}
