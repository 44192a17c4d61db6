//! The words of a run, and the passes with which its workers step on them.
ghost use Rattle.std.specs.Prelude.{◌≡◌, MatchOption};

use crate::plan::Plan;
use crate::view::{Key, View, WordRule};
use crate::worker::{Stage, Worker};
use atomic_table::{Seat, Table};
use scop_syntax::Instance;
use std::alloc::Global;
use tile_list::tiles_stand_one_behind_another;
use tile_table::MARGIN;

/// The plan, and the table of all words: the count of claims, the count of finished tiles, the cells, and behind these a
/// counter for each tile where tiles are released one by one.
#[derive(Drop)]
pub struct Words<'a> {
    pub plan: Plan<'a>,
    pub table: Table<(), View, Key<'a>, WordRule, Global>,
}

/// A seat at the table, and where the worker that has it stands. Passes lie side by side, so each has a margin.
#[derive(Drop)]
pub struct Pass {
    pub seat: Seat<(), View>,
    pub worker: Worker,
    pub margin: [u64; MARGIN],
}

impl Pass {
    ghost use Rattle.tile_core.specs.Passes.{HasNoneNext, IsNextIn, IsPass};

    /// A pass of this seat and this worker.
    pub fn of(seat: Seat<(), View>, worker: Worker) -> Pass
        ensures seat { result.seat ≡ seat }
        ensures worker { result.worker ≡ worker }
    {
        Pass {
            seat,
            worker,
            margin: [0; MARGIN],
        }
    }

    /// The instance that comes next in the tile that the pass holds, one of these words; None exactly where it holds none
    /// or nothing of it is left. It takes no memory.
    pub fn instance(&self, words: &Words) -> Option<Instance>
        requires pass { IsPass words.now self.now }
        ensures { MatchOption result (HasNoneNext words.now.plan self.now.worker.stage)
            (IsNextIn words.now.plan self.now.worker.stage) }
    {
        tiles_stand_one_behind_another();
        match self.worker.stage {
            Stage::Idle => None,
            Stage::Ended => None,
            Stage::Holding(tile) => Some(words.plan.tile(tile).first),
            Stage::Working(_, _) => self.worker.due(&words.plan).copied(),
        }
    }
}
