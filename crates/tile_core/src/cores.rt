//! The core: a plan, and the state that its events lead to.
ghost use Rattle.std.specs.Prelude.{◌≡◌, ℕ, ◌<◌, ◌≤◌, All, IfErr, IfOk, List, length, map};
ghost use Rattle.tile_events.specs.Core.{replay as replayed, step as stepped};
ghost use Rattle.tile_core.specs.Acts.{DoesStretch, IsAtInstance};
ghost use Rattle.tile_core.specs.Boards.{IsRun, event_of, opening_state, seen_of};
ghost use Rattle.tile_core.specs.Plans.{HasRest, IsPlan, plan_of, shape_of, walk_shape};

use crate::board::{Board, Event, NotEnabled, Seen};
use crate::plan::Plan;
use crate::plan_laws::plans_are_good;
use crate::worker::idle_workers;
use std::alloc::{AllocError, Global};
use std::mem;
use tile_events::{all_interleavings_agree, events_keep_count};

/// An event with the worker whose event it is.
#[derive(Clone, Copy)]
pub struct Turn {
    pub worker: usize,
    pub event: Event,
}

/// A plan, and the state of a run of it.
#[derive(Drop)]
pub struct Core<'a> {
    plan: Plan<'a>,
    board: Board,
}

impl<'a> Core<'a> {
    ghost use Rattle.tile_core.specs.Cores.{IsCore, IsTurn, ReadsExecuted, plan_in, state_in, turn_of};

    /// The core at the start, which takes over these cells, those of all arrays one behind another, and behind them a
    /// counter for each tile where tiles are released one by one.
    ///
    /// # Errors
    /// `AllocError`; the cells are then as they were.
    pub fn of(
        alloc: Global,
        plan: &Plan<'a>,
        cells: &mut Vec<u64>,
        workers: usize,
    ) -> Result<Core<'a>, AllocError>
        requires plan { IsPlan plan.now }
        requires cells { length cells.old.items ≡ (shape_of plan.now).cells }
        requires rest { HasRest plan.now cells.old.items }
        requires workers { workers ≤ 64 }
        ensures core { IfOk result IsCore }
        ensures plan { IfOk result (λ c. plan_in c ≡ plan.now) }
        ensures state { IfOk result (λ c. state_in c ≡ opening_state cells.old.items workers) }
        ensures run { IfOk result (λ c. IsRun (plan_of plan.now cells.old.items) (state_in c)) }
        ensures unchanged { IfErr result (λ _. cells.new.items ≡ cells.old.items) }
    {
        plans_are_good();
        all_interleavings_agree();
        let all = idle_workers(alloc, plan, workers)?;
        let row = mem::replace(cells, Vec::new(alloc));
        Ok(Core {
            plan: *plan,
            board: Board {
                claims: 0,
                finished: 0,
                cells: row,
                workers: all,
            },
        })
    }

    /// One event of a worker.
    ///
    /// # Errors
    /// `NotEnabled` exactly where it is none that the worker may do now; then nothing has changed.
    pub fn step(&mut self, worker: usize, event: Event) -> Result<Seen, NotEnabled>
        requires core { IsCore self.old }
        requires worker { worker < length (state_in self.old).workers }
        ensures core { IsCore self.new }
        ensures plan { plan_in self.new ≡ plan_in self.old }
        ensures workers { length (state_in self.new).workers ≡ length (state_in self.old).workers }
        ensures step { stepped (shape_of (plan_in self.old)) (state_in self.old) worker (event_of event)
            ≡ (state_in self.new, seen_of result) }
        ensures run { (opening : List ℕ) → IsRun (plan_of (plan_in self.old) opening) (state_in self.old)
            → IsRun (plan_of (plan_in self.old) opening) (state_in self.new) }
        ensures reads { (opening : List ℕ) → IsRun (plan_of (plan_in self.old) opening) (state_in self.old)
            → ReadsExecuted (plan_of (plan_in self.old) opening) (state_in self.old) worker result }
    {
        all_interleavings_agree();
        events_keep_count();
        self.board.act(&self.plan, worker, event)
    }

    /// Does the instances that come next in the worker's tile, one at least, each by its events, where the worker is at one
    /// for which it has read nothing; tells how many it did. Elsewhere it is 0, and nothing has changed.
    pub fn do_stretch(&mut self, worker: usize) -> usize
        requires core { IsCore self.old }
        requires worker { worker < length (state_in self.old).workers }
        ensures core { IsCore self.new }
        ensures plan { plan_in self.new ≡ plan_in self.old }
        ensures workers { length (state_in self.new).workers ≡ length (state_in self.old).workers }
        ensures stretch { (tile k : ℕ) → IsAtInstance (walk_shape (plan_in self.old)) (state_in self.old) worker tile k
            → DoesStretch (walk_shape (plan_in self.old)) (shape_of (plan_in self.old)) (state_in self.old) worker tile
            k result (state_in self.new) }
        ensures none { ((tile k : ℕ)
            → IsAtInstance (walk_shape (plan_in self.old)) (state_in self.old) worker tile k → ⊥)
            → (result ≡ 0) × (state_in self.new ≡ state_in self.old) }
        ensures run { (opening : List ℕ) → IsRun (plan_of (plan_in self.old) opening) (state_in self.old)
            → IsRun (plan_of (plan_in self.old) opening) (state_in self.new) }
    {
        all_interleavings_agree();
        events_keep_count();
        self.board.do_stretch(&self.plan, worker)
    }

    /// Events of any workers, one after another.
    pub fn replay(&mut self, turns: &[Turn])
        requires core { IsCore self.old }
        requires workers { All (IsTurn (length (state_in self.old).workers)) turns.now }
        ensures core { IsCore self.new }
        ensures plan { plan_in self.new ≡ plan_in self.old }
        ensures workers { length (state_in self.new).workers ≡ length (state_in self.old).workers }
        ensures replay { state_in self.new
            ≡ replayed (shape_of (plan_in self.old)) (state_in self.old) (map turn_of turns.now) }
        ensures run { (opening : List ℕ) → IsRun (plan_of (plan_in self.old) opening) (state_in self.old)
            → IsRun (plan_of (plan_in self.old) opening) (state_in self.new) }
    {
        for turn in turns {
            let _ = self.step(turn.worker, turn.event);
        }
    }

    /// The cells as they are.
    pub fn into_cells(self) -> Vec<u64>
        ensures { result.items ≡ (state_in self.entry).cells }
    {
        let Core { plan: _, board } = self;
        let Board {
            claims: _,
            finished: _,
            cells,
            workers,
        } = board;
        drop(workers);
        cells
    }
}
