//! Whole rounds of a braid that a worker has ahead, done on a row of cells by a desk for each strand.
ghost use Rattle.std.specs.Prelude.{◌≡◌, ◌+◌, ◌*◌, ◌<◌, ◌≤◌, [], ℕ, length, suc};
ghost use Rattle.tile_table.specs.Desks.{HasRoomForAll};
ghost use Rattle.tile_core.specs.Plans.{IsPlan, plain_shape, walk_shape};
ghost use Rattle.tile_core.specs.Strands.{AreLaid, HaveRows, IsLaidFor, IsRound, StandsInRound};
ghost use Rattle.tile_core.specs.Stretches.{IsWoven};
ghost use Rattle.tile_core.specs.Workers.{IsWorker};
ghost use Rattle.tile_core.specs.declared.worker.Stage.TheVariants as stage_of;
ghost use Rattle.tile_core.specs.steps.Acts.{after_instances};

use crate::plan::Plan;
use crate::plan_laws::rows_tell_instances;
use crate::stretching::{do_ahead, do_laid};
use crate::worker::Worker;
use loop_tree::Stretch;
use tile_table::{Desk, Table};

/// Lays a desk for what a strand gives first.
fn lay_strand(table: &Table, strand: &Stretch, desk: &mut Desk)
    requires statement { strand.now.before.statement < length table.now.rows.items }
    requires room { HasRoomForAll table.now desk.old }
    ensures laid { IsLaidFor table.now strand.now 0 desk.new }
    ensures room { HasRoomForAll table.now desk.new }
{
    let row = table.row(strand.before.statement);
    row.lay(
        desk,
        strand.before.turns(),
        &strand.steps[..strand.before.loops],
    );
    row.go_on(desk);
}

impl Worker {
    /// Lays the desks of its braid's strands for what these give first. Nothing else of it changes.
    pub fn lay_strands(&mut self, plan: &Plan)
        requires worker { IsWorker plan.now self.old }
        requires rows { HaveRows plan.now.table.now self.old.spot.braid }
        ensures laid { AreLaid plan.now.table.now self.old.spot.braid 0 self.old.spot.braid.count 0
            self.new.desks.items }
        ensures same { self.new ≡ record self.old { desks = self.new.desks } }
        ensures worker { IsWorker plan.now self.new }
    {
        for at in 0..self.spot.braid.count {
            let strand = self.spot.braid.strands[at];
            lay_strand(plan.table, &strand, &mut self.desks[at]);
        }
    }
}

/// Does what each strand of the worker's braid gives in a round, in turn, and takes its desk to the next round.
fn do_round(cells: &mut [u64], plan: &Plan, worker: &mut Worker)
    requires plan { IsPlan plan.now }
    requires worker { IsWorker plan.now worker.old }
    requires stands { StandsInRound plan.now worker.old.spot.braid worker.old.desks.items }
    requires cells { (plain_shape plan.now).cells ≤ length cells.old }
    ensures cells { (round t k : ℕ)
        → IsRound plan.now worker.old.spot.braid round t k worker.old.desks.items
        → cells.new ≡ after_instances (plain_shape plan.now) t k worker.old.spot.braid.count cells.old }
    ensures laid { (round : ℕ) → AreLaid plan.now.table.now worker.old.spot.braid 0 worker.old.spot.braid.count
        round worker.old.desks.items
        → AreLaid plan.now.table.now worker.old.spot.braid 0 worker.old.spot.braid.count (suc round)
        worker.new.desks.items }
    ensures same { worker.new ≡ record worker.old { desks = worker.new.desks } }
    ensures worker { IsWorker plan.now worker.new }
{
    rows_tell_instances();
    for at in 0..worker.spot.braid.count {
        let statement = worker.spot.braid.strands[at].before.statement;
        do_laid(cells, plan.table.row(statement), &mut worker.desks[at]);
    }
}

/// Does so many whole rounds that the worker has ahead. Of the worker nothing but its desks changes.
fn do_rounds(cells: &mut [u64], plan: &Plan, worker: &mut Worker, rounds: usize)
    requires plan { IsPlan plan.now }
    requires worker { IsWorker plan.now worker.old }
    requires woven { IsWoven plan.now worker.old.stage worker.old.next worker.old.spot rounds }
    requires cells { (plain_shape plan.now).cells ≤ length cells.old }
    ensures cells { (t k : ℕ) → worker.old.stage ≡ stage_of.Working t k
        → cells.new ≡ after_instances (plain_shape plan.now) t (suc k) (rounds * worker.old.spot.braid.count) cells.old }
    ensures same { worker.new ≡ record worker.old { desks = worker.new.desks } }
    ensures worker { IsWorker plan.now worker.new }
{
    rows_tell_instances();
    worker.lay_strands(plan);
    for _ in 0..rounds {
        do_round(cells, plan, worker);
    }
}

/// Does the worker's next instance and so many whole rounds behind it, and goes on behind them; tells how many instances
/// these are.
pub(crate) fn do_woven(cells: &mut [u64], plan: &Plan, worker: &mut Worker, rounds: usize) -> usize
    requires plan { IsPlan plan.now }
    requires worker { IsWorker plan.now worker.old }
    requires woven { IsWoven plan.now worker.old.stage worker.old.next worker.old.spot rounds }
    requires cells { (plain_shape plan.now).cells ≤ length cells.old }
    ensures cells { (t k : ℕ) → worker.old.stage ≡ stage_of.Working t k
        → cells.new ≡ after_instances (plain_shape plan.now) t k result cells.old }
    ensures count { (t k : ℕ) → worker.old.stage ≡ stage_of.Working t k
        → (1 ≤ result) × (k + result ≤ (walk_shape plan.now).size t) }
    ensures stage { (t k : ℕ) → worker.old.stage ≡ stage_of.Working t k
        → worker.new.stage ≡ stage_of.Working t (k + result) }
    ensures reads { worker.new.reads.items ≡ [] }
    ensures worker { IsWorker plan.now worker.new }
{
    do_ahead(cells, plan, worker, 1);
    do_rounds(cells, plan, worker, rounds);
    worker.pass_rounds(plan, rounds)
}
