//! The whole rounds of a braid that a worker has ahead: the row of each strand's statement is laid on a desk of its own
//! once, and the strands then take turns.
ghost use Rattle.std.specs.Prelude.{◌≡◌, ◌+◌, ◌*◌, [], ℕ, false, suc};
ghost use Rattle.array_words.specs.Seats.{IsSeat};
ghost use Rattle.tile_core.specs.Plans.{is_expanded};
ghost use Rattle.tile_core.specs.Strands.{AreLaid};
ghost use Rattle.tile_core.specs.Stretches.{IsWoven};
ghost use Rattle.tile_core.specs.Views.{done_at, tile_at};
ghost use Rattle.tile_core.specs.Workers.{IsWorker};
ghost use Rattle.tile_core.specs.declared.worker.Stage.TheVariants.{Working};
ghost use Rattle.tile_runner.specs.steps.Laid.{AreStrandsNext};

use crate::stretches::do_laid;
use atomic_table::Seat;
use tile_core::{View, Words, Worker, rows_tell_instances};

/// Does what each strand of the worker's braid gives in a round, in turn, by the steps of the seat, and takes the strand's
/// desk to the next round. Of the worker nothing but its desks changes.
#[inline]
fn do_round(words: &Words, seat: &mut Seat<(), View>, worker: &mut Worker)
    requires seat { IsSeat words.now seat.old.me.0.stage [] seat.old }
    requires worker { IsWorker words.now.plan worker.old }
    requires plain { is_expanded words.now.plan ≡ false }
    requires next { AreStrandsNext words.now.plan seat.old.me.0.stage worker.old.spot.braid worker.old.desks.items }
    ensures seat { IsSeat words.now (Working (tile_at seat.old.me.0.stage)
        (done_at seat.old.me.0.stage + worker.old.spot.braid.count)) [] seat.new }
    ensures laid { (round : ℕ) → AreLaid words.now.plan.table.now worker.old.spot.braid 0 worker.old.spot.braid.count
        round worker.old.desks.items
        → AreLaid words.now.plan.table.now worker.old.spot.braid 0 worker.old.spot.braid.count (suc round)
        worker.new.desks.items }
    ensures same { worker.new ≡ record worker.old { desks = worker.new.desks } }
    ensures worker { IsWorker words.now.plan worker.new }
{
    rows_tell_instances();
    for at in 0..worker.spot.braid.count {
        let statement = worker.spot.braid.strands[at].before.statement;
        let row = words.plan.table.row(statement);
        do_laid(words, seat, row, &mut worker.desks[at]);
    }
}

/// Does so many whole rounds that the worker has ahead behind its next instance, which the seat has done. Of the worker
/// nothing but its desks changes.
pub(crate) fn do_rounds(
    words: &Words,
    seat: &mut Seat<(), View>,
    worker: &mut Worker,
    rounds: usize,
)
    requires seat { IsSeat words.now (Working (tile_at worker.old.stage) (suc (done_at worker.old.stage))) []
        seat.old }
    requires worker { IsWorker words.now.plan worker.old }
    requires plain { is_expanded words.now.plan ≡ false }
    requires woven { IsWoven words.now.plan worker.old.stage worker.old.next worker.old.spot rounds }
    ensures seat { IsSeat words.now (Working (tile_at worker.old.stage)
        (suc (done_at worker.old.stage) + rounds * worker.old.spot.braid.count)) [] seat.new }
    ensures same { worker.new ≡ record worker.old { desks = worker.new.desks } }
    ensures worker { IsWorker words.now.plan worker.new }
{
    rows_tell_instances();
    worker.lay_strands(&words.plan);
    for _ in 0..rounds {
        do_round(words, seat, worker);
    }
}
