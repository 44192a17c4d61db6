//! The instances that a worker has ahead along a stretch: the row of their statement is laid on the worker's desk once,
//! and each then costs the loads of what it reads, the steps of its code, and a store or an add. Where the code is a
//! join, its lanes are at hand instead.
ghost use Rattle.std.specs.Prelude.{◌≡◌, ◌+◌, ◌≤◌, ℕ, ℤ, [], List, false, suc, take};
ghost use Rattle.array_words.specs.Seats.{IsSeat};
ghost use Rattle.array_words.specs.Stores.{IsNextLast};
ghost use Rattle.whole_numbers.specs.Lists.{sums};
ghost use Rattle.tile_table.specs.Desks.{HasSameRoom, IsLaid};
ghost use Rattle.tile_core.specs.Passes.{walk_in};
ghost use Rattle.tile_core.specs.Plans.{IsPlan, is_expanded};
ghost use Rattle.tile_core.specs.Stretches.{IsAhead};
ghost use Rattle.tile_core.specs.Views.{done_at, tile_at};
ghost use Rattle.tile_core.specs.Workers.{IsWorker};
ghost use Rattle.tile_core.specs.declared.worker.Stage.TheVariants.{Working};
ghost use Rattle.tile_runner.specs.steps.Laid.{AreOnDesk};

use crate::joins::{do_joins, lay_join};
use array_words::{add_at, load_at, store_at};
use atomic_table::Seat;
use scop_syntax::MOST_LOOPS;
use tile_core::{Plan, View, Words, Worker, rows_tell_instances, walks_are_dealt};
use tile_table::{Desk, Row};

/// The first steps.
pub(crate) fn first_steps(steps: &[i64; MOST_LOOPS], loops: usize) -> &[i64]
    requires { loops ≤ 5 }
    ensures { result.now ≡ take loops steps.now }
{
    &steps[..loops]
}

/// Lays the row of the next instance on the worker's desk, to go on by the steps of the stretch that it has ahead. Of the
/// worker nothing but its desk changes.
fn lay_next<'a>(plan: &'a Plan, worker: &mut Worker) -> &'a Row
    requires plan { IsPlan plan.now }
    requires worker { IsWorker plan.now worker.old }
    requires ahead { (count : ℕ)
        × IsAhead plan.now worker.old.stage worker.old.next worker.old.spot.stretch count }
    ensures laid { (count : ℕ) → IsAhead plan.now worker.old.stage worker.old.next worker.old.spot.stretch count
        → AreOnDesk plan.now worker.old.stage result.now worker.new.desk count }
    ensures worker { IsWorker plan.now worker.new }
    ensures same { worker.new ≡ record worker.old { desk = worker.new.desk } }
{
    let Some(next) = worker.next else {
        unreachable!()
    };
    let steps = worker.spot.stretch.steps;
    let row = plan.row(&next);
    row.lay(
        &mut worker.desk,
        next.turns(),
        first_steps(&steps, next.loops),
    );
    row
}

/// Adds the value of the next instance of the seat's worker to its cell, or stores it there.
#[inline]
fn give_at(words: &Words, seat: &mut Seat<(), View>, adds: bool, cell: usize, value: u64)
    requires seat { IsSeat words.now seat.old.me.0.stage seat.old.me.0.reads seat.old }
    requires next { IsNextLast adds (walk_in words.now) seat.old.me.0.stage seat.old.me.0.reads cell value }
    ensures { IsSeat words.now (Working (tile_at seat.old.me.0.stage) (suc (done_at seat.old.me.0.stage))) []
        seat.new }
{
    if adds {
        add_at(words, seat, cell, value);
    } else {
        store_at(words, seat, cell, value);
    }
}

/// Does the first of the instances that are laid on the desk, the next one of the tile at which the seat stands, and
/// takes the desk one step on.
#[inline]
pub(crate) fn do_laid(words: &Words, seat: &mut Seat<(), View>, row: &Row, desk: &mut Desk)
    requires seat { IsSeat words.now seat.old.me.0.stage [] seat.old }
    requires plain { is_expanded words.now.plan ≡ false }
    requires laid { AreOnDesk words.now.plan seat.old.me.0.stage row.now desk.old 1 }
    ensures seat { IsSeat words.now (Working (tile_at seat.old.me.0.stage) (suc (done_at seat.old.me.0.stage))) []
        seat.new }
    ensures laid { (steps turns : List ℤ) → IsLaid row.now steps turns desk.old
        → IsLaid row.now steps (sums turns steps) desk.new }
    ensures room { HasSameRoom desk.old desk.new }
{
    walks_are_dealt();
    rows_tell_instances();
    for read in 0..row.reads() {
        let value = load_at(words, seat, row.cell(desk, read + 1));
        row.put(desk, read, value);
    }
    let value = row.value(desk);
    give_at(words, seat, row.adds, row.cell(desk, 0), value);
    row.go_on(desk);
}

/// Does so many of the instances that the worker has ahead along a stretch, by its desk. Of the worker nothing but its
/// desk changes.
fn do_on_desk(words: &Words, seat: &mut Seat<(), View>, worker: &mut Worker, count: usize)
    requires seat { IsSeat words.now worker.old.stage [] seat.old }
    requires worker { IsWorker words.now.plan worker.old }
    requires plain { is_expanded words.now.plan ≡ false }
    requires ahead { IsAhead words.now.plan worker.old.stage worker.old.next worker.old.spot.stretch count }
    ensures seat { IsSeat words.now (Working (tile_at worker.old.stage) (done_at worker.old.stage + count)) []
        seat.new }
    ensures worker { IsWorker words.now.plan worker.new }
    ensures same { worker.new ≡ record worker.old { desk = worker.new.desk } }
{
    let row = lay_next(&words.plan, worker);
    for _ in 0..count {
        do_laid(words, seat, row, &mut worker.desk);
    }
}

/// Does so many of the instances that the worker has ahead along a stretch, by the steps of the seat. Of the worker nothing
/// but its desk changes.
pub(crate) fn do_along(words: &Words, seat: &mut Seat<(), View>, worker: &mut Worker, count: usize)
    requires seat { IsSeat words.now worker.old.stage [] seat.old }
    requires worker { IsWorker words.now.plan worker.old }
    requires plain { is_expanded words.now.plan ≡ false }
    requires ahead { IsAhead words.now.plan worker.old.stage worker.old.next worker.old.spot.stretch count }
    ensures seat { IsSeat words.now (Working (tile_at worker.old.stage) (done_at worker.old.stage + count)) []
        seat.new }
    ensures worker { IsWorker words.now.plan worker.new }
    ensures same { worker.new ≡ record worker.old { desk = worker.new.desk } }
{
    match lay_join(&words.plan, worker) {
        Some(lanes) => do_joins(words, seat, lanes, count),
        None => do_on_desk(words, seat, worker, count),
    }
}
