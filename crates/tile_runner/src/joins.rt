//! The instances that a worker has ahead along a stretch of a statement whose code is a join: the lanes of its four
//! cells are at hand, and each instance costs three loads, two operators and a store.
ghost use Rattle.std.specs.Prelude.{◌≡◌, ◌+◌, ℕ, ℤ, [], IfSome, List, false, suc};
ghost use Rattle.array_words.specs.Seats.{IsSeat};
ghost use Rattle.whole_numbers.specs.Lists.{sums};
ghost use Rattle.tile_table.specs.Joins.{IsJoinAt};
ghost use Rattle.tile_table.specs.declared.table.Row.{Row as AnyRow};
ghost use Rattle.tile_core.specs.Plans.{IsPlan, is_expanded};
ghost use Rattle.tile_core.specs.Stretches.{IsAhead};
ghost use Rattle.tile_core.specs.Views.{done_at, tile_at};
ghost use Rattle.tile_core.specs.declared.worker.Stage.TheVariants.{Working};
ghost use Rattle.tile_runner.specs.steps.Laid.{AreJoined};

use crate::stretches::first_steps;
use array_words::{load_at, store_at};
use atomic_table::Seat;
use tile_core::{Plan, View, Words, Worker, rows_tell_instances, walks_are_dealt};
use tile_table::JoinLanes;

/// The lanes of the next instance's row, to go on by the steps of the stretch that the worker has ahead, where its code
/// is a join.
pub(crate) fn lay_join(plan: &Plan, worker: &Worker) -> Option<JoinLanes>
    requires plan { IsPlan plan.now }
    requires ahead { (count : ℕ)
        × IsAhead plan.now worker.now.stage worker.now.next worker.now.spot.stretch count }
    ensures { IfSome result (λ lanes. (count : ℕ)
        → IsAhead plan.now worker.now.stage worker.now.next worker.now.spot.stretch count
        → AreJoined plan.now worker.now.stage lanes count) }
{
    let Some(next) = worker.next else {
        unreachable!()
    };
    let steps = first_steps(&worker.spot.stretch.steps, next.loops);
    plan.row(&next).lay_join(next.turns(), steps)
}

/// Does the first of the instances at which the lanes of a join stand, the next one of the tile at which the seat
/// stands, and takes the lanes one step on.
#[inline]
fn do_join(words: &Words, seat: &mut Seat<(), View>, lanes: &mut JoinLanes)
    requires seat { IsSeat words.now seat.old.me.0.stage [] seat.old }
    requires plain { is_expanded words.now.plan ≡ false }
    requires laid { AreJoined words.now.plan seat.old.me.0.stage lanes.old 1 }
    ensures seat { IsSeat words.now (Working (tile_at seat.old.me.0.stage) (suc (done_at seat.old.me.0.stage))) []
        seat.new }
    ensures laid { (row : AnyRow) (steps turns : List ℤ) → IsJoinAt row steps turns lanes.old
        → IsJoinAt row steps (sums turns steps) lanes.new }
{
    walks_are_dealt();
    rows_tell_instances();
    let first = load_at(words, seat, lanes.first.at as usize);
    let second = load_at(words, seat, lanes.second.at as usize);
    let third = load_at(words, seat, lanes.third.at as usize);
    let value = lanes.join.of(first, second, third);
    store_at(words, seat, lanes.place.at as usize, value);
    lanes.go_on();
}

/// Does so many instances, at the first of which the lanes of a join stand, by the steps of the seat.
pub(crate) fn do_joins(words: &Words, seat: &mut Seat<(), View>, mut lanes: JoinLanes, count: usize)
    requires seat { IsSeat words.now seat.old.me.0.stage [] seat.old }
    requires plain { is_expanded words.now.plan ≡ false }
    requires laid { AreJoined words.now.plan seat.old.me.0.stage lanes count }
    ensures { IsSeat words.now (Working (tile_at seat.old.me.0.stage) (done_at seat.old.me.0.stage + count)) []
        seat.new }
{
    for _ in 0..count {
        do_join(words, seat, &mut lanes);
    }
}
