//! The start: the words of the opening state, and a pass for each worker.
ghost use Rattle.std.specs.Prelude.{◌≡◌, ◌+◌, ◌-◌, ◌<◌, ◌≤◌, All, IfOk, OnOk, length};
ghost use Rattle.array_words.specs.Seats.{AreUnused, IsIdlePass, IsRest, IsStart, IsUnmoved};
ghost use Rattle.tile_core.specs.Passes.{IsPass, IsWords};
ghost use Rattle.tile_core.specs.Plans.{HasRest, IsPlan, shape_of};

use atomic_table::{Seat, Split, Table};
use std::alloc::{AllocError, Global};
use tile_core::{FirstWords, Key, Pass, Plan, View, Words, Worker, plans_are_good};
use tile_events::{all_interleavings_agree, seats_are_allowed};

/// How a seat is cut off that stands for one worker.
pub struct Cut;

impl Split<View> for Cut {
    ghost use Rattle.array_words.specs.Seats.{fewer, one_of};

    ghost left = { fewer };

    ghost right = { one_of };
}

/// The table in its opening state, with a seat that stands for all workers.
fn opened<'a>(
    alloc: Global,
    plan: Plan<'a>,
    cells: &mut Vec<u64>,
    workers: usize,
) -> Result<(Words<'a>, Seat<(), View>), AllocError>
    requires plan { IsPlan plan }
    requires cells { length cells.old.items ≡ (shape_of plan).cells }
    requires rest { HasRest plan cells.old.items }
    requires workers { workers ≤ 64 }
    ensures key { IfOk result (λ r. IsStart r.0 plan.entry cells.old.items workers) }
    ensures rest { IfOk result (λ r. IsRest r.0 workers r.1) }
    ensures kept { cells.new.items ≡ cells.old.items }
{
    plans_are_good();
    all_interleavings_agree();
    let key = Key {
        plan,
        cells: FirstWords::of(alloc, cells)?,
        workers: workers as u64,
    };
    let made = Table::of_words(alloc, key.cells.words(), &key);
    let Key {
        plan,
        cells: row,
        workers: _,
    } = key;
    *cells = row.into_cells();
    let (table, rest) = made?;
    Ok((Words { plan, table }, rest))
}

/// A seat for one of the workers for whom the seat stands.
fn split(words: &Words, rest: &mut Seat<(), View>) -> Seat<(), View>
    requires rest { IsRest words.now rest.old.me.0.parts rest.old }
    requires more { 1 < rest.old.me.0.parts }
    ensures rest { IsRest words.now (rest.old.me.0.parts - 1) rest.new }
    ensures one { IsRest words.now 1 result }
{
    seats_are_allowed::<View>();
    words.table.shared.split_seat::<Cut>(rest)
}

/// One pass more, of a seat that stands for one worker.
fn push_pass(
    alloc: Global,
    passes: &mut Vec<Pass>,
    words: &Words,
    seat: Seat<(), View>,
) -> Result<(), AllocError>
    requires { IsRest words.now 1 seat }
    ensures unused { OnOk result (AreUnused words.now passes.old.items → AreUnused words.now passes.new.items) }
    ensures count { OnOk result (length passes.new.items ≡ length passes.old.items + 1) }
{
    let worker = Worker::idle(alloc, &words.plan)?;
    passes.push(Pass::of(seat, worker))?;
    Ok(())
}

/// A pass for each of the workers for whom the seat stands.
fn deal(
    alloc: Global,
    words: &Words,
    mut rest: Seat<(), View>,
    workers: usize,
) -> Result<Vec<Pass>, AllocError>
    requires rest { IsRest words.now workers rest }
    requires some { 1 ≤ workers }
    ensures unused { IfOk result (λ v. AreUnused words.now v.items) }
    ensures count { IfOk result (λ v. length v.items ≡ workers) }
{
    let mut passes = Vec::with_capacity(alloc, workers)?;
    for _ in 1..workers {
        let seat = split(words, &mut rest);
        push_pass(alloc, &mut passes, words, seat)?;
    }
    push_pass(alloc, &mut passes, words, rest)?;
    Ok(passes)
}

/// The words of the opening state, with these cells, which stay as they are, and a pass for each worker, none of which has
/// made a step. Behind the cells of all arrays stand the copies of an expansion, and a counter for each tile where tiles are
/// released one by one.
///
/// # Errors
/// `AllocError`.
pub fn start<'a>(
    alloc: Global,
    plan: Plan<'a>,
    cells: &mut Vec<u64>,
    workers: usize,
) -> Result<(Words<'a>, Vec<Pass>), AllocError>
    requires plan { IsPlan plan }
    requires cells { length cells.old.items ≡ (shape_of plan).cells }
    requires rest { HasRest plan cells.old.items }
    requires some { 1 ≤ workers }
    requires few { workers ≤ 64 }
    ensures key { IfOk result (λ r. IsStart r.0 plan.entry cells.old.items workers) }
    ensures kept { cells.new.items ≡ cells.old.items }
    ensures words { IfOk result (λ r. IsWords r.0) }
    ensures passes { IfOk result (λ r. All (IsPass r.0) r.1.items) }
    ensures idle { IfOk result (λ r. All IsIdlePass r.1.items) }
    ensures unmoved { IfOk result (λ r. All IsUnmoved r.1.items) }
    ensures count { IfOk result (λ r. length r.1.items ≡ workers) }
{
    let (words, rest) = opened(alloc, plan, cells, workers)?;
    let passes = deal(alloc, &words, rest, workers)?;
    Ok((words, passes))
}
