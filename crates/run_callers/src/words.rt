//! Callers of the start and the end of a run, of the steps of a pass between them: load, store, add, claim, opening,
//! release and end of a tile, and of a run that is over.
ghost use Rattle.std.specs.Prelude.{◌≡◌, ◌<◌, All, IfErr, IfOk, List, None, [], get_or, length, true, ℕ};
ghost use Rattle.array_words.specs.Closing.{IsResting, one_if_ended, stage_in};
ghost use Rattle.array_words.specs.Loads.{DoesLoad, IsNextRead};
ghost use Rattle.array_words.specs.Stores.{DoesAdd, DoesStore, IsNextAdd, IsNextStore};
ghost use Rattle.scop_syntax.specs.Cells.{Cell};
ghost use Rattle.scop_syntax.specs.Execution.{IsCell, IsShaped, cell_number, exec, held};
ghost use Rattle.tile_claims.specs.Claims.{DoesClaim};
ghost use Rattle.tile_core.specs.Passes.{IsPass, IsWords, plan_in, walk_in};
ghost use Rattle.tile_core.specs.Plans.{HasEdges, HasRest, HoldsContents, IsPlan, extents_in, program_in, shape_of};
ghost use Rattle.tile_core.specs.Views.{executed, needs_at};
ghost use Rattle.tile_core.specs.declared.worker.Stage.TheVariants.{Idle};
ghost use Rattle.tile_events.specs.Sound.{total};
ghost use Rattle.wave_barrier.specs.Finishes.{DoesFinish, IsFull};
ghost use Rattle.wave_barrier.specs.Opens.{DoesOpen, DoesOpenTile, IsHolding};
ghost use Rattle.wave_barrier.specs.Releases.{DoesRelease, IsLeft};

use array_words::Closed;
use std::alloc::{AllocError, Global};
use tile_core::{Pass, Plan, Words};
use wave_barrier::{NotYet, Short};

/// Two passes, by `count` of `start`, none of which has made a step, by `unmoved`; the cells stay as they are, by
/// `kept`.
pub fn two_passes_started<'a>(
    alloc: Global,
    plan: Plan<'a>,
    cells: &mut Vec<u64>,
) -> Result<(Words<'a>, Vec<Pass>), AllocError>
    requires plan { IsPlan plan }
    requires cells { length cells.old.items ≡ (shape_of plan).cells }
    requires rest { HasRest plan cells.old.items }
    ensures kept { cells.new.items ≡ cells.old.items }
    ensures unmoved { IfOk result (λ r. All (λ pass. pass.seat.me.0.clock.steps ≡ 0) r.1.items) }
    ensures count { IfOk result (λ r. length r.1.items ≡ 2) }
{
    array_words::start(alloc, plan, cells, 2)
}

/// The value that execution reads, by `value` of `load`; the step on the pass's view, by `event`.
pub fn value_loaded(words: &Words, pass: &mut Pass, cell: usize) -> u64
    requires pass { IsPass words.now pass.old }
    requires next { IsNextRead (walk_in words.now) pass.old.worker.stage pass.old.worker.reads.items cell }
    ensures value { result ≡ executed (plan_in words.now) pass.old.worker.stage pass.old.worker.reads.items }
    ensures event { DoesLoad words.now pass.old cell result pass.new }
{
    array_words::load(words, pass, cell)
}

/// The step on the pass's view, by `event` of `store`.
pub fn zero_stored(words: &Words, pass: &mut Pass, cell: usize)
    requires pass { IsPass words.now pass.old }
    requires next { IsNextStore (walk_in words.now) pass.old.worker.stage pass.old.worker.reads.items cell 0 }
    ensures { DoesStore words.now pass.old cell 0 pass.new }
{
    array_words::store(words, pass, cell, 0);
}

/// The step on the pass's view, by `event` of `add`.
pub fn one_added(words: &Words, pass: &mut Pass, cell: usize)
    requires pass { IsPass words.now pass.old }
    requires next { IsNextAdd (walk_in words.now) pass.old.worker.stage pass.old.worker.reads.items cell 1 }
    ensures { DoesAdd words.now pass.old cell 1 pass.new }
{
    array_words::add(words, pass, cell, 1);
}

/// Nothing is read yet, by `reads` of `claim`; the step on the pass's view, by `event`.
pub fn tile_claimed(words: &Words, pass: &mut Pass) -> Option<u64>
    requires pass { IsPass words.now pass.old }
    requires idle { pass.old.worker.stage ≡ Idle }
    ensures reads { pass.new.worker.reads.items ≡ [] }
    ensures event { DoesClaim words.now pass.old result pass.new }
{
    tile_claims::claim(words, pass)
}

/// Fewer tiles are finished than lie in earlier waves, by `not_yet` of `try_open`; the step on the pass's view, by
/// `event`.
pub fn tile_opened(words: &Words, pass: &mut Pass) -> Result<(), NotYet>
    requires pass { IsPass words.now pass.old }
    requires holding { IsHolding pass.old.worker.stage }
    requires edges { words.now.plan.edges ≡ None }
    ensures not_yet { IfErr result (λ e. e.done < needs_at (plan_in words.now) pass.old.worker.stage) }
    ensures event { DoesOpen words.now pass.old result pass.new }
{
    wave_barrier::try_open(words, pass)
}

/// Fewer tiles have released the tile than it waits for, by `short` of `try_open_tile`; the step on the pass's view, by
/// `event`.
pub fn tile_opened_by_its_counter(words: &Words, pass: &mut Pass) -> Result<(), Short>
    requires pass { IsPass words.now pass.old }
    requires holding { IsHolding pass.old.worker.stage }
    requires edges { HasEdges words.now.plan }
    ensures short { IfErr result (λ e. e.seen < needs_at (plan_in words.now) pass.old.worker.stage) }
    ensures event { DoesOpenTile words.now pass.old result pass.new }
{
    wave_barrier::try_open_tile(words, pass)
}

/// Nothing is read yet, by `reads` of `release`; the step on the pass's view, by `event`.
pub fn tile_released(words: &Words, pass: &mut Pass)
    requires pass { IsPass words.now pass.old }
    requires left { IsLeft words.now.plan pass.old.worker.stage }
    ensures reads { pass.new.worker.reads.items ≡ [] }
    ensures event { DoesRelease words.now pass.old pass.new }
{
    wave_barrier::release(words, pass);
}

/// Nothing is read yet, by `reads` of `finish`; the step on the pass's view, by `event`.
pub fn tile_finished(words: &Words, pass: &mut Pass)
    requires pass { IsPass words.now pass.old }
    requires full { IsFull (plan_in words.now) pass.old.worker.stage }
    ensures reads { pass.new.worker.reads.items ≡ [] }
    ensures event { DoesFinish words.now pass.old pass.new }
{
    wave_barrier::finish(words, pass);
}

/// Where no instance has a copy of its own, and the words were started from the contents of all arrays, one behind
/// another, each cell of each array ends as the program's own execution leaves it, by `arrays` of `close`.
pub fn words_closed<'a>(words: Words<'a>, passes: Vec<Pass>, cells: &mut [u64]) -> Closed<'a>
    requires words { IsWords words }
    requires passes { All (IsPass words) passes.items }
    requires rest { All IsResting passes.items }
    requires all { length passes.items ≡ words.table.shared.key.workers }
    requires over { 0 < total (λ p. one_if_ended (stage_in p)) passes.items }
    requires cells { length cells.old ≡ (plan_in words).cells }
    requires single { words.plan.expansion ≡ None }
    ensures { (contents : List (List ℕ)) → IsShaped (extents_in words.entry.plan) contents
        → HoldsContents contents words.entry.table.shared.key.cells.items
        → (c : Cell) → IsCell (extents_in words.entry.plan) c
        → get_or cells.new (cell_number (extents_in words.entry.plan) c) 0
        ≡ held (extents_in words.entry.plan)
        (exec (program_in words.entry.plan) words.entry.plan.params.now contents) c }
{
    array_words::close(words, passes, cells)
}

/// How many tiles the plan of a run had, by the clause of `Closed::plan`.
pub fn tiles_of_a_run(closed: &Closed) -> usize
    ensures { result ≡ length closed.now.plan.list.now.tiles.items }
{
    closed.plan().list.tiles.len()
}

/// Whether every one of so many workers has ended, by the clause of `Closed::ended`.
pub fn all_ended(closed: &Closed, workers: usize) -> bool
    ensures { result ≡ true → closed.now.ended ≡ workers }
{
    closed.ended() == workers
}
