//! Callers of the core over a kernel's plan: the opening state, events, the cells, and what plans execute.
ghost use Rattle.std.specs.Prelude.{◌≡◌, ℕ, ◌<◌, ◌≤◌, IfOk, List, MatchOption, Some, false, length, slice_get};
ghost use Rattle.std.specs.Prelude.{slice_index_or};
ghost use mathlib.Core.Option.{some};
ghost use lib.ListN.{get_elem?};
ghost use Rattle.scop_syntax.specs.Cells.{Cell};
ghost use Rattle.scop_syntax.specs.Execution.{IsCell, IsShaped, cell_number, exec, held};
ghost use Rattle.tile_core.specs.Marks.{values_loaded_by};
ghost use Rattle.scop_syntax.specs.Walk.{Visit, instance};
ghost use Rattle.tile_edges.specs.Edges.{IsTileOf};
ghost use Rattle.tile_events.specs.Core.{State, idle, step};
ghost use Rattle.tile_events.specs.Flat.{flat};
ghost use Rattle.tile_events.specs.Opening.{IsQuiet};
ghost use Rattle.tile_events.specs.Plan.{GoodPlan, IsDealt, values_read};
ghost use Rattle.tile_events.specs.Sound.{Sound};
ghost use Rattle.tile_core.specs.Boards.{IsRun, event_of, opening_state};
ghost use Rattle.tile_core.specs.Cores.{IsCore, ReadsExecuted, plan_in, state_in};
ghost use Rattle.tile_core.specs.Passes.{HasNoneNext, IsNextIn, IsPass};
ghost use Rattle.tile_core.specs.Plans.{HasRest, HoldsContents, IsPlan, deal_of, extents_in, plan_of, program_in, scan_in};
ghost use Rattle.tile_core.specs.Plans.{is_expanded, shape_of, walk_in, walk_shape};
ghost use Rattle.tile_core.specs.declared.plan.Plan.{Plan as AnyPlan};

use scop_syntax::Instance;
use std::alloc::{AllocError, Global};
use tile_core::{
    Core, Event, NotEnabled, Pass, Plan, Seen, Turn, Words, instances_read_few, plans_are_good,
    plans_execute_the_kernel, walks_are_dealt,
};

/// The core of one worker at the start, by the clauses of `Core::of` of these names.
pub fn core_of_one_worker<'a>(
    alloc: Global,
    plan: &Plan<'a>,
    cells: &mut Vec<u64>,
) -> Result<Core<'a>, AllocError>
    requires plan { IsPlan plan.now }
    requires cells { length cells.old.items ≡ (shape_of plan.now).cells }
    requires rest { HasRest plan.now cells.old.items }
    ensures core { IfOk result IsCore }
    ensures plan { IfOk result (λ c. plan_in c ≡ plan.now) }
    ensures state { IfOk result (λ c. state_in c ≡ opening_state cells.old.items 1) }
    ensures run { IfOk result (λ c. IsRun (plan_of plan.now cells.old.items) (state_in c)) }
{
    Core::of(alloc, plan, cells, 1)
}

/// A load of the first worker tells what execution reads there, by `reads` of `Core::step`.
pub fn read_of_the_first_worker(core: &mut Core) -> Result<Seen, NotEnabled>
    requires core { IsCore core.old }
    requires worker { 0 < length (state_in core.old).workers }
    ensures { (opening : List ℕ) → IsRun (plan_of (plan_in core.old) opening) (state_in core.old)
        → ReadsExecuted (plan_of (plan_in core.old) opening) (state_in core.old) 0 result }
{
    core.step(0, Event::Load)
}

/// One event, by the clauses of `Core::replay` of these names.
pub fn replay_one(core: &mut Core, turn: Turn)
    requires core { IsCore core.old }
    requires worker { turn.worker < length (state_in core.old).workers }
    ensures core { IsCore core.new }
    ensures plan { plan_in core.new ≡ plan_in core.old }
    ensures workers { length (state_in core.new).workers ≡ length (state_in core.old).workers }
    ensures replay { state_in core.new
        ≡ (step (shape_of (plan_in core.old)) (state_in core.old) turn.worker (event_of turn.event)).0 }
    ensures run { (opening : List ℕ) → IsRun (plan_of (plan_in core.old) opening) (state_in core.old)
        → IsRun (plan_of (plan_in core.old) opening) (state_in core.new) }
{
    let turns = [turn];
    core.replay(&turns);
}

/// An idle worker does no instance, and nothing changes, by `none` of `Core::do_stretch`.
pub fn stretch_of_an_idle_worker(core: &mut Core) -> usize
    requires core { IsCore core.old }
    requires worker { 0 < length (state_in core.old).workers }
    requires idle { get_elem? (state_in core.old).workers 0 ≡ some idle }
    ensures { (result ≡ 0) × (state_in core.new ≡ state_in core.old) }
{
    core.do_stretch(0)
}

/// How many cells there are, by the clause of `Core::into_cells`.
pub fn cells_in(core: Core) -> u64
    ensures { result ≡ length (state_in core.entry).cells }
{
    core.into_cells().len() as u64
}

/// The instance that comes next, by the clause of `Pass::instance`.
pub fn instance_of(words: &Words, pass: &Pass) -> Option<Instance>
    requires { IsPass words.now pass.now }
    ensures { MatchOption result (HasNoneNext words.now.plan pass.now.worker.stage)
        (IsNextIn words.now.plan pass.now.worker.stage) }
{
    pass.instance(words)
}

/// The first place loads what the arrays hold at first, by `reads` of `plans_execute_the_kernel`; where all tiles are
/// done the cells are those of execution, by `end`; a row that holds the contents makes the same plan, by `row`.
pub fn values_of_plans()
    ensures row { (plan : AnyPlan) (contents : List (List ℕ)) (cells : List ℕ) → HoldsContents contents cells
        → plan_of plan cells ≡ plan_of plan (flat contents) }
    ensures reads { (plan : AnyPlan) (contents : List (List ℕ)) (v : Visit) → IsPlan plan
        → IsShaped (extents_in plan) contents → slice_get (walk_in plan) 0 ≡ Some v
        → values_read (plan_of plan (flat contents)) 0
        ≡ values_loaded_by plan.marked.now (extents_in plan) contents v.body v.point }
    ensures end { (plan : AnyPlan) (contents : List (List ℕ)) (s : State) → IsPlan plan → is_expanded plan ≡ false
        → IsShaped (extents_in plan) contents → Sound (plan_of plan (flat contents)) s
        → IsQuiet (plan_of plan (flat contents)) s → (c : Cell) → IsCell (extents_in plan) c
        → slice_index_or s.cells (cell_number (extents_in plan) c) 0
        ≡ held (extents_in plan) (exec (program_in plan) plan.params.now contents) c }
{
    plans_execute_the_kernel();
}

/// The first place of a walk of three has a rank below 3, by `scan` of `plans_are_good`, and the scan is as long, by
/// `count`; over no contents a plan is good, by `good`, and its places are dealt, by `dealt`.
pub fn plans_of_three_places()
    ensures scan { (plan : AnyPlan) → IsPlan plan → length (walk_in plan) ≡ 3 → (deal_of plan).rank 0 < 3 }
    ensures count { (plan : AnyPlan) → IsPlan plan → length (walk_in plan) ≡ 3 → length (scan_in plan) ≡ 3 }
    ensures good { (plan : AnyPlan) → IsPlan plan → GoodPlan (shape_of plan) }
    ensures dealt { (plan : AnyPlan) → IsPlan plan → IsDealt (shape_of plan) }
{
    plans_are_good();
}

/// The same of the walk's places alone, by the clauses of `walks_are_dealt`; the tile of the first place is that of its
/// instance, by `held`.
pub fn walks_of_three_places()
    ensures scan { (plan : AnyPlan) → IsPlan plan → length (walk_in plan) ≡ 3 → (deal_of plan).rank 0 < 3 }
    ensures count { (plan : AnyPlan) → IsPlan plan → length (walk_in plan) ≡ 3 → length (scan_in plan) ≡ 3 }
    ensures good { (plan : AnyPlan) → IsPlan plan → GoodPlan (walk_shape plan) }
    ensures dealt { (plan : AnyPlan) → IsPlan plan → IsDealt (walk_shape plan) }
    ensures held { (plan : AnyPlan) (is : IsPlan plan) (v : Visit) → slice_get (walk_in plan) 0 ≡ Some v
        → IsTileOf is.tiling plan.list.now ((walk_shape plan).tile 0) (instance v) }
{
    walks_are_dealt();
}

/// The first place of some reads at most 16 cells, by the clause of `instances_read_few`.
pub fn reads_of_the_first_place()
    ensures { (plan : AnyPlan) → IsPlan plan → 0 < (walk_shape plan).places → length ((walk_shape plan).read 0) ≤ 16 }
{
    instances_read_few();
}
