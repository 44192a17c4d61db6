//! Callers of the trees of plans: that of the source's own order, that of a hull, and the laws in kernels without
//! parameters, also at tiles of size 1.
ghost use Rattle.std.specs.Prelude.{◌≡◌, ℕ, [], All, FitsSigned, IfErr, IfOk, List, false, length, map};
ghost use Rattle.std.specs.Int.{w64};
ghost use Rattle.whole_numbers.specs.Affine.{value_of};
ghost use Rattle.scop_syntax.specs.Cells.{PlacesConflict, conflict_cell};
ghost use Rattle.scop_syntax.specs.Execution.{IsInside, IsShaped, exec, layout, performed_all};
ghost use Rattle.scop_syntax.specs.Kernel.{IsKernel};
ghost use Rattle.scop_syntax.specs.Limits.{HasParameters};
ghost use Rattle.scop_syntax.specs.Members.{In};
ghost use Rattle.scop_syntax.specs.Reductions.{is_marked};
ghost use Rattle.scop_syntax.specs.Tree.{Program, none as nothing};
ghost use Rattle.scop_syntax.specs.View.{program_of};
ghost use Rattle.scop_syntax.specs.Walk.{Instance, Visit as Walked, instance, walk_of};
ghost use Rattle.iteration_domains.specs.Model.{model_of};
ghost use Rattle.scop_syntax.specs.ConflictOrders.{IsOrderOf, KeepsCovers};
ghost use Rattle.loop_tree.specs.Conditions.{CanWalk};
ghost use Rattle.loop_tree.specs.Plans.{CarryOut, walked};
ghost use Rattle.loop_tree.specs.Runs.{MayRunAll};
ghost use Rattle.loop_tree.specs.Tiling.{Items, Tiling, items_at, kept, tile_of, tiled, wave_of};
ghost use Rattle.loop_tree.specs.TilingView.{tiling_of as tiling_in};
ghost use Rattle.loop_tree.specs.Tree.{Trees, none};
ghost use Rattle.loop_tree.specs.View.{trees_in};
ghost use Rattle.loop_tree.specs.Walk.{Visit, given, visits, walk_all};
ghost use Rattle.planned_trees.specs.Executions.{AreVisitsOf};
ghost use Rattle.planned_trees.specs.Trees.{AreTreesOf, StandInOrder};
ghost use Rattle.schedule_rows.specs.Schedule.{IsScheduled, Scheduled};
ghost use Rattle.tile_skew.specs.Tilings.{schedule_tiling, statements_from};
ghost use Rattle.plan_tree.specs.Schedules.{IsScheduleFor, StopsTiled, tiling_of};

use fm_projection::FmStop;
use loop_tree::Tree;
use plan_tree::rows_of_schedules_fit;
use planned_trees::{
    loops_end_as_the_source_does, trees_keep_conflicts_in_order, trees_of_plans_can_be_walked,
    waves_have_one_length,
};
use schedule_rows::Schedule;
use scop_syntax::{Kernel, orders_of_walks_end_as_they_do, orders_that_keep_covers_keep_conflicts};
use std::alloc::{AllocError, Global};

/// The tree of the own order of a kernel without items is empty, by `own` of `source_tree`.
pub fn kept_tree(alloc: Global, kernel: &Kernel) -> Result<Tree, AllocError>
    requires { IsKernel (program_of kernel.now) }
    ensures { IfOk result (λ t. (program_of kernel.now).body ≡ nothing → trees_in t ≡ none) }
{
    plan_tree::source_tree(alloc, kernel)
}

/// The hull's tree of a schedule, for tiles of one point, by the clauses of `hull_tree` of these names.
pub fn hull_tree_of_points(
    alloc: Global,
    schedule: &Schedule,
) -> Result<(Tree, loop_tree::Tiling), FmStop>
    requires { (program : Program) × (marked : List ℕ) × IsScheduleFor program marked schedule.now }
    ensures tree { IfOk result (λ found. (program : Program) (marked : List ℕ)
        → IsScheduleFor program marked schedule.now → (s : IsScheduled schedule.now)
        → AreTreesOf program marked (tiling_of program 1 s.blocks) (trees_in found.0)) }
    ensures tiling { IfOk result (λ found. (s : IsScheduled schedule.now)
        → tiling_in found.1 ≡ schedule_tiling 1 (length schedule.now.model.statements) s.blocks) }
    ensures stops { IfErr result (λ stop. (s : IsScheduled schedule.now)
        → StopsTiled schedule.now.model 1 s.blocks stop) }
{
    plan_tree::hull_tree(alloc, schedule, 1)
}

/// Trees of the source's order visit places that conflict on an array that is not marked as they are, by the clause of
/// `trees_keep_conflicts_in_order`.
pub fn trees_of_the_source_keep_conflicts_in_order()
    ensures { (program : Program) (marked : List ℕ) (ts : Trees) → CarryOut program [] marked kept ts → (i j : ℕ)
        (c : PlacesConflict (walk_of program []) i j) → is_marked marked (conflict_cell c).array ≡ false
        → StandInOrder (visits ts []) (instance c.earlier) (instance c.later) }
{
    trees_keep_conflicts_in_order();
}

/// An order of a walk's visits that keeps its covers ends as the walk does, by the clause of
/// `orders_that_keep_covers_keep_conflicts`.
pub fn orders_of_covers_end_as_the_walk_does()
    ensures { (program : Program) (contents : List (List ℕ)) (order : List Walked)
        → IsShaped (layout program []) contents → IsInside program [] → IsOrderOf order (walk_of program [])
        → KeepsCovers (walk_of program []) order
        → performed_all (layout program []) contents order ≡ exec program [] contents }
{
    orders_of_walks_end_as_they_do();
    orders_that_keep_covers_keep_conflicts();
}

/// Runs of trees without parameters, by the clauses of `loops_end_as_the_source_does` of these names.
pub fn loops_without_parameters()
    ensures ends { (program : Program) (plan : Tiling) (ts : Trees) (contents : List (List ℕ)) (run : List Visit)
        (order : List Walked) → AreTreesOf program [] plan ts → HasParameters program [] → IsInside program []
        → IsShaped (layout program []) contents → MayRunAll ts [] [] run
        → AreVisitsOf program [] (map given run) order
        → performed_all (layout program []) contents order ≡ exec program [] contents }
    ensures visits { (program : Program) (plan : Tiling) (ts : Trees) (run : List Visit) → AreTreesOf program [] plan ts
        → HasParameters program [] → MayRunAll ts [] [] run
        → (order : List Walked) × AreVisitsOf program [] (map given run) order }
    ensures once { (program : Program) (plan : Tiling) (ts : Trees) (run : List Visit) → AreTreesOf program [] plan ts
        → HasParameters program [] → MayRunAll ts [] [] run → IsOrderOf (map given run) (walked program []) }
    ensures walk { (ts : Trees) → MayRunAll ts [] [] (walk_all ts [] []) }
{
    loops_end_as_the_source_does();
}

/// Trees of the source's order can be walked, by the clause of `trees_of_plans_can_be_walked`.
pub fn trees_of_the_source_can_be_walked()
    ensures { (program : Program) (marked : List ℕ) (ts : Trees) → AreTreesOf program marked kept ts
        → HasParameters program [] → CanWalk ts [] [] }
{
    trees_of_plans_can_be_walked();
}

/// Waves and tiles have one length each, by the clause of `waves_have_one_length`.
pub fn waves_of_tiles_of_size_1_have_one_length()
    ensures { (program : Program) (marked : List ℕ) (statements : List Items) (ts : Trees)
        → AreTreesOf program marked (tiled 1 statements) ts → HasParameters program []
        → (x y : Instance) → In x (visits ts []) → In y (visits ts [])
        → (length (wave_of (tiled 1 statements) x) ≡ length (wave_of (tiled 1 statements) y))
        × (length (tile_of (tiled 1 statements) x) ≡ length (tile_of (tiled 1 statements) y)) }
{
    waves_have_one_length();
}

/// The rows of a schedule have values of 64 bits, by the clause of `rows_of_schedules_fit`.
pub fn rows_of_tiles_of_size_1_fit()
    ensures { (program : Program) (marked : List ℕ) (s : Scheduled) (run : IsScheduled s) (ts : Trees)
        → IsScheduleFor program marked s → AreTreesOf program marked (tiling_of program 1 run.blocks) ts
        → HasParameters program [] → (x : Instance) → In x (visits ts [])
        → All (λ r. FitsSigned w64 (value_of r.form x.turns))
        (items_at (statements_from run.blocks 0 (length (model_of program).statements)) x.number).band }
{
    rows_of_schedules_fit();
}
