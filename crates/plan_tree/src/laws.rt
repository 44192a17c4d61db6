//! What schedules are for the trees of their tiles, as contracts of functions that call the laws which their proofs use.
ghost use Rattle.std.specs.Prelude.{◌<◌, ℕ, ℤ, List, All, FitsSigned, length};
ghost use Rattle.std.specs.Int.{w64};
ghost use Rattle.whole_numbers.specs.Affine.{value_of};
ghost use Rattle.scop_syntax.specs.Limits.{HasParameters};
ghost use Rattle.scop_syntax.specs.Members.{In};
ghost use Rattle.scop_syntax.specs.Tree.{Program};
ghost use Rattle.scop_syntax.specs.Walk.{Instance};
ghost use Rattle.iteration_domains.specs.Model.{model_of};
ghost use Rattle.loop_tree.specs.Tiling.{items_at};
ghost use Rattle.loop_tree.specs.Tree.{Trees};
ghost use Rattle.loop_tree.specs.Walk.{visits};
ghost use Rattle.planned_trees.specs.Trees.{AreFlowTreesOf, AreTreesOf};
ghost use Rattle.tile_skew.specs.Schedule.{IsScheduled, Scheduled};
ghost use Rattle.tile_skew.specs.Tilings.{statements_from};
ghost use Rattle.plan_tree.specs.Schedules.{IsFlowScheduleFor, IsScheduleFor, arrays_of, tiling_of};

use scop_syntax::{
    accesses_have_the_ranks_of_arrays, instances_are_those_of_statements, statements_are_numbered,
    values_lie_within_45_bits,
};
use tile_skew::{schedules_have_small_items, tiled_flows_are_flow_plans};

/// At what the trees of a schedule's tiles visit, the values of the rows of the first band have 64 bits.
pub fn rows_of_schedules_fit()
    ensures { (program : Program) (params : List ℤ) (marked : List ℕ) (size : ℕ) (s : Scheduled)
        (run : IsScheduled s) (ts : Trees) → IsScheduleFor program marked s
        → AreTreesOf program marked (tiling_of program size run.blocks) ts
        → HasParameters program params → (x : Instance) → In x (visits ts params)
        → All (λ r. FitsSigned w64 (value_of r.form x.turns))
        (items_at (statements_from run.blocks 0 (length (model_of program).statements)) x.number).band }
{
    instances_are_those_of_statements();
    schedules_have_small_items();
    statements_are_numbered();
    values_lie_within_45_bits();
}

/// A schedule of dependences that hold the reads with their last writers is one of dependences that hold the covers,
/// but for those on any array of the program: none are left. Where trees carry out its tiles, whichever arrays are
/// marked, they are those of a flow plan.
pub fn flow_schedules_have_flow_trees()
    ensures schedule { (program : Program) (s : Scheduled) → IsFlowScheduleFor program s
        → IsScheduleFor program (arrays_of program) s }
    ensures trees { (program : Program) (marked : List ℕ) (size : ℕ) (s : Scheduled) (run : IsScheduled s) (ts : Trees)
        → 0 < size → IsFlowScheduleFor program s → AreTreesOf program marked (tiling_of program size run.blocks) ts
        → AreFlowTreesOf program (tiling_of program size run.blocks) ts }
{
    accesses_have_the_ranks_of_arrays();
    tiled_flows_are_flow_plans();
}
