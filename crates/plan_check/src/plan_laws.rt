//! What goals without points show of a plan.
ghost use Rattle.std.specs.Prelude.{◌≡◌, ◌<◌, All, List, length, ℤ, ℕ};
ghost use Rattle.scop_syntax.specs.Kernel.{IsKernel};
ghost use Rattle.scop_syntax.specs.Limits.{AreInRange};
ghost use Rattle.scop_syntax.specs.Tree.{Program};
ghost use Rattle.iteration_domains.specs.Model.{model_of};
ghost use Rattle.loop_tree.specs.Tiling.{IsGoodPlan};
ghost use Rattle.plan_check.specs.Goals.{HasNoPoint, goals_in, loops_in};
ghost use Rattle.plan_check.specs.Plans.{Plan, Suits, tiling_of};

use conflict_deps::{conflicts_are_the_points_of_the_systems, systems_have_parts};
use scop_syntax::statements_are_numbered;

/// Where no goal of a plan has a whole point, its tiling is a good plan of the kernel, for tiles of every size and all
/// parameters in 0..=65536.
pub fn goals_without_points_make_good_plans()
    ensures { (program : Program) (plan : Plan) (params : List ℤ) (size : ℕ) → IsKernel program
        → length params ≡ length program.parameters → AreInRange params → 0 < size
        → Suits (loops_in (model_of program)) plan → All HasNoPoint (goals_in (model_of program) plan)
        → IsGoodPlan program params (tiling_of size (length (model_of program).statements) plan) }
{
    conflicts_are_the_points_of_the_systems();
    systems_have_parts();
    statements_are_numbered();
}
