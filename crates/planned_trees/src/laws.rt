//! What trees of a plan are for, as contracts of functions that call the laws which their proofs use.
ghost use Rattle.std.specs.Prelude.{◌≡◌, ℕ, ℤ, List, [], false, length, map};
ghost use Rattle.scop_syntax.specs.Cells.{PlacesConflict, conflict_cell};
ghost use Rattle.scop_syntax.specs.Execution.{IsInside, IsShaped, exec, layout, performed_all};
ghost use Rattle.scop_syntax.specs.Limits.{HasParameters};
ghost use Rattle.scop_syntax.specs.Members.{In};
ghost use Rattle.scop_syntax.specs.Reductions.{is_marked};
ghost use Rattle.scop_syntax.specs.Tree.{Program};
ghost use Rattle.scop_syntax.specs.Walk.{Instance, instance, Visit as Walked, walk_of};
ghost use Rattle.scop_syntax.specs.ConflictOrders.{IsOrderOf};
ghost use Rattle.loop_tree.specs.Conditions.{CanWalk};
ghost use Rattle.loop_tree.specs.Plans.{CarryOut, walked};
ghost use Rattle.loop_tree.specs.Runs.{MayRunAll};
ghost use Rattle.loop_tree.specs.Tiling.{Tiling, tile_of, wave_of};
ghost use Rattle.loop_tree.specs.Tree.{Trees};
ghost use Rattle.loop_tree.specs.Walk.{Visit, given, visits, walk_all};
ghost use Rattle.planned_trees.specs.Executions.{AreVisitsOf};
ghost use Rattle.planned_trees.specs.Trees.{AreEven, AreTreesOf, StandInOrder};

use scop_syntax::{
    instances_are_those_of_statements, orders_of_walks_end_as_they_do, statements_are_numbered,
    values_lie_within_45_bits, walks_are_in_order,
};

/// Of two places of the walk that conflict on an array that is not marked, a tree that carries out a plan visits the
/// earlier one's instance before the later one's, where all statements have as many leading scalars and rows in the
/// first band.
pub fn trees_keep_conflicts_in_order()
    ensures { (program : Program) (params : List ℤ) (marked : List ℕ) (plan : Tiling) (ts : Trees)
        → AreEven program plan → CarryOut program params marked plan ts → (i j : ℕ)
        (c : PlacesConflict (walk_of program params) i j) → is_marked marked (conflict_cell c).array ≡ false
        → StandInOrder (visits ts params) (instance c.earlier) (instance c.later) }
{}

/// In whichever order an execution of a plan's trees interleaves the iterations of their parallel loops, it visits each
/// walked instance once, and these, performed in the run's order, leave the arrays of the source's own execution, where
/// every subscript is inside. The trees' visits in their own order are such a run.
pub fn loops_end_as_the_source_does()
    ensures ends { (program : Program) (params : List ℤ) (plan : Tiling) (ts : Trees) (contents : List (List ℕ))
        (run : List Visit) (order : List Walked) → AreTreesOf program [] plan ts → HasParameters program params
        → IsInside program params → IsShaped (layout program params) contents → MayRunAll ts params [] run
        → AreVisitsOf program params (map given run) order
        → performed_all (layout program params) contents order ≡ exec program params contents }
    ensures visits { (program : Program) (params : List ℤ) (plan : Tiling) (ts : Trees) (run : List Visit)
        → AreTreesOf program [] plan ts → HasParameters program params → MayRunAll ts params [] run
        → (order : List Walked) × AreVisitsOf program params (map given run) order }
    ensures once { (program : Program) (params : List ℤ) (plan : Tiling) (ts : Trees) (run : List Visit)
        → AreTreesOf program [] plan ts → HasParameters program params → MayRunAll ts params [] run
        → IsOrderOf (map given run) (walked program params) }
    ensures walk { (ts : Trees) (params : List ℤ) → MayRunAll ts params [] (walk_all ts params []) }
{
    orders_of_walks_end_as_they_do();
    walks_are_in_order();
}

/// For parameters in 0..=65536 the trees of a plan can be walked: divisors are at least 1, every number of the walk
/// fits, and so does each instance.
pub fn trees_of_plans_can_be_walked()
    ensures { (program : Program) (params : List ℤ) (marked : List ℕ) (plan : Tiling) (ts : Trees)
        → AreTreesOf program marked plan ts → HasParameters program params → CanWalk ts params [] }
{
    instances_are_those_of_statements();
    statements_are_numbered();
    values_lie_within_45_bits();
}

/// The waves of what a plan's trees visit have one length, and so have the tiles.
pub fn waves_have_one_length()
    ensures { (program : Program) (params : List ℤ) (marked : List ℕ) (plan : Tiling) (ts : Trees)
        → AreTreesOf program marked plan ts
        → HasParameters program params → (x y : Instance) → In x (visits ts params) → In y (visits ts params)
        → (length (wave_of plan x) ≡ length (wave_of plan y))
        × (length (tile_of plan x) ≡ length (tile_of plan y)) }
{}
