//! Laws of the dependences that hold each access with its writers, as contracts of functions that do nothing.
ghost use Rattle.std.specs.Prelude.{◌≡◌, ◌↔◌, ℕ, ℤ, All, List, Ok, Err, map};
ghost use Rattle.quast_joins.specs.declared.way.Way.{Way};
ghost use Rattle.quast_trees.specs.Tree.{Tree};
ghost use Rattle.scop_syntax.specs.Limits.{HasParameters};
ghost use Rattle.scop_syntax.specs.Members.{In};
ghost use Rattle.scop_syntax.specs.Tree.{Program};
ghost use Rattle.scop_syntax.specs.Walk.{Instance, walk_of};
ghost use Rattle.iteration_domains.specs.Dependence.{Dependence};
ghost use Rattle.iteration_domains.specs.Held.{HoldCovers, HoldSources};
ghost use Rattle.iteration_domains.specs.Model.{KernelModel, model_of};
ghost use Rattle.conflict_deps.specs.Conflicts.{Side, sides_in};
ghost use Rattle.dataflow.specs.CoverPoints.{HavePoint, IsConflictOf, IsCoverOf};
ghost use Rattle.dataflow.specs.Covering.{LiesBetween, covers_of, role_deps};
ghost use Rattle.dataflow.specs.Flow.{AreLastSources, AreLastTrees, IsResolved, ReadsFrom};
ghost use Rattle.dataflow.specs.Flow.{flow_of, tree_in};
ghost use Rattle.dataflow.specs.Posed.{IsOfKernel};
ghost use Rattle.dataflow.specs.ReadSources.{reads_of};
ghost use Rattle.dataflow.specs.Runs.{Halt};
ghost use Rattle.dataflow.specs.WriterRuns.{Stopped, writers_run};
ghost use Rattle.dataflow.specs.declared.source.ReadSource.{ReadSource};

use conflict_deps::conflicts_are_the_points_of_the_systems;
use quast_trees::{answers_are_live_leaves, bound_quotients_are_not_negative};
use scop_syntax::{
    instances_are_those_of_statements, statements_are_numbered, values_lie_within_45_bits,
    walks_are_in_order,
};

/// Each of them lies between two statements of the model, with their numbers of loops, and is over its parameters.
pub fn covers_lie_between_statements()
    ensures { (model : KernelModel) (budget : ℕ) (marked : List ℕ) (d : Dependence) → IsOfKernel model
        → In d (covers_of budget marked model) → LiesBetween model d }
{
    statements_are_numbered();
}

/// Each cover of a walk by a cell of an array that is not marked is a pair of one of them.
pub fn covers_are_held()
    ensures { (program : Program) (params : List ℤ) (budget : ℕ) (marked : List ℕ) → HasParameters program params
        → HoldCovers program params marked (covers_of budget marked (model_of program)) }
{
    instances_are_those_of_statements();
    statements_are_numbered();
    walks_are_in_order();
    values_lie_within_45_bits();
    answers_are_live_leaves();
    bound_quotients_are_not_negative();
}

/// Each read of a walk and its last writer are a pair of one of the dependences of the reads' trees: by trees that are
/// the ends of the reads' runs, and by sources that are told.
pub fn flow_holds_the_sources()
    ensures trees { (program : Program) (params : List ℤ) (budget : ℕ) (trees : List Tree)
        → HasParameters program params
        → AreLastTrees (model_of program) budget (reads_of (model_of program)) trees
        → HoldSources program params (flow_of (model_of program) trees) }
    ensures sources { (program : Program) (params : List ℤ) (sources : List ReadSource)
        → HasParameters program params → AreLastSources (model_of program) sources → All IsResolved sources
        → HoldSources program params (flow_of (model_of program) (map tree_in sources)) }
{
    instances_are_those_of_statements();
    statements_are_numbered();
    walks_are_in_order();
    values_lie_within_45_bits();
    answers_are_live_leaves();
    bound_quotients_are_not_negative();
}

/// The whole points of the dependences of the reads' trees are exactly the reads with their last writers.
pub fn flow_points_are_the_sources()
    ensures { (program : Program) (params : List ℤ) (budget : ℕ) (trees : List Tree) (x y : Instance)
        → HasParameters program params
        → AreLastTrees (model_of program) budget (reads_of (model_of program)) trees
        → HavePoint params (flow_of (model_of program) trees) x y ↔ ReadsFrom (walk_of program params) x y }
{
    instances_are_those_of_statements();
    statements_are_numbered();
    walks_are_in_order();
    values_lie_within_45_bits();
    answers_are_live_leaves();
    bound_quotients_are_not_negative();
}

/// Each of them lies between two statements of the model, with their numbers of loops, and is over its parameters.
pub fn flow_lies_between_statements()
    ensures { (model : KernelModel) (trees : List Tree) (d : Dependence) → IsOfKernel model
        → In d (flow_of model trees) → LiesBetween model d }
{
    statements_are_numbered();
}

/// The whole points of an access's dependences in a role are, where its quast is told, exactly its instances with their
/// last writers, or their next, and else exactly its conflicts in that role.
pub fn covering_points_are_covers()
    ensures told { (program : Program) (params : List ℤ) (budget : ℕ) (way : Way) (reader : Side) (tree : Tree)
        (x y : Instance) → HasParameters program params → In reader (sides_in (model_of program))
        → writers_run way (model_of program) budget reader.statement.number reader.number ≡ Ok tree
        → HavePoint params (role_deps budget way (model_of program) reader) x y
        ↔ IsCoverOf way (walk_of program params) reader.statement.number reader.number x y }
    ensures stopped { (program : Program) (params : List ℤ) (budget : ℕ) (way : Way) (reader : Side)
        (stop : Halt Stopped) (x y : Instance) → HasParameters program params
        → writers_run way (model_of program) budget reader.statement.number reader.number ≡ Err stop
        → HavePoint params (role_deps budget way (model_of program) reader) x y
        ↔ IsConflictOf way (walk_of program params) reader.statement.number reader.number x y }
{
    instances_are_those_of_statements();
    statements_are_numbered();
    walks_are_in_order();
    values_lie_within_45_bits();
    conflicts_are_the_points_of_the_systems();
    answers_are_live_leaves();
    bound_quotients_are_not_negative();
}
