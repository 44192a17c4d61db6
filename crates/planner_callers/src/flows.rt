//! Callers of the dependences that hold each read with its last writers.
ghost use Rattle.std.specs.Prelude.{◌≡◌, ◌≤◌, ◌+◌, [], ◌∷◌, All, IfOk, List, Some, map, slice_get};
ghost use Rattle.quast_trees.specs.Postfix.{Postfix, tree_of};
ghost use Rattle.quast_trees.specs.Tree.{Tree};
ghost use Rattle.quast_joins.specs.declared.way.Way.TheVariants.{Later};
ghost use Rattle.scop_syntax.specs.Limits.{HasParameters};
ghost use Rattle.scop_syntax.specs.Members.{In};
ghost use Rattle.scop_syntax.specs.Tree.{Program};
ghost use Rattle.scop_syntax.specs.Walk.{Instance, Visit, walk_of};
ghost use Rattle.scop_syntax.specs.Writers.{last_of};
ghost use Rattle.iteration_domains.specs.Dependence.{Dependence};
ghost use Rattle.iteration_domains.specs.Held.{IsPairIn};
ghost use Rattle.iteration_domains.specs.Model.{KernelModel, Modelled, model_of};
ghost use Rattle.conflict_deps.specs.Conflicts.{Side};
ghost use Rattle.dataflow.specs.CoverPoints.{HavePoint};
ghost use Rattle.dataflow.specs.Flow.{AreLastSources, AreLastTrees, IsResolved, ReadsFrom};
ghost use Rattle.dataflow.specs.Flow.{flow_of, read_sides_in, tree_in};
ghost use Rattle.dataflow.specs.Leaves.{leaf_deps};
ghost use Rattle.dataflow.specs.Posed.{IsOfKernel};
ghost use Rattle.dataflow.specs.ReadSources.{reads_of};
ghost use Rattle.dataflow.specs.declared.source.ReadSource.{ReadSource};
ghost use Rattle.dataflow.specs.declared.source.ReadSource.TheVariants as source;

use dataflow::{
    ReadSource, flow, flow_holds_the_sources, flow_lies_between_statements,
    flow_points_are_the_sources,
};
use iteration_domains::{Dep, Model};
use std::alloc::{AllocError, Global};

/// Of a model with one read, by the clause of `flow`: one dependence for each leaf of its quast.
pub fn flow_of_one_read(
    alloc: Global,
    model: &Model,
    sources: &[ReadSource],
) -> Result<Vec<Dep>, AllocError>
    requires kernel { IsOfKernel model.now }
    requires sources { AreLastSources model.now sources.now }
    requires resolved { All IsResolved sources.now }
    ensures { IfOk result (λ v. (reader : Side) (quast : Postfix) → read_sides_in model.now ≡ reader ∷ []
        → sources.now ≡ source.Resolved quast ∷ [] → v.items ≡ leaf_deps Later model.now reader (tree_of quast)) }
{
    flow(alloc, model, sources)
}

/// The first place of a kernel without parameters and the second are a pair of one of them, where the second reads what
/// the first wrote, by `trees` and by `sources` of `flow_holds_the_sources`.
pub fn flow_in_kernels_without_parameters()
    ensures trees { (program : Program) (trees : List Tree) (v w : Visit) → HasParameters program []
        → AreLastTrees (model_of program) 0 (reads_of (model_of program)) trees
        → slice_get (walk_of program []) 0 ≡ Some v → slice_get (walk_of program []) 1 ≡ Some w
        → last_of (walk_of program []) 1 1 ≡ Some 0 → IsPairIn [] (flow_of (model_of program) trees) v w }
    ensures sources { (program : Program) (sources : List ReadSource) (v w : Visit) → HasParameters program []
        → AreLastSources (model_of program) sources → All IsResolved sources
        → slice_get (walk_of program []) 0 ≡ Some v → slice_get (walk_of program []) 1 ≡ Some w
        → last_of (walk_of program []) 1 1 ≡ Some 0
        → IsPairIn [] (flow_of (model_of program) (map tree_in sources)) v w }
{
    flow_holds_the_sources();
}

/// In kernels without parameters their points are the reads with their last writers, by the clause of
/// `flow_points_are_the_sources`, each clause one of its directions.
pub fn flow_points_in_kernels_without_parameters()
    ensures only { (program : Program) (trees : List Tree) (x y : Instance) → HasParameters program []
        → AreLastTrees (model_of program) 0 (reads_of (model_of program)) trees
        → HavePoint [] (flow_of (model_of program) trees) x y → ReadsFrom (walk_of program []) x y }
    ensures all { (program : Program) (trees : List Tree) (x y : Instance) → HasParameters program []
        → AreLastTrees (model_of program) 0 (reads_of (model_of program)) trees
        → ReadsFrom (walk_of program []) x y → HavePoint [] (flow_of (model_of program) trees) x y }
{
    flow_points_are_the_sources();
}

/// Each of them has a dimension for each turn of two statements of the model, by the clause of
/// `flow_lies_between_statements`.
pub fn flow_has_the_turns_of_both_ends()
    ensures { (model : KernelModel) (trees : List Tree) (d : Dependence) → IsOfKernel model
        → In d (flow_of model trees)
        → (from : Modelled) × (to : Modelled) × (slice_get model.statements d.source.statement ≡ Some from)
        × (slice_get model.statements d.target.statement ≡ Some to)
        × (from.domain.dimensions + to.domain.dimensions ≤ d.system.dimensions)
        × (d.system.parameters ≡ model.parameters) }
{
    flow_lies_between_statements();
}
