//! Callers of the dependences that hold each access with its last writers and each read with its next.
ghost use Rattle.std.specs.Prelude.{◌≡◌, ◌↔◌, ◌≤◌, ◌+◌, [], ◌∷◌, ℕ, IfOk, List, Ok, Err, Some, false, slice_get, true};
ghost use Rattle.quast_trees.specs.Tree.{Tree};
ghost use Rattle.quast_joins.specs.declared.way.Way.TheVariants.{Earlier, Later};
ghost use Rattle.scop_syntax.specs.Cells.{Cell};
ghost use Rattle.scop_syntax.specs.Covers.{CoverBy};
ghost use Rattle.scop_syntax.specs.Limits.{HasParameters};
ghost use Rattle.scop_syntax.specs.Members.{In};
ghost use Rattle.scop_syntax.specs.Reductions.{is_marked};
ghost use Rattle.scop_syntax.specs.Tree.{Program};
ghost use Rattle.scop_syntax.specs.Walk.{Instance, Visit, walk_of};
ghost use Rattle.iteration_domains.specs.Dependence.{Dependence};
ghost use Rattle.iteration_domains.specs.Held.{IsPairIn};
ghost use Rattle.iteration_domains.specs.Model.{KernelModel, Modelled, model_of};
ghost use Rattle.conflict_deps.specs.Conflicts.{Side, conflicts_without, sides_in};
ghost use Rattle.dataflow.specs.CoverPoints.{HavePoint, IsConflictOf, IsCoverOf};
ghost use Rattle.dataflow.specs.Covering.{conflicts_at, covers_of, role_deps};
ghost use Rattle.dataflow.specs.Leaves.{leaf_deps};
ghost use Rattle.dataflow.specs.Posed.{IsOfKernel};
ghost use Rattle.dataflow.specs.Runs.{Halt};
ghost use Rattle.dataflow.specs.WriterRuns.{Stopped, writers_run};

use dataflow::{
    covering, covering_points_are_covers, covers_are_held, covers_lie_between_statements,
};
use iteration_domains::{Dep, Model};
use std::alloc::{AllocError, Global};

/// Of a model whose one access is written, by the clause of `covering`: one dependence for each leaf of its quast, where
/// its run ends well, and all conflicts with it as the target where the run has no moves; none where its array is
/// marked.
pub fn covers_of_one_access(
    alloc: Global,
    model: &Model,
    conflicts: &[Dep],
    marked: &[usize],
) -> Result<Vec<Dep>, AllocError>
    requires kernel { IsOfKernel model.now }
    requires conflicts { conflicts.now ≡ conflicts_without marked.now model.now }
    ensures told { IfOk result (λ v. (s : Side) (t : Tree) → sides_in model.now ≡ s ∷ [] → s.number ≡ 0
        → is_marked marked.now s.access.array ≡ false → writers_run Later model.now 0 s.statement.number s.number ≡ Ok t
        → v.items ≡ leaf_deps Later model.now s t) }
    ensures stopped { IfOk result (λ v. (s : Side) (stop : Halt Stopped) → sides_in model.now ≡ s ∷ []
        → s.number ≡ 0 → is_marked marked.now s.access.array ≡ false
        → writers_run Later model.now 0 s.statement.number s.number ≡ Err stop
        → v.items ≡ conflicts_at Later model.now s.statement.number s.number) }
    ensures marked { IfOk result (λ v. (s : Side) → sides_in model.now ≡ s ∷ []
        → is_marked marked.now s.access.array ≡ true → v.items ≡ []) }
{
    covering(alloc, model, conflicts, marked, 0)
}

/// The first place of a kernel without parameters and the second are a pair of one of them, where the second covers the
/// first by a cell of an array that is not marked, by the clause of `covers_are_held`.
pub fn covers_in_kernels_without_parameters()
    ensures { (program : Program) (marked : List ℕ) (c : Cell) (v w : Visit) → HasParameters program []
        → slice_get (walk_of program []) 0 ≡ Some v → slice_get (walk_of program []) 1 ≡ Some w
        → CoverBy (walk_of program []) c 0 1 → is_marked marked c.array ≡ false
        → IsPairIn [] (covers_of 0 marked (model_of program)) v w }
{
    covers_are_held();
}

/// Each of them has a dimension for each turn of two statements of the model, by the clause of
/// `covers_lie_between_statements`.
pub fn covers_have_the_turns_of_both_ends()
    ensures { (model : KernelModel) (marked : List ℕ) (d : Dependence) → IsOfKernel model
        → In d (covers_of 0 marked model)
        → (from : Modelled) × (to : Modelled) × (slice_get model.statements d.source.statement ≡ Some from)
        × (slice_get model.statements d.target.statement ≡ Some to)
        × (from.domain.dimensions + to.domain.dimensions ≤ d.system.dimensions)
        × (d.system.parameters ≡ model.parameters) }
{
    covers_lie_between_statements();
}

/// In kernels without parameters the points of an access's dependences are its covers, by `told` of
/// `covering_points_are_covers`, each clause one of its directions; where the run stops they are its conflicts, by
/// `stopped`.
pub fn points_in_kernels_without_parameters()
    ensures only { (program : Program) (reader : Side) (tree : Tree) (x y : Instance) → HasParameters program []
        → In reader (sides_in (model_of program))
        → writers_run Earlier (model_of program) 0 reader.statement.number reader.number ≡ Ok tree
        → HavePoint [] (role_deps 0 Earlier (model_of program) reader) x y
        → IsCoverOf Earlier (walk_of program []) reader.statement.number reader.number x y }
    ensures all { (program : Program) (reader : Side) (tree : Tree) (x y : Instance) → HasParameters program []
        → In reader (sides_in (model_of program))
        → writers_run Later (model_of program) 0 reader.statement.number reader.number ≡ Ok tree
        → IsCoverOf Later (walk_of program []) reader.statement.number reader.number x y
        → HavePoint [] (role_deps 0 Later (model_of program) reader) x y }
    ensures stopped { (program : Program) (reader : Side) (stop : Halt Stopped) (x y : Instance)
        → HasParameters program []
        → writers_run Earlier (model_of program) 0 reader.statement.number reader.number ≡ Err stop
        → HavePoint [] (role_deps 0 Earlier (model_of program) reader) x y
        ↔ IsConflictOf Earlier (walk_of program []) reader.statement.number reader.number x y }
{
    covering_points_are_covers();
}
