//! Callers of the sources of reads, and of what overwrites them.
ghost use Rattle.std.specs.Prelude.{◌≡◌, ◌≢◌, [], ℕ, IfOk, None, Some, slice_get};
ghost use Rattle.quast_trees.specs.Leaf.{initial};
ghost use Rattle.quast_trees.specs.Postfix.{Postfix, tree_of};
ghost use Rattle.quast_trees.specs.Value.{value};
ghost use Rattle.scop_syntax.specs.Cells.{Cell};
ghost use Rattle.scop_syntax.specs.Limits.{HasParameters};
ghost use Rattle.scop_syntax.specs.Tree.{Program};
ghost use Rattle.scop_syntax.specs.Walk.{Visit, walk_of};
ghost use Rattle.scop_syntax.specs.Writers.{last_writer, next_writer};
ghost use Rattle.iteration_domains.specs.Model.{model_of};
ghost use Rattle.conflict_deps.specs.Pairs.{TouchesAt};
ghost use Rattle.dataflow.specs.ReadSources.{reads_of};
ghost use Rattle.dataflow.specs.Posed.{IsOfKernel};
ghost use Rattle.dataflow.specs.declared.source.ReadSource.TheVariants as source;
ghost use Rattle.dataflow.specs.declared.source.SourceStop.TheVariants as stop;
ghost use Rattle.pip_solver.specs.declared.stop.Stop.TheVariants as solver;

use dataflow::{ReadSource, last_writes, next_writes};
use iteration_domains::Model;
use std::alloc::{AllocError, Global};

/// Without statements there is no source, by `sources` of `last_writes`; in a kernel without parameters a resolved read
/// of a cell that nothing wrote before is initial, by `last`. No read is unresolved for want of memory, by `told`.
pub fn sources_of_reads(
    alloc: Global,
    model: &Model,
    budget: u64,
) -> Result<Vec<ReadSource>, AllocError>
    requires { IsOfKernel model.now }
    ensures sources { IfOk result (λ v. model.now.statements ≡ [] → v.items ≡ []) }
    ensures last { IfOk result (λ v. (program : Program) (j : ℕ) (w : Visit) (access : ℕ) (c : Cell) (k : ℕ)
        (quast : Postfix) → model.now ≡ model_of program → HasParameters program []
        → TouchesAt program [] j w access c → slice_get (reads_of model.now) k ≡ Some (w.number, access)
        → slice_get v.items k ≡ Some (source.Resolved quast) → last_writer (walk_of program []) j c ≡ None
        → value (tree_of quast) w.turns ≡ initial) }
    ensures told { IfOk result (λ v. (k : ℕ)
        → slice_get v.items k ≢ Some (source.Unresolved (stop.Solver solver.NoMemory))) }
{
    last_writes(alloc, model, budget)
}

/// The same of next writers: by `sources` of `next_writes`; a resolved read of a cell that nothing writes behind it is
/// initial, by `next`; and by `told`.
pub fn next_writers_of_reads(
    alloc: Global,
    model: &Model,
    budget: u64,
) -> Result<Vec<ReadSource>, AllocError>
    requires { IsOfKernel model.now }
    ensures sources { IfOk result (λ v. model.now.statements ≡ [] → v.items ≡ []) }
    ensures next { IfOk result (λ v. (program : Program) (j : ℕ) (w : Visit) (access : ℕ) (c : Cell) (k : ℕ)
        (quast : Postfix) → model.now ≡ model_of program → HasParameters program []
        → TouchesAt program [] j w access c → slice_get (reads_of model.now) k ≡ Some (w.number, access)
        → slice_get v.items k ≡ Some (source.Resolved quast) → next_writer (walk_of program []) j c ≡ None
        → value (tree_of quast) w.turns ≡ initial) }
    ensures told { IfOk result (λ v. (k : ℕ)
        → slice_get v.items k ≢ Some (source.Unresolved (stop.Solver solver.NoMemory))) }
{
    next_writes(alloc, model, budget)
}
