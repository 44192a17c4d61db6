//! What the joins over all candidates answer, as contracts of functions that do nothing.
ghost use Rattle.std.specs.Prelude.{◌≡◌, ℕ, ℤ, ◌+◌, ◌++◌, ◌<◌, ◌^◌, List, length, Ok};
ghost use Rattle.whole_numbers.specs.Lists.{NotNegative};
ghost use Rattle.whole_numbers.specs.Affine.{values_of};
ghost use Rattle.whole_numbers.specs.Lexicographic.{LexLe};
ghost use Rattle.tableau_rows.specs.Problem.{problem_of, row_values};
ghost use Rattle.pip_solver.specs.Leaves.{IsAnswer};
ghost use Rattle.quast_trees.specs.Tree.{Tree, initial};
ghost use Rattle.quast_trees.specs.Value.{value};
ghost use Rattle.quast_joins.specs.declared.way.Way.{Way};
ghost use Rattle.scop_syntax.specs.Cells.{Cell};
ghost use Rattle.scop_syntax.specs.Kernel.{IsKernel};
ghost use Rattle.scop_syntax.specs.Limits.{HasParameters};
ghost use Rattle.scop_syntax.specs.Members.{In};
ghost use Rattle.scop_syntax.specs.Tree.{Program};
ghost use Rattle.scop_syntax.specs.Walk.{Visit, walk_of};
ghost use Rattle.iteration_domains.specs.Dependence.{Dependence};
ghost use Rattle.iteration_domains.specs.Model.{KernelModel, model_of};
ghost use Rattle.conflict_deps.specs.Conflicts.{loops_of};
ghost use Rattle.conflict_deps.specs.Pairs.{TouchesAt};
ghost use Rattle.conflict_deps.specs.Parts.{HasParts};
ghost use Rattle.dataflow.specs.ReadSources.{AreSources, reads_of};
ghost use Rattle.dataflow.specs.Candidates.{joined, IsWanted};
ghost use Rattle.dataflow.specs.Flips.{flipped};
ghost use Rattle.dataflow.specs.Places.{Names};
ghost use Rattle.dataflow.specs.Problems.{all_below, posed_rows, posed_context, turned_leaf};
ghost use Rattle.dataflow.specs.Posed.{IsOfKernel};
ghost use Rattle.dataflow.specs.Sources.{IsCandidate, IsSolved, IsWritePoint, reader_side, wanted_writer, writer_side};
ghost use Rattle.dataflow.specs.Told.{AreTold};
ghost use Rattle.dataflow.specs.WriterRuns.{writers_run};
ghost use Rattle.dataflow.specs.declared.source.ReadSource.{ReadSource};

use scop_syntax::{
    instances_are_those_of_statements, statements_are_numbered, values_lie_within_45_bits,
    walks_are_in_order,
};

/// The join over all candidates of an access names the wanted writer of its cell, the last before it or the next behind
/// it, and the initial value where there is none.
pub fn joins_are_the_writers()
    ensures { (way : Way) (program : Program) (params : List ℤ) (j : ℕ) (w : Visit) (b : ℕ) (c : Cell) (n : ℕ)
        (point : List ℤ) (tree_of : Dependence → Tree) (deps : List Dependence) → IsKernel program
        → length params ≡ length program.parameters → NotNegative params → TouchesAt program params j w b c
        → length point ≡ n → ((dep : Dependence) → IsCandidate way program w b dep → In dep deps)
        → ((dep : Dependence) → In dep deps → IsCandidate way program w b dep)
        → ((dep : Dependence) → In dep deps → IsSolved way program params w n point dep (tree_of dep))
        → Names (walk_of program params) (value (joined way n tree_of initial deps) point)
        (wanted_writer way (walk_of program params) j c) }
{
    instances_are_those_of_statements();
    statements_are_numbered();
    walks_are_in_order();
}

/// A minimum in x' is a maximum in x where x = top - x'.
pub fn minima_are_maxima()
    ensures values { (top : ℤ) (xs : List ℤ)
        → values_of (all_below top (length xs) 0 (length xs)) xs ≡ flipped top xs }
    ensures order { (top : ℤ) (xs ys : List ℤ) → length xs ≡ length ys → LexLe xs ys
        → LexLe (flipped top ys) (flipped top xs) }
    ensures twice { (top : ℤ) (xs : List ℤ) → flipped top (flipped top xs) ≡ xs }
{}

/// The minimum of a candidate's problem, for a last writer turned back by x = 2^46 - x', is with the candidate's source
/// the greatest writer's turns at each walked instance of the reader, or the least next writer's, or the initial value
/// where the candidate has no writer.
pub fn minima_are_the_writers()
    ensures { (way : Way) (program : Program) (params : List ℤ) (j : ℕ) (w : Visit) (b : ℕ) (c : Cell)
        (dep : Dependence) (p : HasParts (model_of program) dep) (number : ℕ) (loops : List ℕ) (t : Tree)
        → HasParameters program params → TouchesAt program params j w b c → IsCandidate way program w b dep
        → (reader_side way p.from p.to).statement.number ≡ w.number
        → ((q : List ℤ) → length q ≡ length params + loops_of (reader_side way p.from p.to) → NotNegative q
        → NotNegative (row_values (posed_context (reader_side way p.from p.to).statement (length params)) q)
        → IsAnswer (problem_of (loops_of (writer_side way p.from p.to)) (posed_rows way
        (writer_side way p.from p.to).statement (reader_side way p.from p.to).statement (length params) dep)) q
        (value t q))
        → IsWanted way number loops (λ xs. IsWritePoint way program params dep xs w.turns)
        (turned_leaf way number loops (value t (params ++ w.turns))) }
{
    instances_are_those_of_statements();
    statements_are_numbered();
    walks_are_in_order();
    values_lie_within_45_bits();
}

/// Where the run over an access's candidates ends well, its quast names at each walked instance the wanted writer of the
/// cell that the access touches, the last before it or the next behind it, and the initial value exactly where there is
/// none.
pub fn resolved_reads_have_their_writers()
    ensures { (way : Way) (program : Program) (params : List ℤ) (j : ℕ) (w : Visit) (access : ℕ) (c : Cell)
        (budget : ℕ) (u : Tree) → HasParameters program params → TouchesAt program params j w access c
        → writers_run way (model_of program) budget w.number access ≡ Ok u
        → Names (walk_of program params) (value u (params ++ w.turns))
        (wanted_writer way (walk_of program params) j c) }
{
    instances_are_those_of_statements();
    statements_are_numbered();
    walks_are_in_order();
    values_lie_within_45_bits();
}

/// What the sources of a kernel's reads are made of: each read has one; a quast speaks of the parameters, the reader's
/// turns and what is bound round the place, names instances of the kernel's statements, and has few nodes; no read is
/// unresolved for want of memory.
pub fn sources_are_told()
    ensures { (way : Way) (model : KernelModel) (budget : ℕ) (sources : List ReadSource) → IsOfKernel model
        → budget < 2 ^ 64 → AreSources way model budget (reads_of model) sources
        → AreTold model (reads_of model) sources }
{
    statements_are_numbered();
}
