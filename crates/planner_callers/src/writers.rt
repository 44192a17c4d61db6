//! Callers of what joins and minima over candidates answer: the laws in kernels without parameters.
ghost use Rattle.std.specs.Prelude.{◌≡◌, ◌+◌, [], ℕ, ℤ, List, length, Ok};
ghost use Rattle.whole_numbers.specs.Affine.{values_of};
ghost use Rattle.whole_numbers.specs.Lexicographic.{LexLe};
ghost use Rattle.whole_numbers.specs.Lists.{NotNegative};
ghost use Rattle.tableau_rows.specs.Problem.{problem_of, row_values};
ghost use Rattle.lexmin_runs.specs.Leaves.{IsAnswer};
ghost use Rattle.quast_trees.specs.Tree.{Tree, initial};
ghost use Rattle.quast_trees.specs.Value.{value};
ghost use Rattle.quast_joins.specs.declared.way.Way.{Way};
ghost use Rattle.quast_joins.specs.declared.way.Way.TheVariants.{Later, Earlier};
ghost use Rattle.scop_syntax.specs.Cells.{Cell};
ghost use Rattle.scop_syntax.specs.Kernel.{IsKernel};
ghost use Rattle.scop_syntax.specs.Limits.{HasParameters};
ghost use Rattle.scop_syntax.specs.Members.{In};
ghost use Rattle.scop_syntax.specs.Tree.{Program};
ghost use Rattle.scop_syntax.specs.Walk.{Visit, walk_of};
ghost use Rattle.scop_syntax.specs.Writers.{last_writer, next_writer};
ghost use Rattle.iteration_domains.specs.Dependence.{Dependence};
ghost use Rattle.iteration_domains.specs.Model.{model_of};
ghost use Rattle.conflict_deps.specs.Conflicts.{loops_of};
ghost use Rattle.conflict_deps.specs.Pairs.{TouchesAt};
ghost use Rattle.conflict_deps.specs.Parts.{HasParts};
ghost use Rattle.dataflow.specs.Candidates.{IsWanted, joined};
ghost use Rattle.dataflow.specs.Flips.{flipped};
ghost use Rattle.dataflow.specs.Places.{Names};
ghost use Rattle.dataflow.specs.Problems.{all_below, posed_context, posed_rows, turned_leaf};
ghost use Rattle.dataflow.specs.Sources.{IsCandidate, IsSolved, IsWritePoint, reader_side, wanted_writer, writer_side};
ghost use Rattle.dataflow.specs.WriterRuns.{writers_run};

use dataflow::{
    joins_are_the_writers, minima_are_maxima, minima_are_the_writers,
    resolved_reads_have_their_writers,
};

/// The join over all candidates names the wanted writer, by the clause of `joins_are_the_writers`.
pub fn joins_in_kernels_without_parameters()
    ensures { (way : Way) (program : Program) (j : ℕ) (w : Visit) (b : ℕ) (c : Cell) (point : List ℤ)
        (tree_of : Dependence → Tree) (deps : List Dependence) → IsKernel program → program.parameters ≡ []
        → TouchesAt program [] j w b c → ((dep : Dependence) → IsCandidate way program w b dep → In dep deps)
        → ((dep : Dependence) → In dep deps → IsCandidate way program w b dep)
        → ((dep : Dependence) → In dep deps → IsSolved way program [] w (length point) point dep (tree_of dep))
        → Names (walk_of program []) (value (joined way (length point) tree_of initial deps) point)
        (wanted_writer way (walk_of program []) j c) }
{
    joins_are_the_writers();
}

/// Turns below a number above them, by the clauses of `minima_are_maxima` of the same names: their values, that their
/// order is turned, and that twice is as before.
pub fn turns_below_a_number()
    ensures values { (top : ℤ) (xs : List ℤ) → values_of (all_below top (length xs) 0 (length xs)) xs ≡ flipped top xs }
    ensures order { (top : ℤ) (xs ys : List ℤ) → length xs ≡ length ys → LexLe xs ys
        → LexLe (flipped top ys) (flipped top xs) }
    ensures twice { (top : ℤ) (xs : List ℤ) → flipped top (flipped top xs) ≡ xs }
{
    minima_are_maxima();
}

/// A candidate's minimum is its wanted writer, by the clause of `minima_are_the_writers`.
pub fn minima_in_kernels_without_parameters()
    ensures { (way : Way) (program : Program) (j : ℕ) (w : Visit) (b : ℕ) (c : Cell) (dep : Dependence)
        (p : HasParts (model_of program) dep) (number : ℕ) (loops : List ℕ) (t : Tree) → HasParameters program []
        → TouchesAt program [] j w b c → IsCandidate way program w b dep
        → (reader_side way p.from p.to).statement.number ≡ w.number
        → ((q : List ℤ) → length q ≡ 0 + loops_of (reader_side way p.from p.to) → NotNegative q
        → NotNegative (row_values (posed_context (reader_side way p.from p.to).statement 0) q)
        → IsAnswer (problem_of (loops_of (writer_side way p.from p.to)) (posed_rows way
        (writer_side way p.from p.to).statement (reader_side way p.from p.to).statement 0 dep)) q (value t q))
        → IsWanted way number loops (λ xs. IsWritePoint way program [] dep xs w.turns)
        (turned_leaf way number loops (value t w.turns)) }
{
    minima_are_the_writers();
}

/// A read's run that ends well names the last writer, or the next where it looks on, by the clause of
/// `resolved_reads_have_their_writers`.
pub fn resolved_reads_in_kernels_without_parameters()
    ensures last { (program : Program) (j : ℕ) (w : Visit) (access : ℕ) (c : Cell) (budget : ℕ) (u : Tree)
        → HasParameters program [] → TouchesAt program [] j w access c
        → writers_run Later (model_of program) budget w.number access ≡ Ok u
        → Names (walk_of program []) (value u w.turns) (last_writer (walk_of program []) j c) }
    ensures next { (program : Program) (j : ℕ) (w : Visit) (access : ℕ) (c : Cell) (budget : ℕ) (u : Tree)
        → HasParameters program [] → TouchesAt program [] j w access c
        → writers_run Earlier (model_of program) budget w.number access ≡ Ok u
        → Names (walk_of program []) (value u w.turns) (next_writer (walk_of program []) j c) }
{
    resolved_reads_have_their_writers();
}
