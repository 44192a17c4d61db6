//! Laws of the arrays that are only added to, as contracts of functions that do nothing.
ghost use Rattle.std.specs.Prelude.{ℕ, ◌<◌, ◌↔◌, ℤ, List};
ghost use Rattle.scop_syntax.specs.Members.{In, Sorted};
ghost use Rattle.scop_syntax.specs.Reductions.{AreMarked, IsReduced, marks};
ghost use Rattle.scop_syntax.specs.Tree.{Program};
ghost use Rattle.scop_syntax.specs.Walk.{walk_of};

use crate::walk_laws::instances_are_those_of_statements;

/// The marks of a program are exactly the arrays that its statements only add to, in rising order, and its instances add
/// to what they write there and load nothing from there, at all parameters.
pub fn marks_are_the_reduced_arrays()
    ensures reduced { (program : Program) (a : ℕ) → In a (marks program) ↔ IsReduced program a }
    ensures rise { (program : Program) → Sorted (λ (a b : ℕ). a < b) (marks program) }
    ensures walk { (program : Program) (params : List ℤ) → AreMarked (marks program) (walk_of program params) }
{
    instances_are_those_of_statements();
}
