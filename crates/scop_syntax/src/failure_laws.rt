//! Laws of the subscripts that lie outside, as contracts of functions that do nothing.
ghost use Rattle.std.specs.Prelude.{◌≡◌, ℕ, List, Some, None};
ghost use Rattle.scop_syntax.specs.Walk.{Visit};
ghost use Rattle.scop_syntax.specs.Execution.{AreInside};
ghost use Rattle.scop_syntax.specs.Failures.{Failure, IsFirstOutside, VisitsAreRanked, first_outside};

/// There is a first failure exactly where not every cell is one of its array's, and it is the first.
#[tactic(auto, using(crate::proofs::Failures::failure_laws))]
pub fn failures_are_the_first()
    ensures inside { (extents : List (List ℕ)) (visits : List Visit) → VisitsAreRanked extents visits
        → first_outside extents visits ≡ None → AreInside extents visits }
    ensures none { (extents : List (List ℕ)) (visits : List Visit) → AreInside extents visits
        → first_outside extents visits ≡ None }
    ensures first { (extents : List (List ℕ)) (visits : List Visit) (f : Failure) → VisitsAreRanked extents visits
        → first_outside extents visits ≡ Some f → IsFirstOutside extents visits f }
{}
