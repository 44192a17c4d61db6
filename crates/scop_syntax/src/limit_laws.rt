//! Laws of kernels within the limits, as contracts of functions that do nothing: how large the
//! numbers of a run get.
ghost use Rattle.std.specs.Prelude.{◌≡◌, ℕ, ◌^◌, ◌<◌, ◌≤◌, ℤ, pos, ◌<ℤ◌, ◌≤ℤ◌, List, All, length, unsigned_abs};
ghost use Rattle.whole_numbers.specs.Affine.{Affine, value_of};
ghost use Rattle.scop_syntax.specs.Tree.{Program};
ghost use Rattle.scop_syntax.specs.Members.{In};
ghost use Rattle.scop_syntax.specs.Walk.{walk_of};
ghost use Rattle.scop_syntax.specs.Cells.{Cell};
ghost use Rattle.scop_syntax.specs.Execution.{IsCell, cell_count, cell_number, layout};
ghost use Rattle.scop_syntax.specs.Failures.{VisitsAreRanked};
ghost use Rattle.scop_syntax.specs.Fits.{FitsAll};
ghost use Rattle.scop_syntax.specs.Kernel.{AreAtMost, IsAffine, IsKernel};
ghost use Rattle.scop_syntax.specs.Limits.{HasParameters, WithinLimits};
ghost use Rattle.scop_syntax.specs.Statements.{Placed, Runs, point_of, statements_of};

/// For parameters in 0..=65536 every number that a run forms fits 64 bits.
pub fn numbers_of_runs_fit()
    ensures { (program : Program) (params : List ℤ) → HasParameters program params → FitsAll program.body params }
{}

/// For parameters in 0..=65536 the entries of a point at which a statement runs lie within 2^40, the values of
/// affine forms there within 2^45, and the turns below 2^46.
#[tactic(auto, using(crate::proofs::Bounds::bound_laws))]
pub fn values_lie_within_45_bits()
    ensures points { (program : Program) (params xs : List ℤ) (p : Placed) → HasParameters program params
        → In p (statements_of program) → Runs p.scopes params xs → AreAtMost (2 ^ 40) (point_of p.scopes params xs) }
    ensures values { (program : Program) (params xs : List ℤ) (p : Placed) (n : ℕ) (form : Affine)
        → HasParameters program params
        → In p (statements_of program) → Runs p.scopes params xs → IsAffine n form
        → unsigned_abs (value_of form (point_of p.scopes params xs)) ≤ 2 ^ 45 }
    ensures turns { (program : Program) (params xs : List ℤ) (p : Placed) → HasParameters program params
        → In p (statements_of program) → Runs p.scopes params xs
        → All (λ x. (pos 0 ≤ℤ x) × (x <ℤ pos (2 ^ 46))) xs }
{}

/// Each access of a kernel names an array, with a subscript for each of its dimensions.
#[tactic(auto, using(crate::proofs::Bounds::bound_laws))]
pub fn accesses_have_the_ranks_of_arrays()
    ensures { (program : Program) (params : List ℤ) → IsKernel program → length params ≡ length program.parameters
        → VisitsAreRanked (layout program params) (walk_of program params) }
{}

/// Within the limits extents lie in 1..=2^22, no array has more than 2^22 cells, and the numbers of
/// cells lie below 2^22.
#[tactic(auto, using(crate::proofs::Bounds::bound_laws))]
pub fn cells_lie_within_22_bits()
    ensures extents { (program : Program) (params : List ℤ) → WithinLimits program params
        → All (λ extents. All (λ e. (1 ≤ e) × (e ≤ 2 ^ 22)) extents) (layout program params) }
    ensures counts { (program : Program) (params : List ℤ) → WithinLimits program params
        → All (λ extents. cell_count extents ≤ 2 ^ 22) (layout program params) }
    ensures numbers { (program : Program) (params : List ℤ) (c : Cell) → WithinLimits program params
        → IsCell (layout program params) c → cell_number (layout program params) c < 2 ^ 22 }
{}
