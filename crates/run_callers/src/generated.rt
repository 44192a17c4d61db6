//! Callers of generated kernels: the product of matrices of one cell, and what is told of a case in the end.
ghost use Rattle.std.specs.Prelude.{◌≡◌, ◌≤◌, ◌^◌, [], ◌∷◌, IfOk, pos};
ghost use Rattle.scop_syntax.specs.Execution.{IsInside, IsShaped, layout, total_cells};
ghost use Rattle.scop_syntax.specs.Limits.{WithinLimits};
ghost use Rattle.scop_syntax.specs.View.{program_of};
ghost use Rattle.kernel_gen.specs.Cases.{contents};
ghost use Rattle.kernel_gen.specs.Programs.{product};
ghost use Rattle.kernel_gen.specs.Summary.{summary_text};
ghost use Rattle.kernel_gen.specs.Totals.{cells_in, sum_of};
ghost use Rattle.kernel_gen.specs.declared.kind.Kind.TheVariants.{Product};

use data_text::Case;
use kernel_gen::Kind;
use scop_syntax::{Arrays, Kernel};
use std::alloc::{AllocError, Global};

/// A product of matrices of one cell, by the clauses of `generated` of these names.
pub fn product_of_one_cell(alloc: Global, seed: u64) -> Result<(Kernel, Case), AllocError>
    ensures program { IfOk result (λ made. program_of made.0 ≡ product) }
    ensures params { IfOk result (λ made. made.1.params.items ≡ pos 1 ∷ []) }
    ensures extents { IfOk result (λ made. made.1.extents ≡ layout (program_of made.0) made.1.params.items) }
    ensures contents { IfOk result (λ made. made.1.arrays ≡ contents Product seed 1) }
    ensures limits { IfOk result (λ made. WithinLimits (program_of made.0) made.1.params.items) }
    ensures inside { IfOk result (λ made. IsInside (program_of made.0) made.1.params.items) }
    ensures shape { IfOk result (λ made. IsShaped made.1.extents made.1.arrays) }
{
    kernel_gen::generated(alloc, Kind::Product, seed, 1)
}

/// The text of a case of no tiles, waves and cells, by the clause of `summary`.
pub fn summary_of_nothing(alloc: Global, seed: u64) -> Result<Vec<u8>, AllocError>
    ensures { IfOk result (λ text. text.items ≡ summary_text Product seed 0 0 0 0 0) }
{
    kernel_gen::summary(alloc, Kind::Product, seed, 0, 0, 0, 0, 0)
}

/// How many cells a case has, by the clause of `cells_in`.
pub fn cells_of_a_case(case: &Case) -> u64
    requires shape { IsShaped case.now.extents case.now.arrays }
    requires few { total_cells case.now.extents ≤ 2 ^ 22 }
    ensures { result ≡ cells_in case.now.arrays }
{
    kernel_gen::cells_in(case)
}

/// The sum of cells, by the clause of `sum_of`.
pub fn sum_of_cells(arrays: &Arrays) -> u64
    ensures { result ≡ sum_of arrays.now }
{
    kernel_gen::sum_of(arrays)
}
