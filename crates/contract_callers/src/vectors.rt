//! Callers of kernel vectors.
ghost use Rattle.std.specs.Prelude.{◌≡◌, ◌≤◌, ◌<ℤ◌, ◌∷◌, [], ℕ, ℤ, List, IfOk, All, length, map, negsuc, pos};
ghost use Rattle.whole_numbers.specs.Lists.{multiples};
ghost use Rattle.null_space.specs.Echelon.{AreKernelVectors, AreOf, IsKernelVector, IsOrthogonal, combination};
ghost use Rattle.null_space.specs.Narrowing.{kernel_vectors};
ghost use Rattle.null_space.specs.Sizes.{AreCoefficients, AreLong, AreWithin};

use null_space::Rows;
use std::alloc::{AllocError, Global};

/// Each vector is that of a column, by `are` of `kernel_vectors`.
pub fn vectors_of_columns(
    alloc: Global,
    columns: usize,
    rows: &[Vec<i128>],
) -> Result<Rows, AllocError>
    requires columns { columns ≤ 5 }
    requires lengths { AreLong columns (map (λ v. v.items) rows.now) }
    requires coefficients { All AreCoefficients (map (λ v. v.items) rows.now) }
    ensures { IfOk result (λ vectors. (at : List ℕ)
        × AreOf (IsKernelVector columns (map (λ v. v.items) rows.now)) at (map (λ v. v.items) vectors.items)) }
{
    null_space::kernel_vectors(alloc, columns, rows)
}

/// A multiple of an orthogonal vector is a combination, by the clause of `kernel_vectors_span_what_is_orthogonal`.
pub fn orthogonal_vectors_are_combinations()
    ensures { (n : ℕ) (rows vectors : List (List ℤ)) (v : List ℤ) → AreKernelVectors n rows vectors → length v ≡ n
        → IsOrthogonal rows v
        → (k : ℤ) × (factors : List ℤ) × (pos 0 <ℤ k) × (multiples k v ≡ combination n factors vectors) }
{
    null_space::kernel_vectors_span_what_is_orthogonal();
}

/// Several vectors of rows with entries of at most 1 have entries of at most 24, by the clause of
/// `several_kernel_vectors_are_small`.
pub fn several_vectors_of_small_rows()
    ensures { (n : ℕ) (rows : List (List ℤ)) → n ≤ 5 → All (AreWithin 1) rows → 2 ≤ length (kernel_vectors n rows)
        → All (AreWithin 24) (kernel_vectors n rows) }
{
    null_space::several_kernel_vectors_are_small();
}

/// Of the row (2, -4) the one vector is (2, 1), by `are` of `kernel_vectors_are_those_of_the_reduced_echelon_form`, and
/// no other, by `unique`; (0, 1, -1) narrows those of (1, 0, -1) to (1, 1, 1), by `more`.
pub fn vectors_of_small_rows()
    ensures are { AreKernelVectors 2 ((pos 2 ∷ negsuc 3 ∷ []) ∷ []) ((pos 2 ∷ pos 1 ∷ []) ∷ []) }
    ensures unique { (vectors : List (List ℤ)) → AreKernelVectors 2 ((pos 2 ∷ negsuc 3 ∷ []) ∷ []) vectors
        → vectors ≡ (pos 2 ∷ pos 1 ∷ []) ∷ [] }
    ensures more { AreKernelVectors 3 ((pos 1 ∷ pos 0 ∷ negsuc 0 ∷ []) ∷ (pos 0 ∷ pos 1 ∷ negsuc 0 ∷ []) ∷ [])
        ((pos 1 ∷ pos 1 ∷ pos 1 ∷ []) ∷ []) }
{
    null_space::kernel_vectors_are_those_of_the_reduced_echelon_form();
}
