//! Laws of kernel vectors. Each law is the contract of a function that does nothing.
ghost use Rattle.std.specs.Prelude.{◌≡◌, ℕ, suc, ◌≤◌, ◌<◌, ◌*◌, ℤ, pos, [], ◌∷◌, ◌++◌, List, All, length};
ghost use Rattle.whole_numbers.specs.Lists.{dot};
ghost use Rattle.null_space.specs.Echelon.{AreKernelVectors, IsOrthogonal, IsSpanned};
ghost use Rattle.null_space.specs.Narrowing.{narrowed_by, kernel_vectors, units_from, Grows};
ghost use Rattle.null_space.specs.Sizes.{AreWithin, AreCoefficients, AreLong, AreNarrow};

/// The vectors that are narrowed row by row are those of the reduced echelon form: one for each free column, least,
/// positive there and 0 at the other free columns; no other list of vectors is; and one more row narrows any such list
/// to that of the rows with it.
pub fn kernel_vectors_are_those_of_the_reduced_echelon_form()
    ensures are { (n : ℕ) (rows : List (List ℤ)) → AreKernelVectors n rows (kernel_vectors n rows) }
    ensures unique { (n : ℕ) (rows ns ms : List (List ℤ))
        → AreKernelVectors n rows ns → AreKernelVectors n rows ms → ns ≡ ms }
    ensures more { (n : ℕ) (rows : List (List ℤ)) (row : List ℤ) (ns : List (List ℤ))
        → AreKernelVectors n rows ns → AreKernelVectors n (rows ++ row ∷ []) (narrowed_by row ns) }
{}

/// A vector that is orthogonal to all rows is a rational combination of their kernel vectors.
pub fn kernel_vectors_span_what_is_orthogonal()
    ensures { (n : ℕ) (rows ns : List (List ℤ)) (v : List ℤ)
        → AreKernelVectors n rows ns → length v ≡ n → IsOrthogonal rows v → IsSpanned n ns v }
{}

/// With no kernel vector left only 0 is orthogonal to all rows: its product with any vector is 0.
#[tactic(auto, using(crate::proofs::Spans::full_rank))]
pub fn full_rank_leaves_only_0()
    ensures { (n : ℕ) (rows : List (List ℤ)) (v : List ℤ)
        → length v ≡ n → kernel_vectors n rows ≡ [] → IsOrthogonal rows v → (w : List ℤ) → dot v w ≡ pos 0 }
{}

/// A row adds no kernel vector, and one that grows the rank takes one.
#[tactic(auto, using(crate::proofs::ListLoops::narrowed_laws))]
pub fn rows_take_kernel_vectors()
    ensures most { (c : List ℤ) (ns : List (List ℤ)) → length (narrowed_by c ns) ≤ length ns }
    ensures grows { (c : List ℤ) (ns : List (List ℤ)) → Grows c ns → suc (length (narrowed_by c ns)) ≡ length ns }
{}

/// Kernel vectors are kept from row to row: the units with no row, as long as the columns, and narrowed by each
/// further row.
#[tactic(auto, using(crate::proofs::ListLoops::kept_laws))]
pub fn kernel_vectors_are_kept()
    ensures units { (n : ℕ) → kernel_vectors n [] ≡ units_from n 0 n }
    ensures lengths { (n : ℕ) (rows : List (List ℤ)) → AreLong n (kernel_vectors n rows) }
    ensures more { (n : ℕ) (rows : List (List ℤ)) (row : List ℤ)
        → kernel_vectors n (rows ++ row ∷ []) ≡ narrowed_by row (kernel_vectors n rows) }
{}

/// The kernel vectors of rows over at most 5 columns are so small that one more row narrows them within 128 bits.
#[tactic(auto, using(crate::proofs::KernelSizes::kernel_narrow))]
pub fn kernel_vectors_are_narrow()
    ensures { (n : ℕ) (rows : List (List ℤ))
        → n ≤ 5 → All AreCoefficients rows → AreNarrow (kernel_vectors n rows) }
{}

/// For coefficients of any size m: while several vectors are left over at most 5 columns, their entries are at most
/// 24 m^3, since they are minors of at most three rows, divided by some number.
#[tactic(auto, using(crate::proofs::KernelSizes::kernel_sizes))]
pub fn several_kernel_vectors_are_small()
    ensures { (m n : ℕ) (rows : List (List ℤ))
        → n ≤ 5 → 0 < m → All (AreWithin m) rows → 2 ≤ length (kernel_vectors n rows)
        → All (AreWithin (24 * (m * m * m))) (kernel_vectors n rows) }
{}
