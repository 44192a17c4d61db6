//! Kernels whose sources are known from elsewhere, as contracts of a function that does nothing.
ghost use Rattle.std.specs.Prelude.{◌≡◌, [], ◌∷◌, pos};
ghost use Rattle.run_callers.specs.SmallKernels.{numbers_at, sum_and_fill, through_one_cell};

/// Of two statements that pass a value on in one cell, the first reads initial values and the second what the first wrote
/// just before; a sum takes the sum before it, from two places back, and a statement without reads has no source.
pub fn sources_of_small_kernels()
    ensures through { numbers_at through_one_cell (pos 3) 0 (0 ∷ 1 ∷ 2 ∷ 3 ∷ 4 ∷ 5 ∷ [])
        ≡ 0 ∷ 1 ∷ 0 ∷ 3 ∷ 0 ∷ 5 ∷ [] }
    ensures first { numbers_at sum_and_fill (pos 2) 0 (0 ∷ 1 ∷ 2 ∷ 3 ∷ []) ≡ 0 ∷ 0 ∷ 0 ∷ 0 ∷ [] }
    ensures second { numbers_at sum_and_fill (pos 2) 1 (0 ∷ 1 ∷ 2 ∷ 3 ∷ []) ≡ 0 ∷ 0 ∷ 1 ∷ 0 ∷ [] }
{}
