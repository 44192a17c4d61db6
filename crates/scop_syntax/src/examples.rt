//! Worked examples of the meaning, as contracts of functions that do nothing: the edges of each
//! operator, and what small programs leave in the arrays.
ghost use Rattle.std.specs.Prelude.{◌≡◌, ◌-◌, ◌^◌, [], ◌∷◌, negsuc};
ghost use Rattle.scop_syntax.specs.Tree.{affine, binary, bits_xor, combined_narrow, complemented, constant, converted};
ghost use Rattle.scop_syntax.specs.Tree.{implied, minus, moved_left, moved_left_narrow, moved_right, narrowed, negated};
ghost use Rattle.scop_syntax.specs.Tree.{plus, shifted_right, times};
ghost use Rattle.scop_syntax.specs.Values.{applied, stored_by, value_on};
ghost use Rattle.scop_syntax.specs.Execution.{exec};
ghost use Rattle.scop_syntax.specs.Limits.{WithinLimits};
ghost use Rattle.scop_syntax.specs.Examples.{falling_by_two, form, guarded_by_an_equality, rising};

/// Sums, differences and products wrap at 2^64.
pub fn operators_wrap()
    ensures plus { applied plus (2 ^ 64 - 1) 2 ≡ 1 }
    ensures minus { applied minus 5 7 ≡ 2 ^ 64 - 2 }
    ensures none { applied minus 7 0 ≡ 7 }
    ensures times { applied times (2 ^ 63) 3 ≡ 2 ^ 63 }
    ensures xor { applied bits_xor 12 10 ≡ 6 }
{}

/// `-x` and `~x` are taken modulo 2^64, an affine part too; `>>` is unsigned.
pub fn one_sided_operators()
    ensures negated { value_on (negated (constant 1)) [] [] ≡ 2 ^ 64 - 1 }
    ensures zero { value_on (negated (constant 0)) [] [] ≡ 0 }
    ensures complemented { value_on (complemented (constant 1)) [] [] ≡ 2 ^ 64 - 2 }
    ensures affine { value_on (affine (form [] (negsuc 2))) [] [] ≡ 2 ^ 64 - 3 }
    ensures shifted { value_on (shifted_right (negated (constant 1)) 63) [] [] ≡ 1 }
{}

/// `<<=` drops what leaves 64 bits, `>>=` brings in zeros.
pub fn shifts_of_a_place()
    ensures left { stored_by (moved_left 63) [] (3 ∷ []) ≡ 2 ^ 63 }
    ensures right { stored_by (moved_right 1) [] (3 ∷ []) ≡ 1 }
{}

/// What is kept to 32 bits wraps at 2^32, a signed part too.
pub fn narrow_values_wrap()
    ensures plus { value_on (narrowed implied (binary plus (constant (2 ^ 32 - 1)) (constant 2))) [] [] ≡ 1 }
    ensures affine { value_on (narrowed converted (affine (form [] (negsuc 2)))) [] [] ≡ 2 ^ 32 - 3 }
    ensures minus { stored_by (combined_narrow minus (constant 7)) [] (5 ∷ []) ≡ 2 ^ 32 - 2 }
    ensures left { stored_by (moved_left_narrow 31) [] (3 ∷ []) ≡ 2 ^ 31 }
{}

/// The direction and the stride of a loop decide which cells it reads after which stores.
pub fn loops_run_in_their_direction()
    ensures falling { exec falling_by_two [] ((1 ∷ 2 ∷ 3 ∷ 4 ∷ []) ∷ []) ≡ (1 ∷ 1 ∷ 3 ∷ 3 ∷ []) ∷ [] }
    ensures rising { exec rising [] ((1 ∷ 2 ∷ 3 ∷ 4 ∷ []) ∷ []) ≡ (1 ∷ 1 ∷ 1 ∷ 1 ∷ []) ∷ [] }
{}

/// A guard by `==` lets one turn run; `-=` reads its place first.
pub fn guards_let_single_turns_run()
    ensures { exec guarded_by_an_equality [] ((1 ∷ 5 ∷ 3 ∷ 4 ∷ []) ∷ []) ≡ (1 ∷ 5 ∷ (2 ^ 64 - 2) ∷ 4 ∷ []) ∷ [] }
{}

/// The limits can be met: a program with a falling loop is a kernel.
pub fn kernels_are_there()
    ensures { WithinLimits falling_by_two [] }
{}
