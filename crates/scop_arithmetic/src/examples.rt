//! Worked values of C's arithmetic in each type, as contracts of functions that do nothing.
ghost use Rattle.std.specs.Prelude.{◌≡◌, ◌+◌, ◌-◌, ◌^◌, ◌∷◌, [], map};
ghost use Rattle.scop_expressions.specs.Assign.TheVariants as assign;
ghost use Rattle.scop_expressions.specs.Op.TheVariants as op;
ghost use Rattle.scop_expressions.specs.Width.TheVariants as width;
ghost use Rattle.scop_expressions.specs.declared.token.Sign.TheVariants as sign;
ghost use Rattle.scop_roles.specs.Formula.{binary, cast, unary};
ghost use Rattle.scop_arithmetic.specs.Arithmetic.{full as uint64, narrow as uint32, stored};
ghost use Rattle.scop_arithmetic.specs.Examples.{full, int, leaves, makes, narrow, number, row, stores, value};

/// Beside an int, or among themselves, values of 32 bits wrap at 2^32; beside one of 64 bits they keep their value.
pub fn operators_compute_in_the_type_of_their_sides()
    ensures plus { row op.Plus ≡ makes (2 ^ 32 - 3) (2 ^ 32 - 3) (2 ^ 32 - 3) (2 ^ 64 - 3) }
    ensures minus { row op.Minus ≡ makes 1 (2 ^ 32 + 1) (2 ^ 64 - 2 ^ 32 + 1) 1 }
    ensures times { row op.Times ≡ makes 2 (2 ^ 64 - 2 ^ 33 + 2) (2 ^ 64 - 2 ^ 32 + 2) 2 }
    ensures and { row op.BitAnd ≡ makes (2 ^ 32 - 2) (2 ^ 32 - 2) (2 ^ 32 - 2) (2 ^ 64 - 2) }
    ensures or { row op.BitOr ≡ makes (2 ^ 32 - 1) (2 ^ 64 - 1) (2 ^ 64 - 1) (2 ^ 64 - 1) }
    ensures xor { row op.BitXor ≡ makes 1 (2 ^ 64 - 2 ^ 32 + 1) (2 ^ 64 - 2 ^ 32 + 1) 1 }
{}

/// Signs and shifts keep the type of their operand; a cast to 32 bits drops those above, one to 64 adds zeros.
pub fn other_operators_keep_or_change_the_type()
    ensures negated { map (λ f. value (unary sign.Minus f 0)) (narrow 2 ∷ full 2 ∷ []) ≡ 2 ∷ 2 ∷ [] }
    ensures complemented { map (λ f. value (unary sign.Complement f 0)) (narrow 2 ∷ full 2 ∷ []) ≡ 1 ∷ 1 ∷ [] }
    ensures left { value (binary op.ShiftLeft (narrow 1) (number 31) 0) ≡ 2 ^ 31 }
    ensures left_full { value (binary op.ShiftLeft (full 1) (number 63) 0) ≡ 2 ^ 63 }
    ensures right { value (binary op.ShiftRight (narrow 1) (number 31) 0) ≡ 1 }
    ensures right_full { value (binary op.ShiftRight (full 1) (number 63) 0) ≡ 1 }
    ensures cast { map (λ f. value (cast width.Narrow f 0)) (int 2 ∷ narrow 2 ∷ full 2 ∷ [])
        ≡ (2 ^ 32 - 2) ∷ (2 ^ 32 - 2) ∷ (2 ^ 32 - 2) ∷ [] }
    ensures cast_full { map (λ f. value (cast width.Full f 0)) (int 2 ∷ narrow 2 ∷ full 2 ∷ [])
        ≡ (2 ^ 64 - 2) ∷ (2 ^ 32 - 2) ∷ (2 ^ 64 - 2) ∷ [] }
{}

/// What is stored is converted to the place's type, behind what the operator makes of the place and the value.
pub fn operators_store_in_the_type_of_the_place()
    ensures set { stores assign.Set ≡ leaves (2 ^ 32 - 2) (2 ^ 32 - 2) (2 ^ 64 - 2) }
    ensures plus { stores assign.Plus ≡ leaves (2 ^ 32 - 3) (2 ^ 32 - 3) (2 ^ 64 - 3) }
    ensures minus { stores assign.Minus ≡ leaves 1 (2 ^ 64 - 2 ^ 32 + 1) 1 }
    ensures times { stores assign.Times ≡ leaves 2 (2 ^ 64 - 2 ^ 32 + 2) 2 }
    ensures and { stores assign.And ≡ leaves (2 ^ 32 - 2) (2 ^ 32 - 2) (2 ^ 64 - 2) }
    ensures or { stores assign.Or ≡ leaves (2 ^ 32 - 1) (2 ^ 64 - 1) (2 ^ 64 - 1) }
    ensures xor { stores assign.Xor ≡ leaves 1 (2 ^ 64 - 2 ^ 32 + 1) 1 }
    ensures left { stored uint32 uint32 assign.ShiftLeft (2 ^ 32 - 1) 31 ≡ 2 ^ 31 }
    ensures right { stored uint32 uint32 assign.ShiftRight (2 ^ 32 - 1) 31 ≡ 1 }
    ensures left_full { stored uint64 uint32 assign.ShiftLeft (2 ^ 64 - 1) 63 ≡ 2 ^ 63 }
{}
