//! Kernels whose results are known from elsewhere, as contracts of functions that do nothing: what
//! `run_plain` leaves in the arrays, who wrote what is read there, and what `first_outside` tells.
ghost use Rattle.std.specs.Prelude.{◌≡◌, ◌-◌, ◌*◌, ◌%◌, ◌^◌, [], ◌∷◌, None, Some, map, pos};
ghost use Rattle.std.specs.Option.{option_map};
ghost use Rattle.scop_syntax.specs.Execution.{exec, layout};
ghost use Rattle.scop_syntax.specs.Failures.{first_outside};
ghost use Rattle.scop_syntax.specs.Walk.{walk_of};
ghost use Rattle.scop_syntax.specs.Writers.{last_of, next_of};
ghost use Rattle.scop_meaning.specs.LastWrites.{left_before};
ghost use Rattle.scop_meaning.specs.Outside.{outside_of};
ghost use Rattle.scop_meaning.specs.Rows.{copy, even, falling, guarded, line_cell, narrow_one_more, odd, one_more};
ghost use Rattle.scop_meaning.specs.Rows.{one_too_far, prefix_sums, product, sweeps, triangle, two_statements};

/// A compound operator reads its place; a loop without a turn does nothing; sums wrap, of 32 bits too.
pub fn sums_of_a_place()
    ensures prefix { exec prefix_sums (pos 5 ∷ []) ((1 ∷ 1 ∷ 1 ∷ 1 ∷ 1 ∷ []) ∷ []) ≡ (1 ∷ 2 ∷ 3 ∷ 4 ∷ 5 ∷ []) ∷ [] }
    ensures no_turn { exec prefix_sums (pos 1 ∷ []) ((9 ∷ []) ∷ []) ≡ (9 ∷ []) ∷ [] }
    ensures wraps { exec one_more [] (((2 ^ 64 - 1) ∷ []) ∷ []) ≡ (0 ∷ []) ∷ [] }
    ensures narrow { exec narrow_one_more [] (((2 ^ 32 - 1) ∷ []) ∷ (9 ∷ []) ∷ [])
        ≡ (0 ∷ []) ∷ ((2 ^ 32 - 1) ∷ []) ∷ [] }
{}

/// A stride of -2; sweeps of a stencil; the triangle below a diagonal.
pub fn loops_of_each_kind()
    ensures falling { exec falling (pos 5 ∷ []) ((10 ∷ 20 ∷ 30 ∷ 40 ∷ 50 ∷ []) ∷ [])
        ≡ (10 ∷ 20 ∷ 20 ∷ 40 ∷ 40 ∷ []) ∷ [] }
    ensures sweeps { exec sweeps (pos 2 ∷ pos 5 ∷ []) ((1 ∷ 1 ∷ 1 ∷ 1 ∷ 1 ∷ []) ∷ [])
        ≡ (1 ∷ 9 ∷ 21 ∷ 29 ∷ 1 ∷ []) ∷ [] }
    ensures triangle { exec triangle (pos 3 ∷ []) ((0 ∷ 0 ∷ 0 ∷ 0 ∷ 0 ∷ 0 ∷ 0 ∷ 0 ∷ 0 ∷ []) ∷ [])
        ≡ (0 ∷ 0 ∷ 0 ∷ 1 ∷ 11 ∷ 0 ∷ 2 ∷ 12 ∷ 22 ∷ []) ∷ [] }
{}

/// A guard of two comparisons; a statement that reads what the one before it has stored.
pub fn guards_and_sequences()
    ensures guarded { exec guarded (pos 4 ∷ []) ((0 ∷ 0 ∷ 0 ∷ 0 ∷ []) ∷ [])
        ≡ (0 ∷ (2 ^ 64 - 2) ∷ (2 ^ 64 - 1) ∷ 0 ∷ []) ∷ [] }
    ensures sequence { exec two_statements (pos 3 ∷ []) ((1 ∷ 2 ∷ 3 ∷ 4 ∷ []) ∷ (0 ∷ 0 ∷ 0 ∷ []) ∷ [])
        ≡ (2 ∷ 3 ∷ 4 ∷ 4 ∷ []) ∷ (2 ∷ 3 ∷ 4 ∷ []) ∷ [] }
{}

/// A product of matrices; strides in the subscripts; two loops one after another.
pub fn subscripts_of_each_kind()
    ensures product { exec product (pos 2 ∷ [])
        ((1 ∷ 2 ∷ 3 ∷ 4 ∷ []) ∷ (5 ∷ 6 ∷ 7 ∷ 8 ∷ []) ∷ (0 ∷ 0 ∷ 0 ∷ 0 ∷ []) ∷ [])
        ≡ (1 ∷ 2 ∷ 3 ∷ 4 ∷ []) ∷ (5 ∷ 6 ∷ 7 ∷ 8 ∷ []) ∷ (19 ∷ 22 ∷ 43 ∷ 50 ∷ []) ∷ [] }
    ensures odd { exec odd (pos 2 ∷ []) ((1 ∷ 2 ∷ 3 ∷ 4 ∷ []) ∷ []) ≡ (2 ∷ 2 ∷ 4 ∷ 4 ∷ []) ∷ [] }
    ensures even { exec even (pos 2 ∷ []) ((1 ∷ 2 ∷ 3 ∷ 4 ∷ []) ∷ (0 ∷ 0 ∷ 0 ∷ 0 ∷ []) ∷ [])
        ≡ (7 ∷ 2 ∷ 7 ∷ 4 ∷ []) ∷ (7 ∷ 2 ∷ 7 ∷ 4 ∷ []) ∷ [] }
{}

/// A copy of two cells, whose values are those of the seed 0: (k + 1) * 11400714819323198485.
pub fn copies_of_cells()
    ensures seed { 2 * 11400714819323198485 % 2 ^ 64 ≡ 4354685564936845354 }
    ensures copy { exec copy (pos 2 ∷ []) ((11400714819323198485 ∷ 4354685564936845354 ∷ []) ∷ (0 ∷ 0 ∷ []) ∷ [])
        ≡ (11400714819323198485 ∷ 4354685564936845354 ∷ []) ∷ (11400714819323198485 ∷ 4354685564936845354 ∷ []) ∷ [] }
{}

/// In the second of two sweeps over three inner cells, which are places 3 to 5: the left end is never written, a left
/// neighbour is written in the same sweep, a right one in the sweep before; and what the middle is computed from.
pub fn last_writers_of_sweeps()
    ensures end { last_of (walk_of sweeps (pos 2 ∷ pos 5 ∷ [])) 3 1 ≡ None }
    ensures left { last_of (walk_of sweeps (pos 2 ∷ pos 5 ∷ [])) 4 1 ≡ Some 3 }
    ensures right { last_of (walk_of sweeps (pos 2 ∷ pos 5 ∷ [])) 4 3 ≡ Some 2 }
    ensures next { next_of (walk_of sweeps (pos 2 ∷ pos 5 ∷ [])) 1 0 ≡ Some 4 }
    ensures values { map (left_before sweeps (pos 2 ∷ pos 5 ∷ []) ((1 ∷ 1 ∷ 1 ∷ 1 ∷ 1 ∷ []) ∷ []) 4)
        (line_cell 1 ∷ line_cell 2 ∷ line_cell 3 ∷ []) ≡ 9 ∷ 5 ∷ 7 ∷ [] }
{}

/// The read of the last instance lies one past its array.
pub fn the_first_subscript_outside()
    ensures { option_map outside_of (first_outside (layout one_too_far (pos 3 ∷ [])) (walk_of one_too_far (pos 3 ∷ [])))
        ≡ Some (record { stmt = 1; access = 1; dim = 1; value = pos 3; extent = 3 }) }
{}
