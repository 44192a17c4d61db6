//! Callers of walks, executions and limits, most at a worked loop over four cells that falls by two.
ghost use Rattle.std.specs.Prelude.{◌≡◌, ◌+◌, ◌<◌, ◌≤◌, ◌^◌, ◌<ℤ◌, ◌-ℤ◌, ◌++◌, ◌∷◌, [], All, ℕ, ℤ, List, None, Some};
ghost use Rattle.std.specs.Prelude.{false, length, negsuc, pos, slice_get, slice_index_or, true, unsigned_abs};
ghost use Rattle.whole_numbers.specs.Affine.{value_of};
ghost use Rattle.scop_syntax.specs.Acts.{acts_all};
ghost use Rattle.scop_syntax.specs.Cells.{Cell, PlacesConflict, conflict_cell, written};
ghost use Rattle.scop_syntax.specs.Covers.{Chain, Cover};
ghost use Rattle.scop_syntax.specs.Examples.{falling_by_two, form, head, rising};
ghost use Rattle.scop_syntax.specs.Execution.{IsCell, IsShaped, before_place, cell_number, held, layout, performed_all};
ghost use Rattle.scop_syntax.specs.Execution.{exec, stored, value_stored_at};
ghost use Rattle.scop_syntax.specs.Failures.{Failure, LiesIn, VisitsAreRanked, first_outside};
ghost use Rattle.scop_syntax.specs.Kernel.{IsKernel, narrow_arrays};
ghost use Rattle.scop_syntax.specs.Members.{In};
ghost use Rattle.scop_syntax.specs.Reductions.{IsReduced, IsSum, marks};
ghost use Rattle.scop_syntax.specs.Statements.{Placed, Runs, point_of, statements_of};
ghost use Rattle.scop_syntax.specs.Tree.{Head, Program, moved_left};
ghost use Rattle.scop_syntax.specs.Values.{stored_by};
ghost use Rattle.scop_syntax.specs.Walk.{Falls, Visit, condition_at, loop_walk, walk_of};
ghost use Rattle.scop_syntax.specs.Widths.{HoldTypes, HoldWidths};
ghost use Rattle.scop_syntax.specs.Writers.{last_writer, left_by, next_of, next_writer, writes};
ghost use Rattle.conflict_deps.specs.Examples.{two};

use scop_syntax::{
    accesses_have_the_ranks_of_arrays, cells_have_numbers_of_their_own,
    cells_hold_numbers_of_their_types, cells_hold_the_last_write, cells_lie_within_22_bits,
    conflicts_are_chains_of_covers, executions_go_along_the_places, failures_are_the_first,
    loops_walk_while_their_condition_holds, marks_are_the_reduced_arrays, narrow_cells_stay_narrow,
    next_writers_are_least_places, values_lie_within_45_bits, values_stay_below_2_64,
    walks_are_acts, writers_conflict,
};

/// The condition of the loop falls, by `falls` of `loops_walk_while_their_condition_holds`; a condition that falls
/// fails at some turn, by `ends`; one that holds at two turns has two, by `turns`.
pub fn turns_of_a_falling_loop()
    ensures falls { (h : Head) → h ≡ head (pos 3) (negsuc 1) (form (pos 1 ∷ []) (negsuc 0))
        → Falls (λ k. condition_at h [] (pos k)) }
    ensures ends { (condition : ℕ → ℤ) → Falls condition → (m : ℕ) × (condition m <ℤ pos 0) }
    ensures turns { (body : ℕ → List Visit) → loop_walk (λ k. pos 1 -ℤ pos k) body ≡ body 0 ++ (body 1 ++ []) }
{
    loops_walk_while_their_condition_holds();
}

/// A program has as many acts as visits, by the clause of `walks_are_acts`.
pub fn acts_of_a_walk()
    ensures { (program : Program) (params : List ℤ)
        → length (walk_of program params) ≡ length (acts_all program.body params) }
{
    walks_are_acts();
}

/// The first of some visits stores over the first contents, by `goes_on` of `executions_go_along_the_places`; behind
/// the only one the execution has ended, by `ends`.
pub fn first_places_of_executions()
    ensures goes_on { (extents contents : List (List ℕ)) (v : Visit) (visits : List Visit)
        → before_place extents contents (v ∷ visits) 1
        ≡ stored extents contents (written v) (value_stored_at extents contents (v ∷ visits) 0) }
    ensures ends { (extents contents : List (List ℕ)) (visits : List Visit) → length visits ≡ 1
        → before_place extents contents visits 1 ≡ performed_all extents contents visits }
{
    executions_go_along_the_places();
}

/// What a cell holds before each place of the loop, by `before` of `cells_hold_the_last_write`, since all of them lie
/// inside, by `inside` of `failures_are_the_first`.
pub fn cells_along_a_falling_loop()
    ensures { (contents : List (List ℕ)) (j : ℕ) (c : Cell) → IsShaped ((4 ∷ []) ∷ []) contents → j ≤ 2
        → IsCell ((4 ∷ []) ∷ []) c
        → held ((4 ∷ []) ∷ []) (before_place ((4 ∷ []) ∷ []) contents (walk_of falling_by_two []) j) c
        ≡ left_by ((4 ∷ []) ∷ []) contents (walk_of falling_by_two []) c
        (last_writer (walk_of falling_by_two []) j c) }
{
    accesses_have_the_ranks_of_arrays();
    failures_are_the_first();
    cells_hold_the_last_write();
}

/// The subscript of a first failure does not lie in its extent, by `first` of `failures_are_the_first`.
pub fn failures_lie_outside()
    ensures { (extents : List (List ℕ)) (visits : List Visit) (f : Failure) → VisitsAreRanked extents visits
        → first_outside extents visits ≡ Some f → LiesIn f.value f.extent → ⊥ }
{
    failures_are_the_first();
}

/// The next writer stands behind, by `next` of `next_writers_are_least_places`; without one no place there writes, by
/// `none`.
pub fn next_writers_stand_behind()
    ensures next { (visits : List Visit) (j : ℕ) (c : Cell) (k : ℕ) → next_writer visits j c ≡ Some k → j < k }
    ensures none { (visits : List Visit) (c : Cell) → next_writer visits 0 c ≡ None
        → writes (slice_get visits 1) c ≡ false }
{
    next_writers_are_least_places();
}

/// Of a loop that rises the first two places conflict, by `last` of `writers_conflict`; a next writer's place conflicts
/// with the one before, by `next`.
pub fn writers_of_a_rising_loop()
    ensures last { PlacesConflict (walk_of rising []) 0 1 }
    ensures next { (visits : List Visit) (a k : ℕ) → next_of visits 0 a ≡ Some k → PlacesConflict visits 0 k }
{
    writers_conflict();
}

/// Of two turns of two statements, of which the first writes what the second has read a turn before: the second place
/// does not cover the first, but that read is covered by the write, so the two conflict, by `covers` of
/// `conflicts_are_chains_of_covers`; what conflicts is a chain of covers by its cell, by `closure`, and lies behind, by
/// `rises`.
pub fn covers_of_two_statements()
    ensures none { Cover (walk_of two (pos 2 ∷ [])) 0 1 → ⊥ }
    ensures covers { PlacesConflict (walk_of two (pos 2 ∷ [])) 1 2 }
    ensures closure { (i j : ℕ) (p : PlacesConflict (walk_of two (pos 2 ∷ [])) i j)
        → Chain (walk_of two (pos 2 ∷ [])) (conflict_cell p) i j }
    ensures rises { (c : Cell) (j : ℕ) → Chain (walk_of two (pos 2 ∷ [])) c 1 j → 1 < j }
{
    conflicts_are_chains_of_covers();
}

/// Of six cells and four the numbers are below ten, by `below` of `cells_have_numbers_of_their_own`, and apart, by
/// `apart`; those of the falling loop's array are below 2^22, by `numbers` of `cells_lie_within_22_bits`.
pub fn numbers_of_cells()
    ensures below { (c : Cell) → IsCell ((2 ∷ 3 ∷ []) ∷ (4 ∷ []) ∷ []) c
        → cell_number ((2 ∷ 3 ∷ []) ∷ (4 ∷ []) ∷ []) c < 10 }
    ensures apart { (c d : Cell) → IsCell ((2 ∷ 3 ∷ []) ∷ (4 ∷ []) ∷ []) c → IsCell ((2 ∷ 3 ∷ []) ∷ (4 ∷ []) ∷ []) d
        → cell_number ((2 ∷ 3 ∷ []) ∷ (4 ∷ []) ∷ []) c ≡ cell_number ((2 ∷ 3 ∷ []) ∷ (4 ∷ []) ∷ []) d → c ≡ d }
    ensures numbers { (c : Cell) → IsCell (layout falling_by_two []) c
        → cell_number (layout falling_by_two []) c < 2 ^ 22 }
{
    cells_have_numbers_of_their_own();
    cells_lie_within_22_bits();
}

/// What is moved by three bits stays below 2^64, by the clause of `values_stay_below_2_64`; forms at the points of the
/// falling loop are small, by `values` of `values_lie_within_45_bits`.
pub fn values_are_small()
    ensures moved { (values : List ℕ) → All (λ v. v < 2 ^ 64) values → stored_by (moved_left 3) [] values < 2 ^ 64 }
    ensures forms { (p : Placed) (xs : List ℤ) → In p (statements_of falling_by_two) → Runs p.scopes [] xs
        → unsigned_abs (value_of (form (pos 16 ∷ []) (pos (2 ^ 20))) (point_of p.scopes [] xs)) ≤ 2 ^ 45 }
{
    values_stay_below_2_64();
    values_lie_within_45_bits();
}

/// In a kernel whose only array has 32 bits, no cell holds more before any place of a run, by `before` of
/// `narrow_cells_stay_narrow`, nor behind it, by `behind`; and by the clause of `cells_hold_numbers_of_their_types`.
pub fn cells_of_32_bits()
    ensures before { (program : Program) (params : List ℤ) (contents : List (List ℕ)) (j k : ℕ) → IsKernel program
        → narrow_arrays program ≡ true ∷ [] → HoldWidths (true ∷ []) contents
        → slice_index_or (slice_index_or (before_place (layout program params) contents (walk_of program params) j)
        0 []) k 0 < 2 ^ 32 }
    ensures behind { (program : Program) (params : List ℤ) (contents : List (List ℕ)) (k : ℕ) → IsKernel program
        → narrow_arrays program ≡ true ∷ [] → HoldWidths (true ∷ []) contents
        → slice_index_or (slice_index_or (exec program params contents) 0 []) k 0 < 2 ^ 32 }
    ensures types { (program : Program) (params : List ℤ) (contents : List (List ℕ)) (j k : ℕ) → IsKernel program
        → narrow_arrays program ≡ true ∷ [] → HoldTypes (true ∷ []) contents
        → slice_index_or (slice_index_or (before_place (layout program params) contents (walk_of program params) j)
        0 []) k 0 < 2 ^ 32 }
{
    narrow_cells_stay_narrow();
    cells_hold_numbers_of_their_types();
}

/// What writes a marked array of a program adds to it, by `reduced` of `marks_are_the_reduced_arrays`; an array that is
/// only added to is marked, by the same; two marks rise, by `rise`.
pub fn marks_of_programs()
    ensures sums { (program : Program) (a : ℕ) (p : Placed) → In a (marks program) → In p (statements_of program)
        → p.body.place.array ≡ a → IsSum p.body.right }
    ensures all { (program : Program) (a : ℕ) → IsReduced program a → In a (marks program) }
    ensures rise { (program : Program) (a b : ℕ) → marks program ≡ a ∷ b ∷ [] → a < b }
{
    marks_are_the_reduced_arrays();
}
