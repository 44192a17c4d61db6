//! Callers of what the expressions of a text are worth, at the parts of a worked loop, where a name means a number.
ghost use Rattle.std.specs.Prelude.{◌+ℤ◌, ◌*ℤ◌, ◌<ℤ◌, ◌↔◌, ◌∷◌, ◌≡◌, ◌≤ℤ◌, ℕ, ℤ, [], map, pos};
ghost use Rattle.whole_numbers.specs.Affine.{value_of};
ghost use Rattle.scop_syntax.specs.Cells.{Cell, cell_of, reads, reads_of};
ghost use Rattle.scop_syntax.specs.Statements.{AllHold};
ghost use Rattle.scop_syntax.specs.Values.{stored_by, value_on};
ghost use Rattle.scop_syntax.specs.Walk.{condition_at, turn_point};
ghost use Rattle.scop_roles.specs.declared.formula.Role.TheVariants as role;
ghost use Rattle.scop_roles.specs.Faults.{faults, place_faults};
ghost use Rattle.scop_roles.specs.Forms.{form};
ghost use Rattle.scop_roles.specs.Values.{access, expression, tests};
ghost use Rattle.scop_units.specs.Loops.{loop_faults, loop_of};
ghost use Rattle.scop_units.specs.Scopes.{no_scope};
ghost use Rattle.scop_units.specs.Units.{statement_of, stored_faults};
ghost use Rattle.scop_arithmetic.specs.Arithmetic.{cell, cells_in, cells_read, full, stored, whole, word};
ghost use Rattle.text_callers.specs.Worked.{below_seven, head, i, odd, odd_cell, product, sum};

use scop_arithmetic::{
    accesses_are_cells, faultless_texts_lie_within_the_limits, forms_are_whole_numbers,
    loops_count_as_they_say, statements_store_words, tests_hold_where_conditions_do,
    texts_within_the_limits_have_no_fault, values_are_words,
};

/// At each i the form of `2 * i + 1` has its whole number, by `value` of `forms_are_whole_numbers`; the comparisons of
/// `i < 7` hold exactly where i is below 7, by the clause of `tests_hold_where_conditions_do`; `A[2 * i + 1]` is the cell
/// of that number, by the clause of `accesses_are_cells`.
pub fn parts_of_a_worked_loop()
    ensures value { (x : ℤ) → value_of (form 1 odd) (x ∷ []) ≡ (pos 2 *ℤ x) +ℤ pos 1 }
    ensures tests { (x : ℤ) → AllHold (tests 1 below_seven) (x ∷ []) ↔ (x <ℤ pos 7) }
    ensures access { (x : ℤ) → cell_of (access 1 odd_cell) (x ∷ [])
        ≡ record { array = 0; subscripts = ((pos 2 *ℤ x) +ℤ pos 1) ∷ [] } }
{
    forms_are_whole_numbers();
    tests_hold_where_conditions_do();
    accesses_are_cells();
}

/// `i * A[i]` reads `A[i]`, by `reads` of `values_are_words`, and is its word, by `value`.
pub fn value_of_a_worked_statement()
    ensures reads { (x : ℤ) → map (λ access. cell_of access (x ∷ [])) (reads_of (expression 1 product))
        ≡ record { array = 0; subscripts = x ∷ [] } ∷ [] }
    ensures value { (x : ℤ) (held : Cell → ℕ) → value_on (expression 1 product) (x ∷ [])
        (map held (cells_in (x ∷ []) product)) ≡ word held (x ∷ []) product }
{
    values_are_words();
}

/// `A[2 * i + 1] += i * A[i]` stores to `A[2 * i + 1]`, by `place` of `statements_store_words`, of which it reads the
/// cell first, by `reads`, and stores the sum with its value, by `right`.
pub fn a_worked_statement()
    ensures place { (x : ℤ) → cell_of (statement_of 1 sum).place (x ∷ []) ≡ cell (x ∷ []) odd_cell }
    ensures reads { (x : ℤ) → map (λ access. cell_of access (x ∷ [])) (reads (statement_of 1 sum))
        ≡ cell (x ∷ []) odd_cell ∷ record { array = 0; subscripts = x ∷ [] } ∷ [] }
    ensures right { (x : ℤ) (held : Cell → ℕ) → stored_by (statement_of 1 sum).right (x ∷ [])
        (map held (cells_read sum.assign (cell (x ∷ []) odd_cell) (cells_in (x ∷ []) product)))
        ≡ stored full full sum.assign (held (cell (x ∷ []) odd_cell)) (word held (x ∷ []) product) }
{
    statements_store_words();
}

/// The loop begins with 0, by `first` of `loops_count_as_they_say`, goes on by 1, by `next`, and its condition holds
/// below 7, by `condition`.
pub fn turns_of_a_worked_loop()
    ensures first { turn_point (loop_of no_scope head) [] (pos 0) ≡ pos 0 ∷ [] }
    ensures next { (x : ℤ) → turn_point (loop_of no_scope head) [] (x +ℤ pos 1)
        ≡ (whole (turn_point (loop_of no_scope head) [] x) i +ℤ pos 1) ∷ [] }
    ensures condition { (x : ℤ) → (pos 0 ≤ℤ condition_at (loop_of no_scope head) [] x)
        ↔ (whole (turn_point (loop_of no_scope head) [] x) i <ℤ pos 7) }
{
    loops_count_as_they_say();
}

/// What has no fault there lies within the limits, by `affine`, `condition`, `place`, `value`, `statement` and `loops` of
/// `faultless_texts_lie_within_the_limits`, and so it has none, by the clauses of `texts_within_the_limits_have_no_fault`
/// of the same names.
pub fn a_worked_loop_has_no_fault()
    ensures affine { faults 1 role.Affine odd ≡ [] }
    ensures condition { faults 1 role.Condition below_seven ≡ [] }
    ensures place { place_faults 1 odd_cell ≡ [] }
    ensures value { faults 1 role.Value product ≡ [] }
    ensures statement { stored_faults 1 sum ≡ [] }
    ensures loops { loop_faults no_scope head ≡ [] }
{
    faultless_texts_lie_within_the_limits();
    texts_within_the_limits_have_no_fault();
}
