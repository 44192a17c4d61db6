//! Callers of what the expressions of a text are worth: the laws at the point without coordinates, where no name means
//! a number.
ghost use Rattle.std.specs.Prelude.{◌+ℤ◌, ◌∷◌, ◌≡◌, ◌≢◌, ◌≤◌, ◌≤ℤ◌, ◌^◌, ℕ, ℤ, [], List, None, false, map, pos};
ghost use Rattle.std.specs.Prelude.{unsigned_abs};
ghost use Rattle.scop_expressions.specs.Grammar.{IsExpression};
ghost use Rattle.scop_expressions.specs.Tree.{Tree};
ghost use Rattle.scop_expressions.specs.Width.{Width};
ghost use Rattle.whole_numbers.specs.Affine.{value_of};
ghost use Rattle.scop_lexer.specs.Bytes.{Text};
ghost use Rattle.scop_syntax.specs.Cells.{Cell, cell_of, reads, reads_of, values};
ghost use Rattle.scop_syntax.specs.Execution.{held};
ghost use Rattle.scop_syntax.specs.Statements.{AllHold};
ghost use Rattle.scop_syntax.specs.Values.{stored_by, value_on};
ghost use Rattle.scop_syntax.specs.Walk.{condition_at, turn_point};
ghost use Rattle.scop_syntax.specs.Widths.{HoldWidths};
ghost use Rattle.scop_roles.specs.declared.formula.Meaning.TheVariants as meaning;
ghost use Rattle.scop_roles.specs.declared.formula.Role.TheVariants as role;
ghost use Rattle.scop_roles.specs.Faults.{faults, first, place_faults};
ghost use Rattle.scop_roles.specs.Forms.{form, has_name};
ghost use Rattle.scop_roles.specs.Formula.{Formula, Lookup, formula};
ghost use Rattle.scop_roles.specs.Scope.{IsArray, IsInScope};
ghost use Rattle.scop_roles.specs.Values.{access, expression, tests};
ghost use Rattle.scop_units.specs.Loops.{LoopHead, loop_faults, loop_of};
ghost use Rattle.scop_units.specs.Scopes.{Scope, entries, look, meaning_in, with_loop};
ghost use Rattle.scop_units.specs.Units.{Stored, array_faults, array_of, declared_over, statement_of, stored_faults};
ghost use Rattle.scop_units.specs.Words.{Words};
ghost use Rattle.scop_arithmetic.specs.Arithmetic.{HasCell, HasNoComma, HasTruth, HasWhole, HasWord, HoldTypes};
ghost use Rattle.scop_arithmetic.specs.Arithmetic.{Holds, IsNameOf, after_step, cell, cell_class, cells_in};
ghost use Rattle.scop_arithmetic.specs.Arithmetic.{cells_read, class, stored, whole, word};
ghost use Rattle.scop_arithmetic.specs.Meaning.{NamesMean};

use scop_arithmetic::{
    extents_are_whole_numbers, loops_count_as_they_say, tests_hold_where_conditions_do,
};

/// What has no fault has a meaning, by the clauses of `faultless_texts_have_meanings` of the same names: an affine
/// expression, a condition, a place and a value without entries, a single extent, a statement's cell, a loop's first
/// part; and where there is no entry, no name means one.
pub fn faultless_texts_have_meanings()
    ensures affine { (f : Formula) → first (faults 0 role.Affine f) ≡ None → HasWhole f }
    ensures condition { (f : Formula) → first (faults 0 role.Condition f) ≡ None → HasTruth f }
    ensures place { (f : Formula) → IsArray f → first (place_faults 0 f) ≡ None → HasCell f }
    ensures value { (f : Formula) → IsInScope [] f → HasNoComma f → first (faults 0 role.Value f) ≡ None → HasWord f }
    ensures extents { (words : Words) (s : Scope) (at : ℕ) (f : Formula) → array_faults words s at (f ∷ []) ≡ []
        → HasWhole f }
    ensures statement { (s : Stored) → IsInScope [] s.value → HasNoComma s.value → stored_faults 0 s ≡ []
        → HasCell s.cell }
    ensures loops { (s : Scope) (h : LoopHead) → loop_faults s h ≡ [] → HasWhole h.first }
    ensures names { (s : Scope) (w : Text) (k : ℕ) → entries s ≡ 0 → meaning_in s w ≡ meaning.Variable k → ⊥ }
{
    scop_arithmetic::faultless_texts_have_meanings();
}

/// The form of an affine expression has its whole number, by `value` of `forms_are_whole_numbers`; which is small, by
/// `constants`.
pub fn forms_are_whole_numbers()
    ensures value { (f : Formula) → first (faults 0 role.Affine f) ≡ None → value_of (form 0 f) [] ≡ whole [] f }
    ensures constants { (f : Formula) → first (faults 0 role.Affine f) ≡ None → has_name f ≡ false
        → unsigned_abs (whole [] f) ≤ 2 ^ 20 }
{
    scop_arithmetic::forms_are_whole_numbers();
}

/// Where a condition holds all its comparisons do, by the clause of `tests_hold_where_conditions_do`.
pub fn tests_of_conditions_that_hold()
    ensures { (f : Formula) → first (faults 0 role.Condition f) ≡ None → Holds [] f → AllHold (tests 0 f) [] }
{
    tests_hold_where_conditions_do();
}

/// A place names its cell, by the clause of `accesses_are_cells`.
pub fn accesses_are_cells()
    ensures { (f : Formula) → first (place_faults 0 f) ≡ None → cell_of (access 0 f) [] ≡ cell [] f }
{
    scop_arithmetic::accesses_are_cells();
}

/// The extents of arrays of a kernel without parameters, by the clause of `extents_are_whole_numbers`.
pub fn extents_of_kernels_without_parameters()
    ensures { (words : Words) (s : Scope) (at : ℕ) (w : Width) (fs : List Formula) → entries s ≡ 0
        → array_faults words s at fs ≡ []
        → values (declared_over 0 (array_of words s at w fs)).extents [] ≡ map (λ f. whole [] f) fs }
{
    extents_are_whole_numbers();
}

/// A value reads the cells of its places, by `reads` of `values_are_words`, and is the expression's, by `value`.
pub fn values_are_words()
    ensures reads { (f : Formula) → first (faults 0 role.Value f) ≡ None
        → map (λ access. cell_of access []) (reads_of (expression 0 f)) ≡ cells_in [] f }
    ensures value { (f : Formula) (held : Cell → ℕ) → IsInScope [] f → HasNoComma f
        → first (faults 0 role.Value f) ≡ None → HoldTypes held [] f
        → value_on (expression 0 f) [] (map held (cells_in [] f)) ≡ word held [] f }
{
    scop_arithmetic::values_are_words();
}

/// Contents whose arrays of `uint32_t` hold no more have numbers of their types where an expression at the first token
/// reads them, by the clause of `contents_hold_their_types`.
pub fn contents_hold_their_types()
    ensures { (words : Words) (s : Scope) (t : Tree) (contents : List (List ℕ)) → NamesMean s
        → HoldWidths (map (λ a. a.narrow) s.arrays) contents
        → HoldTypes (held [] contents) [] (formula (look words s) 0 t) }
{
    scop_arithmetic::contents_hold_their_types();
}

/// An expression at the first token has no comma outside of calls, by the clause of `commas_stand_in_calls`.
pub fn commas_stand_in_calls()
    ensures { (look : Lookup) (t : Tree) → IsExpression t → HasNoComma (formula look 0 t) }
{
    scop_arithmetic::commas_stand_in_calls();
}

/// A statement's cell, what it reads, and what it stores, by `place`, `reads` and `right` of `statements_store_words`.
pub fn statements_store_words()
    ensures place { (s : Stored) → stored_faults 0 s ≡ [] → cell_of (statement_of 0 s).place [] ≡ cell [] s.cell }
    ensures reads { (s : Stored) → stored_faults 0 s ≡ [] → map (λ access. cell_of access []) (reads (statement_of 0 s))
        ≡ cells_read s.assign (cell [] s.cell) (cells_in [] s.value) }
    ensures right { (s : Stored) (held : Cell → ℕ) → IsInScope [] s.value → HasNoComma s.value → stored_faults 0 s ≡ []
        → HoldTypes held [] s.value
        → stored_by (statement_of 0 s).right [] (map held (cells_read s.assign (cell [] s.cell) (cells_in [] s.value)))
        ≡ stored (cell_class s.cell) (class s.value) s.assign (held (cell [] s.cell)) (word held [] s.value) }
{
    scop_arithmetic::statements_store_words();
}

/// A loop outside all others, by the clauses of `loops_count_as_they_say` of the same names: its iterator, what that
/// and an unknown name mean inside, which name the third part changes, the first turn and each next one, and the
/// condition.
pub fn outermost_loops_count_as_they_say()
    ensures name { (s : Scope) (h : LoopHead) → with_loop s (loop_of s h).iterator ≡ with_loop s h.iterator }
    ensures iterator { (s : Scope) (h : LoopHead) → loop_faults s h ≡ []
        → meaning_in (with_loop s h.iterator) h.iterator ≡ meaning.Variable (entries s) }
    ensures others { (s : Scope) (h : LoopHead) (w : Text) → w ≢ h.iterator → meaning_in s w ≡ meaning.Unknown
        → meaning_in (with_loop s h.iterator) w ≡ meaning.Unknown }
    ensures changed { (s : Scope) (h : LoopHead) → entries s ≡ 0 → loop_faults s h ≡ [] → IsNameOf 0 h.changed }
    ensures first { (s : Scope) (h : LoopHead) → entries s ≡ 0 → loop_faults s h ≡ []
        → turn_point (loop_of s h) [] (pos 0) ≡ whole [] h.first ∷ [] }
    ensures next { (s : Scope) (h : LoopHead) (x : ℤ) → entries s ≡ 0 → loop_faults s h ≡ []
        → turn_point (loop_of s h) [] (x +ℤ pos 1)
        ≡ after_step (turn_point (loop_of s h) [] x) (entries s) h.change ∷ [] }
    ensures condition { (s : Scope) (h : LoopHead) (x : ℤ) → entries s ≡ 0 → loop_faults s h ≡ []
        → Holds (turn_point (loop_of s h) [] x) h.second → pos 0 ≤ℤ condition_at (loop_of s h) [] x }
{
    loops_count_as_they_say();
}
