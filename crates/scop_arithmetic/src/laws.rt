//! Forms, tests, values, cells, statements and loops are worth what C's arithmetic makes of the text, as contracts of
//! functions that do nothing.
ghost use Rattle.std.specs.Prelude.{◌+ℤ◌, ◌++◌, ◌<◌, ◌↔◌, ◌∷◌, ◌≡◌, ◌≢◌, ◌≤◌, ◌≤ℤ◌, ℕ, ℤ, [], All, List, None, length};
ghost use Rattle.std.specs.Prelude.{◌^◌, false, map, pos, unsigned_abs};
ghost use Rattle.scop_expressions.specs.Grammar.{IsExpression};
ghost use Rattle.scop_expressions.specs.Tree.{Tree, tokens_of, written};
ghost use Rattle.scop_expressions.specs.Width.{Width};
ghost use Rattle.scop_grammar.specs.Kernel.{Kernel};
ghost use Rattle.whole_numbers.specs.Affine.{value_of};
ghost use Rattle.scop_lexer.specs.Bytes.{Text};
ghost use Rattle.scop_lexer.specs.declared.token.Token.{Token};
ghost use Rattle.scop_syntax.specs.Cells.{Cell, cell_of, reads, reads_of, values};
ghost use Rattle.scop_syntax.specs.Execution.{held};
ghost use Rattle.scop_syntax.specs.Statements.{AllHold};
ghost use Rattle.scop_syntax.specs.Tree.{Program};
ghost use Rattle.scop_syntax.specs.Values.{stored_by, value_on};
ghost use Rattle.scop_syntax.specs.Walk.{condition_at, turn_point};
ghost use Rattle.scop_syntax.specs.Widths.{HoldWidths};
ghost use Rattle.scop_roles.specs.declared.formula.Meaning.TheVariants as meaning;
ghost use Rattle.scop_roles.specs.declared.formula.Role.TheVariants as role;
ghost use Rattle.scop_roles.specs.Faults.{faults, first, place_faults};
ghost use Rattle.scop_roles.specs.Forms.{form, has_name};
ghost use Rattle.scop_roles.specs.Formula.{Formula, Lookup, formula};
ghost use Rattle.scop_roles.specs.Scope.{IsArray, IsInScope};
ghost use Rattle.scop_roles.specs.Values.{access, expression, tests};
ghost use Rattle.scop_units.specs.Loops.{LoopHead, loop_faults, loop_of};
ghost use Rattle.scop_units.specs.Scopes.{Scope, entries, look, meaning_in, with_loop};
ghost use Rattle.scop_units.specs.Units.{Stored, array_faults, array_of, declared_over, extent_faults, statement_of};
ghost use Rattle.scop_units.specs.Units.{stored_faults};
ghost use Rattle.scop_units.specs.Words.{Words, grammar_tokens, words_of};
ghost use Rattle.scop_parser.specs.Spelling.{IsText, SpellsProgram};
ghost use Rattle.scop_arithmetic.specs.Arithmetic.{HasCell, HasNoComma, HasStep, HasStored, HasTruth, HasWhole};
ghost use Rattle.scop_arithmetic.specs.Arithmetic.{HasWord, HoldTypes};
ghost use Rattle.scop_arithmetic.specs.Arithmetic.{Holds, IsNameOf, after_step, cell, cell_class, cells_in, class};
ghost use Rattle.scop_arithmetic.specs.Arithmetic.{cells_read, stored, whole, word};
ghost use Rattle.scop_arithmetic.specs.Limits.{IsFitLoop, IsFitStored, IsFitWord, IsLinear, IsLinearPlace};
ghost use Rattle.scop_arithmetic.specs.Limits.{IsLinearTruth};
ghost use Rattle.scop_arithmetic.specs.Meaning.{Means, NamesMean};
ghost use Rattle.scop_arithmetic.specs.Tokens.{KernelStands, NodeStands};

use scop_roles::{faultless_formulas_are_within_limits, formulas_are_in_scope};

/// What has no fault in its role is of those expressions that the definitions speak of, and names mean entries that are
/// there: no law below rests on what is worth 0 for want of a meaning.
pub fn faultless_texts_have_meanings()
    ensures affine { (n : ℕ) (f : Formula) → first (faults n role.Affine f) ≡ None → HasWhole f }
    ensures condition { (n : ℕ) (f : Formula) → first (faults n role.Condition f) ≡ None → HasTruth f }
    ensures place { (n : ℕ) (f : Formula) → IsArray f → first (place_faults n f) ≡ None → HasCell f }
    ensures value { (ranks : List ℕ) (n : ℕ) (f : Formula) → All (λ r. 1 ≤ r) ranks → IsInScope ranks f → HasNoComma f
        → first (faults n role.Value f) ≡ None → HasWord f }
    ensures extents { (words : Words) (s : Scope) (at : ℕ) (fs : List Formula) → array_faults words s at fs ≡ []
        → All HasWhole fs }
    ensures statement { (ranks : List ℕ) (n : ℕ) (s : Stored) → All (λ r. 1 ≤ r) ranks → IsInScope ranks s.value
        → HasNoComma s.value → stored_faults n s ≡ []
        → HasCell s.cell × HasWord s.value × HasStored (cell_class s.cell) s.assign s.value }
    ensures loops { (s : Scope) (h : LoopHead) → loop_faults s h ≡ []
        → HasWhole h.first × HasTruth h.second × HasStep h.change }
    ensures names { (s : Scope) (w : Text) (k : ℕ) → meaning_in s w ≡ meaning.Variable k → k < entries s }
{
    faultless_formulas_are_within_limits();
}

/// The form of an affine expression has at each point the whole number that the expression is there. One without a name
/// is small, so that what C computes of ints alone does not overflow.
pub fn forms_are_whole_numbers()
    ensures value { (n : ℕ) (f : Formula) (p : List ℤ) → length p ≡ n → first (faults n role.Affine f) ≡ None
        → value_of (form n f) p ≡ whole p f }
    ensures constants { (n : ℕ) (f : Formula) (p : List ℤ) → length p ≡ n → first (faults n role.Affine f) ≡ None
        → has_name f ≡ false → unsigned_abs (whole p f) ≤ 2 ^ 20 }
{
    faultless_formulas_are_within_limits();
}

/// All comparisons that a condition becomes hold at a point exactly where the condition does.
pub fn tests_hold_where_conditions_do()
    ensures { (n : ℕ) (f : Formula) (p : List ℤ) → length p ≡ n → first (faults n role.Condition f) ≡ None
        → AllHold (tests n f) p ↔ Holds p f }
{}

/// The cell that a place names is the one of its array and of the whole numbers of its subscripts.
pub fn accesses_are_cells()
    ensures { (n : ℕ) (f : Formula) (p : List ℤ) → length p ≡ n → first (place_faults n f) ≡ None
        → cell_of (access n f) p ≡ cell p f }
{}

/// The extents of an array, over all parameters of a kernel, are the whole numbers of its text over those in front.
pub fn extents_are_whole_numbers()
    ensures { (words : Words) (s : Scope) (at : ℕ) (w : Width) (fs : List Formula) (n : ℕ) (p later : List ℤ)
        → length p ≡ entries s → array_faults words s at fs ≡ []
        → values (declared_over n (array_of words s at w fs)).extents (p ++ later) ≡ map (λ f. whole p f) fs }
{
    faultless_formulas_are_within_limits();
}

/// A value reads the cells of its places from left to right, and over what they hold, whatever numbers of their types,
/// it is the expression's value.
pub fn values_are_words()
    ensures reads { (n : ℕ) (f : Formula) (p : List ℤ) → length p ≡ n → first (faults n role.Value f) ≡ None
        → map (λ access. cell_of access p) (reads_of (expression n f)) ≡ cells_in p f }
    ensures value { (ranks : List ℕ) (n : ℕ) (f : Formula) (p : List ℤ) (held : Cell → ℕ) → length p ≡ n
        → IsInScope ranks f → HasNoComma f → first (faults n role.Value f) ≡ None → HoldTypes held p f
        → value_on (expression n f) p (map held (cells_in p f)) ≡ word held p f }
{}

/// Contents with no more than 32 bits in arrays of uint32_t hold numbers of their types wherever a text reads them.
pub fn contents_hold_their_types()
    ensures { (words : Words) (s : Scope) (at : ℕ) (t : Tree) (p : List ℤ) (extents contents : List (List ℕ))
        → NamesMean s → HoldWidths (map (λ a. a.narrow) s.arrays) contents
        → HoldTypes (held extents contents) p (formula (look words s) at t) }
{}

/// An expression of the grammar has commas in calls alone, so the law of values is about each of them.
pub fn commas_stand_in_calls()
    ensures { (look : Lookup) (at : ℕ) (t : Tree) → IsExpression t → HasNoComma (formula look at t) }
{}

/// A statement stores in the cell of its place what its operator makes of that cell and of the value, and reads the
/// cells of both in the order of the text.
pub fn statements_store_words()
    ensures place { (n : ℕ) (s : Stored) (p : List ℤ) → length p ≡ n → stored_faults n s ≡ []
        → cell_of (statement_of n s).place p ≡ cell p s.cell }
    ensures reads { (n : ℕ) (s : Stored) (p : List ℤ) → length p ≡ n → stored_faults n s ≡ []
        → map (λ access. cell_of access p) (reads (statement_of n s))
        ≡ cells_read s.assign (cell p s.cell) (cells_in p s.value) }
    ensures right { (ranks : List ℕ) (n : ℕ) (s : Stored) (p : List ℤ) (held : Cell → ℕ) → length p ≡ n
        → IsInScope ranks s.value → HasNoComma s.value → stored_faults n s ≡ [] → HoldTypes held p s.value
        → stored_by (statement_of n s).right p (map held (cells_read s.assign (cell p s.cell) (cells_in p s.value)))
        ≡ stored (cell_class s.cell) (class s.value) s.assign (held (cell p s.cell)) (word held p s.value) }
{}

/// Inside a loop its iterator, and no other name, means the entry behind those outside, and all other names mean what
/// they do outside. The iterator begins with the first part of the head and becomes from turn to turn what the third
/// part makes of it; the condition is the second part.
pub fn loops_count_as_they_say()
    ensures name { (s : Scope) (h : LoopHead) → (loop_of s h).iterator ≡ h.iterator }
    ensures iterator { (s : Scope) (h : LoopHead) (w : Text) → loop_faults s h ≡ []
        → (meaning_in (with_loop s h.iterator) w ≡ meaning.Variable (entries s)) ↔ (w ≡ h.iterator) }
    ensures others { (s : Scope) (h : LoopHead) (w : Text) → w ≢ h.iterator
        → meaning_in (with_loop s h.iterator) w ≡ meaning_in s w }
    ensures changed { (s : Scope) (h : LoopHead) → loop_faults s h ≡ [] → IsNameOf (entries s) h.changed }
    ensures first { (s : Scope) (h : LoopHead) (p : List ℤ) → length p ≡ entries s → loop_faults s h ≡ []
        → turn_point (loop_of s h) p (pos 0) ≡ p ++ whole p h.first ∷ [] }
    ensures next { (s : Scope) (h : LoopHead) (p : List ℤ) (x : ℤ) → length p ≡ entries s → loop_faults s h ≡ []
        → turn_point (loop_of s h) p (x +ℤ pos 1)
        ≡ p ++ after_step (turn_point (loop_of s h) p x) (entries s) h.change ∷ [] }
    ensures condition { (s : Scope) (h : LoopHead) (p : List ℤ) (x : ℤ) → length p ≡ entries s → loop_faults s h ≡ []
        → (pos 0 ≤ℤ condition_at (loop_of s h) p x) ↔ Holds (turn_point (loop_of s h) p x) h.second }
{}

/// The program that a text spells means what the text does: along the tree of its kernel each extent, condition, loop's
/// head and statement is worth at each point what its expressions are.
pub fn spelled_texts_mean_their_programs()
    ensures { (text : Text) (p : Program) (x : SpellsProgram text p) → Means (words_of text x.tokens) x.kernel p }
{
    formulas_are_in_scope();
    faultless_formulas_are_within_limits();
}

/// Each name, constant, operator and sign of a text stands at a token of its kind, and means what is looked up there;
/// the parts of an expression stand in the order of the text.
pub fn formulas_stand_at_their_tokens()
    ensures nodes { (t : Tree) → All (NodeStands (tokens_of t)) (written 0 t) }
    ensures kernel { (text : Text) (tokens : List Token) (k : Kernel) → IsText text tokens k
        → KernelStands (grammar_tokens tokens) (words_of text tokens) k }
{}

/// What means something within the limits has no fault where it stands: no more is refused of expressions.
pub fn texts_within_the_limits_have_no_fault()
    ensures affine { (n : ℕ) (f : Formula) → IsLinear n f → faults n role.Affine f ≡ [] }
    ensures condition { (n : ℕ) (f : Formula) → IsLinearTruth n f → faults n role.Condition f ≡ [] }
    ensures place { (n : ℕ) (f : Formula) → IsLinearPlace n f → place_faults n f ≡ [] }
    ensures value { (n : ℕ) (f : Formula) → IsFitWord n f → faults n role.Value f ≡ [] }
    ensures statement { (n : ℕ) (s : Stored) → IsFitStored n s → stored_faults n s ≡ [] }
    ensures loops { (s : Scope) (h : LoopHead) → IsFitLoop s h → loop_faults s h ≡ [] }
    ensures extents { (n : ℕ) (fs : List Formula) → All (IsLinear n) fs → extent_faults n fs ≡ [] }
{
    faultless_formulas_are_within_limits();
}

/// What has no fault where it stands means something within the limits; so by the law above just that is accepted.
pub fn faultless_texts_lie_within_the_limits()
    ensures affine { (n : ℕ) (f : Formula) → first (faults n role.Affine f) ≡ None → IsLinear n f }
    ensures condition { (n : ℕ) (f : Formula) → first (faults n role.Condition f) ≡ None → IsLinearTruth n f }
    ensures place { (n : ℕ) (f : Formula) → IsArray f → first (place_faults n f) ≡ None → IsLinearPlace n f }
    ensures value { (ranks : List ℕ) (n : ℕ) (f : Formula) → All (λ r. 1 ≤ r) ranks → IsInScope ranks f → HasNoComma f
        → first (faults n role.Value f) ≡ None → IsFitWord n f }
    ensures statement { (ranks : List ℕ) (n : ℕ) (s : Stored) → All (λ r. 1 ≤ r) ranks → IsInScope ranks s.value
        → HasNoComma s.value → stored_faults n s ≡ [] → IsFitStored n s }
    ensures loops { (s : Scope) (h : LoopHead) → loop_faults s h ≡ [] → IsFitLoop s h }
    ensures extents { (n : ℕ) (fs : List Formula) → extent_faults n fs ≡ [] → All (IsLinear n) fs }
{
    faultless_formulas_are_within_limits();
}
