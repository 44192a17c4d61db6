//! Callers of what a spelled program means, where formulas stand, and which expressions are accepted: the laws of small
//! kernels and of expressions that are given.
ghost use Rattle.std.specs.Prelude.{◌≡◌, ◌∷◌, ◌≤◌, ◌<◌, ◌^◌, ℕ, Bool, false, [], All, List, None, Some, length};
ghost use Rattle.std.specs.Prelude.{map, slice_get};
ghost use Rattle.scop_expressions.specs.Tree.{name as name_tree, tokens_of, written};
ghost use Rattle.scop_expressions.specs.Assign.TheVariants as assign;
ghost use Rattle.scop_expressions.specs.Op.TheVariants as op;
ghost use Rattle.scop_expressions.specs.Outside.TheVariants as outside;
ghost use Rattle.scop_expressions.specs.Token.TheVariants as token;
ghost use Rattle.scop_grammar.specs.Kernel.{Kernel, none as no_items, number};
ghost use Rattle.scop_lexer.specs.Bytes.{Text};
ghost use Rattle.scop_lexer.specs.declared.token.Token.{Token};
ghost use Rattle.scop_syntax.specs.Tree.{Program, none};
ghost use Rattle.scop_roles.specs.declared.formula.Meaning.TheVariants as meaning;
ghost use Rattle.scop_roles.specs.declared.formula.Role.TheVariants as role;
ghost use Rattle.scop_roles.specs.Faults.{faults, first, place_faults};
ghost use Rattle.scop_roles.specs.Formula.{Formula, binary, constant, index, name};
ghost use Rattle.scop_roles.specs.Scope.{IsInScope, IsKnown};
ghost use Rattle.scop_units.specs.Judging.{body_scope};
ghost use Rattle.scop_units.specs.Loops.{LoopHead, loop_faults};
ghost use Rattle.scop_units.specs.Scopes.{Scope};
ghost use Rattle.scop_units.specs.Units.{Stored, extent_faults, stored_faults};
ghost use Rattle.scop_units.specs.Words.{grammar_tokens, words_of};
ghost use Rattle.scop_parser.specs.Spelling.{IsText, SpellsProgram};
ghost use Rattle.scop_arithmetic.specs.Limits.{IsFitLoop, IsLinear, IsLinearPlace};
ghost use Rattle.scop_arithmetic.specs.Arithmetic.{HasNoComma};
ghost use Rattle.scop_arithmetic.specs.Tokens.{NodeStands};
ghost use Rattle.text_callers.specs.Worked.{decimal};

use scop_arithmetic::{
    faultless_texts_lie_within_the_limits, spelled_texts_mean_their_programs,
    texts_within_the_limits_have_no_fault,
};

/// A program has the parameters and the names of arrays that are in scope where its text's items begin, by
/// `parameters` and `names` of what `spelled_texts_mean_their_programs` promises; without an item in the text, no tree,
/// by `body`; without an array in its header, none, by `arrays`.
pub fn programs_mean_their_texts()
    ensures parameters { (text : Text) (p : Program) (x : SpellsProgram text p)
        → p.parameters ≡ (body_scope (words_of text x.tokens) x.kernel).parameters }
    ensures names { (text : Text) (p : Program) (x : SpellsProgram text p)
        → map (λ d. d.name) p.arrays ≡ map (λ a. a.name) (body_scope (words_of text x.tokens) x.kernel).arrays }
    ensures body { (text : Text) (p : Program) (x : SpellsProgram text p) → x.kernel.items ≡ no_items → p.body ≡ none }
    ensures arrays { (text : Text) (p : Program) (x : SpellsProgram text p) → x.kernel.first ≡ number
        → x.kernel.others ≡ [] → p.arrays ≡ [] }
{
    spelled_texts_mean_their_programs();
}

/// The node of a name stands at it, by `nodes` of `formulas_stand_at_their_tokens`, and a text begins with `void`, by
/// `kernel`.
pub fn formulas_stand_at_their_tokens()
    ensures nodes { All (NodeStands (tokens_of name_tree)) (written 0 name_tree) }
    ensures kernel { (text : Text) (tokens : List Token) (k : Kernel) → IsText text tokens k
        → slice_get (grammar_tokens tokens) 0 ≡ Some (token.Outside outside.Void) }
{
    scop_arithmetic::formulas_stand_at_their_tokens();
}

/// Without entries, by the clauses of `texts_within_the_limits_have_no_fault` of the same names: a constant, `1 < 2`,
/// `A[7]` of an array of one dimension, a constant as a value, and it stored in that cell; a loop within the limits;
/// one extent.
pub fn small_expressions_have_no_fault()
    ensures affine { faults 0 role.Affine (constant decimal 7 0) ≡ [] }
    ensures condition { (f : Formula) → f ≡ binary op.Less (constant decimal 1 0) (constant decimal 2 2) 1
        → faults 0 role.Condition f ≡ [] }
    ensures place { place_faults 0 (index (name (meaning.Array 0 1 false) 0) (constant decimal 7 2)) ≡ [] }
    ensures value { faults 0 role.Value (constant decimal 7 0) ≡ [] }
    ensures statement { (s : Stored) → s.cell ≡ index (name (meaning.Array 0 1 false) 0) (constant decimal 7 2)
        → s.assign ≡ assign.Set → s.value ≡ constant decimal 7 5 → stored_faults 0 s ≡ [] }
    ensures loops { (s : Scope) (h : LoopHead) → IsFitLoop s h → loop_faults s h ≡ [] }
    ensures extents { extent_faults 0 (constant decimal 7 0 ∷ []) ≡ [] }
{
    texts_within_the_limits_have_no_fault();
}

/// By the clauses of `faultless_texts_lie_within_the_limits` of the same names: a constant without a fault as an affine
/// expression is at most 2^20, no constant is a condition, a subscript is affine, no array is a value without
/// subscripts, a statement stores to a place, fewer than five loops are open round one, and extents are affine.
pub fn faultless_expressions_are_small()
    ensures affine { (v : ℕ) → first (faults 0 role.Affine (constant decimal v 0)) ≡ None → v ≤ 2 ^ 20 }
    ensures condition { (v : ℕ) → first (faults 0 role.Condition (constant decimal v 0)) ≡ None → ⊥ }
    ensures place { (i : Formula) → first (place_faults 0 (index (name (meaning.Array 0 1 false) 0) i)) ≡ None
        → IsLinear 0 i }
    ensures value { (ranks : List ℕ) (r : ℕ) (narrow : Bool) → All (λ r. 1 ≤ r) ranks
        → IsKnown ranks (meaning.Array 0 r narrow)
        → first (faults 0 role.Value (name (meaning.Array 0 r narrow) 0)) ≡ None → ⊥ }
    ensures statement { (ranks : List ℕ) (s : Stored) → All (λ r. 1 ≤ r) ranks → IsInScope ranks s.value
        → HasNoComma s.value → stored_faults 0 s ≡ [] → IsLinearPlace 0 s.cell }
    ensures loops { (s : Scope) (h : LoopHead) → loop_faults s h ≡ [] → length s.open_loops < 5 }
    ensures extents { (fs : List Formula) → extent_faults 0 fs ≡ [] → All (IsLinear 0) fs }
{
    faultless_texts_lie_within_the_limits();
}
