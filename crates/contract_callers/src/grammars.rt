//! Callers of the laws of both grammars, at a name alone and at the tokens of `void k(int64_t n) {}`.
ghost use Rattle.std.specs.Prelude.{◌∷◌, ◌≡◌, ℕ, [], List, Ok};
ghost use Rattle.scop_expressions.specs.declared.node.Node.TheVariants as node;
ghost use Rattle.scop_expressions.specs.Token.TheVariants as token;
ghost use Rattle.scop_expressions.specs.Token.{Token};
ghost use Rattle.scop_expressions.specs.Grammar as expressions;
ghost use Rattle.scop_expressions.specs.Machine as machine;
ghost use Rattle.scop_expressions.specs.Tree.{Tree, written};
ghost use Rattle.scop_grammar.specs.Promises.{IsRead};
ghost use Rattle.scop_grammar.specs.Kernel.{Kernel, Piece, Spells, kernel_elements, pieces, spelled};
ghost use Rattle.scop_grammar.specs.Machine.{Spot, on, read, run, turn, goes_on};
ghost use Rattle.scop_grammar.specs.Turns.{behind};
ghost use Rattle.contract_callers.specs.Worked.{bare};

use scop_expressions::{expressions_are_read, tokens_spell_one_tree};
use scop_grammar::{
    answers_tell_the_grammar, kernels_are_read, pieces_are_added_behind, tokens_spell_one_kernel,
};

/// A name is read as its one node, by the clause of `expressions_are_read`, and spells no other tree, by that of
/// `tokens_spell_one_tree`.
pub fn a_name_alone()
    ensures read { (d n : ℕ) → machine.read d n (token.Name ∷ []) ≡ Ok (node.Name 0 ∷ [], 1) }
    ensures one { (d n : ℕ) (t : Tree) → expressions.Spells d n (token.Name ∷ []) t → written 0 t ≡ node.Name 0 ∷ [] }
{
    expressions_are_read();
    tokens_spell_one_tree();
}

/// The kernel is read, by the clause of `kernels_are_read`, and its tokens spell no other, by that of
/// `tokens_spell_one_kernel`; pieces that are read are those of a kernel, by that of `answers_tell_the_grammar`.
pub fn a_kernel_without_items()
    ensures read { (d n : ℕ) → read d n (spelled (kernel_elements bare)) ≡ Ok (pieces 0 (kernel_elements bare)) }
    ensures one { (d n : ℕ) (k : Kernel) → Spells d n (spelled (kernel_elements bare)) k
        → pieces 0 (kernel_elements k) ≡ pieces 0 (kernel_elements bare) }
    ensures answer { (n : ℕ) (ts : List Token) (ps : List Piece) → read 1 n ts ≡ Ok ps → IsRead 1 n ts ps }
{
    kernels_are_read();
    tokens_spell_one_kernel();
    answers_tell_the_grammar();
}

/// Pieces that were taken stay in front of a turn that goes on, by `turn` of `pieces_are_added_behind`, and of a run,
/// by `run`.
pub fn pieces_that_were_taken()
    ensures turn { (d n : ℕ) (ps : List Piece) (s t : Spot) (at : Token) → turn d n s at ≡ on t
        → turn d n (behind ps s) at ≡ on (behind ps t) }
    ensures run { (d n : ℕ) (ps : List Piece) (s t : Spot) (ts : List Token) → run d n s ts ≡ goes_on t
        → run d n (behind ps s) ts ≡ goes_on (behind ps t) }
{
    pieces_are_added_behind();
}
