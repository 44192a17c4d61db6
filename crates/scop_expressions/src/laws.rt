//! Laws of the grammar, as contracts of functions that do nothing.
ghost use Rattle.std.specs.Prelude.{◌≡◌, ℕ, List, Ok, length};
ghost use Rattle.scop_tokens.specs.declared.Token.{Token};
ghost use Rattle.scop_expressions.specs.Tree.{Tree, written};
ghost use Rattle.scop_expressions.specs.Grammar.{Spells};
ghost use Rattle.scop_expressions.specs.Machine.{read};

/// Tokens spell one tree at most: all trees that they spell have the same nodes.
pub fn tokens_spell_one_tree()
    ensures { (d n : ℕ) (ts : List Token) (t u : Tree) → Spells d n ts t → Spells d n ts u → written 0 t ≡ written 0 u }
{}

/// Each expression within the limits is read, as its own nodes.
#[tactic(auto, using(crate::proofs::MachineAnswers::spelled_read))]
pub fn expressions_are_read()
    ensures { (d n : ℕ) (ts : List Token) (t : Tree) → Spells d n ts t → read d n ts ≡ Ok (written 0 t, length ts) }
{}
