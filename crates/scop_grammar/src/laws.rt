//! Laws of the grammar, as contracts of functions that do nothing.
ghost use Rattle.std.specs.Prelude.{◌≡◌, ◌≤◌, ℕ, List, Ok};
ghost use Rattle.scop_expressions.specs.Token.{Token};
ghost use Rattle.scop_grammar.specs.Claims.{IsAnswer};
ghost use Rattle.scop_grammar.specs.Kernel.{Kernel, Piece, Spells, kernel_elements, pieces};
ghost use Rattle.scop_grammar.specs.Machine.{Spot, read, run, turn};
ghost use Rattle.scop_grammar.specs.Turns.{behind, ended, turned};

/// What the machine answers for a text is what the grammar says: its pieces, or the first fault.
#[tactic(auto, using(crate::proofs::MachineAnswers::read_answers))]
pub fn answers_tell_the_grammar()
    ensures { (d n : ℕ) (ts : List Token) → 1 ≤ d → IsAnswer d n ts (read d n ts) }
{}

/// Each kernel within the limits is read, as its own pieces.
#[tactic(auto, using(crate::proofs::MachineAnswers::spelled_read))]
pub fn kernels_are_read()
    ensures { (d n : ℕ) (ts : List Token) (k : Kernel) → Spells d n ts k
        → read d n ts ≡ Ok (pieces 0 (kernel_elements k)) }
{}

/// Tokens spell one kernel at most: all that they spell have the same pieces.
#[tactic(auto, using(crate::proofs::MachineAnswers::one_reading))]
pub fn tokens_spell_one_kernel()
    ensures { (d n : ℕ) (ts : List Token) (k l : Kernel) → Spells d n ts k → Spells d n ts l
        → pieces 0 (kernel_elements k) ≡ pieces 0 (kernel_elements l) }
{}

/// A run adds its pieces behind those so far: whether these were taken makes no difference to it.
pub fn pieces_are_added_behind()
    ensures turn { (d n : ℕ) (ps : List Piece) (s : Spot) (t : Token)
        → turn d n (behind ps s) t ≡ turned ps (turn d n s t) }
    ensures run { (d n : ℕ) (ps : List Piece) (s : Spot) (ts : List Token)
        → run d n (behind ps s) ts ≡ ended ps (run d n s ts) }
{}
