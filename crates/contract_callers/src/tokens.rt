//! Callers of the laws of tokens and signs at texts that are given: `x;`, `@`, and `<<= 1`, which begins with `<<=`.
ghost use Rattle.std.specs.Prelude.{◌≡◌, ◌∷◌, [], List, codes};
ghost use Rattle.scop_lexer.specs.Bytes.{Text};
ghost use Rattle.scop_expressions.specs.Assign.TheVariants as assign;
ghost use Rattle.scop_expressions.specs.Op.TheVariants as op;
ghost use Rattle.scop_expressions.specs.Outside.TheVariants as outside;
ghost use Rattle.scop_expressions.specs.Token.TheVariants as kind;
ghost use Rattle.scop_expressions.specs.Token.{Token as Kind};
ghost use Rattle.scop_lexer.specs.Signs.{BeginsWith, IsLongestSign, IsWritten, assigns};
ghost use Rattle.scop_lexer.specs.Tokens.{HasFault, HasTokens};
ghost use Rattle.scop_lexer.specs.declared.token.Fault.{Fault};
ghost use Rattle.scop_lexer.specs.declared.token.FaultKind.TheVariants.{Character};
ghost use Rattle.scop_lexer.specs.declared.token.Token.{Token};

use scop_lexer::{
    first_fault_is_unique, longest_sign_is_told, text_has_tokens_or_a_fault, tokens_are_unique,
    tokens_exclude_a_fault,
};

/// `x;` is two tokens and no others, by the clause of `tokens_are_unique`; it has no fault, by that of
/// `tokens_exclude_a_fault`.
pub fn a_name_and_a_sign()
    ensures has { (ts : List Token) → ts ≡ record { kind = kind.Name; value = 0; start = 0; end = 1 }
        ∷ record { kind = kind.Outside outside.Semicolon; value = 0; start = 1; end = 2 } ∷ []
        → HasTokens (codes "x;") ts }
    ensures tokens { (ts : List Token) → HasTokens (codes "x;") ts
        → ts ≡ record { kind = kind.Name; value = 0; start = 0; end = 1 }
        ∷ record { kind = kind.Outside outside.Semicolon; value = 0; start = 1; end = 2 } ∷ [] }
    ensures sound { (fault : Fault) → HasFault (codes "x;") fault → ⊥ }
{
    tokens_are_unique();
    tokens_exclude_a_fault();
}

/// `@` has one fault at its first byte, by the clause of `first_fault_is_unique`, and so no tokens; a text without a
/// fault has tokens, by that of `text_has_tokens_or_a_fault`.
pub fn a_character_of_no_token()
    ensures fault { (fault : Fault) → HasFault (codes "@") fault → fault ≡ record { kind = Character; place = 0 } }
    ensures none { (ts : List Token) → HasTokens (codes "@") ts → ⊥ }
    ensures tokens { (text : Text) → ((fault : Fault) → HasFault text fault → ⊥)
        → (ts : List Token) × HasTokens text ts }
{
    first_fault_is_unique();
    tokens_exclude_a_fault();
    text_has_tokens_or_a_fault();
}

/// The longest sign of `<<= 1` is `<<=`, and no sign begins `@`, by the clause of `longest_sign_is_told`; `<<` is not
/// the longest of the former, and `<=` does not begin it, by the definition `IsLongestSign`.
pub fn the_longest_of_three_signs()
    ensures longest { (w : Text) × IsLongestSign (codes "<<= 1") w (assigns assign.ShiftLeft) }
    ensures none { (w : Text) (s : Kind) → IsWritten w s → BeginsWith w (codes "@") → ⊥ }
    ensures shorter { IsLongestSign (codes "<<= 1") (codes "<<") (kind.Binary op.ShiftLeft) → ⊥ }
    ensures other { IsLongestSign (codes "<<= 1") (codes "<=") (kind.Binary op.AtMost) → ⊥ }
{
    longest_sign_is_told();
}
