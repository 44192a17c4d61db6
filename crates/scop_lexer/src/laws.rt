//! Laws of tokens and faults, as contracts of functions that do nothing.

ghost use Rattle.std.specs.Prelude.{◌≡◌, ◌⊎◌, ℕ, List, take, drop};
ghost use Rattle.scop_lexer.specs.Bytes.{Text};
ghost use Rattle.scop_lexer.specs.Words.{IsName};
ghost use Rattle.scop_lexer.specs.Stands.{stands_at};
ghost use Rattle.scop_lexer.specs.Signs.{StandsAsSign, sign_stands};
ghost use Rattle.scop_lexer.specs.Tokens.{HasTokens, HasFault};
ghost use Rattle.scop_lexer.specs.declared.stand.Stand.TheVariants.{Lexeme};
ghost use Rattle.scop_tokens.specs.declared.Token.TheVariants.{Name};
ghost use Rattle.scop_lexer.specs.declared.token.Token.{Token};
ghost use Rattle.scop_lexer.specs.declared.token.Fault.{Fault};

/// Each text has tokens or a first fault.
pub fn text_has_tokens_or_a_fault()
    ensures { (text : Text)
        → ((tokens : List Token) × HasTokens text tokens) ⊎ ((fault : Fault) × HasFault text fault) }
{}

/// No text has both.
pub fn tokens_exclude_a_fault()
    ensures { (text : Text) (tokens : List Token) (fault : Fault)
        → HasTokens text tokens → HasFault text fault → ⊥ }
{}

/// A text has one list of tokens at most.
pub fn tokens_are_unique()
    ensures { (text : Text) (ts us : List Token) → HasTokens text ts → HasTokens text us → ts ≡ us }
{}

/// A text has one first fault at most.
pub fn first_fault_is_unique()
    ensures { (text : Text) (f g : Fault) → HasFault text f → HasFault text g → f ≡ g }
{}

/// Where a sign may stand, the longest one in front of the text is told (C17 6.4, paragraph 4), and a byte
/// that begins none is wrong.
pub fn longest_sign_is_told()
    ensures { (text : Text) → StandsAsSign text (sign_stands text) }
{}

/// What stands as a name in a text is a name by itself.
pub fn names_stand_by_themselves()
    ensures { (text : Text) (at value n : ℕ) → stands_at text at ≡ Lexeme Name value n
        → IsName (take n (drop at text)) }
{}
