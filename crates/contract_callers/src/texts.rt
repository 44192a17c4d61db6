//! Callers of the lexer, of single instances and of statuses.
ghost use Rattle.std.specs.Prelude.{◌≡◌, ◌<◌, ◌≤◌, ◌∷◌, [], ℕ, Err, IfOk, length};
ghost use Rattle.scop_lexer.specs.Stands.{stands_at};
ghost use Rattle.scop_lexer.specs.Tokens.{IsGap};
ghost use Rattle.scop_lexer.specs.declared.stand.Stand.TheVariants.{Wrong};
ghost use Rattle.scop_lexer.specs.declared.token.Fault.{Fault};
ghost use Rattle.scop_lexer.specs.declared.token.Stop.TheVariants.{Refused};
ghost use Rattle.scop_lexer.specs.declared.token.Token.{Token};

use scop_lexer::{Stop, Token, tokens};
use std::alloc::Global;

/// A text without tokens is a gap, by `tokens` of `tokens`; where one is refused, something wrong stands in it, by
/// `refused`; a token that stands alone ends within the text, by `order`; a fault lies at one of its bytes, by `place`.
pub fn tokens_of(alloc: Global, text: &[u8]) -> Result<Vec<Token>, Stop>
    ensures tokens { IfOk result (λ tokens. tokens.items ≡ [] → IsGap text.now 0 (length text.now)) }
    ensures refused { (fault : Fault) → result ≡ Err (Refused fault)
        → (at : ℕ) × (count : ℕ) × (stands_at text.now at ≡ Wrong fault.kind count) }
    ensures order { IfOk result (λ tokens. (token : Token) → tokens.items ≡ token ∷ [] → token.end ≤ length text.now) }
    ensures place { (fault : Fault) → result ≡ Err (Refused fault) → fault.place < length text.now }
{
    tokens(alloc, text)
}
