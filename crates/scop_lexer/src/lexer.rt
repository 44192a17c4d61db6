//! The lexer: where the tokens of a kernel's text begin, or its first fault, in one pass; a token by its start.

ghost use Rattle.std.specs.Prelude.{◌≡◌, ◌<◌, ◌≤◌, ◌++◌, ◌∷◌, [], length, MatchOption, IfOk, IfErr, IfSome, OnOk};
ghost use Rattle.scop_lexer.specs.Tokens.{IsGap, IsNext, IsNextFault, HasTokens, RefusesTokens};
ghost use Rattle.scop_lexer.specs.Tokens.{IsBetween, AreBetween, StopsWithin, token_at, token_of, tokens_at};
ghost use Rattle.scop_lexer.specs.declared.stand.Stand.TheVariants.{End};

use crate::stand::Stand;
use crate::stands::stands_at;
use crate::token::{Fault, Kind, Stop, Token};
use std::alloc::{AllocError, Global};

/// The next token from a place on; none where only a gap is left.
pub fn next_token(text: &[u8], from: usize) -> Result<Option<Token>, Fault>
    requires { from ≤ length text.now }
    ensures next { IfOk result
        (λ next. MatchOption next (IsGap text.now from (length text.now)) (IsNext text.now from)) }
    ensures fault { IfErr result (IsNextFault text.now from) }
    ensures span { IfOk result (λ next. IfSome next (λ token. IsBetween from token (length text.now))) }
    ensures place { IfErr result (λ fault. fault.place < length text.now) }
{
    let mut at = from;
    loop {
        match stands_at(text, at) {
            Stand::End => return Ok(None),
            Stand::Gap(count) => at += count,
            Stand::Lexeme(kind, value, count) => {
                return Ok(Some(Token {
                    kind,
                    value,
                    start: at,
                    end: at + count,
                }));
            }
            Stand::Wrong(kind, count) => {
                return Err(Fault {
                    kind,
                    place: at + count,
                });
            }
        }
    }
}

// No token begins here.
fn nothing(at: usize) -> Token
    ensures { result ≡ token_of at End }
{
    Token {
        kind: Kind::Name,
        value: 0,
        start: at,
        end: at,
    }
}

/// The token that begins at a place; an empty name where none does.
pub fn token_at(text: &[u8], at: usize) -> Token
    ensures { result ≡ token_at text.now at }
{
    if text.len() < at {
        return nothing(at);
    }
    match stands_at(text, at) {
        Stand::Lexeme(kind, value, count) => Token {
            kind,
            value,
            start: at,
            end: at + count,
        },
        Stand::End => nothing(at),
        Stand::Gap(_) => nothing(at),
        Stand::Wrong(_, _) => nothing(at),
    }
}

// A start of more than 32 bits has no room.
fn push_start(starts: &mut Vec<u32>, start: usize) -> Result<(), AllocError>
    ensures { OnOk result (starts.new.items ≡ starts.old.items ++ start ∷ []) }
{
    let Ok(start) = u32::try_from(start) else {
        return Err(AllocError);
    };
    starts.push(start)?;
    Ok(())
}

/// The places where the tokens of a text begin, in order, or its first fault.
///
/// # Errors
/// The first fault of the tokens. `NoMemory` may come wherever memory is taken, and where a token begins behind 2^32
/// bytes.
pub fn starts(alloc: Global, text: &[u8]) -> Result<Vec<u32>, Stop>
    ensures tokens { IfOk result (λ starts. HasTokens text.now (tokens_at text.now starts.items)) }
    ensures refused { IfErr result (RefusesTokens text.now) }
    ensures order { IfOk result (λ starts. AreBetween 0 (tokens_at text.now starts.items) (length text.now)) }
    ensures place { IfErr result (StopsWithin (length text.now)) }
{
    let mut starts = Vec::new(alloc);
    let mut at = 0;
    loop {
        match next_token(text, at) {
            Ok(None) => return Ok(starts),
            Ok(Some(token)) => {
                at = token.end;
                match push_start(&mut starts, token.start) {
                    Ok(()) => {}
                    Err(_) => return Err(Stop::NoMemory),
                }
            }
            Err(fault) => return Err(Stop::Refused(fault)),
        }
    }
}

fn tokens_from(alloc: Global, text: &[u8], starts: &[u32]) -> Result<Vec<Token>, AllocError>
    ensures { IfOk result (λ tokens. tokens.items ≡ tokens_at text.now starts.now) }
{
    starts
        .iter()
        .map(|start| token_at(text, *start as usize))
        .collect(alloc)
}

/// The tokens of a text, in order, each by its kind and its span, or the text's first fault.
///
/// # Errors
/// As those of `starts`, which keeps four bytes of each token.
pub fn tokens(alloc: Global, text: &[u8]) -> Result<Vec<Token>, Stop>
    ensures tokens { IfOk result (λ tokens. HasTokens text.now tokens.items) }
    ensures refused { IfErr result (RefusesTokens text.now) }
    ensures order { IfOk result (λ tokens. AreBetween 0 tokens.items (length text.now)) }
    ensures place { IfErr result (StopsWithin (length text.now)) }
{
    let starts = starts(alloc, text)?;
    Ok(tokens_from(alloc, text, &starts)?)
}
