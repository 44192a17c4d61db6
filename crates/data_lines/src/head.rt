//! The head of a line: a name and `=`.

ghost use Rattle.std.specs.Prelude.{◌≡◌, ◌≤◌, ◌==◌, if◌then◌else◌, length, IfSome, IsNone, Some, None};
ghost use Rattle.data_lines.specs.Heads.{name_bytes, name_len, named_list};
ghost use Rattle.scop_lexer.specs.declared.stand.Stand.TheVariants.{Lexeme};

use crate::words::unindented;
use scop_lexer::{Kind, Token, next_token};

/// A name, and what stands behind the `=`.
#[derive(Clone, Copy)]
pub(crate) struct Head<'a> {
    pub(crate) name: &'a [u8],
    pub(crate) list: &'a [u8],
}

/// The head of a text that begins with a name.
pub(crate) fn head_of(text: &[u8]) -> Option<Head<'_>>
    ensures some { IfSome result (λ head. named_list text.now ≡ Some (head.name.now, head.list.now)) }
    ensures none { IsNone result → named_list text.now ≡ None }
{
    let (name, behind) = text.split_at(name_len(text));
    if name.is_empty() {
        return None;
    }
    match unindented(behind).split_first() {
        Some((b'=', list)) => Some(Head { name, list }),
        _ => None,
    }
}

/// How long the name is that a text begins with, 0 where it begins with none.
fn name_len(text: &[u8]) -> usize
    ensures value { result ≡ name_len text.now }
    ensures within { result ≤ length text.now }
{
    match next_token(text, 0) {
        Ok(Some(token)) => name_end(token),
        Ok(None) => 0,
        Err(_) => 0,
    }
}

/// The end of a token, if it is a name at the text's start; else 0.
fn name_end(token: Token) -> usize
    ensures { result ≡ (if token.start == 0 then name_bytes (Lexeme token.kind token.value token.end) else 0) }
{
    if token.start > 0 {
        return 0;
    }
    match token.kind {
        Kind::Name => token.end,
        _ => 0,
    }
}
