//! What stands at a place of a text: the longest token, a gap, or a fault (C17 6.4, paragraph 4).

ghost use Rattle.std.specs.Prelude.{◌≡◌, ◌≤◌, ◌-◌, ◌∷◌, length, drop};
ghost use Rattle.scop_lexer.specs.Bytes.{is_fresh};
ghost use Rattle.scop_lexer.specs.Stands.{slash_stands, stands, stands_at, HasRoom};
ghost use Rattle.scop_lexer.specs.Stands.{word_of};

use crate::bytes::{byte_at, is_blank, is_fresh, is_letter, line_len, word_len};
use crate::constants::numeral_stands;
use crate::gaps::{comment_stands, hash_stands};
use crate::signs::sign_stands;
use crate::stand::Stand;
use crate::words::word_stands;

/// What stands at a place of a text.
#[tactic(auto, unfolding(crate::specs::Stands::stands_at))]
pub(crate) fn stands_at(text: &[u8], at: usize) -> Stand
    requires { at ≤ length text.now }
    ensures value { result ≡ stands_at text.now at }
    ensures within { HasRoom (length text.now - at) result }
{
    let (front, rest) = text.split_at(at);
    match rest.split_first() {
        None => Stand::End,
        Some((first, _)) => begin(*first, front, rest),
    }
}

/// What stands in front of the text `rest`, which begins with `first`; the text `front` stands before it.
fn begin(first: u8, front: &[u8], rest: &[u8]) -> Stand
    requires first { rest.now ≡ first ∷ drop 1 rest.now }
    ensures { result ≡ stands (is_fresh front.now) rest.now }
{
    if is_blank(first) {
        return Stand::Gap(1);
    }
    if is_letter(first) {
        return word_stands(word_of(rest));
    }
    if first.is_ascii_digit() {
        return numeral_stands(word_of(rest));
    }
    match first {
        b'#' => hash_stands(is_fresh(front), rest),
        b'/' => slash_stands(rest),
        _ => sign_stands(rest),
    }
}

/// The longest run of letters, digits and `_` in front.
fn word_of(text: &[u8]) -> &[u8]
    ensures { result.now ≡ word_of text.now }
{
    let (word, _) = text.split_at(word_len(text));
    word
}

/// What stands in front of a text that begins with `/`.
fn slash_stands(text: &[u8]) -> Stand
    requires { 1 ≤ length text.now }
    ensures { result ≡ slash_stands text.now }
{
    match byte_at(text, 1) {
        b'/' => Stand::Gap(line_len(text)),
        b'*' => comment_stands(text),
        _ => sign_stands(text),
    }
}
