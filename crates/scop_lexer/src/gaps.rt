//! What stands between tokens: comments (C17 6.4.9) and directive lines (C17 6.10).

ghost use Rattle.std.specs.Prelude.{◌≡◌, ◌≤◌, IfSome, false, get_or, length};
ghost use Rattle.scop_lexer.specs.Gaps.{close, comment_stands, are_closed, turns};
ghost use Rattle.scop_lexer.specs.Gaps.{word_behind, is_directive_word, is_directive, hash_stands};

use crate::bytes::{blank_len, byte_at, line_len, word_len};
use crate::stand::Stand;
use crate::token::FaultKind;

/// What stands in front of a text that begins with `/*`.
pub(crate) fn comment_stands(text: &[u8]) -> Stand
    requires { 2 ≤ length text.now }
    ensures { result ≡ comment_stands text.now }
{
    let (_, behind) = text.split_at(2);
    match close(behind) {
        Some(count) => Stand::Gap(2 + count),
        None => Stand::Wrong(FaultKind::UnendedComment, 0),
    }
}

/// How many bytes stand in front up to the end of the first `*/`.
fn close(text: &[u8]) -> Option<usize>
    ensures value { result ≡ close text.now }
    ensures within { IfSome result (λ count. count ≤ length text.now) }
{
    let mut at = 0;
    while at + 1 < text.len() {
        if turns(true, text[at], text[at + 1]) {
            return Some(at + 2);
        }
        at += 1;
    }
    None
}

/// What stands in front of a text that begins with `#`.
pub(crate) fn hash_stands(fresh: bool, text: &[u8]) -> Stand
    requires { get_or text.now 0 0 ≡ 35 }
    ensures { result ≡ hash_stands fresh text.now }
{
    if !fresh {
        return Stand::Wrong(FaultKind::Character, 0);
    }
    let (line, _) = text.split_at(line_len(text));
    if is_directive(line) {
        return Stand::Gap(line.len());
    }
    Stand::Wrong(FaultKind::Directive, 0)
}

/// Whether a line that begins with `#` is read over.
fn is_directive(line: &[u8]) -> bool
    requires { 1 ≤ length line.now }
    ensures { result ≡ is_directive line.now }
{
    let (_, behind) = line.split_at(1);
    is_directive_word(word_behind(behind)) && line[line.len() - 1] != b'\\' && are_closed(line)
}

/// The word behind blanks.
fn word_behind(text: &[u8]) -> &[u8]
    ensures { result.now ≡ word_behind text.now }
{
    let (_, behind) = text.split_at(blank_len(text));
    let (word, _) = behind.split_at(word_len(behind));
    word
}

/// Whether the line of a directive with this word is read over.
fn is_directive_word(word: &[u8]) -> bool
    ensures { result ≡ is_directive_word word.now }
{
    word == b"include".as_slice() || word == b"pragma".as_slice()
}

/// Whether each comment that begins in the line ends in it.
fn are_closed(line: &[u8]) -> bool
    ensures { result ≡ are_closed false line.now }
{
    let mut inside = false;
    let mut at = 0;
    while at < line.len() {
        if turns(inside, line[at], byte_at(line, at + 1)) {
            inside = !inside;
            at += 2;
        } else {
            at += 1;
        }
    }
    !inside
}

/// Whether these two bytes end a comment that is open, or begin one where none is.
fn turns(inside: bool, first: u8, second: u8) -> bool
    ensures { result ≡ turns inside first second }
{
    if inside {
        first == b'*' && second == b'/'
    } else {
        first == b'/' && second == b'*'
    }
}
