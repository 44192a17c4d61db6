//! A text by its lines, and a line by its words.

ghost use Rattle.std.specs.Prelude.{◌≡◌, ◌≤◌, ◌<◌, ◌∷◌, [], length, IfSome, IsNone};
ghost use Rattle.std.specs.List.{position_or_len};
ghost use Rattle.scop_lexer.specs.Bytes.{is_blank};
ghost use Rattle.data_lines.specs.Words.{is_line_feed, unindented, words_of};

use scop_lexer::{blank_len, is_blank};

/// How many bytes the first line has, without its line feed.
pub(crate) fn line_len(text: &[u8]) -> usize
    ensures value { result ≡ position_or_len is_line_feed text.now }
    ensures within { result ≤ length text.now }
{
    text.iter().take_while(|byte| **byte != b'\n').count()
}

/// How many bytes other than blanks the text begins with.
fn word_len(text: &[u8]) -> usize
    ensures value { result ≡ position_or_len is_blank text.now }
    ensures within { result ≤ length text.now }
{
    text.iter().take_while(|byte| !is_blank(**byte)).count()
}

/// The text without the blanks in front of it.
pub(crate) fn unindented(text: &[u8]) -> &[u8]
    ensures value { result.now ≡ unindented text.now }
    ensures shorter { length result.now ≤ length text.now }
{
    let (_, behind) = text.split_at(blank_len(text));
    behind
}

/// A word, and the text behind it.
#[derive(Clone, Copy)]
pub(crate) struct Word<'a> {
    pub(crate) word: &'a [u8],
    pub(crate) behind: &'a [u8],
}

/// The first word of a line, if it has one.
pub(crate) fn first_word(line: &[u8]) -> Option<Word<'_>>
    ensures some { IfSome result (λ first. words_of line.now ≡ first.word.now ∷ words_of first.behind.now) }
    ensures none { IsNone result → words_of line.now ≡ [] }
    ensures shorter { IfSome result (λ first. length first.behind.now < length line.now) }
{
    let text = unindented(line);
    let (word, behind) = text.split_at(word_len(text));
    if word.is_empty() {
        return None;
    }
    Some(Word { word, behind })
}
