//! The bytes of a text, and runs of them (C17 5.2.1 and 6.4).

ghost use Rattle.std.specs.Prelude.{◌≡◌, ◌≤◌, length, get_or};
ghost use Rattle.std.specs.List.{prefix_len};
ghost use Rattle.scop_lexer.specs.Bytes.{is_blank, is_letter, is_word_byte, is_in_line, is_fresh};

/// The byte at a place, 0 behind the end.
pub(crate) fn byte_at(text: &[u8], at: usize) -> u8
    ensures { result ≡ get_or text.now at 0 }
{
    text.get(at).copied().unwrap_or(0)
}

/// Whether the byte is a space, a tab, a line feed, a form feed or a carriage return.
pub fn is_blank(byte: u8) -> bool
    ensures { result ≡ is_blank byte }
{
    matches!(byte, b' ' | b'\t' | b'\n' | 0x0C | b'\r')
}

/// Whether the byte is a letter or `_`.
pub(crate) fn is_letter(byte: u8) -> bool
    ensures { result ≡ is_letter byte }
{
    byte.is_ascii_alphabetic() || byte == b'_'
}

/// Whether names, keywords and constants are made of the byte.
pub fn is_word_byte(byte: u8) -> bool
    ensures { result ≡ is_word_byte byte }
{
    is_letter(byte) || byte.is_ascii_digit()
}

/// How many word bytes the text begins with.
pub(crate) fn word_len(text: &[u8]) -> usize
    ensures value { result ≡ prefix_len is_word_byte text.now }
    ensures within { result ≤ length text.now }
{
    text.iter().take_while(|byte| is_word_byte(**byte)).count()
}

/// How many blanks the text begins with.
pub fn blank_len(text: &[u8]) -> usize
    ensures value { result ≡ prefix_len is_blank text.now }
    ensures within { result ≤ length text.now }
{
    text.iter().take_while(|byte| is_blank(**byte)).count()
}

/// How many bytes the first line has, without its line feed.
pub(crate) fn line_len(text: &[u8]) -> usize
    ensures value { result ≡ prefix_len is_in_line text.now }
    ensures within { result ≤ length text.now }
{
    text.iter().take_while(|byte| **byte != b'\n').count()
}

/// Whether only blanks stand in the last line of the text.
#[tactic(auto, using(crate::proofs::ByteLemmas::fresh_more))]
pub(crate) fn is_fresh(front: &[u8]) -> bool
    ensures { result ≡ is_fresh front.now }
{
    let mut at = front.len();
    while at > 0 {
        let byte = front[at - 1];
        if byte == b'\n' {
            return true;
        }
        if !is_blank(byte) {
            return false;
        }
        at -= 1;
    }
    true
}
