//! The tokens of a text, and what is looked up by a token's place.
ghost use Rattle.std.specs.Prelude.{◌≡◌, ◌≤◌, ◌-◌, drop, length, slice_get, take};
ghost use Rattle.scop_lexer.specs.Tokens.{AreBetween};
ghost use Rattle.scop_units.specs.View.{tokens_in, words_in};
ghost use Rattle.scop_units.specs.Words.{start_of};

use scop_lexer::{Token as Lexeme, token_at};

// The bytes from a place to another, as far as the text has them.
fn span(text: &[u8], start: usize, end: usize) -> &[u8]
    ensures { result.now ≡ take (end - start) (drop start text.now) }
{
    if text.len() <= start {
        return &[];
    }
    let behind = &text[start..];
    let count = end.saturating_sub(start);
    if behind.len() <= count {
        return behind;
    }
    &behind[..count]
}

/// A text, and where its tokens begin: a token is read again where it is looked up.
#[derive(Clone, Copy)]
pub struct Words<'a> {
    pub text: &'a [u8],
    pub starts: &'a [u32],
}

impl<'a> Words<'a> {
    // A token.
    fn token(&self, at: usize) -> Option<Lexeme>
        ensures { result ≡ slice_get (tokens_in self.now) at }
    {
        match self.starts.get(at) {
            None => None,
            Some(start) => Some(token_at(self.text, *start as usize)),
        }
    }

    /// The bytes of a token.
    pub fn spelling(&self, at: usize) -> &'a [u8]
        ensures { result.now ≡ (words_in self.now).spelling at }
    {
        match self.token(at) {
            None => &[],
            Some(token) => span(self.text, token.start, token.end),
        }
    }

    /// The number that a constant is.
    pub fn worth(&self, at: usize) -> u64
        ensures { result ≡ (words_in self.now).worth at }
    {
        match self.token(at) {
            None => 0,
            Some(token) => token.value,
        }
    }

    /// The byte where a token begins; behind the last the text's end.
    pub fn start(&self, at: usize) -> usize
        requires { AreBetween 0 (tokens_in self.now) (length self.now.text.now) }
        ensures start { result ≡ start_of self.now.text.now (tokens_in self.now) at }
        ensures within { result ≤ length self.now.text.now }
    {
        match self.token(at) {
            None => self.text.len(),
            Some(token) => token.start,
        }
    }
}
