//! Words: keywords, names of types and names (C17 6.4.1 and 6.4.2.1).

ghost use Rattle.std.specs.Prelude.{◌≡◌};
ghost use Rattle.std.specs.List.{list_any};
ghost use Rattle.std.specs.Str.{bytes_eq};
ghost use Rattle.scop_lexer.specs.Words.{other_keywords, kind_of_word, word_stands};

use crate::stand::Stand;
use crate::token::{FaultKind, Kind};
use scop_tokens::{Outside, Width};

/// The longest name, in bytes (C17 5.2.4.1).
const LONGEST_NAME: usize = 63;

/// The keywords of C17 that no kernel has.
const OTHER_KEYWORDS: [&[u8]; 41] = [
    b"auto",
    b"break",
    b"case",
    b"char",
    b"const",
    b"continue",
    b"default",
    b"do",
    b"double",
    b"else",
    b"enum",
    b"extern",
    b"float",
    b"goto",
    b"inline",
    b"int",
    b"long",
    b"register",
    b"restrict",
    b"return",
    b"short",
    b"signed",
    b"sizeof",
    b"static",
    b"struct",
    b"switch",
    b"typedef",
    b"union",
    b"unsigned",
    b"volatile",
    b"while",
    b"_Alignas",
    b"_Alignof",
    b"_Atomic",
    b"_Bool",
    b"_Complex",
    b"_Generic",
    b"_Imaginary",
    b"_Noreturn",
    b"_Static_assert",
    b"_Thread_local",
];

/// Whether a word is a keyword that no kernel has.
fn is_other_keyword(word: &[u8]) -> bool
    ensures { result ≡ list_any (λ keyword. bytes_eq keyword word.now) other_keywords }
{
    OTHER_KEYWORDS.contains(&word)
}

/// The kind of a word that begins with a letter.
fn kind_of_word(word: &[u8]) -> Kind
    ensures { result ≡ kind_of_word word.now }
{
    // Most names of kernels have one byte, and no keyword has.
    if word.len() == 1 {
        return Kind::Name;
    }
    if word == b"void".as_slice() {
        return Kind::Outside(Outside::Void);
    }
    if word == b"for".as_slice() {
        return Kind::Outside(Outside::For);
    }
    if word == b"if".as_slice() {
        return Kind::Outside(Outside::If);
    }
    if word == b"int64_t".as_slice() {
        return Kind::Outside(Outside::Int64);
    }
    if word == b"uint64_t".as_slice() {
        return Kind::Unsigned(Width::Full);
    }
    if word == b"uint32_t".as_slice() {
        return Kind::Unsigned(Width::Narrow);
    }
    if is_other_keyword(word) {
        return Kind::Outside(Outside::Keyword);
    }
    Kind::Name
}

/// A word that begins with a letter, as the token that it is.
pub(crate) fn word_stands(word: &[u8]) -> Stand
    ensures { result ≡ word_stands word.now }
{
    if word.len() > LONGEST_NAME {
        return Stand::Wrong(FaultKind::Character, LONGEST_NAME);
    }
    Stand::Lexeme(kind_of_word(word), 0, word.len())
}
