//! Integer constants (C17 6.4.4.1).

ghost use Rattle.std.specs.Prelude.{◌≡◌, ◌+◌, ◌*◌, ◌-◌, ◌^◌, ◌<◌, ◌≤◌, IfSome, IfNone, length};
ghost use Rattle.std.specs.List.{prefix_len};
ghost use Rattle.scop_lexer.specs.Constants.{digit_value, number_behind, radix, is_digit_in, greatest};
ghost use Rattle.scop_lexer.specs.Constants.{is_suffix, with_suffix, constant_in, is_hexadecimal, is_octal};
ghost use Rattle.scop_lexer.specs.Constants.{constant_of, numeral_stands};

use crate::bytes::byte_at;
use crate::stand::Stand;
use crate::token::{FaultKind, Kind};
use scop_tokens::{Base, Suffix};

/// The suffixes of an unsigned constant.
const SUFFIXES: [&[u8]; 8] = [
    b"ull", b"uLL", b"Ull", b"ULL", b"llu", b"llU", b"LLu", b"LLU",
];

/// A word that begins with a digit, as the token that it is.
pub(crate) fn numeral_stands(word: &[u8]) -> Stand
    ensures { result ≡ numeral_stands word.now }
{
    match constant_of(word) {
        Some((suffix, value)) => Stand::Lexeme(Kind::Constant(suffix), value, word.len()),
        None => Stand::Wrong(FaultKind::LiteralRange, 0),
    }
}

/// The constant that a word is: its suffix, or its base where it has none, and its value.
fn constant_of(word: &[u8]) -> Option<(Suffix, u64)>
    ensures { result ≡ constant_of word.now }
{
    if is_hexadecimal(word) {
        return constant_in(Base::Hexadecimal, &word[2..]);
    }
    if is_octal(word) {
        return None;
    }
    constant_in(Base::Decimal, word)
}

/// The constant that a text of digits of a base is.
fn constant_in(base: Base, text: &[u8]) -> Option<(Suffix, u64)>
    ensures { result ≡ constant_in base text.now }
{
    let count = digit_len(base, text);
    if count == 0 {
        return None;
    }
    let (digits, tail) = text.split_at(count);
    constant(base, digits, tail)
}

/// The constant of these digits and this text behind them.
fn constant(base: Base, digits: &[u8], tail: &[u8]) -> Option<(Suffix, u64)>
    ensures { result ≡ with_suffix base (number_behind (radix base) 0 digits.now) tail.now }
{
    match number(radix(base), digits) {
        Some(value) => with_suffix(base, value, tail),
        None => None,
    }
}

/// How many digits a base has.
fn radix(base: Base) -> u64
    ensures value { result ≡ radix base }
    ensures some { 0 < result }
{
    match base {
        Base::Decimal => 10,
        Base::Hexadecimal => 16,
    }
}

/// The greatest constant of a base without a suffix.
fn greatest(base: Base) -> u64
    ensures { result ≡ greatest base }
{
    match base {
        Base::Decimal => 0x7FFF_FFFF_FFFF_FFFF,
        Base::Hexadecimal => u64::MAX,
    }
}

/// The constant of this value and this text behind its digits.
fn with_suffix(base: Base, value: u64, tail: &[u8]) -> Option<(Suffix, u64)>
    ensures { result ≡ with_suffix base value tail.now }
{
    if tail.is_empty() {
        if value <= greatest(base) {
            return Some((Suffix::Absent(base), value));
        }
        return None;
    }
    if is_suffix(tail) {
        return Some((Suffix::Present, value));
    }
    None
}

/// Whether a text is the suffix of an unsigned constant.
fn is_suffix(text: &[u8]) -> bool
    ensures { result ≡ is_suffix text.now }
{
    SUFFIXES.contains(&text)
}

/// Whether a word begins as hexadecimals do.
fn is_hexadecimal(word: &[u8]) -> bool
    ensures { result ≡ is_hexadecimal word.now }
{
    byte_at(word, 0) == b'0' && (byte_at(word, 1) == b'x' || byte_at(word, 1) == b'X')
}

/// Whether a word begins as octals do.
fn is_octal(word: &[u8]) -> bool
    ensures { result ≡ is_octal word.now }
{
    byte_at(word, 0) == b'0' && byte_at(word, 1).is_ascii_digit()
}

/// Whether the byte is a digit of a base.
fn is_digit_in(base: Base, byte: u8) -> bool
    ensures { result ≡ is_digit_in base byte }
{
    match base {
        Base::Decimal => byte.is_ascii_digit(),
        Base::Hexadecimal => byte.is_ascii_hexdigit(),
    }
}

/// How many digits of a base the text begins with.
fn digit_len(base: Base, text: &[u8]) -> usize
    ensures value { result ≡ prefix_len (is_digit_in base) text.now }
    ensures within { result ≤ length text.now }
{
    text.iter()
        .take_while(|byte| is_digit_in(base, **byte))
        .count()
}

/// The number that digits write, if it has 64 bits.
fn number(radix: u64, digits: &[u8]) -> Option<u64>
    requires { 0 < radix }
    ensures some { IfSome result (λ value. value ≡ number_behind radix 0 digits.now) }
    ensures none { IfNone result (2 ^ 64 ≤ number_behind radix 0 digits.now) }
{
    let mut value = 0;
    for digit in digits {
        match next_number(radix, value, *digit) {
            Some(next) => value = next,
            None => return None,
        }
    }
    Some(value)
}

/// The number with one more digit behind it, if it has 64 bits.
fn next_number(radix: u64, value: u64, digit: u8) -> Option<u64>
    ensures some { IfSome result (λ next. next ≡ radix * value + digit_value digit) }
    ensures none { IfNone result (2 ^ 64 ≤ radix * value + digit_value digit) }
{
    radix.checked_mul(value)?.checked_add(digit_value(digit))
}

/// The number that a hexadecimal digit stands for.
fn digit_value(digit: u8) -> u64
    ensures { result ≡ digit_value digit }
{
    if digit <= b'9' {
        u64::from(digit.saturating_sub(48))
    } else if digit <= b'F' {
        u64::from(digit.saturating_sub(55))
    } else {
        u64::from(digit.saturating_sub(87))
    }
}
