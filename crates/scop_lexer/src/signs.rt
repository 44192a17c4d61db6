//! Signs, the longest first (C17 6.4.6 and 6.4, paragraph 4).

ghost use Rattle.std.specs.Prelude.{◌≡◌};
ghost use Rattle.scop_lexer.specs.Signs.{assigns, single, with_equal, doubled, doubled_with_equal};
ghost use Rattle.scop_lexer.specs.Signs.{sign_stands, sign_stands_at};

use crate::bytes::byte_at;
use crate::stand::Stand;
use crate::token::{FaultKind, Kind};
use scop_tokens::{Assign, Count, Op, Outside};

/// The longest sign in front of a text.
pub(crate) fn sign_stands(text: &[u8]) -> Stand
    ensures { result ≡ sign_stands text.now }
{
    sign_stands_at(byte_at(text, 0), byte_at(text, 1), byte_at(text, 2))
}

/// The longest sign that three bytes begin with.
fn sign_stands_at(first: u8, second: u8, third: u8) -> Stand
    ensures { result ≡ sign_stands_at first second third }
{
    if second == first && third == b'=' {
        if let Some(sign) = doubled_with_equal(first) {
            return Stand::Lexeme(sign, 0, 3);
        }
    }
    if second == first {
        if let Some(sign) = doubled(first) {
            return Stand::Lexeme(sign, 0, 2);
        }
    }
    if second == b'=' {
        if let Some(sign) = with_equal(first) {
            return Stand::Lexeme(sign, 0, 2);
        }
    }
    match single(first) {
        Some(sign) => Stand::Lexeme(sign, 0, 1),
        None => Stand::Wrong(FaultKind::Character, 0),
    }
}

/// A sign that assigns.
fn assigns(assign: Assign) -> Kind
    ensures { result ≡ assigns assign }
{
    Kind::Outside(Outside::Assign(assign))
}

/// The sign that a byte is.
fn single(byte: u8) -> Option<Kind>
    ensures { result ≡ single byte }
{
    match byte {
        b'(' => Some(Kind::Open),
        b')' => Some(Kind::Close),
        b'[' => Some(Kind::OpenIndex),
        b']' => Some(Kind::CloseIndex),
        b'{' => Some(Kind::Outside(Outside::BraceOpen)),
        b'}' => Some(Kind::Outside(Outside::BraceClose)),
        b';' => Some(Kind::Outside(Outside::Semicolon)),
        b',' => Some(Kind::Binary(Op::Comma)),
        b'~' => Some(Kind::Complement),
        b'=' => Some(assigns(Assign::Set)),
        b'!' => Some(Kind::Not),
        b'*' => Some(Kind::Binary(Op::Times)),
        b'/' => Some(Kind::Binary(Op::Divide)),
        b'%' => Some(Kind::Binary(Op::Remainder)),
        b'^' => Some(Kind::Binary(Op::BitXor)),
        b'+' => Some(Kind::Binary(Op::Plus)),
        b'-' => Some(Kind::Binary(Op::Minus)),
        b'&' => Some(Kind::Binary(Op::BitAnd)),
        b'|' => Some(Kind::Binary(Op::BitOr)),
        b'<' => Some(Kind::Binary(Op::Less)),
        b'>' => Some(Kind::Binary(Op::Greater)),
        _ => None,
    }
}

/// The sign that a byte and `=` are.
fn with_equal(byte: u8) -> Option<Kind>
    ensures { result ≡ with_equal byte }
{
    match byte {
        b'=' => Some(Kind::Binary(Op::Equal)),
        b'!' => Some(Kind::Binary(Op::NotEqual)),
        b'*' => Some(assigns(Assign::Times)),
        b'/' => Some(assigns(Assign::Divide)),
        b'%' => Some(assigns(Assign::Remainder)),
        b'^' => Some(assigns(Assign::Xor)),
        b'+' => Some(assigns(Assign::Plus)),
        b'-' => Some(assigns(Assign::Minus)),
        b'&' => Some(assigns(Assign::And)),
        b'|' => Some(assigns(Assign::Or)),
        b'<' => Some(Kind::Binary(Op::AtMost)),
        b'>' => Some(Kind::Binary(Op::AtLeast)),
        _ => None,
    }
}

/// The sign that a byte twice is, but for `==`.
fn doubled(byte: u8) -> Option<Kind>
    ensures { result ≡ doubled byte }
{
    match byte {
        b'+' => Some(Kind::Outside(Outside::Count(Count::Up))),
        b'-' => Some(Kind::Outside(Outside::Count(Count::Down))),
        b'&' => Some(Kind::Binary(Op::LogicalAnd)),
        b'|' => Some(Kind::Binary(Op::LogicalOr)),
        b'<' => Some(Kind::Binary(Op::ShiftLeft)),
        b'>' => Some(Kind::Binary(Op::ShiftRight)),
        _ => None,
    }
}

/// The sign that a byte twice and `=` are.
fn doubled_with_equal(byte: u8) -> Option<Kind>
    ensures { result ≡ doubled_with_equal byte }
{
    match byte {
        b'<' => Some(assigns(Assign::ShiftLeft)),
        b'>' => Some(assigns(Assign::ShiftRight)),
        _ => None,
    }
}
