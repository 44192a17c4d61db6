//! Reads what stands in front of a text: given bytes, digits, names, terms and forms.

ghost use Rattle.std.specs.Prelude.{◌≡◌, ◌≤◌, IfOk, length, map, option_map, pos};
ghost use Rattle.std.specs.List.{prefix_len};
ghost use Rattle.form_text.specs.Names.{is_mark, is_name_byte};
ghost use Rattle.form_text.specs.Reading.{behind_digits, behind_name, factor_in_front, minus, name_in_front, named};
ghost use Rattle.form_text.specs.Reading.{negative, next_in, number_in_front, numbered, plus, read_form, strip};
ghost use Rattle.form_text.specs.Reading.{term_in_front};
ghost use Rattle.form_text.specs.View.{factor_in, form_in, nearest, nearest_form, nearest_next, nearest_term};
ghost use Rattle.form_text.specs.View.{next_read, saturated, saturated_factor, term_in, text_in};

use scop_lexer::is_word_byte;
use std::alloc::{AllocError, Global};

/// A number, a name (none: the number is a constant), and what stands behind.
#[derive(Clone, Copy)]
struct Factor<'a> {
    number: u128,
    name: &'a [u8],
    rest: &'a [u8],
}

/// The same with a sign.
#[derive(Clone, Copy)]
struct Term<'a> {
    coefficient: i128,
    name: &'a [u8],
    rest: &'a [u8],
}

/// What stands behind given bytes.
pub fn strip<'a>(text: &'a [u8], front: &[u8]) -> Option<&'a [u8]>
    ensures { text_in result ≡ strip front.now text.now }
{
    text.strip_prefix(front)
}

/// The number that the digits in front write, 2^128 - 1 where it is more, and what stands behind them.
pub fn read_number<'a>(text: &'a [u8]) -> (u128, &'a [u8])
    ensures number { result.0 ≡ saturated (number_in_front 0 text.now) }
    ensures behind { result.1.now ≡ behind_digits text.now }
{
    let mut number: u128 = 0;
    let mut rest = text;
    while let Some((first, others)) = rest.split_first() {
        if !first.is_ascii_digit() {
            return (number, rest);
        }
        number = number
            .saturating_mul(10)
            .saturating_add(u128::from(*first - b'0'));
        rest = others;
    }
    (number, rest)
}

/// Whether the byte is `#` or `$`.
fn is_mark(byte: u8) -> bool
    ensures { result ≡ is_mark byte }
{
    byte == b'#' || byte == b'$'
}

/// Whether names are made of the byte.
fn is_name_byte(byte: u8) -> bool
    ensures { result ≡ is_name_byte byte }
{
    is_word_byte(byte) || is_mark(byte)
}

/// How many bytes of names the text begins with.
fn name_len(text: &[u8]) -> usize
    ensures value { result ≡ prefix_len is_name_byte text.now }
    ensures within { result ≤ length text.now }
{
    text.iter().take_while(|byte| is_name_byte(**byte)).count()
}

/// The longest run of bytes of names, and what stands behind it.
#[tactic(auto, using(crate::proofs::StrippedFronts::stripping))]
fn name<'a>(text: &'a [u8]) -> (&'a [u8], &'a [u8])
    ensures name { result.0.now ≡ name_in_front text.now }
    ensures behind { result.1.now ≡ behind_name text.now }
{
    text.split_at(name_len(text))
}

/// A number times the name in front, unless it is called.
#[tactic(auto, using(crate::proofs::StrippedFronts::naming))]
fn named<'a>(number: u128, text: &'a [u8]) -> Option<Factor<'a>>
    ensures { factor_in result ≡ named number text.now }
{
    let (name, rest) = name(text);
    if name.is_empty() {
        return None;
    }
    if let Some(first) = rest.first() {
        if *first == b'(' {
            return None;
        }
    }
    Some(Factor { number, name, rest })
}

/// A number times a name where `*` stands behind it.
fn numbered<'a>(number: u128, text: &'a [u8]) -> Option<Factor<'a>>
    ensures { factor_in result ≡ numbered number text.now }
{
    if let Some((first, others)) = text.split_first() {
        if *first == b'*' {
            return named(number, others);
        }
    }
    Some(Factor {
        number,
        name: &[],
        rest: text,
    })
}

/// A number, a number times a name, or a name.
#[tactic(auto, using(crate::proofs::StrippedFronts::saturating))]
fn read_factor<'a>(text: &'a [u8]) -> Option<Factor<'a>>
    ensures { factor_in result ≡ saturated_factor (factor_in_front text.now) }
{
    let Some(first) = text.first() else {
        return None;
    };
    if first.is_ascii_digit() {
        let (number, rest) = read_number(text);
        return numbered(number, rest);
    }
    named(1, text)
}

/// A number, the greatest of 128 bits where it is more.
fn positive(number: u128) -> i128
    ensures { result ≡ nearest (pos number) }
{
    match i128::try_from(number) {
        Ok(same) => same,
        Err(_) => i128::MAX,
    }
}

/// The negative of a number, the least of 128 bits where it is less.
fn negative(number: u128) -> i128
    ensures { result ≡ nearest (negative number) }
{
    match 0i128.checked_sub_unsigned(number) {
        Some(same) => same,
        None => i128::MIN,
    }
}

/// The positive term in front.
#[tactic(auto, using(crate::proofs::StrippedFronts::saturating))]
fn read_plus<'a>(text: &'a [u8]) -> Option<Term<'a>>
    ensures { term_in result ≡ option_map nearest_term (option_map plus (factor_in_front text.now)) }
{
    match read_factor(text) {
        Some(factor) => Some(Term {
            coefficient: positive(factor.number),
            name: factor.name,
            rest: factor.rest,
        }),
        None => None,
    }
}

/// The negative term in front, behind its sign.
#[tactic(auto, using(crate::proofs::StrippedFronts::saturating))]
fn read_minus<'a>(text: &'a [u8]) -> Option<Term<'a>>
    ensures { term_in result ≡ option_map nearest_term (option_map minus (factor_in_front text.now)) }
{
    match read_factor(text) {
        Some(factor) => Some(Term {
            coefficient: negative(factor.number),
            name: factor.name,
            rest: factor.rest,
        }),
        None => None,
    }
}

/// The term that stands in front, or behind other terms.
#[tactic(auto, unfolding(crate::specs::Reading::term_in_front))]
fn read_term<'a>(front: bool, text: &'a [u8]) -> Option<Term<'a>>
    ensures { term_in result ≡ option_map nearest_term (term_in_front front text.now) }
{
    if front {
        return match strip(text, b"-") {
            Some(behind) => read_minus(behind),
            None => read_plus(text),
        };
    }
    if let Some(behind) = strip(text, b" + ") {
        return read_plus(behind);
    }
    match strip(text, b" - ") {
        Some(behind) => read_minus(behind),
        None => None,
    }
}

/// What is read for a name: its coefficient, whether no term was read yet, and what stands behind.
#[derive(Clone, Copy)]
struct Next<'a> {
    coefficient: i128,
    front: bool,
    rest: &'a [u8],
}

/// The coefficient of the term in front, if it has this name, or 0.
#[tactic(auto, using(crate::proofs::StrippedFronts::nearing))]
fn read_next<'a>(front: bool, name: &[u8], text: &'a [u8]) -> Next<'a>
    ensures { next_read result ≡ nearest_next (next_in front name.now text.now (term_in_front front text.now)) }
{
    match read_term(front, text) {
        Some(term) => {
            if term.name == name {
                Next {
                    coefficient: term.coefficient,
                    front: false,
                    rest: term.rest,
                }
            } else {
                Next {
                    coefficient: 0,
                    front,
                    rest: text,
                }
            }
        }
        None => Next {
            coefficient: 0,
            front,
            rest: text,
        },
    }
}

/// Coefficients for names, a constant, and what stands behind.
pub struct FormRead<'a> {
    pub coefficients: Vec<i128>,
    pub constant: i128,
    pub rest: &'a [u8],
}

/// The form over these names that stands in front of a text, and what stands behind it; each of its numbers is read as
/// the nearest one of 128 bits.
///
/// # Errors
/// Memory ran out.
#[tactic(auto, unfolding(crate::specs::Reading::read_form))]
pub fn read_form<'a>(
    alloc: Global,
    names: &[Vec<u8>],
    text: &'a [u8],
) -> Result<Option<FormRead<'a>>, AllocError>
    ensures { IfOk result (λ r. form_in r
        ≡ option_map nearest_form (read_form (map (λ n. n.items) names.now) text.now)) }
{
    let mut coefficients = Vec::new(alloc);
    let mut front = true;
    let mut rest = text;
    for at in 0..names.len() {
        let next = read_next(front, &names[at], rest);
        match coefficients.push(next.coefficient) {
            Ok(()) => {}
            Err(_) => return Err(AllocError),
        }
        front = next.front;
        rest = next.rest;
    }
    let last = read_next(front, b"", rest);
    if last.front {
        return Ok(None);
    }
    Ok(Some(FormRead {
        coefficients,
        constant: last.coefficient,
        rest: last.rest,
    }))
}
