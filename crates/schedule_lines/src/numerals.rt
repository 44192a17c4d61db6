//! Numbers, and numbers in parentheses.
ghost use Rattle.std.specs.Prelude.{◌≡◌, ◌++◌, ◌∷◌, [], IfOk, OnOk, length, suc};
ghost use Rattle.form_text.specs.View.{text_in};
ghost use Rattle.schedule_lines.specs.Lines.{before};
ghost use Rattle.schedule_lines.specs.Reading.{behind_number, entry_in, list_in, numbers_in, numeral_in};
ghost use Rattle.schedule_lines.specs.View.{number_read, read_in};

use form_text::{read_number, strip};
use std::alloc::{AllocError, Global};

/// What was read, and what stands behind it.
#[derive(Drop)]
pub struct Read<'a, T> {
    pub found: T,
    pub rest: &'a [u8],
}

/// The number in front, without a zero in front of it: 2^128 - 1 where it is more.
pub fn read_numeral<'a>(text: &'a [u8]) -> Option<Read<'a, u128>>
    ensures { number_read result ≡ numeral_in text.now }
{
    let Some((first, others)) = text.split_first() else {
        return None;
    };
    if *first == b'0' {
        return Some(Read {
            found: 0,
            rest: others,
        });
    }
    if !first.is_ascii_digit() {
        return None;
    }
    let (found, rest) = read_number(text);
    Some(Read { found, rest })
}

/// What stands behind the number of the statement at this place.
#[tactic(auto, using(crate::proofs::NumeralLemmas::behind_numbers))]
pub(crate) fn behind_number<'a>(at: usize, text: &'a [u8]) -> Option<&'a [u8]>
    ensures { text_in result ≡ behind_number (suc at) text.now }
{
    match read_numeral(text) {
        None => None,
        Some(read) => {
            if read.found == at as u128 + 1 {
                Some(read.rest)
            } else {
                None
            }
        }
    }
}

/// What stands in front of the entry at a place: nothing in front of the first, else the text between two.
pub(crate) fn before(at: usize, between: &[u8]) -> &[u8]
    ensures { result.now ≡ before at between.now }
{
    if at == 0 {
        return &[];
    }
    between
}

/// A number of a list, and what stands in front of it.
fn read_entry<'a>(at: usize, text: &'a [u8]) -> Option<Read<'a, u128>>
    ensures { number_read result ≡ entry_in at text.now }
{
    match strip(text, before(at, b" ")) {
        None => None,
        Some(behind) => read_numeral(behind),
    }
}

/// Appends a number.
pub fn push_number(numbers: &mut Vec<u128>, number: u128) -> Result<(), AllocError>
    ensures { OnOk result (numbers.new.items ≡ numbers.old.items ++ number ∷ []) }
{
    match numbers.push(number) {
        Ok(()) => Ok(()),
        Err(_) => Err(AllocError),
    }
}

/// The numbers up to a closing parenthesis.
#[tactic(auto, using(crate::proofs::ReadLists::reading_numbers))]
fn read_numbers<'a>(
    alloc: Global,
    text: &'a [u8],
) -> Result<Option<Read<'a, Vec<u128>>>, AllocError>
    ensures { IfOk result (λ r. read_in (λ v. v.items) r ≡ numbers_in (length text.now) 0 text.now) }
{
    let mut found = Vec::new(alloc);
    let mut rest = text;
    for at in 0..text.len() {
        if let Some(behind) = strip(rest, b")") {
            return Ok(Some(Read {
                found,
                rest: behind,
            }));
        }
        match read_entry(at, rest) {
            None => return Ok(None),
            Some(entry) => {
                match push_number(&mut found, entry.found) {
                    Err(_) => return Err(AllocError),
                    Ok(()) => {}
                }
                rest = entry.rest;
            }
        }
    }
    Ok(None)
}

/// Numbers in parentheses.
pub(crate) fn read_list<'a>(
    alloc: Global,
    text: &'a [u8],
) -> Result<Option<Read<'a, Vec<u128>>>, AllocError>
    ensures { IfOk result (λ r. read_in (λ v. v.items) r ≡ list_in text.now) }
{
    match strip(text, b"(") {
        None => Ok(None),
        Some(behind) => read_numbers(alloc, behind),
    }
}
