//! The line of a scalar item.
ghost use Rattle.std.specs.Prelude.{◌≡◌, IfOk, option_map};
ghost use Rattle.schedule_lines.specs.Reading.{scalar_in, scalar_of, value_in, values_in, whole};
ghost use Rattle.schedule_lines.specs.View.{number_read, read_in, scalar_view};

use crate::numerals::{Read, push_number, read_numeral};
use crate::parts::behind_label;
use form_text::strip;
use std::alloc::{AllocError, Global};

/// A scalar item: its number, and a number for each statement.
#[derive(Drop)]
pub struct ScalarLine {
    pub number: u128,
    pub values: Vec<u128>,
}

/// A statement's number.
fn read_value<'a>(at: usize, text: &'a [u8]) -> Option<Read<'a, u128>>
    ensures { number_read result ≡ value_in at text.now }
{
    match behind_label(at, text) {
        None => None,
        Some(behind) => read_numeral(behind),
    }
}

/// A number for each of so many statements.
#[tactic(auto, using(crate::proofs::ReadLists::reading_values))]
fn read_values<'a>(
    alloc: Global,
    statements: usize,
    text: &'a [u8],
) -> Result<Option<Read<'a, Vec<u128>>>, AllocError>
    ensures { IfOk result (λ r. read_in (λ v. v.items) r ≡ values_in 0 statements text.now) }
{
    let mut found = Vec::new(alloc);
    let mut rest = text;
    for at in 0..statements {
        match read_value(at, rest) {
            None => return Ok(None),
            Some(value) => {
                match push_number(&mut found, value.found) {
                    Err(_) => return Err(AllocError),
                    Ok(()) => {}
                }
                rest = value.rest;
            }
        }
    }
    Ok(Some(Read { found, rest }))
}

/// The item of these, if nothing stands behind them.
fn joined<'a>(number: u128, values: Read<'a, Vec<u128>>) -> Option<ScalarLine>
    ensures { option_map scalar_view result ≡ whole (scalar_of number values.entry.found.items) values.entry.rest.now }
{
    if !values.rest.is_empty() {
        return None;
    }
    Some(ScalarLine {
        number,
        values: values.found,
    })
}

/// The scalar item of so many statements that the line says, if it says one.
///
/// # Errors
/// Memory ran out.
pub fn read_scalar(
    alloc: Global,
    statements: usize,
    line: &[u8],
) -> Result<Option<ScalarLine>, AllocError>
    ensures { IfOk result (λ r. option_map scalar_view r ≡ scalar_in statements line.now) }
{
    let Some(behind) = strip(line, b"scalar ") else {
        return Ok(None);
    };
    let Some(number) = read_numeral(behind) else {
        return Ok(None);
    };
    let Some(rest) = strip(number.rest, b": ") else {
        return Ok(None);
    };
    match read_values(alloc, statements, rest) {
        Err(_) => Err(AllocError),
        Ok(None) => Ok(None),
        Ok(Some(values)) => Ok(joined(number.found, values)),
    }
}
