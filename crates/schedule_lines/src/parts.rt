//! The statements' parts of a row.
ghost use Rattle.std.specs.Prelude.{◌≡◌, ◌++◌, ◌∷◌, [], IfOk, OnOk, map};
ghost use Rattle.form_text.specs.View.{text_in};
ghost use Rattle.schedule_lines.specs.Reading.{behind_label, part_in, parts_in, shifted};
ghost use Rattle.schedule_lines.specs.View.{part_view, read_in};

use crate::numerals::{Read, before, behind_number, read_list, read_numeral};
use form_text::strip;
use std::alloc::{AllocError, Global};

/// A coefficient for each loop, the outermost first, and a shift.
#[derive(Drop)]
pub struct PartLine {
    pub coefficients: Vec<u128>,
    pub shift: u128,
}

/// What stands behind a statement's name.
pub(crate) fn behind_label<'a>(at: usize, text: &'a [u8]) -> Option<&'a [u8]>
    ensures { text_in result ≡ behind_label at text.now }
{
    let Some(label) = strip(text, before(at, b", ")) else {
        return None;
    };
    let Some(number) = strip(label, b"S") else {
        return None;
    };
    let Some(behind) = behind_number(at, number) else {
        return None;
    };
    strip(behind, b" ")
}

/// The shift behind coefficients, if these are so many.
fn shifted<'a>(loops: usize, list: Read<'a, Vec<u128>>) -> Option<Read<'a, PartLine>>
    ensures { read_in part_view result ≡ shifted loops (list.entry.found.items, list.entry.rest.now) }
{
    if list.found.len() != loops {
        return None;
    }
    let Some(behind) = strip(list.rest, b" + ") else {
        return None;
    };
    let Some(shift) = read_numeral(behind) else {
        return None;
    };
    Some(Read {
        found: PartLine {
            coefficients: list.found,
            shift: shift.found,
        },
        rest: shift.rest,
    })
}

/// A statement's part, over so many loops.
fn read_part<'a>(
    alloc: Global,
    at: usize,
    loops: usize,
    text: &'a [u8],
) -> Result<Option<Read<'a, PartLine>>, AllocError>
    ensures { IfOk result (λ r. read_in part_view r ≡ part_in at loops text.now) }
{
    match behind_label(at, text) {
        None => Ok(None),
        Some(behind) => match read_list(alloc, behind) {
            Err(_) => Err(AllocError),
            Ok(None) => Ok(None),
            Ok(Some(list)) => Ok(shifted(loops, list)),
        },
    }
}

/// Appends a part.
fn push_part(parts: &mut Vec<PartLine>, part: PartLine) -> Result<(), AllocError>
    ensures { OnOk result (parts.new.items ≡ parts.old.items ++ part ∷ []) }
{
    match parts.push(part) {
        Ok(()) => Ok(()),
        Err(_) => Err(AllocError),
    }
}

/// A part for each statement, by their loops.
#[tactic(auto, using(crate::proofs::ReadLists::reading_parts))]
pub(crate) fn read_parts<'a>(
    alloc: Global,
    loops: &[usize],
    text: &'a [u8],
) -> Result<Option<Read<'a, Vec<PartLine>>>, AllocError>
    ensures { IfOk result (λ r. read_in (λ v. map part_view v.items) r ≡ parts_in 0 loops.now text.now) }
{
    let mut found = Vec::new(alloc);
    let mut rest = text;
    for at in 0..loops.len() {
        match read_part(alloc, at, loops[at], rest) {
            Err(_) => return Err(AllocError),
            Ok(None) => return Ok(None),
            Ok(Some(part)) => {
                rest = part.rest;
                match push_part(&mut found, part.found) {
                    Err(_) => return Err(AllocError),
                    Ok(()) => {}
                }
            }
        }
    }
    Ok(Some(Read { found, rest }))
}
