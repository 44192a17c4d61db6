//! The line of a row.
ghost use Rattle.std.specs.Prelude.{◌≡◌, IfOk, map, option_map};
ghost use Rattle.schedule_lines.specs.Reading.{bound_in, bounded, mark_in, place_in, row_in, row_of, whole};
ghost use Rattle.schedule_lines.specs.View.{bound_view, part_view, place_view, read_in, row_view};

use crate::numerals::{Read, read_list, read_numeral};
use crate::parts::{PartLine, read_parts};
use form_text::strip;
use std::alloc::{AllocError, Global};

/// A row: its number, its band, whether it is parallel, the bound `u.n + w` of its distances, the statements' parts.
#[derive(Drop)]
pub struct RowLine {
    pub number: u128,
    pub band: u128,
    pub parallel: bool,
    pub u: Vec<u128>,
    pub w: u128,
    pub parts: Vec<PartLine>,
}

/// The numbers of a row and its band.
#[derive(Clone, Copy)]
struct Place {
    number: u128,
    band: u128,
}

/// The mark of a row, u and w.
#[derive(Drop)]
struct Bound {
    parallel: bool,
    u: Vec<u128>,
    w: u128,
}

/// The numbers of a row and its band.
fn read_place<'a>(text: &'a [u8]) -> Option<Read<'a, Place>>
    ensures { read_in place_view result ≡ place_in text.now }
{
    let Some(behind) = strip(text, b"row ") else {
        return None;
    };
    let Some(number) = read_numeral(behind) else {
        return None;
    };
    let Some(rest) = strip(number.rest, b" band ") else {
        return None;
    };
    let Some(band) = read_numeral(rest) else {
        return None;
    };
    Some(Read {
        found: Place {
            number: number.found,
            band: band.found,
        },
        rest: band.rest,
    })
}

/// Whether a row is parallel.
fn read_mark<'a>(text: &'a [u8]) -> Option<Read<'a, bool>>
    ensures { read_in (λ b. b) result ≡ mark_in text.now }
{
    if let Some(rest) = strip(text, b" parallel u ") {
        return Some(Read { found: true, rest });
    }
    match strip(text, b" carries u ") {
        None => None,
        Some(rest) => Some(Read { found: false, rest }),
    }
}

/// The number w behind u.
fn bounded<'a>(parallel: bool, u: Read<'a, Vec<u128>>) -> Option<Read<'a, Bound>>
    ensures { read_in bound_view result ≡ bounded parallel (u.entry.found.items, u.entry.rest.now) }
{
    let Some(behind) = strip(u.rest, b" w ") else {
        return None;
    };
    let Some(w) = read_numeral(behind) else {
        return None;
    };
    let Some(rest) = strip(w.rest, b": ") else {
        return None;
    };
    Some(Read {
        found: Bound {
            parallel,
            u: u.found,
            w: w.found,
        },
        rest,
    })
}

/// The mark of a row, u and w.
fn read_bound<'a>(alloc: Global, text: &'a [u8]) -> Result<Option<Read<'a, Bound>>, AllocError>
    ensures { IfOk result (λ r. read_in bound_view r ≡ bound_in text.now) }
{
    match read_mark(text) {
        None => Ok(None),
        Some(mark) => match read_list(alloc, mark.rest) {
            Err(_) => Err(AllocError),
            Ok(None) => Ok(None),
            Ok(Some(u)) => Ok(bounded(mark.found, u)),
        },
    }
}

/// The row of these, if nothing stands behind its parts.
fn joined<'a>(place: Place, bound: Bound, parts: Read<'a, Vec<PartLine>>) -> Option<RowLine>
    ensures { option_map row_view result ≡ whole (row_of place.number place.band bound.parallel bound.u.items bound.w
        (map part_view parts.entry.found.items)) parts.entry.rest.now }
{
    if !parts.rest.is_empty() {
        return None;
    }
    Some(RowLine {
        number: place.number,
        band: place.band,
        parallel: bound.parallel,
        u: bound.u,
        w: bound.w,
        parts: parts.found,
    })
}

/// The row of statements with so many loops each that the line says, if it says one.
///
/// # Errors
/// Memory ran out.
pub fn read_row(alloc: Global, loops: &[usize], line: &[u8]) -> Result<Option<RowLine>, AllocError>
    ensures { IfOk result (λ r. option_map row_view r ≡ row_in loops.now line.now) }
{
    match read_place(line) {
        None => Ok(None),
        Some(place) => match read_bound(alloc, place.rest) {
            Err(_) => Err(AllocError),
            Ok(None) => Ok(None),
            Ok(Some(bound)) => match read_parts(alloc, loops, bound.rest) {
                Err(_) => Err(AllocError),
                Ok(None) => Ok(None),
                Ok(Some(parts)) => Ok(joined(place.found, bound.found, parts)),
            },
        },
    }
}
