//! The lines of a schedule, one for each of its items.

ghost use Rattle.std.specs.Prelude.{◌≡◌, ◌≤◌, ◌+◌, ◌++◌, All, IfOk, OnOk, length, map};
ghost use Rattle.schedule_rows.specs.Schedule.{item_of, row_of};
ghost use Rattle.report_text.specs.ScheduleText.{mark_text, row_line, scalar_line, statement_text, statements_from};
ghost use Rattle.report_text.specs.ScheduleText.{component_text, components_from, IsTextOf};
ghost use Rattle.report_text.specs.ScheduleText.{AreNarrowNumbers, IsNarrowItem, IsNarrowRow};
ghost use Rattle.report_text.specs.steps.ScheduleLines.{entered, item_text, part_view};

use crate::pieces::{Piece, before, push_list, push_pieces};
use form_text::put_bytes;
use schedule_rows::{Band, Item, Part, Row, Schedule};
use std::alloc::{AllocError, Global};

/// Appends a statement's part of a row.
fn push_statement(out: &mut Vec<u8>, at: usize, part: &Part) -> Result<(), AllocError>
    ensures { OnOk result (out.new.items ≡ out.old.items ++ statement_text at (part_view part.now)) }
{
    push_pieces(
        out,
        &[
            Piece::Text(before(at, b", ")),
            Piece::Text(b"S"),
            Piece::Number(at as u128 + 1),
            Piece::Text(b" "),
            Piece::List(&part.coefficients),
            Piece::Text(b" + "),
            Piece::Signed(part.shift),
        ],
    )
}

/// Appends the statements' parts of a row.
fn push_statements(out: &mut Vec<u8>, parts: &[Part]) -> Result<(), AllocError>
    ensures { OnOk result (out.new.items ≡ out.old.items ++ statements_from 0 (map part_view parts.now)) }
{
    for at in 0..parts.len() {
        match push_statement(out, at, &parts[at]) {
            Err(_) => return Err(AllocError),
            Ok(()) => {}
        }
    }
    Ok(())
}

/// Whether a row is parallel or carries, in front of its `u`.
fn mark_text(parallel: bool) -> &'static [u8]
    ensures { result.now ≡ mark_text parallel }
{
    if parallel {
        return b" parallel u ";
    }
    b" carries u "
}

/// Appends the line of a row.
fn push_row(
    out: &mut Vec<u8>,
    number: usize,
    band: usize,
    parallel: bool,
    row: &Row,
) -> Result<(), AllocError>
    ensures text { OnOk result (out.new.items ≡ out.old.items ++ row_line number band parallel (row_of row.now)) }
    ensures narrow { OnOk result (IsNarrowRow (row_of row.now)) }
{
    let head = [
        Piece::Text(b"row "),
        Piece::Number(number as u128),
        Piece::Text(b" band "),
        Piece::Number(band as u128),
        Piece::Text(mark_text(parallel)),
    ];
    push_pieces(out, &head)?;
    push_list(out, &row.u)?;
    let bound = [
        Piece::Text(b" w "),
        Piece::Signed(row.w),
        Piece::Text(b": "),
    ];
    push_pieces(out, &bound)?;
    push_statements(out, &row.parts)?;
    put_bytes(out, b"\n")?;
    Ok(())
}

/// Appends a statement's number of a scalar item.
fn push_component(out: &mut Vec<u8>, at: usize, number: usize) -> Result<(), AllocError>
    ensures { OnOk result (out.new.items ≡ out.old.items ++ component_text at number) }
{
    push_pieces(
        out,
        &[
            Piece::Text(before(at, b", ")),
            Piece::Text(b"S"),
            Piece::Number(at as u128 + 1),
            Piece::Text(b" "),
            Piece::Number(number as u128),
        ],
    )
}

/// Appends the statements' numbers of a scalar item.
fn push_components(out: &mut Vec<u8>, numbers: &[usize]) -> Result<(), AllocError>
    ensures { OnOk result (out.new.items ≡ out.old.items ++ components_from 0 numbers.now) }
{
    for at in 0..numbers.len() {
        match push_component(out, at, numbers[at]) {
            Err(_) => return Err(AllocError),
            Ok(()) => {}
        }
    }
    Ok(())
}

/// Appends the line of a scalar item.
fn push_scalar(out: &mut Vec<u8>, number: usize, numbers: &[usize]) -> Result<(), AllocError>
    ensures text { OnOk result (out.new.items ≡ out.old.items ++ scalar_line number numbers.now) }
    ensures narrow { OnOk result (AreNarrowNumbers numbers.now) }
{
    let head = [
        Piece::Text(b"scalar "),
        Piece::Number(number as u128),
        Piece::Text(b": "),
    ];
    match push_pieces(out, &head) {
        Err(_) => return Err(AllocError),
        Ok(()) => {}
    }
    match push_components(out, numbers) {
        Err(_) => return Err(AllocError),
        Ok(()) => {}
    }
    match put_bytes(out, b"\n") {
        Err(_) => Err(AllocError),
        Ok(()) => Ok(()),
    }
}

/// Appends the line of an item.
fn push_item(
    out: &mut Vec<u8>,
    number: usize,
    band: usize,
    parallel: bool,
    item: &Item,
) -> Result<(), AllocError>
    ensures text { OnOk result (out.new.items ≡ out.old.items ++ item_text number band parallel (item_of item.now)) }
    ensures narrow { OnOk result (IsNarrowItem (item_of item.now)) }
{
    match item {
        Item::Row(row) => push_row(out, number, band, parallel, row),
        Item::Scalar(numbers) => push_scalar(out, number, numbers),
    }
}

/// How many bands have begun at an item, where `count` had begun before it.
fn entered(bands: &[Band], count: usize, at: usize) -> usize
    requires { count ≤ length bands.now }
    ensures count { result ≡ entered bands.now count at }
    ensures within { result ≤ length bands.now }
{
    if count < bands.len() && bands[count].first == at {
        return count + 1;
    }
    count
}

/// The text of a schedule, whose numbers are those that their types hold.
///
/// # Errors
/// `AllocError` alone.
pub fn schedule_text(alloc: Global, schedule: &Schedule) -> Result<Vec<u8>, AllocError>
    ensures text { IfOk result (λ text. IsTextOf schedule.now text.items) }
    ensures narrow { IfOk result (λ text. All IsNarrowItem schedule.now.items) }
{
    let items = schedule.items();
    let bands = schedule.bands();
    let mut text = Vec::new(alloc);
    let mut count = 0;
    for at in 0..items.len() {
        count = entered(bands, count, at);
        let parallel = schedule.is_parallel(at);
        match push_item(&mut text, at + 1, count, parallel, &items[at]) {
            Err(_) => return Err(AllocError),
            Ok(()) => {}
        }
    }
    Ok(text)
}
