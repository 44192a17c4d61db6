//! The pieces of a line that is made in memory, one behind another.

ghost use Rattle.std.specs.Prelude.{◌≡◌, ◌++◌, OnOk, codes};
ghost use Rattle.std.specs.Fmt.{signed_decimal};
ghost use Rattle.report_text.specs.steps.Pieces.{piece_text, pieces_text};
ghost use Rattle.report_text.specs.ScheduleText.{before, numbers_from, list_text, AreNarrow};

use form_text::put_bytes;
use itoa::Buffer;
use std::alloc::AllocError;

/// A piece of a line: a text, a number, or numbers in parentheses.
#[derive(Clone, Copy)]
pub(crate) enum Piece<'a> {
    Text(&'a [u8]),
    Number(u128),
    Signed(i128),
    List(&'a [i128]),
}

/// What stands in front of the entry at a place: nothing in front of the first, else the text between two.
pub(crate) fn before(at: usize, between: &[u8]) -> &[u8]
    ensures { result.now ≡ before at between.now }
{
    if at == 0 {
        return &[];
    }
    between
}

/// Appends a number of a list, and what stands in front of it.
fn push_entry(out: &mut Vec<u8>, at: usize, number: i128) -> Result<(), AllocError>
    ensures { OnOk result (out.new.items ≡ out.old.items ++ (before at (codes " ") ++ signed_decimal number)) }
{
    match put_bytes(out, before(at, b" ")) {
        Err(_) => return Err(AllocError),
        Ok(()) => {}
    }
    match put_bytes(out, Buffer::new().format(number).as_bytes()) {
        Err(_) => Err(AllocError),
        Ok(()) => Ok(()),
    }
}

/// Appends numbers, a space between.
fn push_numbers(out: &mut Vec<u8>, numbers: &[i128]) -> Result<(), AllocError>
    ensures text { OnOk result (out.new.items ≡ out.old.items ++ numbers_from 0 numbers.now) }
    ensures narrow { OnOk result (AreNarrow numbers.now) }
{
    for at in 0..numbers.len() {
        match push_entry(out, at, numbers[at]) {
            Err(_) => return Err(AllocError),
            Ok(()) => {}
        }
    }
    Ok(())
}

/// Appends numbers in parentheses.
pub(crate) fn push_list(out: &mut Vec<u8>, numbers: &[i128]) -> Result<(), AllocError>
    ensures text { OnOk result (out.new.items ≡ out.old.items ++ list_text numbers.now) }
    ensures narrow { OnOk result (AreNarrow numbers.now) }
{
    match put_bytes(out, b"(") {
        Err(_) => return Err(AllocError),
        Ok(()) => {}
    }
    match push_numbers(out, numbers) {
        Err(_) => return Err(AllocError),
        Ok(()) => {}
    }
    match put_bytes(out, b")") {
        Err(_) => Err(AllocError),
        Ok(()) => Ok(()),
    }
}

/// Appends a piece.
fn push_piece(out: &mut Vec<u8>, piece: Piece) -> Result<(), AllocError>
    ensures { OnOk result (out.new.items ≡ out.old.items ++ piece_text piece.entry) }
{
    match piece {
        Piece::Text(text) => put_bytes(out, text),
        Piece::Number(number) => put_bytes(out, Buffer::new().format(number).as_bytes()),
        Piece::Signed(number) => put_bytes(out, Buffer::new().format(number).as_bytes()),
        Piece::List(numbers) => push_list(out, numbers),
    }
}

/// Appends some pieces.
pub(crate) fn push_pieces(out: &mut Vec<u8>, pieces: &[Piece]) -> Result<(), AllocError>
    ensures { OnOk result (out.new.items ≡ out.old.items ++ pieces_text pieces.now) }
{
    for piece in pieces {
        match push_piece(out, *piece) {
            Err(_) => return Err(AllocError),
            Ok(()) => {}
        }
    }
    Ok(())
}
