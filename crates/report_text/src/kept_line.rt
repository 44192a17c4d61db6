//! The line that tells why the order of a kernel is kept.

ghost use Rattle.std.specs.Prelude.{◌≡◌, ◌++◌, IfOk, OnOk};
ghost use Rattle.report_text.specs.KeptText.{kept_text};

use crate::pieces::{Piece, push_pieces};
use form_text::put_bytes;
use std::alloc::{AllocError, Global};

/// Why the order of a kernel is kept.
#[derive(Clone, Copy)]
pub enum KeptLine {
    /// A number does not fit 128 bits.
    Wide,
    /// A question has made these moves, which are all that it may make.
    Spent(u64),
    /// An elimination has so many pairs of rows, which are too many.
    Crowded(u128),
    /// A row has a number that is too large.
    Large,
    /// There is no row, and nothing to cut.
    NoRow,
    /// Two statements that depend on each other are left at the end.
    NoOrder,
}

/// Appends the line.
fn push_kept(out: &mut Vec<u8>, line: KeptLine) -> Result<(), AllocError>
    ensures { OnOk result (out.new.items ≡ out.old.items ++ kept_text line) }
{
    match line {
        KeptLine::Wide => put_bytes(out, b"kept: wide\n"),
        KeptLine::Spent(moves) => push_pieces(
            out,
            &[
                Piece::Text(b"kept: spent "),
                Piece::Number(moves as u128),
                Piece::Text(b"\n"),
            ],
        ),
        KeptLine::Crowded(pairs) => push_pieces(
            out,
            &[
                Piece::Text(b"kept: crowded "),
                Piece::Number(pairs),
                Piece::Text(b"\n"),
            ],
        ),
        KeptLine::Large => put_bytes(out, b"kept: large\n"),
        KeptLine::NoRow => put_bytes(out, b"kept: no row\n"),
        KeptLine::NoOrder => put_bytes(out, b"kept: no order\n"),
    }
}

/// `kept: ` and why, and a line feed.
///
/// # Errors
/// `AllocError` alone.
pub fn kept_text(alloc: Global, line: KeptLine) -> Result<Vec<u8>, AllocError>
    ensures { IfOk result (λ text. text.items ≡ kept_text line) }
{
    let mut text = Vec::new(alloc);
    match push_kept(&mut text, line) {
        Err(_) => Err(AllocError),
        Ok(()) => Ok(text),
    }
}
