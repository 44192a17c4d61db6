//! The line that tells why a run is not expanded.

ghost use Rattle.std.specs.Prelude.{◌≡◌, ◌++◌, IfOk, OnOk};
ghost use Rattle.report_text.specs.UnexpandedText.{unexpanded_text};

use crate::pieces::{Piece, push_pieces};
use form_text::put_bytes;
use std::alloc::{AllocError, Global};

/// Why a run is not expanded: its instances have no copies of their own.
#[derive(Clone, Copy)]
pub enum UnexpandedLine {
    /// A number of a read's source does not fit 128 bits.
    Wide,
    /// The problem of a candidate has made these moves, which are all that it may make.
    Spent(u64),
    /// A read's source has so many nodes, which are too many.
    Nodes(u128),
    /// There are too many instances.
    Copies,
    /// An array is added to in any order.
    Reduce,
}

/// Appends the line.
fn push_unexpanded(out: &mut Vec<u8>, line: UnexpandedLine) -> Result<(), AllocError>
    ensures { OnOk result (out.new.items ≡ out.old.items ++ unexpanded_text line) }
{
    match line {
        UnexpandedLine::Wide => put_bytes(out, b"unexpanded: wide\n"),
        UnexpandedLine::Spent(moves) => push_pieces(
            out,
            &[
                Piece::Text(b"unexpanded: spent "),
                Piece::Number(moves as u128),
                Piece::Text(b"\n"),
            ],
        ),
        UnexpandedLine::Nodes(count) => push_pieces(
            out,
            &[
                Piece::Text(b"unexpanded: nodes "),
                Piece::Number(count),
                Piece::Text(b"\n"),
            ],
        ),
        UnexpandedLine::Copies => put_bytes(out, b"unexpanded: copies\n"),
        UnexpandedLine::Reduce => put_bytes(out, b"unexpanded: reduce\n"),
    }
}

/// `unexpanded: ` and why, and a line feed.
///
/// # Errors
/// `AllocError` alone.
pub fn unexpanded_text(alloc: Global, line: UnexpandedLine) -> Result<Vec<u8>, AllocError>
    ensures { IfOk result (λ text. text.items ≡ unexpanded_text line) }
{
    let mut text = Vec::new(alloc);
    match push_unexpanded(&mut text, line) {
        Err(_) => Err(AllocError),
        Ok(()) => Ok(text),
    }
}
