//! The line that tells how many tiles and waves a plan has.

ghost use Rattle.std.specs.Prelude.{◌≡◌, IfOk};
ghost use Rattle.report_text.specs.TilesText.{tiles_text};

use crate::pieces::{Piece, push_pieces};
use std::alloc::{AllocError, Global};

/// `tiles T waves W workers K` and a line feed: how many tiles hold an instance, how many waves hold such a tile, and how
/// many workers there are.
///
/// # Errors
/// `AllocError` alone.
pub fn tiles_text(
    alloc: Global,
    tiles: u64,
    waves: u64,
    workers: u64,
) -> Result<Vec<u8>, AllocError>
    ensures { IfOk result (λ text. text.items ≡ tiles_text tiles waves workers) }
{
    let mut text = Vec::new(alloc);
    push_pieces(
        &mut text,
        &[
            Piece::Text(b"tiles "),
            Piece::Number(tiles as u128),
            Piece::Text(b" waves "),
            Piece::Number(waves as u128),
            Piece::Text(b" workers "),
            Piece::Number(workers as u128),
            Piece::Text(b"\n"),
        ],
    )?;
    Ok(text)
}
