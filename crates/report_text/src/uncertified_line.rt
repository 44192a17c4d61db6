//! The line that tells which goal of a schedule has no derivation.

ghost use Rattle.std.specs.Prelude.{◌≡◌, IfOk};
ghost use Rattle.report_text.specs.UncertifiedText.{uncertified_text};

use crate::pieces::{Piece, push_pieces};
use std::alloc::{AllocError, Global};

/// `uncertified: G` and a line feed.
///
/// # Errors
/// `AllocError` alone.
pub fn uncertified_text(alloc: Global, goal: u64) -> Result<Vec<u8>, AllocError>
    ensures { IfOk result (λ text. text.items ≡ uncertified_text goal) }
{
    let mut text = Vec::new(alloc);
    push_pieces(
        &mut text,
        &[
            Piece::Text(b"uncertified: "),
            Piece::Number(goal as u128),
            Piece::Text(b"\n"),
        ],
    )?;
    Ok(text)
}
