//! The lines that tell how many pairs of tiles there are of which the second waits for the first, or why tiles begin by
//! waves instead.

ghost use Rattle.std.specs.Prelude.{◌≡◌, IfOk};
ghost use Rattle.report_text.specs.TilesText.{edges_text, waves_edges_text, waves_reduce_text};

use crate::pieces::{Piece, push_pieces};
use form_text::put_bytes;
use std::alloc::{AllocError, Global};

/// `edges E` and a line feed.
///
/// # Errors
/// `AllocError` alone.
pub fn edges_text(alloc: Global, edges: u64) -> Result<Vec<u8>, AllocError>
    ensures { IfOk result (λ text. text.items ≡ edges_text edges) }
{
    let mut text = Vec::new(alloc);
    push_pieces(
        &mut text,
        &[
            Piece::Text(b"edges "),
            Piece::Number(edges as u128),
            Piece::Text(b"\n"),
        ],
    )?;
    Ok(text)
}

/// `waves: edges` and a line feed.
///
/// # Errors
/// `AllocError` alone.
pub fn waves_edges_text(alloc: Global) -> Result<Vec<u8>, AllocError>
    ensures { IfOk result (λ text. text.items ≡ waves_edges_text) }
{
    let mut text = Vec::new(alloc);
    put_bytes(&mut text, b"waves: edges\n")?;
    Ok(text)
}

/// `waves: reduce` and a line feed.
///
/// # Errors
/// `AllocError` alone.
pub fn waves_reduce_text(alloc: Global) -> Result<Vec<u8>, AllocError>
    ensures { IfOk result (λ text. text.items ≡ waves_reduce_text) }
{
    let mut text = Vec::new(alloc);
    put_bytes(&mut text, b"waves: reduce\n")?;
    Ok(text)
}
