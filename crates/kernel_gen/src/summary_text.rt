//! The text that tells what a generated case left, on three lines.

ghost use Rattle.std.specs.Prelude.{◌≡◌, IfOk};
ghost use Rattle.kernel_gen.specs.Summary.{name_of, summary_text};

use crate::kind::Kind;
use itoa::Buffer;
use std::alloc::{AllocError, Global};

/// The name of a kind.
fn name_of(kind: Kind) -> &'static [u8]
    ensures { result.now ≡ name_of kind }
{
    match kind {
        Kind::Product => b"product",
        Kind::Sweep => b"sweep",
        Kind::Chain => b"chain",
    }
}

/// What tells of a generated case which one it is, how many tiles and waves it had, how many cells its arrays have,
/// and the sum of their final values modulo 2^64.
///
/// # Errors
/// `AllocError` alone.
pub fn summary(
    alloc: Global,
    kind: Kind,
    seed: u64,
    size: u64,
    tiles: u64,
    waves: u64,
    cells: u64,
    sum: u64,
) -> Result<Vec<u8>, AllocError>
    ensures { IfOk result (λ text. text.items ≡ summary_text kind seed size tiles waves cells sum) }
{
    [
        b"gen ".as_slice(),
        name_of(kind),
        b" seed ",
        Buffer::new().format(seed).as_bytes(),
        b" size ",
        Buffer::new().format(size).as_bytes(),
        b"\ntiles ",
        Buffer::new().format(tiles).as_bytes(),
        b" waves ",
        Buffer::new().format(waves).as_bytes(),
        b"\ncells ",
        Buffer::new().format(cells).as_bytes(),
        b" sum ",
        Buffer::new().format(sum).as_bytes(),
        b"\n",
    ]
    .concat(alloc)
}
