//! Why a move that takes memory stops.

use thiserror::Error;
use wide_math::Wide;

/// Why a cut or a split stops.
#[derive(Clone, Copy, Debug, Error)]
pub enum TableauStop {
    /// A number does not fit 128 bits.
    #[error("{0}")]
    Wide(Wide),
    /// There is no memory; the tableau is as it was.
    #[error("out of memory")]
    NoMemory,
}
