//! Why a call on forms stops.

use thiserror::Error;
use wide_math::Wide;

/// Why a call on forms stops.
#[derive(Clone, Copy, Debug, PartialEq, Eq, Error)]
pub enum FormStop {
    /// The first number on the way, in the order that the call states, that does not fit 128 bits.
    #[error("{0}")]
    Wide(Wide),
    /// There is no memory for the result.
    #[error("out of memory")]
    NoMemory,
}
