//! Why an elimination, or a scan, stops.

use thiserror::Error;
use wide_math::Wide;

/// Why an elimination, or a scan, stops.
#[derive(Clone, Copy, Debug, Error)]
pub enum FmStop {
    /// The first number on the way that does not fit 128 bits.
    #[error("{0}")]
    Wide(Wide),
    /// More than 4,096 pairs of rows.
    #[error("{pairs} pairs of rows")]
    Crowded { pairs: u128 },
    /// A number of a scanned tree beyond 2^40 in absolute value; an elimination alone never stops so.
    #[error("the number {number}")]
    Large { number: i128 },
    /// There is no memory for the result.
    #[error("out of memory")]
    NoMemory,
}
