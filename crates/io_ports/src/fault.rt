//! The error of a port: a read, a write or a flush that did nothing.

use thiserror::Error;

/// A call on a source or a sink failed, and its count of faults rose.
#[derive(Clone, Copy, Debug, Error)]
#[error("the stream failed")]
pub struct Failed;
