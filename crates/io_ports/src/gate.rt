//! What a worker passes on its way into a tile and out of it. It has no meaning for the result; by a
//! gate of its own a test can hold a worker.
//!
//! Part of the crate's surface; `run` does not use it.

/// Called round each tile that a worker does.
pub trait Gate: Sync {
    /// The worker is about to do the tile of this number.
    fn enter(&self, tile: u64);

    /// The worker has done the tile of this number.
    fn leave(&self, tile: u64);
}

/// A gate that never holds anyone.
#[derive(Clone, Copy)]
pub struct OpenGate;

impl Gate for OpenGate {
    fn enter(&self, _tile: u64) {}

    fn leave(&self, _tile: u64) {}
}
