//! The kinds of generated cases.

/// A product of matrices, sweeps of a stencil, or a chain of statements that a seed links.
#[derive(Clone, Copy)]
pub enum Kind {
    Product,
    Sweep,
    Chain,
}
