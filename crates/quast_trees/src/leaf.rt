//! What a quast answers at a point.

use crate::node::Source;

/// The initial value, or the values of a leaf's forms, with what the leaf is an instance of, where that is
/// known.
#[derive(Drop)]
pub enum Leaf {
    Initial,
    Found {
        source: Option<Source>,
        values: Vec<i128>,
    },
}
