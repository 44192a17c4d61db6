//! A part of a node.

use affine_forms::Form;

/// Rows that hold in a part of a node, of each set whether it may have points there, and of use while the node is cut
/// whether further sets cut the part, and whether one is known to have points there.
#[derive(Drop)]
pub struct Part {
    pub cuts: Vec<Form>,
    pub stays: Vec<bool>,
    pub open: bool,
    pub held: bool,
}
