//! What the separating scanner shares with this one: outlines of sets, their hull, bounds of a loop, leaves.

pub use crate::bounds::{leaves, loop_round};
pub use crate::hull::hull;
pub use crate::numbers::{has_small_numbers, opposite};
pub use crate::outline::{Shadow, has_tighter};
pub use crate::outlined_sets::Outlines;
pub use crate::set_outline::Outline;
pub use crate::tree_of_sets::outlined;
