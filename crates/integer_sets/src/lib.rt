//! Sets of whole points: systems of affine equalities and inequalities, whether a point lies in
//! one, intersections, and the sets that a loop nest scans.
#![tactic(auto)]

mod laws;
mod scan_set;
mod system;

pub use laws::{
    least_point_is_unique, prefix_decides_the_order, tests_stop_at_the_first_wide_value,
};
pub use scan_set::ScanSet;
pub use system::System;

// Passed on: what goes with this crate's contracts.
pub use affine_forms::{Form, FormStop, INLINE, push};
