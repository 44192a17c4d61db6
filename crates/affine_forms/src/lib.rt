//! Affine forms over 128-bit whole numbers: sums, multiples, substitution, composition and values,
//! each exact, or the error that names the first number that 128 bits do not hold.
#![tactic(auto)]

mod form;
mod laws;
mod lists;
mod row;
mod stop;

pub use form::{Form, INLINE};
pub use laws::dot_products_stop_at_the_first_wide_number;
pub use lists::{copies, push, push_copies, push_copy, push_widened};
pub use row::{content, divide_row, map_in_place, zip_in_place};
pub use stop::FormStop;

// Passed on: what goes with this crate's contracts.
pub use wide_math::Wide;
