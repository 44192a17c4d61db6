//! The elimination of a variable from a system of affine constraints, exact over fractions: by an equality where one
//! has the variable, else by pairs of rows (Fourier 1826; Motzkin 1936); and of several, one after another, for the
//! projections of a set and the range of one dimension. Also a system with the same points and fewer rows, by its
//! equalities.
#![tactic(auto)]

mod alone;
mod columns;
mod condensing;
mod elimination;
mod projecting;
mod projection_laws;
mod rows;
mod stop;
mod tightest;

pub use alone::{last_alone, place_form};
pub use columns::{narrow_form, without_column};
pub use condensing::condensed;
pub use elimination::{MOST_PAIRS, eliminate};
pub use projecting::without;
pub use projection_laws::{
    condensed_systems_have_the_same_points, eliminations_are_exact_one_after_another,
    eliminations_keep_the_points,
};
pub use stop::FmStop;
