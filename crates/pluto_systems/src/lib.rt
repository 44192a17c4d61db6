//! The posed set of a schedule's next row as a system of whole numbers over the columns of the objective: the bound's u
//! and w, then each statement's coefficients, innermost first, and its shift (U. Bondhugula and others, "A practical
//! automatic polyhedral parallelizer and locality optimizer", PLDI 2008). Such a row keeps and bounds each dependence
//! by Farkas's lemma (P. Feautrier, "Some efficient solutions to the affine scheduling problem, part I", 1992) and
//! grows the rank of each statement's rows. Promises that the system is exactly that of specs/Posing.antt, and that its
//! points that are not negative are exactly the posed rows.
#![tactic(auto)]

mod columns;
mod growth;
mod laws;
mod placing;
mod posing;
mod ruled;
mod vectors;

pub use laws::{
    kernel_vectors_of_rows_are_small, least_points_are_least_rows, numbers_are_rows,
    posed_systems_are_sized, posed_systems_hold_the_posed_rows,
};
pub use null_space::{Rows, kernel_vectors};
pub use posing::{posed, posed_over};
pub use ruled::Ruled;
pub use vectors::loops_in;

// Passed on: what goes with this crate's contracts.
pub use farkas::Stuck;
