//! Kernel vectors of rows: what is orthogonal to all of them, by one vector of least whole numbers for each free column
//! of their reduced echelon form, with pivots from the outermost column (A. Schrijver, "Theory of Linear and Integer
//! Programming", 1986, sections 3.3 and 4.1). A search for linearly independent hyperplanes keeps them from row to row
//! (U. Bondhugula and others, "A practical automatic polyhedral parallelizer and locality optimizer", PLDI 2008,
//! section 4.2). Promises exactly those vectors, and that for at most 5 columns no number leaves 128 bits.
#![tactic(auto)]

mod laws;
mod sums;
mod vectors;

pub use laws::{
    full_rank_leaves_only_0, kernel_vectors_are_kept, kernel_vectors_are_narrow,
    kernel_vectors_are_those_of_the_reduced_echelon_form, kernel_vectors_span_what_is_orthogonal,
    rows_take_kernel_vectors, several_kernel_vectors_are_small,
};
pub use vectors::{Rows, kernel_vectors, narrowed_by};
