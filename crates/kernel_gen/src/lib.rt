//! Kernels that are made by a rule in place of a text, each with its case: a product of matrices, sweeps of a stencil,
//! and a chain of statements that a seed links. Promises exactly the stated program, parameters and contents, within
//! the limits of the language, and that every index lies inside, so that they may be run as they are; and the text
//! that tells how many cells such a run left, and their sum.
#![tactic(auto)]

mod cases;
mod chain;
mod kind;
mod parts;
mod product;
mod summary_text;
mod sweep;
mod totals;

pub use cases::generated;
pub use kind::Kind;
pub use summary_text::summary;
pub use totals::{cells_in, sum_of};
