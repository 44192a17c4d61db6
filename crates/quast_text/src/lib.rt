//! Quasts as text over names, as in `if N - $1 - 1 >= 0 { let #1 = floor($1 / 2) { S1 (#1) } } else { initial }`.
//! Promises exactly that text behind what was there, and that it is read in one way: over names that are told apart,
//! two quasts with one text are one.
#![tactic(auto)]

mod quast_laws;
mod writer;

pub use quast_laws::texts_are_of_one_quast;
pub use writer::put_quast;
