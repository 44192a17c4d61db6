//! Affine forms as text: the terms that are not zero, in the order of their variables' names, then the constant, as in
//! `N - 2*i + 1`; `0` if there is none. Promises exactly that text behind what was there, and that it is read in one
//! way: over names that are told apart, two forms with one text are one.
#![tactic(auto)]

mod form_laws;
mod form_reader;
mod form_writer;

pub use form_laws::{forms_are_read_back, forms_end_before, texts_are_of_one_form};
pub use form_reader::{FormRead, read_form, read_number, strip};
pub use form_writer::{put_bytes, put_constant, put_form, put_numeral, put_term};
