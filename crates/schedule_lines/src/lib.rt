//! The lines of a schedule's items over plain numbers, as specs/Lines.antt prints them, and their readers.
//! Promises that what is read is exactly what specs/Reading.antt says, numbers beyond 128 bits as 2^128 - 1, and that the
//! lines that are read are the printed ones (`laws`).
#![tactic(auto)]

mod laws;
mod numerals;
mod parts;
mod rows;
mod scalars;

pub use laws::{rows_are_read_where_they_are_printed, scalars_are_read_where_they_are_printed};
pub use numerals::{Read, push_number, read_numeral};
pub use parts::PartLine;
pub use rows::{RowLine, read_row};
pub use scalars::{ScalarLine, read_scalar};
