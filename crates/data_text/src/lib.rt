//! The case of a kernel: what its parameters are, and what its arrays hold at first. `read_data` reads it from data
//! lines, or tells the first rule that they break; `case_given` makes it of what is given of each array. `write_arrays`
//! writes arrays as such lines.
#![tactic(auto)]

mod array_text;
mod case;
mod contents;
mod counts;
mod extents;
mod laws;
mod parameters;

pub use array_text::write_arrays;
pub use case::{Case, case_given, read_data};
pub use contents::seed_cell;
pub use data_lines::{DataRefusal, DataStop, Given};
pub use laws::{
    array_lines_are_data_lines, decimals_are_numbers, lines_are_judged_in_order, said_once,
    texts_say_what_lines_describe, written_cases_are_read_back,
};
