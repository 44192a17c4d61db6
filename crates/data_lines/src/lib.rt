//! The data of a kernel, line by line: a line gives a parameter its value, or lists the cells of an array, or says a
//! seed for them. What all lines say is a sheet with a place for each parameter and each array; or the first line that
//! breaks a rule is told, with the rule. The text is read once, and cells go straight into their vectors.
#![tactic(auto)]

mod entry;
mod head;
mod laws;
mod lines;
mod numbers;
mod places;
mod refusal;
mod sheet;
mod words;

pub use laws::{lines_say_one_thing, sheets_hold_what_lines_say, sound_lines_break_no_rule};
pub use lines::read_lines;
pub use places::is_narrow;
pub use refusal::{DataRefusal, DataStop};
pub use sheet::{Given, Sheet};
