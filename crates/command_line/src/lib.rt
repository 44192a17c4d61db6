//! The command line: the words that the program takes, as `clap` reads them, and the command that they name.
//!
//! Promises that a command comes exactly of words that are taken, that it is the one that they name, with its numbers
//! in their ranges, and that words which are taken are refused for want of memory alone.
#![tactic(auto)]

mod command;
mod laws;
mod matched;
mod stated;
mod taken;

pub use command::{Command, CommandStop, GeneratedKernel, KernelCommand, RunOptions, Sync};
pub use laws::{
    numbers_of_taken_words_are_in_range, other_names_alone_are_not_taken,
    taken_words_name_a_command,
};
pub use stated::MOST_MOVES;
pub use taken::command_of;
