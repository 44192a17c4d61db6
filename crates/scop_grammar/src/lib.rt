//! The text of a kernel as a list of parts: what each sign between expressions is, and each expression's nodes in
//! postfix order, of each tree that the tokens spell, or the exact first fault. The grammar is in specs/Kernel,
//! what an answer says in specs/Promises.
#![tactic(auto)]

mod laws;
mod part;
mod reader;
mod table;

pub use laws::{
    answers_tell_the_grammar, kernels_are_read, pieces_are_added_behind, tokens_spell_one_kernel,
};
pub use part::{Mark, Part};
pub use reader::{KernelReader, Text, read};
