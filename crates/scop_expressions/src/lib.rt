//! Expressions of C within limits: the nodes in postfix order of each tree that the tokens spell, or the
//! exact first fault. The grammar is in specs/Tree and specs/Grammar, what an answer says in specs/Promises.
#![tactic(auto)]

mod laws;
mod node;
mod reader;
mod stack;
mod token;

pub use laws::{expressions_are_read, tokens_spell_one_tree};
pub use node::{Held, Last, Mode, Node};
pub use reader::{Expression, MOST_BRACKETS, MOST_OPERATORS, Reader, Stop, read, told_at};
pub use token::{Assign, Base, Count, Op, Outside, Sign, Suffix, Token, Width};
