//! The tokens of a kernel's text (C17 6.4): names, keywords, constants and signs, each the longest that
//! stands there, with blanks, comments and directive lines between them; or the text's first fault.
#![tactic(auto)]

mod bytes;
mod constants;
mod gaps;
mod laws;
mod lexer;
mod places;
mod signs;
mod stand;
mod stands;
mod token;
mod words;

pub use bytes::{blank_len, is_blank, is_word_byte};
pub use laws::{
    first_fault_is_unique, longest_sign_is_told, names_stand_by_themselves,
    text_has_tokens_or_a_fault, tokens_are_unique, tokens_exclude_a_fault,
};
pub use lexer::{next_token, starts, token_at, tokens};
pub use places::{Place, position};
pub use token::{Fault, FaultKind, Kind, Stop, Token};
