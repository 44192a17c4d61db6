//! The command that words ask for.

ghost use Rattle.std.specs.Prelude.{◌≡◌, [], IfOk, IsErrOf, map, string_bytes};
ghost use Rattle.clap.specs.Words.{fault_of, subcommand_of, subcommand_rows_of};
ghost use Rattle.command_line.specs.Command.{HasSize, IsTaken, command_of};
ghost use Rattle.command_line.specs.Stated.{tool};

use crate::command::{Command, CommandStop};
use crate::laws::numbers_of_taken_words_are_in_range;
use crate::matched::command_met;
use crate::stated::stated;
use clap::ArgMatches;
use clap::error::ErrorKind;
use std::alloc::Global;

/// What the stated command finds in words, the program's name first.
///
/// # Errors
/// `Usage` only where it does not take the words; `NoMemory`.
fn matches_of<'a>(alloc: Global, words: &'a [String]) -> Result<ArgMatches<'a>, CommandStop>
    ensures faultless { IfOk result (λ _. fault_of tool (map string_bytes words.now) ≡ []) }
    ensures command { IfOk result (λ matches. subcommand_rows_of matches
        ≡ subcommand_of tool (map string_bytes words.now)) }
    ensures usage { IsErrOf result CommandStop.Usage → fault_of tool (map string_bytes words.now) ≡ [] → ⊥ }
{
    let tool: clap::Command<'a> = match stated(alloc) {
        Ok(tool) => tool,
        Err(_) => return Err(CommandStop::NoMemory),
    };
    match tool.try_get_matches_from(words) {
        Ok(matches) => Ok(matches),
        Err(error) => match error.kind() {
            ErrorKind::OutOfMemory => Err(CommandStop::NoMemory),
            _ => Err(CommandStop::Usage),
        },
    }
}

/// The command that words ask for, the program's name first.
///
/// # Errors
/// `Usage` only where the words are not taken; `NoMemory`.
pub fn command_of<'a>(alloc: Global, words: &'a [String]) -> Result<Command, CommandStop>
    ensures taken { IfOk result (λ _. IsTaken (map string_bytes words.now)) }
    ensures command { IfOk result (λ c. c ≡ command_of (map string_bytes words.now)) }
    ensures size { IfOk result HasSize }
    ensures usage { IsErrOf result CommandStop.Usage → IsTaken (map string_bytes words.now) → ⊥ }
{
    numbers_of_taken_words_are_in_range();
    let matches = match matches_of(alloc, words) {
        Ok(matches) => matches,
        Err(stop) => return Err(stop),
    };
    match command_met(&matches) {
        Some(command) => Ok(command),
        None => Err(CommandStop::Usage),
    }
}
