//! What holds of all words: laws, as contracts of functions that do nothing.

ghost use Rattle.std.specs.Prelude.{◌≡◌, ◌≤◌, ◌⊎◌, [], ℕ, List};
ghost use Rattle.clap.specs.Words.{fault_of};
ghost use Rattle.scop_syntax.specs.Members.{In};
ghost use Rattle.command_line.specs.Command.{HasSize, IsTaken, NamesCommand, NamesNoKind, NamesNoSync, budget_of};
ghost use Rattle.command_line.specs.Command.{command_names, command_of};
ghost use Rattle.command_line.specs.Stated.{most_moves, tool};

/// Words that are taken name one of the stated command's commands.
pub fn taken_words_name_a_command()
    ensures { (words : List (List ℕ)) → IsTaken words
        → (name : List ℕ) × In name command_names × NamesCommand name words }
{}

/// Words that the stated command takes are taken, unless they are `gen` with a kind that is none, or `run` with
/// another text behind `--sync` than `waves` and `tiles`.
pub fn other_names_alone_are_not_taken()
    ensures { (words : List (List ℕ)) → fault_of tool words ≡ []
        → IsTaken words ⊎ (NamesNoKind words ⊎ NamesNoSync words) }
{}

/// The numbers of words that are taken lie in their ranges.
pub fn numbers_of_taken_words_are_in_range()
    ensures size { (words : List (List ℕ)) → IsTaken words → HasSize (command_of words) }
    ensures least_budget { (words : List (List ℕ)) → IsTaken words → 1 ≤ budget_of (command_of words) }
    ensures most_budget { (words : List (List ℕ)) → IsTaken words → budget_of (command_of words) ≤ most_moves }
{}
