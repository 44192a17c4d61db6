//! Callers of the laws of data: a line that is missing, lines one by one, and numbers.
ghost use Rattle.std.specs.Prelude.{◌≡◌, ◌+◌, ◌++◌, ◌<◌, ◌∷◌, ℕ, [], Bool, Err, List, Ok, Some, codes, decimal};
ghost use Rattle.scop_lexer.specs.Bytes.{Text};
ghost use Rattle.scop_lexer.specs.Words.{IsName};
ghost use Rattle.scop_syntax.specs.Tree.{Program, none as no_trees};
ghost use Rattle.data_lines.specs.Entries.{row_said, with_line, with_lines, written_at};
ghost use Rattle.data_lines.specs.Naming.{line_of};
ghost use Rattle.data_lines.specs.Numbers.{number_of};
ghost use Rattle.data_lines.specs.Sheets.{Sheet, listed, place_of};
ghost use Rattle.data_lines.specs.Words.{lines_of};
ghost use Rattle.data_lines.specs.declared.refusal.DataRefusal.{DataRefusal};
ghost use Rattle.data_lines.specs.declared.refusal.DataRefusal.TheVariants.{Missing};
ghost use Rattle.data_text.specs.ArrayText.{row_text};
ghost use Rattle.data_text.specs.Cases.{data_said};
ghost use Rattle.data_text.specs.Described.{IsFirstBroken};

use data_text::{
    array_lines_are_data_lines, decimals_are_numbers, lines_are_judged_in_order,
    texts_say_what_lines_describe,
};

/// No line names the one parameter of a kernel where there is none, and a parameter that is told is one of the kernel's,
/// by `breaks` of `texts_say_what_lines_describe`.
pub fn missing_parameters()
    ensures empty { (p : Program) → p ≡ record { name = []; parameters = codes "N" ∷ []; arrays = []; body = no_trees }
        → IsFirstBroken p (line_of []) (Missing 0) }
    ensures told { (text : Text) (program : Program) (refusal : DataRefusal) → data_said program text ≡ Err refusal
        → IsFirstBroken program (line_of text) refusal }
{
    texts_say_what_lines_describe();
}

/// A text of one line is that line, by `joined` of `lines_are_judged_in_order`; the others are judged behind the first,
/// by `order`; a refusal of the first stands, by `stands`.
pub fn first_lines_are_judged_first()
    ensures joined { (text line : Text) → lines_of text ≡ line ∷ [] → text ≡ line }
    ensures order { (program : Program) (sheet : Sheet) (line : Text) (lines : List Text)
        → with_lines program 1 (Ok sheet) (line ∷ lines)
        ≡ with_lines program 2 (with_lines program 1 (Ok sheet) (line ∷ [])) lines }
    ensures stands { (program : Program) (sheet : Sheet) (line : Text) (lines : List Text) (refusal : DataRefusal)
        → with_lines program 1 (Ok sheet) (line ∷ []) ≡ Err refusal
        → with_lines program 1 (Ok sheet) (line ∷ lines) ≡ Err refusal }
{
    lines_are_judged_in_order();
}

/// Numbers of one digit are read, by `decimal` of `decimals_are_numbers`, also with two zeros in front, by `zeros`.
pub fn small_decimals_are_numbers()
    ensures decimal { (n : ℕ) → n < 10 → number_of (decimal n) ≡ Some n }
    ensures zeros { (n : ℕ) → n < 10 → number_of (codes "0" ++ (codes "0" ++ decimal n)) ≡ Some n }
{
    decimals_are_numbers();
}

/// The line of an array of one cell is a data line, by `line` of `array_lines_are_data_lines`, whose number is its cell,
/// by `cells`.
pub fn lines_of_one_cell()
    ensures line { (program : Program) (sheet : Sheet) (line : ℕ) (name : Text) → IsName name
        → with_line program sheet line (row_text name (7 ∷ []))
        ≡ written_at program sheet line (place_of program name) (decimal 7 ∷ []) }
    ensures cells { (narrow : Bool) (line : ℕ) → row_said narrow line (decimal 7 ∷ []) ≡ Ok (listed line (7 ∷ [])) }
{
    array_lines_are_data_lines();
}
