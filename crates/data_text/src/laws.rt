//! Laws of what data says, as contracts of functions that do nothing.

ghost use Rattle.std.specs.Prelude.{◌≡◌, All, ◌⊎◌, ◌+◌, ◌^◌, ◌<◌, ◌++◌, ℕ, ℤ, List, Ok, Err, Some, codes, decimal};
ghost use Rattle.std.specs.Prelude.{Bool, length, map};
ghost use Rattle.std.specs.List.{join_with_byte};
ghost use Rattle.data_lines.specs.Words.{lines_of};
ghost use Rattle.scop_lexer.specs.Words.{IsName};
ghost use Rattle.data_text.specs.ArrayText.{row_text};
ghost use Rattle.data_lines.specs.Numbers.{HaveWidth, number_of};
ghost use Rattle.data_lines.specs.Sheets.{Sheet, listed, place_of};
ghost use Rattle.data_lines.specs.Entries.{row_said, with_line, with_lines, written_at};
ghost use Rattle.scop_lexer.specs.Bytes.{Text};
ghost use Rattle.scop_syntax.specs.Tree.{Program};
ghost use Rattle.data_lines.specs.declared.refusal.DataRefusal.{DataRefusal};
ghost use Rattle.data_lines.specs.Naming.{line_of};
ghost use Rattle.data_text.specs.Cases.{Says, Said, data_said};
ghost use Rattle.data_text.specs.Described.{Describes, IsFirstBroken};
ghost use Rattle.data_text.specs.Written.{IsWritable, case_text};

use data_lines::{lines_say_one_thing, sheets_hold_what_lines_say, sound_lines_break_no_rule};
use scop_syntax::cells_lie_within_22_bits;

/// A text says one case of a program, or breaks one rule first; not both, and no other.
pub fn said_once()
    ensures once { (text : Text) (program : Program) (p q : List ℤ) (a b : List (List ℕ)) → Says text program p a
        → Says text program q b → (p ≡ q) × (a ≡ b) }
    ensures excluded { (text : Text) (program : Program) (p : List ℤ) (a : List (List ℕ)) (refusal : DataRefusal)
        → Says text program p a → data_said program text ≡ Err refusal → ⊥ }
    ensures total { (text : Text) (program : Program)
        → ((said : Said) × Says text program said.params said.contents) ⊎
        ((refusal : DataRefusal) × (data_said program text ≡ Err refusal)) }
{}

/// A text says the case that its lines describe, and no other; a refusal tells the first rule that they break.
pub fn texts_say_what_lines_describe()
    ensures says { (text : Text) (program : Program) (params : List ℤ) (contents : List (List ℕ))
        → Says text program params contents → Describes program (line_of text) params contents }
    ensures described { (text : Text) (program : Program) (params : List ℤ) (contents : List (List ℕ))
        → Describes program (line_of text) params contents → Says text program params contents }
    ensures breaks { (text : Text) (program : Program) (refusal : DataRefusal)
        → data_said program text ≡ Err refusal → IsFirstBroken program (line_of text) refusal }
{
    sheets_hold_what_lines_say();
    lines_say_one_thing();
    sound_lines_break_no_rule();
}

/// The lines of a text are those that line feeds part, and they are judged in their order: a refusal stands, whatever
/// lines are behind it.
pub fn lines_are_judged_in_order()
    ensures joined { (text : Text) → join_with_byte 10 (lines_of text) ≡ text }
    ensures order { (program : Program) (k : ℕ) (sheet : Sheet) (front back : List Text)
        → with_lines program k (Ok sheet) (front ++ back)
        ≡ with_lines program (k + length front) (with_lines program k (Ok sheet) front) back }
    ensures stands { (program : Program) (k : ℕ) (sheet : Sheet) (front back : List Text) (refusal : DataRefusal)
        → with_lines program k (Ok sheet) front ≡ Err refusal
        → with_lines program k (Ok sheet) (front ++ back) ≡ Err refusal }
{}

/// A decimal is the number that it writes, and so it is with zeros in front.
pub fn decimals_are_numbers()
    ensures decimal { (n : ℕ) → n < 2 ^ 64 → number_of (decimal n) ≡ Some n }
    ensures zeros { (word : Text) → number_of (codes "0" ++ word) ≡ number_of word }
{}

/// A line that `write_arrays` writes is a data line: its numbers go into the place of its name, and are read as a list
/// of the array's cells.
pub fn array_lines_are_data_lines()
    ensures line { (program : Program) (sheet : Sheet) (line : ℕ) (name : Text) (cells : List ℕ) → IsName name
        → 0 < length cells → All (λ cell. cell < 2 ^ 64) cells → with_line program sheet line (row_text name cells)
        ≡ written_at program sheet line (place_of program name) (map decimal cells) }
    ensures cells { (narrow : Bool) (line : ℕ) (cells : List ℕ) → 0 < length cells
        → All (λ cell. cell < 2 ^ 64) cells → HaveWidth narrow cells
        → row_said narrow line (map decimal cells) ≡ Ok (listed line cells) }
{}

/// What `write_arrays` writes of a case, behind a line for each parameter, says the case again.
pub fn written_cases_are_read_back()
    ensures { (program : Program) (params : List ℤ) (contents : List (List ℕ)) → IsWritable program params contents
        → Says (case_text program params contents) program params contents }
{
    cells_lie_within_22_bits();
    texts_say_what_lines_describe();
}
