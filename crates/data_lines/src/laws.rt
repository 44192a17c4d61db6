//! What lines say, each by itself, as contracts of functions that do nothing.

ghost use Rattle.std.specs.Prelude.{◌≡◌, ℕ, List, Ok, Err};
ghost use Rattle.scop_lexer.specs.Bytes.{Text};
ghost use Rattle.scop_syntax.specs.Tree.{Program};
ghost use Rattle.data_lines.specs.declared.refusal.DataRefusal.{DataRefusal};
ghost use Rattle.data_lines.specs.Sheets.{Sheet};
ghost use Rattle.data_lines.specs.Entries.{sheet_said};
ghost use Rattle.data_lines.specs.Naming.{AreInOrder, AreLines, AreSound, Breaks, Holds, IsFirstBroken, SaysCells};
ghost use Rattle.data_lines.specs.Naming.{SaysSeed, SaysValue, line_of};

/// The sheet of a text holds exactly what its lines say, and these break no rule; where there is none, the rule that is
/// told is the first that a line breaks.
pub fn sheets_hold_what_lines_say()
    ensures holds { (program : Program) (text : Text) (sheet : Sheet) → sheet_said program text ≡ Ok sheet
        → Holds program (line_of text) sheet }
    ensures order { (program : Program) (text : Text) (sheet : Sheet) → sheet_said program text ≡ Ok sheet
        → AreInOrder program (line_of text) }
    ensures breaks { (program : Program) (text : Text) (refusal : DataRefusal)
        → sheet_said program text ≡ Err refusal → IsFirstBroken program (line_of text) refusal }
{}

/// Lines of which no two name the same say one value of a parameter, and one list or one seed of an array.
pub fn lines_say_one_thing()
    ensures value { (program : Program) (lines : ℕ → Text) (i v w : ℕ) → AreLines program lines
        → SaysValue program i v lines → SaysValue program i w lines → v ≡ w }
    ensures cells { (program : Program) (lines : ℕ → Text) (j : ℕ) (cells others : List ℕ) → AreLines program lines
        → SaysCells program j cells lines → SaysCells program j others lines → cells ≡ others }
    ensures seed { (program : Program) (lines : ℕ → Text) (j v w : ℕ) → AreLines program lines
        → SaysSeed program j v lines → SaysSeed program j w lines → v ≡ w }
    ensures either { (program : Program) (lines : ℕ → Text) (j : ℕ) (cells : List ℕ) (seed : ℕ)
        → AreLines program lines → SaysCells program j cells lines → SaysSeed program j seed lines → ⊥ }
{}

/// Lines that are in order break no rule of lines.
pub fn sound_lines_break_no_rule()
    ensures { (program : Program) (lines : ℕ → Text) (refusal : DataRefusal) → AreSound program lines
        → Breaks program lines refusal → ⊥ }
{}
