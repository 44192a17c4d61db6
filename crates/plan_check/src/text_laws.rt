//! The lines that are read are the printed ones, as contracts of functions that do nothing.
ghost use Rattle.std.specs.Prelude.{◌≡◌, ◌++◌, ◌∷◌, ℕ, List, Some, codes};
ghost use Rattle.scop_lexer.specs.Bytes.{Text};
ghost use Rattle.plan_check.specs.Printed.{IsSaid, said_text, saturated_said};
ghost use Rattle.plan_check.specs.Text.{Said, lines_of, said_in};

use schedule_lines::{
    rows_are_read_where_they_are_printed, scalars_are_read_where_they_are_printed,
};

/// A line is read exactly where it is a printed one; numbers beyond 128 bits are read as 2^128 - 1. A printed line with a
/// line feed behind it is the first line of what stands there.
pub fn lines_are_read_where_they_are_printed()
    ensures printed { (loops : List ℕ) (s : Said) → IsSaid loops s → said_in loops (said_text s) ≡ Some (saturated_said s) }
    ensures read { (loops : List ℕ) (line : Text) (t : Said) → said_in loops line ≡ Some t
        → (s : Said) × IsSaid loops s × (line ≡ said_text s) × (t ≡ saturated_said s) }
    ensures first { (s : Said) (rest : Text) → lines_of ((said_text s ++ codes "\n") ++ rest) ≡ said_text s ∷ lines_of rest }
{
    rows_are_read_where_they_are_printed();
    scalars_are_read_where_they_are_printed();
}
