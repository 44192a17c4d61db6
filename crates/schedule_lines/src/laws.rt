//! The lines that are read are the printed ones, as contracts of functions that do nothing.
ghost use Rattle.std.specs.Prelude.{◌≡◌, ℕ, List, Some, length, map};
ghost use Rattle.scop_lexer.specs.Bytes.{Text};
ghost use Rattle.schedule_lines.specs.Lines.{Row, Scalar, row_text, scalar_text};
ghost use Rattle.schedule_lines.specs.Reading.{row_in, scalar_in};
ghost use Rattle.schedule_lines.specs.Saturated.{saturated_row, saturated_scalar};

/// The line of a row is read exactly where it is a printed one; numbers beyond 128 bits are read as 2^128 - 1.
pub fn rows_are_read_where_they_are_printed()
    ensures printed { (loops : List ℕ) (r : Row) → map (λ p. length p.coefficients) r.parts ≡ loops
        → row_in loops (row_text r) ≡ Some (saturated_row r) }
    ensures read { (loops : List ℕ) (line : Text) (s : Row) → row_in loops line ≡ Some s
        → (r : Row) × (map (λ p. length p.coefficients) r.parts ≡ loops) × (line ≡ row_text r) × (s ≡ saturated_row r) }
{}

/// So is that of a scalar item.
pub fn scalars_are_read_where_they_are_printed()
    ensures printed { (s : Scalar) → scalar_in (length s.values) (scalar_text s) ≡ Some (saturated_scalar s) }
    ensures read { (n : ℕ) (line : Text) (t : Scalar) → scalar_in n line ≡ Some t
        → (s : Scalar) × (length s.values ≡ n) × (line ≡ scalar_text s) × (t ≡ saturated_scalar s) }
{}
