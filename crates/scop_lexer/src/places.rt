//! The line and the column of a place of a text.

ghost use Rattle.std.specs.Prelude.{◌≡◌, ◌≤◌, length, take};
ghost use Rattle.scop_lexer.specs.Lines.{line_behind, column_behind};

/// Where a byte stands: lines and columns count from 1, columns in bytes.
#[derive(Clone, Copy)]
pub struct Place {
    pub line: u64,
    pub column: u64,
}

/// Where the byte at a place of a text stands, or the text's end.
pub fn position(text: &[u8], place: usize) -> Place
    requires { place ≤ length text.now }
    ensures line { result.line ≡ line_behind (take place text.now) }
    ensures column { result.column ≡ column_behind (take place text.now) }
{
    let (front, _) = text.split_at(place);
    let mut line = 1;
    let mut column = 1;
    for byte in front {
        if *byte == b'\n' {
            line += 1;
            column = 1;
        } else {
            column += 1;
        }
    }
    Place { line, column }
}
