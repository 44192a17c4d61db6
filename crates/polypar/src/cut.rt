//! Cuts an input at its first line `%%` into the kernel's text and the data.

ghost use Rattle.std.specs.Prelude.{◌≡◌, ◌<◌, ◌≤◌, ◌∷◌, length, take, drop};
ghost use Rattle.polypar.specs.Cut.{whole_lines, is_cut as is_cut_line, kernel_part, data_part};

/// The two parts of an input.
#[derive(Clone, Copy)]
pub(crate) struct Parts<'a> {
    /// All before the line that cuts; the whole input where there is none.
    pub(crate) kernel: &'a [u8],
    /// All behind the line that cuts; nothing where there is none.
    pub(crate) case: &'a [u8],
}

/// The two parts of an input, in one pass over its lines.
pub(crate) fn cut(input: &[u8]) -> Parts<'_>
    ensures kernel { result.kernel.now ≡ kernel_part input.now }
    ensures case { result.case.now ≡ data_part input.now }
{
    let mut at = 0;
    while at < input.len() {
        let rest = &input[at..];
        let length = line_length(rest);
        if is_cut(&rest[..length]) {
            return Parts {
                kernel: &input[..at],
                case: &rest[length..],
            };
        }
        at += length;
    }
    Parts {
        kernel: input,
        case: &[],
    }
}

/// How many bytes the first line has, its line feed among them.
fn line_length(text: &[u8]) -> usize
    requires { 0 < length text.now }
    ensures some { 0 < result }
    ensures within { result ≤ length text.now }
    ensures first { whole_lines text.now ≡ take result text.now ∷ whole_lines (drop result text.now) }
{
    for (at, byte) in text.iter().enumerate() {
        if *byte == b'\n' {
            return at + 1;
        }
    }
    text.len()
}

/// Whether a line cuts.
fn is_cut(line: &[u8]) -> bool
    ensures { result ≡ is_cut_line line.now }
{
    line == b"%%".as_slice()
        || line == b"%%\r".as_slice()
        || line == b"%%\n".as_slice()
        || line == b"%%\r\n".as_slice()
}
