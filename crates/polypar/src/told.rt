//! What a command tells: lines, which go to the error stream first, and a text, which goes to the output.

ghost use Rattle.std.specs.Prelude.{◌≡◌};
ghost use Rattle.polypar.specs.Told.{told_of, text_alone};

use std::alloc::Global;

/// Lines and a text. Contracts see the plain data of specs/Told.antt.
#[derive(Drop)]
pub(crate) struct Told {
    pub(crate) lines: Vec<u8>,
    pub(crate) text: Vec<u8>,
}

impl Told {
    /// A text, and no lines.
    pub(crate) fn text_alone(alloc: Global, text: Vec<u8>) -> Told
        ensures { told_of result ≡ text_alone text.items }
    {
        Told {
            lines: Vec::new(alloc),
            text,
        }
    }
}
