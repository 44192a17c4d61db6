//! What reading an emitted text gives: a part of the tree, and what stands behind it.

ghost use Rattle.std.specs.Prelude.{◌≡◌};
ghost use Rattle.form_text.specs.Reading.{strip};
ghost use Rattle.form_text.specs.View.{text_in};
ghost use Rattle.c_printer.specs.Nodes.{repeated};
ghost use Rattle.c_printer.specs.steps.Reading.{behind_between};

pub use affine_forms::push;
use form_text::strip;

/// A part of a tree, and what stands behind it in the text.
#[derive(Drop)]
pub struct Read<'a, T> {
    pub part: T,
    pub rest: &'a [u8],
}

/// What stands behind a text between two others.
pub fn strip_between<'a>(
    text: &'a [u8],
    front: &[u8],
    middle: &[u8],
    end: &[u8],
) -> Option<&'a [u8]>
    ensures { text_in result ≡ behind_between front.now middle.now end.now text.now }
{
    let Some(named) = strip(text, front) else {
        return None;
    };
    let Some(ended) = strip(named, middle) else {
        return None;
    };
    strip(ended, end)
}

/// What stands behind a text so many times.
#[tactic(auto, using(crate::proofs::ReadSteps::stripped_repeatedly))]
pub fn strip_repeated<'a>(text: &'a [u8], piece: &[u8], count: usize) -> Option<&'a [u8]>
    ensures { text_in result ≡ strip (repeated piece.now count) text.now }
{
    let mut rest = text;
    for at in 0..count {
        match strip(rest, piece) {
            Some(behind) => rest = behind,
            None => return None,
        }
    }
    Some(rest)
}
