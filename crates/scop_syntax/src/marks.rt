//! Marked arrays.
ghost use Rattle.std.specs.Prelude.{◌≡◌};
ghost use Rattle.scop_syntax.specs.Reductions.{is_marked as exact_is_marked};

/// Whether an array is one of those that are marked.
pub fn is_marked(marked: &[usize], array: usize) -> bool
    ensures { result ≡ exact_is_marked marked.now array }
{
    for mark in marked {
        if *mark == array {
            return true;
        }
    }
    false
}
