//! Laws of the texts of quasts, as contracts of functions that do nothing.

ghost use Rattle.std.specs.Prelude.{◌≡◌, ◌≢◌, ℕ, ◌++◌, List, get_or, length};
ghost use Rattle.scop_lexer.specs.Bytes.{Text};
ghost use Rattle.quast_trees.specs.Tree.{Tree};
ghost use Rattle.quast_text.specs.Reading.{AreOuter, IsTellable};
ghost use Rattle.quast_text.specs.Text.{quast_text};

use form_text::{forms_are_read_back, forms_end_before, texts_are_of_one_form};

/// Two quasts with one text in front of others are one, and so are the others; the text begins with none of `u`.
pub fn texts_are_of_one_quast()
    ensures one { (loops : List (List ℕ)) (outer : List Text) (t u : Tree) (x y : Text)
        → AreOuter outer → IsTellable loops (length outer) t → IsTellable loops (length outer) u
        → quast_text outer 0 t ++ x ≡ quast_text outer 0 u ++ y → (t ≡ u) × (x ≡ y) }
    ensures first { (loops : List (List ℕ)) (outer : List Text) (t : Tree) (x : Text)
        → IsTellable loops (length outer) t → get_or (quast_text outer 0 t ++ x) 0 0 ≢ 117 }
{
    forms_are_read_back();
    forms_end_before();
    texts_are_of_one_form();
}
