//! The definition of a tree's text at a small kernel.

ghost use Rattle.std.specs.Prelude.{◌≡◌, [], ◌∷◌, codes, map};
ghost use Rattle.c_printer.specs.Examples.{kernel, statements, text, texts, tree};
ghost use Rattle.c_printer.specs.Nodes.{text_of};
ghost use Rattle.c_printer.specs.Statements.{statement_text};

/// A tree with each kind of node, and its text.
pub fn a_tree_and_its_text()
    ensures { text_of kernel tree ≡ text }
{}

/// Statements with the operators and the kinds of right side that the tree's own has not, and their texts.
pub fn statements_and_their_texts()
    ensures { map (statement_text kernel (codes "N" ∷ codes "i" ∷ [])) statements ≡ texts }
{}
