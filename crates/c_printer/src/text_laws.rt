//! The laws of emitted text, as contracts of functions that do nothing.

ghost use Rattle.std.specs.Prelude.{◌≡◌, ℕ, ◌<◌, ◌^◌, length, None, Some};
ghost use Rattle.scop_lexer.specs.Bytes.{Text};
ghost use Rattle.scop_syntax.specs.Kernel.{IsKernel};
ghost use Rattle.scop_syntax.specs.Tree.{Program};
ghost use Rattle.loop_tree.specs.Marks.{FlatAll};
ghost use Rattle.loop_tree.specs.Shape.{NestAllTo, TreesAreOf, TreesAreOver, TreesAreUpTo};
ghost use Rattle.loop_tree.specs.Tree.{Trees};
ghost use Rattle.c_printer.specs.Naming.{HasWords};
ghost use Rattle.c_printer.specs.Nodes.{text_of};
ghost use Rattle.c_printer.specs.Printable.{AreNodes, IsNamed};
ghost use Rattle.c_printer.specs.Reading.{read_text};

/// The text of a tree is read as that tree.
pub fn printed_trees_are_read_back()
    ensures { (program : Program) (ts : Trees) → IsNamed program → AreNodes program 0 ts
        → read_text program (text_of program ts) ≡ Some ts }
{}

/// Two trees with one text are one tree.
pub fn texts_are_of_one_tree()
    ensures { (program : Program) (ts us : Trees) → IsNamed program → AreNodes program 0 ts → AreNodes program 0 us
        → text_of program ts ≡ text_of program us → ts ≡ us }
{}

/// What is read prints as the text and is a tree that can be printed, and no such tree prints as a text that is not
/// read. Texts are as long as memory holds.
pub fn unread_texts_are_of_no_tree()
    ensures prints { (program : Program) (text : Text) (ts : Trees) → read_text program text ≡ Some ts
        → text_of program ts ≡ text }
    ensures printable { (program : Program) (text : Text) (ts : Trees) → IsNamed program → length text < 2 ^ 63
        → read_text program text ≡ Some ts → AreNodes program 0 ts }
    ensures none { (program : Program) (text : Text) (ts : Trees) → IsNamed program → read_text program text ≡ None
        → AreNodes program 0 ts → text_of program ts ≡ text → ⊥ }
{}

/// In a kernel of distinct words that do not begin with `pp_` all names are told apart, those of emitted loops too.
pub fn kernels_tell_their_names_apart()
    ensures { (program : Program) → IsKernel program → HasWords program → IsNamed program }
{}

/// A flat tree of a program's statements can be printed, where its forms are over its loops and the parameters, its
/// numbers lie within 2^45, and not too many loops stand in one another.
pub fn flat_trees_can_be_printed()
    ensures { (program : Program) (n : ℕ) (ts : Trees) → FlatAll ts → TreesAreOf program ts
        → TreesAreOver (length program.parameters) ts → TreesAreUpTo (2 ^ 45) ts → NestAllTo n ts → n < 2 ^ 32
        → AreNodes program 0 ts }
{}
