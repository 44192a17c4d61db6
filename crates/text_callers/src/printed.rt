//! Callers of the text of loop trees: the call, the laws at empty trees and in kernels without parameters, and worked
//! texts.
ghost use Rattle.std.specs.Prelude.{◌≡◌, ◌↔◌, ◌∷◌, ◌<◌, ◌^◌, [], ◌-ℤ◌, ◌*ℤ◌, ℕ, ℤ, IfOk, List, None, Some, length, pos};
ghost use Rattle.std.specs.Prelude.{IfSome, IsNone, codes, map, option_map, slice_get, slice_index_or, false, true};
ghost use Rattle.whole_numbers.specs.Affine.{Affine, value_of, values_of};
ghost use Rattle.whole_numbers.specs.Floor.{ceiling, floor};
ghost use Rattle.scop_lexer.specs.Bytes.{Text};
ghost use Rattle.scop_syntax.specs.Cells.{cell_of, reads_of};
ghost use Rattle.scop_syntax.specs.Execution.{held, layout, value_stored_by, values_read_by};
ghost use Rattle.scop_syntax.specs.Kernel.{HasWidth, IsKernel, IsStatement, narrow_arrays};
ghost use Rattle.scop_syntax.specs.Statements.{Placed, statements_of, visit_of};
ghost use Rattle.scop_syntax.specs.Tree.{Expression, Head, Program, Right};
ghost use Rattle.scop_syntax.specs.Values.{value_on};
ghost use Rattle.scop_syntax.specs.View.{program_of};
ghost use Rattle.scop_syntax.specs.Walk.{Visit, turn_point, walk_of};
ghost use Rattle.scop_syntax.specs.Widths.{HoldTypes, IsTyped};
ghost use Rattle.loop_tree.specs.Tree.{Trees, multiple, none};
ghost use Rattle.loop_tree.specs.View.{trees_in};
ghost use Rattle.loop_tree.specs.Walk.{holds, max_z, min_z};
ghost use Rattle.c_printer.specs.Divisions.{ceiling_function, floor_function, greater_function, less_function};
ghost use Rattle.c_printer.specs.Examples as example;
ghost use Rattle.c_printer.specs.Iterators.{given_value, given_values};
ghost use Rattle.c_printer.specs.Naming.{HasWords};
ghost use Rattle.c_printer.specs.Nodes.{text_of};
ghost use Rattle.c_printer.specs.Printable.{AreNodes, IsInstance, IsNamed};
ghost use Rattle.c_printer.specs.Reading.{read_text};
ghost use Rattle.c_printer.specs.Statements.{statement_text};
ghost use Rattle.c_printer.specs.Values.{stores, worth};
ghost use Rattle.scop_syntax.specs.Standings.{heads_in};

use c_printer::{
    a_tree_and_its_text, kernels_tell_their_names_apart, print,
    printed_divisions_are_those_of_the_tree, printed_iterators_are_the_source_s,
    printed_trees_are_read_back, printed_values_are_those_of_the_tree, read_back,
    statements_and_their_texts, texts_are_of_one_tree, the_functions_of_a_text_round_and_choose,
    unread_texts_are_of_no_tree,
};
use loop_tree::Tree;
use scop_syntax::Kernel;
use std::alloc::{AllocError, Global};

/// The text of an empty tree, by the clause of `print`.
pub fn text_of_a_tree(alloc: Global, kernel: &Kernel, tree: &Tree) -> Result<Vec<u8>, AllocError>
    ensures { IfOk result (λ text. trees_in tree.now ≡ none → text.items ≡ text_of (program_of kernel.now) none) }
{
    print(alloc, kernel, tree)
}

/// Of a text that is not read no tree is read back, by `read` of `read_back`; a tree that is has the text, by `some`; where
/// none is, the empty tree does not have it, by `none`.
pub fn tree_of_a_text(
    alloc: Global,
    kernel: &Kernel,
    text: &[u8],
) -> Result<Option<Tree>, AllocError>
    ensures some { IfOk result (λ read. IfSome read (λ tree. text_of (program_of kernel.now) (trees_in tree)
        ≡ text.now)) }
    ensures none { IsNamed (program_of kernel.now) → IfOk result (λ read. IsNone read
        → text_of (program_of kernel.now) none ≡ text.now → ⊥) }
    ensures read { IfOk result (λ read. read_text (program_of kernel.now) text.now ≡ None
        → option_map trees_in read ≡ None) }
{
    read_back(alloc, kernel, text)
}

/// The text of a tree with each kind of node, by the clause of `a_tree_and_its_text`.
pub fn a_worked_tree()
    ensures { text_of example.kernel example.tree ≡ example.text }
{
    a_tree_and_its_text();
}

/// The texts of statements in a loop over i, by the clause of `statements_and_their_texts`.
pub fn worked_statements()
    ensures { map (statement_text example.kernel (codes "N" ∷ codes "i" ∷ [])) example.statements ≡ example.texts }
{
    statements_and_their_texts();
}

/// The text of an empty tree is read, by the clause of `printed_trees_are_read_back`.
pub fn empty_trees_are_read_back()
    ensures { (program : Program) → IsNamed program → read_text program (text_of program none) ≡ Some none }
{
    printed_trees_are_read_back();
}

/// A tree with the text of an empty one is empty, by the clause of `texts_are_of_one_tree`.
pub fn texts_of_empty_trees()
    ensures { (program : Program) (ts : Trees) → IsNamed program → AreNodes program 0 ts
        → text_of program ts ≡ text_of program none → ts ≡ none }
{
    texts_are_of_one_tree();
}

/// A text that is read as an empty tree is that of one, by `prints` of `unread_texts_are_of_no_tree`; one that is not
/// read is not, by `none`; what is read can be printed, by `printable`.
pub fn unread_texts()
    ensures prints { (program : Program) (text : Text) → read_text program text ≡ Some none
        → text_of program none ≡ text }
    ensures printable { (program : Program) (text : Text) (ts : Trees) → IsNamed program → length text < 2 ^ 63
        → read_text program text ≡ Some ts → AreNodes program 0 ts }
    ensures none { (program : Program) (text : Text) → IsNamed program → read_text program text ≡ None
        → text_of program none ≡ text → ⊥ }
{
    unread_texts_are_of_no_tree();
}

/// The names of a kernel, by the clause of `kernels_tell_their_names_apart`.
pub fn names_of_kernels()
    ensures { (program : Program) → IsKernel program → HasWords program → IsNamed program }
{
    kernels_tell_their_names_apart();
}

/// Iterators where there is neither parameter nor loop, by the clauses of `printed_iterators_are_the_source_s` of these
/// names.
pub fn iterators_without_loops()
    ensures iterator { (head : Head) (turn : Affine) → head.first.coefficients ≡ [] → turn.coefficients ≡ []
        → turn_point head [] (value_of turn []) ≡ given_value [] [] [] head turn ∷ [] }
    ensures point { (program : Program) (n : ℕ) (p : Placed) (turns : List Affine) → IsNamed program
        → program.parameters ≡ [] → slice_get (statements_of program) n ≡ Some p → IsInstance program 0 n turns
        → given_values [] [] [] (heads_in p.scopes) turns ≡ (visit_of p [] (values_of turns [])).point }
{
    printed_iterators_are_the_source_s();
}

/// Halves, and choices between a number and 0, by the clauses of `the_functions_of_a_text_round_and_choose` of these
/// names.
pub fn halves_and_choices()
    ensures floor { (n : ℤ) → floor_function n (pos 2) ≡ floor n (pos 2) }
    ensures ceiling { (n : ℤ) → ceiling_function n (pos 2) ≡ ceiling n (pos 2) }
    ensures greater { (a : ℤ) → greater_function a (pos 0) ≡ max_z a (pos 0) }
    ensures less { (a : ℤ) → less_function a (pos 0) ≡ min_z a (pos 0) }
{
    the_functions_of_a_text_round_and_choose();
}

/// Tests for even numbers, and divisors of 1, by the clauses of `printed_divisions_are_those_of_the_tree` of these
/// names.
pub fn even_numbers()
    ensures multiple { (form : Affine) (point : List ℤ) → (holds (multiple form (pos 2)) point ≡ true)
        ↔ (value_of form point -ℤ (pos 2 *ℤ floor_function (value_of form point) (pos 2)) ≡ pos 0) }
    ensures floor { (z : ℤ) → floor z (pos 1) ≡ z }
    ensures ceiling { (z : ℤ) → ceiling z (pos 1) ≡ z }
{
    printed_divisions_are_those_of_the_tree();
}

/// Over one array of 32 bits a printed value is the tree's, and a printed assignment to a cell of it stores what the
/// statement does, by `value` and `stored` of `printed_values_are_those_of_the_tree`; so does the first of a run, by `run`.
pub fn values_over_an_array_of_32_bits()
    ensures value { (extents contents : List (List ℕ)) (e : Expression) (point : List ℤ) → IsTyped (true ∷ []) e
        → HoldTypes (true ∷ []) contents
        → worth (true ∷ []) e point (map (λ access. held extents contents (cell_of access point)) (reads_of e))
        ≡ value_on e point (map (λ access. held extents contents (cell_of access point)) (reads_of e)) }
    ensures stored { (ranks : List ℕ) (n : ℕ) (extents contents : List (List ℕ)) (subscripts : List Affine)
        (right : Right) (point : List ℤ)
        → IsStatement ranks n (record { place = record { array = 0; subscripts = subscripts }; right = right })
        → HasWidth (true ∷ []) true right → HoldTypes (true ∷ []) contents
        → stores (true ∷ []) true right point (values_read_by extents contents
        (record { place = record { array = 0; subscripts = subscripts }; right = right }) point)
        ≡ value_stored_by extents contents
        (record { place = record { array = 0; subscripts = subscripts }; right = right }) point }
    ensures run { (program : Program) (params : List ℤ) (contents : List (List ℕ)) (v : Visit) → IsKernel program
        → HoldTypes (narrow_arrays program) contents → slice_get (walk_of program params) 0 ≡ Some v
        → stores (narrow_arrays program) (slice_index_or (narrow_arrays program) v.body.place.array false) v.body.right
        v.point (values_read_by (layout program params) contents v.body v.point)
        ≡ value_stored_by (layout program params) contents v.body v.point }
{
    printed_values_are_those_of_the_tree();
}
