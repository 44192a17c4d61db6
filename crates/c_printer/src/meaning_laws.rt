//! What emitted text means, as contracts of functions that do nothing: the printed iterators are those of the source,
//! the functions at the head of the text are floors, ceilings and choices among two numbers, and tests, values and what
//! is stored are the tree's.

ghost use Rattle.std.specs.Prelude.{◌≡◌, ℕ, ℤ, pos, Bool, true, false, ◌↔◌, ◌+◌, ◌-ℤ◌, ◌*ℤ◌, ◌<ℤ◌, List, [], ◌∷◌, ◌++◌};
ghost use Rattle.std.specs.Prelude.{length, map, slice_get, slice_index_or, Some};
ghost use Rattle.whole_numbers.specs.Affine.{Affine, value_of, values_of};
ghost use Rattle.whole_numbers.specs.Floor.{floor, ceiling};
ghost use Rattle.scop_syntax.specs.Statements.{Placed, statements_of, visit_of};
ghost use Rattle.scop_syntax.specs.Cells.{cell_of, reads_of};
ghost use Rattle.scop_syntax.specs.Execution.{before_place, held, layout, value_stored_by, values_read_by};
ghost use Rattle.scop_syntax.specs.Kernel.{HasWidth, IsKernel, IsStatement, narrow_arrays};
ghost use Rattle.scop_syntax.specs.Tree.{Expression, Head, Program, Statement};
ghost use Rattle.scop_syntax.specs.Values.{value_on};
ghost use Rattle.scop_syntax.specs.Walk.{Visit, turn_point, walk_of};
ghost use Rattle.scop_syntax.specs.Widths.{HoldTypes, IsTyped};
ghost use Rattle.loop_tree.specs.Tree.{multiple};
ghost use Rattle.loop_tree.specs.Walk.{max_z, min_z, holds};
ghost use Rattle.c_printer.specs.Divisions.{floor_function, ceiling_function, greater_function, less_function};
ghost use Rattle.c_printer.specs.Iterators.{given_value, given_values};
ghost use Rattle.c_printer.specs.Printable.{IsInstance, IsNamed};
ghost use Rattle.c_printer.specs.Values.{stores, worth};
ghost use Rattle.scop_syntax.specs.Standings.{heads_in};

/// A constant of an instance's line holds the source iterator of its loop at that loop's turn; and all of them behind
/// the parameters are the point of the source's visit of the statement at these turns.
pub fn printed_iterators_are_the_source_s()
    ensures iterator { (head : Head) (turn : Affine) (params loops outer : List ℤ)
        → length head.first.coefficients ≡ length params + length outer
        → length turn.coefficients ≡ length loops + length params
        → turn_point head (params ++ outer) (value_of turn (loops ++ params))
        ≡ (params ++ outer) ++ given_value params loops outer head turn ∷ [] }
    ensures point { (program : Program) (n : ℕ) (p : Placed) (turns : List Affine) (params loops : List ℤ)
        → IsNamed program → length params ≡ length program.parameters → slice_get (statements_of program) n ≡ Some p
        → IsInstance program (length loops) n turns
        → params ++ given_values params loops [] (heads_in p.scopes) turns
        ≡ (visit_of p params (values_of turns (loops ++ params))).point }
{}

/// The functions at the head of the text round quotients by positive numbers, and choose the greater and the less.
pub fn the_functions_of_a_text_round_and_choose()
    ensures floor { (n d : ℤ) → pos 0 <ℤ d → floor_function n d ≡ floor n d }
    ensures ceiling { (n d : ℤ) → pos 0 <ℤ d → ceiling_function n d ≡ ceiling n d }
    ensures greater { (a b : ℤ) → greater_function a b ≡ max_z a b }
    ensures less { (a b : ℤ) → less_function a b ≡ min_z a b }
{}

/// A printed test for a multiple holds exactly where that of the tree does, and a divisor of 1 may be left out.
pub fn printed_divisions_are_those_of_the_tree()
    ensures multiple { (form : Affine) (d : ℤ) (point : List ℤ) → pos 0 <ℤ d → (holds (multiple form d) point ≡ true)
        ↔ (value_of form point -ℤ (d *ℤ floor_function (value_of form point) d) ≡ pos 0) }
    ensures floor { (z : ℤ) → floor z (pos 1) ≡ z }
    ensures ceiling { (z : ℤ) → ceiling z (pos 1) ≡ z }
{}

/// In C's own types, of the cells, the casts and the operators that stand in a text, a printed value is worth what the
/// tree's value is, and a printed assignment stores what the statement does: so it is at each place of a kernel's run.
pub fn printed_values_are_those_of_the_tree()
    ensures value { (arrays : List Bool) (extents contents : List (List ℕ)) (e : Expression) (point : List ℤ)
        → IsTyped arrays e → HoldTypes arrays contents
        → worth arrays e point (map (λ access. held extents contents (cell_of access point)) (reads_of e))
        ≡ value_on e point (map (λ access. held extents contents (cell_of access point)) (reads_of e)) }
    ensures stored { (arrays : List Bool) (ranks : List ℕ) (n : ℕ) (extents contents : List (List ℕ)) (s : Statement)
        (point : List ℤ) → IsStatement ranks n s
        → HasWidth arrays (slice_index_or arrays s.place.array false) s.right → HoldTypes arrays contents
        → stores arrays (slice_index_or arrays s.place.array false) s.right point
        (values_read_by extents contents s point) ≡ value_stored_by extents contents s point }
    ensures run { (program : Program) (params : List ℤ) (contents : List (List ℕ)) (j : ℕ) (v : Visit)
        → IsKernel program → HoldTypes (narrow_arrays program) contents → slice_get (walk_of program params) j ≡ Some v
        → stores (narrow_arrays program) (slice_index_or (narrow_arrays program) v.body.place.array false) v.body.right
        v.point (values_read_by (layout program params)
        (before_place (layout program params) contents (walk_of program params) j) v.body v.point)
        ≡ value_stored_by (layout program params)
        (before_place (layout program params) contents (walk_of program params) j) v.body v.point }
{}
