//! Laws of the small C, as contracts of functions that do nothing or call the laws that their proofs use.
ghost use Rattle.std.specs.Prelude.{◌≡◌, ◌++◌, ◌+◌, ◌<ℤ◌, true, ℕ, ℤ, pos, List, [], Some, length, map};
ghost use Rattle.whole_numbers.specs.Affine.{Affine, value_of};
ghost use Rattle.whole_numbers.specs.Floor.{floor, ceiling};
ghost use Rattle.scop_syntax.specs.ConflictOrders.{IsOrderOf};
ghost use Rattle.scop_syntax.specs.Execution.{IsInside, IsShaped, exec, layout};
ghost use Rattle.scop_syntax.specs.Kernel.{narrow_arrays};
ghost use Rattle.scop_syntax.specs.Limits.{HasParameters};
ghost use Rattle.scop_syntax.specs.Tree.{Program};
ghost use Rattle.scop_syntax.specs.Widths.{HoldTypes};
ghost use Rattle.loop_tree.specs.Plans.{walked};
ghost use Rattle.loop_tree.specs.Runs.{MayRunAll};
ghost use Rattle.loop_tree.specs.Tiling.{Tiling};
ghost use Rattle.loop_tree.specs.Tree.{Trees};
ghost use Rattle.loop_tree.specs.Walk.{Visit, given, max_z, min_z};
ghost use Rattle.planned_trees.specs.Trees.{AreTreesOf};
ghost use Rattle.c_printer.specs.Printable.{AreNodes, IsNamed};
ghost use Rattle.c_meaning.specs.Visits.{AreRaceless};
ghost use Rattle.c_meaning.specs.Assignments.{Contents};
ghost use Rattle.c_meaning.specs.Expressions.{called, worth};
ghost use Rattle.c_meaning.specs.Narrow.{AreNarrow, QuotientFits, TreeFormFits};
ghost use Rattle.c_meaning.specs.Programs.{HaveExtents, arrays_of, c_of, tree_expression};
ghost use Rattle.c_meaning.specs.Ranges.{fits_int64};
ghost use Rattle.c_meaning.specs.Runs.{MayCall, MayDoAll, Outcome, left_by};
ghost use Rattle.c_meaning.specs.Syntax.{ceild, floord, greater_of, less_of};
ghost use Rattle.c_meaning.specs.Visits.{act_of};

use c_printer::flat_trees_can_be_printed;
use planned_trees::loops_end_as_the_source_does;

/// Where each number on the way fits, the expression of a form has the form's value.
pub fn printed_forms_are_worth_their_values()
    ensures form { (params outer : List ℤ) (form : Affine) → length form.coefficients ≡ length outer + length params
        → TreeFormFits form params outer
        → worth (params ++ outer) (tree_expression (length params) (length outer) form)
        ≡ Some (value_of form (outer ++ params)) }
{}

/// Calls of the functions at the head of a text return floors, ceilings, the greater and the less of two numbers.
pub fn printed_functions_round_and_choose()
    ensures floor { (n d : ℤ) → pos 0 <ℤ d → QuotientFits n d → called floord n d ≡ Some (floor n d) }
    ensures ceiling { (n d : ℤ) → pos 0 <ℤ d → QuotientFits n d → called ceild n d ≡ Some (ceiling n d) }
    ensures greater { (a b : ℤ) → called greater_of a b ≡ Some (max_z a b) }
    ensures less { (a b : ℤ) → called less_of a b ≡ Some (min_z a b) }
{}

/// Where each number on the way fits and acts of two parallel iterations do not conflict, a run of the printed program
/// meets nothing that is undefined: it is a run of the tree, and reaches at each visit that statement's assignment, at the loops' values and the source's iterators. And
/// each run of the tree is one of the program.
pub fn printed_runs_are_those_of_the_tree()
    ensures runs { (program : Program) (ts : Trees) (params : List ℤ) → IsNamed program → AreNodes program 0 ts
        → length program.parameters ≡ length params → AreNarrow program ts params []
        → AreRaceless (act_of program params) ts params [] → (o : Outcome) → MayDoAll (c_of program ts) params o
        → (vs : List Visit) × MayRunAll ts params [] vs × (o ≡ Some (map (act_of program params) vs)) }
    ensures all { (program : Program) (ts : Trees) (params : List ℤ) → IsNamed program → AreNodes program 0 ts
        → length program.parameters ≡ length params → AreNarrow program ts params [] → (vs : List Visit)
        → MayRunAll ts params [] vs → MayDoAll (c_of program ts) params (Some (map (act_of program params) vs)) }
{}

/// Where the ranges of a tree's names say that every number fits, it does for all parameters in 0..=65536.
pub fn trees_that_fit_are_narrow()
    ensures { (program : Program) (ts : Trees) (params : List ℤ) → HasParameters program params
        → fits_int64 program ts ≡ true → AreNarrow program ts params [] }
{}

/// A call of the function of trees that carry out a plan, for parameters with which each number on the way and each array
/// fits: it has a run; each of its runs visits each walked instance once; and performed from given arrays, where every
/// subscript is inside, it leaves the arrays of the source's own execution, in whichever order parallel iterations were
/// interleaved.
pub fn printed_programs_leave_the_arrays_of_the_source()
    ensures some { (program : Program) (params : List ℤ) (plan : Tiling) (ts : Trees) → IsNamed program
        → AreTreesOf program [] plan ts → HasParameters program params → HaveExtents program params
        → AreNarrow program ts params []
        → (o : Outcome) × MayCall (arrays_of program params) (c_of program ts) params o }
    ensures once { (program : Program) (params : List ℤ) (plan : Tiling) (ts : Trees) (o : Outcome) → IsNamed program
        → AreTreesOf program [] plan ts → HasParameters program params → HaveExtents program params
        → AreNarrow program ts params [] → MayCall (arrays_of program params) (c_of program ts) params o
        → (run : List Visit) × (o ≡ Some (map (act_of program params) run))
        × IsOrderOf (map given run) (walked program params) }
    ensures arrays { (program : Program) (params : List ℤ) (plan : Tiling) (ts : Trees) (contents : Contents)
        (o : Outcome) → IsNamed program → AreTreesOf program [] plan ts → HasParameters program params
        → HaveExtents program params → AreNarrow program ts params [] → IsInside program params
        → IsShaped (layout program params) contents → HoldTypes (narrow_arrays program) contents
        → MayCall (arrays_of program params) (c_of program ts) params o
        → left_by (arrays_of program params) o contents ≡ Some (exec program params contents) }
{
    flat_trees_can_be_printed();
    loops_end_as_the_source_does();
}
