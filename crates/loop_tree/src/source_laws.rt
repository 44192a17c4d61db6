//! Laws of the loop tree of a program's own loops, as contracts of a function that does nothing.
ghost use Rattle.std.specs.Prelude.{◌≡◌, ◌^◌, [], List, length, map, ℤ};
ghost use Rattle.scop_syntax.specs.Kernel.{IsKernel};
ghost use Rattle.scop_syntax.specs.Limits.{HasParameters};
ghost use Rattle.scop_syntax.specs.Tree.{Program};
ghost use Rattle.scop_syntax.specs.Walk.{instance, walk_of};
ghost use Rattle.loop_tree.specs.Conditions.{CanWalk};
ghost use Rattle.loop_tree.specs.Marks.{FlatAll};
ghost use Rattle.loop_tree.specs.Shape.{AreSerial, TreesAreOf, TreesAreOver, TreesAreUpTo};
ghost use Rattle.loop_tree.specs.Source.{source_of};
ghost use Rattle.loop_tree.specs.Walk.{visits};

use scop_syntax::{
    instances_are_those_of_statements, statements_are_numbered, values_lie_within_45_bits,
};

/// The loop tree of a program's own loops visits exactly the instances of its walk, in its order. It is flat, no loop
/// of it is parallel, its forms are over the loops round them and the parameters, its instances are those of the
/// program's statements, its numbers lie within 2^45, and it can be walked for parameters in 0..=65536.
pub fn source_trees_visit_the_walk()
    ensures visits { (program : Program) (params : List ℤ) → IsKernel program
        → length params ≡ length program.parameters
        → visits (source_of program) params ≡ map instance (walk_of program params) }
    ensures walk { (program : Program) (params : List ℤ) → HasParameters program params
        → CanWalk (source_of program) params [] }
    ensures flat { (program : Program) → IsKernel program → FlatAll (source_of program) }
    ensures serial { (program : Program) → AreSerial (source_of program) }
    ensures over { (program : Program) → IsKernel program
        → TreesAreOver (length program.parameters) (source_of program) }
    ensures instances { (program : Program) → TreesAreOf program (source_of program) }
    ensures small { (program : Program) → IsKernel program → TreesAreUpTo (2 ^ 45) (source_of program) }
{
    instances_are_those_of_statements();
    statements_are_numbered();
    values_lie_within_45_bits();
}
