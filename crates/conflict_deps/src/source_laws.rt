//! What the sources of a read are, by the systems, and what overwrites its cell, as the contracts of functions that do
//! nothing.
ghost use Rattle.std.specs.Prelude.{◌≡◌, ℕ, ◌≤◌, ℤ, List, Some, None, length};
ghost use Rattle.whole_numbers.specs.Lists.{NotNegative};
ghost use Rattle.scop_syntax.specs.Cells.{Cell};
ghost use Rattle.scop_syntax.specs.Kernel.{IsKernel};
ghost use Rattle.scop_syntax.specs.Tree.{Program};
ghost use Rattle.scop_syntax.specs.Walk.{Visit, walk_of};
ghost use Rattle.scop_syntax.specs.Writers.{last_writer};
ghost use Rattle.iteration_domains.specs.Dependence.{Dependence};
ghost use Rattle.conflict_deps.specs.Pairs.{IsEnd, IsPoint, TouchesAt, WritesBefore, WritesBehind};

use scop_syntax::{
    instances_are_those_of_statements, last_writers_are_greatest_places, statements_are_numbered,
    walks_are_in_order,
};

/// The earlier writers of the cell that an access touches are exactly the points of the systems from written places to
/// that access; the last of them in the order of the walk is the read's source.
pub fn earlier_writers_are_points()
    ensures points { (program : Program) (params : List ℤ) (k j : ℕ) (u w : Visit) (b : ℕ) (c : Cell)
        → length params ≡ length program.parameters → NotNegative params → TouchesAt program params j w b c
        → WritesBefore program params k j u c
        → (dep : Dependence) × IsPoint program params dep u.turns w.turns × IsEnd dep.source u 0
        × IsEnd dep.target w b }
    ensures writers { (program : Program) (params : List ℤ) (j : ℕ) (w : Visit) (b : ℕ) (c : Cell) (dep : Dependence)
        (xs : List ℤ) → IsKernel program → length params ≡ length program.parameters
        → TouchesAt program params j w b c → IsPoint program params dep xs w.turns → dep.source.access ≡ 0
        → IsEnd dep.target w b
        → (k : ℕ) × (u : Visit) × WritesBefore program params k j u c × IsEnd dep.source u 0 × (u.turns ≡ xs) }
{
    instances_are_those_of_statements();
    statements_are_numbered();
    walks_are_in_order();
}

/// The later writers of the cell that an access touches are exactly the points of the systems from that access to
/// written places.
pub fn later_writers_are_points()
    ensures points { (program : Program) (params : List ℤ) (k j : ℕ) (u w : Visit) (b : ℕ) (c : Cell)
        → length params ≡ length program.parameters → NotNegative params → TouchesAt program params j w b c
        → WritesBehind program params k j u c
        → (dep : Dependence) × IsPoint program params dep w.turns u.turns × IsEnd dep.source w b
        × IsEnd dep.target u 0 }
    ensures writers { (program : Program) (params : List ℤ) (j : ℕ) (w : Visit) (b : ℕ) (c : Cell) (dep : Dependence)
        (xs : List ℤ) → IsKernel program → length params ≡ length program.parameters
        → TouchesAt program params j w b c → IsPoint program params dep w.turns xs → IsEnd dep.source w b
        → dep.target.access ≡ 0
        → (k : ℕ) × (u : Visit) × WritesBehind program params k j u c × IsEnd dep.target u 0 × (u.turns ≡ xs) }
{
    instances_are_those_of_statements();
    statements_are_numbered();
    walks_are_in_order();
}

/// The last writer of the cell that an access touches, before the access's place, is a point of the systems from
/// written places to that access, and no other such point comes later in the walk; where there is no such writer, there
/// is no point, and the cell holds what stood there at first.
pub fn last_writers_are_last_points()
    ensures last { (program : Program) (params : List ℤ) (i j : ℕ) (w : Visit) (b : ℕ) (c : Cell)
        → length params ≡ length program.parameters → NotNegative params → TouchesAt program params j w b c
        → last_writer (walk_of program params) j c ≡ Some i
        → (dep : Dependence) × (u : Visit) × WritesBefore program params i j u c
        × IsPoint program params dep u.turns w.turns × IsEnd dep.source u 0 × IsEnd dep.target w b }
    ensures latest { (program : Program) (params : List ℤ) (i j : ℕ) (w : Visit) (b : ℕ) (c : Cell) (dep : Dependence)
        (xs : List ℤ) → IsKernel program → length params ≡ length program.parameters
        → TouchesAt program params j w b c → last_writer (walk_of program params) j c ≡ Some i
        → IsPoint program params dep xs w.turns → dep.source.access ≡ 0 → IsEnd dep.target w b
        → (k : ℕ) × (u : Visit) × WritesBefore program params k j u c × (u.turns ≡ xs) × (k ≤ i) }
    ensures initial { (program : Program) (params : List ℤ) (j : ℕ) (w : Visit) (b : ℕ) (c : Cell) (dep : Dependence)
        (xs : List ℤ) → IsKernel program → length params ≡ length program.parameters
        → TouchesAt program params j w b c → last_writer (walk_of program params) j c ≡ None
        → IsPoint program params dep xs w.turns → dep.source.access ≡ 0 → IsEnd dep.target w b → ⊥ }
{
    earlier_writers_are_points();
    last_writers_are_greatest_places();
}
