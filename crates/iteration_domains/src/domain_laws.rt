//! Laws of the domains, as contracts of functions that do nothing.
ghost use Rattle.std.specs.Prelude.{◌≡◌, ℕ, ℤ, List, Some, ◌++◌, length, map, slice_get};
ghost use Rattle.integer_sets.specs.Constraints.{Constraints};
ghost use Rattle.integer_sets.specs.Points.{Satisfies};
ghost use Rattle.scop_syntax.specs.Cells.{accesses, cell_of};
ghost use Rattle.scop_syntax.specs.Execution.{IsInside, layout};
ghost use Rattle.scop_syntax.specs.Kernel.{IsKernel};
ghost use Rattle.scop_syntax.specs.Members.{In};
ghost use Rattle.scop_syntax.specs.Tree.{Program};
ghost use Rattle.scop_syntax.specs.Walk.{Visit, walk_of};
ghost use Rattle.iteration_domains.specs.Instances.{IsInstanceOf};
ghost use Rattle.iteration_domains.specs.Model.{Modelled, model_of};
ghost use Rattle.iteration_domains.specs.Outside.{Asks, FailsAt, Side, outside_systems};
ghost use Rattle.whole_numbers.specs.Lists.{NotNegative};

use scop_syntax::{
    accesses_have_the_ranks_of_arrays, failures_are_the_first, instances_are_those_of_statements,
    statements_are_numbered, walks_are_in_order,
};

/// The whole points of a statement's domain are exactly the turns of its instances in the walk, each
/// instance stands at one place, and each instance is one of a statement of the model.
pub fn domains_hold_the_instances()
    ensures statement { (program : Program) (params : List ℤ) (v : Visit) → In v (walk_of program params)
        → (s : Modelled) × IsInstanceOf program params s v }
    ensures instances { (program : Program) (params : List ℤ) (s : Modelled) (v : Visit)
        → length params ≡ length program.parameters → IsInstanceOf program params s v
        → (length v.turns ≡ s.domain.dimensions) × Satisfies s.domain (v.turns ++ params) }
    ensures points { (program : Program) (params : List ℤ) (s : Modelled) (xs : List ℤ) → IsKernel program
        → length params ≡ length program.parameters → In s (model_of program).statements
        → length xs ≡ s.domain.dimensions → Satisfies s.domain (xs ++ params)
        → (v : Visit) × IsInstanceOf program params s v × (v.turns ≡ xs) }
    ensures once { (program : Program) (params : List ℤ) (s : Modelled) (i j : ℕ) (v w : Visit)
        → IsInstanceOf program params s v → IsInstanceOf program params s w → v.turns ≡ w.turns
        → slice_get (walk_of program params) i ≡ Some v → slice_get (walk_of program params) j ≡ Some w → i ≡ j }
{
    instances_are_those_of_statements();
    statements_are_numbered();
    walks_are_in_order();
}

/// At an instance the forms of each access have the values of its subscripts.
pub fn accesses_touch_the_cells()
    ensures { (program : Program) (params : List ℤ) (s : Modelled) (v : Visit)
        → length params ≡ length program.parameters → IsInstanceOf program params s v
        → map (λ a. cell_of a (v.turns ++ params)) s.accesses ≡ map (λ a. cell_of a v.point) (accesses v.body) }
{
    instances_are_those_of_statements();
    statements_are_numbered();
}

/// The systems of the index check are those of the subscripts, one for each side; the whole points of each are exactly
/// the turns of the instances at which that access fails there; and where none has such a point, no subscript lies
/// outside.
pub fn outside_points_are_failures()
    ensures systems { (program : Program) (params : List ℤ) (c : Constraints) → In c (outside_systems program params)
        → (s : Modelled) × (a : ℕ) × (d : ℕ) × (side : Side) × Asks program params s a d side c }
    ensures each { (program : Program) (params : List ℤ) (s : Modelled) (a d : ℕ) (side : Side) (c : Constraints)
        → Asks program params s a d side c → In c (outside_systems program params) }
    ensures point { (program : Program) (params : List ℤ) (s : Modelled) (a d : ℕ) (side : Side) (c : Constraints)
        (xs : List ℤ) → IsKernel program → length params ≡ length program.parameters
        → Asks program params s a d side c → length xs ≡ c.dimensions → Satisfies c xs
        → (v : Visit) × IsInstanceOf program params s v × (v.turns ≡ xs) × FailsAt (layout program params) v a d side }
    ensures failure { (program : Program) (params : List ℤ) (s : Modelled) (a d : ℕ) (side : Side) (c : Constraints)
        (v : Visit) → length params ≡ length program.parameters → Asks program params s a d side c
        → IsInstanceOf program params s v → FailsAt (layout program params) v a d side
        → (length v.turns ≡ c.dimensions) × Satisfies c v.turns }
    ensures inside { (program : Program) (params : List ℤ) → IsKernel program
        → length params ≡ length program.parameters
        → ((c : Constraints) → In c (outside_systems program params) → (xs : List ℤ) → length xs ≡ c.dimensions
        → NotNegative xs → Satisfies c xs → ⊥)
        → IsInside program params }
{
    instances_are_those_of_statements();
    statements_are_numbered();
    failures_are_the_first();
    accesses_have_the_ranks_of_arrays();
}
