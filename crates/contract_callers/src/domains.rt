//! Callers of domains: the laws in kernels without parameters.
ghost use Rattle.std.specs.Prelude.{◌≡◌, ◌++◌, [], ℕ, IfOk, Some, length, map, slice_get};
ghost use Rattle.integer_sets.specs.Constraints.{Constraints};
ghost use Rattle.integer_sets.specs.Points.{Satisfies};
ghost use Rattle.scop_syntax.specs.Cells.{accesses, cell_of};
ghost use Rattle.scop_syntax.specs.Execution.{IsInside, layout};
ghost use Rattle.scop_syntax.specs.Kernel.{IsKernel};
ghost use Rattle.scop_syntax.specs.Members.{In};
ghost use Rattle.scop_syntax.specs.Tree.{Program};
ghost use Rattle.scop_syntax.specs.View.{program_of};
ghost use Rattle.scop_syntax.specs.Walk.{Visit, walk_of};
ghost use Rattle.iteration_domains.specs.Instances.{IsInstanceOf};
ghost use Rattle.iteration_domains.specs.Model.{Modelled, model_of};
ghost use Rattle.iteration_domains.specs.Outside.{Asks, FailsAt, Side, outside_systems};

use iteration_domains::{
    Model, accesses_touch_the_cells, domains_hold_the_instances, outside_points_are_failures,
};
use scop_syntax::Kernel;
use std::alloc::{AllocError, Global};

/// A model has the parameters of its kernel, by the clause of `Model::of`.
pub fn modelled(alloc: Global, kernel: &Kernel) -> Result<Model, AllocError>
    requires { IsKernel (program_of kernel.now) }
    ensures { IfOk result (λ model. model.parameters ≡ length (program_of kernel.now).parameters) }
{
    Model::of(alloc, kernel)
}

/// In a kernel without parameters each instance is one of a statement of its number, by `statement` of
/// `domains_hold_the_instances`; it has a turn for each dimension, by `instances`; a statement whose domain has the
/// point without coordinates is run, by `points`; and at one place, by `once`.
pub fn instances_of_kernels_without_parameters()
    ensures statement { (program : Program) (v : Visit) → In v (walk_of program [])
        → (s : Modelled) × In s (model_of program).statements × (v.number ≡ s.number) }
    ensures instances { (program : Program) (s : Modelled) (v : Visit) → program.parameters ≡ []
        → IsInstanceOf program [] s v → length v.turns ≡ s.domain.dimensions }
    ensures points { (program : Program) (s : Modelled) → IsKernel program → program.parameters ≡ []
        → In s (model_of program).statements → s.domain.dimensions ≡ 0 → Satisfies s.domain []
        → (v : Visit) × In v (walk_of program []) × (v.number ≡ s.number) }
    ensures once { (program : Program) (s : Modelled) (i j : ℕ) (v : Visit) → IsInstanceOf program [] s v
        → slice_get (walk_of program []) i ≡ Some v → slice_get (walk_of program []) j ≡ Some v → i ≡ j }
{
    domains_hold_the_instances();
}

/// There the forms of each access have the values of its subscripts, by the clause of `accesses_touch_the_cells`.
pub fn cells_of_kernels_without_parameters()
    ensures { (program : Program) (s : Modelled) (v : Visit) → program.parameters ≡ [] → IsInstanceOf program [] s v
        → map (λ a. cell_of a (v.turns ++ [])) s.accesses ≡ map (λ a. cell_of a v.point) (accesses v.body) }
{
    accesses_touch_the_cells();
}

/// There, by the clauses of `outside_points_are_failures` of these names: each system of the index check is that of a
/// subscript and a side, and each such system stands among them; where one without dimensions holds, an instance fails;
/// an instance that fails satisfies its system; and where there is no system, every subscript lies inside.
pub fn questions_of_kernels_without_parameters()
    ensures systems { (program : Program) (c : Constraints) → In c (outside_systems program [])
        → (s : Modelled) × (a : ℕ) × (d : ℕ) × (side : Side) × Asks program [] s a d side c }
    ensures each { (program : Program) (s : Modelled) (a d : ℕ) (side : Side) (c : Constraints)
        → Asks program [] s a d side c → In c (outside_systems program []) }
    ensures point { (program : Program) (s : Modelled) (a d : ℕ) (side : Side) (c : Constraints) → IsKernel program
        → program.parameters ≡ [] → Asks program [] s a d side c → c.dimensions ≡ 0 → Satisfies c []
        → (v : Visit) × In v (walk_of program []) × (v.number ≡ s.number) × FailsAt (layout program []) v a d side }
    ensures failure { (program : Program) (s : Modelled) (a d : ℕ) (side : Side) (c : Constraints) (v : Visit)
        → program.parameters ≡ [] → Asks program [] s a d side c → IsInstanceOf program [] s v
        → FailsAt (layout program []) v a d side → Satisfies c v.turns }
    ensures inside { (program : Program) → IsKernel program → program.parameters ≡ []
        → outside_systems program [] ≡ [] → IsInside program [] }
{
    outside_points_are_failures();
}
