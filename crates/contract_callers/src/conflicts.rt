//! Callers of conflicts: the laws in kernels without parameters.
ghost use Rattle.std.specs.Prelude.{◌≡◌, ◌≤◌, [], ℕ, ℤ, List, IfOk, Some, None, false};
ghost use Rattle.scop_syntax.specs.Cells.{Cell, PlacesConflict, conflict_cell};
ghost use Rattle.scop_syntax.specs.Kernel.{IsKernel};
ghost use Rattle.scop_syntax.specs.Members.{In};
ghost use Rattle.scop_syntax.specs.Reductions.{is_marked};
ghost use Rattle.scop_syntax.specs.Tree.{Program};
ghost use Rattle.scop_syntax.specs.Walk.{Visit, walk_of};
ghost use Rattle.scop_syntax.specs.Writers.{last_writer};
ghost use Rattle.iteration_domains.specs.Dependence.{Dependence};
ghost use Rattle.iteration_domains.specs.Model.{KernelModel, model_of};
ghost use Rattle.iteration_domains.specs.Sizes.{IsKernelModel};
ghost use Rattle.conflict_deps.specs.Conflicts.{After, Side, conflicts_of, conflicts_without, dep_of};
ghost use Rattle.conflict_deps.specs.Pairs.{IsEnd, IsPair, IsPoint, TouchesAt, WritesBefore};
ghost use Rattle.conflict_deps.specs.Pairs.{WritesBehind};

use conflict_deps::{
    conflicts, conflicts_are_the_points_of_the_systems, earlier_writers_are_points,
    last_writers_are_last_points, later_writers_are_points, systems_have_parts,
};
use iteration_domains::{Dep, Model};
use std::alloc::{AllocError, Global};

/// A model without statements has no conflicts, by the clause of `conflicts`.
pub fn conflicts_of_nothing(alloc: Global, model: &Model) -> Result<Vec<Dep>, AllocError>
    requires { model.now.statements ≡ [] }
    ensures { IfOk result (λ deps. deps.items ≡ []) }
{
    conflicts(alloc, model)
}

/// In a kernel without parameters a point of a system without marked arrays is a pair of places that conflict on another
/// array, by `points` of `conflicts_are_the_points_of_the_systems`; such a pair is a point, by `conflicts`; of one
/// system, by `one`.
pub fn conflicts_of_kernels_without_parameters()
    ensures points { (program : Program) (marked : List ℕ) (dep : Dependence) (xs ys : List ℤ) → IsKernel program
        → program.parameters ≡ [] → In dep (conflicts_without marked (model_of program)) → IsPoint program [] dep xs ys
        → (i : ℕ) × (j : ℕ) × (pair : IsPair program [] dep xs ys i j)
        × (is_marked marked (conflict_cell pair.conflict).array ≡ false) }
    ensures conflicts { (program : Program) (marked : List ℕ) (i j : ℕ) (c : PlacesConflict (walk_of program []) i j)
        → program.parameters ≡ [] → is_marked marked (conflict_cell c).array ≡ false
        → (dep : Dependence) × IsPoint program [] dep c.earlier.turns c.later.turns
        × In dep (conflicts_without marked (model_of program)) }
    ensures one { (program : Program) (dep other : Dependence) (xs ys : List ℤ) → IsPoint program [] dep xs ys
        → IsPoint program [] other xs ys → dep.source ≡ other.source → dep.target ≡ other.target → dep ≡ other }
{
    conflicts_are_the_points_of_the_systems();
}

/// A conflict is put together of two accesses and an order, by the clause of `systems_have_parts`.
pub fn conflicts_have_sides()
    ensures { (model : KernelModel) (dep : Dependence) → IsKernelModel model → In dep (conflicts_of model)
        → (from : Side) × (to : Side) × (order : After) × (dep ≡ dep_of model.parameters from to order) }
{
    systems_have_parts();
}

/// There an earlier writer is a point, by `points` of `earlier_writers_are_points`; such a point is one, by `writers`.
pub fn writers_of_kernels_without_parameters()
    ensures points { (program : Program) (k j : ℕ) (u w : Visit) (b : ℕ) (c : Cell) → program.parameters ≡ []
        → TouchesAt program [] j w b c → WritesBefore program [] k j u c
        → (dep : Dependence) × IsPoint program [] dep u.turns w.turns }
    ensures writers { (program : Program) (j : ℕ) (w : Visit) (b : ℕ) (c : Cell) (dep : Dependence) (xs : List ℤ)
        → IsKernel program → program.parameters ≡ [] → TouchesAt program [] j w b c → IsPoint program [] dep xs w.turns
        → dep.source.access ≡ 0 → IsEnd dep.target w b → (k : ℕ) × (u : Visit) × WritesBefore program [] k j u c }
{
    earlier_writers_are_points();
}

/// There a later writer is a point, by `points` of `later_writers_are_points`; such a point is one, by `writers`.
pub fn later_writers_of_kernels_without_parameters()
    ensures points { (program : Program) (k j : ℕ) (u w : Visit) (b : ℕ) (c : Cell) → program.parameters ≡ []
        → TouchesAt program [] j w b c → WritesBehind program [] k j u c
        → (dep : Dependence) × IsPoint program [] dep w.turns u.turns }
    ensures writers { (program : Program) (j : ℕ) (w : Visit) (b : ℕ) (c : Cell) (dep : Dependence) (xs : List ℤ)
        → IsKernel program → program.parameters ≡ [] → TouchesAt program [] j w b c → IsPoint program [] dep w.turns xs
        → IsEnd dep.source w b → dep.target.access ≡ 0 → (k : ℕ) × (u : Visit) × WritesBehind program [] k j u c }
{
    later_writers_are_points();
}

/// There the last writer is a point, by `last` of `last_writers_are_last_points`; no such point is behind it, by
/// `latest`; without a last writer there is none, by `initial`.
pub fn last_writers_of_kernels_without_parameters()
    ensures last { (program : Program) (i j : ℕ) (w : Visit) (b : ℕ) (c : Cell) → program.parameters ≡ []
        → TouchesAt program [] j w b c → last_writer (walk_of program []) j c ≡ Some i
        → (dep : Dependence) × (u : Visit) × IsPoint program [] dep u.turns w.turns }
    ensures latest { (program : Program) (i j : ℕ) (w : Visit) (b : ℕ) (c : Cell) (dep : Dependence) (xs : List ℤ)
        → IsKernel program → program.parameters ≡ [] → TouchesAt program [] j w b c
        → last_writer (walk_of program []) j c ≡ Some i → IsPoint program [] dep xs w.turns → dep.source.access ≡ 0
        → IsEnd dep.target w b → (k : ℕ) × (u : Visit) × (u.turns ≡ xs) × (k ≤ i) }
    ensures initial { (program : Program) (j : ℕ) (w : Visit) (b : ℕ) (c : Cell) (dep : Dependence) (xs : List ℤ)
        → IsKernel program → program.parameters ≡ [] → TouchesAt program [] j w b c
        → last_writer (walk_of program []) j c ≡ None → IsPoint program [] dep xs w.turns → dep.source.access ≡ 0
        → IsEnd dep.target w b → ⊥ }
{
    last_writers_are_last_points();
}
