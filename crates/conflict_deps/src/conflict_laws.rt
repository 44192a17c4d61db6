//! Laws of conflicts, as contracts of functions that do nothing.
ghost use Rattle.std.specs.Prelude.{◌≡◌, ℕ, ℤ, List, length, false};
ghost use Rattle.whole_numbers.specs.Lists.{NotNegative};
ghost use Rattle.scop_syntax.specs.Cells.{PlacesConflict, conflict_cell};
ghost use Rattle.scop_syntax.specs.Kernel.{IsKernel};
ghost use Rattle.scop_syntax.specs.Members.{In};
ghost use Rattle.scop_syntax.specs.Reductions.{is_marked};
ghost use Rattle.scop_syntax.specs.Tree.{Program};
ghost use Rattle.scop_syntax.specs.Walk.{walk_of};
ghost use Rattle.iteration_domains.specs.Dependence.{Dependence};
ghost use Rattle.iteration_domains.specs.Model.{KernelModel, model_of};
ghost use Rattle.iteration_domains.specs.Sizes.{IsKernelModel};
ghost use Rattle.conflict_deps.specs.Conflicts.{conflicts_of, conflicts_without};
ghost use Rattle.conflict_deps.specs.Pairs.{IsEnd, IsPair, IsPoint};
ghost use Rattle.conflict_deps.specs.Parts.{HasParts};

use scop_syntax::{instances_are_those_of_statements, statements_are_numbered, walks_are_in_order};

/// Where no parameter is negative, the whole points of all systems together are exactly the pairs of conflicting
/// places, the earlier first, and each pair of accesses at two instances is a point of one system only. Where some arrays
/// are marked, the systems without these hold exactly the pairs that conflict on another array.
pub fn conflicts_are_the_points_of_the_systems()
    ensures points { (program : Program) (params : List ℤ) (marked : List ℕ) (dep : Dependence) (xs ys : List ℤ)
        → IsKernel program → length params ≡ length program.parameters
        → In dep (conflicts_without marked (model_of program)) → IsPoint program params dep xs ys
        → (i : ℕ) × (j : ℕ) × (pair : IsPair program params dep xs ys i j)
        × (is_marked marked (conflict_cell pair.conflict).array ≡ false) }
    ensures conflicts { (program : Program) (params : List ℤ) (marked : List ℕ) (i j : ℕ)
        (c : PlacesConflict (walk_of program params) i j) → is_marked marked (conflict_cell c).array ≡ false
        → length params ≡ length program.parameters → NotNegative params
        → (dep : Dependence) × IsPoint program params dep c.earlier.turns c.later.turns
        × IsEnd dep.source c.earlier c.first × IsEnd dep.target c.later c.second
        × In dep (conflicts_without marked (model_of program)) }
    ensures one { (program : Program) (params : List ℤ) (dep other : Dependence) (xs ys : List ℤ)
        → IsPoint program params dep xs ys → IsPoint program params other xs ys
        → dep.source.statement ≡ other.source.statement → dep.source.access ≡ other.source.access
        → dep.target.statement ≡ other.target.statement → dep.target.access ≡ other.target.access → dep ≡ other }
{
    instances_are_those_of_statements();
    statements_are_numbered();
    walks_are_in_order();
}

/// The system of each conflict falls into its parts: the domains of both instances, the subscripts, the order, and
/// that no parameter is negative; its ends are statements of the model.
pub fn systems_have_parts()
    ensures { (model : KernelModel) (dep : Dependence) → IsKernelModel model → In dep (conflicts_of model)
        → HasParts model dep }
{}
