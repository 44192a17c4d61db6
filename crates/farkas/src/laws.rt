//! What the rows and their columns are, as contracts of functions that do nothing.

ghost use Rattle.std.specs.Prelude.{◌≡◌, ℕ, ◌<◌, ◌+◌, ℤ, pos, ◌+ℤ◌, ◌*ℤ◌, List, ◌++◌, length, get_or, ◌↔◌};
ghost use Rattle.whole_numbers.specs.Affine.{value_of};
ghost use Rattle.whole_numbers.specs.Lists.{dot};
ghost use Rattle.fractions.specs.Farkas.{AreNotNegative, HasFarkas};
ghost use Rattle.integer_sets.specs.Constraints.{Constraints};
ghost use Rattle.integer_sets.specs.Points.{Satisfies};
ghost use Rattle.iteration_domains.specs.Dependence.{binds_between};
ghost use Rattle.farkas.specs.Unknowns.{layout_of, bounds_of, behind, places, Unknowns, AreOf, numbers_of, Shows};
ghost use Rattle.farkas.specs.Claims.{claimed, target_factor, source_factor, bound_factor, distance, slack};
ghost use Rattle.farkas.specs.Meaning.{phi, rows_of, IsFarkas};
ghost use Rattle.farkas.specs.declared.claim.Claim.TheVariants.{Legality, Bounding};

use crate::claim::Claim;
use iteration_domains::DepEnd;

/// At each point of source, target and parameters a claimed form is the bound, the source's row and the target's row,
/// each with its factor: so the legality form is the distance, and the bounding form what the bound leaves of it.
#[tactic(auto, using(crate::proofs::ClaimedForms::value_laws))]
pub fn claimed_forms_are_distances()
    ensures { (claim : Claim) (source target : DepEnd) (b p : ℕ) (unknowns i j r q : List ℤ)
        → length i ≡ source.loops
        → length j ≡ target.loops
        → length r ≡ b
        → value_of (claimed claim source target b p unknowns) (i ++ (j ++ (r ++ q)))
        ≡ (bound_factor claim *ℤ (dot (bounds_of unknowns 0 p) q +ℤ get_or unknowns p (pos 0)))
        +ℤ ((source_factor claim *ℤ phi unknowns (layout_of p source target).source source.loops i)
        +ℤ (target_factor claim *ℤ phi unknowns (layout_of p source target).target target.loops j)) }
{}

/// Which unknown stands where: `u` from 0 on, `w` behind it, then the statements' in textual order, each one's
/// coefficients from the innermost loop and its shift. So the list of the unknowns by name shows them by the layout.
pub fn unknowns_stand_by_the_layout()
    ensures one { (p : ℕ) (source target : DepEnd) → source.statement ≡ target.statement
        → layout_of p source target ≡ places (behind (p + 1) source) (p + 1) (p + 1) }
    ensures source_first { (p : ℕ) (source target : DepEnd) → source.statement < target.statement
        → layout_of p source target ≡ places (behind (behind (p + 1) source) target) (p + 1) (behind (p + 1) source) }
    ensures target_first { (p : ℕ) (source target : DepEnd) → target.statement < source.statement
        → layout_of p source target ≡ places (behind (behind (p + 1) target) source) (behind (p + 1) target) (p + 1) }
    ensures unknowns { (p : ℕ) (source target : DepEnd) (x : Unknowns) → AreOf p source target x
        → Shows p source target (layout_of p source target) (numbers_of source target x) x }
{}

/// The rows of a dependence speak of the unknowns in this order, and of no others: so many dimensions they have, and
/// unknowns that are not negative satisfy those of a claim exactly where Farkas's identity holds of the distance, or of
/// what the bound leaves of it.
pub fn rows_speak_of_the_layout()
    ensures columns { (claim : Claim) (source target : DepEnd) (s t : Constraints) (x : Unknowns)
        → IsFarkas claim source target s t → AreOf s.parameters source target x
        → length (numbers_of source target x) ≡ t.dimensions }
    ensures legality { (source target : DepEnd) (s t : Constraints) (x : Unknowns)
        → IsFarkas Legality source target s t → AreOf s.parameters source target x
        → AreNotNegative (numbers_of source target x)
        → Satisfies t (numbers_of source target x) ↔ HasFarkas (rows_of s)
        (distance (binds_between source target s) s.parameters x) }
    ensures bounding { (source target : DepEnd) (s t : Constraints) (x : Unknowns)
        → IsFarkas Bounding source target s t → AreOf s.parameters source target x
        → AreNotNegative (numbers_of source target x)
        → Satisfies t (numbers_of source target x) ↔ HasFarkas (rows_of s)
        (slack (binds_between source target s) x) }
{}
