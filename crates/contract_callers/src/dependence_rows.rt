//! Callers of the rows of dependences.
ghost use Rattle.std.specs.Prelude.{◌≡◌, ◌≤ℤ◌, ◌+ℤ◌, [], ℕ, ℤ, List, Err, IfOk, length, get_or, pos};
ghost use Rattle.whole_numbers.specs.Lists.{dot};
ghost use Rattle.fractions.specs.Farkas.{AreNotNegative, HasFarkas};
ghost use Rattle.integer_sets.specs.Points.{Satisfies};
ghost use Rattle.iteration_domains.specs.Dependence.{binds_in};
ghost use Rattle.farkas.specs.Claims.{claimed};
ghost use Rattle.farkas.specs.Meaning.{IsInstance, IsTaken, phi, rows_of};
ghost use Rattle.farkas.specs.Run.{crowded, rows_run};
ghost use Rattle.farkas.specs.Unknowns.{bounds_of, layout_of};
ghost use Rattle.farkas.specs.declared.claim.Claim.TheVariants.{Bounding, Legality};
ghost use Rattle.farkas.specs.declared.stuck.Stuck.TheVariants.{Elimination};
ghost use Rattle.fm_projection.specs.declared.stop.FmStop.TheVariants.{Crowded};

use farkas::{Stuck, bounded_rows, legal_rows};
use integer_sets::System;
use iteration_domains::Dep;
use std::alloc::Global;

/// The rows that keep a dependence: they are crowded only where the run is, by `run` of `legal_rows`; unknowns that
/// satisfy them have Farkas's identity, by `farkas`; without parameters the target's row is not below the source's at a
/// point, by `keeps`.
pub fn rows_that_keep(alloc: Global, dependence: &Dep, budget: u64) -> Result<System, Stuck>
    ensures run { (pairs : ℕ) → result ≡ Err (Elimination (Crowded pairs))
        → rows_run budget Legality dependence.now.source dependence.now.target dependence.now.system ≡ Err (crowded pairs) }
    ensures farkas { IfOk result (λ rows. (unknowns : List ℤ) → length unknowns ≡ rows.dimensions
        → AreNotNegative unknowns → Satisfies rows unknowns → HasFarkas (rows_of dependence.now.system)
        (claimed Legality dependence.now.source dependence.now.target (binds_in dependence.now)
        dependence.now.system.parameters unknowns)) }
    ensures keeps { IfOk result (λ rows. (unknowns i j : List ℤ) → IsTaken rows unknowns
        → IsInstance dependence.now.source dependence.now.target dependence.now.system i j []
        → phi unknowns (layout_of dependence.now.system.parameters dependence.now.source dependence.now.target).source
        dependence.now.source.loops i
        ≤ℤ phi unknowns (layout_of dependence.now.system.parameters dependence.now.source dependence.now.target).target
        dependence.now.target.loops j) }
{
    legal_rows(alloc, dependence, budget)
}

/// The rows that bound a dependence: the same, by `run` and `farkas` of `bounded_rows`; without parameters the target's
/// row is at most the last of the bounds above the source's, by `bounds`.
pub fn rows_that_bound(alloc: Global, dependence: &Dep, budget: u64) -> Result<System, Stuck>
    ensures run { (pairs : ℕ) → result ≡ Err (Elimination (Crowded pairs))
        → rows_run budget Bounding dependence.now.source dependence.now.target dependence.now.system ≡ Err (crowded pairs) }
    ensures farkas { IfOk result (λ rows. (unknowns : List ℤ) → length unknowns ≡ rows.dimensions
        → AreNotNegative unknowns → Satisfies rows unknowns → HasFarkas (rows_of dependence.now.system)
        (claimed Bounding dependence.now.source dependence.now.target (binds_in dependence.now)
        dependence.now.system.parameters unknowns)) }
    ensures bounds { IfOk result (λ rows. (unknowns i j : List ℤ) → IsTaken rows unknowns
        → IsInstance dependence.now.source dependence.now.target dependence.now.system i j []
        → phi unknowns (layout_of dependence.now.system.parameters dependence.now.source dependence.now.target).target
        dependence.now.target.loops j
        ≤ℤ (phi unknowns (layout_of dependence.now.system.parameters dependence.now.source dependence.now.target).source
        dependence.now.source.loops i
        +ℤ (dot (bounds_of unknowns 0 dependence.now.system.parameters) []
        +ℤ get_or unknowns dependence.now.system.parameters (pos 0)))) }
{
    bounded_rows(alloc, dependence, budget)
}
