//! Callers of eliminations one after another.
ghost use Rattle.std.specs.Prelude.{◌≡◌, ◌↔◌, ◌<◌, ◌≤◌, ◌+◌, ◌-◌, ◌^◌, ◌++◌, ◌∷◌, [], ℤ, pos, ◌<ℤ◌, List, IfOk, length};
ghost use Rattle.fractions.specs.Fractions.{HoldsOver};
ghost use Rattle.integer_sets.specs.Constraints.{Constraints, IsSized, variables_in};
ghost use Rattle.integer_sets.specs.Points.{Satisfies};
ghost use Rattle.fm_projection.specs.Alone.{last_alone};
ghost use Rattle.fm_projection.specs.Condensed.{condensed};
ghost use Rattle.fm_projection.specs.Projecting.{HoldsForSomeBetween, gone};
ghost use Rattle.traced_projections.specs.Projections.{system_in};

use fm_projection::{
    FmStop, condensed_systems_have_the_same_points, eliminations_are_exact_one_after_another,
    eliminations_keep_the_points, last_alone, without,
};
use integer_sets::System;
use std::alloc::Global;
use traced_projections::Projection;

/// A dimension less, by the clause of `without`.
pub fn without_a_dimension(
    alloc: Global,
    system: &System,
    dimension: usize,
) -> Result<System, FmStop>
    requires { dimension < system.now.dimensions }
    ensures { IfOk result (λ left. left.dimensions ≡ system.now.dimensions - 1) }
{
    without(alloc, system, dimension)
}

/// What is left of one dimension without parameters has its equalities, by the clause of `last_alone`.
pub fn last_of(alloc: Global, system: &System) -> Result<System, FmStop>
    requires some { 0 < system.now.dimensions }
    requires few { variables_in system.now < 2 ^ 32 }
    ensures { IfOk result (λ left. system.now.dimensions ≡ 1 → system.now.parameters ≡ 0
        → left.equalities ≡ system.now.equalities) }
{
    last_alone(alloc, system)
}

/// A whole point without its first entry is one of what is left, by `points` of `Projection::without`.
pub fn rest_of(alloc: Global, projection: &Projection) -> Result<Projection, FmStop>
    requires { 0 < (system_in projection.now).dimensions }
    ensures { IfOk result (λ left. (x : ℤ) (rest : List ℤ) → Satisfies (system_in projection.now) (x ∷ rest)
        → Satisfies (system_in left) rest) }
{
    projection.without(alloc, 0)
}

/// The first dimension's elimination over fractions, by `gone` of `eliminations_are_exact_one_after_another`, and the
/// last's, by `projected`.
pub fn fractions_for_one_dimension()
    ensures gone { (s : Constraints) (d : ℤ) (back : List ℤ) → pos 0 <ℤ d
        → HoldsOver (gone 0 s).equalities (gone 0 s).rows d back ↔ HoldsForSomeBetween 1 s d [] back }
    ensures projected { (s : Constraints) (d : ℤ) (front back : List ℤ) → 1 ≤ s.dimensions → pos 0 <ℤ d
        → length front ≡ s.dimensions - 1
        → HoldsOver (gone (s.dimensions - 1) s).equalities (gone (s.dimensions - 1) s).rows d (front ++ back)
        ↔ HoldsForSomeBetween 1 s d front back }
{
    eliminations_are_exact_one_after_another();
}

/// A point without its first entry, by `one` of `eliminations_keep_the_points`; one of a system of one dimension without
/// that, by `front`, and alone, by `last`.
pub fn points_of_one_dimension()
    ensures one { (s : Constraints) (x : ℤ) (rest : List ℤ) → Satisfies s (x ∷ rest) → Satisfies (gone 0 s) rest }
    ensures front { (s : Constraints) (x : ℤ) (params : List ℤ) → 1 ≡ s.dimensions → Satisfies s (x ∷ params)
        → Satisfies (gone (s.dimensions - 1) s) params }
    ensures last { (s : Constraints) (x : ℤ) → IsSized (variables_in s) s.equalities s.rows → 1 ≡ s.dimensions
        → Satisfies s (x ∷ []) → Satisfies (last_alone s) (x ∷ []) }
{
    eliminations_keep_the_points();
}

/// A condensed system has no points more, by `points` of `condensed_systems_have_the_same_points`, and halves that satisfy
/// a system satisfy it condensed, by `fractions`.
pub fn points_of_condensed_systems()
    ensures points { (s : Constraints) (x : ℤ) → Satisfies (condensed s) (x ∷ []) → Satisfies s (x ∷ []) }
    ensures fractions { (s : Constraints) (x : ℤ) → HoldsOver s.equalities s.rows (pos 2) (x ∷ [])
        → HoldsOver (condensed s).equalities (condensed s).rows (pos 2) (x ∷ []) }
{
    condensed_systems_have_the_same_points();
}
