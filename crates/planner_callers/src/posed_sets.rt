//! Callers of posed sets: the call without dependences, and the laws of their rows.
ghost use Rattle.std.specs.Prelude.{◌≡◌, [], ℕ, ℤ, List, IfOk, length, map};
ghost use Rattle.whole_numbers.specs.Lexicographic as lexicographic;
ghost use Rattle.integer_sets.specs.Constraints.{Constraints};
ghost use Rattle.schedule_rows.specs.Items.{Row, numbers_of};
ghost use Rattle.schedule_rows.specs.Posed.{IsPosed, HasNone};
ghost use Rattle.schedule_rows.specs.Schedule.{loops_in};
ghost use Rattle.pluto_systems.specs.Placing.{columns_of, row_from};
ghost use Rattle.pip_solver.specs.Minimum.{IsTaken};
ghost use Rattle.pluto_systems.specs.Posing.{AreCoefficientRows, AreVectorsOf, HasPosed, HasPosedBehind, vectors_for};

use integer_sets::System;
use iteration_domains::Model;
use pluto_systems::{Rows, posed};
use std::alloc::{AllocError, Global};

/// The posed set of a row without dependences has no equality, by `exact` of `posed`; its points are the rows that
/// continue those of each statement, by `points`, and the posed rows, by `before`.
pub fn posed_without_dependences(
    alloc: Global,
    model: &Model,
    rows: &[Rows],
) -> Result<System, AllocError>
    requires { AreCoefficientRows (loops_in model.now) (map (λ vs. map (λ v. v.items) vs.items) rows.now) }
    ensures exact { IfOk result (λ s. s.equalities ≡ []) }
    ensures points { IfOk result (λ s. HasPosedBehind model.now.parameters (loops_in model.now) []
        (map (λ vs. map (λ v. v.items) vs.items) rows.now) s) }
    ensures before { IfOk result (λ s. (before : List Row) → AreVectorsOf (loops_in model.now) before
        (vectors_for (loops_in model.now) (map (λ vs. map (λ v. v.items) vs.items) rows.now))
        → HasPosed model.now.parameters (loops_in model.now) [] before s) }
{
    posed(alloc, model, &[], rows, &[], &[])
}

/// Without statements a list of as many numbers as there are columns is that of its row, by `numbers` of
/// `numbers_are_rows`, which has a number of u for each parameter, by `shape`.
pub fn rows_without_statements()
    ensures numbers { (m : ℕ) (xs : List ℤ) → length xs ≡ columns_of m [] → numbers_of (row_from m [] xs) ≡ xs }
    ensures shape { (m : ℕ) (xs : List ℤ) → length xs ≡ columns_of m [] → length (row_from m [] xs).u ≡ m }
{
    pluto_systems::numbers_are_rows();
}

/// Of a first row without dependences: the least point is a posed row, by `least` of `least_points_are_least_rows`;
/// without a point there is no row, by `none`.
pub fn least_first_rows()
    ensures least { (m : ℕ) (loops : List ℕ) (s : Constraints) (xs : List ℤ) → HasPosed m loops [] [] s
        → lexicographic.IsLeast (IsTaken s) (columns_of m loops) xs → IsPosed m loops [] [] (row_from m loops xs) }
    ensures none { (m : ℕ) (loops : List ℕ) (s : Constraints) → HasPosed m loops [] [] s
        → ((xs : List ℤ) → length xs ≡ columns_of m loops → IsTaken s xs → ⊥) → HasNone m loops [] [] }
{
    pluto_systems::least_points_are_least_rows();
}
