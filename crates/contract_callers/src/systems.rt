//! Callers of systems: intersections, points and eliminations, and the laws of points.
ghost use Rattle.std.specs.Prelude.{◌≡◌, ◌↔◌, ◌⊎◌, ◌<◌, ◌^◌, [], ◌∷◌, ◌++◌, ℤ, List, pos, true, All, IfOk, IsTrue, Ok};
ghost use Rattle.std.specs.Prelude.{length};
ghost use Rattle.whole_numbers.specs.Lexicographic.{LexLess};
ghost use Rattle.wide_math.specs.Checked.{wide};
ghost use Rattle.wide_math.specs.declared.Op.TheVariants.{Mul};
ghost use Rattle.fractions.specs.Elimination.{coefficient_of};
ghost use Rattle.fractions.specs.Fractions.{HoldsForSome, HoldsOver};
ghost use Rattle.integer_sets.specs.Constraints.{variables_in};
ghost use Rattle.integer_sets.specs.Points.{IsLeastPoint, Satisfies};
ghost use Rattle.integer_sets.specs.Stops.{StopsAt};
ghost use Rattle.contract_callers.specs.SmallRows.{from_half, wide_behind};

use fm_projection::{FmStop, eliminate};
use integer_sets::{
    System, least_point_is_unique, prefix_decides_the_order, tests_stop_at_the_first_wide_value,
};
use std::alloc::{AllocError, Global};
use wide_math::Wide;

/// Which rows an intersection has, by `constraints` of `System::and`, and whether a point is one of its points, by
/// `points`.
pub fn both_at(first: &System, second: &System, point: &[i128]) -> Result<System, AllocError>
    requires dimensions { second.now.dimensions ≡ first.now.dimensions }
    requires parameters { second.now.parameters ≡ first.now.parameters }
    ensures constraints { IfOk result (λ both. both.rows ≡ first.now.rows ++ second.now.rows) }
    ensures points { IfOk result (λ both. Satisfies both point.now
        ↔ (Satisfies first.now point.now × Satisfies second.now point.now)) }
{
    first.and(second)
}

/// A system without constraints holds everywhere, by `run` of `System::holds_at`; a point is one of the system where
/// the answer says so, by `law`.
pub fn holds(system: &System, point: &[i128]) -> Result<bool, Wide>
    requires { length point.now ≡ variables_in system.now }
    ensures run { system.now.equalities ≡ [] → system.now.rows ≡ [] → result ≡ Ok true }
    ensures law { IfOk result (λ holds. IsTrue holds → Satisfies system.now point.now) }
{
    system.holds_at(point)
}

/// Of a system without constraints nothing is left, by `exact` of `eliminate`. A point of what is left has a fraction
/// for the variable, and so has one of halves, by `points` and `fractions`; no row that is left has the variable, by
/// `without`.
#[tactic(auto, unfolding(fractions::specs::Elimination::eliminated))]
pub fn left_at(
    alloc: Global,
    system: &System,
    variable: usize,
    point: &[i128],
) -> Result<System, FmStop>
    requires variable { variable < variables_in system.now }
    requires point { length point.now ≡ variables_in system.now }
    ensures exact { system.now.equalities ≡ [] → system.now.rows ≡ [] → IfOk result (λ left. left.rows ≡ []) }
    ensures points { IfOk result (λ left. Satisfies left point.now
        ↔ HoldsForSome variable system.now.equalities system.now.rows (pos 1) point.now) }
    ensures fractions { IfOk result (λ left. HoldsOver left.equalities left.rows (pos 2) point.now
        ↔ HoldsForSome variable system.now.equalities system.now.rows (pos 2) point.now) }
    ensures without { IfOk result (λ left. All (λ row. coefficient_of variable row ≡ pos 0) left.rows) }
{
    eliminate(alloc, system, variable)
}

/// The least x with 3 <= 2 x is 2 and no other, by the clause of `least_point_is_unique`.
pub fn least_point_from_a_half()
    ensures { (q : List ℤ) → IsLeastPoint from_half (pos 3 ∷ []) q → q ≡ pos 2 ∷ [] }
{
    least_point_is_unique();
}

/// Two points of two dimensions come in the order of the first, and of the second where the first is the same, by the
/// clause of `prefix_decides_the_order`.
pub fn order_of_two_dimensions()
    ensures { (v w x y : ℤ) → LexLess (v ∷ x ∷ []) (w ∷ y ∷ [])
        ↔ (LexLess (v ∷ []) (w ∷ []) ⊎ ((v ∷ [] ≡ w ∷ []) × LexLess (x ∷ []) (y ∷ []))) }
{
    prefix_decides_the_order();
}

/// A test of 2^126 stops at the product of the row 0 <= 2 x, behind an equality and a row that pass, and nowhere else,
/// by the clause of `tests_stop_at_the_first_wide_value`.
pub fn a_row_with_a_wide_value()
    ensures stops { StopsAt wide_behind (pos (2 ^ 126) ∷ []) (wide Mul (pos 2) (pos (2 ^ 126))) }
    ensures only { (w : Wide) → StopsAt wide_behind (pos (2 ^ 126) ∷ []) w
        → wide Mul (pos 2) (pos (2 ^ 126)) ≡ w }
{
    tests_stop_at_the_first_wide_value();
}
