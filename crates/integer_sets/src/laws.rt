//! The points of a set: where a test of one stops, and their order, the lexicographic order
//! (P. Feautrier, "Parametric integer programming", RAIRO Recherche opérationnelle 22(3), 1988).

ghost use Rattle.std.specs.Prelude.{◌≡◌, ℕ, ℤ, List, ◌⊎◌, ◌↔◌, length, take, drop, Err};
ghost use Rattle.affine_forms.specs.Lexicographic.{LexLess};
ghost use Rattle.integer_sets.specs.Constraints.{Constraints};
ghost use Rattle.integer_sets.specs.Points.{IsLeastPoint};
ghost use Rattle.integer_sets.specs.Runs.{holds_run};
ghost use Rattle.integer_sets.specs.Stops.{StopsAt};

use affine_forms::Wide;

/// A system has at most one lexicographically least point at given parameters.
pub fn least_point_is_unique()
    ensures { (s : Constraints) (parameters p q : List ℤ)
        → IsLeastPoint s parameters p → IsLeastPoint s parameters q → p ≡ q }
{}

/// Two points of one length come in the order of their fronts of `n` dimensions where these differ,
/// and in the order of their rests where the fronts are equal.
pub fn prefix_decides_the_order()
    ensures { (n : ℕ) (p q : List ℤ) → length p ≡ length q
        → LexLess p q
        ↔ (LexLess (take n p) (take n q)
        ⊎ ((take n p ≡ take n q) × LexLess (drop n p) (drop n q))) }
{}

/// A test of a point tells a number that is too wide exactly where a constraint's value has it and all
/// constraints before that one pass.
pub fn tests_stop_at_the_first_wide_value()
    ensures { (s : Constraints) (point : List ℤ) (w : Wide)
        → (holds_run s point ≡ Err w) ↔ StopsAt s point w }
{}
