//! What eliminations one after another leave, and what a condensed system says, as contracts of functions that do
//! nothing.

ghost use Rattle.std.specs.Prelude.{◌≡◌, ◌≤◌, ◌<ℤ◌, ◌+◌, ◌-◌, ◌++◌, [], ◌∷◌, ◌↔◌, ℕ, ℤ, pos, List, length};
ghost use Rattle.fractions.specs.Fractions.{HoldsOver};
ghost use Rattle.integer_sets.specs.Constraints.{Constraints, IsSized, variables_in};
ghost use Rattle.integer_sets.specs.Points.{Satisfies};
ghost use Rattle.fm_projection.specs.Alone.{AreInRange, last_alone};
ghost use Rattle.fm_projection.specs.Projecting.{Follow, IsLeftOf, all_gone, gone, projected};
ghost use Rattle.fm_projection.specs.Condensed.{condensed};

/// Eliminations one after another are exact over fractions: a point satisfies what is left exactly where it satisfies
/// the system with some fractions for the eliminated dimensions, in their places.
pub fn eliminations_are_exact_one_after_another()
    ensures gone { (i n : ℕ) (s : Constraints) → IsLeftOf i n s (all_gone i n s) }
    ensures projected { (n : ℕ) (s : Constraints) → n ≤ s.dimensions
        → IsLeftOf (s.dimensions - n) n s (projected n s) }
{}

/// A whole point of a system, without its entry of an eliminated dimension, is one of what the elimination leaves;
/// so is
/// the front of one of a projection on the first dimensions, and, for parameters in 0..=65536, the last value of one of
/// what is left of the last dimension alone.
pub fn eliminations_keep_the_points()
    ensures one { (i : ℕ) (s : Constraints) → Follow i s (gone i s) }
    ensures front { (n : ℕ) (s : Constraints) (outer rest params : List ℤ) → length rest ≡ n
        → length (outer ++ rest) ≡ s.dimensions
        → Satisfies s (outer ++ (rest ++ params)) → Satisfies (projected n s) (outer ++ params) }
    ensures last { (s : Constraints) (outer : List ℤ) (x : ℤ) (params : List ℤ)
        → IsSized (variables_in s) s.equalities s.rows
        → length outer + 1 ≡ s.dimensions → AreInRange params
        → Satisfies s (outer ++ x ∷ params) → Satisfies (last_alone s) (x ∷ []) }
{}

/// A condensed system has the whole points of the system, and its points of fractions.
pub fn condensed_systems_have_the_same_points()
    ensures points { (s : Constraints) (point : List ℤ) → Satisfies s point ↔ Satisfies (condensed s) point }
    ensures fractions { (s : Constraints) (d : ℤ) (point : List ℤ) → pos 0 <ℤ d
        → HoldsOver s.equalities s.rows d point
        ↔ HoldsOver (condensed s).equalities (condensed s).rows d point }
{}
