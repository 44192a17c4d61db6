//! Points of fractions and the elimination of a variable (J. Fourier 1826; T. S. Motzkin, Beiträge zur Theorie der
//! linearen Ungleichungen, 1936; A. Schrijver, Theory of Linear and Integer Programming, 1986, section 12.2).
ghost use Rattle.std.specs.Prelude.{◌≡◌, ℕ, suc, ◌<◌, ℤ, pos, ◌*ℤ◌, List, length, map, All, ◌↔◌};
ghost use Rattle.whole_numbers.specs.Affine.{Affine, value_of};
ghost use Rattle.whole_numbers.specs.Lists.{multiples};
ghost use Rattle.fractions.specs.Fractions.{value_over, HoldsOver, HoldsForSome};
ghost use Rattle.fractions.specs.Elimination.{eliminated, coefficient_of, narrowed};
ghost use Rattle.fractions.specs.Farkas.{HoldsForSomeMore};

/// Over the denominator 1 a value is that at a whole point; a factor on numerators and denominator is one on the
/// value.
#[tactic(auto, using(crate::proofs::PointValues::over_laws))]
pub fn values_over_a_denominator()
    ensures whole { (f : Affine) (xs : List ℤ) → value_over f (pos 1) xs ≡ value_of f xs }
    ensures scaled { (f : Affine) (k d : ℤ) (xs : List ℤ)
        → value_over f (k *ℤ d) (multiples k xs) ≡ k *ℤ value_over f d xs }
{}

/// A point satisfies the result of an elimination exactly where some fraction for the variable satisfies the system,
/// and the result does not have the variable.
pub fn elimination_is_exact_over_fractions()
    ensures exact { (i : ℕ) (equalities rows : List Affine) (d : ℤ) (numerators : List ℤ)
        → i < length numerators
        → HoldsOver (eliminated i equalities rows).0 (eliminated i equalities rows).1 d numerators
        ↔ HoldsForSome i equalities rows d numerators }
    ensures absent { (i : ℕ) (equalities rows : List Affine)
        → All (λ f. coefficient_of i f ≡ pos 0) (eliminated i equalities rows).0
        × All (λ f. coefficient_of i f ≡ pos 0) (eliminated i equalities rows).1 }
{}

/// Eliminating the first of n + 1 variables behind a point, and dropping its column, leaves n; with none left the
/// point itself satisfies.
pub fn eliminations_chain()
    ensures step { (n : ℕ) (equalities rows : List Affine) (d : ℤ) (xs : List ℤ)
        → HoldsForSomeMore n (map (narrowed (length xs)) (eliminated (length xs) equalities rows).0)
        (map (narrowed (length xs)) (eliminated (length xs) equalities rows).1) d xs
        ↔ HoldsForSomeMore (suc n) equalities rows d xs }
    ensures end { (equalities rows : List Affine) (d : ℤ) (xs : List ℤ)
        → HoldsForSomeMore 0 equalities rows d xs ↔ HoldsOver equalities rows d xs }
{}
