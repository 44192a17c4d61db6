//! Farkas's identity (A. Schrijver, Theory of Linear and Integer Programming, 1986, corollary 7.1h; P. Feautrier, Some
//! efficient solutions to the affine scheduling problem, part I, 1992).
ghost use Rattle.std.specs.Prelude.{◌≡◌, ℕ, suc, ◌+◌, ◌≤◌, ℤ, pos, ◌≤ℤ◌, List, map, [], ◌∷◌, ◌++◌, length, All, ◌↔◌};
ghost use Rattle.whole_numbers.specs.Affine.{Affine, complement};
ghost use Rattle.fractions.specs.Fractions.{value_over, HoldsOver};
ghost use Rattle.whole_numbers.specs.Content.{lowest_of_form};
ghost use Rattle.fractions.specs.Elimination.{eliminated, coefficient_of, narrowed};
ghost use Rattle.fractions.specs.Farkas.{HoldsForSomeMore, HasFarkas, form_at, matched_from, own_rows, two_rows};
ghost use Rattle.fractions.specs.Farkas.{Leaves, AreNotNegative, IsHomogeneous, HasNoPoint};

/// Where the rows are not negative, a form with Farkas's identity is not.
pub fn farkas_makes_a_form_not_negative()
    ensures { (rows : List Affine) (form : Affine) (d : ℤ) (numerators : List ℤ)
        → HasFarkas rows form
        → pos 0 ≤ℤ d
        → All (λ g. pos 0 ≤ℤ value_over g d numerators) rows
        → pos 0 ≤ℤ value_over form d numerators }
{}

/// The same of a system, whose equalities are two rows each: at each of its points the form is not negative.
pub fn farkas_makes_a_form_not_negative_on_a_system()
    ensures { (equalities rows : List Affine) (form : Affine) (d : ℤ) (numerators : List ℤ)
        → HasFarkas (two_rows equalities ++ rows) form
        → pos 0 ≤ℤ d
        → HoldsOver equalities rows d numerators
        → pos 0 ≤ℤ value_over form d numerators }
{}

/// Whole unknowns satisfy the matching of coefficients for some fractions of the multipliers, none negative, exactly
/// where the form that they make has Farkas's identity.
pub fn farkas_is_coefficient_matching()
    ensures { (linear : List (List ℤ)) (constant : List ℤ) (rows : List Affine) (unknowns : List ℤ)
        → All (λ l. length l ≡ length unknowns) linear
        → length constant ≡ length unknowns
        → All (λ g. length g.coefficients ≤ length linear) rows
        → HoldsForSomeMore (suc (length rows)) (matched_from 0 linear constant rows)
        (own_rows (length unknowns) (suc (length rows))) (pos 1) unknowns
        ↔ HasFarkas rows (form_at linear constant unknowns) }
{}

/// A row of a homogeneous system whose complement with the other rows has no whole point >= 0 holds wherever they do.
pub fn implied_rows_hold_over_fractions()
    ensures { (equalities front : List Affine) (row : Affine) (back : List Affine) (d : ℤ) (numerators : List ℤ)
        → All IsHomogeneous equalities
        → All IsHomogeneous (front ++ back)
        → IsHomogeneous row
        → HasNoPoint (length numerators) equalities ((front ++ back) ++ complement row ∷ [])
        → AreNotNegative numerators
        → HoldsOver equalities (front ++ back) d numerators
        → HoldsOver equalities (front ++ row ∷ back) d numerators }
{}

/// Rows may be dropped between eliminations: where those kept hold with all, keep the own rows of the n variables that
/// are still to be eliminated, and imply all where nothing is negative, they hold for some fractions exactly where all
/// do.
pub fn dropping_rows_keeps_the_projection()
    ensures { (n : ℕ) (equalities rows kept : List Affine) (d : ℤ) (xs : List ℤ)
        → AreNotNegative xs
        → ((e : ℤ) (point : List ℤ) → HoldsOver equalities rows e point → HoldsOver equalities kept e point)
        → ((e : ℤ) (point : List ℤ) → HoldsOver equalities kept e point
        → All (λ f. pos 0 ≤ℤ value_over f e point) (own_rows (length xs) n))
        → ((e : ℤ) (point : List ℤ) → length point ≡ length xs + n → AreNotNegative point
        → HoldsOver equalities kept e point → HoldsOver equalities rows e point)
        → HoldsForSomeMore n equalities kept d xs ↔ HoldsForSomeMore n equalities rows d xs }
{}

/// The own rows behind an eliminated variable do not have it, and in lowest terms and without its column they are the
/// own rows one place further in front.
pub fn own_rows_stay_behind_an_elimination()
    ensures absent { (i c n : ℕ) → i ≤ c → All (λ f. coefficient_of i f ≡ pos 0) (own_rows (suc c) n) }
    ensures stay { (i c n : ℕ) → i ≤ c → map (narrowed i) (map lowest_of_form (own_rows (suc c) n)) ≡ own_rows c n }
{}

/// What is left of the matching of coefficients when `m0` and the multipliers are eliminated, rows being dropped on
/// the way, holds of whole unknowns >= 0 exactly where the form that they make has Farkas's identity.
pub fn what_elimination_leaves_is_farkas()
    ensures { (linear : List (List ℤ)) (constant : List ℤ) (rows last_equalities last_rows : List Affine)
        (unknowns : List ℤ)
        → All (λ l. length l ≡ length unknowns) linear
        → length constant ≡ length unknowns
        → All (λ g. length g.coefficients ≤ length linear) rows
        → AreNotNegative unknowns
        → Leaves (length unknowns) (suc (length rows)) (matched_from 0 linear constant rows)
        (own_rows (length unknowns) (suc (length rows))) last_equalities last_rows
        → HoldsOver last_equalities last_rows (pos 1) unknowns ↔ HasFarkas rows (form_at linear constant unknowns) }
{}

/// An elimination of constraints without constants, and without the variable's column, has no constants.
pub fn eliminations_stay_homogeneous()
    ensures eliminated { (i : ℕ) (equalities rows : List Affine)
        → All IsHomogeneous equalities
        → All IsHomogeneous rows
        → All IsHomogeneous (eliminated i equalities rows).0 × All IsHomogeneous (eliminated i equalities rows).1 }
    ensures narrowed { (i : ℕ) (forms : List Affine)
        → All IsHomogeneous forms
        → All IsHomogeneous (map (narrowed i) forms) }
{}
