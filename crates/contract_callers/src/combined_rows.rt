//! Callers of the laws of Farkas's identity, at small rows.
ghost use Rattle.std.specs.Prelude.{◌≡◌, ◌≤ℤ◌, ◌↔◌, ◌∷◌, [], All, ℕ, ℤ, map, negsuc, pos};
ghost use Rattle.whole_numbers.specs.Affine.{form_of};
ghost use Rattle.whole_numbers.specs.Content.{lowest_of_form};
ghost use Rattle.fractions.specs.Elimination.{coefficient_of, narrowed};
ghost use Rattle.fractions.specs.Farkas.{HasFarkas, HoldsForSomeMore, IsHomogeneous, form_at};
ghost use Rattle.fractions.specs.Fractions.{HoldsOver, value_over};
ghost use Rattle.contract_callers.specs.SmallRows.{matching, multipliers, second};

use fractions::{
    dropping_rows_keeps_the_projection, eliminations_stay_homogeneous,
    farkas_is_coefficient_matching, farkas_makes_a_form_not_negative,
    farkas_makes_a_form_not_negative_on_a_system, implied_rows_hold_over_fractions,
    own_rows_stay_behind_an_elimination, what_elimination_leaves_is_farkas,
};

/// 2 y is 1 more than the sum of 2 x - 1 and twice y - x, so it is not negative where both are not, as at two halves,
/// by the clause of `farkas_makes_a_form_not_negative`; where x = y and 2 x - 1 is not, the same by the clause of
/// `farkas_makes_a_form_not_negative_on_a_system`.
pub fn a_form_over_two_rows()
    ensures rows { pos 0 ≤ℤ value_over second (pos 2) (pos 1 ∷ pos 1 ∷ []) }
    ensures system { pos 0 ≤ℤ value_over second (pos 4) (pos 2 ∷ pos 2 ∷ []) }
{
    farkas_makes_a_form_not_negative();
    farkas_makes_a_form_not_negative_on_a_system();
}

/// c x - k has Farkas's identity over x - 1 where some m0 and m1 match both numbers, by the clause of
/// `farkas_is_coefficient_matching`.
pub fn multipliers_of_one_row()
    ensures { (c k : ℤ) → HoldsForSomeMore 2 matching multipliers (pos 1) (c ∷ k ∷ [])
        ↔ HasFarkas (form_of (pos 1 ∷ []) (negsuc 0) ∷ [])
        (form_at ((pos 1 ∷ pos 0 ∷ []) ∷ []) (pos 0 ∷ negsuc 0 ∷ []) (c ∷ k ∷ [])) }
{
    farkas_is_coefficient_matching();
}

/// Where y = 2 z, y <= x and 0 <= z, as at 3, 2 and 1 over 2, also 2 z <= x, by the clause of
/// `implied_rows_hold_over_fractions`.
pub fn a_row_between_two_others()
    ensures { HoldsOver (form_of (pos 0 ∷ pos 1 ∷ negsuc 1 ∷ []) (pos 0) ∷ [])
        (form_of (pos 1 ∷ negsuc 0 ∷ pos 0 ∷ []) (pos 0) ∷ form_of (pos 1 ∷ pos 0 ∷ negsuc 1 ∷ []) (pos 0)
        ∷ form_of (pos 0 ∷ pos 0 ∷ pos 1 ∷ []) (pos 0) ∷ []) (pos 2) (pos 3 ∷ pos 2 ∷ pos 1 ∷ []) }
{
    implied_rows_hold_over_fractions();
}

/// Of x = 2 y, 0 <= y, y <= x and y <= 2 x the last may be dropped, where y stands behind an x >= 0, by the clause of
/// `dropping_rows_keeps_the_projection`.
pub fn a_row_that_is_dropped()
    ensures { (d : ℤ) (x : ℕ) → HoldsForSomeMore 1 (form_of (pos 1 ∷ negsuc 1 ∷ []) (pos 0) ∷ [])
        (second ∷ form_of (pos 1 ∷ negsuc 0 ∷ []) (pos 0) ∷ []) d (pos x ∷ [])
        ↔ HoldsForSomeMore 1 (form_of (pos 1 ∷ negsuc 1 ∷ []) (pos 0) ∷ [])
        (second ∷ form_of (pos 1 ∷ negsuc 0 ∷ []) (pos 0) ∷ form_of (pos 2 ∷ negsuc 0 ∷ []) (pos 0) ∷ []) d
        (pos x ∷ []) }
{
    dropping_rows_keeps_the_projection();
}

/// The rows of m0 and m1 do not have the second of four variables, by `absent` of
/// `own_rows_stay_behind_an_elimination`, and without it are those behind one variable, by `stay`.
pub fn rows_of_two_multipliers()
    ensures absent { All (λ f. coefficient_of 1 f ≡ pos 0) multipliers }
    ensures stay { map (narrowed 1) (map lowest_of_form multipliers)
        ≡ form_of (pos 0 ∷ pos 1 ∷ pos 0 ∷ []) (pos 0) ∷ form_of (pos 0 ∷ pos 0 ∷ pos 1 ∷ []) (pos 0) ∷ [] }
{
    own_rows_stay_behind_an_elimination();
}

/// When m0 and m1 are eliminated from their matching, and 0 <= c is dropped, k <= c is left, and holds where c x - k
/// has Farkas's identity over x - 1, by the clause of `what_elimination_leaves_is_farkas`.
pub fn what_is_left_of_two_multipliers()
    ensures { (c k : ℕ) → HoldsOver [] (form_of (pos 1 ∷ negsuc 0 ∷ []) (pos 0) ∷ []) (pos 1) (pos c ∷ pos k ∷ [])
        ↔ HasFarkas (form_of (pos 1 ∷ []) (negsuc 0) ∷ [])
        (form_at ((pos 1 ∷ pos 0 ∷ []) ∷ []) (pos 0 ∷ negsuc 0 ∷ []) (pos c ∷ pos k ∷ [])) }
{
    what_elimination_leaves_is_farkas();
}

/// The matching without m0, by an elimination, has no constants, by `eliminated` of `eliminations_stay_homogeneous`,
/// and the rows of both multipliers have none without a column, by `narrowed`.
pub fn systems_without_constants()
    ensures eliminated { All IsHomogeneous (form_of (pos 1 ∷ pos 0 ∷ pos 0 ∷ negsuc 0 ∷ []) (pos 0) ∷ [])
        × All IsHomogeneous (form_of (pos 0 ∷ pos 0 ∷ pos 0 ∷ pos 1 ∷ []) (pos 0)
        ∷ form_of (pos 0 ∷ negsuc 0 ∷ pos 0 ∷ pos 1 ∷ []) (pos 0) ∷ []) }
    ensures narrowed { All IsHomogeneous (form_of (pos 0 ∷ pos 1 ∷ pos 0 ∷ []) (pos 0)
        ∷ form_of (pos 0 ∷ pos 0 ∷ pos 1 ∷ []) (pos 0) ∷ []) }
{
    eliminations_stay_homogeneous();
}
