//! Which numbers keep and which bound the dependence of `A[i] += A[i - 1]` from each turn to the next: worked rows and
//! counterexamples of both definitions, and callers of what the numbers of a row stand for. Which pairs a dependence
//! relates that binds a quotient.
ghost use Rattle.std.specs.Prelude.{◌≡◌, ◌+◌, ◌+ℤ◌, ◌*ℤ◌, ◌∷◌, ℕ, ℤ, [], List, get_or, negsuc, pos};
ghost use Rattle.whole_numbers.specs.Affine.{value_of};
ghost use Rattle.integer_sets.specs.Constraints.{Constraints};
ghost use Rattle.iteration_domains.specs.Related.{Relates};
ghost use Rattle.iteration_domains.specs.declared.dep.DepEnd.{DepEnd};
ghost use Rattle.farkas.specs.Claims.{claimed};
ghost use Rattle.farkas.specs.Meaning.{Bounds, IsTaken, Keeps, phi};
ghost use Rattle.farkas.specs.Unknowns.{AreOf, Shows, Unknowns, layout_of, numbers_of, places};
ghost use Rattle.farkas.specs.declared.claim.Claim.TheVariants.{Legality};
ghost use Rattle.contract_callers.specs.Worked.{end, every_other_turn, next_turn, turn};

use farkas::{claimed_forms_are_distances, unknowns_stand_by_the_layout};

/// Of one statement `u`, `w`, the coefficient and the shift stand in this order. Rows that (0, w, 1, 0) alone satisfies
/// keep the dependence, by the definition `Keeps` of `farkas`, and those of (0, 1, 1, 0) bound it, by `Bounds`; no rows
/// that (0, 0, 1, 0) satisfies do.
pub fn each_turn_to_the_next()
    ensures keeps { (t : Constraints) (w : ℤ)
        → ((numbers : List ℤ) → IsTaken t numbers → numbers ≡ pos 0 ∷ w ∷ pos 1 ∷ pos 0 ∷ [])
        → Keeps (end 1) (end 1) next_turn t }
    ensures bounds { (t : Constraints)
        → ((numbers : List ℤ) → IsTaken t numbers → numbers ≡ pos 0 ∷ pos 1 ∷ pos 1 ∷ pos 0 ∷ [])
        → Bounds (end 1) (end 1) next_turn t }
    ensures unbounded { (t : Constraints) → IsTaken t (pos 0 ∷ pos 0 ∷ pos 1 ∷ pos 0 ∷ [])
        → Bounds (end 1) (end 1) next_turn t → ⊥ }
{}

/// From the second statement of a text to the first, whose numbers come first: no rows that (0, 0, 1, 0, 2, 0)
/// satisfies keep the dependence, by `Keeps`, since 2 i is more than i + 1 at i = 2.
pub fn a_target_that_falls_behind()
    ensures { (t : Constraints) → IsTaken t (pos 0 ∷ pos 0 ∷ pos 1 ∷ pos 0 ∷ pos 2 ∷ pos 0 ∷ [])
        → Keeps (end 2) (end 1) next_turn t → ⊥ }
{}

/// With the quotient bound that `i = 2 q + 2` says, even turns from 2 on are related to the next, by the definition
/// `Relates` of `iteration_domains`; not turn 0, whose quotient is less than 0, nor an odd one, which has none.
pub fn each_even_turn_to_the_next()
    ensures even { (q : ℕ) → Relates [] every_other_turn (turn (pos (2 + (q + q)))) (turn (pos (3 + (q + q)))) }
    ensures below { (y : ℤ) → Relates [] every_other_turn (turn (pos 0)) (turn y) → ⊥ }
    ensures odd { (y : ℤ) → Relates [] every_other_turn (turn (pos 5)) (turn y) → ⊥ }
{}

/// The legality form of two loops without parameters is the target's row less the source's, whatever quotient is bound,
/// by the clause of `claimed_forms_are_distances`.
pub fn distances_of_two_loops()
    ensures { (numbers : List ℤ) (i j q : ℤ)
        → value_of (claimed Legality (end 2) (end 1) 1 0 numbers) (i ∷ j ∷ q ∷ [])
        ≡ (pos 0 *ℤ (pos 0 +ℤ get_or numbers 0 (pos 0)))
        +ℤ ((negsuc 0 *ℤ phi numbers 3 1 (i ∷ [])) +ℤ (pos 1 *ℤ phi numbers 1 1 (j ∷ []))) }
{
    claimed_forms_are_distances();
}

/// Where the numbers of each statement begin, by `one`, `source_first` and `target_first` of
/// `unknowns_stand_by_the_layout`; and the list of the unknowns shows them, by `unknowns`.
pub fn layouts_of_one_loop_each()
    ensures one { layout_of 1 (end 1) (end 1) ≡ places 4 2 2 }
    ensures source_first { layout_of 1 (end 1) (end 2) ≡ places 6 2 4 }
    ensures target_first { layout_of 1 (end 2) (end 1) ≡ places 6 4 2 }
    ensures unknowns { (source target : DepEnd) (x : Unknowns) → AreOf 0 source target x
        → Shows 0 source target (layout_of 0 source target) (numbers_of source target x) x }
{
    unknowns_stand_by_the_layout();
}
