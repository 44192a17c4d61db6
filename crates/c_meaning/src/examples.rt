//! Worked values of the small C, as contracts of functions that do nothing.
ghost use Rattle.std.specs.Prelude.{◌≡◌, ◌^◌, ◌-◌, [], ◌∷◌, Some, None, pos, negsuc, false};
ghost use Rattle.c_meaning.specs.Examples.{act, past_the_end, row_of, two_cells};
ghost use Rattle.c_meaning.specs.Expressions.{both, called, worth};
ghost use Rattle.c_meaning.specs.Runs.{MayDoAll, Outcome, performed};
ghost use Rattle.c_meaning.specs.Syntax.{below, ceild, choice, difference, name, number, opposite, quotient, sum};

/// What C leaves undefined has no value; what it does not evaluate is not looked at.
pub fn undefined_expressions_have_no_value()
    ensures large { worth [] (number (2 ^ 63)) ≡ None }
    ensures least { worth [] (difference (opposite (number (2 ^ 63 - 1))) (number 1)) ≡ Some (negsuc (2 ^ 63 - 1)) }
    ensures sum { worth (pos 1 ∷ []) (sum (number (2 ^ 63 - 1)) (name 0)) ≡ None }
    ensures int { worth [] (sum (number (2 ^ 31 - 1)) (number 1)) ≡ None }
    ensures zero { worth [] (quotient (number 1) (number 0)) ≡ None }
    ensures lazy { worth [] (choice below (number 0) (number 1) (number 2) (quotient (number 1) (number 0)))
        ≡ Some (pos 2) }
    ensures both { both (Some false) None ≡ Some false }
    ensures left { both None (Some false) ≡ None }
    ensures rounded { called ceild (pos 7) (pos 2) ≡ Some (pos 4) }
    ensures far { called ceild (pos (2 ^ 63 - 1)) (pos 2) ≡ None }
{}

/// Two iterations of a parallel loop in both orders: each has an iterator and a constant of its own, and either way both
/// cells are set. A cell beside its array is undefined, and so is an increment past the greatest number.
pub fn two_iterations_run_in_both_orders()
    ensures forward { MayDoAll two_cells [] (Some (act 0 ∷ act 1 ∷ [])) }
    ensures backward { MayDoAll two_cells [] (Some (act 1 ∷ act 0 ∷ [])) }
    ensures set { performed (row_of 2) (act 1 ∷ act 0 ∷ []) ((0 ∷ 0 ∷ []) ∷ []) ≡ Some ((7 ∷ 7 ∷ []) ∷ []) }
    ensures outside { performed (row_of 1) (act 1 ∷ []) ((0 ∷ []) ∷ []) ≡ None }
    ensures past { (o : Outcome) → MayDoAll past_the_end [] o → o ≡ None }
{}
