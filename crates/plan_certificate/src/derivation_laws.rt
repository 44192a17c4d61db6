//! What the determined derivation is worth.
ghost use Rattle.std.specs.Prelude.{◌≡◌, All, List, Ok, Some, false, true, ℕ};
ghost use Rattle.whole_numbers.specs.Affine.{Affine};
ghost use Rattle.affine_forms.specs.Parts.{variables_of};
ghost use Rattle.plan_check.specs.Derivations.{Step, derived};
ghost use Rattle.plan_certificate.specs.Derivation.{derivation};
ghost use Rattle.plan_certificate.specs.Written.{IsWritten};

/// A derivation is accepted by the checker, and its lines are such as are written: each divisor and each factor is at
/// least 1 and fits 128 bits, and each line has a term.
pub fn derivations_are_accepted()
    ensures derived { (n : ℕ) (rows : List Affine) (steps : List Step) → All (λ f. variables_of f ≡ n) rows
        → derivation n rows ≡ Some steps → derived n 0 false rows steps ≡ Ok true }
    ensures written { (n : ℕ) (rows : List Affine) (steps : List Step) → derivation n rows ≡ Some steps → All IsWritten steps }
{}
