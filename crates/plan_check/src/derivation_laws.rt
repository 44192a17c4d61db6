//! What derivations show.
ghost use Rattle.std.specs.Prelude.{length, ◌≡◌, ◌≤ℤ◌, All, Bool, List, Ok, false, pos, true, ℤ, ℕ};
ghost use Rattle.whole_numbers.specs.Affine.{Affine, value_of};
ghost use Rattle.affine_forms.specs.Parts.{variables_of};
ghost use Rattle.plan_check.specs.Derivations.{AreClosed, IsLine, Step, derived, is_own, pruned};

/// Where a derivation ends in a contradiction, at no whole point all rows that it began with are at least 0.
pub fn derivations_leave_no_point()
    ensures { (n k : ℕ) (rows : List Affine) (steps : List Step) (point : List ℤ)
        → All (λ f. variables_of f ≡ n) rows → All IsLine steps → derived n k false rows steps ≡ Ok true
        → All (λ f. pos 0 ≤ℤ value_of f point) rows → ⊥ }
{}

/// A derivation stays one without the lines that no line that is kept names.
pub fn needless_lines_may_be_left_out()
    ensures { (n : ℕ) (rows : List Affine) (marks : List Bool) (steps : List Step)
        → derived n 0 false rows steps ≡ Ok true
        → AreClosed (length rows) (is_own (length rows)) marks steps
        → derived n 0 false rows (pruned (length rows) (length rows) (λ k. k) marks steps) ≡ Ok true }
{}
