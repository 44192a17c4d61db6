//! Callers of the laws of certificates' texts.
ghost use Rattle.std.specs.Prelude.{◌≡◌, ◌∷◌, ◌≤ℤ◌, All, List, Ok, Some, [], false, length, pos, suc, true, ℕ, ℤ};
ghost use Rattle.whole_numbers.specs.Affine.{Affine, value_of};
ghost use Rattle.form_text.specs.View.{saturated};
ghost use Rattle.scop_lexer.specs.Bytes.{Text};
ghost use Rattle.scop_syntax.specs.Tree.{Program};
ghost use Rattle.plan_check.specs.Derivations.{IsLine, Step, derived, is_own, pruned};
ghost use Rattle.plan_check.specs.FirstFaults.{IsFirstFault};
ghost use Rattle.plan_check.specs.Judged.{Rejected, SaysPlan, judged};
ghost use Rattle.plan_check.specs.Plans.{Plan};
ghost use Rattle.plan_check.specs.Printed.{goal_text};
ghost use Rattle.plan_check.specs.Text.{goal, said_in};
ghost use Rattle.plan_check.specs.declared.kinds.FaultKind.TheVariants.{Goal};

use plan_check::{
    derivations_leave_no_point, lines_are_read_where_they_are_printed,
    needless_lines_may_be_left_out, rejections_are_the_first, texts_say_one_plan,
};

/// A text has one first fault, and none where it is accepted.
pub fn first_faults_are_unique()
    ensures one { (program : Program) (text : Text) (r s : Rejected) → IsFirstFault program text r
        → IsFirstFault program text s → r ≡ s }
    ensures none { (program : Program) (text : Text) (r : Rejected) → judged program text ≡ Ok true
        → IsFirstFault program text r → ⊥ }
{
    rejections_are_the_first();
}

/// A fault that is not Goal stands behind the lines that were taken, by `line` of `rejections_are_the_first`.
pub fn other_faults_are_at_the_next_line()
    ensures { (program : Program) (text : Text) (r : Rejected) → (f : IsFirstFault program text r)
        → (r.kind ≡ Goal → ⊥) → r.line ≡ suc (length f.before) }
{
    rejections_are_the_first();
}

/// Two plans of one text are one.
pub fn plans_of_a_text_are_one()
    ensures { (program : Program) (text : Text) (a b : Plan) → SaysPlan program text a → SaysPlan program text b
        → b ≡ a }
{
    texts_say_one_plan();
}

/// A line that says a goal is a printed one, by `read` of `lines_are_read_where_they_are_printed`.
pub fn lines_of_goals_are_printed()
    ensures { (loops : List ℕ) (line : Text) (g : ℕ) → said_in loops line ≡ Some (goal g)
        → (h : ℕ) × (line ≡ goal_text h) × (g ≡ saturated h) }
{
    lines_are_read_where_they_are_printed();
}

/// A row over one variable from which a derivation comes to a contradiction is nowhere at least 0, by the clause of
/// `derivations_leave_no_point`.
pub fn refuted_rows_hold_nowhere()
    ensures { (row : Affine) (steps : List Step) (x : ℤ) → length row.coefficients ≡ 1 → All IsLine steps
        → derived 1 0 false (row ∷ []) steps ≡ Ok true → pos 0 ≤ℤ value_of row (x ∷ []) → ⊥ }
{
    derivations_leave_no_point();
}

/// The first of two steps may be left out where the second names rows alone that the derivation began with, by the
/// clause of `needless_lines_may_be_left_out`.
pub fn a_first_step_that_none_names_may_be_left_out()
    ensures { (n : ℕ) (rows : List Affine) (first second : Step)
        → derived n 0 false rows (first ∷ second ∷ []) ≡ Ok true
        → All (λ t. is_own (length rows) t.row ≡ true) second.terms
        → derived n 0 false rows
        (pruned (length rows) (length rows) (λ k. k) (false ∷ true ∷ []) (first ∷ second ∷ [])) ≡ Ok true }
{
    needless_lines_may_be_left_out();
}
