//! Callers of forms: a sum, a multiple and a substitution; and of the law of dot products. Each call stops as its run
//! does, by its clause `run`; has the exact constant, by `entries`, and the exact value at a point, by `value`; and
//! takes no memory where it has at most eight variables, by `memory`.
ghost use Rattle.std.specs.Prelude.{◌≡◌, ◌≢◌, ◌+ℤ◌, ◌*ℤ◌, ◌-◌, ◌^◌, ◌<◌, ◌≤◌, ◌∷◌, [], Err, IfOk};
ghost use Rattle.std.specs.Prelude.{length, pos, slice_set};
ghost use Rattle.whole_numbers.specs.Affine.{value_of};
ghost use Rattle.wide_math.specs.Checked.{wide};
ghost use Rattle.wide_math.specs.declared.Op.TheVariants.{Add, Mul};
ghost use Rattle.wide_math.specs.declared.Wide.{Wide};
ghost use Rattle.affine_forms.specs.Parts.{variables_of, coefficient_of};
ghost use Rattle.affine_forms.specs.Runs.{dot_run, plus_run, scaled_run, substitute_run};
ghost use Rattle.affine_forms.specs.declared.stop.FormStop.TheVariants as stop;

use affine_forms::{Form, FormStop, dot_products_stop_at_the_first_wide_number};

/// A sum, by the clauses of `Form::plus`.
pub fn sum_at(first: &Form, second: &Form, point: &[i128]) -> Result<Form, FormStop>
    requires variables { variables_of second.now ≡ variables_of first.now }
    requires point { length point.now ≡ variables_of first.now }
    ensures run { (wide : Wide) → result ≡ Err (stop.Wide wide) → plus_run first.now second.now ≡ Err wide }
    ensures entries { IfOk result (λ sum. sum.constant ≡ first.now.constant +ℤ second.now.constant) }
    ensures value { IfOk result
        (λ sum. value_of sum point.now ≡ value_of first.now point.now +ℤ value_of second.now point.now) }
    ensures memory { variables_of first.now ≤ 8 → result ≢ Err stop.NoMemory }
{
    first.plus(second)
}

/// A multiple, by the clauses of `Form::scaled`.
pub fn multiple_at(form: &Form, factor: i128, point: &[i128]) -> Result<Form, FormStop>
    requires { length point.now ≡ variables_of form.now }
    ensures run { (wide : Wide) → result ≡ Err (stop.Wide wide) → scaled_run factor form.now ≡ Err wide }
    ensures entries { IfOk result (λ multiple. multiple.constant ≡ factor *ℤ form.now.constant) }
    ensures value { IfOk result (λ multiple. value_of multiple point.now ≡ factor *ℤ value_of form.now point.now) }
    ensures memory { variables_of form.now ≤ 8 → result ≢ Err stop.NoMemory }
{
    form.scaled(factor)
}

/// A substitution, by the clauses of `Form::substitute`.
pub fn substitution_at(
    form: &Form,
    variable: usize,
    inner: &Form,
    point: &[i128],
) -> Result<Form, FormStop>
    requires variable { variable < variables_of form.now }
    requires inner { variables_of inner.now ≡ variables_of form.now }
    requires point { length point.now ≡ variables_of form.now }
    ensures run { (wide : Wide) → result ≡ Err (stop.Wide wide)
        → substitute_run form.now variable inner.now ≡ Err wide }
    ensures entries { IfOk result (λ outer. outer.constant
        ≡ form.now.constant +ℤ (coefficient_of form.now variable *ℤ inner.now.constant)) }
    ensures value { IfOk result (λ outer. value_of outer point.now
        ≡ value_of form.now (slice_set point.now variable (value_of inner.now point.now))) }
    ensures memory { variables_of form.now ≤ 8 → result ≢ Err stop.NoMemory }
{
    form.substitute(variable, inner)
}

/// (1, 2^64) times (5, 2^64) stops at the second product, (1, 1) times (2^127 - 1, 1) at the second sum and nowhere
/// else, and (1, 2) times (3, 4) does not stop, by the clause of `dot_products_stop_at_the_first_wide_number`.
pub fn first_wide_numbers()
    ensures product { dot_run (pos 1 ∷ pos (2 ^ 64) ∷ []) (pos 5 ∷ pos (2 ^ 64) ∷ [])
        ≡ Err (wide Mul (pos (2 ^ 64)) (pos (2 ^ 64))) }
    ensures sum { dot_run (pos 1 ∷ pos 1 ∷ []) (pos (2 ^ 127 - 1) ∷ pos 1 ∷ [])
        ≡ Err (wide Add (pos (2 ^ 127 - 1)) (pos 1)) }
    ensures only { (w : Wide) → dot_run (pos 1 ∷ pos 1 ∷ []) (pos (2 ^ 127 - 1) ∷ pos 1 ∷ []) ≡ Err w
        → w ≡ wide Add (pos (2 ^ 127 - 1)) (pos 1) }
    ensures none { (w : Wide) → dot_run (pos 1 ∷ pos 2 ∷ []) (pos 3 ∷ pos 4 ∷ []) ≡ Err w → ⊥ }
{
    dot_products_stop_at_the_first_wide_number();
}
