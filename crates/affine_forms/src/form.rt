//! An affine form over whole variables: a coefficient for each variable, and a constant.
//! Each call answers the exact form or value, or the first number on its way that does not fit
//! 128 bits.

ghost use Rattle.std.specs.Prelude.{◌≡◌, ◌≢◌, ℤ, neg_ℤ, ◌<◌, ◌≤◌, All, Result, Ok, Err, IfOk, IsOk, length};
ghost use Rattle.wide_math.specs.Affine.{value_of, sum_of_forms, multiple_of_form, substituted, composed, form_of};
ghost use Rattle.wide_math.specs.Lists.{zeros};
ghost use Rattle.affine_forms.specs.Parts.{variables_of, coefficient_of, without_variable};
ghost use Rattle.affine_forms.specs.Runs.{value_run, plus_run, scaled_run, plus_multiple_run};
ghost use Rattle.affine_forms.specs.Runs.{plus_combination_run, substitute_run, compose_run, forms_sum_run};
ghost use Rattle.affine_forms.specs.Runs.{forms_difference_run};
ghost use Rattle.wide_math.specs.Content.{lowest_of_form};
ghost use Rattle.affine_forms.specs.Runs.{combined_run};
ghost use Rattle.affine_forms.specs.InPlace.{CombinesAs};
ghost use Rattle.affine_forms.specs.Gives.{Gives};
ghost use Rattle.wide_math.specs.declared.Wide.{Wide};
ghost use Rattle.wide_math.specs.Gives.{Becomes};
ghost use Rattle.affine_forms.specs.Values.{IsSum, IsMultiple, IsSubstitution, IsComposition};
ghost use Rattle.affine_forms.specs.declared.form.TheConstants.{INLINE};
ghost use Rattle.affine_forms.specs.declared.stop.FormStop.TheVariants.{NoMemory};

use crate::row;
use crate::stop::FormStop;
use smallvec::SmallVec;
use std::alloc::Global;
use std::marker::Model;
use wide_math::{Wide, add, cross, cross_sum, mul};

/// How many coefficients lie in the value itself; more lie in an allocation.
pub const INLINE: usize = 8;

/// An affine form. The calls that make one take memory only past `INLINE` coefficients.
#[derive(Debug, Drop)]
pub struct Form {
    coefficients: SmallVec<i128, INLINE>,
    constant: i128,
}

impl Model for Form {
    ghost use Rattle.wide_math.specs.Affine.{Affine, form_of};

    ghost Value = { Affine };

    ghost view = { λ f. form_of f.coefficients.items f.constant };
}

impl Form {
    /// The form with these coefficients and this constant.
    ///
    /// # Errors
    /// `NoMemory` alone.
    pub fn of(alloc: Global, coefficients: &[i128], constant: i128) -> Result<Form, FormStop>
        ensures form { Gives (λ f. f) result (Ok (form_of coefficients.now constant)) }
        ensures memory { length coefficients.now ≤ INLINE → IsOk result }
    {
        match SmallVec::from_slice(alloc, coefficients) {
            Ok(coefficients) => Ok(Form {
                coefficients,
                constant,
            }),
            Err(_) => Err(FormStop::NoMemory),
        }
    }

    /// The coefficients, one for each variable.
    pub fn coefficients(&self) -> &[i128]
        ensures { result.now ≡ self.now.coefficients }
    {
        self.coefficients.as_slice()
    }

    /// The constant.
    pub fn constant(&self) -> i128
        ensures { result ≡ self.now.constant }
    {
        self.constant
    }

    /// How many variables the form speaks of.
    pub fn variables(&self) -> usize
        ensures { result ≡ variables_of self.now }
    {
        self.coefficients.len()
    }

    /// The same form again.
    ///
    /// # Errors
    /// `NoMemory` alone.
    pub fn copy(&self) -> Result<Form, FormStop>
        ensures form { Gives (λ f. f) result (Ok self.now) }
        ensures memory { variables_of self.now ≤ INLINE → IsOk result }
    {
        Form::of(
            *self.coefficients.allocator(),
            self.coefficients.as_slice(),
            self.constant,
        )
    }

    /// The value at a point.
    ///
    /// # Errors
    /// `Wide` names the first product or partial sum that 128 bits do not hold: the partial sums
    /// start at 0, take the coefficients in order and then the constant. Takes no memory.
    #[tactic(auto, unfolding(crate::specs::Runs::value_run))]
    pub fn value_at(&self, point: &[i128]) -> Result<i128, FormStop>
        requires { length point.now ≡ variables_of self.now }
        ensures run { Gives (λ v. v) result (value_run self.now point.now) }
        ensures value { IfOk result (λ v. v ≡ value_of self.now point.now) }
        ensures memory { result ≢ Err NoMemory }
    {
        match row::dot(self.coefficients.as_slice(), point) {
            Err(wide) => Err(FormStop::Wide(wide)),
            Ok(sum) => match add(sum, self.constant) {
                Err(wide) => Err(FormStop::Wide(wide)),
                Ok(value) => Ok(value),
            },
        }
    }

    /// The sum of two forms over the same variables.
    ///
    /// # Errors
    /// `Wide` names the first sum that 128 bits do not hold: the coefficients in order, then the
    /// constant.
    pub fn plus(&self, other: &Form) -> Result<Form, FormStop>
        requires { variables_of other.now ≡ variables_of self.now }
        ensures run { Gives (λ f. f) result (plus_run self.now other.now) }
        ensures entries { IfOk result (λ f. f ≡ sum_of_forms self.now other.now) }
        ensures value { IfOk result (IsSum self.now other.now) }
        ensures memory { variables_of self.now ≤ INLINE → result ≢ Err NoMemory }
    {
        self.combined(
            other,
            &|x: i128, y: i128| -> Result<i128, Wide> { add(x, y) },
        )
    }

    /// The form times `factor`.
    ///
    /// # Errors
    /// `Wide` names the first product, of `factor` and a number of the form, that 128 bits do not
    /// hold: the coefficients in order, then the constant.
    pub fn scaled(&self, factor: i128) -> Result<Form, FormStop>
        ensures run { Gives (λ f. f) result (scaled_run factor self.now) }
        ensures entries { IfOk result (λ f. f ≡ multiple_of_form factor self.now) }
        ensures value { IfOk result (IsMultiple factor self.now) }
        ensures memory { variables_of self.now ≤ INLINE → result ≢ Err NoMemory }
    {
        match self.copy() {
            Err(stop) => Err(stop),
            Ok(mut product) => match product.multiply(factor) {
                Err(wide) => Err(FormStop::Wide(wide)),
                Ok(()) => Ok(product),
            },
        }
    }

    /// The form with `form` in place of a variable: this form with 0 as its coefficient of the
    /// variable, plus that coefficient times `form`.
    ///
    /// # Errors
    /// `Wide` names the first number that 128 bits do not hold: for each coefficient in order, then
    /// for the constant, the product first, then the sum.
    #[tactic(auto, unfolding(crate::specs::Runs::substitute_run))]
    pub fn substitute(&self, variable: usize, form: &Form) -> Result<Form, FormStop>
        requires variable { variable < variables_of self.now }
        requires form { variables_of form.now ≡ variables_of self.now }
        ensures run { Gives (λ f. f) result (substitute_run self.now variable form.now) }
        ensures entries { IfOk result (λ f. f ≡ substituted variable self.now form.now) }
        ensures value { IfOk result (IsSubstitution self.now variable form.now) }
        ensures memory { variables_of self.now ≤ INLINE → result ≢ Err NoMemory }
    {
        match self.copy() {
            Err(stop) => Err(stop),
            Ok(mut result) => {
                let factor = result.take_coefficient(variable);
                match result.add_scaled(factor, form) {
                    Err(wide) => Err(FormStop::Wide(wide)),
                    Ok(()) => Ok(result),
                }
            }
        }
    }

    /// `a` times this form plus `b` times another over the same variables.
    ///
    /// # Errors
    /// `Wide` names the first number that 128 bits do not hold: for each coefficient in order, then
    /// for the constant, the two products come first, then their sum.
    pub fn sum_of_multiples(&self, a: i128, b: i128, other: &Form) -> Result<Form, FormStop>
        requires { variables_of other.now ≡ variables_of self.now }
        ensures run { Gives (λ f. f) result (forms_sum_run a self.now b other.now) }
        ensures entries { IfOk result
            (λ f. f ≡ sum_of_forms (multiple_of_form a self.now) (multiple_of_form b other.now)) }
        ensures memory { variables_of self.now ≤ INLINE → result ≢ Err NoMemory }
    {
        self.combined(
            other,
            &|x: i128, y: i128| -> Result<i128, Wide> { cross_sum(a, x, b, y) },
        )
    }

    /// `a` times this form less `b` times another over the same variables.
    ///
    /// # Errors
    /// `Wide` names the first number that 128 bits do not hold: for each coefficient in order, then
    /// for the constant, the two products come first, then their difference.
    pub fn difference_of_multiples(&self, a: i128, b: i128, other: &Form) -> Result<Form, FormStop>
        requires { variables_of other.now ≡ variables_of self.now }
        ensures run { Gives (λ f. f) result (forms_difference_run a self.now b other.now) }
        ensures entries { IfOk result
            (λ f. f ≡ sum_of_forms (multiple_of_form a self.now) (multiple_of_form (neg_ℤ b) other.now)) }
        ensures memory { variables_of self.now ≤ INLINE → result ≢ Err NoMemory }
    {
        self.combined(
            other,
            &|x: i128, y: i128| -> Result<i128, Wide> { cross(a, x, b, y) },
        )
    }

    /// Puts the form into lowest terms: divides each number by the greatest common divisor of all.
    pub fn lower(&mut self)
        ensures { self.new ≡ lowest_of_form self.old }
    {
        let content = row::content(self.constant.unsigned_abs(), self.coefficients.as_slice());
        if content > 1 {
            row::divide_row(self.coefficients.as_mut_slice(), content);
            self.constant = row::quotient(self.constant, content);
        }
    }

    /// The form over `variables` variables that puts `inner`'s forms, in order, in place of this
    /// form's variables.
    ///
    /// # Errors
    /// `Wide` names the first number that 128 bits do not hold: from zeros and this form's constant
    /// on, each inner form in order is added times its coefficient; for each of its numbers, the
    /// coefficients in order and then the constant, the product comes first, then the sum.
    #[tactic(auto, unfolding(crate::specs::Runs::compose_run))]
    pub fn compose(&self, inner: &[Form], variables: usize) -> Result<Form, FormStop>
        requires inner { length inner.now ≡ variables_of self.now }
        requires variables { All (λ g. variables_of g ≡ variables) inner.now }
        ensures run { Gives (λ f. f) result (compose_run self.now inner.now variables) }
        ensures entries { IfOk result (λ f. f ≡ composed self.now inner.now variables) }
        ensures size { IfOk result (λ f. variables_of f ≡ variables) }
        ensures value { IfOk result (IsComposition self.now inner.now variables) }
        ensures memory { variables ≤ INLINE → result ≢ Err NoMemory }
    {
        let alloc = *self.coefficients.allocator();
        match Form::constant_of(alloc, variables, self.constant) {
            Err(stop) => Err(stop),
            Ok(mut sum) => match sum.add_combination(self.coefficients.as_slice(), inner) {
                Err(wide) => Err(FormStop::Wide(wide)),
                Ok(()) => Ok(sum),
            },
        }
    }
}

/// The changes in place that the calls above are made of. A form that one fails on is not used again.
impl Form {
    /// The form over `variables` variables that is `constant` everywhere.
    fn constant_of(alloc: Global, variables: usize, constant: i128) -> Result<Form, FormStop>
        ensures form { Gives (λ f. f) result (Ok (form_of (zeros variables) constant)) }
        ensures memory { variables ≤ INLINE → IsOk result }
    {
        match SmallVec::from_elem(alloc, 0, variables) {
            Ok(coefficients) => Ok(Form {
                coefficients,
                constant,
            }),
            Err(_) => Err(FormStop::NoMemory),
        }
    }

    /// Takes out the coefficient of a variable, and leaves 0 there.
    fn take_coefficient(&mut self, variable: usize) -> i128
        requires { variable < variables_of self.old }
        ensures taken { result ≡ coefficient_of self.old variable }
        ensures rest { self.new ≡ without_variable self.old variable }
    {
        let coefficient = self.coefficients[variable];
        self.coefficients[variable] = 0;
        coefficient
    }

    /// Puts what `step` makes of the two numbers at each place there: the coefficients in order, then the constant.
    fn combine<F: Fn(i128, i128) -> Result<i128, Wide>>(
        &mut self,
        other: &Form,
        step: &F,
    ) -> Result<(), Wide>
        requires variables { variables_of other.now ≡ variables_of self.old }
        requires callable { F.IsAlwaysCallable step.now }
        ensures { (run : ℤ → ℤ → Result ℤ Wide) → CombinesAs (F.post step.now) run
            → Becomes self.new result (combined_run run self.old other.now) }
    {
        match row::zip_in_place(
            self.coefficients.as_mut_slice(),
            other.coefficients.as_slice(),
            step,
        ) {
            Err(wide) => return Err(wide),
            Ok(()) => {}
        }
        match step(self.constant, other.constant) {
            Err(wide) => Err(wide),
            Ok(constant) => {
                self.constant = constant;
                Ok(())
            }
        }
    }

    /// A copy, combined with another form.
    fn combined<F: Fn(i128, i128) -> Result<i128, Wide>>(
        &self,
        other: &Form,
        step: &F,
    ) -> Result<Form, FormStop>
        requires variables { variables_of other.now ≡ variables_of self.now }
        requires callable { F.IsAlwaysCallable step.now }
        ensures run { (run : ℤ → ℤ → Result ℤ Wide) → CombinesAs (F.post step.now) run
            → Gives (λ f. f) result (combined_run run self.now other.now) }
        ensures memory { variables_of self.now ≤ INLINE → result ≢ Err NoMemory }
    {
        match self.copy() {
            Err(stop) => Err(stop),
            Ok(mut form) => match form.combine(other, step) {
                Err(wide) => Err(FormStop::Wide(wide)),
                Ok(()) => Ok(form),
            },
        }
    }

    #[tactic(auto, unfolding(crate::specs::Runs::scaled_run))]
    fn multiply(&mut self, factor: i128) -> Result<(), Wide>
        ensures { Becomes self.new result (scaled_run factor self.old) }
    {
        match row::map_in_place(
            self.coefficients.as_mut_slice(),
            |x: i128| -> Result<i128, Wide> { mul(factor, x) },
        ) {
            Err(wide) => return Err(wide),
            Ok(()) => {}
        }
        match mul(factor, self.constant) {
            Err(wide) => Err(wide),
            Ok(constant) => {
                self.constant = constant;
                Ok(())
            }
        }
    }

    #[tactic(auto, unfolding(crate::specs::Runs::plus_multiple_run))]
    fn add_scaled(&mut self, factor: i128, other: &Form) -> Result<(), Wide>
        requires { variables_of other.now ≡ variables_of self.old }
        ensures { Becomes self.new result (plus_multiple_run self.old factor other.now) }
    {
        self.combine(
            other,
            &|x: i128, y: i128| -> Result<i128, Wide> { row::multiply_add(x, factor, y) },
        )
    }

    /// Adds each of `forms`, in order, times the factor at its place.
    fn add_combination(&mut self, factors: &[i128], forms: &[Form]) -> Result<(), Wide>
        requires factors { length forms.now ≡ length factors.now }
        requires forms { All (λ g. variables_of g ≡ variables_of self.old) forms.now }
        ensures { Becomes self.new result (plus_combination_run self.old factors.now forms.now) }
    {
        for at in 0..forms.len() {
            match self.add_scaled(factors[at], &forms[at]) {
                Err(wide) => return Err(wide),
                Ok(()) => {}
            }
        }
        Ok(())
    }
}
