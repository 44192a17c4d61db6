//! A system of affine constraints over whole variables: the points at which each equality is 0 and
//! each row is at least 0.

ghost use Rattle.std.specs.Prelude.{◌≡◌, ℤ, ◌+◌, ◌↔◌, All, IfOk, IsTrue, List, length};
ghost use Rattle.affine_forms.specs.Parts.{variables_of};
ghost use Rattle.affine_forms.specs.Runs.{value_run};
ghost use Rattle.integer_sets.specs.Constraints.{IsSized, intersection, system_of, variables_in};
ghost use Rattle.integer_sets.specs.Points.{Satisfies};
ghost use Rattle.integer_sets.specs.Runs.{holds_run, each_run, is_zero, is_not_negative};

use affine_forms::{Form, FormStop, Wide, copies, push_copies};
use std::alloc::{AllocError, Global};
use std::marker::Model;

/// A system of constraints over dimensions and, behind them, parameters.
#[derive(Debug, Drop)]
pub struct System {
    dimensions: usize,
    parameters: usize,
    equalities: Vec<Form>,
    rows: Vec<Form>,
}

impl Model for System {
    ghost use Rattle.std.specs.Prelude.{◌≡◌, ◌+◌, All};
    ghost use Rattle.affine_forms.specs.Parts.{variables_of};
    ghost use Rattle.integer_sets.specs.Constraints.{Constraints, IsSized, system_of};

    ghost Value = { Constraints };

    ghost view = { λ s. system_of s.dimensions s.parameters s.equalities.items s.rows.items };

    ghost invariant = { λ s. IsSized (s.dimensions + s.parameters) s.equalities.items s.rows.items };
}

impl System {
    /// The system of these equalities and rows.
    ///
    /// # Errors
    /// `AllocError` alone.
    pub fn of(
        alloc: Global,
        dimensions: usize,
        parameters: usize,
        equalities: &[Form],
        rows: &[Form],
    ) -> Result<System, AllocError>
        requires sized { IsSized (dimensions + parameters) equalities.now rows.now }
        ensures { IfOk result (λ s. s ≡ system_of dimensions parameters equalities.now rows.now) }
    {
        Ok(System {
            dimensions,
            parameters,
            equalities: copies(alloc, equalities)?,
            rows: copies(alloc, rows)?,
        })
    }

    /// The system of these equalities and rows, which it takes over.
    pub fn from_parts(
        dimensions: usize,
        parameters: usize,
        equalities: Vec<Form>,
        rows: Vec<Form>,
    ) -> System
        requires sized { IsSized (dimensions + parameters) equalities.items rows.items }
        ensures { result ≡ system_of dimensions parameters equalities.items rows.items }
    {
        System {
            dimensions,
            parameters,
            equalities,
            rows,
        }
    }

    /// The equalities and the rows, which it gives up.
    pub fn into_parts(self) -> (Vec<Form>, Vec<Form>)
        ensures equalities { result.0.items ≡ self.equalities }
        ensures rows { result.1.items ≡ self.rows }
        ensures sized { IsSized (variables_in self) result.0.items result.1.items }
    {
        (self.equalities, self.rows)
    }

    /// How many dimensions a point has.
    pub fn dimensions(&self) -> usize
        ensures { result ≡ self.now.dimensions }
    {
        self.dimensions
    }

    /// How many parameters stand behind the dimensions.
    pub fn parameters(&self) -> usize
        ensures { result ≡ self.now.parameters }
    {
        self.parameters
    }

    /// The forms that are 0.
    pub fn equalities(&self) -> &[Form]
        ensures forms { result.now ≡ self.now.equalities }
        ensures sized { All (λ f. variables_of f ≡ variables_in self.now) result.now }
    {
        self.equalities.as_slice()
    }

    /// The forms that are at least 0.
    pub fn rows(&self) -> &[Form]
        ensures forms { result.now ≡ self.now.rows }
        ensures sized { All (λ f. variables_of f ≡ variables_in self.now) result.now }
    {
        self.rows.as_slice()
    }

    /// The intersection with a system over the same dimensions and parameters: this system's
    /// constraints, then the other's.
    ///
    /// # Errors
    /// `AllocError` alone.
    pub fn and(&self, other: &System) -> Result<System, AllocError>
        requires dimensions { other.now.dimensions ≡ self.now.dimensions }
        requires parameters { other.now.parameters ≡ self.now.parameters }
        ensures constraints { IfOk result (λ s. s ≡ intersection self.now other.now) }
        ensures points { IfOk result (λ s. (point : List ℤ)
            → Satisfies s point ↔ (Satisfies self.now point × Satisfies other.now point)) }
    {
        let alloc = *self.rows.allocator();
        let mut both = System::of(
            alloc,
            self.dimensions,
            self.parameters,
            self.equalities.as_slice(),
            self.rows.as_slice(),
        )?;
        push_copies(&mut both.equalities, other.equalities.as_slice())?;
        push_copies(&mut both.rows, other.rows.as_slice())?;
        Ok(both)
    }

    /// Whether the point, dimensions and then parameters, satisfies each constraint. The equalities
    /// are tried in order, then the rows, up to the first that fails. Takes no memory.
    ///
    /// # Errors
    /// `Wide` where a constraint's value is wide and none before it fails.
    pub fn holds_at(&self, point: &[i128]) -> Result<bool, Wide>
        requires { length point.now ≡ variables_in self.now }
        ensures run { result ≡ holds_run self.now point.now }
        ensures law { IfOk result (λ holds. IsTrue holds ↔ Satisfies self.now point.now) }
    {
        match all_zero(self.equalities.as_slice(), point) {
            Err(wide) => Err(wide),
            Ok(false) => Ok(false),
            Ok(true) => all_not_negative(self.rows.as_slice(), point),
        }
    }
}

/// Whether each form is 0 at the point, tried in order up to the first that is not.
fn all_zero(forms: &[Form], point: &[i128]) -> Result<bool, Wide>
    requires { All (λ f. variables_of f ≡ length point.now) forms.now }
    ensures { result ≡ each_run is_zero forms.now point.now }
{
    for form in forms {
        match value_at(form, point) {
            Err(wide) => return Err(wide),
            Ok(0) => {}
            Ok(_) => return Ok(false),
        }
    }
    Ok(true)
}

/// Whether each form is at least 0 at the point, tried in order up to the first that is not.
fn all_not_negative(forms: &[Form], point: &[i128]) -> Result<bool, Wide>
    requires { All (λ f. variables_of f ≡ length point.now) forms.now }
    ensures { result ≡ each_run is_not_negative forms.now point.now }
{
    for form in forms {
        match value_at(form, point) {
            Err(wide) => return Err(wide),
            Ok(value) => {
                if value < 0 {
                    return Ok(false);
                }
            }
        }
    }
    Ok(true)
}

/// The form's value: a value takes no memory, so only `Wide` is left of its errors.
#[inline]
fn value_at(form: &Form, point: &[i128]) -> Result<i128, Wide>
    requires { length point.now ≡ variables_of form.now }
    ensures { result ≡ value_run form.now point.now }
{
    match form.value_at(point) {
        Ok(value) => Ok(value),
        Err(FormStop::Wide(wide)) => Err(wide),
        Err(FormStop::NoMemory) => unreachable!(),
    }
}
