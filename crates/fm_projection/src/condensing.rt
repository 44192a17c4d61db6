//! A system with the same points and fewer rows: by its equalities, and without what others say.

ghost use Rattle.std.specs.Prelude.{◌≡◌, [], IfOk, OnOk, not, ◌&&◌};
ghost use Rattle.fractions.specs.Elimination.{is_negative, is_zero};
ghost use Rattle.fm_projection.specs.Condensed.{cleared, cleared_by, first_place, is_constant, condensed};
ghost use Rattle.fm_projection.specs.Condensed.{with_cleared, with_equalities, with_equality, with_told};

use crate::rows::{coefficient, reduced};
use crate::tightest::put;
use affine_forms::{Form, FormStop, push};
use integer_sets::System;
use std::alloc::{AllocError, Global};

/// How many numbers stand before the first other than 0.
fn first_place(numbers: &[i128]) -> usize
    ensures { result ≡ first_place numbers.now }
{
    for at in 0..numbers.len() {
        if numbers[at] != 0 {
            return at;
        }
    }
    numbers.len()
}

/// Puts an equality's value of its first variable in the place of that; where a number on the way is too wide, or the
/// forms are over other variables, the form stays.
fn clear(form: &mut Form, equality: &Form) -> Result<(), AllocError>
    ensures { OnOk result (form.new ≡ cleared equality.now form.old) }
{
    if form.variables() != equality.variables() {
        return Ok(());
    }
    let variable = first_place(equality.coefficients());
    if variable >= equality.variables() {
        return Ok(());
    }
    if coefficient(form, variable) == 0 {
        return Ok(());
    }
    match reduced(equality, form, variable) {
        Err(FormStop::NoMemory) => Err(AllocError),
        Err(FormStop::Wide(_)) => Ok(()),
        Ok(next) => {
            *form = next;
            Ok(())
        }
    }
}

/// A copy of a form, cleared by each of the equalities, in order.
fn cleared_by(equalities: &[Form], form: &Form) -> Result<Form, AllocError>
    ensures { IfOk result (λ f. f ≡ cleared_by equalities.now form.now) }
{
    let mut own = match form.copy() {
        Err(_) => return Err(AllocError),
        Ok(own) => own,
    };
    for equality in equalities {
        clear(&mut own, equality)?;
    }
    Ok(own)
}

/// Whether a form has no variable.
fn is_constant(form: &Form) -> bool
    ensures { result ≡ is_constant form.now }
{
    form.coefficients().iter().all(|number| *number == 0)
}

/// Whether an equality says nothing: it is 0 = 0.
fn is_nothing(form: &Form) -> bool
    ensures { result ≡ is_constant form.now && is_zero form.now.constant }
{
    is_constant(form) && form.constant() == 0
}

/// Whether a row holds everywhere: it has no variable, and is not negative.
fn holds_everywhere(form: &Form) -> bool
    ensures { result ≡ is_constant form.now && not (is_negative form.now.constant) }
{
    is_constant(form) && form.constant() >= 0
}

/// An equality more, cleared by those before it, unless it says nothing.
fn put_equality(equalities: &mut Vec<Form>, form: &Form) -> Result<(), AllocError>
    ensures { OnOk result (equalities.new.items
        ≡ with_equality equalities.old.items (cleared_by equalities.old.items form.now)) }
{
    let own = cleared_by(equalities, form)?;
    if is_nothing(&own) {
        return Ok(());
    }
    push(equalities, own)
}

/// A row more, cleared by the equalities, unless it holds everywhere.
fn put_row(rows: &mut Vec<Form>, equalities: &[Form], form: &Form) -> Result<(), AllocError>
    ensures { OnOk result (rows.new.items ≡ with_told rows.old.items (cleared_by equalities.now form.now)) }
{
    let own = cleared_by(equalities, form)?;
    if holds_everywhere(&own) {
        return Ok(());
    }
    put(rows, &own)
}

/// Equalities, each cleared by all before it.
fn own_equalities(alloc: Global, forms: &[Form]) -> Result<Vec<Form>, AllocError>
    ensures { IfOk result (λ v. v.items ≡ with_equalities [] forms.now) }
{
    let mut out = Vec::new(alloc);
    for form in forms {
        put_equality(&mut out, form)?;
    }
    Ok(out)
}

/// Rows, each cleared by the equalities; of those with the same coefficients the tightest.
fn own_rows(alloc: Global, equalities: &[Form], forms: &[Form]) -> Result<Vec<Form>, AllocError>
    ensures { IfOk result (λ v. v.items ≡ with_cleared equalities.now [] forms.now) }
{
    let mut out = Vec::new(alloc);
    for form in forms {
        put_row(&mut out, equalities, form)?;
    }
    Ok(out)
}

/// The system with the same points in which an equality's first variable stands in no later equality and in no row, but
/// where its value there is too wide; nothing is left that holds everywhere, and of rows with the same coefficients the
/// tightest.
///
/// # Errors
/// `AllocError` alone.
#[tactic(auto, unfolding(crate::specs::Condensed::own_equalities, crate::specs::Condensed::own_rows))]
pub fn condensed(alloc: Global, system: &System) -> Result<System, AllocError>
    ensures { IfOk result (λ s. s ≡ condensed system.now) }
{
    let equalities = own_equalities(alloc, system.equalities())?;
    let rows = own_rows(alloc, &equalities, system.rows())?;
    Ok(System::from_parts(system.dimensions(), system.parameters(), equalities, rows))
}
