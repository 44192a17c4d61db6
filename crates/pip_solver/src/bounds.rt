//! The parameters that cuts have bound, and the one that a form and a divisor have bound before.
ghost use Rattle.std.specs.Prelude.{◌≡◌, ◌≤◌, ◌⊎◌, [], ◌∷◌, ◌++◌, IfOk, OnOk, OnErr};
ghost use Rattle.checked_tableau.specs.Nodes.{same_list, is_bound_as, place_of};

use crate::parts::all_zero;
use affine_forms::Form;
use std::alloc::{AllocError, Global};
use std::marker::Model;

/// A parameter that a cut has bound: the quotient of a form by a divisor, at its place among the parameters.
#[derive(Drop)]
pub struct Bound {
    pub form: Form,
    pub divisor: i128,
    pub place: usize,
}

impl Model for Bound {
    ghost use Rattle.checked_tableau.specs.Nodes.{Bound};

    ghost Value = { Bound };

    ghost view = { λ b. record { form = b.form; divisor = b.divisor; place = b.place } };
}

/// The lesser of two numbers.
fn lesser(a: usize, b: usize) -> usize
    ensures first { result ≤ a }
    ensures second { result ≤ b }
    ensures one { (a ≤ result) ⊎ (b ≤ result) }
{
    if a < b { a } else { b }
}

/// Whether two lists are equal, zeros at their ends left out.
fn same_list(xs: &[i128], ys: &[i128]) -> bool
    ensures { result ≡ same_list xs.now ys.now }
{
    let common = lesser(xs.len(), ys.len());
    for at in 0..common {
        if xs[at] != ys[at] {
            return false;
        }
    }
    let (_, xs_behind) = xs.split_at(common);
    let (_, ys_behind) = ys.split_at(common);
    all_zero(xs_behind) && all_zero(ys_behind)
}

/// Whether the parameter is the quotient of this form by this divisor.
fn is_bound_as(form: &Form, divisor: i128, bound: &Bound) -> bool
    ensures { result ≡ is_bound_as form.now divisor bound.now }
{
    same_list(bound.form.coefficients(), form.coefficients())
        && bound.form.constant() == form.constant()
        && bound.divisor == divisor
}

/// The place of the parameter that is the quotient of this form by this divisor, if there is one.
pub fn place_of(form: &Form, divisor: i128, bounds: &[Bound]) -> Option<usize>
    ensures { result ≡ place_of form.now divisor bounds.now }
{
    for bound in bounds {
        if is_bound_as(form, divisor, bound) {
            return Some(bound.place);
        }
    }
    None
}

/// Appends a copy of a bound.
fn push_copy(alloc: Global, bounds: &mut Vec<Bound>, bound: &Bound) -> Result<(), AllocError>
    ensures { OnOk result (bounds.new.items ≡ bounds.old.items ++ bound.now ∷ []) }
{
    let copy = match bound_of(alloc, &bound.form, bound.divisor, bound.place) {
        Err(error) => return Err(error),
        Ok(copy) => copy,
    };
    bounds.push(copy)?;
    Ok(())
}

/// A copy of each bound.
pub fn copied_bounds(alloc: Global, bounds: &[Bound]) -> Result<Vec<Bound>, AllocError>
    ensures { IfOk result (λ v. v.items ≡ bounds.now) }
{
    let mut all = match Vec::with_capacity(alloc, bounds.len()) {
        Err(error) => return Err(error),
        Ok(all) => all,
    };
    for bound in bounds {
        match push_copy(alloc, &mut all, bound) {
            Err(error) => return Err(error),
            Ok(()) => {}
        }
    }
    Ok(all)
}

/// The bound of a parameter at a place: the quotient of a form by a divisor.
fn bound_of(alloc: Global, form: &Form, divisor: i128, place: usize) -> Result<Bound, AllocError>
    ensures { IfOk result (λ b. b ≡ record { form = form.now; divisor = divisor; place = place }) }
{
    match form.copy() {
        Err(_) => Err(AllocError),
        Ok(form) => Ok(Bound {
            form,
            divisor,
            place,
        }),
    }
}

/// Puts the bound of a parameter at a place in front: the quotient of a form by a divisor.
pub fn bind_front(
    alloc: Global,
    bounds: &mut Vec<Bound>,
    form: &Form,
    divisor: i128,
    place: usize,
) -> Result<(), AllocError>
    ensures bound { OnOk result (bounds.new.items
        ≡ record { form = form.now; divisor = divisor; place = place } ∷ bounds.old.items) }
    ensures stays { OnErr result (bounds.new.items ≡ bounds.old.items) }
{
    let bound = match bound_of(alloc, form, divisor, place) {
        Err(error) => return Err(error),
        Ok(bound) => bound,
    };
    match bounds.insert(0, bound) {
        Err(_) => Err(AllocError),
        Ok(()) => Ok(()),
    }
}
