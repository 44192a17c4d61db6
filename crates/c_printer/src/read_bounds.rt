//! Reads the bounds of loops in an emitted text.

ghost use Rattle.std.specs.Prelude.{◌≡◌, Some, None, map, IfOk};
ghost use Rattle.loop_tree.specs.Tree.{only};
ghost use Rattle.loop_tree.specs.View.{bounds_in};
ghost use Rattle.c_printer.specs.Reading.{divided_bound, read_bound, read_bounds, read_divisor};
ghost use Rattle.c_printer.specs.steps.View.{bound_in, bound_part, divisor_in, form_part, sides_in};
ghost use Rattle.c_printer.specs.steps.Reading.{all_bounds, chosen_bound, closed_bounds, last_bound};

use crate::part::{Read, push, strip_repeated};
use crate::read_forms::read_tree_form;
use form_text::{read_number, strip};
use loop_tree::{Bound, Bounds};
use scop_syntax::{Aff, Name};
use std::alloc::{AllocError, Global};

/// The divisor in front of a text, at least 1.
#[tactic(auto, unfolding(crate::specs::Reading::read_divisor))]
pub fn read_divisor<'a>(text: &'a [u8]) -> Option<Read<'a, i64>>
    ensures { divisor_in result ≡ read_divisor text.now }
{
    let (number, rest) = read_number(text);
    if number == 0 {
        return None;
    }
    match i64::try_from(number) {
        Ok(part) => Some(Read { part, rest }),
        Err(_) => None,
    }
}

/// The bound of a form, with the divisor behind it.
fn divided_bound<'a>(form: Read<'a, Aff>) -> Option<Read<'a, Bound>>
    ensures { bound_in result ≡ divided_bound (form_part form.entry) }
{
    let Some(behind) = strip(form.rest, b", ") else {
        return None;
    };
    let Some(divisor) = read_divisor(behind) else {
        return None;
    };
    let Some(rest) = strip(divisor.rest, b")") else {
        return None;
    };
    let part = Bound {
        form: form.part,
        divisor: divisor.part,
    };
    Some(Read { part, rest })
}

/// The bound in front of a text.
#[tactic(auto, unfolding(crate::specs::Reading::read_bound))]
fn read_bound<'a>(
    alloc: Global,
    divided: &[u8],
    parameters: usize,
    names: &[Name],
    text: &'a [u8],
) -> Result<Option<Read<'a, Bound>>, AllocError>
    ensures { IfOk result (λ r. bound_in r
        ≡ read_bound divided.now parameters (map (λ n. n.items) names.now) text.now) }
{
    match strip(text, divided) {
        Some(behind) => {
            let form = read_tree_form(alloc, parameters, names, behind)?;
            Ok(form.and_then(|form| divided_bound(form)))
        }
        None => {
            let form = read_tree_form(alloc, parameters, names, text)?;
            Ok(form.map(|form| Read {
                part: Bound {
                    form: form.part,
                    divisor: 1,
                },
                rest: form.rest,
            }))
        }
    }
}

/// A bound, behind which another stands.
fn chosen_bound<'a>(bound: Read<'a, Bound>) -> Option<Read<'a, Bound>>
    ensures { bound_in result ≡ chosen_bound (Some (bound_part bound.entry)) }
{
    match strip(bound.rest, b", ") {
        Some(rest) => Some(Read {
            part: bound.part,
            rest,
        }),
        None => None,
    }
}

/// The bound in front of a text, behind which another stands.
fn read_chosen<'a>(
    alloc: Global,
    divided: &[u8],
    parameters: usize,
    names: &[Name],
    text: &'a [u8],
) -> Result<Option<Read<'a, Bound>>, AllocError>
    ensures { IfOk result (λ r. bound_in r
        ≡ chosen_bound (read_bound divided.now parameters (map (λ n. n.items) names.now) text.now)) }
{
    match read_bound(alloc, divided, parameters, names, text) {
        Ok(Some(bound)) => Ok(chosen_bound(bound)),
        Ok(None) => Ok(None),
        Err(_) => Err(AllocError),
    }
}

/// Bounds and a last one.
fn bounds_of(mut bounds: Vec<Bound>, last: Bound) -> Result<Bounds, AllocError>
    ensures { IfOk result (λ b. bounds_in b ≡ all_bounds bounds.items (only last)) }
{
    if bounds.is_empty() {
        return Ok(Bounds {
            first: last,
            others: bounds,
        });
    }
    let first = bounds.remove(0);
    match bounds.push(last) {
        Ok(()) => Ok(Bounds {
            first,
            others: bounds,
        }),
        Err(_) => Err(AllocError),
    }
}

/// Bounds and a last one, and the parentheses that close the choices.
fn closed_bounds<'a>(
    bounds: Vec<Bound>,
    last: Read<'a, Bound>,
) -> Result<Option<Read<'a, Bounds>>, AllocError>
    ensures { IfOk result (λ r. sides_in r
        ≡ closed_bounds bounds.items (last_bound (Some (bound_part last.entry)))) }
{
    let Some(rest) = strip_repeated(last.rest, b")", bounds.len()) else {
        return Ok(None);
    };
    match bounds_of(bounds, last.part) {
        Ok(part) => Ok(Some(Read { part, rest })),
        Err(_) => Err(AllocError),
    }
}

/// Bounds, and a last one that stands in front of a text.
fn read_last<'a>(
    alloc: Global,
    bounds: Vec<Bound>,
    divided: &[u8],
    parameters: usize,
    names: &[Name],
    text: &'a [u8],
) -> Result<Option<Read<'a, Bounds>>, AllocError>
    ensures { IfOk result (λ r. sides_in r ≡ closed_bounds bounds.items
        (last_bound (read_bound divided.now parameters (map (λ n. n.items) names.now) text.now))) }
{
    match read_bound(alloc, divided, parameters, names, text) {
        Ok(Some(last)) => closed_bounds(bounds, last),
        Ok(None) => Ok(None),
        Err(_) => Err(AllocError),
    }
}

/// The bounds of one side, in so many steps.
pub fn read_bounds<'a>(
    alloc: Global,
    steps: usize,
    divided: &[u8],
    chosen: &[u8],
    parameters: usize,
    names: &[Name],
    text: &'a [u8],
) -> Result<Option<Read<'a, Bounds>>, AllocError>
    ensures { IfOk result (λ r. sides_in r
        ≡ read_bounds steps divided.now chosen.now parameters (map (λ n. n.items) names.now) text.now) }
{
    let mut bounds = Vec::new(alloc);
    let mut rest = text;
    for at in 0..steps {
        let Some(behind) = strip(rest, chosen) else {
            return read_last(alloc, bounds, divided, parameters, names, rest);
        };
        match read_chosen(alloc, divided, parameters, names, behind) {
            Ok(Some(bound)) => {
                match push(&mut bounds, bound.part) {
                    Ok(()) => {}
                    Err(_) => return Err(AllocError),
                }
                rest = bound.rest;
            }
            Ok(None) => return Ok(None),
            Err(_) => return Err(AllocError),
        }
    }
    Ok(None)
}
