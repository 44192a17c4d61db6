//! Reads the forms of an emitted text.

ghost use Rattle.std.specs.Prelude.{◌≡◌, ◌≤ℤ◌, ◌-ℤ◌, ◌^◌, ℤ, List, pos, map, option_map, take, IfOk};
ghost use Rattle.whole_numbers.specs.Affine.{Affine, form_of};
ghost use Rattle.whole_numbers.specs.Floor.{floor};
ghost use Rattle.form_text.specs.View.{nearest};
ghost use Rattle.c_printer.specs.steps.View.{form_in};
ghost use Rattle.c_printer.specs.steps.Reading.{form_from, narrow, narrow_list, turn_from};
ghost use Rattle.c_printer.specs.Reading.{narrowed, quotient, quotients, read_tree_form, read_turn};
ghost use Rattle.c_printer.specs.Reading.{turned_back};

use crate::forms::{spread, turned};
use crate::part::Read;
use form_text::{FormRead, read_form};
use scop_syntax::{Aff, Loop, Name};
use std::alloc::{AllocError, Global};
use wide_math::floor_div;

/// The number, where 64 bits hold it.
fn narrow(number: i128) -> Option<i64>
    ensures { result ≡ narrow number }
{
    match i64::try_from(number) {
        Ok(same) => Some(same),
        Err(_) => None,
    }
}

/// The numbers, where 64 bits hold each.
fn narrow_list(alloc: Global, numbers: &[i128]) -> Result<Option<Vec<i64>>, AllocError>
    ensures { IfOk result (λ r. option_map (λ v. v.items) r ≡ narrow_list numbers.now) }
{
    let mut all = Vec::new(alloc);
    for at in 0..numbers.len() {
        let Some(same) = narrow(numbers[at]) else {
            return Ok(None);
        };
        match all.push(same) {
            Ok(()) => {}
            Err(_) => return Err(AllocError),
        }
    }
    Ok(Some(all))
}

/// A number over a divisor, rounded down, where 64 bits hold it.
fn narrow_floor(number: i128, divisor: i128) -> Option<i64>
    requires { pos 1 ≤ℤ divisor }
    ensures { result ≡ narrow (floor number divisor) }
{
    match floor_div(number, divisor) {
        Ok(quotient) => narrow(quotient),
        Err(_) => None,
    }
}

/// A difference over a divisor, rounded down, where 64 bits hold it.
fn difference_over(greater: i128, less: i128, divisor: i128) -> Option<i64>
    requires low { pos 1 ≤ℤ divisor }
    requires high { divisor ≤ℤ pos (2 ^ 63) }
    ensures { result ≡ narrow (floor (greater -ℤ less) divisor) }
{
    match greater.checked_sub(less) {
        Some(difference) => narrow_floor(difference, divisor),
        None => None,
    }
}

/// What a number is above another, over a stride, where 64 bits hold it; the number is read as the nearest of 128 bits.
fn quotient(stride: i64, start: i64, number: i128) -> Option<i64>
    ensures { (z : ℤ) → number ≡ nearest z → result ≡ narrow (quotient stride (z -ℤ start)) }
{
    let by = i128::from(stride);
    let first = i128::from(start);
    if by > 0 {
        return difference_over(number, first, by);
    }
    if by < 0 {
        return difference_over(first, number, -by);
    }
    Some(0)
}

/// What numbers that were read so are above others, over a stride, up to so many, where 64 bits hold each.
fn quotients(
    alloc: Global,
    count: usize,
    stride: i64,
    starts: &[i64],
    numbers: &[i128],
) -> Result<Option<Vec<i64>>, AllocError>
    ensures { IfOk result (λ r. (zs : List ℤ) → numbers.now ≡ map nearest zs → option_map (λ v. v.items) r
        ≡ narrow_list (take count (quotients stride starts.now zs))) }
{
    let mut all = Vec::new(alloc);
    for at in 0..count {
        if at >= starts.len() {
            return Ok(Some(all));
        }
        if at >= numbers.len() {
            return Ok(Some(all));
        }
        let Some(turns) = quotient(stride, starts[at], numbers[at]) else {
            return Ok(None);
        };
        match all.push(turns) {
            Ok(()) => {}
            Err(_) => return Err(AllocError),
        }
    }
    Ok(Some(all))
}

/// A form of the tree of numbers in the order of the text, where there are such numbers.
fn form_from<'a>(
    alloc: Global,
    parameters: usize,
    coefficients: Option<Vec<i64>>,
    constant: Option<i64>,
    rest: &'a [u8],
) -> Result<Option<Read<'a, Aff>>, AllocError>
    ensures { IfOk result (λ r. form_in r
        ≡ form_from parameters (option_map (λ v. v.items) coefficients) constant rest.now) }
{
    let Some(numbers) = coefficients else {
        return Ok(None);
    };
    let Some(constant) = constant else {
        return Ok(None);
    };
    let coefficients = turned(alloc, parameters, &numbers)?;
    let part = Aff {
        coefficients,
        constant,
    };
    Ok(Some(Read { part, rest }))
}

/// A form of the tree, where 64 bits hold its numbers.
fn narrowed<'a>(
    alloc: Global,
    parameters: usize,
    coefficients: &[i128],
    constant: i128,
    rest: &'a [u8],
) -> Result<Option<Read<'a, Aff>>, AllocError>
    ensures { IfOk result (λ r. form_in r
        ≡ narrowed (form_of (turned_back parameters coefficients.now) constant) rest.now) }
{
    let numbers = narrow_list(alloc, coefficients)?;
    form_from(alloc, parameters, numbers, narrow(constant), rest)
}

/// The form of the tree in front of a text.
pub fn read_tree_form<'a>(
    alloc: Global,
    parameters: usize,
    names: &[Name],
    text: &'a [u8],
) -> Result<Option<Read<'a, Aff>>, AllocError>
    ensures { IfOk result (λ r. form_in r ≡ read_tree_form parameters (map (λ n. n.items) names.now) text.now) }
{
    match read_form(alloc, names, text) {
        Ok(
            Some(
                FormRead {
                    coefficients,
                    constant,
                    rest,
                },
            ),
        ) => narrowed(alloc, parameters, &coefficients, constant, rest),
        Ok(None) => Ok(None),
        Err(_) => Err(AllocError),
    }
}

/// The turn at which a loop's iterator has this form, where 64 bits hold its numbers.
fn turn_of<'a>(
    alloc: Global,
    parameters: usize,
    loops: usize,
    head: &Loop,
    coefficients: &[i128],
    constant: i128,
    rest: &'a [u8],
) -> Result<Option<Read<'a, Aff>>, AllocError>
    ensures { IfOk result (λ r. (form : Affine) → coefficients.now ≡ map nearest form.coefficients
        → constant ≡ nearest form.constant → form_in r ≡ turn_from parameters loops head.now form rest.now) }
{
    let starts = spread(alloc, parameters, loops, &head.first.coefficients)?;
    // no memory holds so many names
    let Some(count) = parameters.checked_add(loops) else {
        return Err(AllocError);
    };
    let turns = quotients(alloc, count, head.stride, &starts, coefficients)?;
    let turn = quotient(head.stride, head.first.constant, constant);
    form_from(alloc, parameters, turns, turn, rest)
}

/// The turn of a loop, from its iterator's form in front of a text.
#[tactic(auto, unfolding(crate::specs::Reading::read_turn))]
pub fn read_turn<'a>(
    alloc: Global,
    parameters: usize,
    loops: usize,
    names: &[Name],
    head: &Loop,
    text: &'a [u8],
) -> Result<Option<Read<'a, Aff>>, AllocError>
    ensures { IfOk result (λ r. form_in r
        ≡ read_turn parameters loops (map (λ n. n.items) names.now) head.now text.now) }
{
    match read_form(alloc, names, text) {
        Ok(
            Some(
                FormRead {
                    coefficients,
                    constant,
                    rest,
                },
            ),
        ) => turn_of(
            alloc,
            parameters,
            loops,
            head,
            &coefficients,
            constant,
            rest,
        ),
        Ok(None) => Ok(None),
        Err(_) => Err(AllocError),
    }
}
