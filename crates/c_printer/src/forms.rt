//! The forms of an emitted text.

ghost use Rattle.std.specs.Prelude.{◌≡◌, ◌++◌, ◌+ℤ◌, ◌*ℤ◌, pos, drop, take, get_or, map, IfOk, OnOk};
ghost use Rattle.whole_numbers.specs.Affine.{form_of};
ghost use Rattle.whole_numbers.specs.Lists.{multiples, sums};
ghost use Rattle.form_text.specs.Forms.{form_text};
ghost use Rattle.c_printer.specs.Forms.{iterator_form, spread, tree_form_text, turned};

use form_text::{put_constant, put_term};
use scop_syntax::{Aff, Loop, Name, zeros};
use std::alloc::{AllocError, Global};

/// Puts a form with these coefficients, one for each name, and this constant.
#[tactic(auto, using(form_text::proofs::PutTexts::putting), unfolding(form_text::specs::Forms::form_text))]
pub fn put_form(
    out: &mut Vec<u8>,
    names: &[Name],
    coefficients: &[i64],
    constant: i64,
) -> Result<(), AllocError>
    ensures { OnOk result (out.new.items
        ≡ out.old.items ++ form_text (map (λ n. n.items) names.now) (form_of coefficients.now constant)) }
{
    let mut front = true;
    for at in 0..names.len() {
        if at >= coefficients.len() {
            return put_constant(out, front, i128::from(constant));
        }
        match put_term(out, front, i128::from(coefficients[at]), &names[at]) {
            Ok(next) => front = next,
            Err(_) => return Err(AllocError),
        }
    }
    put_constant(out, front, i128::from(constant))
}

/// A list's entries up to a place, and those behind it.
fn parts(numbers: &[i64], at: usize) -> (&[i64], &[i64])
    ensures front { result.0.now ≡ take at numbers.now }
    ensures back { result.1.now ≡ drop at numbers.now }
{
    if at > numbers.len() {
        return (numbers, &[]);
    }
    numbers.split_at(at)
}

/// The coefficients of a form of the tree in the order of the text.
pub fn turned(alloc: Global, loops: usize, coefficients: &[i64]) -> Result<Vec<i64>, AllocError>
    ensures { IfOk result (λ v. v.items ≡ turned loops coefficients.now) }
{
    let (front, back) = parts(coefficients, loops);
    let mut all = Vec::from_slice(alloc, back)?;
    all.extend_from_slice(front)?;
    Ok(all)
}

/// The coefficients of a form of the source in the order of the text.
pub fn spread(
    alloc: Global,
    parameters: usize,
    loops: usize,
    coefficients: &[i64],
) -> Result<Vec<i64>, AllocError>
    ensures { IfOk result (λ v. v.items ≡ spread parameters loops coefficients.now) }
{
    let (front, back) = parts(coefficients, parameters);
    let mut all = Vec::from_slice(alloc, front)?;
    let zeros = zeros(alloc, loops)?;
    all.extend_from_slice(&zeros)?;
    all.extend_from_slice(back)?;
    Ok(all)
}

/// The sums of entries and the others times the factor.
fn with_multiples(
    alloc: Global,
    entries: &[i64],
    factor: i64,
    others: &[i64],
) -> Result<Vec<i128>, AllocError>
    ensures { IfOk result (λ v. v.items ≡ sums entries.now (multiples factor others.now)) }
{
    let mut all = Vec::new(alloc);
    for at in 0..entries.len().max(others.len()) {
        let entry = with_multiple(entry_at(entries, at), factor, entry_at(others, at));
        match all.push(entry) {
            Ok(()) => {}
            Err(_) => return Err(AllocError),
        }
    }
    Ok(all)
}

/// The entry at a place, 0 behind the last.
fn entry_at(numbers: &[i64], at: usize) -> i64
    ensures { result ≡ get_or numbers.now at (pos 0) }
{
    if at < numbers.len() { numbers[at] } else { 0 }
}

/// A number plus another times a factor.
fn with_multiple(number: i64, factor: i64, other: i64) -> i128
    ensures { result ≡ number +ℤ (factor *ℤ other) }
{
    i128::from(number) + i128::from(factor) * i128::from(other)
}

/// Puts a form of the tree.
pub fn put_tree_form(
    alloc: Global,
    out: &mut Vec<u8>,
    names: &[Name],
    loops: usize,
    form: &Aff,
) -> Result<(), AllocError>
    ensures { OnOk result (out.new.items
        ≡ out.old.items ++ tree_form_text (map (λ n. n.items) names.now) loops form.now) }
{
    let coefficients = turned(alloc, loops, &form.coefficients)?;
    put_form(out, names, &coefficients, form.constant)
}

/// Puts the form of a source iterator at a turn of its loop.
pub fn put_iterator(
    alloc: Global,
    out: &mut Vec<u8>,
    names: &[Name],
    parameters: usize,
    loops: usize,
    head: &Loop,
    turn: &Aff,
) -> Result<(), AllocError>
    ensures { OnOk result (out.new.items ≡ out.old.items
        ++ form_text (map (λ n. n.items) names.now) (iterator_form parameters loops head.now turn.now)) }
{
    let first = spread(alloc, parameters, loops, &head.first.coefficients)?;
    let turns = turned(alloc, loops, &turn.coefficients)?;
    let coefficients = with_multiples(alloc, &first, head.stride, &turns)?;
    let constant = with_multiple(head.first.constant, head.stride, turn.constant);
    form_text::put_form(out, names, &coefficients, constant)
}
