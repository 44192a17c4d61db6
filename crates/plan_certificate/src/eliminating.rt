//! One variable after another is eliminated by pairs of rows.
ghost use Rattle.std.specs.Prelude.{◌≡◌, ◌*◌, ◌/◌, All, OnOk, nat_lt};
ghost use Rattle.whole_numbers.specs.Content.{gcd_of};
ghost use Rattle.affine_forms.specs.Parts.{variables_of};
ghost use Rattle.plan_certificate.specs.Derivation.{all_eliminated, eliminated, eliminated_by, pair, paired, pairs};
ghost use Rattle.plan_certificate.specs.Derivation.{pairs_with};
ghost use Rattle.plan_certificate.specs.steps.States.{Comes, Grows, going_on, paired_places, state_of};

use crate::places::{Sign, chosen, size_at, tightest};
use crate::rows::{Move, Rows, held_times, with_terms};
use fm_projection::MOST_PAIRS;
use std::alloc::{AllocError, Global};
use wide_math::gcd_of_sizes;

/// At most so many pairs are made where a variable is eliminated.
const MOST: usize = MOST_PAIRS as usize;

/// The quotient; 0 where the divisor is 0.
fn share(number: u128, divisor: u128) -> u128
    ensures { result ≡ number / divisor }
{
    if divisor == 0 { 0 } else { number / divisor }
}

/// The greatest common divisor.
fn common(a: u128, b: u128) -> u128
    ensures { result ≡ gcd_of a b }
{
    gcd_of_sizes(a, b)
}

/// Two rows, each as often as the other's coefficient says, by the least such numbers. Each place stands with the size of
/// its row's coefficient.
fn with_pair(
    alloc: Global,
    variables: usize,
    rows: &mut Rows,
    first: (usize, u128),
    second: (usize, u128),
) -> Result<Move, AllocError>
    requires sized { All (λ f. variables_of f ≡ variables) rows.old.rows.items }
    ensures comes { Comes result rows.new
        (paired variables first.0 second.0 first.1 (state_of rows.old) second.1) }
    ensures grows { OnOk result (Grows variables rows.old.rows.items rows.new.rows.items) }
{
    let (place, a) = first;
    let (other, b) = second;
    let divisor = common(a, b);
    match held_times(place, share(b, divisor)) {
        Err(error) => Err(error),
        Ok(None) => Ok(Move::Passed),
        Ok(Some(one)) => match held_times(other, share(a, divisor)) {
            Err(error) => Err(error),
            Ok(None) => Ok(Move::Passed),
            Ok(Some(two)) => with_terms(alloc, variables, rows, &[one, two]),
        },
    }
}

/// The pair of the rows at two places.
fn with_both(
    alloc: Global,
    variables: usize,
    rows: &mut Rows,
    variable: usize,
    place: usize,
    other: usize,
) -> Result<Move, AllocError>
    requires sized { All (λ f. variables_of f ≡ variables) rows.old.rows.items }
    ensures comes { Comes result rows.new (pair variables variable place other (state_of rows.old)) }
    ensures grows { OnOk result (Grows variables rows.old.rows.items rows.new.rows.items) }
{
    let a = size_at(&rows.rows, place, variable);
    let b = size_at(&rows.rows, other, variable);
    with_pair(alloc, variables, rows, (place, a), (other, b))
}

/// A row with each of others.
fn with_each(
    alloc: Global,
    variables: usize,
    rows: &mut Rows,
    variable: usize,
    place: usize,
    below: &[usize],
) -> Result<Move, AllocError>
    requires sized { All (λ f. variables_of f ≡ variables) rows.old.rows.items }
    ensures comes { Comes result rows.new (pairs_with variables variable place below.now (state_of rows.old)) }
    ensures grows { OnOk result (Grows variables rows.old.rows.items rows.new.rows.items) }
{
    for at in 0..below.len() {
        match with_both(alloc, variables, rows, variable, place, below[at]) {
            Err(error) => return Err(error),
            Ok(Move::Ended) => return Ok(Move::Ended),
            Ok(Move::Passed) => return Ok(Move::Passed),
            Ok(Move::Goes) => {}
        }
    }
    Ok(Move::Goes)
}

/// Each row with each of others.
fn with_all(
    alloc: Global,
    variables: usize,
    rows: &mut Rows,
    variable: usize,
    above: &[usize],
    below: &[usize],
) -> Result<Move, AllocError>
    requires sized { All (λ f. variables_of f ≡ variables) rows.old.rows.items }
    ensures comes { Comes result rows.new (pairs variables variable above.now below.now (state_of rows.old)) }
    ensures grows { OnOk result (Grows variables rows.old.rows.items rows.new.rows.items) }
{
    for at in 0..above.len() {
        match with_each(alloc, variables, rows, variable, above[at], below) {
            Err(error) => return Err(error),
            Ok(Move::Ended) => return Ok(Move::Ended),
            Ok(Move::Passed) => return Ok(Move::Passed),
            Ok(Move::Goes) => {}
        }
    }
    Ok(Move::Goes)
}

/// Whether more pairs would be made than may be.
fn are_many(above: usize, below: usize) -> bool
    ensures { result ≡ nat_lt 4096 (above * below) }
{
    match above.checked_mul(below) {
        None => true,
        Some(pairs) => pairs > MOST,
    }
}

/// The pairs of rows at these places, if they are not too many, where others go on.
fn with_others(
    alloc: Global,
    variables: usize,
    rows: &mut Rows,
    variable: usize,
    above: &[usize],
    below: &[usize],
    others: Vec<usize>,
) -> Result<Move, AllocError>
    requires sized { All (λ f. variables_of f ≡ variables) rows.old.rows.items }
    ensures comes { Comes result rows.new
        (paired_places variables variable above.now below.now (going_on (state_of rows.old) others.items)) }
    ensures grows { OnOk result (Grows variables rows.old.rows.items rows.new.rows.items) }
{
    if are_many(above.len(), below.len()) {
        return Ok(Move::Passed);
    }
    rows.going = others;
    with_all(alloc, variables, rows, variable, above, below)
}

/// The elimination of a variable from rows at these places: the rows without it stay in front.
fn eliminate_at(
    alloc: Global,
    variables: usize,
    rows: &mut Rows,
    variable: usize,
    places: &[usize],
) -> Result<Move, AllocError>
    requires sized { All (λ f. variables_of f ≡ variables) rows.old.rows.items }
    ensures comes { Comes result rows.new (eliminated_by variables variable places.now (state_of rows.old)) }
    ensures grows { OnOk result (Grows variables rows.old.rows.items rows.new.rows.items) }
{
    let above = chosen(alloc, Sign::Above, variable, &rows.rows, places)?;
    let below = chosen(alloc, Sign::Below, variable, &rows.rows, places)?;
    let others = chosen(alloc, Sign::Zero, variable, &rows.rows, places)?;
    with_others(alloc, variables, rows, variable, &above, &below, others)
}

/// The elimination of a variable, of rows with the same coefficients the tightest alone being in it.
fn eliminate(
    alloc: Global,
    variables: usize,
    rows: &mut Rows,
    variable: usize,
) -> Result<Move, AllocError>
    requires sized { All (λ f. variables_of f ≡ variables) rows.old.rows.items }
    ensures comes { Comes result rows.new (eliminated variables variable (state_of rows.old)) }
    ensures grows { OnOk result (Grows variables rows.old.rows.items rows.new.rows.items) }
{
    let places = tightest(alloc, &rows.rows, &rows.going)?;
    eliminate_at(alloc, variables, rows, variable, &places)
}

/// The elimination of all variables, in order.
pub fn eliminate_all(alloc: Global, variables: usize, rows: &mut Rows) -> Result<Move, AllocError>
    requires sized { All (λ f. variables_of f ≡ variables) rows.old.rows.items }
    ensures { Comes result rows.new (all_eliminated variables 0 variables (state_of rows.old)) }
{
    for variable in 0..variables {
        match eliminate(alloc, variables, rows, variable) {
            Err(error) => return Err(error),
            Ok(Move::Ended) => return Ok(Move::Ended),
            Ok(Move::Passed) => return Ok(Move::Passed),
            Ok(Move::Goes) => {}
        }
    }
    Ok(Move::Goes)
}
