//! Places of rows: those of the tightest rows, and those whose coefficient of a variable has a sign.
ghost use Rattle.std.specs.Prelude.{◌≡◌, ◌++◌, [], IfOk, OnOk};
ghost use Rattle.fractions.specs.Elimination.{coefficient_of};
ghost use Rattle.fm_projection.specs.Tightest.{are_parallel};
ghost use Rattle.plan_certificate.specs.Derivation.{chosen, row_of, size_at, tighter, with_place, with_places};
ghost use Rattle.plan_certificate.specs.steps.Places.{one_if, parallel_place, test_of};

use affine_forms::{Form, push};
use std::alloc::{AllocError, Global};

/// What is asked of a coefficient.
#[derive(Clone, Copy)]
pub enum Sign {
    Above,
    Below,
    Zero,
}

/// The coefficients of the row at a place.
fn coefficients_at(rows: &[Form], place: usize) -> &[i128]
    ensures { result.now ≡ (row_of rows.now place).coefficients }
{
    match rows.get(place) {
        None => &[],
        Some(row) => row.coefficients(),
    }
}

/// The constant of the row at a place.
fn constant_at(rows: &[Form], place: usize) -> i128
    ensures { result ≡ (row_of rows.now place).constant }
{
    match rows.get(place) {
        None => 0,
        Some(row) => row.constant(),
    }
}

/// The coefficient of a variable in the row at a place.
fn coefficient_at(rows: &[Form], place: usize, variable: usize) -> i128
    ensures { result ≡ coefficient_of variable (row_of rows.now place) }
{
    match coefficients_at(rows, place).get(variable) {
        None => 0,
        Some(coefficient) => *coefficient,
    }
}

/// That coefficient without its sign.
pub fn size_at(rows: &[Form], place: usize, variable: usize) -> u128
    ensures { result ≡ size_at variable rows.now place }
{
    coefficient_at(rows, place, variable).unsigned_abs()
}

/// Whether the rows at two places have the same coefficients.
fn are_parallel(rows: &[Form], place: usize, other: usize) -> bool
    ensures { result ≡ are_parallel (row_of rows.now place) (row_of rows.now other) }
{
    coefficients_at(rows, place) == coefficients_at(rows, other)
}

/// The place of the row with the less constant, the first where they are equal.
fn tighter(rows: &[Form], place: usize, other: usize) -> usize
    ensures { result ≡ tighter rows.now place other }
{
    if constant_at(rows, other) < constant_at(rows, place) {
        other
    } else {
        place
    }
}

/// How many places stand before the first whose row has the coefficients of another.
fn parallel_place(rows: &[Form], places: &[usize], other: usize) -> usize
    ensures { result ≡ parallel_place rows.now other places.now }
{
    for at in 0..places.len() {
        if are_parallel(rows, places[at], other) {
            return at;
        }
    }
    places.len()
}

/// One place more: behind the others, or where one has its coefficients, the tighter of the two there.
fn put(rows: &[Form], places: &mut Vec<usize>, place: usize) -> Result<(), AllocError>
    ensures { OnOk result (places.new.items ≡ with_place rows.now places.old.items place) }
{
    let at = parallel_place(rows, places, place);
    if at >= places.len() {
        return push(places, place);
    }
    places[at] = tighter(rows, places[at], place);
    Ok(())
}

/// Of places whose rows have the same coefficients that of the tightest alone.
pub fn tightest(alloc: Global, rows: &[Form], places: &[usize]) -> Result<Vec<usize>, AllocError>
    ensures { IfOk result (λ v. v.items ≡ with_places rows.now [] places.now) }
{
    let mut out = Vec::new(alloc);
    for at in 0..places.len() {
        match put(rows, &mut out, places[at]) {
            Err(error) => return Err(error),
            Ok(()) => {}
        }
    }
    Ok(out)
}

/// Whether a coefficient has the sign.
fn passes(sign: Sign, coefficient: i128) -> bool
    ensures { result ≡ test_of sign coefficient }
{
    match sign {
        Sign::Above => coefficient > 0,
        Sign::Below => coefficient < 0,
        Sign::Zero => coefficient == 0,
    }
}

/// A place more, if it stays.
fn push_if(out: &mut Vec<usize>, place: usize, stays: bool) -> Result<(), AllocError>
    ensures { OnOk result (out.new.items ≡ out.old.items ++ one_if stays place) }
{
    if stays {
        return push(out, place);
    }
    Ok(())
}

/// The places of the rows whose coefficient of a variable has the sign.
pub fn chosen(
    alloc: Global,
    sign: Sign,
    variable: usize,
    rows: &[Form],
    places: &[usize],
) -> Result<Vec<usize>, AllocError>
    ensures { IfOk result (λ v. v.items ≡ chosen (test_of sign) variable rows.now places.now) }
{
    let mut out = Vec::new(alloc);
    for at in 0..places.len() {
        let stays = passes(sign, coefficient_at(rows, places[at], variable));
        match push_if(&mut out, places[at], stays) {
            Err(error) => return Err(error),
            Ok(()) => {}
        }
    }
    Ok(out)
}
