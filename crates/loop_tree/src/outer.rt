//! Values of forms at a node. The values of the loops round it stand in a chain on the call stack, so that a walk of
//! any depth takes no memory. Where forms are asked for, those of the innermost loops are laid in a row first, once for
//! all forms of a node. Sums of products are exact: each of them fits by the calls' conditions.
ghost use Rattle.std.specs.Prelude.{◌≡◌, ◌≤◌, ◌+ℤ◌, ◌*ℤ◌, ◌++◌, ◌∷◌, [], drop, length, pos};
ghost use Rattle.whole_numbers.specs.Affine.{value_of};
ghost use Rattle.whole_numbers.specs.Lists.{dot};
ghost use Rattle.loop_tree.specs.Fits.{FormFits, SumsFit};
ghost use Rattle.loop_tree.specs.steps.Chain.{values_at, values_in};

use scop_syntax::Aff;

/// The values of the loops round a node: all in a row, or those round a loop and the loop's own.
#[derive(Drop)]
pub enum Outer<'a> {
    Row(&'a [i128]),
    Within(&'a Outer<'a>, i128),
}

/// How many values of innermost loops a row has room for.
pub(crate) const MOST_IN_ROW: usize = 12;

/// The same values: those of a chain, and those of the loops within in a row.
#[derive(Drop)]
pub struct Point<'a> {
    chain: &'a Outer<'a>,
    row: &'a [i128],
}

/// What is left of a chain, and the place in a row from which on the values of the others lie.
#[derive(Drop)]
struct Laid<'a> {
    chain: &'a Outer<'a>,
    start: usize,
}

/// A sum of products, and the coefficients that are left.
#[derive(Drop)]
struct Part<'a> {
    sum: i128,
    rest: &'a [i64],
}

/// The numbers behind the first one.
#[inline]
fn behind_first(numbers: &[i64]) -> &[i64]
    ensures { result.now ≡ drop 1 numbers.now }
{
    match numbers.split_first() {
        None => numbers,
        Some((_, others)) => others,
    }
}

/// The sum with the product of a coefficient and a value; most coefficients are 0, and those are not multiplied.
#[inline]
fn with_product(sum: i128, coefficient: i64, value: i128) -> i128
    requires { SumsFit sum (coefficient ∷ []) (value ∷ []) }
    ensures { result ≡ sum +ℤ (coefficient *ℤ value) }
{
    if coefficient == 0 {
        return sum;
    }
    sum + coefficient as i128 * value
}

/// The sum with the product of the next coefficient, if there is one, and a value.
#[inline]
fn with_entry<'a>(sum: i128, coefficients: &'a [i64], value: i128) -> Part<'a>
    requires { SumsFit sum coefficients.now (value ∷ []) }
    ensures sum { result.sum ≡ sum +ℤ dot coefficients.now (value ∷ []) }
    ensures rest { result.rest.now ≡ drop 1 coefficients.now }
{
    match coefficients.split_first() {
        None => Part {
            sum,
            rest: coefficients,
        },
        Some((coefficient, rest)) => Part {
            sum: with_product(sum, *coefficient, value),
            rest,
        },
    }
}

/// The products of the first coefficients with the values of the loops.
fn outer_part<'a>(outer: &Outer, coefficients: &'a [i64]) -> Part<'a>
    requires { SumsFit (pos 0) coefficients.now (values_in outer.now) }
    ensures sum { result.sum ≡ dot coefficients.now (values_in outer.now) }
    ensures rest { result.rest.now ≡ drop (length (values_in outer.now)) coefficients.now }
{
    match outer {
        Outer::Row(values) => with_row(0, coefficients, values),
        Outer::Within(inner, value) => {
            let part = outer_part(inner, coefficients);
            with_entry(part.sum, part.rest, *value)
        }
    }
}

/// The numbers behind so many.
#[inline]
fn behind_some(numbers: &[i64], count: usize) -> &[i64]
    ensures { result.now ≡ drop count numbers.now }
{
    if numbers.len() <= count {
        return &[];
    }
    numbers.split_at(count).1
}

/// The numbers behind the first ones, of which there is one for each of these loops.
pub(crate) fn behind<'a>(outer: &Outer, numbers: &'a [i64]) -> &'a [i64]
    ensures { result.now ≡ drop (length (values_in outer.now)) numbers.now }
{
    match outer {
        Outer::Row(values) => behind_some(numbers, values.len()),
        Outer::Within(inner, _) => behind_first(behind(inner, numbers)),
    }
}

/// Lays values of innermost loops into a row, as many as it has room for.
#[inline]
fn lay<'a>(outer: &'a Outer<'a>, row: &mut [i128]) -> Laid<'a>
    ensures start { result.start ≤ length row.new }
    ensures values { values_in result.chain.now ++ drop result.start row.new ≡ values_in outer.now }
{
    let mut at = outer;
    let mut start = row.len();
    while let Outer::Within(inner, value) = at {
        if start == 0 {
            return Laid { chain: at, start };
        }
        start -= 1;
        row[start] = *value;
        at = inner;
    }
    Laid { chain: at, start }
}

/// The values of the loops, of which some are laid into a row.
#[inline]
pub(crate) fn point_in<'a>(outer: &'a Outer<'a>, row: &'a mut [i128]) -> Point<'a>
    ensures { values_at result ≡ values_in outer.now }
{
    let laid = lay(outer, row);
    Point {
        chain: laid.chain,
        row: row.split_at(laid.start).1,
    }
}

/// The sum with the products of the next coefficients and the values of a row.
#[inline]
fn with_row<'a>(sum: i128, coefficients: &'a [i64], row: &[i128]) -> Part<'a>
    requires { SumsFit sum coefficients.now row.now }
    ensures sum { result.sum ≡ sum +ℤ dot coefficients.now row.now }
    ensures rest { result.rest.now ≡ drop (length row.now) coefficients.now }
{
    let mut sum = sum;
    let mut rest = coefficients;
    for value in row {
        let part = with_entry(sum, rest, *value);
        sum = part.sum;
        rest = part.rest;
    }
    Part { sum, rest }
}

/// The sum with the products of the next coefficients and the parameters.
#[inline]
fn with_params(sum: i128, coefficients: &[i64], params: &[i64]) -> i128
    requires { SumsFit sum coefficients.now params.now }
    ensures { result ≡ sum +ℤ dot coefficients.now params.now }
{
    let mut sum = sum;
    let mut rest = coefficients;
    for param in params {
        let part = with_entry(sum, rest, *param as i128);
        sum = part.sum;
        rest = part.rest;
    }
    sum
}

/// The products of the first coefficients with the values of all loops.
#[inline]
fn loops_part<'a>(point: &Point, coefficients: &'a [i64]) -> Part<'a>
    requires { SumsFit (pos 0) coefficients.now (values_at point.now) }
    ensures sum { result.sum ≡ dot coefficients.now (values_at point.now) }
    ensures rest { result.rest.now ≡ drop (length (values_at point.now)) coefficients.now }
{
    let part = outer_part(point.chain, coefficients);
    with_row(part.sum, part.rest, point.row)
}

/// The value of a form within these loops, for these parameters.
#[inline]
pub fn value_at(form: &Aff, point: &Point, params: &[i64]) -> i128
    requires { FormFits form.now (values_at point.now ++ params.now) }
    ensures { result ≡ value_of form.now (values_at point.now ++ params.now) }
{
    let part = loops_part(point, form.coefficients.as_slice());
    with_params(part.sum, part.rest, params) + form.constant as i128
}
