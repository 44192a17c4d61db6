//! Where a loop starts and ends, and whether a guard lets pass, within loops and for parameters.
ghost use Rattle.std.specs.Prelude.{◌≡◌, ◌++◌, ◌*ℤ◌, ◌<ℤ◌, ◌≤ℤ◌, map, pos};
ghost use Rattle.std.specs.Int.Signed.{le_z};
ghost use Rattle.whole_numbers.specs.Affine.{value_of};
ghost use Rattle.whole_numbers.specs.Floor.{ceiling, floor, remainder};
ghost use Rattle.loop_tree.specs.steps.Chain.{values_at, values_in};
ghost use Rattle.loop_tree.specs.Fits.{BoundsFit, FormFits, Room, TestsFit, form_in};
ghost use Rattle.loop_tree.specs.Marks.{AreBounds, AreTests, IsTest};
ghost use Rattle.loop_tree.specs.Tree.{bounds_of};
ghost use Rattle.loop_tree.specs.View.{bounds_in, test_of};
ghost use Rattle.loop_tree.specs.Walk.{all_hold as tests_hold, holds, lower, max_z, min_z, upper};

use crate::outer::{MOST_IN_ROW, Outer, Point, point_in, value_at};
use crate::tree::{Bound, Loop, Test};

/// The greater of two numbers.
#[inline]
fn greater(a: i128, b: i128) -> i128
    ensures { result ≡ max_z a b }
{
    if a <= b { b } else { a }
}

/// The less of two numbers.
#[inline]
fn less(a: i128, b: i128) -> i128
    ensures { result ≡ min_z a b }
{
    if a <= b { a } else { b }
}

/// A number over a divisor, rounded down: the number itself over 1, and by 64 bits where they hold it, since a division
/// of 128 bits is a call.
#[inline]
fn floor_of(number: i128, divisor: i64) -> i128
    requires { pos 0 <ℤ divisor }
    ensures { result ≡ floor number divisor }
{
    if divisor == 1 {
        return number;
    }
    match i64::try_from(number) {
        Ok(narrow) => i128::from(narrow.div_euclid(divisor)),
        Err(_) => number.div_euclid(i128::from(divisor)),
    }
}

/// The same rounded up.
#[inline]
fn ceiling_of(number: i128, divisor: i64) -> i128
    requires divisor { pos 0 <ℤ divisor }
    requires room { Room number }
    ensures { result ≡ ceiling number divisor }
{
    -floor_of(-number, divisor)
}

/// What is left of a number of 64 bits by a divisor.
#[inline]
fn narrow_remainder(number: i64, divisor: i64) -> i64
    requires { pos 0 <ℤ divisor }
    ensures { result ≡ remainder number divisor }
{
    number.rem_euclid(divisor)
}

/// What is left of a wider one.
#[inline]
fn wide_remainder(number: i128, divisor: i128) -> i128
    requires { pos 0 <ℤ divisor }
    ensures { result ≡ remainder number divisor }
{
    number.rem_euclid(divisor)
}

/// What is left of a number by a divisor; by 64 bits where they hold it.
#[inline]
fn remainder_of(number: i128, divisor: i64) -> i128
    requires { pos 0 <ℤ divisor }
    ensures { result ≡ remainder number divisor }
{
    match i64::try_from(number) {
        Ok(narrow) => i128::from(narrow_remainder(narrow, divisor)),
        Err(_) => wide_remainder(number, i128::from(divisor)),
    }
}

/// Whether a number is a multiple of another.
#[inline]
fn is_multiple(number: i128, of: i64) -> bool
    requires { pos 0 <ℤ of }
    ensures { result ≡ le_z number (floor number of *ℤ of) }
{
    remainder_of(number, of) == 0
}

/// A lower bound's number.
#[inline]
fn ceiling_at(bound: &Bound, point: &Point, params: &[i64]) -> i128
    requires divisor { pos 0 <ℤ bound.now.divisor }
    requires fits { FormFits bound.now.form (values_at point.now ++ params.now) }
    ensures { result ≡ ceiling (value_of bound.now.form (values_at point.now ++ params.now)) bound.now.divisor }
{
    ceiling_of(value_at(&bound.form, point, params), bound.divisor)
}

/// An upper bound's number.
#[inline]
fn floor_at(bound: &Bound, point: &Point, params: &[i64]) -> i128
    requires divisor { pos 0 <ℤ bound.now.divisor }
    requires fits { FormFits bound.now.form (values_at point.now ++ params.now) }
    ensures { result ≡ floor (value_of bound.now.form (values_at point.now ++ params.now)) bound.now.divisor }
{
    floor_of(value_at(&bound.form, point, params), bound.divisor)
}

/// Where a loop with these lower bounds starts.
fn lower_at(first: &Bound, others: &[Bound], point: &Point, params: &[i64]) -> i128
    requires divisors { AreBounds (bounds_of first.now others.now) }
    requires fits { BoundsFit (bounds_of first.now others.now) (values_at point.now ++ params.now) }
    ensures { result ≡ lower (bounds_of first.now others.now) (values_at point.now ++ params.now) }
{
    let here = ceiling_at(first, point, params);
    match others.split_first() {
        None => here,
        Some((next, others)) => greater(here, lower_at(next, others, point, params)),
    }
}

/// Where a loop with these upper bounds ends.
fn upper_at(first: &Bound, others: &[Bound], point: &Point, params: &[i64]) -> i128
    requires divisors { AreBounds (bounds_of first.now others.now) }
    requires fits { BoundsFit (bounds_of first.now others.now) (values_at point.now ++ params.now) }
    ensures { result ≡ upper (bounds_of first.now others.now) (values_at point.now ++ params.now) }
{
    let here = floor_at(first, point, params);
    match others.split_first() {
        None => here,
        Some((next, others)) => less(here, upper_at(next, others, point, params)),
    }
}

/// Where a loop starts, and where it ends.
#[derive(Drop)]
pub struct Range {
    pub first: i128,
    pub last: i128,
}

/// The range of a loop within these.
pub fn range_at(head: &Loop, outer: &Outer, params: &[i64]) -> Range
    requires divisors { AreBounds (bounds_in head.now.lower) × AreBounds (bounds_in head.now.upper) }
    requires fits { BoundsFit (bounds_in head.now.lower) (values_in outer.now ++ params.now)
        × BoundsFit (bounds_in head.now.upper) (values_in outer.now ++ params.now) }
    ensures first { result.first ≡ lower (bounds_in head.now.lower) (values_in outer.now ++ params.now) }
    ensures last { result.last ≡ upper (bounds_in head.now.upper) (values_in outer.now ++ params.now) }
{
    let mut row = [0; MOST_IN_ROW];
    let point = point_in(outer, &mut row);
    Range {
        first: lower_at(&head.lower.first, &head.lower.others, &point, params),
        last: upper_at(&head.upper.first, &head.upper.others, &point, params),
    }
}

/// Whether a test holds.
#[inline]
fn holds_at(test: &Test, point: &Point, params: &[i64]) -> bool
    requires divisor { IsTest (test_of test.now) }
    requires fits { FormFits (form_in (test_of test.now)) (values_at point.now ++ params.now) }
    ensures { result ≡ holds (test_of test.now) (values_at point.now ++ params.now) }
{
    match test {
        Test::AtLeast(form) => 0 <= value_at(form, point, params),
        Test::Equal(form) => value_at(form, point, params) == 0,
        Test::Multiple(form, divisor) => is_multiple(value_at(form, point, params), *divisor),
    }
}

/// Whether all tests hold at a point.
#[inline]
fn hold_at(tests: &[Test], point: &Point, params: &[i64]) -> bool
    requires divisors { AreTests (map test_of tests.now) }
    requires fits { TestsFit (map test_of tests.now) (values_at point.now ++ params.now) }
    ensures { result ≡ tests_hold (map test_of tests.now) (values_at point.now ++ params.now) }
{
    for test in tests {
        if !holds_at(test, point, params) {
            return false;
        }
    }
    true
}

/// Whether all tests hold.
pub fn all_hold(tests: &[Test], outer: &Outer, params: &[i64]) -> bool
    requires divisors { AreTests (map test_of tests.now) }
    requires fits { TestsFit (map test_of tests.now) (values_in outer.now ++ params.now) }
    ensures { result ≡ tests_hold (map test_of tests.now) (values_in outer.now ++ params.now) }
{
    let mut row = [0; MOST_IN_ROW];
    let point = point_in(outer, &mut row);
    hold_at(tests, &point, params)
}
