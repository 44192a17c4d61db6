//! The forms over the parameters that are read off a row: its part, and what a cut on it takes off.
ghost use Rattle.std.specs.Prelude.{◌≡◌, ◌<◌, ◌≤ℤ◌, pos, neg_ℤ, length, map, None, IfOk};
ghost use Rattle.whole_numbers.specs.Floor.{remainder};
ghost use Rattle.checked_tableau.specs.Moves.{row_at};
ghost use Rattle.checked_tableau.specs.Nodes.{all_zero, part_of, taken_off};

use affine_forms::Form;
use checked_tableau::{Rows, remainder_of};
use std::alloc::{AllocError, Global};

/// Whether each number is 0.
pub fn all_zero(numbers: &[i128]) -> bool
    ensures { result ≡ all_zero numbers.now }
{
    for number in numbers {
        if *number != 0 {
            return false;
        }
    }
    true
}

/// A row's part: its constant and its parameters.
pub fn part_of(alloc: Global, rows: &Rows, row: usize) -> Result<Form, AllocError>
    requires { row < length rows.now.rows }
    ensures { IfOk result (λ f. f ≡ part_of rows.now.unknowns (row_at rows.now.rows row)) }
{
    let line = rows.line(row);
    let at = rows.unknowns() + 1;
    let (_, parameters) = line.split_at(at + 1);
    match Form::of(alloc, parameters, line[at]) {
        Err(_) => Err(AllocError),
        Ok(part) => Ok(part),
    }
}

/// Whether no parameter stands in a row's part.
pub fn is_constant(rows: &Rows, row: usize) -> bool
    requires { row < length rows.now.rows }
    ensures { result ≡ all_zero (part_of rows.now.unknowns (row_at rows.now.rows row)).coefficients }
{
    let (_, parameters) = rows.line(row).split_at(rows.unknowns() + 2);
    all_zero(parameters)
}

/// The constant of a row's part.
pub fn constant_of(rows: &Rows, row: usize) -> i128
    requires { row < length rows.now.rows }
    ensures { result ≡ (part_of rows.now.unknowns (row_at rows.now.rows row)).constant }
{
    rows.line(row)[rows.unknowns() + 1]
}

/// What the opposite of `a` leaves of the divisor.
fn opposite_remainder(a: i128, divisor: i128) -> i128
    requires { pos 1 ≤ℤ divisor }
    ensures { result ≡ remainder (neg_ℤ a) divisor }
{
    let left = remainder_of(a, divisor);
    if left == 0 { 0 } else { divisor - left }
}

/// What the opposite of each number leaves of the divisor.
fn opposite_remainders(
    alloc: Global,
    numbers: &[i128],
    divisor: i128,
) -> Result<Vec<i128>, AllocError>
    requires { pos 1 ≤ℤ divisor }
    ensures { IfOk result (λ v. v.items ≡ map (λ z. remainder (neg_ℤ z) divisor) numbers.now) }
{
    numbers
        .iter()
        .map(|number| opposite_remainder(*number, divisor))
        .collect(alloc)
}

/// What a cut on a row takes off.
pub fn taken_off(alloc: Global, rows: &Rows, row: usize) -> Result<Form, AllocError>
    requires row { row < length rows.now.rows }
    requires going { rows.now.stopped ≡ None }
    ensures { IfOk result (λ f. f ≡ taken_off rows.now.unknowns (row_at rows.now.rows row)) }
{
    let line = rows.line(row);
    let at = rows.unknowns() + 1;
    let divisor = line[0];
    let (_, parameters) = line.split_at(at + 1);
    let coefficients = match opposite_remainders(alloc, parameters, divisor) {
        Err(error) => return Err(error),
        Ok(coefficients) => coefficients,
    };
    match Form::of(alloc, &coefficients, opposite_remainder(line[at], divisor)) {
        Err(_) => Err(AllocError),
        Ok(form) => Ok(form),
    }
}
