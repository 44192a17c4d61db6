//! The planner's innermost steps, repeated, and a checksum of what they give.
//!
//! `multiply_add` is checked products and sums of numbers from memory within 40 bits; `multiply_add_wide` the same of
//! numbers above 2^64; `value_at` a form of eight coefficients; `row_operation` a pivot's combination of 60 rows of 40
//! numbers.

ghost use Rattle.std.specs.Prelude.{◌≡◌, length};

use affine_forms::Form;
use std::io;
use wide_math::{add, cross, mul};

/// The coefficients of the form that is evaluated.
const COEFFICIENTS: [i128; 8] = [3, -5, 7, -11, 13, -17, 19, -23];

/// How many operands lie in memory.
const OPERANDS: usize = 1024;

const ROWS: usize = 60;

const COLUMNS: usize = 40;

/// A step that is repeated.
#[derive(Clone, Copy)]
pub enum Step {
    MultiplyAdd,
    MultiplyAddWide,
    ValueAt,
    RowOperation,
}

/// The step of this name.
pub fn step_of(word: &str) -> Option<Step> {
    match word {
        "multiply_add" => Some(Step::MultiplyAdd),
        "multiply_add_wide" => Some(Step::MultiplyAddWide),
        "value_at" => Some(Step::ValueAt),
        "row_operation" => Some(Step::RowOperation),
        _ => None,
    }
}

/// Numbers of 40 bits with a sign, each times `scale`, by a linear congruence from `seed` on.
fn operands(seed: u64, scale: u32) -> [i128; OPERANDS] {
    let mut numbers = [0i128; OPERANDS];
    let mut state = seed;
    for at in 0..OPERANDS {
        state = state
            .wrapping_mul(6364136223846793005)
            .wrapping_add(1442695040888963407);
        numbers[at] = (i128::from(state >> 24) - 549755813888) * i128::from(scale);
    }
    numbers
}

/// One checked product and sum; 0 or 1 where it leaves 128 bits.
fn product_and_sum(sum: i128, left: i128, right: i128) -> i128 {
    match mul(left, right) {
        Ok(product) => match add(product, sum) {
            Ok(next) => next,
            Err(_) => 1,
        },
        Err(_) => 0,
    }
}

/// The last of `rounds` checked products and sums.
fn multiply_add(left: &[i128; OPERANDS], right: &[i128; OPERANDS], rounds: u64) -> i128 {
    let mut sum = 0i128;
    for round in 0..rounds {
        let at = (round & 1023) as usize;
        sum = product_and_sum(sum, left[at], right[at]);
    }
    sum
}

/// The exclusive or of `rounds` values of the form, at points that change with the round.
fn value_at(form: &Form, numbers: &[i128; OPERANDS], rounds: u64) -> i128 {
    let mut point = [1i128, 2, 3, 4, 5, 6, 7, 8];
    let mut mixed = 0i128;
    for round in 0..rounds {
        point[(round & 7) as usize] = numbers[(round & 1023) as usize];
        mixed ^= value_or_zero(form, &point);
    }
    mixed
}

/// The form's value, or 0 where it leaves 128 bits or the point has another length.
fn value_or_zero(form: &Form, point: &[i128; 8]) -> i128 {
    if form.variables() != 8 {
        return 0;
    }
    match form.value_at(point) {
        Ok(value) => value,
        Err(_) => 0,
    }
}

/// `row * factor - own * pivot` at each place; false where a number leaves 128 bits.
#[inline(never)]
fn combine(row: &mut [i128], factor: i128, own: i128, pivot: &[i128]) -> bool
    requires { length row.old ≡ length pivot.now }
{
    for at in 0..row.len() {
        match cross(row[at], factor, own, pivot[at]) {
            Err(_) => return false,
            Ok(next) => row[at] = next,
        }
    }
    true
}

/// How many rows are combined with the pivot row.
fn pass(cells: &mut [i128], pivot: &[i128]) -> u64
    requires { length pivot.now ≡ 40 }
{
    let mut good = 0u64;
    for row in cells.chunks_exact_mut(COLUMNS) {
        let own = row[7];
        if combine(row, pivot[7], own, pivot) {
            good = good.wrapping_add(1);
        }
    }
    good
}

/// The exclusive or of cells after `rounds` passes over the same rows.
fn row_operation(rounds: u64) -> i128 {
    let mut base = [0i128; ROWS * COLUMNS];
    for at in 0..ROWS * COLUMNS {
        base[at] = ((at * 7919 + 13) % 101) as i128 - 50;
    }
    let mut pivot = [0i128; COLUMNS];
    for at in 0..COLUMNS {
        pivot[at] = ((at * 31 + 5) % 23) as i128 - 9;
    }
    let mut mixed = 0i128;
    let mut cells = base;
    for round in 0..rounds {
        cells.copy_from_slice(&base);
        pivot[7] = i128::from(round & 31) + 1;
        let good = pass(&mut cells, &pivot);
        mixed ^= cells[(round & 2047) as usize] ^ i128::from(good);
    }
    mixed
}

/// Prints the checksum of so many rounds of a step.
pub fn report<R: Print + AllocGlobal>(rt: &R, step: Step, rounds: u64) -> io::Result<()> {
    match step {
        Step::MultiplyAdd => {
            println!(rt;
                "{}",
                multiply_add(&operands(1, 1), &operands(2, 1), rounds)
            )
        }
        Step::MultiplyAddWide => {
            println!(rt;
                "{}",
                multiply_add(&operands(1, 4294967295), &operands(2, 1), rounds)
            )
        }
        Step::ValueAt => match Form::of(rt.alloc(), &COEFFICIENTS, 29) {
            Ok(form) => println!(rt; "{}", value_at(&form, &operands(3, 1), rounds)),
            Err(_) => println!(rt; "no memory"),
        },
        Step::RowOperation => println!(rt; "{}", row_operation(rounds)),
    }
}
