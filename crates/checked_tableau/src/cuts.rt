//! The cut on a row, made in a copy of the row.
ghost use Rattle.std.specs.Prelude.{◌≡◌, ℕ, ◌+◌, ◌<◌, ◌<ℤ◌, ◌≤ℤ◌, pos, length, map, slice_index_or, Some};
ghost use Rattle.affine_forms.specs.Runs.{map_run};
ghost use Rattle.wide_math.specs.Gives.{Becomes};
ghost use Rattle.whole_numbers.specs.Floor.{remainder};
ghost use Rattle.tableau_rows.specs.Moves.{tied};
ghost use Rattle.checked_tableau.specs.Lines.{cut_line_run, turned_run, behind_constant, behind_columns};

use crate::contents::reduce;
use affine_forms::map_in_place;
use wide_math::{Wide, sub};

/// `a` modulo `divisor`.
#[inline]
pub fn remainder_of(a: i128, divisor: i128) -> i128
    requires { pos 1 ≤ℤ divisor }
    ensures value { result ≡ remainder a divisor }
    ensures least { pos 0 ≤ℤ result }
    ensures below { result <ℤ divisor }
{
    a.rem_euclid(divisor)
}

/// Leaves of each number its remainder.
fn leave_remainders(numbers: &mut [i128], divisor: i128)
    requires { pos 1 ≤ℤ divisor }
    ensures { numbers.new ≡ map (λ z. remainder z divisor) numbers.old }
{
    for at in 0..numbers.len() {
        numbers[at] = remainder_of(numbers[at], divisor);
    }
}

/// What the opposite of `a` leaves, turned.
#[tactic(auto, unfolding(crate::specs::Lines::turned_run))]
fn turned_remainder(a: i128, divisor: i128) -> Result<i128, Wide>
    requires { pos 1 ≤ℤ divisor }
    ensures { result ≡ turned_run divisor a }
{
    match sub(0, a) {
        Err(wide) => Err(wide),
        Ok(opposite) => Ok(-remainder_of(opposite, divisor)),
    }
}

/// Leaves of each number what its opposite leaves, turned.
fn leave_turned_remainders(numbers: &mut [i128], divisor: i128) -> Result<(), Wide>
    requires { pos 1 ≤ℤ divisor }
    ensures { Becomes numbers.new result (map_run (turned_run divisor) numbers.old) }
{
    map_in_place(numbers, |a| turned_remainder(a, divisor))
}

/// Adds the divisor to the entry of a parameter, if one is given; the entries begin at the constant.
fn tie(part: &mut [i128], parameter: Option<usize>, divisor: i128)
    requires inside { (k : ℕ) → parameter ≡ Some k → k + 1 < length part.old }
    requires low { (k : ℕ) → slice_index_or part.old k (pos 0) ≤ℤ pos 0 }
    requires positive { pos 1 ≤ℤ divisor }
    ensures { part.new ≡ tied divisor (behind_constant parameter) part.old }
{
    match parameter {
        None => {}
        Some(parameter) => part[parameter + 1] = part[parameter + 1] + divisor,
    }
}

/// Makes a row, its denominator in front, the cut on it, tied to a parameter or to none.
pub fn cut_line(line: &mut [i128], unknowns: usize, parameter: Option<usize>) -> Result<(), Wide>
    requires constant { unknowns + 1 < length line.old }
    requires parameter { (k : ℕ) → parameter ≡ Some k → unknowns + 2 + k < length line.old }
    requires positive { pos 0 <ℤ slice_index_or line.old 0 (pos 0) }
    ensures { Becomes line.new result (cut_line_run unknowns (behind_columns unknowns parameter) line.old) }
{
    let (head, entries) = line.split_at_mut(1);
    let divisor = head[0];
    let (columns, part) = entries.split_at_mut(unknowns);
    leave_remainders(columns, divisor);
    match leave_turned_remainders(part, divisor) {
        Err(wide) => return Err(wide),
        Ok(()) => {}
    }
    tie(part, parameter, divisor);
    reduce(line);
    Ok(())
}
