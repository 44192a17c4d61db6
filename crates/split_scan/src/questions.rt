//! Questions whether rows hold at some whole point.

ghost use Rattle.std.specs.Prelude.{◌≡◌, ◌+◌, ◌++◌, All, IfOk, IsTrue};
ghost use Rattle.whole_numbers.specs.Affine.{complement};
ghost use Rattle.affine_forms.specs.Parts.{variables_of};
ghost use Rattle.plain_scan.specs.Between.{HasSmallNumbers};
ghost use Rattle.split_scan.specs.steps.Questions.{HasNone, IsVoid};

use crate::halt::Halt;
use crate::level::Level;
use affine_forms::{Form, FormStop, copies, push_copies};
use integer_sets::System;
use pip_solver::{Stop, is_empty};
use plain_scan::shared::{has_small_numbers, opposite};
use std::alloc::{AllocError, Global};

/// Copies of these forms, and behind them of those.
pub fn joined(alloc: Global, first: &[Form], second: &[Form]) -> Result<Vec<Form>, AllocError>
    ensures { IfOk result (λ v. v.items ≡ first.now ++ second.now) }
{
    let mut out = copies(alloc, first)?;
    push_copies(&mut out, second)?;
    Ok(out)
}

/// The row -f - 1, where its numbers are small.
pub fn complement(alloc: Global, row: &Form) -> Result<Form, Halt>
    requires { HasSmallNumbers row.now }
    ensures row { IfOk result (λ f. f ≡ complement row.now) }
    ensures small { IfOk result HasSmallNumbers }
{
    let negative = match row.scaled(-1) {
        Err(FormStop::Wide(_)) => return Err(Halt::Stopped),
        Err(FormStop::NoMemory) => return Err(Halt::NoMemory),
        Ok(negative) => negative,
    };
    match Form::of(alloc, negative.coefficients(), opposite(row.constant()) - 1) {
        Err(_) => Err(Halt::NoMemory),
        Ok(far) => {
            if has_small_numbers(&far) {
                Ok(far)
            } else {
                Err(Halt::Stopped)
            }
        }
    }
}

/// Whether no point of so many whole numbers from 0 on satisfies the rows, for parameters in 0..=65536.
pub fn has_none(
    alloc: Global,
    dimensions: usize,
    parameters: usize,
    rows: Vec<Form>,
    budget: u64,
) -> Result<bool, Halt>
    requires { All (λ f. variables_of f ≡ dimensions + parameters) rows.items }
    ensures { IfOk result (λ none. IsTrue none → HasNone dimensions rows.items) }
{
    let system = System::from_parts(dimensions, parameters, Vec::new(alloc), rows);
    match is_empty(alloc, &system, budget) {
        Ok(none) => Ok(none),
        Err(Stop::Wide { .. }) => Err(Halt::Stopped),
        Err(Stop::Spent { .. }) => Err(Halt::Stopped),
        Err(Stop::NoMemory) => Err(Halt::NoMemory),
    }
}

/// Whether the rows hold at no point of the node.
pub fn is_void(alloc: Global, level: &Level, cuts: &[Form]) -> Result<bool, Halt>
    requires { All (λ f. variables_of f ≡ level.now.place + 1 + level.now.parameters) cuts.now }
    ensures { IfOk result (λ none. IsTrue none → IsVoid level.now.place level.now.inside.items cuts.now) }
{
    if !level.natural {
        return Ok(false);
    }
    let rows = joined(alloc, &level.inside, cuts)?;
    has_none(alloc, level.place + 1, level.parameters, rows, level.budget)
}
