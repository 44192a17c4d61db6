//! The lines of a problem's first rows.
ghost use Rattle.std.specs.Prelude.{◌≡◌, ℕ, suc, ◌+◌, ◌<◌, ◌≤◌, pos, List, [], ◌∷◌, ◌++◌, length, All, IfOk, OnOk};
ghost use Rattle.affine_forms.specs.Parts.{variables_of};
ghost use Rattle.tableau_rows.specs.Rows.{Row};
ghost use Rattle.tableau_rows.specs.Problem.{entries_of, unit_rows, given_rows};
ghost use Rattle.checked_tableau.specs.Lines.{Holds};

use crate::pivot::write_unit;
use affine_forms::Form;
use std::alloc::{AllocError, Global};

/// No lines yet, with room for so many.
pub fn room_for(alloc: Global, lines: usize, stride: usize) -> Result<Vec<i128>, AllocError>
    ensures { IfOk result (λ v. v.items ≡ []) }
{
    Vec::with_capacity(alloc, lines.saturating_mul(stride))
}

/// Writes the lines of the unknowns: each is its column. `line` is room for one.
pub fn append_units(
    cells: &mut Vec<i128>,
    line: &mut [i128],
    unknowns: usize,
) -> Result<(), AllocError>
    requires none { cells.old.items ≡ [] }
    requires room { unknowns + 1 < length line.old }
    ensures { (m : ℕ) → length line.old ≡ suc m
        → OnOk result (Holds (suc m) unknowns cells.new.items (unit_rows m 0 unknowns)) }
{
    for column in 0..unknowns {
        write_unit(line, column);
        match cells.extend_from_slice(line) {
            Err(error) => return Err(error),
            Ok(()) => {}
        }
    }
    Ok(())
}

/// Appends a form as a line.
fn append_form(cells: &mut Vec<i128>, form: &Form, unknowns: usize) -> Result<(), AllocError>
    requires { unknowns ≤ variables_of form.now }
    ensures { OnOk result (cells.new.items ≡ cells.old.items ++ (pos 1 ∷ entries_of unknowns form.now)) }
{
    let coefficients = form.coefficients();
    match cells.push(1) {
        Err(_) => return Err(AllocError),
        Ok(()) => {}
    }
    match cells.extend_from_slice(&coefficients[..unknowns]) {
        Err(error) => return Err(error),
        Ok(()) => {}
    }
    match cells.push(form.constant()) {
        Err(_) => return Err(AllocError),
        Ok(()) => {}
    }
    cells.extend_from_slice(&coefficients[unknowns..])
}

/// Appends the lines of forms.
pub fn append_forms(
    cells: &mut Vec<i128>,
    forms: &[Form],
    unknowns: usize,
    stride: usize,
) -> Result<(), AllocError>
    requires forms { All (λ f. variables_of f + 2 ≡ stride) forms.now }
    requires unknowns { unknowns + 2 ≤ stride }
    ensures { (count : ℕ) (rows : List Row) → Holds stride count cells.old.items rows
        → OnOk result (Holds stride (count + length forms.now) cells.new.items
        (rows ++ given_rows unknowns forms.now)) }
{
    for form in forms {
        match append_form(cells, form, unknowns) {
            Err(error) => return Err(error),
            Ok(()) => {}
        }
    }
    Ok(())
}

/// The lines of a problem's first rows, whose forms stand in two parts. `line` is room for one.
pub fn first_lines(
    alloc: Global,
    unknowns: usize,
    forms: &[Form],
    more: &[Form],
    line: &mut [i128],
) -> Result<Vec<i128>, AllocError>
    requires room { unknowns + 1 < length line.old }
    requires forms { All (λ f. variables_of f + 2 ≡ length line.old) forms.now }
    requires more { All (λ f. variables_of f + 2 ≡ length line.old) more.now }
    ensures { IfOk result (λ v. (m : ℕ) → length line.old ≡ suc m
        → Holds (suc m) ((unknowns + length forms.now) + length more.now) v.items
        ((unit_rows m 0 unknowns ++ given_rows unknowns forms.now) ++ given_rows unknowns more.now)) }
{
    let stride = line.len();
    let lines = unknowns
        .saturating_add(forms.len())
        .saturating_add(more.len());
    let mut cells = match room_for(alloc, lines, stride) {
        Err(error) => return Err(error),
        Ok(cells) => cells,
    };
    match append_units(&mut cells, line, unknowns) {
        Err(error) => return Err(error),
        Ok(()) => {}
    }
    match append_forms(&mut cells, forms, unknowns, stride) {
        Err(error) => return Err(error),
        Ok(()) => {}
    }
    match append_forms(&mut cells, more, unknowns, stride) {
        Err(error) => Err(error),
        Ok(()) => Ok(cells),
    }
}
