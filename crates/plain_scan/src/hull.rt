//! The hull of sets at a dimension: rows that hold at each point of each of them.

ghost use Rattle.std.specs.Prelude.{◌≡◌, suc, ◌+◌, ◌<◌, ◌≤◌, ◌^◌, ◌++◌, ℤ};
ghost use Rattle.std.specs.Prelude.{List, pos, ◌≤ℤ◌, All, IfOk, IfSome, OnOk, IsTrue};
ghost use Rattle.std.specs.Prelude.{length, get_or, unsigned_abs};
ghost use Rattle.whole_numbers.specs.Affine.{Affine, form_of, value_of};
ghost use Rattle.affine_forms.specs.Parts.{variables_of};
ghost use Rattle.plain_scan.specs.Between.{HasSmallNumbers};
ghost use Rattle.plain_scan.specs.declared.outline.Shadow.{Shadow};
ghost use Rattle.plain_scan.specs.Hulls.{AreHullRows, HoldsAt, IsAlike, IsHull};
ghost use Rattle.plain_scan.specs.steps.Pieces.{Hold};

use crate::numbers::{greater, opposite};
use crate::set_outline::Outline;
use crate::widest::push_on_open_side;
use affine_forms::Form;
use fm_projection::place_form;
use std::alloc::{AllocError, Global};

/// Whether the numbers are the same.
pub fn same(xs: &[i128], ys: &[i128]) -> bool
    ensures { IsTrue result → xs.now ≡ ys.now }
{
    xs == ys
}

/// The least constant of the rows with these coefficients.
fn least_constant(rows: &[Form], coefficients: &[i128]) -> Option<i128>
    requires sized { All (λ f. variables_of f ≡ length coefficients.now) rows.now }
    requires small { All HasSmallNumbers rows.now }
    ensures holds { IfSome result (λ c. (point : List ℤ) → Hold rows.now point
        → pos 0 ≤ℤ value_of (form_of coefficients.now c) point) }
    ensures small { IfSome result (λ c. unsigned_abs c ≤ 2 ^ 40) }
{
    let mut least = None;
    for row in rows {
        if same(row.coefficients(), coefficients) {
            let constant = row.constant();
            match least {
                None => least = Some(constant),
                Some(other) => {
                    if constant < other {
                        least = Some(constant);
                    }
                }
            }
        }
    }
    least
}

/// The less of two numbers.
fn less(a: i128, b: i128) -> i128
    ensures first { result ≤ℤ a }
    ensures second { result ≤ℤ b }
    ensures small { unsigned_abs a ≤ 2 ^ 40 → unsigned_abs b ≤ 2 ^ 40 → unsigned_abs result ≤ 2 ^ 40 }
{
    if a < b { a } else { b }
}

/// The greatest of the least constants that the sets have with the row's coefficients; None where one has no such row.
fn weakest(outlines: &[Outline], depth: usize, row: &Form) -> Option<i128>
    requires alike { All (IsAlike depth (variables_of row.now)) outlines.now }
    requires small { HasSmallNumbers row.now }
    ensures holds { IfSome result (λ c. All (HoldsAt depth (form_of row.now.coefficients c)) outlines.now) }
    ensures small { IfSome result (λ c. unsigned_abs c ≤ 2 ^ 40) }
{
    let mut worst = row.constant();
    for outline in outlines {
        match least_constant(outline.shadows[depth].rows.as_slice(), row.coefficients()) {
            None => return None,
            Some(constant) => worst = greater(worst, constant),
        }
    }
    Some(worst)
}

/// The least number below the dimension, and the greatest above it.
fn ends(outlines: &[Outline], depth: usize) -> (i128, i128)
    requires some { 0 < length outlines.now }
    requires inside { All (λ o. depth < length o.shadows.items) outlines.now }
    ensures low { All (λ o. (d : Shadow) → result.0 ≤ℤ (get_or o.shadows.items depth d).low) outlines.now }
    ensures high { All (λ o. (d : Shadow) → (get_or o.shadows.items depth d).high ≤ℤ result.1) outlines.now }
    ensures small { (unsigned_abs result.0 ≤ 2 ^ 40) × (unsigned_abs result.1 ≤ 2 ^ 40) }
{
    let mut low = outlines[0].shadows[depth].low;
    let mut high = outlines[0].shadows[depth].high;
    for outline in outlines {
        let shadow = &outline.shadows[depth];
        low = less(low, shadow.low);
        high = greater(high, shadow.high);
    }
    (low, high)
}

/// Appends the weakest row with these coefficients, if each set has one.
fn push_weakest(
    alloc: Global,
    out: &mut Vec<Form>,
    outlines: &[Outline],
    depth: usize,
    place: usize,
    row: &Form,
) -> Result<(), AllocError>
    requires inside { place < variables_of row.now }
    requires alike { All (IsAlike depth (variables_of row.now)) outlines.now }
    requires small { HasSmallNumbers row.now }
    ensures front { OnOk result ((more : List Affine) × (out.new.items ≡ out.old.items ++ more)) }
    ensures rows { OnOk result (AreHullRows depth (variables_of row.now) outlines.now out.old.items
        → AreHullRows depth (variables_of row.now) outlines.now out.new.items) }
{
    if row.coefficients()[place] == 0 {
        return Ok(());
    }
    match weakest(outlines, depth, row) {
        None => Ok(()),
        Some(constant) => match Form::of(alloc, row.coefficients(), constant) {
            Err(_) => Err(AllocError),
            Ok(form) => {
                out.push(form)?;
                Ok(())
            }
        },
    }
}

/// The two numbers of the hull at a dimension, then each row of the first set that has the dimension and that all sets
/// have with some constant, with the weakest.
fn shared_rows(
    alloc: Global,
    outlines: &[Outline],
    depth: usize,
    place: usize,
    variables: usize,
) -> Result<Vec<Form>, AllocError>
    requires some { 0 < length outlines.now }
    requires inside { place < variables }
    requires alike { All (IsAlike depth variables) outlines.now }
    requires place { All (λ o. o.set.now.system.dimensions ≡ place + suc depth) outlines.now }
    ensures { IfOk result (λ v. IsHull depth place variables outlines.now v.items) }
{
    let (low, high) = ends(outlines, depth);
    let least = place_form(alloc, variables, place, 1, opposite(low))?;
    let most = place_form(alloc, variables, place, -1, high)?;
    let mut out = Vec::new(alloc);
    out.push(least)?;
    out.push(most)?;
    for row in &outlines[0].shadows[depth].rows {
        push_weakest(alloc, &mut out, outlines, depth, place, row)?;
    }
    Ok(out)
}

/// The hull's rows at a dimension: its two numbers, then the rows that all sets share but for constants; and on a side
/// with none of those the first row that is above one of each set, if there is one. Below, a number that is not negative
/// is enough.
pub fn hull(
    alloc: Global,
    outlines: &[Outline],
    depth: usize,
    place: usize,
    variables: usize,
) -> Result<Vec<Form>, AllocError>
    requires some { 0 < length outlines.now }
    requires inside { place < variables }
    requires alike { All (IsAlike depth variables) outlines.now }
    requires place { All (λ o. o.set.now.system.dimensions ≡ place + suc depth) outlines.now }
    ensures { IfOk result (λ v. IsHull depth place variables outlines.now v.items) }
{
    let mut out = shared_rows(alloc, outlines, depth, place, variables)?;
    for row in &outlines[0].shadows[depth].rows {
        push_on_open_side(alloc, &mut out, outlines, depth, place, row)?;
    }
    Ok(out)
}
