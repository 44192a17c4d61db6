//! The items of a certificate, laid one behind another.
ghost use Rattle.std.specs.Prelude.{◌≡◌, ◌<◌, ◌≤◌, ◌^◌, ◌-◌, ◌==◌, IfOk, OnOk, map, pos, suc};
ghost use Rattle.std.specs.List.{list_all};
ghost use Rattle.wide_math.specs.Gives.{Gives};
ghost use Rattle.schedule_lines.specs.View.{part_view, row_view, scalar_view};
ghost use Rattle.plan_check.specs.Judged.{are_held, form_of_part, has_rows, is_held, is_next_band, nothing_laid, part_held};
ghost use Rattle.plan_check.specs.Judged.{row_held, row_judged, row_laid, scalar_judged, scalar_laid, with_row, with_scalar};
ghost use Rattle.plan_check.specs.PlanView.{plan_of};
ghost use Rattle.plan_check.specs.TextView.{laid_view, rejected_in};

use crate::kinds::{CheckStop, FaultKind, rejected};
use crate::plan::{BandRow, LaterItem, PlanItems};
use affine_forms::{Form, push};
use schedule_lines::{PartLine, RowLine, ScalarLine};
use std::alloc::{AllocError, Global};

/// How many bands and rows there are, whether the last item is a row, and the items.
#[derive(Drop)]
pub struct Laying {
    pub bands: u128,
    pub rows: usize,
    pub in_band: bool,
    pub items: PlanItems,
}

/// No items.
pub fn nothing_laid(alloc: Global) -> Laying
    ensures { laid_view result ≡ nothing_laid }
{
    Laying {
        bands: 0,
        rows: 0,
        in_band: false,
        items: PlanItems::empty(alloc),
    }
}

/// Whether 128 bits hold the number.
pub fn is_held(number: u128) -> bool
    ensures { result ≡ is_held number }
{
    i128::try_from(number).is_ok()
}

/// Whether 128 bits hold each number.
fn are_held(numbers: &[u128]) -> bool
    ensures { result ≡ are_held numbers.now }
{
    numbers.iter().all(|number: &u128| is_held(*number))
}

/// Whether 128 bits hold the numbers of a part.
fn part_held(part: &PartLine) -> bool
    ensures { result ≡ part_held (part_view part.now) }
{
    are_held(&part.coefficients) && is_held(part.shift)
}

/// Whether 128 bits hold the numbers of each part.
fn parts_held(parts: &[PartLine]) -> bool
    ensures { result ≡ list_all part_held (map part_view parts.now) }
{
    for part in parts {
        if !part_held(part) {
            return false;
        }
    }
    true
}

/// Whether 128 bits hold the numbers of a row.
fn row_held(row: &RowLine) -> bool
    ensures { result ≡ row_held (row_view row.now) }
{
    if !are_held(&row.u) {
        return false;
    }
    if !is_held(row.w) {
        return false;
    }
    parts_held(&row.parts)
}

/// Numbers with signs, if 128 bits hold them.
fn signed(alloc: Global, numbers: &[u128]) -> Result<Vec<i128>, AllocError>
    ensures { IfOk result (λ v. v.items ≡ map (λ n. pos n) numbers.now) }
{
    let mut found = Vec::new(alloc);
    for at in 0..numbers.len() {
        match i128::try_from(numbers[at]) {
            Err(_) => return Err(AllocError),
            Ok(number) => match push(&mut found, number) {
                Err(error) => return Err(error),
                Ok(()) => {}
            },
        }
    }
    Ok(found)
}

/// The form of a part.
fn form_of(alloc: Global, part: &PartLine) -> Result<Form, AllocError>
    ensures { IfOk result (λ f. f ≡ form_of_part (part_view part.now)) }
{
    match i128::try_from(part.shift) {
        Err(_) => Err(AllocError),
        Ok(shift) => match signed(alloc, &part.coefficients) {
            Err(error) => Err(error),
            Ok(numbers) => match Form::of(alloc, &numbers, shift) {
                Err(_) => Err(AllocError),
                Ok(form) => Ok(form),
            },
        },
    }
}

/// The forms of a row.
fn forms_of(alloc: Global, parts: &[PartLine]) -> Result<Vec<Form>, AllocError>
    ensures { IfOk result (λ v. v.items ≡ map form_of_part (map part_view parts.now)) }
{
    let mut found = Vec::new(alloc);
    for part in parts {
        match form_of(alloc, part) {
            Err(error) => return Err(error),
            Ok(form) => match push(&mut found, form) {
                Err(error) => return Err(error),
                Ok(()) => {}
            },
        }
    }
    Ok(found)
}

/// Whether the number is the next behind another.
pub fn is_next(number: u128, last: u128) -> bool
    ensures { result ≡ (number == suc last) }
{
    if number == 0 {
        return false;
    }
    number - 1 == last
}

/// Whether the band is the open one, or the next new one.
fn is_next_band(laying: &Laying, band: u128) -> bool
    ensures { result ≡ is_next_band (laid_view laying.now) band }
{
    if laying.in_band && band == laying.bands {
        return true;
    }
    is_next(band, laying.bands)
}

/// A row behind the items: of the first band, or behind it.
fn push_row(
    items: &mut PlanItems,
    band: u128,
    parallel: bool,
    forms: Vec<Form>,
) -> Result<(), AllocError>
    ensures { OnOk result (plan_of items.new ≡ with_row (plan_of items.old) band parallel forms.items) }
{
    if band == 1 {
        return items.push_band(BandRow { forms, parallel });
    }
    items.push_behind(LaterItem::Row(forms))
}

/// A scalar behind the items: before the first row, or behind it.
fn push_scalar(items: &mut PlanItems, bands: u128, numbers: Vec<u128>) -> Result<(), AllocError>
    ensures { OnOk result (plan_of items.new ≡ with_scalar bands (plan_of items.old) numbers.items) }
{
    if bands == 0 {
        return items.push_leading(numbers);
    }
    items.push_behind(LaterItem::Scalar(numbers))
}

/// The items with a row more.
fn with_row(
    laying: Laying,
    band: u128,
    parallel: bool,
    forms: Vec<Form>,
) -> Result<Laying, AllocError>
    requires { laying.rows < 2 ^ 64 - 1 }
    ensures { IfOk result (λ l. laid_view l ≡ row_laid (laid_view laying) band parallel forms.items) }
{
    let mut items = laying.items;
    match push_row(&mut items, band, parallel, forms) {
        Err(error) => Err(error),
        Ok(()) => Ok(Laying {
            bands: band,
            rows: laying.rows + 1,
            in_band: true,
            items,
        }),
    }
}

/// A row's line behind so many others.
pub fn lay_row(
    alloc: Global,
    lines: usize,
    laying: Laying,
    row: &RowLine,
) -> Result<Laying, CheckStop>
    requires few { laying.rows ≤ lines }
    requires lines { lines < 2 ^ 64 - 1 }
    ensures { Gives rejected_in laid_view result (row_judged lines (laid_view laying) (row_view row.now)) }
{
    if !is_next(row.number, lines as u128) {
        return Err(rejected(FaultKind::Form, lines));
    }
    if !is_next_band(&laying, row.band) {
        return Err(rejected(FaultKind::Form, lines));
    }
    if !row_held(row) {
        return Err(rejected(FaultKind::Wide, lines));
    }
    match forms_of(alloc, &row.parts) {
        Err(_) => Err(CheckStop::NoMemory),
        Ok(forms) => match with_row(laying, row.band, row.parallel, forms) {
            Err(_) => Err(CheckStop::NoMemory),
            Ok(laying) => Ok(laying),
        },
    }
}

/// The items with a scalar more.
fn with_scalar(laying: Laying, numbers: Vec<u128>) -> Result<Laying, AllocError>
    ensures { IfOk result (λ l. laid_view l ≡ scalar_laid (laid_view laying) numbers.items) }
{
    let mut items = laying.items;
    match push_scalar(&mut items, laying.bands, numbers) {
        Err(error) => Err(error),
        Ok(()) => Ok(Laying {
            bands: laying.bands,
            rows: laying.rows,
            in_band: false,
            items,
        }),
    }
}

/// A scalar's line behind so many others.
pub fn lay_scalar(lines: usize, laying: Laying, scalar: ScalarLine) -> Result<Laying, CheckStop>
    requires lines { lines < 2 ^ 64 - 1 }
    ensures { Gives rejected_in laid_view result (scalar_judged lines (laid_view laying) (scalar_view scalar)) }
{
    if !is_next(scalar.number, lines as u128) {
        return Err(rejected(FaultKind::Form, lines));
    }
    if !are_held(&scalar.values) {
        return Err(rejected(FaultKind::Wide, lines));
    }
    match with_scalar(laying, scalar.values) {
        Err(_) => Err(CheckStop::NoMemory),
        Ok(laying) => Ok(laying),
    }
}

/// Whether no statement has fewer rows than loops.
pub fn has_rows(loops: &[usize], laying: &Laying) -> bool
    ensures { result ≡ has_rows loops.now (laid_view laying.now) }
{
    for at in 0..loops.len() {
        if loops[at] > laying.rows {
            return false;
        }
    }
    true
}
