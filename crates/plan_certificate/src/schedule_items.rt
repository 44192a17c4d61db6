//! The plan that a schedule is, item by item: scalars before the first row lead, the rows of the first band follow, and
//! all other items stand behind them.
ghost use Rattle.std.specs.Prelude.{◌≡◌, IfOk, OnOk, map};
ghost use Rattle.schedule_rows.specs.Schedule.{item_of};
ghost use Rattle.report_text.specs.steps.ScheduleLines.{part_view};
ghost use Rattle.plan_check.specs.PlanView.{plan_of};
ghost use Rattle.plan_certificate.specs.SchedulePlan.{form_of_part};
ghost use Rattle.plan_certificate.specs.steps.ItemPlans.{IsPlanned, in_first, with_item, with_numbers, with_row};

use affine_forms::{Form, push};
use plan_check::{BandRow, LaterItem, PlanItems};
use schedule_rows::{Band, Item, Part, Schedule, schedules_have_small_items};
use std::alloc::{AllocError, Global};

/// The form of a statement's part.
fn form_of(alloc: Global, part: &Part) -> Result<Form, AllocError>
    ensures { IfOk result (λ f. f ≡ form_of_part (part_view part.now)) }
{
    match Form::of(alloc, &part.coefficients, part.shift) {
        Err(_) => Err(AllocError),
        Ok(form) => Ok(form),
    }
}

/// The forms of a row.
fn forms_of(alloc: Global, parts: &[Part]) -> Result<Vec<Form>, AllocError>
    ensures { IfOk result (λ v. v.items ≡ map form_of_part (map part_view parts.now)) }
{
    let mut forms = Vec::new(alloc);
    for part in parts {
        match form_of(alloc, part) {
            Err(error) => return Err(error),
            Ok(form) => match push(&mut forms, form) {
                Err(error) => return Err(error),
                Ok(()) => {}
            },
        }
    }
    Ok(forms)
}

/// The numbers of a scalar item.
fn wide(alloc: Global, numbers: &[usize]) -> Result<Vec<u128>, AllocError>
    ensures { IfOk result (λ v. v.items ≡ numbers.now) }
{
    let mut found = Vec::new(alloc);
    for at in 0..numbers.len() {
        match push(&mut found, numbers[at] as u128) {
            Err(error) => return Err(error),
            Ok(()) => {}
        }
    }
    Ok(found)
}

/// Whether an item comes no later than the last of the first band.
fn in_first(bands: &[Band], at: usize) -> bool
    ensures { result ≡ in_first bands.now at }
{
    match bands.first() {
        None => false,
        Some(band) => at <= band.last,
    }
}

/// A row more, in the first band or behind it.
fn push_row(
    plan: &mut PlanItems,
    in_band: bool,
    parallel: bool,
    forms: Vec<Form>,
) -> Result<(), AllocError>
    ensures { OnOk result (plan_of plan.new ≡ with_row in_band parallel forms.items (plan_of plan.old)) }
{
    if in_band {
        return plan.push_band(BandRow { forms, parallel });
    }
    plan.push_behind(LaterItem::Row(forms))
}

/// A scalar more, before the first row or behind it.
fn push_scalar(plan: &mut PlanItems, numbers: Vec<u128>) -> Result<(), AllocError>
    ensures { OnOk result (plan_of plan.new ≡ with_numbers numbers.items (plan_of plan.old)) }
{
    if plan.band.is_empty() {
        return plan.push_leading(numbers);
    }
    plan.push_behind(LaterItem::Scalar(numbers))
}

/// An item more.
fn push_item(
    alloc: Global,
    plan: &mut PlanItems,
    in_band: bool,
    parallel: bool,
    item: &Item,
) -> Result<(), AllocError>
    ensures { OnOk result (plan_of plan.new ≡ with_item in_band parallel (item_of item.now) (plan_of plan.old)) }
{
    match item {
        Item::Row(row) => match forms_of(alloc, &row.parts) {
            Err(error) => Err(error),
            Ok(forms) => push_row(plan, in_band, parallel, forms),
        },
        Item::Scalar(numbers) => match wide(alloc, numbers) {
            Err(error) => Err(error),
            Ok(numbers) => push_scalar(plan, numbers),
        },
    }
}

/// The plan of a schedule.
///
/// # Errors
/// `AllocError` alone.
pub fn plan_items(alloc: Global, schedule: &Schedule) -> Result<PlanItems, AllocError>
    ensures { IsPlanned schedule.now result }
{
    schedules_have_small_items();
    let items = schedule.items();
    let bands = schedule.bands();
    let mut plan = PlanItems::empty(alloc);
    for at in 0..items.len() {
        let in_band = in_first(bands, at);
        let parallel = schedule.is_parallel(at);
        match push_item(alloc, &mut plan, in_band, parallel, &items[at]) {
            Err(error) => return Err(error),
            Ok(()) => {}
        }
    }
    Ok(plan)
}
