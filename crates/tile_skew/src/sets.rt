//! The scan sets of a schedule: of each statement the set of its instances at their places.
ghost use Rattle.std.specs.Prelude.{◌≡◌, ◌+◌, ◌≤◌, ◌<◌, ◌++◌, ◌∷◌, [], All, pos, IfOk, OnOk, length, map};
ghost use Rattle.affine_forms.specs.Parts.{variables_of};
ghost use Rattle.iteration_domains.specs.Rows.{variable};
ghost use Rattle.loop_tree.specs.TilingView.{item_of, items_of};
ghost use Rattle.tile_skew.specs.ScanSets.{are_coordinates, dimension_equalities, domain_form};
ghost use Rattle.tile_skew.specs.ScanSets.{have_values, item_equalities, item_form, missing_equalities};
ghost use Rattle.tile_skew.specs.ScanSets.{number_form, row_form, wave_equalities, width};
ghost use Rattle.tile_skew.specs.steps.Sizes.{FitsItem, FitsTurns};

use crate::forms::{carried_form, domain_form, number_form, push_coordinate, push_value, row_form};
use crate::layout::Layout;
use crate::scattering::Scattering;
use affine_forms::{Form, push};
use iteration_domains::{push_variables, variable_form};
use loop_tree::{TileItem, TileRow};
use std::alloc::{AllocError, Global};

/// Appends the domain's forms over all variables.
fn push_domain(
    alloc: Global,
    out: &mut Vec<Form>,
    layout: Layout,
    forms: &[Form],
) -> Result<(), AllocError>
    requires { All (λ f. layout.turns ≤ variables_of f) forms.now }
    ensures { OnOk result (out.new.items ≡ out.old.items ++ map (domain_form layout) forms.now) }
{
    for form in forms {
        push(out, domain_form(alloc, layout, form)?)?;
    }
    Ok(())
}

/// Appends that the dimensions from `first` on are the scalars.
fn push_leading(
    alloc: Global,
    out: &mut Vec<Form>,
    scattering: &Scattering,
    first: usize,
    leading: &[usize],
) -> Result<(), AllocError>
    requires { first + length leading.now ≤ width scattering.now.layout }
    ensures { OnOk result (out.new.items ≡ out.old.items
        ++ have_values scattering.now.layout first (map (λ k. number_form scattering.now.layout (pos k)) leading.now)) }
{
    for at in 0..leading.len() {
        let form = number_form(alloc, scattering, leading[at] as u64)?;
        push_value(alloc, out, scattering, first + at, &form)?;
    }
    Ok(())
}

/// Appends that the leading dimensions are the scalars and the wave sum.
fn push_waves(alloc: Global, out: &mut Vec<Form>, scattering: &Scattering) -> Result<(), AllocError>
    ensures { OnOk result (out.new.items
        ≡ out.old.items ++ wave_equalities scattering.now.layout (items_of scattering.now.items.now)) }
{
    let leading = scattering.items.leading.as_slice();
    push_leading(alloc, out, scattering, 0, leading)?;
    let sum = carried_form(alloc, scattering)?;
    push_value(alloc, out, scattering, leading.len(), &sum)?;
    Ok(())
}

/// Appends that the dimensions from `first` on are the rows of the first band.
fn push_rows(
    alloc: Global,
    out: &mut Vec<Form>,
    scattering: &Scattering,
    first: usize,
    rows: &[TileRow],
) -> Result<(), AllocError>
    requires place { first + length rows.now ≤ width scattering.now.layout }
    requires small { All (λ r. FitsTurns scattering.now.layout.turns r.form) rows.now }
    ensures { OnOk result (out.new.items ≡ out.old.items
        ++ have_values scattering.now.layout first (map (λ r. row_form scattering.now.layout r.form) rows.now)) }
{
    for at in 0..rows.len() {
        let row = &rows[at];
        let form = row_form(alloc, scattering, &row.form)?;
        push_value(alloc, out, scattering, first + at, &form)?;
    }
    Ok(())
}

/// Appends that dimension `at` is the item.
fn push_item(
    alloc: Global,
    out: &mut Vec<Form>,
    scattering: &Scattering,
    at: usize,
    item: &TileItem,
) -> Result<(), AllocError>
    requires place { at < width scattering.now.layout }
    requires small { FitsItem scattering.now.layout.turns (item_of item.now) }
    ensures { OnOk result (out.new.items ≡ out.old.items
        ++ have_values scattering.now.layout at (item_form scattering.now.layout (item_of item.now) ∷ [])) }
{
    match item {
        TileItem::Row(form) => {
            let row = row_form(alloc, scattering, form)?;
            push_value(alloc, out, scattering, at, &row)
        }
        TileItem::Scalar(number) => {
            let scalar = number_form(alloc, scattering, *number as u64)?;
            push_value(alloc, out, scattering, at, &scalar)
        }
    }
}

/// Appends that the dimensions from `first` on are the items.
fn push_items(
    alloc: Global,
    out: &mut Vec<Form>,
    scattering: &Scattering,
    first: usize,
    items: &[TileItem],
) -> Result<(), AllocError>
    requires place { first + length items.now ≤ width scattering.now.layout }
    requires small { All (λ i. FitsItem scattering.now.layout.turns (item_of i)) items.now }
    ensures { OnOk result (out.new.items ≡ out.old.items
        ++ have_values scattering.now.layout first (map (item_form scattering.now.layout) (map item_of items.now))) }
{
    for at in 0..items.len() {
        push_item(alloc, out, scattering, first + at, &items[at])?;
    }
    Ok(())
}

/// Appends that the dimensions behind the tile coordinates are the items.
fn push_item_values(
    alloc: Global,
    out: &mut Vec<Form>,
    scattering: &Scattering,
) -> Result<(), AllocError>
    ensures { OnOk result (out.new.items
        ≡ out.old.items ++ item_equalities scattering.now.layout (items_of scattering.now.items.now)) }
{
    let items = scattering.items;
    let leading = items.leading.len();
    let band = items.band.len();
    let scalars = leading + (1 + band);
    let rows = scalars + leading;
    push_leading(alloc, out, scattering, scalars, items.leading.as_slice())?;
    push_rows(alloc, out, scattering, rows, items.band.as_slice())?;
    push_items(alloc, out, scattering, rows + band, items.behind.as_slice())?;
    Ok(())
}

/// Appends that the dimensions of missing iterators are 0.
fn push_missing(
    alloc: Global,
    out: &mut Vec<Form>,
    scattering: &Scattering,
) -> Result<(), AllocError>
    ensures { OnOk result (out.new.items ≡ out.old.items ++ missing_equalities scattering.now.layout) }
{
    let layout = scattering.layout;
    let first = layout.front + layout.turns;
    push_variables(alloc, out, layout.width(), first, layout.missing)
}

/// Appends that the dimensions behind the wave sum are the tile coordinates of the rows of the first band.
fn push_coordinates(
    alloc: Global,
    out: &mut Vec<Form>,
    scattering: &Scattering,
) -> Result<(), AllocError>
    ensures { OnOk result (out.new.items ≡ out.old.items
        ++ are_coordinates scattering.now.layout (pos scattering.now.size)
        (length scattering.now.items.now.leading.items + 1) scattering.now.items.now.band.items) }
{
    let wave = scattering.items.leading.len();
    let rows = scattering.items.band.as_slice();
    for at in 0..rows.len() {
        let row = &rows[at];
        let form = row_form(alloc, scattering, &row.form)?;
        push_coordinate(alloc, out, scattering, wave + 1 + at, &form)?;
    }
    Ok(())
}

/// The equalities of a statement's scan set.
pub fn equalities(alloc: Global, scattering: &Scattering) -> Result<Vec<Form>, AllocError>
    ensures forms { IfOk result (λ fs. fs.items
        ≡ map (domain_form scattering.now.layout) scattering.now.statement.now.domain.equalities
        ++ dimension_equalities scattering.now.layout (items_of scattering.now.items.now)) }
    ensures sized { IfOk result (λ fs. All (λ f. variables_of f ≡ width scattering.now.layout) fs.items) }
{
    let domain = scattering.statement.domain();
    let mut out = Vec::new(alloc);
    push_domain(alloc, &mut out, scattering.layout, domain.equalities())?;
    push_waves(alloc, &mut out, scattering)?;
    push_item_values(alloc, &mut out, scattering)?;
    push_missing(alloc, &mut out, scattering)?;
    Ok(out)
}

/// The rows of a statement's scan set.
pub fn rows(alloc: Global, scattering: &Scattering) -> Result<Vec<Form>, AllocError>
    ensures forms { IfOk result (λ fs. fs.items
        ≡ map (domain_form scattering.now.layout) scattering.now.statement.now.domain.rows
        ++ variable (width scattering.now.layout) (length scattering.now.items.now.leading.items)
        ∷ are_coordinates scattering.now.layout (pos scattering.now.size)
        (length scattering.now.items.now.leading.items + 1) scattering.now.items.now.band.items) }
    ensures sized { IfOk result (λ fs. All (λ f. variables_of f ≡ width scattering.now.layout) fs.items) }
{
    let layout = scattering.layout;
    let domain = scattering.statement.domain();
    let wave = scattering.items.leading.len();
    let mut out = Vec::new(alloc);
    push_domain(alloc, &mut out, layout, domain.rows())?;
    push(&mut out, variable_form(alloc, layout.width(), wave)?)?;
    push_coordinates(alloc, &mut out, scattering)?;
    Ok(out)
}
