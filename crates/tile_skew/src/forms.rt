//! Forms over the variables of a scan set.
ghost use Rattle.std.specs.Prelude.{◌≡◌, ◌+◌, ◌<◌, ◌≤◌, ◌++◌, ◌∷◌, [], pos, ◌-ℤ◌, IfOk, OnOk, length};
ghost use Rattle.affine_forms.specs.Parts.{variables_of};
ghost use Rattle.whole_numbers.specs.Affine.{sum_of_forms, multiple_of_form};
ghost use Rattle.whole_numbers.specs.Lists.{zeros};
ghost use Rattle.iteration_domains.specs.Rows.{variable};
ghost use Rattle.conflict_deps.specs.Conflicts.{spread};
ghost use Rattle.tile_skew.specs.ScanSets.{carried, carried_form, domain_form, have_values, number_form, row_form};
ghost use Rattle.tile_skew.specs.ScanSets.{tile_begins, tile_ends, width};
ghost use Rattle.tile_skew.specs.steps.Sizes.{FitsTurns, FitsWidth};

use crate::layout::Layout;
use crate::scattering::Scattering;
use affine_forms::{Form, push};
use iteration_domains::{
    Numbers, constant_form, form_from, plus_multiple, push_numbers, push_zeros, variable_form,
};
use loop_tree::TileRow;
use scop_syntax::Aff;
use std::alloc::{AllocError, Global};

/// Appends 1 for each row that carries, and 0 for each other.
fn push_carried(numbers: &mut Numbers, rows: &[TileRow]) -> Result<(), AllocError>
    ensures { OnOk result (numbers.new.items ≡ numbers.old.items ++ carried rows.now) }
{
    for row in rows {
        numbers.push(i128::from(row.carries))?;
    }
    Ok(())
}

/// The coefficients of a form of the domain, over turns and parameters, over all variables.
fn domain_numbers(
    alloc: Global,
    layout: Layout,
    coefficients: &[i128],
) -> Result<Numbers, AllocError>
    requires { layout.turns ≤ length coefficients.now }
    ensures { IfOk result (λ all. all.items
        ≡ zeros layout.front ++ spread layout.missing layout.turns coefficients.now) }
{
    let mut numbers = Numbers::new(alloc);
    push_zeros(&mut numbers, layout.front)?;
    numbers.extend_from_slice(&coefficients[..layout.turns])?;
    push_zeros(&mut numbers, layout.missing)?;
    numbers.extend_from_slice(&coefficients[layout.turns..])?;
    Ok(numbers)
}

/// That form.
pub fn domain_form(alloc: Global, layout: Layout, form: &Form) -> Result<Form, AllocError>
    requires { layout.turns ≤ variables_of form.now }
    ensures { IfOk result (λ f. f ≡ domain_form layout form.now) }
{
    let numbers = domain_numbers(alloc, layout, form.coefficients())?;
    form_from(alloc, numbers.as_slice(), form.constant())
}

/// A number as a form.
pub fn number_form(alloc: Global, scattering: &Scattering, number: u64) -> Result<Form, AllocError>
    ensures form { IfOk result (λ f. f ≡ number_form scattering.now.layout (pos number)) }
    ensures small { IfOk result (FitsWidth scattering.now.layout) }
{
    constant_form(alloc, scattering.layout.width(), number as i128)
}

/// A row's form.
pub fn row_form(alloc: Global, scattering: &Scattering, form: &Aff) -> Result<Form, AllocError>
    requires { FitsTurns scattering.now.layout.turns form.now }
    ensures form { IfOk result (λ f. f ≡ row_form scattering.now.layout form.now) }
    ensures small { IfOk result (FitsWidth scattering.now.layout) }
{
    let layout = scattering.layout;
    let mut numbers = Numbers::new(alloc);
    push_zeros(&mut numbers, layout.front)?;
    push_numbers(&mut numbers, form.coefficients.as_slice())?;
    push_zeros(&mut numbers, layout.missing + layout.parameters)?;
    form_from(alloc, numbers.as_slice(), form.constant as i128)
}

/// The sum of the tile coordinates of the rows that carry.
pub fn carried_form(alloc: Global, scattering: &Scattering) -> Result<Form, AllocError>
    ensures form { IfOk result (λ f. f ≡ carried_form scattering.now.layout
        (length scattering.now.items.now.leading.items + 1) scattering.now.items.now.band.items) }
    ensures small { IfOk result (FitsWidth scattering.now.layout) }
{
    let width = scattering.layout.width();
    let wave = scattering.items.leading.len();
    let rows = scattering.items.band.as_slice();
    let mut numbers = Numbers::new(alloc);
    push_zeros(&mut numbers, wave + 1)?;
    push_carried(&mut numbers, rows)?;
    push_zeros(&mut numbers, width - (wave + 1 + rows.len()))?;
    form_from(alloc, numbers.as_slice(), 0)
}

/// Appends that dimension `at` has the value of the form.
pub fn push_value(
    alloc: Global,
    out: &mut Vec<Form>,
    scattering: &Scattering,
    at: usize,
    form: &Form,
) -> Result<(), AllocError>
    requires place { at < width scattering.now.layout }
    requires small { FitsWidth scattering.now.layout form.now }
    ensures { OnOk result (out.new.items ≡ out.old.items ++ have_values scattering.now.layout at (form.now ∷ [])) }
{
    let dimension = variable_form(alloc, scattering.layout.width(), at)?;
    let equality = plus_multiple(form, -1, &dimension)?;
    push(out, equality)
}

/// `row - size * T`, T being dimension `at`.
fn tile_begins(
    alloc: Global,
    scattering: &Scattering,
    at: usize,
    form: &Form,
) -> Result<Form, AllocError>
    requires place { at < width scattering.now.layout }
    requires small { FitsWidth scattering.now.layout form.now }
    ensures { IfOk result (λ f. f ≡ tile_begins scattering.now.layout (pos scattering.now.size) at form.now) }
{
    let dimension = variable_form(alloc, scattering.layout.width(), at)?;
    plus_multiple(form, -(scattering.size as i128), &dimension)
}

/// `size * T + size - 1`, T being dimension `at`.
fn tile_end(alloc: Global, scattering: &Scattering, at: usize) -> Result<Form, AllocError>
    requires { at < width scattering.now.layout }
    ensures { IfOk result (λ f. f
        ≡ sum_of_forms (number_form scattering.now.layout (pos scattering.now.size -ℤ pos 1))
        (multiple_of_form (pos scattering.now.size) (variable (width scattering.now.layout) at))) }
{
    let dimension = variable_form(alloc, scattering.layout.width(), at)?;
    let last = number_form(alloc, scattering, scattering.size - 1)?;
    plus_multiple(&last, scattering.size as i128, &dimension)
}

/// `size * T + size - 1 - row`, T being dimension `at`.
fn tile_ends(
    alloc: Global,
    scattering: &Scattering,
    at: usize,
    form: &Form,
) -> Result<Form, AllocError>
    requires place { at < width scattering.now.layout }
    requires small { FitsWidth scattering.now.layout form.now }
    ensures { IfOk result (λ f. f ≡ tile_ends scattering.now.layout (pos scattering.now.size) at form.now) }
{
    let end = tile_end(alloc, scattering, at)?;
    plus_multiple(&end, -1, form)
}

/// Appends that dimension `at` is the tile coordinate of the row.
pub fn push_coordinate(
    alloc: Global,
    out: &mut Vec<Form>,
    scattering: &Scattering,
    at: usize,
    form: &Form,
) -> Result<(), AllocError>
    requires place { at < width scattering.now.layout }
    requires small { FitsWidth scattering.now.layout form.now }
    ensures { OnOk result (out.new.items ≡ out.old.items
        ++ tile_begins scattering.now.layout (pos scattering.now.size) at form.now
        ∷ tile_ends scattering.now.layout (pos scattering.now.size) at form.now ∷ []) }
{
    let begins = tile_begins(alloc, scattering, at, form)?;
    push(out, begins)?;
    let ends = tile_ends(alloc, scattering, at, form)?;
    push(out, ends)
}
