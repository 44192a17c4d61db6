//! The rows that an elimination makes: of one row alone or with an equality, or of two.

ghost use Rattle.std.specs.Prelude.{◌≡◌, ◌+◌, ◌<◌, ◌∷◌, [], map, All, IfOk};
ghost use Rattle.affine_forms.specs.Parts.{variables_of};
ghost use Rattle.traced_projections.specs.Eliminating.{Adds, pair, pairs, pairs_with, single};

use crate::rows::{Row, put};
use crate::traced::Traced;
use affine_forms::{Form, copies, push_copy};
use fm_projection::{FmStop, without};
use integer_sets::System;
use std::alloc::{AllocError, Global};

/// Also the row that the elimination of a dimension leaves of constraints, if there is one.
fn add(
    alloc: Global,
    rows: &mut Vec<Row>,
    source: &System,
    dimension: usize,
    history: u128,
) -> Result<(), FmStop>
    requires { dimension < source.now.dimensions }
    ensures { Adds dimension (record { system = source.now; history = history } ∷ []) rows.old.items rows.new.items
        result }
{
    match without(alloc, source, dimension) {
        Err(stop) => Err(stop),
        Ok(left) => match left.rows().first() {
            None => Ok(()),
            Some(form) => match put(rows, form, history) {
                Err(_) => Err(FmStop::NoMemory),
                Ok(()) => Ok(()),
            },
        },
    }
}

/// A row with some of the equalities.
fn single(
    alloc: Global,
    traced: &Traced,
    equalities: &[Form],
    row: &Row,
) -> Result<System, AllocError>
    requires equalities { All (λ f. variables_of f ≡ traced.now.dimensions + traced.now.parameters) equalities.now }
    requires row { variables_of row.now.form ≡ traced.now.dimensions + traced.now.parameters }
    ensures { IfOk result (λ s. s ≡ (single traced.now equalities.now row.now).system) }
{
    let own = copies(alloc, equalities)?;
    let mut forms = Vec::new(alloc);
    push_copy(&mut forms, &row.form)?;
    Ok(System::from_parts(traced.dimensions, traced.parameters, own, forms))
}

/// Two rows.
fn pair(alloc: Global, traced: &Traced, row: &Row, other: &Row) -> Result<System, AllocError>
    requires row { variables_of row.now.form ≡ traced.now.dimensions + traced.now.parameters }
    requires other { variables_of other.now.form ≡ traced.now.dimensions + traced.now.parameters }
    ensures { IfOk result (λ s. s ≡ (pair traced.now row.now other.now).system) }
{
    let mut forms = Vec::new(alloc);
    push_copy(&mut forms, &row.form)?;
    push_copy(&mut forms, &other.form)?;
    Ok(System::from_parts(traced.dimensions, traced.parameters, Vec::new(alloc), forms))
}

/// Also what is left of each row with some of the equalities.
pub fn add_singles(
    alloc: Global,
    out: &mut Vec<Row>,
    traced: &Traced,
    dimension: usize,
    equalities: &[Form],
    rows: &[Row],
) -> Result<(), FmStop>
    requires dimension { dimension < traced.now.dimensions }
    requires equalities { All (λ f. variables_of f ≡ traced.now.dimensions + traced.now.parameters) equalities.now }
    requires rows { All (λ r. variables_of r.form ≡ traced.now.dimensions + traced.now.parameters) rows.now }
    ensures { Adds dimension (map (single traced.now equalities.now) rows.now) out.old.items out.new.items result }
{
    for row in rows {
        match single(alloc, traced, equalities, row) {
            Err(_) => return Err(FmStop::NoMemory),
            Ok(source) => match add(alloc, out, &source, dimension, row.history) {
                Err(stop) => return Err(stop),
                Ok(()) => {}
            },
        }
    }
    Ok(())
}

/// Also what is left of two rows, if they are made of so many first rows at most.
fn add_pair(
    alloc: Global,
    out: &mut Vec<Row>,
    traced: &Traced,
    dimension: usize,
    most: usize,
    row: &Row,
    other: &Row,
) -> Result<(), FmStop>
    requires dimension { dimension < traced.now.dimensions }
    requires row { variables_of row.now.form ≡ traced.now.dimensions + traced.now.parameters }
    requires other { variables_of other.now.form ≡ traced.now.dimensions + traced.now.parameters }
    ensures { Adds dimension (pairs_with traced.now most row.now (other.now ∷ [])) out.old.items out.new.items result }
{
    let history = row.history | other.history;
    if history.count_ones() as usize > most {
        return Ok(());
    }
    match pair(alloc, traced, row, other) {
        Err(_) => Err(FmStop::NoMemory),
        Ok(source) => add(alloc, out, &source, dimension, history),
    }
}

/// Also what is left of a row with each of others.
fn add_pairs_with(
    alloc: Global,
    out: &mut Vec<Row>,
    traced: &Traced,
    dimension: usize,
    most: usize,
    row: &Row,
    others: &[Row],
) -> Result<(), FmStop>
    requires dimension { dimension < traced.now.dimensions }
    requires row { variables_of row.now.form ≡ traced.now.dimensions + traced.now.parameters }
    requires others { All (λ r. variables_of r.form ≡ traced.now.dimensions + traced.now.parameters) others.now }
    ensures { Adds dimension (pairs_with traced.now most row.now others.now) out.old.items out.new.items result }
{
    for other in others {
        match add_pair(alloc, out, traced, dimension, most, row, other) {
            Err(stop) => return Err(stop),
            Ok(()) => {}
        }
    }
    Ok(())
}

/// Also what is left of each row with each of others.
pub fn add_pairs(
    alloc: Global,
    out: &mut Vec<Row>,
    traced: &Traced,
    dimension: usize,
    most: usize,
    rows: &[Row],
    others: &[Row],
) -> Result<(), FmStop>
    requires dimension { dimension < traced.now.dimensions }
    requires rows { All (λ r. variables_of r.form ≡ traced.now.dimensions + traced.now.parameters) rows.now }
    requires others { All (λ r. variables_of r.form ≡ traced.now.dimensions + traced.now.parameters) others.now }
    ensures { Adds dimension (pairs traced.now most rows.now others.now) out.old.items out.new.items result }
{
    for row in rows {
        match add_pairs_with(alloc, out, traced, dimension, most, row, others) {
            Err(stop) => return Err(stop),
            Ok(()) => {}
        }
    }
    Ok(())
}
