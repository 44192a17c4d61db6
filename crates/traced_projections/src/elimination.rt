//! A dimension eliminated from a system whose rows know of which of the first rows they are made.

ghost use Rattle.std.specs.Prelude.{◌≡◌, ◌+◌, ◌≤◌, ◌<◌, ◌^◌, All, IfOk, IfSome, MatchResult, None, Some, Err};
ghost use Rattle.std.specs.Prelude.{◌-◌};
ghost use Rattle.affine_forms.specs.Parts.{variables_of};
ghost use Rattle.fm_projection.specs.Gives.{Eliminates};
ghost use Rattle.fm_projection.specs.Projecting.{Follow, Passes, gone};
ghost use Rattle.traced_projections.specs.Tracing.{IsTraced, constraints_of, signed, tracing};
ghost use Rattle.traced_projections.specs.Eliminating.{Adds, DropsTraced, Halts, first_equality, frame_of};
ghost use Rattle.traced_projections.specs.Eliminating.{pairings_by, pairs_by, sources_by, sources_with};

use crate::making::{add_pairs, add_singles};
use crate::rows::{Row, Sign, coefficient, signed};
use crate::traced::Traced;
use affine_forms::{Form, push_copy};
use fm_projection::{FmStop, MOST_PAIRS, without};
use integer_sets::System;
use std::alloc::{AllocError, Global};

/// A copy of the first equality with a variable.
fn first_equality(equalities: &[Form], variable: usize) -> Result<Option<Form>, AllocError>
    ensures { IfOk result (λ e. e ≡ first_equality variable equalities.now) }
{
    for equality in equalities {
        if coefficient(equality, variable) != 0 {
            return match equality.copy() {
                Err(_) => Err(AllocError),
                Ok(copy) => Ok(Some(copy)),
            };
        }
    }
    Ok(None)
}

/// What is left of the equalities alone.
fn frame(alloc: Global, traced: &Traced, dimension: usize) -> Result<Vec<Form>, FmStop>
    requires { dimension < traced.now.dimensions }
    ensures { MatchResult result
        (λ v. Passes dimension (frame_of traced.now) × (v.items ≡ (gone dimension (frame_of traced.now)).equalities))
        (Halts (λ stop. Eliminates dimension (frame_of traced.now) (Err stop))) }
{
    match System::of(
        alloc,
        traced.dimensions,
        traced.parameters,
        &traced.equalities,
        &[],
    ) {
        Err(_) => Err(FmStop::NoMemory),
        Ok(frame) => match without(alloc, &frame, dimension) {
            Err(stop) => Err(stop),
            Ok(left) => {
                let (equalities, _) = left.into_parts();
                Ok(equalities)
            }
        },
    }
}

/// The rows whose coefficient of the dimension has the sign.
fn chosen(
    alloc: Global,
    traced: &Traced,
    dimension: usize,
    sign: Sign,
) -> Result<Vec<Row>, AllocError>
    ensures is { IfOk result (λ v. v.items ≡ signed sign dimension traced.now.rows) }
    ensures over { IfOk result
        (λ v. All (λ r. variables_of r.form ≡ traced.now.dimensions + traced.now.parameters) v.items) }
{
    signed(alloc, &traced.rows, dimension, sign)
}

/// How many pairs of rows there are: none by an equality.
fn count_pairs(
    alloc: Global,
    traced: &Traced,
    dimension: usize,
    equality: &Option<Form>,
) -> Result<u128, AllocError>
    ensures { IfOk result (λ n. n ≡ pairs_by equality.now dimension traced.now) }
{
    match equality {
        Some(_) => Ok(0),
        None => {
            let positive = chosen(alloc, traced, dimension, Sign::Positive)?;
            let negative = chosen(alloc, traced, dimension, Sign::Negative)?;
            Ok(positive.len() as u128 * negative.len() as u128)
        }
    }
}

/// How many eliminations by pairs there are then.
fn count_pairings(equality: &Option<Form>, pairings: usize) -> usize
    requires { pairings < 2 ^ 32 }
    ensures { result ≡ pairings_by equality.now pairings }
{
    match equality {
        Some(_) => pairings,
        None => pairings + 1,
    }
}

/// Also what is left of the rows with the dimension, each with an equality.
fn add_reduced(
    alloc: Global,
    out: &mut Vec<Row>,
    traced: &Traced,
    dimension: usize,
    equality: &Form,
) -> Result<(), FmStop>
    requires dimension { dimension < traced.now.dimensions }
    requires equality { variables_of equality.now ≡ traced.now.dimensions + traced.now.parameters }
    ensures { Adds dimension (sources_by (Some equality.now) dimension traced.now) out.old.items out.new.items
        result }
{
    let mut own = Vec::new(alloc);
    match push_copy(&mut own, equality) {
        Err(_) => return Err(FmStop::NoMemory),
        Ok(()) => {}
    }
    match chosen(alloc, traced, dimension, Sign::NotZero) {
        Err(_) => Err(FmStop::NoMemory),
        Ok(rows) => add_singles(alloc, out, traced, dimension, &own, &rows),
    }
}

/// Also what is left of the rows with the dimension in pairs.
fn add_paired(
    alloc: Global,
    out: &mut Vec<Row>,
    traced: &Traced,
    dimension: usize,
) -> Result<(), FmStop>
    requires dimension { dimension < traced.now.dimensions }
    requires few { traced.now.pairings < 2 ^ 32 }
    ensures { Adds dimension (sources_by None dimension traced.now) out.old.items out.new.items result }
{
    match chosen(alloc, traced, dimension, Sign::Positive) {
        Err(_) => Err(FmStop::NoMemory),
        Ok(positive) => match chosen(alloc, traced, dimension, Sign::Negative) {
            Err(_) => Err(FmStop::NoMemory),
            Ok(negative) => add_pairs(
                alloc,
                out,
                traced,
                dimension,
                traced.pairings + 2,
                &positive,
                &negative,
            ),
        },
    }
}

/// Also what is left of all rows, those without the dimension first.
fn add_all(
    alloc: Global,
    out: &mut Vec<Row>,
    traced: &Traced,
    dimension: usize,
    equality: &Option<Form>,
) -> Result<(), FmStop>
    requires dimension { dimension < traced.now.dimensions }
    requires few { traced.now.pairings < 2 ^ 32 }
    requires equality { IfSome equality.now (λ e. variables_of e ≡ traced.now.dimensions + traced.now.parameters) }
    ensures { Adds dimension (sources_with equality.now dimension traced.now) out.old.items out.new.items result }
{
    match chosen(alloc, traced, dimension, Sign::Zero) {
        Err(_) => return Err(FmStop::NoMemory),
        Ok(rows) => match add_singles(alloc, out, traced, dimension, &[], &rows) {
            Err(stop) => return Err(stop),
            Ok(()) => {}
        },
    }
    match equality {
        Some(equality) => add_reduced(alloc, out, traced, dimension, equality),
        None => add_paired(alloc, out, traced, dimension),
    }
}

/// The system of what is left of equalities and rows.
fn rest(traced: &Traced, equalities: Vec<Form>, rows: Vec<Row>, pairings: usize) -> Traced
    requires is { IsTraced (tracing (traced.now.dimensions - 1) traced.now.parameters equalities.items rows.items pairings) }
    requires some { 0 < traced.now.dimensions }
    ensures { result
        ≡ tracing (traced.now.dimensions - 1) traced.now.parameters equalities.items rows.items pairings }
{
    Traced {
        dimensions: traced.dimensions - 1,
        parameters: traced.parameters,
        equalities,
        rows,
        pairings,
    }
}

impl Traced {
    /// The system without a dimension and its column: by the first equality with the dimension where there is one, else
    /// by pairs of rows, of which those are formed that are made of few enough first rows; of rows with the same
    /// coefficients the tightest stays.
    ///
    /// # Errors
    /// `Crowded` where there is no such equality and there are more than 4,096 pairs, formed or not, which is told before
    /// any is formed; else `Wide` with the first number on the way that 128 bits do not hold.
    pub fn without(&self, alloc: Global, dimension: usize) -> Result<Traced, FmStop>
        requires { dimension < self.now.dimensions }
        ensures run { DropsTraced dimension self.now result }
        ensures points { IfOk result (λ t. Follow dimension (constraints_of self.now) (constraints_of t)) }
    {
        let equality = match first_equality(&self.equalities, dimension) {
            Err(_) => return Err(FmStop::NoMemory),
            Ok(equality) => equality,
        };
        match count_pairs(alloc, self, dimension, &equality) {
            Err(_) => return Err(FmStop::NoMemory),
            Ok(pairs) => {
                if pairs > MOST_PAIRS {
                    return Err(FmStop::Crowded { pairs });
                }
            }
        }
        let equalities = match frame(alloc, self, dimension) {
            Err(stop) => return Err(stop),
            Ok(equalities) => equalities,
        };
        let mut rows = Vec::new(alloc);
        match add_all(alloc, &mut rows, self, dimension, &equality) {
            Err(stop) => return Err(stop),
            Ok(()) => {}
        }
        let pairings = count_pairings(&equality, self.pairings);
        Ok(rest(self, equalities, rows, pairings))
    }
}
