//! The elimination of a variable from a system, by an equality or by pairs of rows.

ghost use Rattle.std.specs.Prelude.{◌≡◌, ◌<◌, ◌≤◌, All, IfOk, length};
ghost use Rattle.affine_forms.specs.Gives.{Gives};
ghost use Rattle.affine_forms.specs.Parts.{variables_of};
ghost use Rattle.fractions.specs.Elimination.{first_with};
ghost use Rattle.integer_sets.specs.Constraints.{system_of, variables_in};
ghost use Rattle.fm_projection.specs.Gives.{Eliminates};
ghost use Rattle.fm_projection.specs.Projection.{IsEliminated, IsProjection, IsProjectionOver, IsWithout};
ghost use Rattle.fm_projection.specs.Runs.{eliminated_run, pairs_by, place_of};

use crate::rows;
use crate::stop::FmStop;
use affine_forms::{Form, FormStop};
use integer_sets::System;
use std::alloc::Global;

/// The most pairs of rows that an elimination forms.
pub const MOST_PAIRS: u128 = 4096;

/// The system without a variable, whose column stays with zeros: by the first equality that has it, or else by pairs
/// of rows. Constraints without the variable come first, in order, and all are in lowest terms.
///
/// # Errors
/// `Crowded` exactly where there is no such equality and more than 4,096 pairs are to be formed, which is told before
/// any is formed; else `Wide` with the first number on the way that 128 bits do not hold.
pub fn eliminate(alloc: Global, system: &System, variable: usize) -> Result<System, FmStop>
    requires { variable < variables_in system.now }
    ensures run { Eliminates variable system.now result }
    ensures exact { IfOk result (IsEliminated variable system.now) }
    ensures points { IfOk result (IsProjection variable system.now) }
    ensures fractions { IfOk result (IsProjectionOver variable system.now) }
    ensures without { IfOk result (IsWithout variable) }
{
    let place = rows::first_place(system.equalities(), variable);
    let pairs = count_pairs(system.equalities(), system.rows(), variable, place);
    if pairs > MOST_PAIRS {
        return Err(FmStop::Crowded { pairs });
    }
    match constraints(alloc, system, variable, place) {
        Err(FormStop::Wide(wide)) => Err(FmStop::Wide(wide)),
        Err(FormStop::NoMemory) => Err(FmStop::NoMemory),
        Ok((equalities, rows)) => Ok(System::from_parts(
            system.dimensions(),
            system.parameters(),
            equalities,
            rows,
        )),
    }
}

/// How many pairs of rows the elimination forms: none by an equality.
fn count_pairs(equalities: &[Form], rows: &[Form], variable: usize, place: usize) -> u128
    requires variable { All (λ f. variable < variables_of f) rows.now }
    requires place { place ≡ place_of variable equalities.now }
    ensures { result ≡ pairs_by variable (first_with variable equalities.now) rows.now }
{
    if place < equalities.len() {
        return 0;
    }
    let positive = rows::count_positive(rows, variable);
    let negative = rows::count_negative(rows, variable);
    positive as u128 * negative as u128
}

/// The equalities and the rows that are left.
fn constraints(
    alloc: Global,
    system: &System,
    variable: usize,
    place: usize,
) -> Result<(Vec<Form>, Vec<Form>), FormStop>
    requires variable { variable < variables_in system.now }
    requires place { place ≡ place_of variable system.now.equalities }
    ensures { Gives (λ p. system_of system.now.dimensions system.now.parameters p.0.items p.1.items) result
        (eliminated_run variable system.now) }
{
    if place < system.equalities().len() {
        by_equality(alloc, system, variable, place)
    } else {
        by_pairs(alloc, system, variable)
    }
}

fn by_equality(
    alloc: Global,
    system: &System,
    variable: usize,
    place: usize,
) -> Result<(Vec<Form>, Vec<Form>), FormStop>
    requires variable { variable < variables_in system.now }
    requires place { place ≡ place_of variable system.now.equalities }
    requires inside { place < length system.now.equalities }
    ensures { Gives (λ p. system_of system.now.dimensions system.now.parameters p.0.items p.1.items) result
        (eliminated_run variable system.now) }
{
    let all = system.equalities();
    let equality = &all[place];
    match rows::reduce_all(alloc, equality, &all[..place], &all[place + 1..], variable) {
        Err(stop) => Err(stop),
        Ok(equalities) => match rows::reduce_all(alloc, equality, &[], system.rows(), variable) {
            Err(stop) => Err(stop),
            Ok(rows) => Ok((equalities, rows)),
        },
    }
}

fn by_pairs(
    alloc: Global,
    system: &System,
    variable: usize,
) -> Result<(Vec<Form>, Vec<Form>), FormStop>
    requires variable { variable < variables_in system.now }
    requires place { length system.now.equalities ≤ place_of variable system.now.equalities }
    ensures { Gives (λ p. system_of system.now.dimensions system.now.parameters p.0.items p.1.items) result
        (eliminated_run variable system.now) }
{
    let mut equalities = Vec::new(alloc);
    match rows::append_lowest(&mut equalities, system.equalities()) {
        Err(_) => return Err(FormStop::NoMemory),
        Ok(()) => {}
    }
    match rows::project_all(alloc, system.rows(), variable) {
        Err(stop) => Err(stop),
        Ok(rows) => Ok((equalities, rows)),
    }
}
