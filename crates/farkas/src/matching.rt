//! The matching of coefficients: an equality for each variable of a dependence and one for the constant, over the
//! unknowns, `m0` and the multipliers.

ghost use Rattle.std.specs.Prelude.{◌≡◌, ◌<◌, ◌≤◌, ◌+◌, ◌++◌, ◌^◌, pos, All, IfOk, Ok, vec_len};
ghost use Rattle.affine_forms.specs.Parts.{variables_of};
ghost use Rattle.whole_numbers.specs.Affine.{form_of};
ghost use Rattle.whole_numbers.specs.Lists.{zeros};
ghost use Rattle.affine_forms.specs.Gives.{Gives};
ghost use Rattle.integer_sets.specs.Constraints.{variables_in};
ghost use Rattle.iteration_domains.specs.Dependence.{IsOne, binds_between};
ghost use Rattle.farkas.specs.Unknowns.{layout_of};
ghost use Rattle.farkas.specs.Claims.{bound_factor, only, iterators, nones, parameters, linear, constant};
ghost use Rattle.farkas.specs.Matching.{entry_of, HasEntry, equality_columns_run, row_columns_run, matched_run};
ghost use Rattle.farkas.specs.Matching.{coefficients_run, matching_run};
ghost use Rattle.farkas.specs.steps.Questions.{Gains};
ghost use Rattle.fractions.specs.Farkas.{own_rows};
ghost use Rattle.farkas.specs.declared.matching.Entry.TheVariants.{Coefficient, Constant};

use crate::claim::Claim;
use crate::layout::Layout;
use affine_forms::{Form, FormStop};
use integer_sets::System;
use iteration_domains::DepEnd;
use std::alloc::{AllocError, Global};
use wide_math::sub;

/// A number of a form: the coefficient of a variable, or the constant.
#[derive(Clone, Copy)]
pub enum Entry {
    Coefficient(usize),
    Constant,
}

/// The number of a form.
fn number(form: &Form, entry: Entry) -> i128
    requires { HasEntry entry (variables_of form.now) }
    ensures { result ≡ entry_of entry form.now }
{
    match entry {
        Entry::Coefficient(variable) => form.coefficients()[variable],
        Entry::Constant => form.constant(),
    }
}

/// Appends, of each equality, the number's opposite for its form and the number for the form's opposite.
fn append_equalities(
    numbers: &mut Vec<i128>,
    equalities: &[Form],
    entry: Entry,
) -> Result<(), FormStop>
    requires { All (λ f. HasEntry entry (variables_of f)) equalities.now }
    ensures { Gains numbers.old.items numbers.new.items result (equality_columns_run entry equalities.now) }
{
    for form in equalities {
        let own = number(form, entry);
        match sub(0, own) {
            Err(wide) => return Err(FormStop::Wide(wide)),
            Ok(opposite) => match numbers.extend_from_slice(&[opposite, own]) {
                Err(_) => return Err(FormStop::NoMemory),
                Ok(()) => {}
            },
        }
    }
    Ok(())
}

/// Appends the number's opposite of each row.
fn append_rows(numbers: &mut Vec<i128>, rows: &[Form], entry: Entry) -> Result<(), FormStop>
    requires { All (λ f. HasEntry entry (variables_of f)) rows.now }
    ensures { Gains numbers.old.items numbers.new.items result (row_columns_run entry rows.now) }
{
    for form in rows {
        match sub(0, number(form, entry)) {
            Err(wide) => return Err(FormStop::Wide(wide)),
            Ok(opposite) => match numbers.push(opposite) {
                Err(_) => return Err(FormStop::NoMemory),
                Ok(()) => {}
            },
        }
    }
    Ok(())
}

/// The equality of a number: the claimed form's over the unknowns, then the column of `m0`, then the rows' numbers with
/// the opposite sign.
#[tactic(auto, unfolding(crate::specs::Matching::matched_run))]
fn matched(
    alloc: Global,
    own: Vec<i128>,
    free: i128,
    system: &System,
    entry: Entry,
) -> Result<Form, FormStop>
    requires { HasEntry entry (variables_in system.now) }
    ensures { Gives (λ f. f) result (matched_run entry own.items free system.now) }
{
    let mut numbers = own;
    match numbers.push(free) {
        Err(_) => return Err(FormStop::NoMemory),
        Ok(()) => {}
    }
    match append_equalities(&mut numbers, system.equalities(), entry) {
        Err(stop) => return Err(stop),
        Ok(()) => {}
    }
    match append_rows(&mut numbers, system.rows(), entry) {
        Err(stop) => return Err(stop),
        Ok(()) => {}
    }
    Form::of(alloc, &numbers, 0)
}

/// So many numbers, of which only the one at the place is not 0.
fn only_at(alloc: Global, count: usize, place: usize, factor: i128) -> Result<Vec<i128>, AllocError>
    requires { place < count }
    ensures factors { IfOk result (λ v. v.items ≡ only count place factor) }
    ensures len { IfOk result (λ v. vec_len v ≡ count) }
{
    match Vec::from_elem(alloc, 0i128, count) {
        Err(_) => Err(AllocError),
        Ok(mut numbers) => {
            numbers[place] = factor;
            Ok(numbers)
        }
    }
}

/// The equality of a coefficient that is a factor times the unknown at a place.
fn match_coefficient(
    alloc: Global,
    system: &System,
    unknowns: usize,
    place: usize,
    factor: i128,
    variable: usize,
) -> Result<Form, FormStop>
    requires place { place < unknowns }
    requires variable { variable < variables_in system.now }
    ensures { Gives (λ f. f) result
        (matched_run (Coefficient variable) (only unknowns place factor) (pos 0) system.now) }
{
    match only_at(alloc, unknowns, place, factor) {
        Err(_) => Err(FormStop::NoMemory),
        Ok(own) => matched(alloc, own, 0, system, Entry::Coefficient(variable)),
    }
}

/// The equality of a coefficient in which no unknown stands.
fn match_none(
    alloc: Global,
    system: &System,
    unknowns: usize,
    variable: usize,
) -> Result<Form, FormStop>
    requires variable { variable < variables_in system.now }
    ensures { Gives (λ f. f) result (matched_run (Coefficient variable) (zeros unknowns) (pos 0) system.now) }
{
    match Vec::from_elem(alloc, 0i128, unknowns) {
        Err(_) => Err(FormStop::NoMemory),
        Ok(own) => matched(alloc, own, 0, system, Entry::Coefficient(variable)),
    }
}

/// Appends the equalities of a statement's iterators, from the outermost; their coefficients stand the other way.
fn match_iterators(
    equalities: &mut Vec<Form>,
    system: &System,
    unknowns: usize,
    first: usize,
    loops: usize,
    factor: i128,
    variable: usize,
) -> Result<(), FormStop>
    requires place { first + loops ≤ unknowns }
    requires variable { variable + loops ≤ variables_in system.now }
    requires fits { variables_in system.now < 2 ^ 64 }
    ensures { Gains equalities.old.items equalities.new.items result
        (coefficients_run variable (iterators unknowns first factor loops) system.now) }
{
    let alloc = *equalities.allocator();
    for depth in 0..loops {
        let place = first + (loops - 1 - depth);
        match match_coefficient(alloc, system, unknowns, place, factor, variable + depth) {
            Err(stop) => return Err(stop),
            Ok(form) => match equalities.push(form) {
                Err(_) => return Err(FormStop::NoMemory),
                Ok(()) => {}
            },
        }
    }
    Ok(())
}

/// Appends the equalities of the parameters.
fn match_parameters(
    equalities: &mut Vec<Form>,
    system: &System,
    unknowns: usize,
    factor: i128,
) -> Result<(), FormStop>
    requires place { system.now.parameters ≤ unknowns }
    requires fits { variables_in system.now < 2 ^ 64 }
    ensures { Gains equalities.old.items equalities.new.items result
        (coefficients_run system.now.dimensions (parameters unknowns 0 factor system.now.parameters) system.now) }
{
    let alloc = *equalities.allocator();
    let variable = system.dimensions();
    for place in 0..system.parameters() {
        match match_coefficient(alloc, system, unknowns, place, factor, variable + place) {
            Err(stop) => return Err(stop),
            Ok(form) => match equalities.push(form) {
                Err(_) => return Err(FormStop::NoMemory),
                Ok(()) => {}
            },
        }
    }
    Ok(())
}

/// The claimed form's constant over the unknowns: the shifts, and `w` in a bound.
#[tactic(auto, unfolding(crate::specs::Claims::constant))]
fn constant_factors(
    alloc: Global,
    claim: Claim,
    source: DepEnd,
    target: DepEnd,
    layout: Layout,
    parameters: usize,
) -> Result<Vec<i128>, AllocError>
    requires one { IsOne source target }
    requires layout { layout ≡ layout_of parameters source target }
    ensures { IfOk result (λ v. v.items ≡ constant claim source target parameters) }
{
    match only_at(alloc, layout.unknowns, parameters, claim.bound()) {
        Err(_) => Err(AllocError),
        Ok(mut numbers) => {
            if source.statement != target.statement {
                numbers[layout.source + source.loops] = claim.source();
                numbers[layout.target + target.loops] = claim.target();
            }
            Ok(numbers)
        }
    }
}

/// Appends the equalities of what is bound behind the turns of both ends, in which no unknown stands.
fn match_nones(
    equalities: &mut Vec<Form>,
    system: &System,
    unknowns: usize,
    count: usize,
    variable: usize,
) -> Result<(), FormStop>
    requires variable { variable + count ≤ variables_in system.now }
    requires fits { variables_in system.now < 2 ^ 64 }
    ensures { Gains equalities.old.items equalities.new.items result
        (coefficients_run variable (nones unknowns count) system.now) }
{
    let alloc = *equalities.allocator();
    for at in 0..count {
        match match_none(alloc, system, unknowns, variable + at) {
            Err(stop) => return Err(stop),
            Ok(form) => match equalities.push(form) {
                Err(_) => return Err(FormStop::NoMemory),
                Ok(()) => {}
            },
        }
    }
    Ok(())
}

/// Appends the equalities of all that stands behind the turns of both ends.
fn match_rest(
    equalities: &mut Vec<Form>,
    claim: Claim,
    source: DepEnd,
    target: DepEnd,
    unknowns: usize,
    system: &System,
) -> Result<(), FormStop>
    requires place { system.now.parameters ≤ unknowns }
    requires iterators { source.loops + target.loops ≤ system.now.dimensions }
    requires fits { variables_in system.now < 2 ^ 64 }
    ensures { Gains equalities.old.items equalities.new.items result
        (coefficients_run (source.loops + target.loops) (nones unknowns (binds_between source target system.now)
        ++ parameters unknowns 0 (bound_factor claim) system.now.parameters) system.now) }
{
    let turns = source.loops + target.loops;
    let count = system.dimensions() - turns;
    match match_nones(equalities, system, unknowns, count, turns) {
        Err(stop) => return Err(stop),
        Ok(()) => {}
    }
    match_parameters(equalities, system, unknowns, claim.bound())
}

/// The equalities of all coefficients in order.
#[tactic(auto, unfolding(crate::specs::Claims::linear))]
fn match_coefficients(
    equalities: &mut Vec<Form>,
    claim: Claim,
    source: DepEnd,
    target: DepEnd,
    layout: Layout,
    system: &System,
) -> Result<(), FormStop>
    requires layout { layout ≡ layout_of system.now.parameters source target }
    requires one { IsOne source target }
    requires iterators { source.loops + target.loops ≤ system.now.dimensions }
    requires fits { variables_in system.now < 2 ^ 64 }
    ensures { Gains equalities.old.items equalities.new.items result
        (coefficients_run 0 (linear claim source target (binds_between source target system.now) system.now.parameters)
        system.now) }
{
    let unknowns = layout.unknowns;
    let factor = claim.source();
    match match_iterators(
        equalities,
        system,
        unknowns,
        layout.source,
        source.loops,
        factor,
        0,
    ) {
        Err(stop) => return Err(stop),
        Ok(()) => {}
    }
    let (first, factor) = (layout.target, claim.target());
    match match_iterators(
        equalities,
        system,
        unknowns,
        first,
        target.loops,
        factor,
        source.loops,
    ) {
        Err(stop) => return Err(stop),
        Ok(()) => {}
    }
    match_rest(equalities, claim, source, target, unknowns, system)
}

/// The equalities of all coefficients in order, then that of the constant.
#[tactic(auto, unfolding(crate::specs::Matching::matching_run))]
pub fn matching(
    alloc: Global,
    claim: Claim,
    source: DepEnd,
    target: DepEnd,
    layout: Layout,
    system: &System,
) -> Result<Vec<Form>, FormStop>
    requires layout { layout ≡ layout_of system.now.parameters source target }
    requires one { IsOne source target }
    requires iterators { source.loops + target.loops ≤ system.now.dimensions }
    requires fits { variables_in system.now < 2 ^ 64 }
    ensures { Gives (λ v. v.items) result (matching_run
        (linear claim source target (binds_between source target system.now) system.now.parameters)
        (constant claim source target system.now.parameters) system.now) }
{
    let mut equalities = Vec::new(alloc);
    match match_coefficients(&mut equalities, claim, source, target, layout, system) {
        Err(stop) => return Err(stop),
        Ok(()) => {}
    }
    let own = match constant_factors(alloc, claim, source, target, layout, system.parameters()) {
        Err(_) => return Err(FormStop::NoMemory),
        Ok(own) => own,
    };
    match matched(alloc, own, -1, system, Entry::Constant) {
        Err(stop) => Err(stop),
        Ok(form) => match equalities.push(form) {
            Err(_) => Err(FormStop::NoMemory),
            Ok(()) => Ok(equalities),
        },
    }
}

/// The row of one last variable: it is not negative.
fn own_row(alloc: Global, variables: usize, place: usize) -> Result<Form, FormStop>
    requires { place < variables }
    ensures { Gives (λ f. f) result (Ok (form_of (only variables place (pos 1)) (pos 0))) }
{
    match only_at(alloc, variables, place, 1) {
        Err(_) => Err(FormStop::NoMemory),
        Ok(numbers) => Form::of(alloc, &numbers, 0),
    }
}

/// The rows of so many last variables: each is not negative.
pub fn last_rows(alloc: Global, before: usize, count: usize) -> Result<Vec<Form>, FormStop>
    requires { before + count < 2 ^ 64 }
    ensures { Gives (λ v. v.items) result (Ok (own_rows before count)) }
{
    let mut rows = Vec::new(alloc);
    for at in 0..count {
        match own_row(alloc, before + count, before + at) {
            Err(stop) => return Err(stop),
            Ok(row) => match rows.push(row) {
                Err(_) => return Err(FormStop::NoMemory),
                Ok(()) => {}
            },
        }
    }
    Ok(rows)
}
