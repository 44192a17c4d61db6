//! The projections of a set, dimension by dimension: rows that hold there, and numbers between which the dimension
//! lies. They are those that trace their rows; where a bound is missing there, the exact ones.

ghost use Rattle.std.specs.Prelude.{◌≡◌, ◌<◌, ◌^◌, IfErr};
ghost use Rattle.std.specs.Prelude.{IfOk, MatchOption, None, OnOk, IfSome, Ok, Err};
ghost use Rattle.integer_sets.specs.Constraints.{Constraints, IsSized, variables_in};
ghost use Rattle.fm_projection.specs.declared.stop.FmStop.TheVariants.{Large};
ghost use Rattle.traced_projections.specs.declared.projections.Projection.TheVariants as projection;
ghost use Rattle.traced_projections.specs.Projections.{LastFollows, PassesAlone, alone_of, system_in};
ghost use Rattle.plain_scan.specs.Between.{HasSmallNumbers, IsLargeOf};
ghost use Rattle.plain_scan.specs.Outlines.{AreShadows, HasSmallConstraints};
ghost use Rattle.plain_scan.specs.steps.Shadows.{AreRows, IsEquality, IsNext, IsOpenSomewhere};
ghost use Rattle.plain_scan.specs.Outlines.{IsOpen, IsOpenFrom};
ghost use Rattle.plain_scan.specs.Outlines.{StopsBy, StopsSet};
ghost use Rattle.plain_scan.specs.steps.Shadows.{IsRow, IsShadowIn, StopsNumbers, StopsShadow};

use crate::numbers::{has_small_numbers, large_among, numbers_alone};
use affine_forms::{Form, FormStop, push_copy};
use fm_projection::FmStop;
use integer_sets::{ScanSet, System};
use std::alloc::{AllocError, Global};
use traced_projections::{Projection, Traced};

/// Rows of small numbers of a projection, and two numbers between which its last dimension lies.
#[derive(Drop)]
pub struct Shadow {
    pub rows: Vec<Form>,
    pub low: i128,
    pub high: i128,
}

/// Appends a copy of the form where its numbers are small.
fn push_small(out: &mut Vec<Form>, form: &Form) -> Result<(), AllocError>
    ensures { OnOk result ((t : Constraints) → (HasSmallNumbers form.now → IsRow t form.now)
        → AreRows t out.old.items → AreRows t out.new.items) }
{
    if has_small_numbers(form) {
        push_copy(out, form)
    } else {
        Ok(())
    }
}

/// Appends an equality as two rows; one whose numbers are not small is left out.
fn push_both(out: &mut Vec<Form>, form: &Form) -> Result<(), AllocError>
    ensures { OnOk result ((t : Constraints) → IsEquality t form.now → AreRows t out.old.items
        → AreRows t out.new.items) }
{
    push_small(out, form)?;
    match form.scaled(-1) {
        Ok(other) => push_small(out, &other),
        Err(FormStop::Wide(_)) => Ok(()),
        Err(FormStop::NoMemory) => Err(AllocError),
    }
}

/// Whether a row says no more than another wherever no parameter is negative: the same coefficients of so many
/// dimensions, and none of a parameter less, nor the constant.
fn is_looser(row: &Form, other: &Form, dimensions: usize) -> bool {
    let (own, its) = (row.coefficients(), other.coefficients());
    if own.len() != its.len() || own.len() < dimensions || row.constant() < other.constant() {
        return false;
    }
    if own[..dimensions] != its[..dimensions] {
        return false;
    }
    for at in dimensions..own.len() {
        if own[at] < its[at] {
            return false;
        }
    }
    true
}

/// Whether one of the rows says all that the form does, and more if it is to.
pub fn has_tighter(rows: &[Form], form: &Form, dimensions: usize, more: bool) -> bool {
    for row in rows {
        if is_looser(form, row, dimensions) && !(more && is_looser(row, form, dimensions)) {
            return true;
        }
    }
    false
}

/// Appends a copy of the form where its numbers are small, if neither one of the others says more, no parameter being
/// negative, nor one that is there already says as much.
fn push_tightest(
    out: &mut Vec<Form>,
    form: &Form,
    others: &[Form],
    dimensions: usize,
) -> Result<(), AllocError>
    ensures { OnOk result ((t : Constraints) → (HasSmallNumbers form.now → IsRow t form.now)
        → AreRows t out.old.items → AreRows t out.new.items) }
{
    if has_tighter(others, form, dimensions, true) {
        return Ok(());
    }
    if has_tighter(out, form, dimensions, false) {
        return Ok(());
    }
    push_small(out, form)
}

/// The rows of a system that say most, no parameter being negative, and its equalities as two rows, as far as their
/// numbers are small.
fn rows_of(alloc: Global, system: &System) -> Result<Vec<Form>, AllocError>
    ensures { IfOk result (λ v. AreRows system.now v.items) }
{
    let mut out = Vec::new(alloc);
    for form in system.equalities() {
        push_both(&mut out, form)?;
    }
    for form in system.rows() {
        push_tightest(&mut out, form, system.rows(), system.dimensions())?;
    }
    Ok(out)
}

/// A number of a system's constraints that is beyond 2^40.
fn large_of(system: &System) -> Option<i128>
    ensures none { result ≡ None → HasSmallConstraints system.now }
    ensures sized { result ≡ None → IsSized (variables_in system.now) system.now.equalities system.now.rows }
    ensures some { IfSome result (IsLargeOf system.now) }
{
    match large_among(system.equalities()) {
        Some(number) => Some(number),
        None => large_among(system.rows()),
    }
}

/// No shadow: since a number is too large, or else none is there.
fn without_shadow(large: Option<i128>) -> Result<Option<Shadow>, FmStop>
    ensures { MatchOption large (result ≡ Ok None) (λ number. result ≡ Err (Large number)) }
{
    match large {
        Some(number) => Err(FmStop::Large { number }),
        None => Ok(None),
    }
}

/// The shadow of a projection of which this is left of its last dimension alone.
fn shadow_between(
    alloc: Global,
    projection: &System,
    alone: &System,
) -> Result<Option<Shadow>, FmStop>
    requires dimensions { alone.now.dimensions ≡ 1 }
    requires parameters { alone.now.parameters ≡ 0 }
    ensures found { IfOk result (λ found. MatchOption found (IsOpen alone.now) (IsShadowIn projection.now alone.now)) }
    ensures stops { IfErr result (StopsNumbers alone.now) }
{
    let numbers = numbers_alone(alone);
    match numbers.low {
        None => without_shadow(numbers.large),
        Some(low) => match numbers.high {
            None => without_shadow(numbers.large),
            Some(high) => match rows_of(alloc, projection) {
                Err(_) => Err(FmStop::NoMemory),
                Ok(rows) => Ok(Some(Shadow { rows, low, high })),
            },
        },
    }
}

/// The shadow of a projection; None where its last dimension has no bound from one side.
fn shadow_of(alloc: Global, projection: &Projection) -> Result<Option<Shadow>, FmStop>
    requires some { 0 < (system_in projection.now).dimensions }
    requires few { variables_in (system_in projection.now) < 2 ^ 32 }
    ensures passed { IfOk result (λ found. PassesAlone projection.now) }
    ensures follows { IfOk result (λ found. LastFollows (system_in projection.now) (alone_of projection.now)) }
    ensures found { IfOk result (λ found. MatchOption found (IsOpen (alone_of projection.now))
        (IsShadowIn (system_in projection.now) (alone_of projection.now))) }
    ensures stops { IfErr result (StopsShadow projection.now) }
{
    match projection.alone(alloc) {
        Err(stop) => Err(stop),
        Ok(alone) => match projection.system(alloc) {
            Err(_) => Err(FmStop::NoMemory),
            Ok(system) => shadow_between(alloc, &system, &alone),
        },
    }
}

/// The projection that comes behind so many others: without the last dimension of the one before it, or the first
/// itself.
fn next_projection(alloc: Global, last: Projection, count: usize) -> Result<Projection, FmStop>
    requires { 0 < (system_in last).dimensions }
    ensures { IsNext count last result }
{
    if count == 0 {
        return Ok(last);
    }
    last.without(alloc, last.dimensions() - 1)
}

/// The shadows of a set's projections of one kind, that on all dimensions first; None where a dimension has no bound
/// from one side.
fn outline_by(
    alloc: Global,
    set: &ScanSet,
    start: Projection,
) -> Result<Option<Vec<Shadow>>, FmStop>
    requires few { variables_in set.now.system < 2 ^ 32 }
    requires start { system_in start ≡ set.now.system }
    ensures found { IfOk result (λ found. MatchOption found (IsOpenFrom start) (λ v. AreShadows set.now v.items)) }
    ensures stops { IfErr result (StopsBy set.now.system start) }
{
    let system = set.system();
    let mut left = start;
    let mut shadows = Vec::new(alloc);
    for count in 0..system.dimensions() {
        match next_projection(alloc, left, count) {
            Err(stop) => return Err(stop),
            Ok(next) => left = next,
        }
        match shadow_of(alloc, &left) {
            Err(stop) => return Err(stop),
            Ok(None) => return Ok(None),
            Ok(Some(shadow)) => match shadows.push(shadow) {
                Err(_) => return Err(FmStop::NoMemory),
                Ok(()) => {}
            },
        }
    }
    match large_of(system) {
        Some(number) => Err(FmStop::Large { number }),
        None => Ok(Some(shadows)),
    }
}

/// The shadows of a set's exact projections.
fn exact_outline(alloc: Global, set: &ScanSet) -> Result<Option<Vec<Shadow>>, FmStop>
    requires few { variables_in set.now.system < 2 ^ 32 }
    ensures found { IfOk result (λ found. MatchOption found (IsOpenSomewhere set.now.system)
        (λ v. AreShadows set.now v.items)) }
    ensures stops { IfErr result (StopsBy set.now.system (projection.Exact set.now.system)) }
{
    let system = set.system();
    match System::of(
        alloc,
        system.dimensions(),
        system.parameters(),
        system.equalities(),
        system.rows(),
    ) {
        Err(_) => Err(FmStop::NoMemory),
        Ok(copy) => outline_by(alloc, set, Projection::Exact(copy)),
    }
}

/// The shadows of a set's projections, that on all dimensions first; None where a dimension has no bound from one side.
///
/// # Errors
/// `Wide` or `Crowded` as the first elimination that stops: of a projection's others and of the parameters, for its
/// last dimension alone, or then of that dimension, if it is not the first; `Large` with a number beyond 2^40 of what is
/// left of a last dimension alone, or of a constraint of the set; `NoMemory`. The projections trace their rows; where
/// one of them has no bound, the exact ones stop so.
pub fn outline_of(alloc: Global, set: &ScanSet) -> Result<Option<Vec<Shadow>>, FmStop>
    requires few { variables_in set.now.system < 2 ^ 32 }
    ensures found { IfOk result (λ found. MatchOption found (IsOpenSomewhere set.now.system)
        (λ v. AreShadows set.now v.items)) }
    ensures stops { IfErr result (StopsSet set.now.system) }
{
    match Traced::of(alloc, set.system()) {
        Err(_) => Err(FmStop::NoMemory),
        Ok(traced) => match outline_by(alloc, set, Projection::Traced(traced)) {
            Err(stop) => Err(stop),
            Ok(None) => exact_outline(alloc, set),
            Ok(Some(shadows)) => Ok(Some(shadows)),
        },
    }
}
