//! Parts of a node in an order in which their loops may run one after another.

ghost use Rattle.std.specs.Prelude.{◌≡◌, ℕ, Bool, true, ◌+◌, ◌<◌, ◌≤◌, ◌++◌, [], ◌∷◌, List, All, IfOk, IsTrue};
ghost use Rattle.std.specs.Prelude.{OnOk, length, take};
ghost use Rattle.std.specs.Prelude.{drop, get_or, false};
ghost use Rattle.affine_forms.specs.Parts.{variables_of};
ghost use Rattle.integer_sets.specs.Scanned.{Scanned};
ghost use Rattle.split_scan.specs.steps.Parts.{HasMarks, IsPart};
ghost use Rattle.split_scan.specs.steps.Ordering.{AreBelow, AreEnoughParts, AreParts, IsBelowAll, Rise, difference};
ghost use Rattle.split_scan.specs.steps.Picking.{IsPicking};
ghost use Rattle.split_scan.specs.declared.part.Part.{Part};

use crate::halt::Halt;
use crate::level::Level;
use crate::part::Part;
use crate::questions::{has_none, joined};
use affine_forms::{Form, push, push_widened};
use std::alloc::{AllocError, Global};

/// The form x - y of the variable at a place and the one behind it.
fn difference(alloc: Global, variables: usize, place: usize) -> Result<Form, AllocError>
    requires { place + 1 < variables }
    ensures { IfOk result (λ f. f ≡ difference variables place) }
{
    let mut coefficients = Vec::from_elem(alloc, 0i128, variables)?;
    coefficients[place] = 1;
    coefficients[place + 1] = -1;
    match Form::of(alloc, &coefficients, 0) {
        Err(_) => Err(AllocError),
        Ok(form) => Ok(form),
    }
}

/// Whether at the same outer values each value of the first part is less than each of the second.
fn is_below(alloc: Global, level: &Level, first: &[Form], second: &[Form]) -> Result<bool, Halt>
    requires first { All (λ f. variables_of f ≡ level.now.place + 1 + level.now.parameters) first.now }
    requires second { All (λ f. variables_of f ≡ level.now.place + 1 + level.now.parameters) second.now }
    ensures { IfOk result (λ below. IsTrue below
        → AreBelow level.now.place level.now.inside.items first.now second.now) }
{
    if !level.natural {
        return Ok(false);
    }
    let lower = joined(alloc, &level.inside, first)?;
    let upper = joined(alloc, &level.inside, second)?;
    let mut rows = Vec::new(alloc);
    push_widened(alloc, &mut rows, &lower, level.place + 1)?;
    push_widened(alloc, &mut rows, &upper, level.place)?;
    let row = difference(alloc, level.place + 2 + level.parameters, level.place)?;
    push(&mut rows, row)?;
    has_none(alloc, level.place + 2, level.parameters, rows, level.budget)
}

/// How many of the first parts are below this one.
fn below(alloc: Global, level: &Level, parts: &[Part], part: &Part) -> Result<usize, Halt>
    requires parts { All (λ p. All (λ f. variables_of f ≡ level.now.place + 1 + level.now.parameters) p.cuts.items)
        parts.now }
    requires part { All (λ f. variables_of f ≡ level.now.place + 1 + level.now.parameters) part.now.cuts.items }
    ensures inside { IfOk result (λ n. n ≤ length parts.now) }
    ensures below { IfOk result (λ n. (k : ℕ) (d : Part) → k < n
        → AreBelow level.now.place level.now.inside.items (get_or parts.now k d).cuts.items part.now.cuts.items) }
{
    for at in 0..parts.len() {
        if !is_below(alloc, level, &parts[at].cuts, &part.cuts)? {
            return Ok(at);
        }
    }
    Ok(parts.len())
}

/// Stops where the part is not below each of these.
fn all_above(alloc: Global, level: &Level, part: &Part, parts: &[Part]) -> Result<(), Halt>
    requires parts { All (λ p. All (λ f. variables_of f ≡ level.now.place + 1 + level.now.parameters) p.cuts.items)
        parts.now }
    requires part { All (λ f. variables_of f ≡ level.now.place + 1 + level.now.parameters) part.now.cuts.items }
    ensures { OnOk result (IsBelowAll level.now.place level.now.inside.items part.now parts.now) }
{
    for other in parts {
        if !is_below(alloc, level, &part.cuts, &other.cuts)? {
            return Err(Halt::Stopped);
        }
    }
    Ok(())
}

/// Puts the part among others in their order.
fn insert(alloc: Global, level: &Level, parts: &mut Vec<Part>, part: Part) -> Result<(), Halt>
    requires parts { All (λ p. All (λ f. variables_of f ≡ level.now.place + 1 + level.now.parameters) p.cuts.items)
        parts.old.items }
    requires part { All (λ f. variables_of f ≡ level.now.place + 1 + level.now.parameters) part.cuts.items }
    ensures at { OnOk result ((at : ℕ)
        × (parts.new.items ≡ take at parts.old.items ++ part ∷ drop at parts.old.items)) }
    ensures rise { OnOk result (Rise level.now.place level.now.inside.items parts.old.items
        → Rise level.now.place level.now.inside.items parts.new.items) }
{
    let at = below(alloc, level, parts, &part)?;
    all_above(alloc, level, &part, &parts[at..])?;
    match parts.insert(at, part) {
        Err(_) => return Err(Halt::NoMemory),
        Ok(()) => {}
    }
    Ok(())
}

/// Whether a set stays.
fn has_set(stays: &[bool]) -> bool
    ensures none { result ≡ false → (k : ℕ) (d : Bool) → k < length stays.now → get_or stays.now k d ≡ false }
    ensures some { IsTrue result → (k : ℕ) × (k < length stays.now) × ((d : Bool) → get_or stays.now k d ≡ true) }
{
    stays.iter().any(|stay| *stay)
}

/// Puts the part among others in their order if a set stays in it.
fn pick(alloc: Global, level: &Level, parts: &mut Vec<Part>, part: Part) -> Result<(), Halt>
    requires parts { All (λ p. All (λ f. variables_of f ≡ level.now.place + 1 + level.now.parameters) p.cuts.items)
        parts.old.items }
    requires part { All (λ f. variables_of f ≡ level.now.place + 1 + level.now.parameters) part.cuts.items }
    ensures sized { OnOk result (All (λ p. All (λ f. variables_of f ≡ level.now.place + 1 + level.now.parameters)
        p.cuts.items) parts.new.items) }
    ensures rise { OnOk result (Rise level.now.place level.now.inside.items parts.old.items
        → Rise level.now.place level.now.inside.items parts.new.items) }
    ensures picked { OnOk result ((all : List Scanned) (rest : List Part)
        → IsPicking level.now.place (level.now.place + 1 + level.now.parameters) level.now.inside.items all
        (rest ++ part ∷ []) parts.old.items
        → IsPicking level.now.place (level.now.place + 1 + level.now.parameters) level.now.inside.items all
        rest parts.new.items) }
{
    if !has_set(&part.stays) {
        return Ok(());
    }
    insert(alloc, level, parts, part)?;
    Ok(())
}

/// The parts in their order, without those in which no set stays.
pub fn ordered(alloc: Global, level: &Level, parts: Vec<Part>) -> Result<Vec<Part>, Halt>
    requires { All (λ p. All (λ f. variables_of f ≡ level.now.place + 1 + level.now.parameters) p.cuts.items)
        parts.items }
    ensures { IfOk result (λ v. (all : List Scanned)
        → All (IsPart level.now.place (level.now.place + 1 + level.now.parameters) level.now.inside.items all)
        parts.items
        → All (HasMarks (length all)) parts.items
        → AreEnoughParts level.now.place level.now.inside.items all parts.items
        → AreParts level.now.place (level.now.place + 1 + level.now.parameters) level.now.inside.items all v.items) }
{
    let mut rest = parts;
    let mut out = Vec::new(alloc);
    while let Some(part) = rest.pop() {
        pick(alloc, level, &mut out, part)?;
    }
    Ok(out)
}
