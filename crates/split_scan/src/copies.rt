//! The sets of a part, with their outlines.

ghost use Rattle.std.specs.Prelude.{◌≡◌, ◌++◌, ◌∷◌, [], IfOk, OnOk, get_or, true};
ghost use Rattle.plain_scan.specs.Hulls.{sets_in};
ghost use Rattle.plain_scan.specs.Outlines.{AreShadows};
ghost use Rattle.plain_scan.specs.declared.outline.Shadow.{Shadow};
ghost use Rattle.split_scan.specs.steps.Copies.{AreCopies, IsCopy, one_if};
ghost use Rattle.split_scan.specs.steps.Parts.{staying};

use affine_forms::{Form, copies};
use integer_sets::ScanSet;
use plain_scan::shared::{Outline, Shadow};
use std::alloc::{AllocError, Global};

/// These rows with the numbers of the shadow.
fn with_numbers(shadow: &Shadow, rows: Vec<Form>) -> Shadow
    ensures rows { result.rows.items ≡ rows.items }
    ensures low { result.low ≡ shadow.now.low }
    ensures high { result.high ≡ shadow.now.high }
{
    Shadow {
        rows,
        low: shadow.low,
        high: shadow.high,
    }
}

/// Appends a copy of the shadow.
fn push_shadow(alloc: Global, out: &mut Vec<Shadow>, shadow: &Shadow) -> Result<(), AllocError>
    ensures { OnOk result ((copy : Shadow) × (out.new.items ≡ out.old.items ++ copy ∷ []) × IsCopy shadow.now copy) }
{
    let rows = copies(alloc, &shadow.rows)?;
    out.push(with_numbers(shadow, rows))?;
    Ok(())
}

/// Copies of shadows.
fn shadows_again(alloc: Global, shadows: &[Shadow]) -> Result<Vec<Shadow>, AllocError>
    ensures { IfOk result (λ v. AreCopies shadows.now v.items) }
{
    let mut out = Vec::new(alloc);
    for shadow in shadows {
        push_shadow(alloc, &mut out, shadow)?;
    }
    Ok(out)
}

/// The outline of these shadows.
fn of_shadows(set: &ScanSet, shadows: Vec<Shadow>) -> Outline
    requires { AreShadows set.now shadows.items }
    ensures { result.set.now ≡ set.now }
{
    Outline { set, shadows }
}

/// Appends a copy of the outline, of the same set.
fn push_outline<'a>(
    alloc: Global,
    out: &mut Vec<Outline<'a>>,
    outline: &Outline<'a>,
) -> Result<(), AllocError>
    ensures { OnOk result (sets_in out.new.items ≡ sets_in out.old.items ++ outline.now.set.now ∷ []) }
{
    let shadows = shadows_again(alloc, &outline.shadows)?;
    out.push(of_shadows(outline.set, shadows))?;
    Ok(())
}

/// Appends a copy of the outline if its set stays.
fn push_if<'a>(
    alloc: Global,
    out: &mut Vec<Outline<'a>>,
    outline: &Outline<'a>,
    stay: bool,
) -> Result<(), AllocError>
    ensures { OnOk result (sets_in out.new.items ≡ sets_in out.old.items ++ one_if stay outline.now.set.now) }
{
    if !stay {
        return Ok(());
    }
    push_outline(alloc, out, outline)
}

/// Whether the set at a place stays: one without a mark does.
fn stays_at(stays: &[bool], at: usize) -> bool
    ensures { result ≡ get_or stays.now at true }
{
    if at < stays.len() { stays[at] } else { true }
}

/// The outlines of the sets that stay.
pub fn staying<'a>(
    alloc: Global,
    outlines: &[Outline<'a>],
    stays: &[bool],
) -> Result<Vec<Outline<'a>>, AllocError>
    ensures { IfOk result (λ v. sets_in v.items ≡ staying stays.now (sets_in outlines.now)) }
{
    let mut out = Vec::new(alloc);
    for at in 0..outlines.len() {
        let stay = stays_at(stays, at);
        push_if(alloc, &mut out, &outlines[at], stay)?;
    }
    Ok(out)
}
