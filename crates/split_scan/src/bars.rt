//! The rows of a node's hull that bound its loop, and what is known within the loop.

ghost use Rattle.std.specs.Prelude.{◌≡◌, ◌+◌, ◌<◌, ◌≤ℤ◌, ◌^◌, ◌++◌, [], ◌∷◌, List, All, IfOk, IsTrue, OnOk};
ghost use Rattle.std.specs.Prelude.{suc};
ghost use Rattle.std.specs.Prelude.{length, map, pos, ℤ};
ghost use Rattle.whole_numbers.specs.Affine.{Affine, widened};
ghost use Rattle.affine_forms.specs.Parts.{variables_of};
ghost use Rattle.fm_projection.specs.Alone.{place_form};
ghost use Rattle.plain_scan.specs.Hulls.{IsAlike};
ghost use Rattle.split_scan.specs.steps.Questions.{AreNatural};
ghost use Rattle.split_scan.specs.steps.Copies.{bounding_in};
ghost use Rattle.split_scan.specs.steps.Bounding.{AreBars};

use crate::level::Level;
use affine_forms::{Form, push_copies, push_copy, push_widened};
use plain_scan::shared::{Outline, hull};
use std::alloc::{AllocError, Global};

/// Appends a copy of the row if it bounds the variable.
fn push_bounding(out: &mut Vec<Form>, row: &Form, place: usize) -> Result<(), AllocError>
    requires { place < variables_of row.now }
    ensures { OnOk result (out.new.items ≡ out.old.items ++ bounding_in place (row.now ∷ [])) }
{
    if row.coefficients()[place] == 0 {
        Ok(())
    } else {
        push_copy(out, row)
    }
}

/// The rows that bound a variable.
fn bounding(alloc: Global, rows: &[Form], place: usize) -> Result<Vec<Form>, AllocError>
    requires { All (λ f. place < variables_of f) rows.now }
    ensures { IfOk result (λ v. v.items ≡ bounding_in place rows.now) }
{
    let mut out = Vec::new(alloc);
    for row in rows {
        push_bounding(&mut out, row, place)?;
    }
    Ok(out)
}

/// The rows of the hull that bound the loop's value.
pub fn bars(
    alloc: Global,
    outlines: &[Outline],
    depth: usize,
    place: usize,
    variables: usize,
) -> Result<Vec<Form>, AllocError>
    requires some { 0 < length outlines.now }
    requires inside { place < variables }
    requires alike { All (IsAlike depth variables) outlines.now }
    requires place { All (λ o. o.set.now.system.dimensions ≡ place + suc depth) outlines.now }
    ensures { IfOk result (λ v. AreBars depth place variables outlines.now v.items) }
{
    let rows = hull(alloc, outlines, depth, place, variables)?;
    bounding(alloc, &rows, place)
}

/// Whether the loop's value is not negative where its first row holds, and the outer ones are not.
fn is_natural(rows: &[Form], natural: bool) -> bool
    requires { 0 < length rows.now }
    ensures outer { IsTrue result → IsTrue natural }
    ensures low { IsTrue result → (f : Affine) (others : List Affine) → rows.now ≡ f ∷ others → f.constant ≤ℤ pos 0 }
{
    if natural {
        rows[0].constant() <= 0
    } else {
        false
    }
}

/// What is known within a loop between these rows.
pub fn level_of(
    alloc: Global,
    context: &[Form],
    rows: &[Form],
    natural: bool,
    place: usize,
    parameters: usize,
    budget: u64,
) -> Result<Level, AllocError>
    requires few { place + 1 + parameters < 2 ^ 33 }
    requires context { All (λ f. variables_of f ≡ place + parameters) context.now }
    requires sized { All (λ f. variables_of f ≡ place + 1 + parameters) rows.now }
    requires first { (low : ℤ) × (others : List Affine)
        × (rows.now ≡ place_form (place + 1 + parameters) place (pos 1) low ∷ others) }
    requires natural { IsTrue natural → AreNatural place context.now }
    ensures inside { IfOk result (λ l. l.inside.items ≡ map (widened place) context.now ++ rows.now) }
    ensures place { IfOk result (λ l. l.place ≡ place) }
    ensures parameters { IfOk result (λ l. l.parameters ≡ parameters) }
{
    let natural = is_natural(rows, natural);
    let mut inside = Vec::new(alloc);
    push_widened(alloc, &mut inside, context, place)?;
    push_copies(&mut inside, rows)?;
    Ok(Level {
        inside,
        place,
        parameters,
        natural,
        budget,
    })
}
