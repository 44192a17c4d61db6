//! A node that is not separated: one part, narrowed by those rows of single sets that leave out no point of another.

ghost use Rattle.std.specs.Prelude.{◌≡◌, suc, ◌+◌, [], ◌∷◌, All, IfOk, IsTrue, OnOk};
ghost use Rattle.whole_numbers.specs.Affine.{complement};
ghost use Rattle.affine_forms.specs.Parts.{variables_of};
ghost use Rattle.plain_scan.specs.Between.{HasSmallNumbers};
ghost use Rattle.plain_scan.specs.Hulls.{IsAlike, sets_in};
ghost use Rattle.split_scan.specs.steps.Questions.{IsCut};
ghost use Rattle.split_scan.specs.declared.part.Part.{Part};
ghost use Rattle.split_scan.specs.steps.Narrowing.{HasNoKey, HoldAtKeys};

use crate::cutting::{cell_of, is_known, lacks, one_part};
use crate::halt::Halt;
use crate::level::Level;
use crate::part::Part;
use crate::questions::complement;
use affine_forms::{Form, push, push_copy};
use plain_scan::shared::Outline;
use std::alloc::Global;

/// The cell where a row does not hold.
fn beyond(alloc: Global, row: &Form) -> Result<Part, Halt>
    requires { HasSmallNumbers row.now }
    ensures { IfOk result (λ p. p.cuts.items ≡ complement row.now ∷ []) }
{
    let far = complement(alloc, row)?;
    let mut cuts = Vec::new(alloc);
    push(&mut cuts, far)?;
    Ok(cell_of(alloc, cuts, false, false))
}

/// Whether no set has a point in the cell.
fn has_no_key(
    alloc: Global,
    level: &Level,
    outlines: &[Outline],
    depth: usize,
    cell: &Part,
) -> Result<bool, Halt>
    requires alike { All (IsAlike depth (level.now.place + 1 + level.now.parameters)) outlines.now }
    requires dimensions { All (λ o. o.set.now.system.dimensions ≡ level.now.place + suc depth) outlines.now }
    requires sized { All (λ f. variables_of f ≡ level.now.place + 1 + level.now.parameters) cell.now.cuts.items }
    ensures { IfOk result (λ none. IsTrue none → HasNoKey level.now.place level.now.inside.items (sets_in outlines.now)
        cell.now.cuts.items) }
{
    for outline in outlines {
        let none = lacks(alloc, level, cell, &outline.shadows[depth].rows)?;
        if !none {
            return Ok(false);
        }
    }
    Ok(true)
}

/// Narrows the node by a row of a set, unless a set has a point where it does not hold.
fn narrow_by(
    alloc: Global,
    level: &Level,
    outlines: &[Outline],
    depth: usize,
    row: &Form,
    cuts: &mut Vec<Form>,
) -> Result<(), Halt>
    requires alike { All (IsAlike depth (level.now.place + 1 + level.now.parameters)) outlines.now }
    requires dimensions { All (λ o. o.set.now.system.dimensions ≡ level.now.place + suc depth) outlines.now }
    requires row { variables_of row.now ≡ level.now.place + 1 + level.now.parameters }
    requires small { HasSmallNumbers row.now }
    ensures cuts { OnOk result (All (IsCut level.now.place (level.now.place + 1 + level.now.parameters)) cuts.old.items
        → All (IsCut level.now.place (level.now.place + 1 + level.now.parameters)) cuts.new.items) }
    ensures hold { OnOk result (HoldAtKeys level.now.place level.now.inside.items (sets_in outlines.now) cuts.old.items
        → HoldAtKeys level.now.place level.now.inside.items (sets_in outlines.now) cuts.new.items) }
{
    if row.coefficients()[level.place] == 0 {
        return Ok(());
    }
    if is_known(level, cuts, row) {
        return Ok(());
    }
    let cell = beyond(alloc, row)?;
    let none = has_no_key(alloc, level, outlines, depth, &cell)?;
    if !none {
        return Ok(());
    }
    push_copy(cuts, row)?;
    Ok(())
}

/// Narrows the node by rows of a set.
fn narrow_by_rows(
    alloc: Global,
    level: &Level,
    outlines: &[Outline],
    depth: usize,
    rows: &[Form],
    cuts: &mut Vec<Form>,
) -> Result<(), Halt>
    requires alike { All (IsAlike depth (level.now.place + 1 + level.now.parameters)) outlines.now }
    requires dimensions { All (λ o. o.set.now.system.dimensions ≡ level.now.place + suc depth) outlines.now }
    requires rows { All (λ f. variables_of f ≡ level.now.place + 1 + level.now.parameters) rows.now }
    requires small { All HasSmallNumbers rows.now }
    ensures cuts { OnOk result (All (IsCut level.now.place (level.now.place + 1 + level.now.parameters)) cuts.old.items
        → All (IsCut level.now.place (level.now.place + 1 + level.now.parameters)) cuts.new.items) }
    ensures hold { OnOk result (HoldAtKeys level.now.place level.now.inside.items (sets_in outlines.now) cuts.old.items
        → HoldAtKeys level.now.place level.now.inside.items (sets_in outlines.now) cuts.new.items) }
{
    for row in rows {
        narrow_by(alloc, level, outlines, depth, row, cuts)?;
    }
    Ok(())
}

/// The one part of a node: its hull, and those rows of single sets behind which no set has a point.
pub fn narrowed(
    alloc: Global,
    level: &Level,
    outlines: &[Outline],
    depth: usize,
) -> Result<Vec<Part>, Halt>
    requires alike { All (IsAlike depth (level.now.place + 1 + level.now.parameters)) outlines.now }
    requires dimensions { All (λ o. o.set.now.system.dimensions ≡ level.now.place + suc depth) outlines.now }
    ensures { IfOk result (λ v. (p : Part) × (v.items ≡ p ∷ []) × (p.stays.items ≡ [])
        × All (IsCut level.now.place (level.now.place + 1 + level.now.parameters)) p.cuts.items
        × HoldAtKeys level.now.place level.now.inside.items (sets_in outlines.now) p.cuts.items) }
{
    let mut cuts = Vec::new(alloc);
    for outline in outlines {
        narrow_by_rows(
            alloc,
            level,
            outlines,
            depth,
            &outline.shadows[depth].rows,
            &mut cuts,
        )?;
    }
    let parts = one_part(alloc, cuts)?;
    Ok(parts)
}
