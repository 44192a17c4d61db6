//! The cells of a node with marks: of each set whether it may have points there.

ghost use Rattle.std.specs.Prelude.{◌≡◌, suc, ◌+◌, ◌++◌, ◌∷◌, List, ℤ, All, IfOk, length};
ghost use Rattle.affine_forms.specs.Parts.{variables_of};
ghost use Rattle.plain_scan.specs.Hulls.{IsAlike, sets_in};
ghost use Rattle.split_scan.specs.steps.Questions.{IsIn};
ghost use Rattle.split_scan.specs.steps.Parts.{HasMarks, InPart, IsCell, IsPart, Keeps};

use crate::cutting::{cells_of, lacks};
use crate::halt::Halt;
use crate::level::Level;
use crate::part::Part;
use affine_forms::{Form, copies};
use plain_scan::shared::Outline;
use std::alloc::{AllocError, Global};

/// Of each set whether it may have points in the cell.
fn marks_of(
    alloc: Global,
    level: &Level,
    outlines: &[Outline],
    depth: usize,
    cell: &Part,
) -> Result<Vec<bool>, Halt>
    requires alike { All (IsAlike depth (level.now.place + 1 + level.now.parameters)) outlines.now }
    requires dimensions { All (λ o. o.set.now.system.dimensions ≡ level.now.place + suc depth) outlines.now }
    requires sized { All (λ f. variables_of f ≡ level.now.place + 1 + level.now.parameters) cell.now.cuts.items }
    ensures keeps { IfOk result (λ v. Keeps level.now.place level.now.inside.items (sets_in outlines.now) v.items
        cell.now.cuts.items) }
    ensures count { IfOk result (λ v. length v.items ≡ length outlines.now) }
{
    let mut stays = Vec::new(alloc);
    for outline in outlines {
        let none = lacks(alloc, level, cell, &outline.shadows[depth].rows)?;
        match stays.push(!none) {
            Err(_) => return Err(Halt::NoMemory),
            Ok(()) => {}
        }
    }
    Ok(stays)
}

/// The part of this cell's rows and these marks.
fn with_marks(alloc: Global, cell: &Part, stays: Vec<bool>) -> Result<Part, AllocError>
    ensures cuts { IfOk result (λ p. p.cuts.items ≡ cell.now.cuts.items) }
    ensures stays { IfOk result (λ p. p.stays.items ≡ stays.items) }
{
    let cuts = copies(alloc, &cell.cuts)?;
    Ok(Part {
        cuts,
        stays,
        open: cell.open,
        held: cell.held,
    })
}

/// The part of a cell.
fn marked(
    alloc: Global,
    level: &Level,
    outlines: &[Outline],
    depth: usize,
    cell: &Part,
) -> Result<Part, Halt>
    requires alike { All (IsAlike depth (level.now.place + 1 + level.now.parameters)) outlines.now }
    requires dimensions { All (λ o. o.set.now.system.dimensions ≡ level.now.place + suc depth) outlines.now }
    requires sized { All (λ f. variables_of f ≡ level.now.place + 1 + level.now.parameters) cell.now.cuts.items }
    ensures keeps { IfOk result (λ p. Keeps level.now.place level.now.inside.items (sets_in outlines.now) p.stays.items
        cell.now.cuts.items) }
    ensures cuts { IfOk result (λ p. p.cuts.items ≡ cell.now.cuts.items) }
    ensures count { IfOk result (HasMarks (length outlines.now)) }
{
    let stays = marks_of(alloc, level, outlines, depth, cell)?;
    let part = with_marks(alloc, cell, stays)?;
    Ok(part)
}

/// The parts of these cells.
fn all_marked(
    alloc: Global,
    level: &Level,
    outlines: &[Outline],
    depth: usize,
    cells: &[Part],
) -> Result<Vec<Part>, Halt>
    requires alike { All (IsAlike depth (level.now.place + 1 + level.now.parameters)) outlines.now }
    requires dimensions { All (λ o. o.set.now.system.dimensions ≡ level.now.place + suc depth) outlines.now }
    requires cells { All (IsCell level.now.place (level.now.place + 1 + level.now.parameters)) cells.now }
    ensures parts { IfOk result (λ v. All (IsPart level.now.place (level.now.place + 1 + level.now.parameters)
        level.now.inside.items (sets_in outlines.now)) v.items) }
    ensures marks { IfOk result (λ v. All (HasMarks (length outlines.now)) v.items) }
    ensures enough { IfOk result (λ v. (point : List ℤ) → InPart cells.now point → InPart v.items point) }
{
    let mut out = Vec::new(alloc);
    for cell in cells {
        let part = marked(alloc, level, outlines, depth, cell)?;
        match out.push(part) {
            Err(_) => return Err(Halt::NoMemory),
            Ok(()) => {}
        }
    }
    Ok(out)
}

/// The parts of a node, at most so many: where each of its sets has points and where it has none, or a core and what
/// lies beside it.
pub fn separated(
    alloc: Global,
    level: &Level,
    outlines: &[Outline],
    depth: usize,
    all: bool,
    most: usize,
) -> Result<Vec<Part>, Halt>
    requires alike { All (IsAlike depth (level.now.place + 1 + level.now.parameters)) outlines.now }
    requires dimensions { All (λ o. o.set.now.system.dimensions ≡ level.now.place + suc depth) outlines.now }
    ensures parts { IfOk result (λ v. All (IsPart level.now.place (level.now.place + 1 + level.now.parameters)
        level.now.inside.items (sets_in outlines.now)) v.items) }
    ensures marks { IfOk result (λ v. All (HasMarks (length outlines.now)) v.items) }
    ensures enough { IfOk result (λ v. (params outer : List ℤ) (x : ℤ)
        → IsIn level.now.place level.now.inside.items params outer x → InPart v.items (outer ++ x ∷ params)) }
{
    let cells = cells_of(alloc, level, outlines, depth, all, most)?;
    all_marked(alloc, level, outlines, depth, &cells)
}
