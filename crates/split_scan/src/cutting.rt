//! A node cut into cells by the rows of its sets' shadows.

ghost use Rattle.std.specs.Prelude.{◌≡◌, suc, ◌+◌, ◌<◌, ◌++◌, [], ◌∷◌, List, ℤ, All, IfOk, IsTrue, OnOk};
ghost use Rattle.affine_forms.specs.Parts.{variables_of};
ghost use Rattle.plain_scan.specs.Between.{HasSmallNumbers};
ghost use Rattle.plain_scan.specs.Hulls.{IsAlike};
ghost use Rattle.split_scan.specs.steps.Questions.{IsCut, IsIn, IsVoid};
ghost use Rattle.split_scan.specs.steps.Parts.{Goes, InPart, IsCell, IsHeld};
ghost use Rattle.split_scan.specs.declared.part.Part.{Part};

use crate::halt::Halt;
use crate::level::Level;
use crate::part::Part;
use crate::questions::{complement, is_void, joined};
use affine_forms::{Form, copies, push, push_copy};
use plain_scan::shared::{Outline, has_tighter};
use std::alloc::{AllocError, Global};

/// How a set cuts a cell: whether further sets cut what it cuts off, whether they cut what is left, and whether sets
/// are known to have points in what is cut off.
#[derive(Clone, Copy)]
struct Manner {
    beyond: bool,
    near: bool,
    held: bool,
}

/// The cell of these rows, without marks.
pub fn cell_of(alloc: Global, cuts: Vec<Form>, open: bool, held: bool) -> Part
    ensures cuts { result.cuts.items ≡ cuts.items }
    ensures stays { result.stays.items ≡ [] }
{
    Part {
        cuts,
        stays: Vec::new(alloc),
        open,
        held,
    }
}

/// Appends the cell of these rows.
fn push_cell(
    alloc: Global,
    out: &mut Vec<Part>,
    cuts: Vec<Form>,
    open: bool,
    held: bool,
) -> Result<(), AllocError>
    ensures { OnOk result ((p : Part) × (out.new.items ≡ out.old.items ++ p ∷ []) × (p.cuts.items ≡ cuts.items)) }
{
    out.push(cell_of(alloc, cuts, open, held))?;
    Ok(())
}

/// Whether a row of the node or of the cell says as much, no parameter being negative.
pub fn is_known(level: &Level, cuts: &[Form], row: &Form) -> bool {
    let dimensions = level.place + 1;
    has_tighter(&level.inside, row, dimensions, false) || has_tighter(cuts, row, dimensions, false)
}

/// Cuts by a row of a set: where it does not hold is a cell, and the rest goes on where it does.
fn cut_by(
    alloc: Global,
    level: &Level,
    how: Manner,
    row: &Form,
    cuts: &mut Vec<Form>,
    out: &mut Vec<Part>,
) -> Result<(), Halt>
    requires sized { All (λ f. variables_of f ≡ level.now.place + 1 + level.now.parameters) cuts.old.items }
    requires row { variables_of row.now ≡ level.now.place + 1 + level.now.parameters }
    requires small { HasSmallNumbers row.now }
    ensures cuts { OnOk result (All (IsCut level.now.place (level.now.place + 1 + level.now.parameters)) cuts.old.items
        → All (IsCut level.now.place (level.now.place + 1 + level.now.parameters)) cuts.new.items) }
    ensures cells { OnOk result (All (IsCut level.now.place (level.now.place + 1 + level.now.parameters)) cuts.old.items
        → All (IsCell level.now.place (level.now.place + 1 + level.now.parameters)) out.old.items
        → All (IsCell level.now.place (level.now.place + 1 + level.now.parameters)) out.new.items) }
    ensures goes { OnOk result (Goes level.now.place level.now.inside.items cuts.old.items out.old.items
        cuts.new.items out.new.items) }
    ensures sized { OnOk result (All (λ f. variables_of f ≡ level.now.place + 1 + level.now.parameters)
        cuts.new.items) }
{
    if row.coefficients()[level.place] == 0 {
        return Ok(());
    }
    if is_known(level, cuts, row) {
        return Ok(());
    }
    let far = complement(alloc, row)?;
    let mut beyond = copies(alloc, cuts)?;
    push(&mut beyond, far)?;
    if is_void(alloc, level, &beyond)? {
        return Ok(());
    }
    push_cell(alloc, out, beyond, how.beyond, how.held)?;
    push_copy(cuts, row)?;
    Ok(())
}

/// Appends the cells into which the rows of a set cut one where it has points.
fn cut_open(
    alloc: Global,
    level: &Level,
    cell: &Part,
    rows: &[Form],
    how: Manner,
    out: &mut Vec<Part>,
) -> Result<(), Halt>
    requires sized { All (λ f. variables_of f ≡ level.now.place + 1 + level.now.parameters) cell.now.cuts.items }
    requires rows { All (λ f. variables_of f ≡ level.now.place + 1 + level.now.parameters) rows.now }
    requires small { All HasSmallNumbers rows.now }
    ensures cells { OnOk result (IsCell level.now.place (level.now.place + 1 + level.now.parameters) cell.now
        → All (IsCell level.now.place (level.now.place + 1 + level.now.parameters)) out.old.items
        → All (IsCell level.now.place (level.now.place + 1 + level.now.parameters)) out.new.items) }
    ensures goes { OnOk result ((params outer : List ℤ) (x : ℤ)
        → IsIn level.now.place level.now.inside.items params outer x
        → IsHeld cell.now.cuts.items out.old.items (outer ++ x ∷ params) → InPart out.new.items (outer ++ x ∷ params)) }
{
    let mut cuts = copies(alloc, &cell.cuts)?;
    for row in rows {
        cut_by(alloc, level, how, row, &mut cuts, out)?;
    }
    push_cell(alloc, out, cuts, how.near, true)?;
    Ok(())
}

/// Appends the cell.
fn push_same(alloc: Global, cell: &Part, out: &mut Vec<Part>) -> Result<(), AllocError>
    ensures { OnOk result ((p : Part) × (out.new.items ≡ out.old.items ++ p ∷ [])
        × (p.cuts.items ≡ cell.now.cuts.items)) }
{
    let cuts = copies(alloc, &cell.cuts)?;
    push_cell(alloc, out, cuts, cell.open, cell.held)
}

/// Whether the set of these rows has no point in the cell.
pub fn lacks(alloc: Global, level: &Level, cell: &Part, rows: &[Form]) -> Result<bool, Halt>
    requires sized { All (λ f. variables_of f ≡ level.now.place + 1 + level.now.parameters) cell.now.cuts.items }
    requires rows { All (λ f. variables_of f ≡ level.now.place + 1 + level.now.parameters) rows.now }
    ensures { IfOk result (λ none. IsTrue none
        → IsVoid level.now.place level.now.inside.items (cell.now.cuts.items ++ rows.now)) }
{
    let within = joined(alloc, &cell.cuts, rows)?;
    is_void(alloc, level, &within)
}

/// Whether the set of these rows is to cut the cell.
fn is_cut(alloc: Global, level: &Level, cell: &Part, rows: &[Form]) -> Result<bool, Halt>
    requires sized { All (λ f. variables_of f ≡ level.now.place + 1 + level.now.parameters) cell.now.cuts.items }
    requires rows { All (λ f. variables_of f ≡ level.now.place + 1 + level.now.parameters) rows.now }
{
    if !cell.open {
        return Ok(false);
    }
    let none = lacks(alloc, level, cell, rows)?;
    Ok(!none)
}

/// How a set cuts the cell. If not all sets cut all cells, none cuts what lies beside a core: what is cut off a cell
/// with sets, and what a set that has points in such a cell has elsewhere.
fn cut_of(cell: &Part, all: bool, met: bool) -> Manner {
    Manner {
        beyond: all || !cell.held,
        near: all || cell.held || !met,
        held: cell.held,
    }
}

/// Appends the cells into which the rows of a set cut one.
fn cut(
    alloc: Global,
    level: &Level,
    cell: &Part,
    rows: &[Form],
    how: Manner,
    out: &mut Vec<Part>,
) -> Result<(), Halt>
    requires sized { All (λ f. variables_of f ≡ level.now.place + 1 + level.now.parameters) cell.now.cuts.items }
    requires rows { All (λ f. variables_of f ≡ level.now.place + 1 + level.now.parameters) rows.now }
    requires small { All HasSmallNumbers rows.now }
    ensures cells { OnOk result (IsCell level.now.place (level.now.place + 1 + level.now.parameters) cell.now
        → All (IsCell level.now.place (level.now.place + 1 + level.now.parameters)) out.old.items
        → All (IsCell level.now.place (level.now.place + 1 + level.now.parameters)) out.new.items) }
    ensures goes { OnOk result ((params outer : List ℤ) (x : ℤ)
        → IsIn level.now.place level.now.inside.items params outer x
        → IsHeld cell.now.cuts.items out.old.items (outer ++ x ∷ params) → InPart out.new.items (outer ++ x ∷ params)) }
{
    let cuts = is_cut(alloc, level, cell, rows)?;
    if !cuts {
        push_same(alloc, cell, out)?;
        return Ok(());
    }
    cut_open(alloc, level, cell, rows, how, out)
}

/// Whether a set is known to have points in the cell, and that of these rows may have some there.
fn meets(alloc: Global, level: &Level, cell: &Part, rows: &[Form]) -> Result<bool, Halt>
    requires sized { All (λ f. variables_of f ≡ level.now.place + 1 + level.now.parameters) cell.now.cuts.items }
    requires rows { All (λ f. variables_of f ≡ level.now.place + 1 + level.now.parameters) rows.now }
{
    if !cell.held {
        return Ok(false);
    }
    let none = lacks(alloc, level, cell, rows)?;
    Ok(!none)
}

/// Whether the set of these rows may have points in a cell where another has some; not asked where all sets cut.
fn is_met(
    alloc: Global,
    level: &Level,
    cells: &[Part],
    rows: &[Form],
    all: bool,
) -> Result<bool, Halt>
    requires sized { All (λ p. All (λ f. variables_of f ≡ level.now.place + 1 + level.now.parameters) p.cuts.items)
        cells.now }
    requires rows { All (λ f. variables_of f ≡ level.now.place + 1 + level.now.parameters) rows.now }
{
    if all {
        return Ok(false);
    }
    for cell in cells {
        if meets(alloc, level, cell, rows)? {
            return Ok(true);
        }
    }
    Ok(false)
}

/// The cells into which the rows of a set cut these.
fn cut_all(
    alloc: Global,
    level: &Level,
    cells: &[Part],
    rows: &[Form],
    all: bool,
) -> Result<Vec<Part>, Halt>
    requires sized { All (λ p. All (λ f. variables_of f ≡ level.now.place + 1 + level.now.parameters) p.cuts.items)
        cells.now }
    requires rows { All (λ f. variables_of f ≡ level.now.place + 1 + level.now.parameters) rows.now }
    requires small { All HasSmallNumbers rows.now }
    ensures cells { IfOk result (λ v.
        All (IsCell level.now.place (level.now.place + 1 + level.now.parameters)) cells.now
        → All (IsCell level.now.place (level.now.place + 1 + level.now.parameters)) v.items) }
    ensures goes { IfOk result (λ v. (params outer : List ℤ) (x : ℤ)
        → IsIn level.now.place level.now.inside.items params outer x
        → InPart cells.now (outer ++ x ∷ params) → InPart v.items (outer ++ x ∷ params)) }
{
    let met = is_met(alloc, level, cells, rows, all)?;
    let mut out = Vec::new(alloc);
    for cell in cells {
        let how = cut_of(cell, all, met);
        cut(alloc, level, cell, rows, how, &mut out)?;
    }
    Ok(out)
}

/// The part of these rows alone, in which all sets stay.
pub fn one_part(alloc: Global, cuts: Vec<Form>) -> Result<Vec<Part>, AllocError>
    ensures { IfOk result (λ v. (p : Part) × (v.items ≡ p ∷ []) × (p.cuts.items ≡ cuts.items) × (p.stays.items ≡ [])) }
{
    let mut parts = Vec::new(alloc);
    parts.push(cell_of(alloc, cuts, true, false))?;
    Ok(parts)
}

/// The cell of all of a node.
pub fn whole(alloc: Global) -> Result<Vec<Part>, AllocError>
    ensures { IfOk result (λ v. (p : Part) × (v.items ≡ p ∷ []) × (p.cuts.items ≡ []) × (p.stays.items ≡ [])) }
{
    one_part(alloc, Vec::new(alloc))
}

/// The cells of a node, at most so many: each of its sets cuts all, or all that are not beside a core.
pub fn cells_of(
    alloc: Global,
    level: &Level,
    outlines: &[Outline],
    depth: usize,
    all: bool,
    most: usize,
) -> Result<Vec<Part>, Halt>
    requires alike { All (IsAlike depth (level.now.place + 1 + level.now.parameters)) outlines.now }
    requires dimensions { All (λ o. o.set.now.system.dimensions ≡ level.now.place + suc depth) outlines.now }
    ensures cells { IfOk result (λ v.
        All (IsCell level.now.place (level.now.place + 1 + level.now.parameters)) v.items) }
    ensures enough { IfOk result (λ v. (params outer : List ℤ) (x : ℤ)
        → IsIn level.now.place level.now.inside.items params outer x → InPart v.items (outer ++ x ∷ params)) }
{
    let mut cells = whole(alloc)?;
    for outline in outlines {
        cells = cut_all(alloc, level, &cells, &outline.shadows[depth].rows, all)?;
        if cells.len() > most {
            return Err(Halt::Stopped);
        }
    }
    Ok(cells)
}
