//! The trees of a node, from the outermost dimension in.

ghost use Rattle.std.specs.Prelude.{◌≡◌, ℕ, suc, ◌+◌, ◌<◌, ◌^◌, ◌++◌, [], ◌∷◌, List, All, IfOk, IsTrue, OnOk};
ghost use Rattle.std.specs.Prelude.{length, map};
ghost use Rattle.whole_numbers.specs.Affine.{Affine};
ghost use Rattle.affine_forms.specs.Parts.{variables_of};
ghost use Rattle.loop_tree.specs.Tree.{loop};
ghost use Rattle.loop_tree.specs.View.{nodes_of, tree_of};
ghost use Rattle.plain_scan.specs.Hulls.{IsAlike, sets_in};
ghost use Rattle.plain_scan.specs.Rows.{low_bounds, high_bounds};
ghost use Rattle.plain_scan.specs.Sets.{NumbersRise, IsShaped};
ghost use Rattle.plain_scan.specs.Sorting.{lows_in, highs_in};
ghost use Rattle.split_scan.specs.steps.Questions.{AreNatural, IsCut};
ghost use Rattle.split_scan.specs.steps.Ordering.{AreParts};
ghost use Rattle.plain_scan.specs.steps.Nodes.{IsNode};

use crate::bars::{bars, level_of};
use crate::copies::staying;
use crate::cutting::whole;
use crate::halt::Halt;
use crate::level::Level;
use crate::marking::separated;
use crate::narrowing::narrowed;
use crate::ordering::ordered;
use crate::part::Part;
use crate::questions::joined;
use affine_forms::Form;
use loop_tree::Node;
use plain_scan::shared::{Outline, Shadow, leaves, loop_round};
use std::alloc::{AllocError, Global};

/// The greatest number of parts of a node beside a core.
const MOST: usize = 72;

/// What all nodes of a scan share: how many parameters there are, which dimension is marked, at how many of the first
/// ones the hull of all sets is taken, and how many moves a question may make.
#[derive(Clone, Copy)]
pub struct Shape {
    pub parameters: usize,
    pub parallel: Option<usize>,
    pub hulls: usize,
    pub budget: u64,
}

/// Whether a shadow is there, of one number.
fn is_number(shadow: Option<&Shadow>) -> bool {
    match shadow {
        None => false,
        Some(shadow) => shadow.low == shadow.high,
    }
}

/// Whether each of the sets has one number at a dimension.
fn are_numbers(outlines: &[Outline], depth: usize) -> bool {
    for outline in outlines {
        if !is_number(outline.shadows.get(depth)) {
            return false;
        }
    }
    true
}

/// Whether sets are to be separated at the dimension of a node.
fn is_apart(level: &Level, numbers: bool, hulls: usize) -> bool {
    level.natural && (numbers || hulls <= level.place)
}

/// The parts of a node in their order.
fn separated_in_order(
    alloc: Global,
    level: &Level,
    outlines: &[Outline],
    depth: usize,
    all: bool,
    most: usize,
) -> Result<Vec<Part>, Halt>
    requires alike { All (IsAlike depth (level.now.place + 1 + level.now.parameters)) outlines.now }
    requires dimensions { All (λ o. o.set.now.system.dimensions ≡ level.now.place + suc depth) outlines.now }
    ensures { IfOk result (λ v. AreParts level.now.place (level.now.place + 1 + level.now.parameters)
        level.now.inside.items (sets_in outlines.now) v.items) }
{
    let parts = separated(alloc, level, outlines, depth, all, most)?;
    ordered(alloc, level, parts)
}

/// The greatest number of parts that each set cuts: two borders a set, or one a number.
fn most_parts(sets: usize, numbers: bool) -> usize {
    if numbers {
        usize::MAX
    } else {
        sets.saturating_mul(2).saturating_add(1)
    }
}

/// The parts of a node in their order: as all sets cut them, or where there are too many of those a core with all that
/// is beside it.
fn parts_in_order(
    alloc: Global,
    level: &Level,
    outlines: &[Outline],
    depth: usize,
    numbers: bool,
) -> Result<Vec<Part>, Halt>
    requires alike { All (IsAlike depth (level.now.place + 1 + level.now.parameters)) outlines.now }
    requires dimensions { All (λ o. o.set.now.system.dimensions ≡ level.now.place + suc depth) outlines.now }
    ensures { IfOk result (λ v. AreParts level.now.place (level.now.place + 1 + level.now.parameters)
        level.now.inside.items (sets_in outlines.now) v.items) }
{
    let most = most_parts(outlines.len(), numbers);
    match separated_in_order(alloc, level, outlines, depth, true, most) {
        Ok(parts) => Ok(parts),
        Err(Halt::Stopped) => separated_in_order(alloc, level, outlines, depth, false, MOST),
        Err(Halt::NoMemory) => Err(Halt::NoMemory),
    }
}

/// The parts of a node: those of its sets in their order where it is separated, and else one.
fn parts_by_rows(
    alloc: Global,
    level: &Level,
    outlines: &[Outline],
    depth: usize,
    hulls: usize,
) -> Result<Vec<Part>, Halt>
    requires some { 0 < length outlines.now }
    requires alike { All (IsAlike depth (level.now.place + 1 + level.now.parameters)) outlines.now }
    requires dimensions { All (λ o. o.set.now.system.dimensions ≡ level.now.place + suc depth) outlines.now }
    ensures { IfOk result (λ v. AreParts level.now.place (level.now.place + 1 + level.now.parameters)
        level.now.inside.items (sets_in outlines.now) v.items) }
{
    let numbers = are_numbers(outlines, depth);
    if is_apart(level, numbers, hulls) {
        parts_in_order(alloc, level, outlines, depth, numbers)
    } else {
        narrowed(alloc, level, outlines, depth)
    }
}

/// The parts of a node in their order, or one for all of it where a question stops.
fn parts_of(
    alloc: Global,
    level: &Level,
    outlines: &[Outline],
    depth: usize,
    hulls: usize,
) -> Result<Vec<Part>, AllocError>
    requires some { 0 < length outlines.now }
    requires alike { All (IsAlike depth (level.now.place + 1 + level.now.parameters)) outlines.now }
    requires dimensions { All (λ o. o.set.now.system.dimensions ≡ level.now.place + suc depth) outlines.now }
    ensures { IfOk result (λ v. AreParts level.now.place (level.now.place + 1 + level.now.parameters)
        level.now.inside.items (sets_in outlines.now) v.items) }
{
    match parts_by_rows(alloc, level, outlines, depth, hulls) {
        Ok(parts) => Ok(parts),
        Err(Halt::Stopped) => whole(alloc),
        Err(Halt::NoMemory) => Err(AllocError),
    }
}

/// Appends the loop of a part: between the hull's rows and the part's.
fn push_loop(
    alloc: Global,
    out: &mut Vec<Node>,
    rows: &[Form],
    cuts: &[Form],
    place: usize,
    parallel: bool,
    body: Vec<Node>,
) -> Result<(), AllocError>
    requires two { 1 < length rows.now }
    requires inside { (n : ℕ) × (place < n) × All (IsCut place n) rows.now × All (IsCut place n) cuts.now }
    ensures { OnOk result ((low high : Affine) (others : List Affine) → rows.now ≡ low ∷ high ∷ others
        → map tree_of out.new.items ≡ map tree_of out.old.items
        ++ loop parallel (low_bounds place low (lows_in place (others ++ cuts.now)))
        (high_bounds place high (highs_in place (others ++ cuts.now))) (nodes_of body.items) ∷ []) }
{
    let bounds = joined(alloc, rows, cuts)?;
    let mut round = loop_round(alloc, &bounds, place, parallel, body)?;
    out.append(&mut round)?;
    Ok(())
}

/// The trees of a node: `left` loops round each statement, the outermost over the dimension at `place`, wherever the
/// rows of the context hold.
pub fn nodes(
    alloc: Global,
    shape: &Shape,
    outlines: &[Outline],
    context: &[Form],
    natural: bool,
    place: usize,
    left: usize,
) -> Result<Vec<Node>, AllocError>
    requires some { 0 < length outlines.now }
    requires few { place + left + shape.now.parameters < 2 ^ 32 }
    requires sets { All (IsShaped (place + left) shape.now.parameters) (sets_in outlines.now) }
    requires rise { NumbersRise (sets_in outlines.now) }
    requires context { All (λ f. variables_of f ≡ place + shape.now.parameters) context.now }
    requires natural { IsTrue natural → AreNatural place context.now }
    ensures { IfOk result (λ v. IsNode left place (place + shape.now.parameters) shape.now.parallel
        (sets_in outlines.now) context.now (nodes_of v.items)) }
{
    if left == 0 {
        return leaves(alloc, outlines);
    }
    let depth = left - 1;
    let rows = bars(alloc, outlines, depth, place, place + 1 + shape.parameters)?;
    let level = level_of(
        alloc,
        context,
        &rows,
        natural,
        place,
        shape.parameters,
        shape.budget,
    )?;
    let parts = parts_of(alloc, &level, outlines, depth, shape.hulls)?;
    let mut out = Vec::new(alloc);
    for part in &parts {
        let alive = staying(alloc, outlines, &part.stays)?;
        let inner = joined(alloc, &level.inside, &part.cuts)?;
        let body = nodes(
            alloc,
            shape,
            &alive,
            &inner,
            level.natural,
            place + 1,
            depth,
        )?;
        push_loop(
            alloc,
            &mut out,
            &rows,
            &part.cuts,
            place,
            shape.parallel == Some(place),
            body,
        )?;
    }
    Ok(out)
}
