//! The index check: the first instance of the walk that has a subscript outside its extent, with its
//! least access and of that its least dimension.
ghost use Rattle.std.specs.Prelude.{◌≡◌, ◌+◌, ◌≤◌, ◌^◌, [], All, FitsSigned, length, map, pos, slice_index_or};
ghost use Rattle.std.specs.Int.{w64};
ghost use Rattle.std.specs.Option.{option_map};
ghost use Rattle.whole_numbers.specs.Affine.{value_of};
ghost use Rattle.scop_syntax.specs.Cells.{accesses, values};
ghost use Rattle.scop_syntax.specs.Execution.{layout};
ghost use Rattle.scop_syntax.specs.Failures.{failures, first_outside as first_failure, is_within, outside_dimensions};
ghost use Rattle.scop_syntax.specs.Fits.{AccessFits, StatementFits};
ghost use Rattle.scop_syntax.specs.Kernel.{IsAccess, IsStatement};
ghost use Rattle.scop_syntax.specs.Limits.{WithinLimits};
ghost use Rattle.scop_syntax.specs.Tree.{loop, more, none};
ghost use Rattle.scop_syntax.specs.View.{items_of, program_of, statement_of, tree_of};
ghost use Rattle.scop_syntax.specs.Walk.{Visit, statements_in, statements_in_all, turn_point};
ghost use Rattle.scop_syntax.specs.Walk.{walk, walk_all, walk_of};
ghost use Rattle.scop_meaning.specs.Conditions.{CanTurn};
ghost use Rattle.scop_meaning.specs.steps.Conditions.{CanCheck, FindsFirst, IsAt, first_of};
ghost use Rattle.scop_meaning.specs.Outside.{outside_of};
ghost use Rattle.scop_syntax.specs.declared.limits.TheConstants.{MOST_ENTRIES};

use crate::guards::all_hold;
use crate::loops::{Point, enter_turn, point_at, turns_of};
use scop_syntax::{
    Access, Aff, Extents, Item, Kernel, Loop, Stmt, access_at, exact_at, numbers_of_runs_fit,
    read_count,
};

/// A subscript outside its extent: of which statement, counted from 1, of which of its accesses,
/// where 0 is the place written and the reads are counted from 1, and in which dimension, counted
/// from 1.
#[derive(Clone, Copy)]
pub struct Outside {
    pub stmt: usize,
    pub access: usize,
    pub dim: usize,
    pub value: i64,
    pub extent: u64,
}

/// Whether a subscript lies from 0 up to the extent.
fn lies_in(value: i64, extent: u64) -> bool
    ensures { result ≡ is_within value extent }
{
    0 <= value && (value as u64) < extent
}

/// The first dimension of an access in which the subscript lies outside.
fn outside_dimension(
    subscripts: &[Aff],
    sizes: &[u64],
    point: &[i64],
    stmt: usize,
    access: usize,
) -> Option<Outside>
    requires fits { All (λ form. FitsSigned w64 (value_of form point.now)) subscripts.now }
    requires rank { length subscripts.now ≡ length sizes.now }
    ensures { (v : Visit) → v.number + 1 ≡ stmt → result
        ≡ first_of (outside_dimensions v access 0 (values subscripts.now point.now) sizes.now) }
{
    for at in 0..subscripts.len() {
        let value = exact_at(&subscripts[at], point);
        let extent = sizes[at];
        if !lies_in(value, extent) {
            return Some(Outside {
                stmt,
                access,
                dim: at + 1,
                value,
                extent,
            });
        }
    }
    None
}

/// The first failure of access `number`.
fn outside_access(
    access: &Access,
    number: usize,
    extents: &Extents,
    point: &[i64],
    stmt: usize,
) -> Option<Outside>
    requires formed { IsAccess (map length extents.now) (length point.now) access.now }
    requires fits { AccessFits access.now point.now }
    ensures { (v : Visit) → IsAt stmt point.now v → result ≡ first_of (outside_dimensions v number 0
        (values access.now.subscripts v.point) (slice_index_or extents.now access.now.array [])) }
{
    outside_dimension(
        &access.subscripts,
        extents.array(access.array),
        point,
        stmt,
        number,
    )
}

/// The first failure of a statement: the place that is written is its access 0.
fn outside_statement(
    statement: &Stmt,
    extents: &Extents,
    point: &[i64],
    stmt: usize,
) -> Option<Outside>
    requires formed { IsStatement (map length extents.now) (length point.now) (statement_of statement.now) }
    requires fits { StatementFits (statement_of statement.now) point.now }
    ensures { FindsFirst result stmt point.now extents.now (accesses (statement_of statement.now)) }
{
    for number in 0..read_count(statement) + 1 {
        let access = access_at(statement, number);
        match outside_access(access, number, extents, point, stmt) {
            Some(outside) => return Some(outside),
            None => {}
        }
    }
    None
}

/// How many statements stand in `items`.
#[cycle(counting)]
fn count_all(items: &[Item]) -> usize
    requires { statements_in_all (items_of items.now) ≤ 32 }
    ensures { result ≡ statements_in_all (items_of items.now) }
{
    let mut count = 0;
    for item in items {
        count += count_in(item);
    }
    count
}

/// How many statements stand in `item`.
#[cycle(counting)]
pub fn count_in(item: &Item) -> usize
    requires { statements_in (tree_of item.now) ≤ 32 }
    ensures { result ≡ statements_in (tree_of item.now) }
{
    match item {
        Item::Loop(_, body) => count_all(body),
        Item::Guard(_, body) => count_all(body),
        Item::Stmt(_) => 1,
    }
}

/// The first failure of `items`, whose first statement has this number, counted from 0.
#[cycle(checking)]
fn outside_items(
    items: &[Item],
    number: usize,
    extents: &Extents,
    point: &mut Point,
) -> Option<Outside>
    requires { CanCheck MOST_ENTRIES extents.now (items_of items.now) number point.old.items }
    ensures found { result ≡ first_of (failures extents.now (walk_all (items_of items.now) number point.old.items)) }
    ensures point { point.new.items ≡ point.old.items }
{
    let mut number = number;
    for item in items {
        match outside_item(item, number, extents, point) {
            Some(outside) => return Some(outside),
            None => {}
        }
        number += count_in(item);
    }
    None
}

/// The first failure of `item`.
#[cycle(checking)]
fn outside_item(item: &Item, number: usize, extents: &Extents, point: &mut Point) -> Option<Outside>
    requires { CanCheck MOST_ENTRIES extents.now (more (tree_of item.now) none) number point.old.items }
    ensures found { result ≡ first_of (failures extents.now (walk (tree_of item.now) number point.old.items)) }
    ensures point { point.new.items ≡ point.old.items }
{
    match item {
        Item::Loop(head, body) => outside_loop(head, body, number, extents, point),
        Item::Guard(guarded, body) => {
            if all_hold(&guarded.tests, point.as_slice()) {
                outside_items(body, number, extents, point)
            } else {
                None
            }
        }
        Item::Stmt(statement) => {
            outside_statement(statement, extents, point.as_slice(), number + 1)
        }
    }
}

/// The first failure of a loop, turn after turn.
#[cycle(checking)]
fn outside_loop(
    head: &Loop,
    body: &[Item],
    number: usize,
    extents: &Extents,
    point: &mut Point,
) -> Option<Outside>
    requires { CanCheck MOST_ENTRIES extents.now (more (loop head.now (items_of body.now)) none) number
        point.old.items }
    ensures found { result ≡ first_of (failures extents.now
        (walk (loop head.now (items_of body.now)) number point.old.items)) }
    ensures point { point.new.items ≡ point.old.items }
{
    let first = exact_at(&head.first, point.as_slice());
    let turns = turns_of(head, first, point);
    for turn in 0..turns {
        match outside_turn(head, first, body, turn, number, extents, point) {
            Some(outside) => return Some(outside),
            None => {}
        }
    }
    None
}

/// The first failure of the body of a loop at turn `turn`.
#[cycle(checking)]
fn outside_turn(
    head: &Loop,
    first: i64,
    body: &[Item],
    turn: u64,
    number: usize,
    extents: &Extents,
    point: &mut Point,
) -> Option<Outside>
    requires turn { CanTurn MOST_ENTRIES head.now first turn point.old.items }
    requires body { CanCheck MOST_ENTRIES extents.now (items_of body.now) number
        (turn_point head.now point.old.items (pos turn)) }
    ensures found { result ≡ first_of (failures extents.now
        (walk_all (items_of body.now) number (turn_point head.now point.old.items (pos turn)))) }
    ensures point { point.new.items ≡ point.old.items }
{
    enter_turn(head, first, turn, point);
    let found = outside_items(body, number, extents, point);
    let _iterator = point.pop();
    found
}

/// The first subscript of the walk that lies outside its extent, by instance, access and dimension;
/// none exactly where every subscript lies inside.
pub fn first_outside(kernel: &Kernel, params: &[i64], extents: &Extents) -> Option<Outside>
    requires limits { WithinLimits (program_of kernel.now) params.now }
    requires extents { extents.now ≡ layout (program_of kernel.now) params.now }
    ensures { result ≡ option_map outside_of (first_failure extents.now (walk_of (program_of kernel.now) params.now)) }
{
    numbers_of_runs_fit();
    let mut point = point_at(params);
    outside_items(&kernel.items, 0, extents, &mut point)
}
