//! One instance by itself: the value that it stores on given values read, and the cells that it
//! touches. Its statement is found by its number, going down the tree, with the iterators of its
//! turns on a stack of fixed size. It takes no memory.
ghost use Rattle.std.specs.Prelude.{◌≡◌, ◌<◌, ◌≤◌, Some, length, map, slice_get};
ghost use Rattle.scop_syntax.specs.Acts.{act_of};
ghost use Rattle.scop_syntax.specs.Cells.{accesses, cell_of, reads as reads_by};
ghost use Rattle.scop_syntax.specs.Execution.{IsInside, cell_number, layout};
ghost use Rattle.scop_syntax.specs.Limits.{WithinLimits};
ghost use Rattle.scop_syntax.specs.Members.{In};
ghost use Rattle.scop_syntax.specs.Tree.{Access as Place, more, none};
ghost use Rattle.scop_syntax.specs.Values.{stored_by};
ghost use Rattle.scop_syntax.specs.View.{instance_of, items_of, program_of, statement_of, tree_of};
ghost use Rattle.scop_syntax.specs.Walk.{Visit, instance as numbers_of, walk_of};
ghost use Rattle.scop_meaning.specs.Instances.{IsVisitOf};
ghost use Rattle.scop_meaning.specs.steps.Conditions.{CanFind, act_at, act_at_all};
ghost use Rattle.scop_syntax.specs.declared.limits.TheConstants.{MOST_ENTRIES};

use crate::accesses::number_of;
use crate::expressions::stored_on;
use crate::index::count_in;
use crate::loops::{Point, enter_at, point_at};
use scop_syntax::{
    Extents, Instance, Item, Kernel, Stmt, access_at, cells_lie_within_22_bits,
    instances_are_those_of_statements, statements_are_numbered, values_lie_within_45_bits,
};

/// The statement of `items` with this number, counted from 0; the iterators of `turns` are put on
/// the stack.
#[cycle(finding)]
fn find_among<'a>(items: &'a [Item], number: usize, turns: &[i64], point: &mut Point) -> &'a Stmt
    requires { CanFind MOST_ENTRIES (items_of items.now) number point.old.items turns.now }
    ensures { act_at_all (items_of items.now) number point.old.items turns.now
        ≡ Some (record { body = statement_of result.now; point = point.new.items }) }
{
    let item = &items[0];
    let count = count_in(item);
    if number < count {
        find_in(item, number, turns, point)
    } else {
        find_among(&items[1..], number - count, turns, point)
    }
}

/// The statement of `item` with this number.
#[cycle(finding)]
fn find_in<'a>(item: &'a Item, number: usize, turns: &[i64], point: &mut Point) -> &'a Stmt
    requires { CanFind MOST_ENTRIES (more (tree_of item.now) none) number point.old.items turns.now }
    ensures { act_at (tree_of item.now) number point.old.items turns.now
        ≡ Some (record { body = statement_of result.now; point = point.new.items }) }
{
    match item {
        Item::Loop(head, body) => {
            enter_at(head, turns[0], point);
            find_among(body, number, &turns[1..], point)
        }
        Item::Guard(_, body) => find_among(body, number, turns, point),
        Item::Stmt(statement) => statement,
    }
}

/// The statement of the instance; its point is left on the stack, which holds the parameters.
fn find<'a>(kernel: &'a Kernel, params: &[i64], instance: &Instance, point: &mut Point) -> &'a Stmt
    requires limits { WithinLimits (program_of kernel.now) params.now }
    requires walked { In (instance_of instance.now) (map numbers_of (walk_of (program_of kernel.now) params.now)) }
    requires point { point.old.items ≡ params.now }
    ensures found { (v : Visit) → IsVisitOf (program_of kernel.now) params.now (instance_of instance.now) v
        → record { body = statement_of result.now; point = point.new.items } ≡ act_of v }
    ensures few { length (reads_by (statement_of result.now)) ≤ 16 }
{
    instances_are_those_of_statements();
    statements_are_numbered();
    values_lie_within_45_bits();
    find_among(&kernel.items, instance.statement, instance.turns(), point)
}

/// What the instance stores, where its reads have the values `reads`, in the order of the text.
pub fn value(kernel: &Kernel, params: &[i64], instance: &Instance, reads: &[u64]) -> u64
    requires limits { WithinLimits (program_of kernel.now) params.now }
    requires walked { In (instance_of instance.now) (map numbers_of (walk_of (program_of kernel.now) params.now)) }
    requires reads { (v : Visit) → IsVisitOf (program_of kernel.now) params.now (instance_of instance.now) v
        → length reads.now ≡ length (reads_by v.body) }
    ensures { (v : Visit) → IsVisitOf (program_of kernel.now) params.now (instance_of instance.now) v
        → result ≡ stored_by v.body.right v.point reads.now }
{
    let mut point = point_at(params);
    let statement = find(kernel, params, instance, &mut point);
    stored_on(&statement.right, point.as_slice(), reads)
}

/// The number of the cell that access `access` of the instance touches, among those of all arrays:
/// array after array as declared, row by row, from 0. Access 0 is the place that is written.
pub fn cell(
    kernel: &Kernel,
    params: &[i64],
    extents: &Extents,
    instance: &Instance,
    access: usize,
) -> usize
    requires limits { WithinLimits (program_of kernel.now) params.now }
    requires inside { IsInside (program_of kernel.now) params.now }
    requires extents { extents.now ≡ layout (program_of kernel.now) params.now }
    requires walked { In (instance_of instance.now) (map numbers_of (walk_of (program_of kernel.now) params.now)) }
    requires access { (v : Visit) → IsVisitOf (program_of kernel.now) params.now (instance_of instance.now) v
        → access < length (accesses v.body) }
    ensures { (v : Visit) (touched : Place) → IsVisitOf (program_of kernel.now) params.now (instance_of instance.now) v
        → slice_get (accesses v.body) access ≡ Some touched
        → result ≡ cell_number extents.now (cell_of touched v.point) }
{
    cells_lie_within_22_bits();
    let mut point = point_at(params);
    let statement = find(kernel, params, instance, &mut point);
    let touched = access_at(statement, access);
    number_of(touched, extents, point.as_slice())
}
