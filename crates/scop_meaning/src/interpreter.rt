//! The interpreter: it goes over the tree as the walk does, with the parameters and the iterators of
//! the loops that it stands in on a stack of fixed size. It takes no memory, and its time is linear
//! in the number of turns and instances.
ghost use Rattle.std.specs.Prelude.{◌≡◌, pos};
ghost use Rattle.scop_syntax.specs.Acts.{acts, acts_all};
ghost use Rattle.scop_syntax.specs.Cells.{Cell};
ghost use Rattle.scop_syntax.specs.Execution.{IsCell, IsInside, IsShaped, exec, held, layout as layout_of};
ghost use Rattle.scop_syntax.specs.Limits.{WithinLimits};
ghost use Rattle.scop_syntax.specs.Tree.{loop, more, none};
ghost use Rattle.scop_syntax.specs.View.{items_of, program_of, tree_of};
ghost use Rattle.scop_syntax.specs.Walk.{turn_point};
ghost use Rattle.scop_meaning.specs.Conditions.{CanTurn};
ghost use Rattle.scop_meaning.specs.steps.Conditions.{CanRun, IsReady, ran};
ghost use Rattle.scop_meaning.specs.LastWrites.{left_at_the_end};
ghost use Rattle.scop_syntax.specs.declared.limits.TheConstants.{MOST_ENTRIES};

use crate::guards::all_hold;
use crate::last_writes::executions_go_by_last_writers;
use crate::layout::Layout;
use crate::loops::{Point, enter_turn, point_at, turns_of};
use crate::statements::run_statement;
use scop_syntax::{
    Arrays, Item, Kernel, Loop, cells_lie_within_22_bits, exact_at, numbers_of_runs_fit,
};

/// Runs `items` one after another at `point`.
#[cycle(running)]
fn run_items(items: &[Item], layout: &Layout, point: &mut Point, arrays: &mut Arrays)
    requires { CanRun MOST_ENTRIES layout.now (items_of items.now) point.old.items arrays.old }
    ensures point { point.new.items ≡ point.old.items }
    ensures arrays { arrays.new ≡ ran layout.now arrays.old (acts_all (items_of items.now) point.old.items) }
    ensures ready { IsReady layout.now arrays.new }
{
    for item in items {
        run_item(item, layout, point, arrays);
    }
}

/// Runs `item` at `point`.
#[cycle(running)]
fn run_item(item: &Item, layout: &Layout, point: &mut Point, arrays: &mut Arrays)
    requires { CanRun MOST_ENTRIES layout.now (more (tree_of item.now) none) point.old.items arrays.old }
    ensures point { point.new.items ≡ point.old.items }
    ensures arrays { arrays.new ≡ ran layout.now arrays.old (acts (tree_of item.now) point.old.items) }
    ensures ready { IsReady layout.now arrays.new }
{
    match item {
        Item::Loop(head, body) => run_loop(head, body, layout, point, arrays),
        Item::Guard(guarded, body) => {
            if all_hold(&guarded.tests, point.as_slice()) {
                run_items(body, layout, point, arrays);
            }
        }
        Item::Stmt(statement) => run_statement(statement, layout, point.as_slice(), arrays),
    }
}

/// Runs a loop: its body, turn after turn.
#[cycle(running)]
fn run_loop(head: &Loop, body: &[Item], layout: &Layout, point: &mut Point, arrays: &mut Arrays)
    requires { CanRun MOST_ENTRIES layout.now (more (loop head.now (items_of body.now)) none) point.old.items
        arrays.old }
    ensures point { point.new.items ≡ point.old.items }
    ensures arrays { arrays.new ≡ ran layout.now arrays.old (acts (loop head.now (items_of body.now)) point.old.items) }
    ensures ready { IsReady layout.now arrays.new }
{
    let first = exact_at(&head.first, point.as_slice());
    let turns = turns_of(head, first, point);
    for turn in 0..turns {
        run_turn(head, first, body, turn, layout, point, arrays);
    }
}

/// Runs the body of a loop at turn `turn`.
#[cycle(running)]
fn run_turn(
    head: &Loop,
    first: i64,
    body: &[Item],
    turn: u64,
    layout: &Layout,
    point: &mut Point,
    arrays: &mut Arrays,
)
    requires turn { CanTurn MOST_ENTRIES head.now first turn point.old.items }
    requires body { CanRun MOST_ENTRIES layout.now (items_of body.now) (turn_point head.now point.old.items (pos turn))
        arrays.old }
    ensures point { point.new.items ≡ point.old.items }
    ensures arrays { arrays.new ≡ ran layout.now arrays.old
        (acts_all (items_of body.now) (turn_point head.now point.old.items (pos turn))) }
    ensures ready { IsReady layout.now arrays.new }
{
    enter_turn(head, first, turn, point);
    run_items(body, layout, point, arrays);
    let _iterator = point.pop();
}

/// Runs `kernel` for `params` on `arrays`, instance after instance in the order of the walk. Each cell
/// then holds what its last writer stores, else what it held at first.
pub fn run_plain(kernel: &Kernel, params: &[i64], arrays: &mut Arrays)
    requires limits { WithinLimits (program_of kernel.now) params.now }
    requires inside { IsInside (program_of kernel.now) params.now }
    requires shape { IsShaped (layout_of (program_of kernel.now) params.now) arrays.old }
    ensures arrays { arrays.new ≡ exec (program_of kernel.now) params.now arrays.old }
    ensures shape { IsShaped (layout_of (program_of kernel.now) params.now) arrays.new }
    ensures cells { (c : Cell) → IsCell (layout_of (program_of kernel.now) params.now) c
        → held (layout_of (program_of kernel.now) params.now) arrays.new c
        ≡ left_at_the_end (program_of kernel.now) params.now arrays.old c }
{
    executions_go_by_last_writers();
    numbers_of_runs_fit();
    cells_lie_within_22_bits();
    let layout = Layout::of(kernel, params);
    let mut point = point_at(params);
    run_items(&kernel.items, &layout, &mut point, arrays);
}
