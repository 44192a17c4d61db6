//! Loop trees of small kernels' tiles: what they visit, how many guards stand within their loops, and that their texts
//! are read back.

ghost use Rattle.std.specs.Prelude.{◌≤◌, ◌<◌, [], IfOk, List, ℕ, ℤ};
ghost use Rattle.scop_syntax.specs.Kernel.{IsKernel};
ghost use Rattle.scop_syntax.specs.Limits.{HasParameters};
ghost use Rattle.scop_syntax.specs.Tree.{Program};
ghost use Rattle.scop_syntax.specs.View.{program_of};
ghost use Rattle.loop_tree.specs.Conditions.{CanWalk};
ghost use Rattle.loop_tree.specs.View.{trees_in};
ghost use Rattle.polypar.specs.Schedules.{IsScheduleFor};

use crate::made::kernel_of;
use c_printer::{print, read_back};
use iteration_domains::Model;
use loop_tree::{Spot, Tree};
use polypar::{Schedule, covers, hull_tree, schedule_of, tiled_tree, trees_of_plans_can_be_walked};
use scop_syntax::{Instance, Kernel};
use std::alloc::{AllocError, Global};
use std::test::Fail;

/// The budget of the questions.
const BUDGET: u64 = 20000;

const TRIANGLE: &str = "void tri(int64_t N, uint64_t A[N][N]) {
    for (int64_t i = 0; i < N; i++) for (int64_t j = 0; j <= i; j++)
        A[i][j] = i + 10*j; }";

const TWO: &str = "void two(int64_t N, uint64_t A[N+1], uint64_t B[N]) {
    for (int64_t i = 0; i < N; i++) { A[i] = A[i] + 1; B[i] = A[i+1]; } }";

/// The turns of the triangle's statement at N = 4 in tiles of 2, tile by tile.
const TURNS: &[(i64, i64)] = &[
    (0, 0),
    (1, 0),
    (1, 1),
    (2, 0),
    (2, 1),
    (3, 0),
    (3, 1),
    (2, 2),
    (3, 2),
    (3, 3),
];

/// Which tree is made of a schedule's scan sets.
#[derive(Clone, Copy)]
enum Scan {
    Hull,
    Separated,
}

/// The tree of a schedule's tiles.
fn scanned(alloc: Global, schedule: &Schedule, size: u64, scan: Scan) -> Result<Tree, AllocError>
    requires size { (0 < size) × (size ≤ 1024) }
    requires schedule { (program : Program) × (marked : List ℕ) × IsScheduleFor program marked schedule.now }
    ensures { IfOk result (λ t. (program : Program) (params : List ℤ) → IsScheduleFor program [] schedule.now
        → HasParameters program params → CanWalk (trees_in t) params []) }
{
    trees_of_plans_can_be_walked();
    let _items = schedule.items();
    let found = match scan {
        Scan::Hull => hull_tree(alloc, schedule, size),
        Scan::Separated => tiled_tree(alloc, schedule, size, BUDGET),
    };
    match found {
        Ok(tiled) => Ok(tiled.0),
        Err(_) => Err(AllocError),
    }
}

/// The tree of the tiles of a kernel's schedule; an error where there is none.
fn planned(alloc: Global, kernel: &Kernel, size: u64, scan: Scan) -> Result<Tree, AllocError>
    requires kernel { IsKernel (program_of kernel.now) }
    requires size { (0 < size) × (size ≤ 1024) }
    ensures { IfOk result (λ t. (params : List ℤ) → HasParameters (program_of kernel.now) params
        → CanWalk (trees_in t) params []) }
{
    let model = Model::of(alloc, kernel)?;
    let deps = covers(alloc, &model, &[], BUDGET)?;
    match schedule_of(alloc, &model, &deps, BUDGET) {
        Ok(schedule) => scanned(alloc, &schedule, size, scan),
        Err(_) => Err(AllocError),
    }
}

/// Whether this is the first statement at these turns.
fn is_first_at(found: Option<Instance>, first: i64, second: i64) -> bool {
    match found {
        None => false,
        Some(instance) => instance.statement == 0 && instance.turns() == [first, second].as_slice(),
    }
}

/// Whether the tree visits the first statement at these turns, in this order, and nothing else.
fn visits_are(
    alloc: Global,
    tree: &Tree,
    params: &[i64],
    wanted: &[(i64, i64)],
) -> Result<bool, AllocError>
    requires { CanWalk (trees_in tree.now) params.now [] }
{
    let mut spot = Spot::of(alloc, tree)?;
    for turns in wanted {
        let (first, second) = *turns;
        if !is_first_at(spot.next(tree, params), first, second) {
            return Ok(false);
        }
    }
    Ok(spot.next(tree, params).is_none())
}

/// The tree that the text of this one is read back as; an error where there is none, or it has another text.
fn read_again(alloc: Global, kernel: &Kernel, tree: &Tree) -> Result<Tree, AllocError> {
    let text = print(alloc, kernel, tree)?;
    match read_back(alloc, kernel, &text)? {
        None => Err(AllocError),
        Some(again) => {
            let other = print(alloc, kernel, &again)?;
            if other == text {
                Ok(again)
            } else {
                Err(AllocError)
            }
        }
    }
}

/// Whether the triangle's tree visits these turns at 4, and its text is read back.
fn is_triangle(alloc: Global, scan: Scan, wanted: &[(i64, i64)]) -> Result<bool, AllocError> {
    let kernel = kernel_of(alloc, TRIANGLE)?;
    if kernel.parameters.len() != 1 {
        return Ok(false);
    }
    let tree = planned(alloc, &kernel, 2, scan)?;
    let again = read_again(alloc, &kernel, &tree)?;
    drop(again);
    visits_are(alloc, &tree, &[4], wanted)
}

/// How many guards stand within loops of the tree that the text of the kernel's tree is read back as.
fn guards(alloc: Global, text: &str, scan: Scan) -> Result<u64, AllocError> {
    let kernel = kernel_of(alloc, text)?;
    let tree = planned(alloc, &kernel, 32, scan)?;
    let again = read_again(alloc, &kernel, &tree)?;
    Ok(again.guards())
}

#[test]
fn a_triangle_is_visited_tile_by_tile(rt: HostRuntime) -> Result<(), Fail> {
    for scan in [Scan::Hull, Scan::Separated] {
        assert!(rt; is_triangle(rt.alloc(), scan, TURNS)?);
    }
    Ok(())
}

#[test]
fn separated_trees_have_fewer_guards(rt: HostRuntime) -> Result<(), Fail> {
    let separated = guards(rt.alloc(), TWO, Scan::Separated)?;
    let hull = guards(rt.alloc(), TWO, Scan::Hull)?;
    assert!(rt; separated < hull, "{separated} {hull}");
    Ok(())
}
