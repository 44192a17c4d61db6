//! Callers of whole runs: the cells that they leave, and what stays where memory is wanting.
ghost use Rattle.array_words.specs.Closing.{IsClosed};
ghost use Rattle.std.specs.Prelude.{◌≡◌, ⊤, true, [], IfErr, IfOk, MatchOption, length};
ghost use Rattle.scop_syntax.specs.Execution.{IsInside, IsShaped, layout};
ghost use Rattle.scop_syntax.specs.Limits.{WithinLimits};
ghost use Rattle.scop_syntax.specs.Reductions.{AreMarked};
ghost use Rattle.scop_syntax.specs.View.{program_of};
ghost use Rattle.scop_syntax.specs.Walk.{walk_of};
ghost use Rattle.loop_tree.specs.TilingView.{tiling_of};
ghost use Rattle.loop_tree.specs.View.{trees_in};
ghost use Rattle.loop_tree.specs.Walk.{visits};
ghost use Rattle.expansions.specs.Expansions.{AreSourcesOf};
ghost use Rattle.planned_trees.specs.Trees.{AreFlowTreesOf, AreTreesOf};
ghost use Rattle.tile_list.specs.Tiles.{CanTile};
ghost use Rattle.tile_core.specs.Plans.{HasRest, IsPlan, plan_of, shape_of};

use array_words::Closed;
use data_text::Case;
use io_ports::OpenGate;
use loop_tree::{Tiling, Tree};
use scop_syntax::Kernel;
use std::alloc::{AllocError, Global};
use std::sync::Wait;
use std::thread::Threads;
use tile_core::Plan;
use tile_runner::run_plan;
use tile_runs::{Counts, Sources, Workers, run_case};

/// A run of one worker, by the clauses of `run_plan` of these names.
pub fn run_by_one_worker<'a, R: Threads + Wait + Sync>(
    rt: &R,
    alloc: Global,
    plan: Plan<'a>,
    cells: &mut Vec<u64>,
) -> Result<Closed<'a>, AllocError>
    requires plan { IsPlan plan }
    requires cells { length cells.old.items ≡ (shape_of plan).cells }
    requires rest { HasRest plan cells.old.items }
    ensures cells { IfOk result (λ _. IsClosed (plan_of plan.entry cells.old.items) cells.old.items cells.new.items) }
    ensures plan { IfOk result (λ c. c.plan ≡ plan.entry) }
    ensures ended { IfOk result (λ c. c.ended ≡ 1) }
    ensures unchanged { IfErr result (λ _. cells.new.items ≡ cells.old.items) }
{
    run_plan(rt, alloc, plan, cells, 1, &OpenGate)
}

/// Where memory is wanting a case stays as it was, by the clauses of `run_case` of these names.
pub fn case_stays_without_memory<W: Workers>(
    by: &W,
    alloc: Global,
    kernel: &Kernel,
    case: &mut Case,
    tree: &Tree,
    tiling: &Tiling,
    marked: &[usize],
    sources: Option<Sources>,
    release: bool,
) -> Result<Counts, AllocError>
    requires ready { W.ready by.now }
    requires limits { WithinLimits (program_of kernel.now) case.old.params.items }
    requires laid { case.old.extents ≡ layout (program_of kernel.now) case.old.params.items }
    requires shape { IsShaped case.old.extents case.old.arrays }
    requires inside { IsInside (program_of kernel.now) case.old.params.items }
    requires marks { AreMarked marked.now (walk_of (program_of kernel.now) case.old.params.items) }
    requires trees { MatchOption sources
        (AreTreesOf (program_of kernel.now) marked.now (tiling_of tiling.now) (trees_in tree.now))
        (λ s. AreFlowTreesOf (program_of kernel.now) (tiling_of tiling.now) (trees_in tree.now)) }
    requires sources { MatchOption sources ⊤ (AreSourcesOf (program_of kernel.now) case.old.params.items) }
    requires unmarked { MatchOption sources ⊤ (λ s. marked.now ≡ []) }
    requires fits { CanTile (tiling_of tiling.now) (visits (trees_in tree.now) case.old.params.items) }
    requires alone { release ≡ true → marked.now ≡ [] }
    ensures params { case.new.params.items ≡ case.old.params.items }
    ensures unchanged { IfErr result (λ _. case.new.arrays ≡ case.old.arrays) }
{
    run_case(
        by, alloc, kernel, case, tree, tiling, marked, sources, release, 1,
    )
}
