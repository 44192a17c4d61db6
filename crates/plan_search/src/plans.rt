//! Plans with their lines: of a schedule's tiles, and of the kernel's own order.

ghost use Rattle.std.specs.Prelude.{◌≡◌, ℕ, Bool, IfOk, [], true, false};
ghost use Rattle.scop_syntax.specs.Kernel.{IsKernel};
ghost use Rattle.scop_syntax.specs.Tree.{Program};
ghost use Rattle.scop_syntax.specs.View.{program_of};
ghost use Rattle.loop_tree.specs.TilingView.{tiling_of};
ghost use Rattle.loop_tree.specs.View.{trees_in};
ghost use Rattle.plan_tree.specs.Trees.{AreFlowTreesOf, AreTreesOf};
ghost use Rattle.pluto_search.specs.Schedule.{IsScheduled};
ghost use Rattle.plan_search.specs.Planned.{IsExpandedPlan, IsPlanned, added_in, is_tiled, report_of};
ghost use Rattle.plan_search.specs.steps.Plans.{IsKeptPlan, IsTiledPlan};

use crate::lines::line_text;
use loop_tree::{Tiling, Tree};
use plan_certificate::{KeptLine, schedule_text};
use plan_tree::source_tree;
use pluto_search::{Schedule, dependences_have_one_schedule};
use scop_syntax::Kernel;
use std::alloc::{AllocError, Global};

/// The plan of a kernel: its loop tree, its tiling, and the lines that tell of it: a kept order's line, or, where a
/// report is asked for, the schedule.
#[derive(Drop)]
pub struct Planned {
    pub tree: Tree,
    pub tiling: Tiling,
    pub lines: Vec<u8>,
}

impl Planned {
    /// Of the arrays that are marked, those that a run by the plan adds to in any order: none where the order is kept.
    pub fn added<'a>(&self, marked: &'a [usize]) -> &'a [usize]
        ensures added { result.now ≡ added_in (tiling_of self.now.tiling) marked.now }
        ensures trees { (tile budget : ℕ) (report : Bool) (program : Program)
            → IsPlanned tile budget report marked.now program self.now
            → AreTreesOf program result.now (tiling_of self.now.tiling) (trees_in self.now.tree) }
    {
        match self.tiling {
            Tiling::Kept => &[],
            Tiling::Tiled(_, _) => marked,
        }
    }

    /// Whether the plan is of tiles. One for runs in which each instance has a copy of its own is then a flow plan;
    /// else it keeps the order.
    pub fn is_tiled(&self) -> bool
        ensures is { result ≡ is_tiled (tiling_of self.now.tiling) }
        ensures tiled { result ≡ true → (tile budget : ℕ) (report : Bool) (program : Program)
            → IsExpandedPlan tile budget report program self.now
            → AreFlowTreesOf program (tiling_of self.now.tiling) (trees_in self.now.tree) }
        ensures kept { result ≡ false → (tile budget : ℕ) (report : Bool) (program : Program)
            → IsExpandedPlan tile budget report program self.now
            → AreTreesOf program [] (tiling_of self.now.tiling) (trees_in self.now.tree) }
    {
        match self.tiling {
            Tiling::Kept => false,
            Tiling::Tiled(_, _) => true,
        }
    }
}

/// The text of a schedule where a report is asked for, else no text.
fn report_lines(alloc: Global, schedule: &Schedule, report: bool) -> Result<Vec<u8>, AllocError>
    ensures { IfOk result (λ lines. (s : IsScheduled schedule.now) → lines.items ≡ report_of report s.blocks) }
{
    dependences_have_one_schedule();
    if report {
        return schedule_text(alloc, schedule);
    }
    Ok(Vec::new(alloc))
}

/// The plan of a schedule's tiles, whose tree and tiling are given.
pub(crate) fn tiled_plan(
    alloc: Global,
    schedule: &Schedule,
    tree: Tree,
    tiling: Tiling,
    report: bool,
) -> Result<Planned, AllocError>
    ensures { IfOk result (IsTiledPlan report schedule.now (trees_in tree) (tiling_of tiling)) }
{
    let lines = report_lines(alloc, schedule, report)?;
    Ok(Planned {
        tree,
        tiling,
        lines,
    })
}

/// The plan of a kernel's own order, with the line that tells why it is kept.
pub(crate) fn kept_plan(
    alloc: Global,
    kernel: &Kernel,
    line: Option<KeptLine>,
) -> Result<Planned, AllocError>
    requires { IsKernel (program_of kernel.now) }
    ensures { IfOk result (IsKeptPlan (program_of kernel.now) line) }
{
    let lines = line_text(alloc, line)?;
    let tree = source_tree(alloc, kernel)?;
    Ok(Planned {
        tree,
        tiling: Tiling::Kept,
        lines,
    })
}
