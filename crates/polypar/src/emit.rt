//! The command `emit`: the loops of a kernel's tiled schedule; where the search or the scan of its sets stops, those of
//! the kernel's own order, behind the line that tells why it is kept.

ghost use Rattle.std.specs.Prelude.{◌≡◌, ◌≤◌, IfOk};
ghost use Rattle.scop_syntax.specs.Kernel.{IsKernel};
ghost use Rattle.scop_syntax.specs.View.{program_of};
ghost use Rattle.iteration_domains.specs.Model.{model_of};
ghost use Rattle.command_line.specs.Stated.{most_tile};
ghost use Rattle.polypar.specs.Told.{told_of};
ghost use Rattle.polypar.specs.Emitting.{IsLoopsText};

use crate::told::Told;
use c_printer::print;
use iteration_domains::Model;
use plan_search::planned;
use scop_syntax::Kernel;
use std::alloc::{AllocError, Global};

/// The loops of a kernel for tiles of this size, where each question of the search may make so many moves.
pub(crate) fn loops_told(
    alloc: Global,
    kernel: &Kernel,
    model: &Model,
    tile: u64,
    budget: u64,
) -> Result<Told, AllocError>
    requires kernel { IsKernel (program_of kernel.now) }
    requires model { model.now ≡ model_of (program_of kernel.now) }
    requires tile { (1 ≤ tile) × (tile ≤ most_tile) }
    ensures { IfOk result (λ told. IsLoopsText tile budget (program_of kernel.now) (told_of told)) }
{
    let plan = planned(alloc, kernel, model, &[], tile, budget, false)?;
    let text = print(alloc, kernel, &plan.tree)?;
    Ok(Told {
        lines: plan.lines,
        text,
    })
}
