//! The command `deps`: where the value of each read of a kernel comes from.

ghost use Rattle.std.specs.Prelude.{◌≡◌, IfOk};
ghost use Rattle.scop_syntax.specs.Kernel.{IsKernel};
ghost use Rattle.scop_syntax.specs.View.{program_of};
ghost use Rattle.iteration_domains.specs.Model.{model_of};
ghost use Rattle.polypar.specs.Sources.{IsSourcesText};
ghost use Rattle.polypar.specs.Told.{told_of, IsTextAlone};

use crate::told::Told;
use iteration_domains::Model;
use plan_search::{deps_text, last_writes};
use scop_syntax::Kernel;
use std::alloc::{AllocError, Global};

/// The text of the sources of a kernel's reads, where each candidate's problem may make so many moves.
fn sources_text(
    alloc: Global,
    kernel: &Kernel,
    model: &Model,
    budget: u64,
) -> Result<Vec<u8>, AllocError>
    requires kernel { IsKernel (program_of kernel.now) }
    requires model { model.now ≡ model_of (program_of kernel.now) }
    ensures { IfOk result (λ text. IsSourcesText budget (program_of kernel.now) text.items) }
{
    match last_writes(alloc, model, budget) {
        Ok(sources) => deps_text(alloc, kernel, &sources),
        Err(_) => Err(AllocError),
    }
}

/// What `deps` tells of a kernel: the text alone.
pub(crate) fn sources_told(
    alloc: Global,
    kernel: &Kernel,
    model: &Model,
    budget: u64,
) -> Result<Told, AllocError>
    requires kernel { IsKernel (program_of kernel.now) }
    requires model { model.now ≡ model_of (program_of kernel.now) }
    ensures { IfOk result (λ told. IsTextAlone (IsSourcesText budget (program_of kernel.now)) (told_of told)) }
{
    let text = sources_text(alloc, kernel, model, budget)?;
    Ok(Told::text_alone(alloc, text))
}
