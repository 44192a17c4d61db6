//! The command `schedule`: the schedule of a kernel's covers, or why its order is kept.

ghost use Rattle.std.specs.Prelude.{IfOk};
ghost use Rattle.plan_search.specs.Planning.{IsPlanOf};
ghost use Rattle.plan_search.specs.Posed.{IsOfKernel};
ghost use Rattle.polypar.specs.Told.{IsTextAlone, told_of};

use crate::told::Told;
use iteration_domains::Model;
use plan_search::plan_text;
use std::alloc::{AllocError, Global};

/// What `schedule` tells of a model: the text alone.
pub(crate) fn plan_told(alloc: Global, model: &Model, budget: u64) -> Result<Told, AllocError>
    requires { IsOfKernel model.now }
    ensures { IfOk result (λ told. IsTextAlone (IsPlanOf budget model.now) (told_of told)) }
{
    let text = plan_text(alloc, model, budget)?;
    Ok(Told::text_alone(alloc, text))
}
