//! The command `certify`: the certificate of a kernel's schedule.

ghost use Rattle.std.specs.Prelude.{◌≡◌, IfOk};
ghost use Rattle.scop_syntax.specs.Kernel.{IsKernel};
ghost use Rattle.scop_syntax.specs.View.{program_of};
ghost use Rattle.iteration_domains.specs.Model.{model_of};
ghost use Rattle.plan_search.specs.Certifying.{IsCertificateText};
ghost use Rattle.polypar.specs.Told.{told_of, IsTextAlone};

use crate::told::Told;
use iteration_domains::Model;
use plan_search::certificate_text;
use scop_syntax::Kernel;
use std::alloc::{AllocError, Global};

/// What `certify` tells of a kernel: the text alone.
pub(crate) fn certificate_told(
    alloc: Global,
    kernel: &Kernel,
    model: &Model,
    budget: u64,
) -> Result<Told, AllocError>
    requires kernel { IsKernel (program_of kernel.now) }
    requires model { model.now ≡ model_of (program_of kernel.now) }
    ensures { IfOk result (λ told. IsTextAlone (IsCertificateText budget (program_of kernel.now)) (told_of told)) }
{
    let text = certificate_text(alloc, kernel, model, budget)?;
    Ok(Told::text_alone(alloc, text))
}
