//! The command `check`: whether what stands behind a kernel is the certificate of a plan of it.

ghost use Rattle.io_ports.specs.Writes.{SinkShows};
ghost use Rattle.scop_syntax.specs.Kernel.{IsKernel};
ghost use Rattle.scop_syntax.specs.View.{program_of};
ghost use Rattle.polypar.specs.steps.Promises.{AnswersCertificate};

use crate::asked::print_text;
use io_ports::{Failed, Sink};
use plan_check::{CheckStop, check_plan};
use plan_search::Status;
use scop_syntax::Kernel;
use std::alloc::Global;

/// Judges what stands behind a kernel as the certificate of a plan of it, and prints `yes` where it is accepted.
pub(crate) fn check<O: Sink>(alloc: Global, kernel: &Kernel, text: &[u8], out: &mut O) -> Status
    requires kernel { IsKernel (program_of kernel.now) }
    ensures { (err : SinkShows) → AnswersCertificate result (program_of kernel.now) text.now (O.shows out.old)
        (O.shows out.new) err err }
{
    match check_plan(alloc, kernel, text) {
        Ok(()) => match print_text(b"yes\n", out) {
            Ok(()) => Status::Done,
            Err(Failed) => Status::WriteFault,
        },
        Err(CheckStop::Rejected { kind, line }) => Status::Rejected { kind, line },
        Err(CheckStop::NoMemory) => Status::NoMemory,
    }
}
