//! Callers of statuses, and of lines about a run.
ghost use Rattle.std.specs.Prelude.{◌≡◌, IfOk};
ghost use Rattle.report_text.specs.TilesText.{tiles_text};

use report_text::{FaultKind, Refusal, Status};
use std::alloc::{AllocError, Global};

/// The exit status of a refusal, by the clause of `Status::exit_code`.
pub fn exit_of_a_refusal(refusal: Refusal) -> u8
    ensures { result ≡ 2 }
{
    Status::Refused(refusal).exit_code()
}

/// The exit status of a certificate that is not accepted, by the same clause.
pub fn exit_of_a_rejection(kind: FaultKind, line: u64) -> u8
    ensures { result ≡ 8 }
{
    Status::Rejected { kind, line }.exit_code()
}

/// The line of a plan of no tiles, run by one worker, by the clause of `tiles_text`.
pub fn line_of_no_tiles(alloc: Global) -> Result<Vec<u8>, AllocError>
    ensures { IfOk result (λ text. text.items ≡ tiles_text 0 0 1) }
{
    report_text::tiles_text(alloc, 0, 0, 1)
}
