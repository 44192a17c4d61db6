//! The statuses that a call can end with, and the exit status that each has.

use data_text::DataRefusal;
use plan_check::FaultKind;
use scop_meaning::Outside;
use scop_parser::Refusal;

/// How a call of the program ended.
#[derive(Clone, Copy)]
pub enum Status {
    /// The whole answer was written.
    Done,
    /// The words are no command line.
    Usage,
    /// No kernel spells the text, or the input is longer than it may be.
    Refused(Refusal),
    /// The kernel was read, and the data does not say a case of it.
    BadData(DataRefusal),
    /// A subscript lies outside its extent: the first in the walk.
    Outside(Outside),
    /// The kernel was read, and what stands behind it is no certificate of a plan: the first line that has a fault,
    /// counted from 1, and its least one.
    Rejected { kind: FaultKind, line: u64 },
    /// The source failed.
    ReadFault,
    /// A sink failed.
    WriteFault,
    /// Memory ran out.
    NoMemory,
}

impl Status {
    ghost use Rattle.std.specs.Prelude.{◌≡◌};
    ghost use Rattle.report_text.specs.StatusText.{exit_code_of};

    /// The exit status of the process.
    pub fn exit_code(self) -> u8
        ensures { result ≡ exit_code_of self }
    {
        match self {
            Status::Done => 0,
            Status::Usage => 1,
            Status::Refused(_) => 2,
            Status::BadData(_) => 3,
            Status::Outside(_) => 4,
            Status::ReadFault => 5,
            Status::WriteFault => 6,
            Status::NoMemory => 7,
            Status::Rejected { .. } => 8,
        }
    }
}
