//! What is wrong with a certificate.
ghost use Rattle.std.specs.Prelude.{◌≡◌, ◌<◌, ◌^◌, ◌-◌, Some, suc};
ghost use Rattle.plan_check.specs.Judged.{rejected_at};
ghost use Rattle.plan_check.specs.TextView.{rejected_in};

/// What is wrong with a line: the least where a line has several.
#[derive(Clone, Copy)]
pub enum FaultKind {
    /// It says nothing that may stand there.
    Form,
    /// A term names no row so far.
    Row,
    /// The divisor does not divide a coefficient.
    Division,
    /// It is not the next goal, or the last line of one that is not proved; or one is missing.
    Goal,
    /// A number leaves 128 bits.
    Wide,
}

/// Why a certificate is not accepted.
#[derive(Clone, Copy)]
pub enum CheckStop {
    /// The first line that has a fault, counted from 1, and its least one.
    Rejected { kind: FaultKind, line: u64 },
    NoMemory,
}

/// A fault of the line behind so many others.
pub(crate) fn rejected(kind: FaultKind, lines: usize) -> CheckStop
    requires { lines < 2 ^ 64 - 1 }
    ensures { rejected_in result ≡ Some (rejected_at kind (suc lines)) }
{
    CheckStop::Rejected {
        kind,
        line: lines as u64 + 1,
    }
}

/// A fault of the last of so many lines.
pub(crate) fn rejected_here(kind: FaultKind, lines: usize) -> CheckStop
    ensures { rejected_in result ≡ Some (rejected_at kind lines) }
{
    CheckStop::Rejected {
        kind,
        line: lines as u64,
    }
}
