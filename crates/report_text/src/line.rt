//! The line on the error stream that tells a status. It takes no memory.

ghost use Rattle.std.specs.Prelude.{◌≡◌, option_map};
ghost use Rattle.scop_syntax.specs.View.{program_of};
ghost use Rattle.io_ports.specs.Writes.{Writes, Puts};
ghost use Rattle.report_text.specs.StatusText.{fault_text, kind_text, refusal_text, rejection_text, status_text};

use crate::data_line::put_data;
use crate::outside_line::put_outside;
use crate::parts::{Part, put_numbered, put_parts};
use crate::status::Status;
use io_ports::{Failed, Pieces, Sink};
use plan_check::FaultKind;
use scop_parser::{Refusal, RefusalKind};
use scop_syntax::Kernel;

/// Writes the line of a status, and flushes it; nothing for Done. `kernel` is the kernel that was read, for its names.
#[tactic(auto, using(io_ports::proofs::PutTexts::flushed))]
pub fn status_line<K: Sink>(
    status: Status,
    kernel: Option<&Kernel>,
    sink: &mut K,
) -> Result<(), Failed>
    ensures { Writes (K.shows sink.old) (K.shows sink.new)
        (status_text (option_map (λ k. program_of k.now) kernel.entry) status) result }
{
    match write_line(status, kernel, sink) {
        Ok(()) => sink.flush(),
        Err(failed) => Err(failed),
    }
}

/// Writes the line of a status.
#[tactic(auto, using(io_ports::proofs::PutTexts::written))]
fn write_line<K: Sink>(status: Status, kernel: Option<&Kernel>, sink: &mut K) -> Result<(), Failed>
    ensures { Writes (K.shows sink.old) (K.shows sink.new)
        (status_text (option_map (λ k. program_of k.now) kernel.entry) status) result }
{
    let mut pieces = Pieces::new();
    match put_status(&mut pieces, sink, kernel, status) {
        Ok(()) => pieces.finish(sink),
        Err(failed) => Err(failed),
    }
}

/// Puts the line of a status.
fn put_status<K: Sink>(
    pieces: &mut Pieces,
    sink: &mut K,
    kernel: Option<&Kernel>,
    status: Status,
) -> Result<(), Failed>
    ensures { Puts (K.shows sink.old) pieces.old (K.shows sink.new) pieces.new
        (status_text (option_map (λ k. program_of k.now) kernel.entry) status) result }
{
    match status {
        Status::Done => pieces.put(sink, b""),
        Status::Usage => pieces.put(sink, USAGE),
        Status::Refused(refusal) => put_refusal(pieces, sink, refusal),
        Status::BadData(refusal) => put_data(pieces, sink, kernel, refusal),
        Status::Outside(outside) => put_outside(pieces, sink, outside),
        Status::Rejected { kind, line } => put_rejection(pieces, sink, kind, line),
        Status::ReadFault => pieces.put(sink, b"read fault\n"),
        Status::WriteFault => pieces.put(sink, b"write fault\n"),
        Status::NoMemory => pieces.put(sink, b"no memory\n"),
    }
}

/// The commands and options of the whole program.
const USAGE: &[u8] =
    b"usage: polypar run|schedule|deps|emit|gen|certify|check [--workers 1..64] [--tile 1..1024] [--budget 1..20000] [--report] [--expand] [--sync waves|tiles] [--reduce]\n";

/// Puts `refused: KIND LINE:COLUMN` and a line feed.
fn put_refusal<K: Sink>(pieces: &mut Pieces, sink: &mut K, refusal: Refusal) -> Result<(), Failed>
    ensures { Puts (K.shows sink.old) pieces.old (K.shows sink.new) pieces.new (refusal_text refusal) result }
{
    put_parts(
        pieces,
        sink,
        &[
            Part::Text(kind_text(refusal.kind)),
            Part::Text(b" "),
            Part::Number(refusal.line),
            Part::Text(b":"),
            Part::Number(refusal.column),
            Part::Text(b"\n"),
        ],
    )
}

/// Puts `rejected: KIND line LINE` and a line feed.
fn put_rejection<K: Sink>(
    pieces: &mut Pieces,
    sink: &mut K,
    kind: FaultKind,
    line: u64,
) -> Result<(), Failed>
    ensures { Puts (K.shows sink.old) pieces.old (K.shows sink.new) pieces.new (rejection_text kind line) result }
{
    put_numbered(pieces, sink, fault_text(kind), line, b"\n")
}

/// `rejected: KIND line `.
fn fault_text(kind: FaultKind) -> &'static [u8]
    ensures { result.now ≡ fault_text kind }
{
    match kind {
        FaultKind::Form => b"rejected: Form line ",
        FaultKind::Row => b"rejected: Row line ",
        FaultKind::Division => b"rejected: Division line ",
        FaultKind::Goal => b"rejected: Goal line ",
        FaultKind::Wide => b"rejected: Wide line ",
    }
}

/// `refused: KIND`.
fn kind_text(kind: RefusalKind) -> &'static [u8]
    ensures { result.now ≡ kind_text kind }
{
    match kind {
        RefusalKind::Character => b"refused: Character",
        RefusalKind::Directive => b"refused: Directive",
        RefusalKind::LiteralRange => b"refused: LiteralRange",
        RefusalKind::UnendedComment => b"refused: UnendedComment",
        RefusalKind::Token => b"refused: Token",
        RefusalKind::Unended => b"refused: Unended",
        RefusalKind::UnknownName => b"refused: UnknownName",
        RefusalKind::Redeclared => b"refused: Redeclared",
        RefusalKind::NotAffine => b"refused: NotAffine",
        RefusalKind::Coefficient => b"refused: Coefficient",
        RefusalKind::LoopForm => b"refused: LoopForm",
        RefusalKind::Condition => b"refused: Condition",
        RefusalKind::SignedValue => b"refused: SignedValue",
        RefusalKind::ShiftCount => b"refused: ShiftCount",
        RefusalKind::Division => b"refused: Division",
        RefusalKind::Call => b"refused: Call",
        RefusalKind::Rank => b"refused: Rank",
        RefusalKind::IteratorOutside => b"refused: IteratorOutside",
        RefusalKind::Depth => b"refused: Depth",
        RefusalKind::Statements => b"refused: Statements",
        RefusalKind::Arrays => b"refused: Arrays",
        RefusalKind::Parameters => b"refused: Parameters",
        RefusalKind::Reads => b"refused: Reads",
        RefusalKind::TooLong => b"refused: TooLong",
        RefusalKind::Width => b"refused: Width",
    }
}
