//! The line that tells why a kernel's order is kept.

ghost use Rattle.std.specs.Prelude.{◌≡◌, IfOk, None, Some};
ghost use Rattle.plan_search.specs.Planning.{line_of, line_of_kept, IsLineText};

use plan_certificate::{KeptLine, kept_text};
use plan_tree::FmStop;
use pluto_search::{Kept, Stop, Stuck};
use std::alloc::{AllocError, Global};

/// The line of a question or an elimination that stops; none for want of memory.
pub(crate) fn line_of(stuck: &Stuck) -> Option<KeptLine>
    ensures { result ≡ line_of stuck.now }
{
    match stuck {
        Stuck::Solver(Stop::Wide { .. }) => Some(KeptLine::Wide),
        Stuck::Solver(Stop::Spent { moves, .. }) => Some(KeptLine::Spent(*moves)),
        Stuck::Solver(Stop::NoMemory) => None,
        Stuck::Elimination(FmStop::Wide(_)) => Some(KeptLine::Wide),
        Stuck::Elimination(FmStop::Crowded { pairs }) => Some(KeptLine::Crowded(*pairs)),
        Stuck::Elimination(FmStop::Large { .. }) => Some(KeptLine::Large),
        Stuck::Elimination(FmStop::NoMemory) => None,
        Stuck::NoMemory => None,
    }
}

/// The line that tells why a search kept the order; none for want of memory.
pub(crate) fn line_of_kept(kept: &Kept) -> Option<KeptLine>
    ensures { result ≡ line_of_kept kept.now }
{
    match kept {
        Kept::Stuck(stuck) => line_of(stuck),
        Kept::NoRow { .. } => Some(KeptLine::NoRow),
        Kept::NoOrder { .. } => Some(KeptLine::NoOrder),
        Kept::NoMemory => None,
        Kept::Large { .. } => Some(KeptLine::Large),
    }
}

/// The text of a kept line, where there is one.
pub(crate) fn line_text(alloc: Global, line: Option<KeptLine>) -> Result<Vec<u8>, AllocError>
    ensures { IfOk result (λ text. IsLineText line text.items) }
{
    match line {
        Some(line) => kept_text(alloc, line),
        None => Err(AllocError),
    }
}
