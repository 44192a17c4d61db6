//! What is open, the innermost last: blocks in a row, and heads with the trees in front of them.

ghost use Rattle.std.specs.Prelude.{◌≡◌, ◌+◌, ◌∷◌, IfOk, IfSome, OnOk, length};
ghost use Rattle.scop_pass.specs.Machine as machine;
ghost use Rattle.scop_pass.specs.Passing.{Pops, frames_of, within};

use crate::lists::push;
use scop_syntax::{Item, Loop, Test};
use std::alloc::AllocError;

// What is open: a block and so many round it with nothing between, or a head with the trees in front of it.
#[derive(Drop)]
pub(crate) enum Frame {
    Blocks(usize),
    Guarded(Vec<Test>, Vec<Item>),
    Looped(Loop, Vec<Item>),
}

// A count of things that memory holds can't be too large.
pub(crate) fn raised(count: usize, by: usize) -> Result<usize, AllocError>
    ensures { IfOk result (λ sum. sum ≡ count + by) }
{
    match count.checked_add(by) {
        None => Err(AllocError),
        Some(sum) => Ok(sum),
    }
}

pub(crate) fn push_frame(frames: &mut Vec<Frame>, frame: Frame) -> Result<(), AllocError>
    ensures { OnOk result (frames_of frames.new.items ≡ within frame (frames_of frames.old.items)) }
{
    push(frames, frame)
}

pub(crate) fn pop_frame(frames: &mut Vec<Frame>) -> Option<Frame>
    ensures frames { Pops result (frames_of frames.old.items) (frames_of frames.new.items) }
    ensures count { IfSome result (λ f. length frames.new.items + 1 ≡ length frames.old.items) }
{
    frames.pop()
}

// A block within what is open.
pub(crate) fn push_block(frames: &mut Vec<Frame>) -> Result<(), AllocError>
    ensures { OnOk result (frames_of frames.new.items ≡ machine.block ∷ frames_of frames.old.items) }
{
    match pop_frame(frames) {
        None => push_frame(frames, Frame::Blocks(0)),
        Some(Frame::Blocks(more)) => push_frame(frames, Frame::Blocks(raised(more, 1)?)),
        Some(head) => {
            push_frame(frames, head)?;
            push_frame(frames, Frame::Blocks(0))
        }
    }
}
