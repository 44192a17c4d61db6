//! What waits while a node is run: binds round its tree, the second side of a split behind it, a test with its first
//! side
//! in front of it. The tree's nodes go out in postfix order when a frame is taken off; so nothing recurses.
ghost use Rattle.std.specs.Prelude.{◌≡◌, suc, [], ◌∷◌, ◌++◌, length, reverse, OnOk};
ghost use Rattle.quast_trees.specs.Postfix.{standing};
ghost use Rattle.pip_solver.specs.steps.Frames.{joins, Resumes};

use crate::node::Tableau;
use affine_forms::Form;
use quast_trees::Builder;
use std::alloc::AllocError;

/// What waits while a node is run.
#[derive(Drop)]
pub enum Frame {
    /// A bind round its tree.
    Binding { form: Form, divisor: i128 },
    /// The second side, to be run behind it.
    Second { test: Form, node: Tableau },
    /// A test whose first side stands.
    Joining { test: Form },
}

/// Puts a frame on.
pub fn put(frames: &mut Vec<Frame>, frame: Frame) -> Result<(), AllocError>
    ensures { OnOk result (frames.new.items ≡ frames.old.items ++ frame ∷ []) }
{
    frames.push(frame)?;
    Ok(())
}

/// Takes off the frames behind a tree that stands on top, up to the next second side, which is to be run; None where
/// the tree is whole.
pub fn resume(frames: &mut Vec<Frame>, builder: &mut Builder) -> Result<Option<Tableau>, AllocError>
    requires { length (standing builder.old) ≡ suc (joins (reverse frames.old.items)) }
    ensures { Resumes frames.old.items (standing builder.old) frames.new.items (standing builder.new) result }
{
    loop {
        match frames.pop() {
            None => return Ok(None),
            Some(Frame::Binding { form, divisor }) => match builder.bind(form, divisor) {
                Err(error) => return Err(error),
                Ok(()) => {}
            },
            Some(Frame::Joining { test }) => match builder.branch(test) {
                Err(error) => return Err(error),
                Ok(()) => {}
            },
            Some(Frame::Second { test, node }) => match put(frames, Frame::Joining { test }) {
                Err(error) => return Err(error),
                Ok(()) => return Ok(Some(node)),
            },
        }
    }
}
