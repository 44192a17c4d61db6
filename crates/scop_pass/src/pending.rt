//! What of a declaration, a head or a statement was read.

ghost use Rattle.std.specs.Prelude.{◌≡◌};
ghost use Rattle.scop_pass.specs.Machine.{inner_of};
ghost use Rattle.scop_pass.specs.Passing.{hand_of, pending_of};

use scop_expressions::{Assign, Count, Width};
use scop_roles::Formula;

// A loop's head up to its name.
#[derive(Clone, Copy)]
pub(crate) struct Begun {
    pub place: usize,
    pub new: bool,
    pub name_at: usize,
}

// A loop's head up to its step.
#[derive(Drop)]
pub(crate) struct Sides {
    pub begun: Begun,
    pub first: Formula,
    pub second: Formula,
}

// What of a loop's step was read: names by their places.
#[derive(Clone, Copy)]
pub(crate) enum StepRead {
    Nothing,
    Count(Count),
    Name(usize),
    Assignment(usize, Assign),
}

// A head or a statement.
#[derive(Drop)]
pub(crate) enum Hand {
    Idle,
    Condition,
    LoopBegun(usize),
    LoopNamed(Begun),
    LoopFirst(Begun, Formula),
    LoopStep(Sides, StepRead),
    Placed(Formula),
    Valued(Formula, Assign, usize),
}

// An array, which the next sign completes, or what signs and expressions go on with.
#[derive(Drop)]
pub(crate) enum Pending {
    Extents(Width, usize, Vec<Formula>),
    Hand(Hand),
}

// The place of the name of the loop whose head is in hand.
fn name_in_hand(hand: &Hand) -> Option<usize>
    ensures { result ≡ inner_of (hand_of hand.now) }
{
    match hand {
        Hand::LoopFirst(begun, _) => Some(begun.name_at),
        Hand::LoopStep(sides, _) => Some(sides.begun.name_at),
        _ => None,
    }
}

pub(crate) fn inner_of(pending: &Pending) -> Option<usize>
    ensures { result ≡ inner_of (pending_of pending.now) }
{
    match pending {
        Pending::Extents(_, _, _) => None,
        Pending::Hand(hand) => name_in_hand(hand),
    }
}
