//! All passes joined into one seat.
ghost use Rattle.array_words.specs.Closing.{IsGathered, IsResting, one_if_ended, stage_in};
ghost use Rattle.std.specs.Prelude.{◌≡◌, ◌+◌, ◌<◌, ◌^◌, All, length};
ghost use Rattle.tile_core.specs.Passes.{IsPass};
ghost use Rattle.tile_events.specs.Sound.{total};

use atomic_table::{Join, Seat};
use tile_core::{Pass, Stage, View, Words};
use tile_events::seats_are_allowed;

/// How a seat takes in another.
pub struct Merge;

impl Join<View> for Merge {
    ghost use Rattle.array_words.specs.Closing.{spent_view, together};

    ghost both = { together };

    ghost spent = { spent_view };
}

/// The first pass, with how many have ended.
fn first(words: &Words, pass: Pass) -> (Seat<(), View>, usize)
    requires pass { IsPass words.now pass }
    requires rest { IsResting pass }
    ensures seat { IsGathered words.now 1 (one_if_ended pass.worker.stage) result.0 }
    ensures ended { result.1 ≡ one_if_ended pass.worker.stage }
{
    let Pass {
        seat,
        worker,
        margin: _,
    } = pass;
    let ended = match worker.stage {
        Stage::Ended => 1,
        _ => 0,
    };
    (seat, ended)
}

/// Takes in one more.
fn take_in(words: &Words, seat: &mut Seat<(), View>, ended: usize, pass: Pass) -> usize
    requires seat { IsGathered words.now seat.old.me.0.parts ended seat.old }
    requires pass { IsPass words.now pass }
    requires rest { IsResting pass }
    requires few { ended < 2 ^ 63 }
    ensures seat { IsGathered words.now (seat.old.me.0.parts + 1) (ended + one_if_ended pass.worker.stage) seat.new }
    ensures ended { result ≡ ended + one_if_ended pass.worker.stage }
{
    seats_are_allowed::<View>();
    let Pass {
        seat: other,
        worker,
        margin: _,
    } = pass;
    let ended = match worker.stage {
        Stage::Ended => ended + 1,
        _ => ended,
    };
    words.table.shared.join_seat::<Merge>(seat, other);
    ended
}

/// All passes joined into one seat, with how many have ended.
pub(crate) fn gather(words: &Words, mut passes: Vec<Pass>) -> (Seat<(), View>, usize)
    requires passes { All (IsPass words.now) passes.items }
    requires rest { All IsResting passes.items }
    requires some { 0 < length passes.items }
    ensures seat { IsGathered words.now (length passes.items) result.1 result.0 }
    ensures ended { result.1 ≡ total (λ p. one_if_ended (stage_in p)) passes.items }
{
    let Some(pass) = passes.pop() else {
        unreachable!()
    };
    let (mut seat, mut ended) = first(words, pass);
    while let Some(pass) = passes.pop() {
        ended = take_in(words, &mut seat, ended, pass);
    }
    (seat, ended)
}
