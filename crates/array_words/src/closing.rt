//! The end: the passes are joined, and the words go back into the cells.
ghost use Rattle.array_words.specs.Closing.{IsClosed, IsResting, one_if_ended, stage_in};
ghost use Rattle.std.specs.Mem.Slots.{IsFull, slots_items, slots_len};
ghost use Rattle.std.specs.Prelude.{◌≡◌, ℕ, ◌+◌, ◌<◌, All, List, get_or, length};
ghost use Rattle.scop_syntax.specs.Execution.{IsShaped};
ghost use Rattle.tile_core.specs.Passes.{IsPass, IsWords, plan_in};
ghost use Rattle.tile_core.specs.Plans.{HoldsContents, HoldsResults, extents_in};
ghost use Rattle.tile_events.specs.Sound.{total};
ghost use lib.ListN.{get_elem?};
ghost use mathlib.Core.Option.{some};

use crate::gathering::gather;
use atomic_table::Closed as ClosedTable;
use std::alloc::Global;
use tile_core::{Pass, Plan, View, Words, plans_are_good, plans_execute_the_kernel};
use tile_events::seats_are_allowed;

/// A run that is over: its plan, and how many of its passes saw the claims run out.
#[derive(Drop)]
pub struct Closed<'a> {
    pub(crate) plan: Plan<'a>,
    pub(crate) ended: usize,
}

impl<'a> Closed<'a> {
    /// The plan that was run.
    pub fn plan(&self) -> &Plan<'a>
        ensures { result.now ≡ self.now.plan }
    {
        &self.plan
    }

    /// How many passes had ended.
    pub fn ended(&self) -> usize
        ensures { result ≡ self.now.ended }
    {
        self.ended
    }
}

/// Copies the words behind the two counts.
fn copy_words(closed: &ClosedTable<(), Global>, cells: &mut [u64])
    requires full { IsFull closed.now.words }
    requires long { slots_len closed.now.words ≡ length cells.old + 2 }
    ensures length { length cells.new ≡ length cells.old }
    ensures words { (c : ℕ) → c < length cells.old
        → get_elem? (slots_items closed.now.words) (c + 2) ≡ some (get_or cells.new c 0) }
{
    for at in 0..cells.len() {
        cells[at] = closed.word(at + 2);
    }
}

/// Puts the words into the cells, where no pass holds a tile and one has seen the claims run out. It takes no memory.
/// Where the words were started from the contents of all arrays, one array behind another, each cell of each array is
/// then what the kernel's own execution leaves there; with an expansion it is what it was at the start, and the copy of
/// each place holds what that execution stores there.
pub fn close<'a>(words: Words<'a>, passes: Vec<Pass>, cells: &mut [u64]) -> Closed<'a>
    requires words { IsWords words }
    requires passes { All (IsPass words) passes.items }
    requires rest { All IsResting passes.items }
    requires all { length passes.items ≡ words.table.shared.key.workers }
    requires over { 0 < total (λ p. one_if_ended (stage_in p)) passes.items }
    requires cells { length cells.old ≡ (plan_in words).cells }
    ensures results { (contents : List (List ℕ)) → IsShaped (extents_in words.entry.plan) contents
        → HoldsContents contents words.entry.table.shared.key.cells.items
        → HoldsResults words.entry.plan contents cells.new }
    ensures plan { result.plan ≡ words.entry.plan }
    ensures ended { result.ended ≡ total (λ p. one_if_ended (stage_in p)) passes.items }
    ensures cells { IsClosed (plan_in words.entry) cells.old cells.new }
{
    seats_are_allowed::<View>();
    plans_are_good();
    plans_execute_the_kernel();
    let (seat, ended) = gather(&words, passes);
    let Words { plan, table } = words;
    let closed = table.close_with(seat);
    copy_words(&closed, cells);
    closed.free();
    Closed { plan, ended }
}
