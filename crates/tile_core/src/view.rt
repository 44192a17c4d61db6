//! What the table of a run is told, what it knows of each pass, and the rule that it keeps.
use crate::first_words::FirstWords;
use crate::plan::Plan;
use crate::worker::Stage;
use atomic_table::TableRule;
use std::alloc::Global;
use std::collections::LinkedList;
use tile_events::Clock;

/// The plan, the cells at first, and how many workers there are.
#[derive(Drop)]
pub struct Key<'a> {
    pub plan: Plan<'a>,
    pub cells: FirstWords,
    pub workers: u64,
}

/// For how many workers a pass stands, where it stands with its tile, what it has read, and what steps it has made. A view
/// is for proofs alone: no value of it is made, so its key may be of any lifetime. One that was joined away has no key and
/// stands for nobody.
pub struct View {
    pub key: Option<Key<'static>>,
    pub parts: u64,
    pub stage: Stage,
    pub reads: LinkedList<u64, Global>,
    pub clock: Clock,
}

/// Between any two steps the words and the views are a sound state of the core, and the last step is known.
pub struct WordRule;

impl<'a> TableRule<(), View, Key<'a>> for WordRule {
    ghost use Rattle.tile_core.specs.Views.{Ruled, opening_view};

    ghost holds = { Ruled };

    ghost first = { opening_view };
}
