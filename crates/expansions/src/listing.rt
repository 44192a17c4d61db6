//! Of each statement its instances in the order of the walk, each with its place, found again by halving. Promises that what
//! is found has the turns that were looked for.
ghost use Rattle.std.specs.Prelude.{◌≡◌, ◌++◌, ◌∷◌, ◌≤◌, ◌<◌, ℕ, [], IfOk, IfSome, List, OnOk, Some, length, pos, slice_get};
ghost use Rattle.std.specs.Prelude.{suc, true};
ghost use Rattle.scop_syntax.specs.View.{instance_of};
ghost use Rattle.scop_syntax.specs.Walk.{Instance as PlainInstance};
ghost use Rattle.expansions.specs.steps.Listing.{AreListed, AreTurns, IsIndexOf, IsPlaceIn, entries_in};

use scop_syntax::{Instance, MOST_LOOPS};
use std::alloc::{AllocError, Global};

/// An instance of a statement: the turns of the loops round it, then zeros, and its place in the walk.
#[derive(Clone, Copy)]
pub struct Entry {
    pub turns: [u32; MOST_LOOPS],
    pub place: u32,
}

/// The instances of a statement in the order of the walk, and the index behind that of the one that was found last.
#[derive(Drop)]
pub struct Listed {
    pub entries: Vec<Entry>,
    pub next: usize,
}

/// A turn in 32 bits.
fn narrow(turn: i64) -> Option<u32>
    ensures { IfSome result (λ n. pos n ≡ turn) }
{
    u32::try_from(turn).ok()
}

/// The entry of an instance with these turns at a place; none where one has more than 32 bits.
fn entry_of(turns: &[i64], place: u32) -> Option<Entry>
    requires { length turns.now ≤ 5 }
    ensures turns { IfSome result (λ e. AreTurns (length turns.now) turns.now e.turns) }
    ensures place { IfSome result (λ e. e.place ≡ place) }
{
    let mut kept = [0; MOST_LOOPS];
    for at in 0..turns.len() {
        match narrow(turns[at]) {
            None => return None,
            Some(turn) => kept[at] = turn,
        }
    }
    Some(Entry { turns: kept, place })
}

/// Whether kept turns are these.
fn are_kept(kept: &[u32; MOST_LOOPS], turns: &[i64]) -> bool
    requires { length turns.now ≤ 5 }
    ensures { result ≡ true → AreTurns (length turns.now) turns.now kept.now }
{
    for at in 0..turns.len() {
        match narrow(turns[at]) {
            None => return false,
            Some(turn) => {
                if turn != kept[at] {
                    return false;
                }
            }
        }
    }
    true
}

/// Whether kept turns come before these, in the order of numbers from the outermost loop on.
fn come_before(kept: &[u32; MOST_LOOPS], turns: &[i64]) -> bool
    requires { length turns.now ≤ 5 }
{
    for at in 0..turns.len() {
        let turn = i64::from(kept[at]);
        if turn != turns[at] {
            return turn < turns[at];
        }
    }
    false
}

impl Listed {
    /// Whether the entry at this index has these turns.
    fn has_at(&self, index: usize, turns: &[i64]) -> bool
        requires { length turns.now ≤ 5 }
        ensures { result ≡ true → IsIndexOf self.now.entries.items turns.now index }
    {
        match self.entries.get(index) {
            None => false,
            Some(entry) => are_kept(&entry.turns, turns),
        }
    }

    /// The index of an entry with these turns, by halving.
    fn search(&self, turns: &[i64]) -> Option<usize>
        requires { length turns.now ≤ 5 }
        ensures { IfSome result (IsIndexOf self.now.entries.items turns.now) }
    {
        let entries = self.entries.as_slice();
        let mut low = 0;
        let mut high = entries.len();
        while low < high {
            let middle = low + (high - low) / 2;
            if self.has_at(middle, turns) {
                return Some(middle);
            }
            if come_before(&entries[middle].turns, turns) {
                low = middle + 1;
                continue;
            }
            high = middle;
        }
        None
    }

    /// The index of an entry with these turns: the one behind that of the last, else by halving.
    fn index_of(&self, turns: &[i64]) -> Option<usize>
        requires { length turns.now ≤ 5 }
        ensures { IfSome result (IsIndexOf self.now.entries.items turns.now) }
    {
        if self.has_at(self.next, turns) {
            return Some(self.next);
        }
        self.search(turns)
    }

    /// The place of the instance with these turns.
    fn find(&mut self, turns: &[i64]) -> Option<u32>
        requires { length turns.now ≤ 5 }
        ensures found { IfSome result (IsPlaceIn self.old.entries.items turns.now) }
        ensures same { self.new.entries.items ≡ self.old.entries.items }
    {
        match self.index_of(turns) {
            None => None,
            Some(index) => {
                self.next = index.wrapping_add(1);
                Some(self.entries[index].place)
            }
        }
    }
}

/// Puts an entry behind the others of a statement.
fn put(listed: &mut Listed, entry: Entry) -> Result<(), AllocError>
    ensures { OnOk result (listed.new.entries.items ≡ listed.old.entries.items ++ entry ∷ []) }
{
    listed.entries.push(entry)?;
    Ok(())
}

/// Makes room for a statement.
fn reach(alloc: Global, lists: &mut Vec<Listed>, statement: usize) -> Result<(), AllocError>
    ensures same { OnOk result ((s : ℕ) → entries_in lists.new.items s ≡ entries_in lists.old.items s) }
    ensures room { OnOk result (statement < length lists.new.items) }
{
    while lists.len() <= statement {
        let entries = Vec::new(alloc);
        lists.push(Listed { entries, next: 0 })?;
    }
    Ok(())
}

/// Puts an instance at a place behind the others of its statement: the place behind it.
///
/// # Errors
/// Also where a turn has more than 32 bits: memory has no room for so many turns.
pub(crate) fn list(
    alloc: Global,
    lists: &mut Vec<Listed>,
    instance: &Instance,
    place: u32,
) -> Result<u32, AllocError>
    requires { place < 4194304 }
    ensures next { IfOk result (λ next. next ≡ suc place) }
    ensures listed { OnOk result ((walked : List PlainInstance) → slice_get walked place ≡ Some (instance_of instance.now)
        → AreListed walked lists.old.items → AreListed walked lists.new.items) }
{
    match entry_of(instance.turns(), place) {
        None => Err(AllocError),
        Some(entry) => {
            reach(alloc, lists, instance.statement)?;
            put(&mut lists[instance.statement], entry)?;
            Ok(place + 1)
        }
    }
}

/// The place of an instance; none where it is not found.
pub(crate) fn find(lists: &mut Vec<Listed>, instance: &Instance) -> Option<u32>
    ensures found { IfSome result (IsPlaceIn (entries_in lists.old.items (instance_of instance.now).number)
        (instance_of instance.now).turns) }
    ensures same { (s : ℕ) → entries_in lists.new.items s ≡ entries_in lists.old.items s }
{
    if instance.statement >= lists.len() {
        return None;
    }
    lists[instance.statement].find(instance.turns())
}
