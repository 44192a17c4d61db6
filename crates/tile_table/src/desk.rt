//! Desks: what a worker wants at hand of a statement's instances along turns that go on by equal steps, so that each
//! costs a load and a store of its cells, the steps of its code, and one sum a lane. Promises that the lanes stand at the
//! cells and the affine parts of the instance that the desk was laid for, and then, one step on after another, of those
//! that follow.
ghost use Rattle.std.specs.Prelude.{◌≡◌, ◌+◌, ◌<◌, ℤ, IfOk, List, Some, length, slice_get, slice_set, take};
ghost use Rattle.whole_numbers.specs.Affine.{Affine, value_of};
ghost use Rattle.whole_numbers.specs.Lists.{sums};
ghost use Rattle.scop_syntax.specs.Values.{wrapped};
ghost use Rattle.scop_syntax.specs.View.{instance_of};
ghost use Rattle.tile_table.specs.declared.table.Row.{Row};
ghost use Rattle.tile_table.specs.Codes.{IsWellMade, value_by};
ghost use Rattle.tile_table.specs.Desks.{HasRoom, HasRoomForAll, HasSameRoom, IsLaid};

use crate::lane::{Lane, go_on_all, lay_all};
use crate::table::{Row, Table};
use scop_syntax::Instance;
use std::alloc::{AllocError, Global};

/// How many entries of 8 bytes or more, which nobody uses, stand behind what a worker writes at each instance: its pass,
/// and each list of a desk. They fill two lines of a cache, which processors fetch in pairs, so no two workers write in
/// one line.
pub const MARGIN: usize = 16;

/// Room for one statement's instances: the lanes of its cells, the place first, then the reads, those of its affine
/// parts, and the slots of its code.
#[derive(Drop)]
pub struct Desk {
    pub cells: Vec<Lane>,
    pub leaves: Vec<Lane>,
    pub slots: Vec<u64>,
}

impl Desk {
    /// A desk with so many lanes and slots.
    fn of(alloc: Global, cells: usize, leaves: usize, slots: usize) -> Result<Desk, AllocError>
        ensures { IfOk result (λ desk. (length desk.cells.items ≡ cells) × (length desk.leaves.items ≡ leaves)
            × (length desk.slots.items ≡ slots)) }
    {
        let none = Lane { at: 0, step: 0 };
        let mut cells = Vec::from_elem(alloc, none, cells)?;
        cells.reserve(MARGIN)?;
        let mut leaves = Vec::from_elem(alloc, none, leaves)?;
        leaves.reserve(MARGIN)?;
        let mut slots = Vec::from_elem(alloc, 0u64, slots)?;
        slots.reserve(MARGIN)?;
        Ok(Desk {
            cells,
            leaves,
            slots,
        })
    }
}

impl Table {
    /// A desk with room for each row.
    ///
    /// # Errors
    /// `AllocError` alone.
    pub fn desk(&self, alloc: Global) -> Result<Desk, AllocError>
        ensures { IfOk result (HasRoomForAll self.now) }
    {
        let mut cells = 0;
        let mut leaves = 0;
        let mut slots = 0;
        for row in &self.rows {
            cells = cells.max(row.cells.len());
            leaves = leaves.max(row.code.leaves.len());
            slots = slots.max(row.slots()?);
        }
        Desk::of(alloc, cells, leaves, slots)
    }

    /// What the instance stores, where its reads have the values `reads`, in the order of the text.
    pub fn value(&self, desk: &mut Desk, instance: &Instance, reads: &[u64]) -> u64
        requires statement { instance.now.statement < length self.now.rows.items }
        requires code { (row : Row) → slice_get self.now.rows.items instance.now.statement ≡ Some row
            → IsWellMade row.code × (length reads.now ≡ row.code.reads) }
        requires room { HasRoomForAll self.now desk.old }
        ensures value { (row : Row) → slice_get self.now.rows.items instance.now.statement ≡ Some row
            → result ≡ value_by row.code (instance_of instance.now).turns reads.now }
        ensures room { HasSameRoom desk.old desk.new }
    {
        let row = self.row(instance.statement);
        row.lay(desk, instance.turns(), &[]);
        for read in 0..reads.len() {
            row.put(desk, read, reads[read]);
        }
        row.value(desk)
    }
}

impl Row {
    /// How many slots its code wants.
    ///
    /// # Errors
    /// Where there are more than memory has.
    fn slots(&self) -> Result<usize, AllocError>
        ensures { IfOk result (λ n. n ≡ self.now.code.reads + length self.now.code.steps.items) }
    {
        self.code
            .reads
            .checked_add(self.code.steps.len())
            .ok_or(AllocError)
    }

    /// Lays it on a desk at these turns, to go on by these steps.
    pub fn lay(&self, desk: &mut Desk, turns: &[i64], steps: &[i64])
        requires { HasRoom self.now desk.old }
        ensures laid { IsLaid self.now steps.now turns.now desk.new }
        ensures room { HasSameRoom desk.old desk.new }
    {
        lay_all(&self.cells, &mut desk.cells, turns, steps);
        lay_all(&self.code.leaves, &mut desk.leaves, turns, steps);
    }

    /// The number of the cell of this access, the place as 0, then the reads from 1, where the desk stands.
    #[inline]
    pub fn cell(&self, desk: &Desk, access: usize) -> usize
        requires room { HasRoom self.now desk.now }
        requires access { access < length self.now.cells.items }
        ensures { (steps turns : List ℤ) (form : Affine) → IsLaid self.now steps turns desk.now
            → slice_get self.now.cells.items access ≡ Some form → result ≡ wrapped (value_of form turns) }
    {
        desk.cells[access].at as usize
    }

    /// Puts a value that was read.
    #[inline]
    pub fn put(&self, desk: &mut Desk, read: usize, value: u64)
        requires room { HasRoom self.now desk.old }
        requires read { read < self.now.code.reads }
        ensures slots { desk.new.slots.items ≡ slice_set desk.old.slots.items read value }
        ensures laid { (steps turns : List ℤ) → IsLaid self.now steps turns desk.old
            → IsLaid self.now steps turns desk.new }
        ensures room { HasSameRoom desk.old desk.new }
    {
        desk.slots[read] = value;
    }

    /// What is stored where the desk stands, of the values that were put.
    #[inline]
    pub fn value(&self, desk: &mut Desk) -> u64
        requires made { IsWellMade self.now.code }
        requires room { HasRoom self.now desk.old }
        ensures value { (steps turns : List ℤ) → IsLaid self.now steps turns desk.old
            → result ≡ value_by self.now.code turns (take self.now.code.reads desk.old.slots.items) }
        ensures laid { (steps turns : List ℤ) → IsLaid self.now steps turns desk.old
            → IsLaid self.now steps turns desk.new }
        ensures reads { take self.now.code.reads desk.new.slots.items
            ≡ take self.now.code.reads desk.old.slots.items }
        ensures room { HasSameRoom desk.old desk.new }
    {
        let leaves = &desk.leaves[..self.code.leaves.len()];
        self.code.run(leaves, &mut desk.slots)
    }

    /// Takes the desk one step on.
    #[inline]
    pub fn go_on(&self, desk: &mut Desk)
        requires { HasRoom self.now desk.old }
        ensures laid { (steps turns : List ℤ) → IsLaid self.now steps turns desk.old
            → IsLaid self.now steps (sums turns steps) desk.new }
        ensures room { HasSameRoom desk.old desk.new }
    {
        go_on_all(&mut desk.cells, self.cells.len());
        go_on_all(&mut desk.leaves, self.code.leaves.len());
    }
}
