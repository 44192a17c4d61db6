//! The schedule of a model's dependences, which its invariant says is that of the determined run.
ghost use Rattle.std.specs.Prelude.{◌≡◌, ◌<◌, ◌-◌, ◌++◌, ◌∷◌, [], IfOk, OnOk, Some, length, map, slice_get};
ghost use Rattle.schedule_rows.specs.Items.{Row};
ghost use Rattle.schedule_rows.specs.Outcomes.{IsSchedule};
ghost use Rattle.schedule_rows.specs.Schedule.{row, item_of, marked_of, block_of, loops_in};
ghost use Rattle.schedule_rows.specs.Schedule.{items_of, bands_from, marks_of};
ghost use Rattle.schedule_rows.specs.Schedule.{scheduled, IsScheduled, IsMarked};

use crate::item::{Band, Block, Item, Marked};
use iteration_domains::{Dep, Model};
use std::alloc::{AllocError, Global};

/// The schedule of a model's dependences. Contracts see the plain data of specs/Schedule.antt.
#[derive(Drop)]
pub struct Schedule<'a> {
    model: &'a Model,
    deps: &'a [Dep],
    items: Vec<Item>,
    bands: Vec<Band>,
    parallel: Vec<bool>,
}

impl<'a> std::marker::Model for Schedule<'a> {
    ghost use Rattle.std.specs.Prelude.{map};
    ghost use Rattle.schedule_rows.specs.Schedule.{Scheduled, scheduled, item_of, IsScheduled};

    ghost Value = { Scheduled };

    ghost view = { λ s. scheduled s.model.now s.deps.now (map item_of s.items.items) s.bands.items s.parallel.items };

    ghost invariant = { λ s. IsScheduled
        (scheduled s.model.now s.deps.now (map item_of s.items.items) s.bands.items s.parallel.items) };
}

/// Appends an item with its mark.
fn push_item(
    items: &mut Vec<Item>,
    parallel: &mut Vec<bool>,
    item: Item,
    mark: bool,
) -> Result<(), AllocError>
    ensures items { OnOk result (items.new.items ≡ items.old.items ++ item ∷ []) }
    ensures parallel { OnOk result (parallel.new.items ≡ parallel.old.items ++ mark ∷ []) }
{
    match items.push(item) {
        Err(_) => return Err(AllocError),
        Ok(()) => {}
    }
    match parallel.push(mark) {
        Err(_) => Err(AllocError),
        Ok(()) => Ok(()),
    }
}

/// Appends the rows of a band.
fn push_rows(
    items: &mut Vec<Item>,
    parallel: &mut Vec<bool>,
    rows: Vec<Marked>,
) -> Result<(), AllocError>
    ensures items { OnOk result (map item_of items.new.items
        ≡ map item_of items.old.items ++ map (λ m. row m.row) (map marked_of rows.items)) }
    ensures parallel { OnOk result (parallel.new.items
        ≡ parallel.old.items ++ map (λ m. m.parallel) (map marked_of rows.items)) }
{
    for marked in rows {
        let Marked {
            row,
            parallel: mark,
        } = marked;
        match push_item(items, parallel, Item::Row(row), mark) {
            Err(_) => return Err(AllocError),
            Ok(()) => {}
        }
    }
    Ok(())
}

/// Appends the band of the items from `first` on, if there are any.
fn push_band(bands: &mut Vec<Band>, first: usize, behind: usize) -> Result<(), AllocError>
    ensures some { OnOk result (first < behind
        → bands.new.items ≡ bands.old.items ++ record { first = first; last = behind - 1 } ∷ []) }
    ensures none { OnOk result (behind ≡ first → bands.new.items ≡ bands.old.items) }
{
    if behind <= first {
        return Ok(());
    }
    match bands.push(Band {
        first,
        last: behind - 1,
    }) {
        Err(_) => Err(AllocError),
        Ok(()) => Ok(()),
    }
}

/// Appends the items of a block.
fn push_block(
    items: &mut Vec<Item>,
    bands: &mut Vec<Band>,
    parallel: &mut Vec<bool>,
    block: Block,
) -> Result<(), AllocError>
    ensures items { OnOk result (map item_of items.new.items
        ≡ map item_of items.old.items ++ items_of (block_of block ∷ [])) }
    ensures bands { OnOk result (bands.new.items
        ≡ bands.old.items ++ bands_from (length items.old.items) (block_of block ∷ [])) }
    ensures parallel { OnOk result (parallel.new.items ≡ parallel.old.items ++ marks_of (block_of block ∷ [])) }
{
    match block {
        Block::Scalar(numbers) => push_item(items, parallel, Item::Scalar(numbers), false),
        Block::Band(rows) => {
            let first = items.len();
            match push_rows(items, parallel, rows) {
                Err(_) => Err(AllocError),
                Ok(()) => push_band(bands, first, items.len()),
            }
        }
    }
}

impl<'a> Schedule<'a> {
    /// The schedule of these blocks, which are those of the determined run.
    ///
    /// # Errors
    /// `AllocError` alone.
    pub fn of(
        alloc: Global,
        model: &'a Model,
        deps: &'a [Dep],
        blocks: Vec<Block>,
    ) -> Result<Schedule<'a>, AllocError>
        requires { IsSchedule model.now.parameters (loops_in model.now) deps.now (map block_of blocks.items) }
        ensures { IfOk result (λ s. s ≡ scheduled model.now deps.now (items_of (map block_of blocks.items))
            (bands_from 0 (map block_of blocks.items)) (marks_of (map block_of blocks.items))) }
    {
        let mut items = Vec::new(alloc);
        let mut bands = Vec::new(alloc);
        let mut parallel = Vec::new(alloc);
        for block in blocks {
            match push_block(&mut items, &mut bands, &mut parallel, block) {
                Err(_) => return Err(AllocError),
                Ok(()) => {}
            }
        }
        Ok(Schedule {
            model,
            deps,
            items,
            bands,
            parallel,
        })
    }

    /// The model that it is a schedule of.
    pub fn model(&self) -> &Model
        ensures { result.now ≡ self.now.model }
    {
        self.model
    }

    /// The items in order: the rows of the bands, and the scalar items.
    pub fn items(&self) -> &[Item]
        ensures items { map item_of result.now ≡ self.now.items }
        ensures schedule { IsScheduled self.now }
    {
        self.items.as_slice()
    }

    /// The bands in order.
    pub fn bands(&self) -> &[Band]
        ensures { result.now ≡ self.now.bands }
    {
        self.bands.as_slice()
    }

    /// Whether an item is a parallel row: no two dependent instances of one iteration of what stands round its band
    /// differ in it.
    pub fn is_parallel(&self, item: usize) -> bool
        requires { item < length self.now.items }
        ensures parallel { slice_get self.now.parallel item ≡ Some result }
        ensures exact { (r : Row) → slice_get self.now.items item ≡ Some (row r)
            → IsMarked self.now.model.parameters (loops_in self.now.model) self.now.deps self.now.items item r result }
    {
        self.parallel[item]
    }
}
