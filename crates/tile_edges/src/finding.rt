//! Which tile of a list an instance lies in: mostly that of the instance before, else by halving.
ghost use Rattle.std.specs.Prelude.{◌≡◌, ◌+ℤ◌, ◌++◌, ◌<◌, ◌≤◌, ◌∷◌, ◌↔◌, if◌then◌else◌, ℕ, All, FitsSigned, IfOk, IsTrue, OnOk};
ghost use Rattle.std.specs.Prelude.{[], length, map, pos, true};
ghost use Rattle.std.specs.Int.{w64};
ghost use Rattle.whole_numbers.specs.Affine.{value_of};
ghost use Rattle.whole_numbers.specs.Floor.{floor};
ghost use Rattle.scop_syntax.specs.View.{instance_of};
ghost use Rattle.loop_tree.specs.Tiling.{coordinates, wave_sum};
ghost use Rattle.loop_tree.specs.TilingView.{tiling_of};
ghost use Rattle.loop_tree.specs.Conditions.{IsHeld};
ghost use Rattle.loop_tree.specs.Stretches.{left_of};
ghost use Rattle.tile_list.specs.Tiles.{RowsFit};
ghost use Rattle.tile_list.specs.steps.Stretching.{AllRowsFit};
ghost use Rattle.tile_edges.specs.Edges.{IsTileOf};
ghost use Rattle.tile_edges.specs.steps.Ahead.{LieIn};
ghost use Rattle.tile_edges.specs.steps.Finding.{ArePlacesOf, FirstsFit, HasTileOf, IsFinder, IsPlaceOf, Stands};
ghost use Rattle.tile_edges.specs.steps.Finding.{TilesRise, comes_before};

use crate::stretching::likely_ahead;
use loop_tree::{Stretch, TileRow, Tiling};
use scop_syntax::Instance;
use std::alloc::{AllocError, Global};
use std::cmp::Ordering;
use tile_list::{Tile, TileList, after, band_at, coordinate, leading_at};

/// A wave and a tile, as lists of numbers.
#[derive(Drop)]
pub struct Place {
    pub wave: Vec<i128>,
    pub tile: Vec<i128>,
}

/// The places of the tiles of a list, that of the instance that was found last, and its tile.
#[derive(Drop)]
pub struct Finder {
    pub places: Vec<Place>,
    pub here: Place,
    pub at: usize,
}

/// The number as a signed one.
fn whole(number: usize) -> i128
    ensures { result ≡ pos number }
{
    number as i128
}

/// The coordinate of a row in more bits.
fn wide(row: &TileRow, size: u64, turns: &[i64]) -> i128
    requires size { 1 ≤ size }
    requires fits { FitsSigned w64 (value_of row.now.form turns.now) }
    ensures { result ≡ floor (value_of row.now.form turns.now) (pos size) }
{
    i128::from(coordinate(row, size, turns))
}

/// What a row adds to the wave.
fn share(row: &TileRow, size: u64, turns: &[i64]) -> i128
    requires size { 1 ≤ size }
    requires fits { FitsSigned w64 (value_of row.now.form turns.now) }
    ensures is { result ≡ (if row.now.carries then floor (value_of row.now.form turns.now) (pos size) else pos 0) }
    ensures small { FitsSigned w64 result }
{
    if row.carries {
        coordinate(row, size, turns) as i128
    } else {
        0
    }
}

/// What rows add up to.
fn shares(rows: &[TileRow], size: u64, turns: &[i64]) -> i128
    requires size { 1 ≤ size }
    requires fits { All (λ r. FitsSigned w64 (value_of r.form turns.now)) rows.now }
    ensures { result ≡ wave_sum (pos size) rows.now turns.now }
{
    let mut sum = 0i128;
    for (place, row) in rows.iter().enumerate() {
        sum += share(row, size, turns);
    }
    sum
}

/// Puts numbers behind others.
fn push_numbers(list: &mut Vec<i128>, numbers: &[usize]) -> Result<(), AllocError>
    ensures { OnOk result (list.new.items ≡ list.old.items ++ map pos numbers.now) }
{
    for number in numbers {
        list.push(whole(*number))?;
    }
    Ok(())
}

/// Puts the coordinates of rows behind others.
fn push_coordinates(
    list: &mut Vec<i128>,
    rows: &[TileRow],
    size: u64,
    turns: &[i64],
) -> Result<(), AllocError>
    requires size { 1 ≤ size }
    requires fits { All (λ r. FitsSigned w64 (value_of r.form turns.now)) rows.now }
    ensures { OnOk result (list.new.items ≡ list.old.items ++ coordinates (pos size) rows.now turns.now) }
{
    for row in rows {
        list.push(wide(row, size, turns))?;
    }
    Ok(())
}

/// Whether two lists of numbers are one.
fn are_same(left: &[i128], right: &[i128]) -> bool
    ensures { IsTrue result ↔ (left.now ≡ right.now) }
{
    left == right
}

impl Place {
    /// A place to be filled.
    fn empty(alloc: Global) -> Place
        ensures wave { result.wave.items ≡ [] }
        ensures tile { result.tile.items ≡ [] }
    {
        Place {
            wave: Vec::new(alloc),
            tile: Vec::new(alloc),
        }
    }

    /// Becomes that of a statement's turns, where it is empty.
    fn put(
        &mut self,
        size: u64,
        leading: &[usize],
        band: &[TileRow],
        turns: &[i64],
    ) -> Result<(), AllocError>
        requires size { 1 ≤ size }
        requires fits { All (λ r. FitsSigned w64 (value_of r.form turns.now)) band.now }
        ensures wave { OnOk result (self.new.wave.items ≡ map pos leading.now ++ wave_sum (pos size) band.now turns.now ∷ []) }
        ensures tile { OnOk result (self.new.tile.items ≡ map pos leading.now ++ coordinates (pos size) band.now turns.now) }
    {
        self.wave.clear();
        push_numbers(&mut self.wave, leading)?;
        self.wave.push(shares(band, size, turns))?;
        self.tile.clear();
        push_numbers(&mut self.tile, leading)?;
        push_coordinates(&mut self.tile, band, size, turns)?;
        Ok(())
    }

    /// In a kept order all places are empty.
    fn clear(&mut self)
        ensures wave { self.new.wave.items ≡ [] }
        ensures tile { self.new.tile.items ≡ [] }
    {
        self.wave.clear();
        self.tile.clear();
    }

    /// Becomes that of an instance.
    fn set(&mut self, tiling: &Tiling, instance: &Instance) -> Result<(), AllocError>
        requires { RowsFit (tiling_of tiling.now) (instance_of instance.now) }
        ensures { OnOk result (IsPlaceOf (tiling_of tiling.now) (instance_of instance.now) self.new) }
    {
        match tiling {
            Tiling::Kept => {
                self.clear();
                Ok(())
            }
            Tiling::Tiled(size, statements) => self.put(
                size.get(),
                leading_at(statements, instance.statement),
                band_at(statements, instance.statement),
                instance.turns(),
            ),
        }
    }

    /// The place of an instance.
    fn of(alloc: Global, tiling: &Tiling, instance: &Instance) -> Result<Place, AllocError>
        requires { RowsFit (tiling_of tiling.now) (instance_of instance.now) }
        ensures { IfOk result (IsPlaceOf (tiling_of tiling.now) (instance_of instance.now)) }
    {
        let mut place = Place::empty(alloc);
        place.set(tiling, instance)?;
        Ok(place)
    }

    /// Whether it is another.
    fn is(&self, other: &Place) -> bool
        ensures wave { result ≡ true → self.now.wave.items ≡ other.now.wave.items }
        ensures tile { result ≡ true → self.now.tile.items ≡ other.now.tile.items }
    {
        if !are_same(self.wave.as_slice(), other.wave.as_slice()) {
            return false;
        }
        are_same(self.tile.as_slice(), other.tile.as_slice())
    }

    /// Whether it comes before another.
    fn is_before(&self, other: &Place) -> bool
        ensures { result ≡ comes_before self.now other.now }
    {
        match self.wave.as_slice().cmp(&other.wave.as_slice()) {
            Ordering::Less => true,
            Ordering::Greater => false,
            Ordering::Equal => match self.tile.as_slice().cmp(&other.tile.as_slice()) {
                Ordering::Less => true,
                Ordering::Equal => false,
                Ordering::Greater => false,
            },
        }
    }
}

/// The last of these places that the place does not come before.
fn search(places: &[Place], place: &Place) -> usize
    requires { 0 < length places.now }
    ensures { (t : ℕ) → Stands places.now place.now t → result ≡ t }
{
    let mut low = 0;
    let mut high = places.len();
    while high - low > 1 {
        let middle = low + (high - low) / 2;
        if place.is_before(&places[middle]) {
            high = middle;
            continue;
        }
        low = middle;
    }
    low
}

/// The places of tiles.
fn places_of(alloc: Global, tiling: &Tiling, tiles: &[Tile]) -> Result<Vec<Place>, AllocError>
    requires { FirstsFit (tiling_of tiling.now) tiles.now }
    ensures { IfOk result (λ places. ArePlacesOf (tiling_of tiling.now) tiles.now places.items) }
{
    let mut places = Vec::new(alloc);
    for tile in tiles {
        let place = Place::of(alloc, tiling, &tile.first)?;
        places.push(place)?;
    }
    Ok(places)
}

impl Finder {
    /// No instance was found yet.
    pub fn of(alloc: Global, tiling: &Tiling, list: &TileList) -> Result<Finder, AllocError>
        requires { FirstsFit (tiling_of tiling.now) list.now.tiles.items }
        ensures { IfOk result (IsFinder (tiling_of tiling.now) list.now) }
    {
        let places = places_of(alloc, tiling, list.tiles.as_slice())?;
        Ok(Finder {
            places,
            here: Place::empty(alloc),
            at: 0,
        })
    }

    /// The tile of an instance. The list is there for the contract alone.
    pub fn find(
        &mut self,
        tiling: &Tiling,
        list: &TileList,
        instance: &Instance,
    ) -> Result<usize, AllocError>
        requires fits { RowsFit (tiling_of tiling.now) (instance_of instance.now) }
        requires rise { TilesRise (tiling_of tiling.now) list.now.tiles.items }
        requires finder { IsFinder (tiling_of tiling.now) list.now self.old }
        requires there { HasTileOf (tiling_of tiling.now) list.now (instance_of instance.now) }
        ensures finder { OnOk result (IsFinder (tiling_of tiling.now) list.now self.new) }
        ensures tile { IfOk result (λ t. IsTileOf (tiling_of tiling.now) list.now t (instance_of instance.now)) }
        ensures at { IfOk result (λ t. t ≡ self.new.at) }
    {
        self.here.set(tiling, instance)?;
        if self.here.is(&self.places[self.at]) {
            return Ok(self.at);
        }
        self.at = search(self.places.as_slice(), &self.here);
        Ok(self.at)
    }

    /// How many of the instances that are left of a stretch, the next ones, surely lie in the tile of the one in front,
    /// which was found last: along a stretch each coordinate of the tile rises, or each falls, so the last of them
    /// tells it. The list is there for the contract alone.
    pub fn ahead(
        &mut self,
        tiling: &Tiling,
        list: &TileList,
        stretch: &Stretch,
    ) -> Result<u64, AllocError>
        requires held { All IsHeld (left_of stretch.now) }
        requires fits { AllRowsFit (tiling_of tiling.now) stretch.now }
        requires finder { IsFinder (tiling_of tiling.now) list.now self.old }
        requires front { IsTileOf (tiling_of tiling.now) list.now self.old.at (instance_of stretch.now.before) }
        ensures finder { OnOk result (IsFinder (tiling_of tiling.now) list.now self.new) }
        ensures few { IfOk result (λ n. n ≤ stretch.now.left) }
        ensures tile { IfOk result (λ n. LieIn (tiling_of tiling.now) list.now self.new.at stretch.now n) }
    {
        let count = likely_ahead(tiling, stretch);
        if count == 0 {
            return Ok(0);
        }
        let last = after(&stretch.before, &stretch.steps, count);
        self.here.set(tiling, &last)?;
        if self.here.is(&self.places[self.at]) {
            return Ok(count);
        }
        Ok(0)
    }
}
