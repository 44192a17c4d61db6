//! The wave and the tile of an instance. Whether an instance has those of a key is told with no division: by its leading
//! scalars, and by the interval that each coordinate stands for.
ghost use Rattle.std.specs.Prelude.{◌≡◌, ◌+ℤ◌, ◌*ℤ◌, if◌then◌else◌, ◌<◌, ◌≤◌, ◌↔◌, ◌++◌, All, FitsSigned, IsTrue, OnOk};
ghost use Rattle.std.specs.Prelude.{false, get_or, length, map, pos, take, true};
ghost use Rattle.std.specs.Int.{w64, w128};
ghost use Rattle.whole_numbers.specs.Affine.{value_of};
ghost use Rattle.whole_numbers.specs.Floor.{floor};
ghost use Rattle.whole_numbers.specs.Lists.{multiples};
ghost use Rattle.scop_syntax.specs.View.{instance_of};
ghost use Rattle.loop_tree.specs.Conditions.{IsHeld};
ghost use Rattle.loop_tree.specs.Stretches.{left_of};
ghost use Rattle.loop_tree.specs.Tiling.{coordinates, items_at};
ghost use Rattle.loop_tree.specs.TilingView.{items_of, tiling_of};
ghost use Rattle.tile_list.specs.Tiles.{RowsFit};
ghost use Rattle.tile_list.specs.steps.Keys.{HaveOneWave, IsKeyAt, IsKeyOf, carried};
ghost use Rattle.tile_list.specs.Stretches.{instance_at, steps_on};
ghost use Rattle.tile_list.specs.steps.Stretching.{AllHaveKey, AllRowsFit};

use loop_tree::{Stretch, TileItems, TileRow, Tiling};
use scop_syntax::{Instance, MOST_LOOPS, exact_at, with_product};
use std::alloc::{AllocError, Global};

/// An instance's wave and its tile: the leading scalars of its statement, the sum of the coordinates of the rows that
/// carry, and the coordinates of all rows.
#[derive(Drop)]
pub struct Key {
    pub leading: Vec<usize>,
    pub sum: i128,
    pub tile: Vec<i64>,
}

/// A number by another one, rounded down.
#[inline]
fn floor_of(value: i64, size: u64) -> i64
    requires { 1 ≤ size }
    ensures { result ≡ floor value (pos size) }
{
    if value >= 0 {
        (value as u64 / size) as i64
    } else {
        -1 - ((-1 - value) as u64 / size) as i64
    }
}

/// The value of a row, by the size of the tiles.
#[inline]
pub fn coordinate(row: &TileRow, size: u64, turns: &[i64]) -> i64
    requires size { 1 ≤ size }
    requires fits { FitsSigned w64 (value_of row.now.form turns.now) }
    ensures { result ≡ floor (value_of row.now.form turns.now) (pos size) }
{
    floor_of(exact_at(&row.form, turns), size)
}

/// Puts the coordinates of rows behind others.
fn push_coordinates(
    list: &mut Vec<i64>,
    rows: &[TileRow],
    size: u64,
    turns: &[i64],
) -> Result<(), AllocError>
    requires size { 1 ≤ size }
    requires fits { All (λ r. FitsSigned w64 (value_of r.form turns.now)) rows.now }
    ensures { OnOk result (list.new.items ≡ list.old.items ++ coordinates (pos size) rows.now turns.now) }
{
    for row in rows {
        list.push(coordinate(row, size, turns))?;
    }
    Ok(())
}

/// The least number with a coordinate.
#[inline]
fn least_with(coordinate: i64, size: u64) -> i128
    ensures is { result ≡ coordinate *ℤ pos size }
    ensures small { FitsSigned w128 (result +ℤ pos size) }
{
    coordinate as i128 * size as i128
}

/// Whether a number by another one, rounded down, is a coordinate: a product and two comparisons tell it.
#[inline]
fn is_within(value: i64, size: u64, coordinate: i64) -> bool
    requires { 1 ≤ size }
    ensures within { result ≡ true → floor value (pos size) ≡ coordinate }
    ensures outside { result ≡ false → floor value (pos size) ≡ coordinate → ⊥ }
{
    let least = least_with(coordinate, size);
    if (value as i128) < least {
        return false;
    }
    if least + size as i128 <= value as i128 {
        return false;
    }
    true
}

/// Whether the coordinates of rows are these.
fn are_within(rows: &[TileRow], size: u64, turns: &[i64], tile: &[i64]) -> bool
    requires size { 1 ≤ size }
    requires fits { All (λ r. FitsSigned w64 (value_of r.form turns.now)) rows.now }
    ensures within { result ≡ true → tile.now ≡ coordinates (pos size) rows.now turns.now }
    ensures outside { result ≡ false → tile.now ≡ coordinates (pos size) rows.now turns.now → ⊥ }
{
    if rows.len() != tile.len() {
        return false;
    }
    for (place, row) in rows.iter().enumerate() {
        if !is_within(exact_at(&row.form, turns), size, tile[place]) {
            return false;
        }
    }
    true
}

/// What a row's coordinate adds to the wave.
#[inline]
fn carried_by(row: &TileRow, coordinate: i64) -> i128
    ensures is { result ≡ (if row.now.carries then coordinate else pos 0) }
    ensures small { FitsSigned w64 result }
{
    if row.carries { coordinate as i128 } else { 0 }
}

/// The sum of the coordinates of the rows that carry.
fn carried_sum(rows: &[TileRow], tile: &[i64]) -> i128
    requires { length tile.now ≡ length rows.now }
    ensures { result ≡ carried rows.now tile.now }
{
    let mut sum = 0i128;
    for (place, row) in rows.iter().enumerate() {
        sum += carried_by(row, tile[place]);
    }
    sum
}

/// Whether two lists of numbers are one.
#[inline]
fn are_same(left: &[usize], right: &[usize]) -> bool
    ensures { IsTrue result ↔ (left.now ≡ right.now) }
{
    left == right
}

/// A statement's leading scalars.
#[inline]
pub fn leading_at(statements: &[TileItems], statement: usize) -> &[usize]
    ensures { result.now ≡ (items_at (map items_of statements.now) statement).leading }
{
    match statements.get(statement) {
        None => &[],
        Some(items) => &items.leading,
    }
}

/// The rows of its first band.
#[inline]
pub fn band_at(statements: &[TileItems], statement: usize) -> &[TileRow]
    ensures { result.now ≡ (items_at (map items_of statements.now) statement).band }
{
    match statements.get(statement) {
        None => &[],
        Some(items) => &items.band,
    }
}

/// What a turn is so many steps on, where there is room for it; another number elsewhere.
#[inline]
fn turn_after(turns: &[i64; MOST_LOOPS], steps: &[i64; MOST_LOOPS], count: u64, place: usize) -> i64
    requires { place < 5 }
    ensures { FitsSigned w64 (get_or turns.now place (pos 0) +ℤ get_or (multiples (pos count) steps.now) place (pos 0))
        → result ≡ get_or turns.now place (pos 0) +ℤ get_or (multiples (pos count) steps.now) place (pos 0) }
{
    with_product(turns[place], steps[place], count.cast_signed())
}

/// The instance so many steps behind another one.
#[inline]
pub fn after(before: &Instance, steps: &[i64; MOST_LOOPS], count: u64) -> Instance
    requires { All (FitsSigned w64) (steps_on before.now.statement (instance_of before.now).turns
        (take before.now.loops steps.now) count).turns }
    ensures instance { instance_of result ≡ steps_on before.now.statement (instance_of before.now).turns
        (take before.now.loops steps.now) count }
    ensures loops { result.loops ≡ before.now.loops }
{
    Instance {
        statement: before.statement,
        loops: before.loops,
        turns: [
            turn_after(&before.turns, steps, count, 0),
            turn_after(&before.turns, steps, count, 1),
            turn_after(&before.turns, steps, count, 2),
            turn_after(&before.turns, steps, count, 3),
            turn_after(&before.turns, steps, count, 4),
        ],
    }
}

impl Key {
    /// A key to be filled.
    pub fn empty(alloc: Global) -> Key {
        Key {
            leading: Vec::new(alloc),
            sum: 0,
            tile: Vec::new(alloc),
        }
    }

    /// Becomes that of a statement's turns.
    fn set_at(
        &mut self,
        size: u64,
        leading: &[usize],
        band: &[TileRow],
        turns: &[i64],
    ) -> Result<(), AllocError>
        requires size { 1 ≤ size }
        requires fits { All (λ r. FitsSigned w64 (value_of r.form turns.now)) band.now }
        ensures { OnOk result (IsKeyAt size leading.now band.now turns.now self.new) }
    {
        self.leading.clear();
        self.leading.extend_from_slice(leading)?;
        self.tile.clear();
        push_coordinates(&mut self.tile, band, size, turns)?;
        self.sum = carried_sum(band, &self.tile);
        Ok(())
    }

    /// Becomes that of an instance.
    ///
    /// # Errors
    /// `AllocError` alone.
    pub fn set(&mut self, tiling: &Tiling, instance: &Instance) -> Result<(), AllocError>
        requires { RowsFit (tiling_of tiling.now) (instance_of instance.now) }
        ensures { OnOk result (IsKeyOf (tiling_of tiling.now) (instance_of instance.now) self.new) }
    {
        match tiling {
            Tiling::Kept => Ok(()),
            Tiling::Tiled(size, statements) => self.set_at(
                size.get(),
                leading_at(statements, instance.statement),
                band_at(statements, instance.statement),
                instance.turns(),
            ),
        }
    }

    /// Whether the waves are one.
    pub fn has_wave(&self, other: &Key) -> bool
        ensures same { result ≡ true → HaveOneWave self.now other.now }
        ensures other { result ≡ false → HaveOneWave self.now other.now → ⊥ }
    {
        if !are_same(&self.leading, &other.leading) {
            return false;
        }
        self.sum == other.sum
    }

    /// Whether it is that of a statement's turns.
    #[inline]
    fn is_at(&self, size: u64, leading: &[usize], band: &[TileRow], turns: &[i64]) -> bool
        requires size { 1 ≤ size }
        requires fits { All (λ r. FitsSigned w64 (value_of r.form turns.now)) band.now }
        ensures same { result ≡ true → IsKeyAt size leading.now band.now turns.now self.now }
        ensures other { result ≡ false → IsKeyAt size leading.now band.now turns.now self.now → ⊥ }
    {
        if !are_same(&self.leading, leading) {
            return false;
        }
        if !are_within(band, size, turns, &self.tile) {
            return false;
        }
        if self.sum != carried_sum(band, &self.tile) {
            return false;
        }
        true
    }

    /// Whether it is that of an instance. It takes no memory and no division.
    #[inline]
    pub fn is_of(&self, tiling: &Tiling, instance: &Instance) -> bool
        requires { RowsFit (tiling_of tiling.now) (instance_of instance.now) }
        ensures same { result ≡ true → IsKeyOf (tiling_of tiling.now) (instance_of instance.now) self.now }
        ensures other { result ≡ false → IsKeyOf (tiling_of tiling.now) (instance_of instance.now) self.now → ⊥ }
    {
        match tiling {
            Tiling::Kept => true,
            Tiling::Tiled(size, statements) => self.is_at(
                size.get(),
                leading_at(statements, instance.statement),
                band_at(statements, instance.statement),
                instance.turns(),
            ),
        }
    }

    /// Whether it is that of the instance so many steps on a stretch.
    #[inline]
    fn is_on(&self, tiling: &Tiling, stretch: &Stretch, count: u64) -> bool
        requires some { 1 ≤ count }
        requires left { count ≤ stretch.now.left }
        requires held { All IsHeld (left_of stretch.now) }
        requires fits { AllRowsFit (tiling_of tiling.now) stretch.now }
        ensures { result ≡ true → IsKeyOf (tiling_of tiling.now) (instance_at stretch.now count) self.now }
    {
        self.is_of(tiling, &after(&stretch.before, &stretch.steps, count))
    }

    /// Whether it is that of all that is left of a stretch, where it is that of the instance in front: it is where it is
    /// that of the last, since along a stretch each coordinate of the tile rises, or each falls.
    pub fn is_of_stretch(&self, tiling: &Tiling, stretch: &Stretch) -> bool
        requires held { All IsHeld (left_of stretch.now) }
        requires fits { AllRowsFit (tiling_of tiling.now) stretch.now }
        ensures { result ≡ true → IsKeyOf (tiling_of tiling.now) (instance_of stretch.now.before) self.now
            → AllHaveKey (tiling_of tiling.now) self.now stretch.now }
    {
        if stretch.left == 0 {
            return false;
        }
        self.is_on(tiling, stretch, stretch.left)
    }

    /// Whether it is that of all that is left of a strand: it is where it is that of the first and of the last.
    fn is_of_strand(&self, tiling: &Tiling, strand: &Stretch) -> bool
        requires held { All IsHeld (left_of strand.now) }
        requires fits { AllRowsFit (tiling_of tiling.now) strand.now }
        ensures { result ≡ true → AllHaveKey (tiling_of tiling.now) self.now strand.now }
    {
        if strand.left == 0 {
            return true;
        }
        if !self.is_on(tiling, strand, 1) {
            return false;
        }
        self.is_on(tiling, strand, strand.left)
    }

    /// Whether it is that of all that is left of strands.
    pub fn is_of_strands(&self, tiling: &Tiling, strands: &[Stretch]) -> bool
        requires held { All (λ s. All IsHeld (left_of s)) strands.now }
        requires fits { All (AllRowsFit (tiling_of tiling.now)) strands.now }
        ensures { result ≡ true → All (AllHaveKey (tiling_of tiling.now) self.now) strands.now }
    {
        for strand in strands {
            if !self.is_of_strand(tiling, strand) {
                return false;
            }
        }
        true
    }
}
