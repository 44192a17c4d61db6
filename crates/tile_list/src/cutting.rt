//! One walk over a tree's visits, which begins a tile where wave or tile are others than before.
ghost use Rattle.std.specs.Prelude.{◌≡◌, ◌+◌, ◌*◌, ◌<◌, ◌++◌, ◌∷◌, [], All, IfOk, IfSome, OnOk, false, length, min};
ghost use Rattle.scop_syntax.specs.View.{instance_of};
ghost use Rattle.loop_tree.specs.Braids.{IsBraid, left_of_braid};
ghost use Rattle.loop_tree.specs.Conditions.{CanWalk, IsHeld};
ghost use Rattle.loop_tree.specs.Passed.{HasLeft};
ghost use Rattle.loop_tree.specs.Spot.{deep_all};
ghost use Rattle.loop_tree.specs.SpotView.{IsSpotOf, to_come};
ghost use Rattle.loop_tree.specs.Stretches.{left_of};
ghost use Rattle.loop_tree.specs.TilingView.{tiling_of};
ghost use Rattle.loop_tree.specs.View.{trees_in};
ghost use Rattle.loop_tree.specs.Walk.{visits};
ghost use Rattle.tile_list.specs.Tiles.{CanTile, RiseByTile, RowsFit};
ghost use Rattle.tile_list.specs.TilesView.{IsTileListOf};
ghost use Rattle.tile_list.specs.steps.Cutting.{Begins, HasBegun, HasGrown, IsCutTo, IsListed};
ghost use Rattle.tile_list.specs.steps.Cutting.{IsNewTile, IsWaveOf, Takes};
ghost use Rattle.tile_list.specs.steps.Keys.{IsKeyOf};
ghost use Rattle.tile_list.specs.steps.Placing.{HasCome};
ghost use Rattle.tile_list.specs.Stretches.{HasRounds};
ghost use Rattle.tile_list.specs.steps.Stretching.{AllFit, AllRowsFit, GoesOn, Passes};

use crate::keys::Key;
use crate::list::{Tile, TileList};
use crate::offsets::offsets_of;
use crate::place::Front;
use loop_tree::{Braid, Passed, Spot, Stretch, Tiling, Tree};
use scop_syntax::Instance;
use std::alloc::{AllocError, Global};
use std::mem;

/// The tiles that have come to their ends, the one that still grows with its key, and room for the key of the next one.
#[derive(Drop)]
struct Cut {
    tiles: Vec<Tile>,
    current: Tile,
    key: Key,
    next: Key,
}

/// How many steps of the walk a look ahead takes at least.
const LEAST_PRICE: usize = 16;

/// How many steps it takes at most, and how many can be saved up.
const MOST_SAVED: usize = 1024;

/// A spot that leaves loops ahead of the walk, and how many loops deep it stands where it does so: a guess, which rises
/// until what is left there lies in one tile. In each tile it begins at the least that was right in any. So that looks
/// in vain are few, each has to be saved up for, by steps of the walk and by instances that were left, and takes twice
/// as much as the one before it until one was right.
#[derive(Drop)]
struct Scout {
    spot: Spot,
    level: usize,
    least: usize,
    tile: usize,
    saved: usize,
    price: usize,
}

/// So many more, where a word has room for it.
fn more(number: usize, count: usize) -> Result<usize, AllocError>
    ensures { IfOk result (λ n. n ≡ number + count) }
{
    match number.checked_add(count) {
        None => Err(AllocError),
        Some(sum) => Ok(sum),
    }
}

/// The lesser of two numbers.
#[inline]
fn lesser(a: usize, b: usize) -> usize
    ensures { result ≡ min a b }
{
    if a <= b { a } else { b }
}

/// So many times, where a word has room for it.
fn times(count: usize, number: usize) -> Result<usize, AllocError>
    ensures { IfOk result (λ n. n ≡ count * number) }
{
    match count.checked_mul(number) {
        None => Err(AllocError),
        Some(product) => Ok(product),
    }
}

/// How many rounds are left of a braid whose first strand is next, and whose strands have as many left; 0 elsewhere.
#[inline]
pub fn rounds_left(braid: &Braid) -> u64
    requires { IsBraid braid.now }
    ensures rounds { 0 < result → HasRounds braid.now result }
    ensures strands { 0 < result → length braid.now.strands ≡ 4 }
{
    if braid.at > 0 {
        return 0;
    }
    let rounds = braid.strands[0].left;
    for strand in &braid.strands[..braid.count] {
        if strand.left != rounds {
            return 0;
        }
    }
    rounds
}

/// Whether something is left of a stretch or a braid.
#[inline]
fn has_left(stretch: &Stretch, braid: &Braid) -> bool
    requires { IsBraid braid.now }
    ensures { result ≡ false → left_of stretch.now ++ left_of_braid braid.now ≡ [] }
{
    if stretch.left > 0 {
        return true;
    }
    braid.strands[braid.at].left > 0
}

/// A tile that begins with an instance, the front and the spot of which are given.
fn tile_at(
    alloc: Global,
    first: Instance,
    front: &Front,
    spot: &Spot,
    wave: usize,
) -> Result<Tile, AllocError>
    ensures { IfOk result (IsNewTile first front.now spot.now wave) }
{
    let place = front.place(alloc, spot)?;
    Ok(Tile {
        first,
        place,
        wave,
        size: 1,
    })
}

/// Whether an instance was found, and a key is that of it.
#[inline]
fn is_last_of(key: &Key, tiling: &Tiling, last: Option<Instance>) -> bool
    requires { IfSome last (λ i. RowsFit (tiling_of tiling.now) (instance_of i)) }
{
    match last {
        None => false,
        Some(instance) => key.is_of(tiling, &instance),
    }
}

impl Scout {
    /// At the place of a spot, in front of all loops.
    fn of(alloc: Global, spot: &Spot) -> Result<Scout, AllocError>
        ensures { IfOk result (λ s. length s.spot.marks.items ≡ length spot.now.marks.items) }
    {
        let spot = spot.copy(alloc)?;
        Ok(Scout {
            spot,
            level: 0,
            least: 0,
            tile: 0,
            saved: MOST_SAVED,
            price: LEAST_PRICE,
        })
    }

    /// Leaves loops from the place of a spot on, where the last instance within them has this key. It tells how many
    /// instances it passed by, and the last of them; None where it did not go on.
    fn leave(
        &mut self,
        tree: &Tree,
        tiling: &Tiling,
        params: &[i64],
        spot: &Spot,
        key: &Key,
    ) -> Option<Passed>
        requires walk { CanWalk (trees_in tree.now) params.now [] }
        requires spot { IsSpotOf (trees_in tree.now) params.now spot.now }
        requires spent { left_of spot.now.stretch ++ left_of_braid spot.now.braid ≡ [] }
        requires fits { AllFit (tiling_of tiling.now) (to_come (trees_in tree.now) params.now spot.now) }
        requires room { length self.old.spot.marks.items ≡ deep_all (trees_in tree.now) }
        ensures left { IfSome result (λ p. HasLeft (to_come (trees_in tree.now) params.now spot.now) p.count
            (instance_of p.last) (to_come (trees_in tree.now) params.now self.new.spot)) }
        ensures spot { IfSome result (λ _. IsSpotOf (trees_in tree.now) params.now self.new.spot) }
        ensures room { length self.new.spot.marks.items ≡ deep_all (trees_in tree.now) }
    {
        if !is_last_of(key, tiling, spot.last_within(tree, params, self.level)) {
            return None;
        }
        self.spot.set(spot);
        self.spot.leave(tree, params, self.level)
    }

    /// Saves so many steps up.
    #[inline]
    fn save(&mut self, steps: usize)
        ensures { self.new.spot ≡ self.old.spot }
    {
        self.saved = lesser(self.saved.saturating_add(steps), MOST_SAVED);
    }

    /// Whether to look ahead, after a step in the tile with so many in front of it.
    #[inline]
    fn looks(&mut self, tile: usize) -> bool
        ensures { self.new.spot ≡ self.old.spot }
    {
        if self.tile != tile {
            self.tile = tile;
            if self.least > 0 {
                self.level = self.least;
            }
        }
        self.save(1);
        if self.saved < self.price {
            return false;
        }
        self.saved -= self.price;
        true
    }

    /// What was left lies in several tiles: next time it stands one loop further in, or as far out as it may where there
    /// is none.
    #[inline]
    fn deepen(&mut self)
        ensures { self.new.spot ≡ self.old.spot }
    {
        self.level = self.level.saturating_add(1);
        if self.level >= self.spot.marks.len() {
            self.level = self.least;
        }
        self.price = lesser(self.price.saturating_add(self.price), MOST_SAVED);
    }

    /// So many were left, which lie in one tile.
    #[inline]
    fn found(&mut self, count: usize)
        ensures { self.new.spot ≡ self.old.spot }
    {
        self.save(count);
        self.price = LEAST_PRICE;
        if self.least == 0 || self.level < self.least {
            self.least = self.level;
        }
    }
}

impl Cut {
    /// The first instance is in its tile.
    fn of(
        alloc: Global,
        tiling: &Tiling,
        first: Instance,
        front: &Front,
        spot: &Spot,
    ) -> Result<Cut, AllocError>
        requires { RowsFit (tiling_of tiling.now) (instance_of first) }
        ensures { IfOk result (Begins (tiling_of tiling.now) (instance_of first) front.now spot.now) }
    {
        let mut key = Key::empty(alloc);
        key.set(tiling, &first)?;
        let current = tile_at(alloc, first, front, spot, 0)?;
        Ok(Cut {
            tiles: Vec::new(alloc),
            current,
            key,
            next: Key::empty(alloc),
        })
    }

    /// The current tile has so many instances more.
    #[inline]
    fn grow(&mut self, count: usize) -> Result<(), AllocError>
        ensures { OnOk result (HasGrown count self.old self.new) }
    {
        self.current.size = more(self.current.size, count)?;
        Ok(())
    }

    /// The number of the wave of the next tile.
    fn next_wave(&self) -> Result<usize, AllocError>
        ensures { IfOk result (IsWaveOf self.now) }
    {
        if self.next.has_wave(&self.key) {
            Ok(self.current.wave)
        } else {
            more(self.current.wave, 1)
        }
    }

    /// The next tile is the current one.
    fn begin(
        &mut self,
        alloc: Global,
        first: Instance,
        front: &Front,
        spot: &Spot,
    ) -> Result<(), AllocError>
        ensures { OnOk result (HasBegun first front.now spot.now self.old self.new) }
    {
        let wave = self.next_wave()?;
        let tile = tile_at(alloc, first, front, spot, wave)?;
        self.tiles.push(mem::replace(&mut self.current, tile))?;
        mem::swap(&mut self.key, &mut self.next);
        Ok(())
    }

    /// The next instance is in its tile.
    #[inline]
    fn take(
        &mut self,
        alloc: Global,
        tiling: &Tiling,
        instance: Instance,
        front: &Front,
        spot: &Spot,
    ) -> Result<(), AllocError>
        requires { RowsFit (tiling_of tiling.now) (instance_of instance) }
        ensures { OnOk result (Takes (tiling_of tiling.now) (instance_of instance) front.now spot.now self.old
            self.new) }
    {
        if self.key.is_of(tiling, &instance) {
            return self.grow(1);
        }
        self.next.set(tiling, &instance)?;
        self.begin(alloc, instance, front, spot)
    }

    /// Takes what is left of the stretch behind an instance that was taken, where it lies in the current tile.
    fn take_stretch(
        &mut self,
        tiling: &Tiling,
        taken: &Instance,
        spot: &mut Spot,
    ) -> Result<(), AllocError>
        requires key { IsKeyOf (tiling_of tiling.now) (instance_of taken.now) self.old.key }
        requires held { All IsHeld (left_of spot.old.stretch) }
        requires fits { AllRowsFit (tiling_of tiling.now) spot.old.stretch }
        ensures { OnOk result (Passes (tiling_of tiling.now) spot.old spot.new self.old self.new) }
    {
        if !spot.stretch.follows(taken) {
            return Ok(());
        }
        if !self.key.is_of_stretch(tiling, &spot.stretch) {
            return Ok(());
        }
        self.grow(spot.stretch.left as usize)?;
        spot.stretch.left = 0;
        Ok(())
    }

    /// Takes what is left of the braid, where it lies in the current tile.
    fn take_braid(&mut self, tiling: &Tiling, spot: &mut Spot) -> Result<(), AllocError>
        requires stretch { spot.old.stretch.left ≡ 0 }
        requires braid { IsBraid spot.old.braid }
        requires fits { AllFit (tiling_of tiling.now) (left_of_braid spot.old.braid) }
        ensures { OnOk result (Passes (tiling_of tiling.now) spot.old spot.new self.old self.new) }
    {
        let rounds = rounds_left(&spot.braid);
        if rounds == 0 {
            return Ok(());
        }
        let strands = &spot.braid.strands[..spot.braid.count];
        if !self.key.is_of_strands(tiling, strands) {
            return Ok(());
        }
        self.grow(times(spot.braid.count, rounds as usize)?)?;
        spot.braid.count = 1;
        spot.braid.strands[0].left = 0;
        Ok(())
    }

    /// Takes what is left of the stretch or the braid behind an instance that was taken, where it lies in the current
    /// tile. Where it does not, it is not to be asked again: its instances are taken one by one.
    fn take_rest(
        &mut self,
        tiling: &Tiling,
        taken: &Instance,
        asked: bool,
        spot: &mut Spot,
    ) -> Result<(), AllocError>
        requires key { IsKeyOf (tiling_of tiling.now) (instance_of taken.now) self.old.key }
        requires held { All IsHeld (left_of spot.old.stretch) }
        requires braid { IsBraid spot.old.braid }
        requires fits { AllFit (tiling_of tiling.now) (left_of spot.old.stretch ++ left_of_braid spot.old.braid) }
        ensures { OnOk result (Passes (tiling_of tiling.now) spot.old spot.new self.old self.new) }
    {
        if asked {
            return Ok(());
        }
        if spot.stretch.left > 0 {
            self.take_stretch(tiling, taken, spot)
        } else {
            self.take_braid(tiling, spot)
        }
    }

    /// Takes what is left of the loops that it stands in, where nothing is left of the stretch and the braid, and where
    /// the last of it lies in the current tile: then all of it does, since visits rise by tile.
    fn leave_loops(
        &mut self,
        tree: &Tree,
        tiling: &Tiling,
        params: &[i64],
        spot: &mut Spot,
        scout: &mut Scout,
    ) -> Result<(), AllocError>
        requires walk { CanWalk (trees_in tree.now) params.now [] }
        requires rise { RiseByTile (tiling_of tiling.now) (visits (trees_in tree.now) params.now) }
        requires fits { CanTile (tiling_of tiling.now) (visits (trees_in tree.now) params.now) }
        requires spot { IsSpotOf (trees_in tree.now) params.now spot.old }
        requires cut { IsCutTo (trees_in tree.now) params.now (tiling_of tiling.now)
            (to_come (trees_in tree.now) params.now spot.old) self.old }
        requires room { length scout.old.spot.marks.items ≡ deep_all (trees_in tree.now) }
        ensures goes { OnOk result (GoesOn (trees_in tree.now) params.now (tiling_of tiling.now) spot.old spot.new
            self.new) }
        ensures room { length scout.new.spot.marks.items ≡ deep_all (trees_in tree.now) }
    {
        if has_left(&spot.stretch, &spot.braid) {
            return Ok(());
        }
        if !scout.looks(self.tiles.len()) {
            return Ok(());
        }
        let Some(passed) = scout.leave(tree, tiling, params, spot, &self.key) else {
            scout.deepen();
            return Ok(());
        };
        if !self.key.is_of(tiling, &passed.last) {
            scout.deepen();
            return Ok(());
        }
        self.grow(passed.count as usize)?;
        spot.set(&scout.spot);
        scout.found(passed.count as usize);
        Ok(())
    }

    /// All tiles.
    fn end(self) -> Result<Vec<Tile>, AllocError>
        ensures { IfOk result (λ v. v.items ≡ self.tiles.items ++ self.current ∷ []) }
    {
        let mut tiles = self.tiles;
        tiles.push(self.current)?;
        Ok(tiles)
    }
}

/// Takes what is still to come behind the first instance, which is in its tile.
fn take_all(
    alloc: Global,
    tree: &Tree,
    tiling: &Tiling,
    params: &[i64],
    first: &Instance,
    front: &mut Front,
    spot: &mut Spot,
    scout: &mut Scout,
    cut: &mut Cut,
) -> Result<(), AllocError>
    requires walk { CanWalk (trees_in tree.now) params.now [] }
    requires rise { RiseByTile (tiling_of tiling.now) (visits (trees_in tree.now) params.now) }
    requires fits { CanTile (tiling_of tiling.now) (visits (trees_in tree.now) params.now) }
    requires come { HasCome (trees_in tree.now) params.now front.old spot.old }
    requires room { length front.old.steps.items ≡ deep_all (trees_in tree.now) }
    requires scout { length scout.old.spot.marks.items ≡ deep_all (trees_in tree.now) }
    requires key { IsKeyOf (tiling_of tiling.now) (instance_of first.now) cut.old.key }
    requires cut { IsCutTo (trees_in tree.now) params.now (tiling_of tiling.now)
        (to_come (trees_in tree.now) params.now spot.old) cut.old }
    ensures { OnOk result (IsCutTo (trees_in tree.now) params.now (tiling_of tiling.now) [] cut.new) }
{
    cut.take_rest(tiling, first, false, spot)?;
    cut.leave_loops(tree, tiling, params, spot, scout)?;
    let mut asked = has_left(&spot.stretch, &spot.braid);
    while let Some(instance) = front.next(tree, params, spot) {
        cut.take(alloc, tiling, instance, front, spot)?;
        cut.take_rest(tiling, &instance, asked, spot)?;
        cut.leave_loops(tree, tiling, params, spot, scout)?;
        asked = has_left(&spot.stretch, &spot.braid);
    }
    Ok(())
}

/// Cuts what is still to come behind the first instance.
fn cut_rest(
    alloc: Global,
    tree: &Tree,
    tiling: &Tiling,
    params: &[i64],
    first: Instance,
    front: &mut Front,
    spot: &mut Spot,
) -> Result<Cut, AllocError>
    requires walk { CanWalk (trees_in tree.now) params.now [] }
    requires rise { RiseByTile (tiling_of tiling.now) (visits (trees_in tree.now) params.now) }
    requires fits { CanTile (tiling_of tiling.now) (visits (trees_in tree.now) params.now) }
    requires come { HasCome (trees_in tree.now) params.now front.old spot.old }
    requires room { length front.old.steps.items ≡ deep_all (trees_in tree.now) }
    requires first { visits (trees_in tree.now) params.now
        ≡ instance_of first ∷ to_come (trees_in tree.now) params.now spot.old }
    ensures { IfOk result (IsCutTo (trees_in tree.now) params.now (tiling_of tiling.now) []) }
{
    let mut scout = Scout::of(alloc, spot)?;
    let mut cut = Cut::of(alloc, tiling, first, front, spot)?;
    take_all(
        alloc, tree, tiling, params, &first, front, spot, &mut scout, &mut cut,
    )?;
    Ok(cut)
}

/// Tiles with their offsets.
fn listed(alloc: Global, tiles: Vec<Tile>) -> Result<TileList, AllocError>
    ensures { IfOk result (IsListed tiles.items) }
{
    let offsets = offsets_of(alloc, tiles.as_slice())?;
    Ok(TileList { tiles, offsets })
}

/// The tiles of the instances that `tree` visits for `params`, where these rise by tile. It makes no list of the
/// instances: the memory is that of the tiles.
///
/// # Errors
/// `AllocError`, also where a tile has 2^64 instances or more, for whose number a word has no room.
pub fn tiles(
    alloc: Global,
    tree: &Tree,
    tiling: &Tiling,
    params: &[i64],
) -> Result<TileList, AllocError>
    requires walk { CanWalk (trees_in tree.now) params.now [] }
    requires rise { RiseByTile (tiling_of tiling.now) (visits (trees_in tree.now) params.now) }
    requires fits { CanTile (tiling_of tiling.now) (visits (trees_in tree.now) params.now) }
    ensures { IfOk result (λ list. IsTileListOf (trees_in tree.now) params.now (tiling_of tiling.now) list) }
{
    let mut spot = Spot::of(alloc, tree)?;
    let mut front = Front::of(alloc, &spot)?;
    match front.next(tree, params, &mut spot) {
        None => listed(alloc, Vec::new(alloc)),
        Some(first) => {
            let cut = cut_rest(alloc, tree, tiling, params, first, &mut front, &mut spot)?;
            listed(alloc, cut.end()?)
        }
    }
}
