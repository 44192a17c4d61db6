//! Callers of tiles: their list, and the laws without parameters, at tiles of size 1 and in
//! the source's order.
ghost use Rattle.std.specs.Prelude.{◌≡◌, ◌-◌, ℕ, [], ◌∷◌, IfOk, List, Some, length, slice_get};
ghost use Rattle.scop_syntax.specs.Tree.{Program};
ghost use Rattle.scop_syntax.specs.Walk.{Instance};
ghost use Rattle.loop_tree.specs.Conditions.{CanWalk};
ghost use Rattle.loop_tree.specs.Plans.{AreInOrder};
ghost use Rattle.loop_tree.specs.Tiling.{Items, kept, tiled};
ghost use Rattle.loop_tree.specs.TilingView.{tiling_of};
ghost use Rattle.loop_tree.specs.Tree.{Trees};
ghost use Rattle.loop_tree.specs.View.{trees_in};
ghost use Rattle.loop_tree.specs.Walk.{visits};
ghost use Rattle.tile_list.specs.Counting.{HasTiles, HasWaves};
ghost use Rattle.tile_list.specs.Tiles.{AreTiles, AreWaves, CanTile, HaveOneLength, RiseByTile, start_of};
ghost use Rattle.tile_list.specs.TilesView.{IsTileListOf};
ghost use Rattle.tile_list.specs.declared.list.TileList.{TileList as AnyList};

use loop_tree::{Tiling, Tree};
use std::alloc::{AllocError, Global};
use tile_list::{
    TileList, numbers_tell_waves, orders_rise_by_tile, tiles_are_counted, tiles_are_unique,
    tiles_stand_one_behind_another,
};

/// The list of tiles of a tree without parameters, by the clause of `tiles`.
pub fn tiles_without_parameters(
    alloc: Global,
    tree: &Tree,
    tiling: &Tiling,
) -> Result<TileList, AllocError>
    requires walk { CanWalk (trees_in tree.now) [] [] }
    requires rise { RiseByTile (tiling_of tiling.now) (visits (trees_in tree.now) []) }
    requires fits { CanTile (tiling_of tiling.now) (visits (trees_in tree.now) []) }
    ensures { IfOk result (λ list. IsTileListOf (trees_in tree.now) [] (tiling_of tiling.now) list) }
{
    tile_list::tiles(alloc, tree, tiling, &[])
}

/// No tile lies in a wave, by the clause of `TileList::waves`.
pub fn waves_of_tiles(list: &TileList) -> usize
    ensures { list.now.offsets.items ≡ 0 ∷ [] → result ≡ 0 }
{
    list.waves()
}

/// Instances in the order of tiles of size 1 rise by tile, by the clause of `orders_rise_by_tile`.
pub fn instances_rise_by_tiles_of_size_1()
    ensures { (program : Program) (statements : List Items) (xs : List Instance)
        → AreInOrder program [] (tiled 1 statements) xs → HaveOneLength (tiled 1 statements) xs
        → RiseByTile (tiled 1 statements) xs }
{
    orders_rise_by_tile();
}

/// Instances have one list of tiles of size 1, by the clause of `tiles_are_unique`.
pub fn tiles_of_size_1_are_unique()
    ensures { (statements : List Items) (xs : List Instance) (ps qs : List (List Instance))
        → AreTiles (tiled 1 statements) xs ps → AreTiles (tiled 1 statements) xs qs → ps ≡ qs }
{
    tiles_are_unique();
}

/// All tiles of the source's order lie in one wave, by `same` of `numbers_tell_waves`.
pub fn tiles_of_the_source_lie_in_one_wave()
    ensures { (firsts : List Instance) (numbers : List ℕ) → AreWaves kept firsts numbers → (t u m n : ℕ)
        (x y : Instance) → slice_get firsts t ≡ Some x → slice_get firsts u ≡ Some y → slice_get numbers t ≡ Some m
        → slice_get numbers u ≡ Some n → m ≡ n }
{
    numbers_tell_waves();
}

/// The second of two tiles ends with three instances, by `next` of `tiles_stand_one_behind_another`; where the tiles
/// are those of some instances, these are three, by `last`, and the second is the first of the second tile, by `at`.
pub fn two_tiles_of_three_instances()
    ensures next { (x y z : Instance) → start_of ((x ∷ []) ∷ (y ∷ z ∷ []) ∷ []) 2 ≡ 3 }
    ensures last { (statements : List Items) (xs : List Instance) (x y z : Instance)
        → AreTiles (tiled 1 statements) xs ((x ∷ []) ∷ (y ∷ z ∷ []) ∷ []) → length xs ≡ 3 }
    ensures at { (statements : List Items) (xs : List Instance) (x y z : Instance)
        → AreTiles (tiled 1 statements) xs ((x ∷ []) ∷ (y ∷ z ∷ []) ∷ []) → slice_get xs 1 ≡ Some y }
{
    tiles_stand_one_behind_another();
}

/// A list of tiles of size 1 of visits without parameters has as many tiles as hold one, by `tiles` of
/// `tiles_are_counted`, and tells of as many waves, by `waves`.
pub fn tiles_of_size_1_are_counted()
    ensures tiles { (ts : Trees) (statements : List Items) (list : AnyList)
        → IsTileListOf ts [] (tiled 1 statements) list
        → HasTiles (tiled 1 statements) (visits ts []) (length list.tiles.items) }
    ensures waves { (ts : Trees) (statements : List Items) (list : AnyList)
        → IsTileListOf ts [] (tiled 1 statements) list
        → HasWaves (tiled 1 statements) (visits ts []) (length list.offsets.items - 1) }
{
    tiles_are_counted();
}
