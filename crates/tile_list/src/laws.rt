//! Laws of tiles, as contracts of functions that do nothing: which instances rise by tile, that they have one list of
//! tiles, what the numbers of waves tell, and how many tiles and waves there are.
ghost use Rattle.std.specs.Prelude.{◌≡◌, ◌+◌, ◌-◌, ◌<◌, ◌≤◌, ℕ, ℤ, List, Some, [], length, slice_get, slice_index_or, suc};
ghost use Rattle.whole_numbers.specs.Lexicographic.{LexLess};
ghost use Rattle.scop_syntax.specs.Tree.{Program};
ghost use Rattle.scop_syntax.specs.Walk.{Instance};
ghost use Rattle.loop_tree.specs.Plans.{AreInOrder};
ghost use Rattle.loop_tree.specs.Tiling.{Tiling, wave_of};
ghost use Rattle.loop_tree.specs.Tree.{Trees};
ghost use Rattle.loop_tree.specs.Walk.{visits};
ghost use Rattle.tile_list.specs.Counting.{HasTiles, HasWaves};
ghost use Rattle.tile_list.specs.Tiles.{AreTiles, AreWaves, HaveOneLength, RiseByTile, start_of};
ghost use Rattle.tile_list.specs.TilesView.{IsTileListOf};
ghost use Rattle.tile_list.specs.declared.list.TileList.{TileList};

/// Instances in a plan's order rise by tile, where their waves have one length, and so have their tiles.
pub fn orders_rise_by_tile()
    ensures { (program : Program) (params : List ℤ) (tiling : Tiling) (xs : List Instance)
        → AreInOrder program params tiling xs → HaveOneLength tiling xs → RiseByTile tiling xs }
{}

/// Instances have one list of tiles.
pub fn tiles_are_unique()
    ensures { (tiling : Tiling) (xs : List Instance) (ps qs : List (List Instance)) → AreTiles tiling xs ps
        → AreTiles tiling xs qs → ps ≡ qs }
{}

/// Of two tiles the numbers of their waves are the same where the waves are, and the number of the lesser wave is less;
/// the numbers never fall.
pub fn numbers_tell_waves()
    ensures same { (tiling : Tiling) (firsts : List Instance) (numbers : List ℕ) → AreWaves tiling firsts numbers
        → (t u m n : ℕ) (x y : Instance) → slice_get firsts t ≡ Some x → slice_get firsts u ≡ Some y
        → slice_get numbers t ≡ Some m → slice_get numbers u ≡ Some n → wave_of tiling x ≡ wave_of tiling y → m ≡ n }
    ensures less { (tiling : Tiling) (firsts : List Instance) (numbers : List ℕ) → AreWaves tiling firsts numbers
        → (t u m n : ℕ) (x y : Instance) → slice_get firsts t ≡ Some x → slice_get firsts u ≡ Some y
        → slice_get numbers t ≡ Some m → slice_get numbers u ≡ Some n
        → LexLess (wave_of tiling x) (wave_of tiling y) → m < n }
    ensures rise { (tiling : Tiling) (firsts : List Instance) (numbers : List ℕ) → AreWaves tiling firsts numbers
        → (t u m n : ℕ) → t ≤ u → slice_get numbers t ≡ Some m → slice_get numbers u ≡ Some n → m ≤ n }
{}

/// Tiles begin one behind another, the first at 0, and the last ends where the instances do; the instances of a tile
/// stand from its start on.
pub fn tiles_stand_one_behind_another()
    ensures next { (parts : List (List Instance)) (t : ℕ) → t < length parts
        → start_of parts (suc t) ≡ start_of parts t + length (slice_index_or parts t []) }
    ensures last { (tiling : Tiling) (xs : List Instance) (parts : List (List Instance)) → AreTiles tiling xs parts
        → start_of parts (length parts) ≡ length xs }
    ensures at { (tiling : Tiling) (xs : List Instance) (parts : List (List Instance)) → AreTiles tiling xs parts
        → (t k : ℕ) → t < length parts → k < length (slice_index_or parts t [])
        → slice_get xs (start_of parts t + k) ≡ slice_get (slice_index_or parts t []) k }
{}

/// The list of the tiles of some visits has as many tiles as hold one of these, and its offsets tell of as many waves as
/// hold such a tile.
pub fn tiles_are_counted()
    ensures tiles { (ts : Trees) (params : List ℤ) (tiling : Tiling) (list : TileList)
        → IsTileListOf ts params tiling list → HasTiles tiling (visits ts params) (length list.tiles.items) }
    ensures waves { (ts : Trees) (params : List ℤ) (tiling : Tiling) (list : TileList)
        → IsTileListOf ts params tiling list → HasWaves tiling (visits ts params) (length list.offsets.items - 1) }
{}
