//! Which tiles lie in which wave.
ghost use Rattle.std.specs.Prelude.{◌≡◌, IfOk};
ghost use Rattle.tile_list.specs.TilesView.{waves_of};
ghost use Rattle.tile_list.specs.steps.Offsets.{offsets_from};

use crate::list::Tile;
use std::alloc::{AllocError, Global};

/// For each wave the number of its first tile, and behind all how many tiles there are.
pub fn offsets_of(alloc: Global, tiles: &[Tile]) -> Result<Vec<usize>, AllocError>
    ensures { IfOk result (λ v. v.items ≡ offsets_from 0 0 (waves_of tiles.now)) }
{
    let mut offsets = Vec::new(alloc);
    for (number, tile) in tiles.iter().enumerate() {
        if offsets.len() <= tile.wave {
            offsets.push(number)?;
        }
    }
    offsets.push(tiles.len())?;
    Ok(offsets)
}
