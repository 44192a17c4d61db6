//! Whether a walk has no more places than there may be.
ghost use Rattle.std.specs.Prelude.{◌≡◌, ◌<◌, ◌≤◌, [], IfOk, false, length, true};
ghost use Rattle.loop_tree.specs.Conditions.{CanWalk};
ghost use Rattle.loop_tree.specs.SpotView.{IsSpotOf, to_come};
ghost use Rattle.loop_tree.specs.View.{trees_in};
ghost use Rattle.loop_tree.specs.Walk.{visits};

use loop_tree::{Spot, Tree};
use scop_syntax::MOST_CELLS;
use std::alloc::{AllocError, Global};

/// Whether no more instances are to come than there may be.
fn are_few(source: &Tree, params: &[i64], spot: &mut Spot) -> bool
    requires walk { CanWalk (trees_in source.now) params.now [] }
    requires spot { IsSpotOf (trees_in source.now) params.now spot.old }
    ensures few { result ≡ true → length (to_come (trees_in source.now) params.now spot.old) ≤ 4194304 }
    ensures many { result ≡ false → 4194304 < length (to_come (trees_in source.now) params.now spot.old) }
{
    let mut count = 0;
    while let Some(_) = spot.next(source, params) {
        if count == MOST_CELLS {
            return false;
        }
        count += 1;
    }
    true
}

/// Whether a tree visits no more instances than there may be.
pub(crate) fn visits_few(alloc: Global, source: &Tree, params: &[i64]) -> Result<bool, AllocError>
    requires { CanWalk (trees_in source.now) params.now [] }
    ensures few { IfOk result (λ few. few ≡ true → length (visits (trees_in source.now) params.now) ≤ 4194304) }
    ensures many { IfOk result (λ few. few ≡ false → 4194304 < length (visits (trees_in source.now) params.now)) }
{
    let mut spot = Spot::of(alloc, source)?;
    Ok(are_few(source, params, &mut spot))
}
