//! Where a tile begins in a tree's visits, so that a spot can be put behind its first instance.
ghost use Rattle.std.specs.Prelude.{◌≡◌, ◌↔◌, ◌++◌, [], IfOk, IsNone, length};
ghost use Rattle.loop_tree.specs.Conditions.{CanWalk};
ghost use Rattle.loop_tree.specs.Spot.{deep_all};
ghost use Rattle.loop_tree.specs.SpotView.{IsSpotOf, found_in, to_come};
ghost use Rattle.loop_tree.specs.View.{trees_in};
ghost use Rattle.tile_list.specs.TilesView.{IsPlaceOf, to_come_at};
ghost use Rattle.tile_list.specs.steps.Placing.{HasCome, IsPlaceBehind};

use loop_tree::{Spot, Step, Tree};
use scop_syntax::Instance;
use std::alloc::{AllocError, Global};

/// The steps of the place in front of a tile's first instance, or the spot behind that one, where no steps say it.
#[derive(Drop)]
pub enum Place {
    Before(Vec<Step>),
    Behind(Box<Spot>),
}

/// Where a walk stood in front of the instance that it found last, where steps say it.
#[derive(Drop)]
pub struct Front {
    pub steps: Vec<Step>,
    pub known: bool,
}

impl Place {
    /// Puts a spot of the tree behind the first instance. It takes no memory.
    pub fn enter(&self, tree: &Tree, params: &[i64], spot: &mut Spot)
        requires walk { CanWalk (trees_in tree.now) params.now [] }
        requires room { length spot.old.marks.items ≡ deep_all (trees_in tree.now) }
        requires place { IsPlaceOf (trees_in tree.now) params.now self.now }
        ensures spot { IsSpotOf (trees_in tree.now) params.now spot.new }
        ensures rest { to_come (trees_in tree.now) params.now spot.new
            ≡ to_come_at (trees_in tree.now) params.now self.now }
    {
        match self {
            Place::Before(steps) => {
                spot.put(tree, params, steps);
                spot.next(tree, params);
            }
            Place::Behind(behind) => spot.set(behind),
        }
    }
}

impl Front {
    /// With room for the place of a spot.
    pub fn of(alloc: Global, spot: &Spot) -> Result<Front, AllocError>
        ensures { IfOk result (λ f. length f.steps.items ≡ length spot.now.marks.items) }
    {
        let step = Step {
            place: 0,
            begun: false,
            value: 0,
        };
        let steps = Vec::from_elem(alloc, step, spot.marks.len())?;
        Ok(Front {
            steps,
            known: false,
        })
    }

    /// The next instance of a spot, in front of which it keeps the spot's place.
    #[inline]
    pub fn next(&mut self, tree: &Tree, params: &[i64], spot: &mut Spot) -> Option<Instance>
        requires walk { CanWalk (trees_in tree.now) params.now [] }
        requires spot { IsSpotOf (trees_in tree.now) params.now spot.old }
        requires room { length self.old.steps.items ≡ deep_all (trees_in tree.now) }
        ensures rest { to_come (trees_in tree.now) params.now spot.old
            ≡ found_in result ++ to_come (trees_in tree.now) params.now spot.new }
        ensures none { IsNone result ↔ (to_come (trees_in tree.now) params.now spot.old ≡ []) }
        ensures come { HasCome (trees_in tree.now) params.now self.new spot.new }
        ensures room { length self.new.steps.items ≡ deep_all (trees_in tree.now) }
    {
        self.known = spot.keep(self.steps.as_mut_slice());
        spot.next(tree, params)
    }

    /// The place of a tile that begins with the instance which was found last.
    pub fn place(&self, alloc: Global, spot: &Spot) -> Result<Place, AllocError>
        ensures { IfOk result (IsPlaceBehind self.now spot.now) }
    {
        if self.known {
            let steps = Vec::from_slice(alloc, self.steps.as_slice())?;
            return Ok(Place::Before(steps));
        }
        let spot = spot.copy(alloc)?;
        Ok(Place::Behind(Box::new(alloc, spot)?))
    }
}
