//! Where the variables of a scan set lie.
ghost use Rattle.std.specs.Prelude.{◌≡◌, ◌+◌, ◌<◌, ◌≤◌, ◌^◌};
ghost use Rattle.std.specs.Option.{ForSome};
ghost use Rattle.loop_tree.specs.TilingView.{items_of};
ghost use Rattle.tile_skew.specs.ScanSets.{front_of, layout_of, width};

use iteration_domains::StatementModel;
use loop_tree::TileItems;

/// The dimensions before the iterators, the iterators, the dimensions of missing ones, which are 0, and the parameters.
#[derive(Clone, Copy)]
pub struct Layout {
    pub front: usize,
    pub turns: usize,
    pub missing: usize,
    pub parameters: usize,
}

impl Layout {
    /// How many variables there are.
    pub fn width(self) -> usize
        requires { width self < 2 ^ 64 }
        ensures { result ≡ width self }
    {
        self.front + (self.turns + (self.missing + self.parameters))
    }
}

/// How many dimensions stand before the iterators: leading scalars, wave sum, tile coordinates, items.
fn front(items: &TileItems) -> Option<usize>
    ensures { ForSome result (λ n. n ≡ front_of (items_of items.now)) }
{
    let leading = items.leading.len();
    let band = items.band.len();
    let count = leading.checked_add(band.checked_add(items.behind.len())?)?;
    leading.checked_add(band.checked_add(count)?.checked_add(1)?)
}

/// The layout of a statement's scan set, where `most` is the greatest number of iterators of a statement; none where
/// no memory holds so many variables.
pub fn layout_of(statement: &StatementModel, items: &TileItems, most: usize) -> Option<Layout>
    requires { statement.now.domain.dimensions ≤ most }
    ensures layout { ForSome result (λ l. l ≡ layout_of most statement.now (items_of items.now)) }
    ensures fits { ForSome result (λ l. width l < 2 ^ 64) }
{
    let front = front(items)?;
    let domain = statement.domain();
    let turns = domain.dimensions();
    let parameters = domain.parameters();
    front.checked_add(most.checked_add(parameters)?)?;
    Some(Layout {
        front,
        turns,
        missing: most - turns,
        parameters,
    })
}
