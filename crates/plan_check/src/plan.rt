//! A plan while it is read: items of all statements at once. Contracts see it by `plan_of` of specs/PlanView.antt as the
//! plain data of specs/Plans.antt.
ghost use Rattle.std.specs.Prelude.{◌≡◌, ◌++◌, ◌∷◌, [], OnOk};
ghost use Rattle.plan_check.specs.PlanView.{item_of, plan_of, row_of};

use affine_forms::{Form, push};
use std::alloc::{AllocError, Global};

/// A row of the first band: of each statement a form over the turns of the loops round it, and whether it is marked
/// parallel.
#[derive(Drop)]
pub struct BandRow {
    pub forms: Vec<Form>,
    pub parallel: bool,
}

/// An item behind the first band: a row's forms, or a number for each statement.
#[derive(Drop)]
pub enum LaterItem {
    Row(Vec<Form>),
    Scalar(Vec<u128>),
}

/// The scalars before the first row, the rows of the first band, the items behind it.
#[derive(Drop)]
pub struct PlanItems {
    pub leading: Vec<Vec<u128>>,
    pub band: Vec<BandRow>,
    pub behind: Vec<LaterItem>,
}

impl PlanItems {
    /// No items.
    pub fn empty(alloc: Global) -> PlanItems
        ensures { plan_of result ≡ record { leading = []; band = []; behind = [] } }
    {
        PlanItems {
            leading: Vec::new(alloc),
            band: Vec::new(alloc),
            behind: Vec::new(alloc),
        }
    }

    /// A scalar more before the first row.
    ///
    /// # Errors
    /// `AllocError` alone.
    pub fn push_leading(&mut self, numbers: Vec<u128>) -> Result<(), AllocError>
        ensures { OnOk result (plan_of self.new
            ≡ record (plan_of self.old) { leading = (plan_of self.old).leading ++ numbers.items ∷ [] }) }
    {
        push(&mut self.leading, numbers)
    }

    /// A row more of the first band.
    ///
    /// # Errors
    /// `AllocError` alone.
    pub fn push_band(&mut self, row: BandRow) -> Result<(), AllocError>
        ensures { OnOk result (plan_of self.new
            ≡ record (plan_of self.old) { band = (plan_of self.old).band ++ row_of row ∷ [] }) }
    {
        push(&mut self.band, row)
    }

    /// An item more behind it.
    ///
    /// # Errors
    /// `AllocError` alone.
    pub fn push_behind(&mut self, item: LaterItem) -> Result<(), AllocError>
        ensures { OnOk result (plan_of self.new
            ≡ record (plan_of self.old) { behind = (plan_of self.old).behind ++ item_of item ∷ [] }) }
    {
        push(&mut self.behind, item)
    }
}
