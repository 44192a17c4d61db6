//! What data says so far.

ghost use Rattle.std.specs.Prelude.{◌≡◌, ◌<◌, IfOk, length, map, replicate, slice_set, slice_index_or, Some};
ghost use Rattle.scop_syntax.specs.View.{program_of};
ghost use Rattle.data_lines.specs.Sheets.{IsSheetOf, given_of, empty_sheet, nothing, sheet_of};
ghost use Rattle.data_lines.specs.Entries.{is_given};

use scop_syntax::Kernel;
use std::alloc::{AllocError, Global};

/// What data says of an array.
#[derive(Drop)]
pub enum Given {
    /// Nothing.
    Nothing,
    /// Its cells, and the line that lists them.
    Listed(u64, Vec<u64>),
    /// A seed for its cells.
    Seeded(u64),
}

/// What data says of each parameter and of each array, in the order of declaration.
#[derive(Drop)]
pub struct Sheet {
    pub values: Vec<Option<u64>>,
    pub rows: Vec<Given>,
}

/// Nothing is said of so many arrays.
fn empty_rows(alloc: Global, count: usize) -> Result<Vec<Given>, AllocError>
    ensures { IfOk result (λ rows. map given_of rows.items ≡ replicate count nothing) }
{
    let mut rows = Vec::new(alloc);
    while rows.len() < count {
        rows.push(Given::Nothing)?;
    }
    Ok(rows)
}

impl Sheet {
    /// A sheet on which nothing is said.
    pub fn of(alloc: Global, kernel: &Kernel) -> Result<Sheet, AllocError>
        ensures empty { IfOk result (λ sheet. sheet_of sheet ≡ empty_sheet (program_of kernel.now)) }
        ensures shape { IfOk result (λ sheet. IsSheetOf (program_of kernel.now) (sheet_of sheet)) }
    {
        let values = vec![in alloc; None; kernel.parameters.len()]?;
        let rows = empty_rows(alloc, kernel.arrays.len())?;
        Ok(Sheet { values, rows })
    }

    /// Whether something is said of an array.
    pub(crate) fn is_given(&self, array: usize) -> bool
        requires { array < length (sheet_of self.now).rows }
        ensures { result ≡ is_given (slice_index_or (sheet_of self.now).rows array nothing) }
    {
        !matches!(self.rows[array], Given::Nothing)
    }

    /// Writes the value of a parameter.
    pub(crate) fn set_value(&mut self, parameter: usize, value: u64)
        requires { parameter < length (sheet_of self.old).values }
        ensures { sheet_of self.new ≡ record
            (sheet_of self.old) { values = slice_set (sheet_of self.old).values parameter (Some value) } }
    {
        self.values[parameter] = Some(value);
    }

    /// Writes what is said of an array.
    pub(crate) fn set_row(&mut self, array: usize, given: Given)
        requires { array < length (sheet_of self.old).rows }
        ensures { sheet_of self.new ≡ record
            (sheet_of self.old) { rows = slice_set (sheet_of self.old).rows array (given_of given) } }
    {
        self.rows[array] = given;
    }
}
