//! The table of a kernel's statements.
ghost use Rattle.std.specs.Prelude.{◌≡◌, ◌<◌, IfOk, Some, length, slice_get};
ghost use Rattle.whole_numbers.specs.Affine.{Affine, value_of};
ghost use Rattle.scop_syntax.specs.Execution.{layout};
ghost use Rattle.scop_syntax.specs.Limits.{WithinLimits};
ghost use Rattle.scop_syntax.specs.Values.{wrapped};
ghost use Rattle.scop_syntax.specs.View.{program_of};
ghost use Rattle.scop_syntax.specs.StandingView.{standing_of};
ghost use Rattle.tile_table.specs.Tables.{AreForms, IsRow, IsTableBy};
ghost use Rattle.tile_table.specs.steps.Forms.{CanForm};

use crate::code::{Code, compiled};
use crate::forms::form_of;
use crate::loads::{adds_to_place, load_count, touched_at};
use scop_syntax::{
    Aff, Extents, Kernel, Standing, cells_lie_within_22_bits, standings_of,
    statements_are_numbered, wrapped_at,
};
use std::alloc::{AllocError, Global};

/// What is told of a statement over the turns of the loops round it: for each access, the place first, then what it loads,
/// a form of the row-major number of its cell among those of all arrays, modulo 2^64; whether it adds to its place, which
/// it does not load then; and the code of what it adds or stores, in which affine parts are such forms.
#[derive(Drop)]
pub struct Row {
    pub cells: Vec<Aff>,
    pub adds: bool,
    pub code: Code,
}

/// The row of each statement of a kernel, in textual order.
#[derive(Drop)]
pub struct Table {
    pub rows: Vec<Row>,
}

/// The forms of what a statement touches.
fn forms_of(
    alloc: Global,
    statement: &Standing,
    adds: bool,
    params: &[i64],
    extents: &Extents,
) -> Result<Vec<Aff>, AllocError>
    requires { CanForm extents.now params.now (standing_of statement.now) }
    ensures { IfOk result (λ v. AreForms adds extents.now params.now (standing_of statement.now) v.items) }
{
    let count = load_count(statement.body, adds) + 1;
    let mut forms = Vec::with_capacity(alloc, count)?;
    for at in 0..count {
        let access = touched_at(statement.body, adds, at);
        forms.push(form_of(alloc, access, extents, &statement.heads, params)?)?;
    }
    Ok(forms)
}

/// The row of a statement.
fn row_of(
    alloc: Global,
    statement: &Standing,
    adds: bool,
    params: &[i64],
    extents: &Extents,
) -> Result<Row, AllocError>
    requires { CanForm extents.now params.now (standing_of statement.now) }
    ensures { IfOk result (IsRow adds extents.now params.now (standing_of statement.now)) }
{
    let cells = forms_of(alloc, statement, adds, params, extents)?;
    let code = compiled(alloc, statement.body, adds, &statement.heads, params)?;
    Ok(Row { cells, adds, code })
}

impl Row {
    /// How many values its code takes.
    #[inline]
    pub fn reads(&self) -> usize
        ensures { result ≡ self.now.code.reads }
    {
        self.code.reads
    }

    /// The number of the cell that access `access` touches at these turns, among those of all arrays: array after array as
    /// declared, row by row, from 0. Access 0 is the place that is written, what is loaded is numbered from 1.
    #[inline]
    pub fn cell_at(&self, turns: &[i64], access: usize) -> usize
        requires { access < length self.now.cells.items }
        ensures { (form : Affine) → slice_get self.now.cells.items access ≡ Some form
            → result ≡ wrapped (value_of form turns.now) }
    {
        wrapped_at(&self.cells[access], turns) as usize
    }
}

impl Table {
    /// The table of the kernel for these parameters, with the extents of its arrays, of which some are marked: what writes
    /// a cell of such an array adds to it.
    ///
    /// # Errors
    /// `AllocError` alone.
    pub fn of(
        alloc: Global,
        kernel: &Kernel,
        params: &[i64],
        extents: &Extents,
        marked: &[usize],
    ) -> Result<Table, AllocError>
        requires limits { WithinLimits (program_of kernel.now) params.now }
        requires extents { extents.now ≡ layout (program_of kernel.now) params.now }
        ensures { IfOk result (IsTableBy marked.now (program_of kernel.now) params.now) }
    {
        statements_are_numbered();
        cells_lie_within_22_bits();
        let statements = standings_of(alloc, kernel)?;
        let mut rows = Vec::with_capacity(alloc, statements.len())?;
        for statement in &statements {
            let adds = adds_to_place(marked, statement.body);
            rows.push(row_of(alloc, statement, adds, params, extents)?)?;
        }
        Ok(Table { rows })
    }

    /// The row of the statement of this number.
    #[inline]
    pub fn row(&self, statement: usize) -> &Row
        requires { statement < length self.now.rows.items }
        ensures { slice_get self.now.rows.items statement ≡ Some result.now }
    {
        &self.rows[statement]
    }
}
