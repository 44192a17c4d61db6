//! A kernel's case, and how data says it.

ghost use Rattle.std.specs.Prelude.{◌≡◌, IfOk, IfErr, None, length, map};
ghost use Rattle.scop_syntax.specs.View.{program_of};
ghost use Rattle.scop_syntax.specs.Execution.{IsShaped, layout};
ghost use Rattle.scop_syntax.specs.Kernel.{IsKernel, narrow_arrays};
ghost use Rattle.scop_syntax.specs.Limits.{WithinLimits};
ghost use Rattle.scop_syntax.specs.Widths.{HoldWidths};
ghost use Rattle.data_lines.specs.Sheets.{IsSheetOf, given_of, sheet_of};
ghost use Rattle.data_lines.specs.Entries.{StopsAs};
ghost use Rattle.data_text.specs.Cases.{Says, case_said, contents_said, data_said, first_miscount, ok_said};

use crate::contents::{contents_of, contents_said};
use crate::extents::{layout_of, layout_said};
use crate::laws::texts_say_what_lines_describe;
use crate::parameters::params_said;
use data_lines::{DataStop, Given, Sheet, read_lines};
use scop_syntax::{Arrays, Extents, Kernel};
use std::alloc::{AllocError, Global};

/// The values of a kernel's parameters, the extents of its arrays for them, and what the arrays hold.
#[derive(Drop)]
pub struct Case {
    pub params: Vec<i64>,
    pub extents: Extents,
    pub arrays: Arrays,
}

/// The case that data says of a kernel, or the first rule that it breaks.
pub fn read_data(alloc: Global, kernel: &Kernel, text: &[u8]) -> Result<Case, DataStop>
    requires { IsKernel (program_of kernel.now) }
    ensures said { IfOk result (λ case. Says text.now (program_of kernel.now) case.params.items case.arrays) }
    ensures extents { IfOk result (λ case. case.extents ≡ layout (program_of kernel.now) case.params.items) }
    ensures limits { IfOk result (λ case. WithinLimits (program_of kernel.now) case.params.items) }
    ensures shape { IfOk result (λ case. IsShaped case.extents case.arrays) }
    ensures widths { IfOk result (λ case. HoldWidths (narrow_arrays (program_of kernel.now)) case.arrays) }
    ensures refused { IfErr result (StopsAs (data_said (program_of kernel.now) text.now)) }
{
    texts_say_what_lines_describe();
    match read_lines(alloc, kernel, text) {
        Ok(sheet) => case_of(alloc, kernel, sheet),
        Err(stop) => Err(stop),
    }
}

/// The case that a sheet says.
fn case_of(alloc: Global, kernel: &Kernel, sheet: Sheet) -> Result<Case, DataStop>
    requires kernel { IsKernel (program_of kernel.now) }
    requires sheet { IsSheetOf (program_of kernel.now) (sheet_of sheet) }
    ensures said { IfOk result (λ case. case_said (program_of kernel.now)
        (sheet_of sheet) ≡ ok_said case.params.items case.arrays) }
    ensures extents { IfOk result (λ case. case.extents ≡ layout (program_of kernel.now) case.params.items) }
    ensures limits { IfOk result (λ case. WithinLimits (program_of kernel.now) case.params.items) }
    ensures shape { IfOk result (λ case. IsShaped case.extents case.arrays) }
    ensures refused { IfErr result (StopsAs (case_said (program_of kernel.now) (sheet_of sheet))) }
{
    let params = params_said(alloc, &sheet.values)?;
    let extents = layout_said(alloc, kernel, &params)?;
    let arrays = contents_said(alloc, kernel, &extents, sheet.rows)?;
    Ok(Case {
        params,
        extents,
        arrays,
    })
}

/// The case of a kernel with these values of its parameters, by what is given of each array.
///
/// # Errors
/// `AllocError` alone.
pub fn case_given(
    alloc: Global,
    kernel: &Kernel,
    params: Vec<i64>,
    rows: Vec<Given>,
) -> Result<Case, AllocError>
    requires limits { WithinLimits (program_of kernel.now) params.items }
    requires rows { length rows.items ≡ length (program_of kernel.now).arrays }
    requires lists { first_miscount None (layout (program_of kernel.now) params.items)
        (map given_of rows.items) ≡ None }
    ensures params { IfOk result (λ case. case.params.items ≡ params.items) }
    ensures extents { IfOk result (λ case. case.extents ≡ layout (program_of kernel.now) params.items) }
    ensures arrays { IfOk result (λ case. case.arrays
        ≡ contents_said (narrow_arrays (program_of kernel.now)) (layout (program_of kernel.now) params.items)
        (map given_of rows.items)) }
    ensures shape { IfOk result (λ case. IsShaped case.extents case.arrays) }
{
    let extents = layout_of(alloc, &kernel.arrays, &params)?;
    let arrays = contents_of(alloc, kernel, &extents, rows)?;
    Ok(Case {
        params,
        extents,
        arrays,
    })
}
