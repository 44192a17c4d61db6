//! The generated kernels, each with its case.

ghost use Rattle.std.specs.Prelude.{◌≡◌, ◌≤◌, IfOk, map};
ghost use Rattle.scop_syntax.specs.View.{program_of};
ghost use Rattle.scop_syntax.specs.Execution.{IsInside, IsShaped, layout};
ghost use Rattle.scop_syntax.specs.Limits.{WithinLimits};
ghost use Rattle.data_text.specs.Sheets.{given_of};
ghost use Rattle.kernel_gen.specs.Cases.{contents, given, params, program};

use crate::chain::chain;
use crate::kind::Kind;
use crate::product::product;
use crate::sweep::sweep;
use data_text::{Case, Given, case_given};
use scop_syntax::Kernel;
use std::alloc::{AllocError, Global};

/// The kernel of a kind.
fn kernel_of(alloc: Global, kind: Kind, seed: u64) -> Result<Kernel, AllocError>
    ensures { IfOk result (λ kernel. program_of kernel ≡ program kind seed) }
{
    match kind {
        Kind::Product => product(alloc),
        Kind::Sweep => sweep(alloc),
        Kind::Chain => chain(alloc, seed),
    }
}

/// The values of its parameters.
fn params_of(alloc: Global, kind: Kind, size: u64) -> Result<Vec<i64>, AllocError>
    requires { size ≤ 512 }
    ensures { IfOk result (λ values. values.items ≡ params kind size) }
{
    let size = size as i64;
    match kind {
        Kind::Product => Ok(vec![in alloc; size]?),
        Kind::Sweep => Ok(vec![in alloc; size, size + 2]?),
        Kind::Chain => Ok(vec![in alloc; size]?),
    }
}

/// What is given of its arrays.
fn rows_of(alloc: Global, kind: Kind, seed: u64) -> Result<Vec<Given>, AllocError>
    ensures { IfOk result (λ rows. map given_of rows.items ≡ given kind seed) }
{
    match kind {
        Kind::Product => {
            Ok(vec![in alloc;
                Given::Seeded(seed),
                Given::Seeded(seed.wrapping_add(1)),
                Given::Nothing,
            ]?)
        }
        Kind::Sweep => Ok(vec![in alloc; Given::Seeded(seed)]?),
        Kind::Chain => {
            Ok(vec![in alloc;
                Given::Seeded(seed),
                Given::Seeded(seed),
                Given::Seeded(seed),
                Given::Seeded(seed),
            ]?)
        }
    }
}

/// The kernel of a kind by a seed, and its case of a size: exactly the stated program, parameters and contents, within
/// the limits of the language, with every index inside.
///
/// # Errors
/// `AllocError` alone.
pub fn generated(
    alloc: Global,
    kind: Kind,
    seed: u64,
    size: u64,
) -> Result<(Kernel, Case), AllocError>
    requires low { 1 ≤ size }
    requires high { size ≤ 512 }
    ensures program { IfOk result (λ made. program_of made.0 ≡ program kind seed) }
    ensures params { IfOk result (λ made. made.1.params.items ≡ params kind size) }
    ensures extents { IfOk result (λ made. made.1.extents ≡ layout (program_of made.0) made.1.params.items) }
    ensures contents { IfOk result (λ made. made.1.arrays ≡ contents kind seed size) }
    ensures limits { IfOk result (λ made. WithinLimits (program_of made.0) made.1.params.items) }
    ensures inside { IfOk result (λ made. IsInside (program_of made.0) made.1.params.items) }
    ensures shape { IfOk result (λ made. IsShaped made.1.extents made.1.arrays) }
{
    let kernel = kernel_of(alloc, kind, seed)?;
    let params = params_of(alloc, kind, size)?;
    let rows = rows_of(alloc, kind, seed)?;
    let case = case_given(alloc, &kernel, params, rows)?;
    Ok((kernel, case))
}
