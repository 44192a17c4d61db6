//! Generated kernels: how many cells a run of each leaves, and their sum.

ghost use Rattle.std.specs.Prelude.{◌≤◌};

use kernel_gen::{Kind, cells_in, generated, sum_of};
use scop_meaning::run_plain;
use std::alloc::{AllocError, Global};
use std::test::Fail;

/// A kind, a seed and a size; how many cells are left, and their sum modulo 2^64. 512 is the largest size; a product
/// of that size has 2^27 instances, too many for the plain interpreter.
const CASES: &[(Kind, u64, u64, u64, u64)] = &[
    (Kind::Sweep, 0, 1, 3, 3326683750974675154),
    (Kind::Sweep, 0, 2, 4, 5868043997075344662),
    (Kind::Chain, 5, 3, 28, 6724180078208978910),
    (Kind::Product, 7, 2, 12, 16495402313678052386),
    (Kind::Sweep, 7, 512, 514, 4420815912381555813),
    (Kind::Chain, 7, 512, 2064, 2577920374950505471),
    (Kind::Product, 7, 128, 49152, 15338956401465360384),
];

/// How many cells the run of a generated kernel leaves, and their sum.
fn left(alloc: Global, kind: Kind, seed: u64, size: u64) -> Result<(u64, u64), AllocError>
    requires low { 1 ≤ size }
    requires high { size ≤ 512 }
{
    let (kernel, mut case) = generated(alloc, kind, seed, size)?;
    run_plain(&kernel, &case.params, &mut case.arrays);
    let cells = cells_in(&case);
    let sum = sum_of(&case.arrays);
    Ok((cells, sum))
}

/// Whether the run of a generated kernel leaves so many cells with this sum.
fn is_left(alloc: Global, case: &(Kind, u64, u64, u64, u64)) -> Result<bool, AllocError> {
    let (kind, seed, size, cells, sum) = *case;
    if size < 1 || 512 < size {
        return Ok(false);
    }
    let (found, total) = left(alloc, kind, seed, size)?;
    Ok(found == cells && total == sum)
}

#[test]
fn generated_kernels_leave_these_cells(rt: HostRuntime) -> Result<(), Fail> {
    for case in CASES {
        assert!(rt; is_left(rt.alloc(), case)?);
    }
    Ok(())
}
