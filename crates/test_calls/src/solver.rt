//! Questions whose answers are known from outside.

ghost use Rattle.std.specs.Prelude.{◌≡◌};

use crate::made::{forms, system};
use checked_tableau::Problem;
use pip_solver::{Stop, is_empty, least_point};
use std::alloc::{AllocError, Global};

/// The rows of 2 x = 1.
const HALF: [&[i128]; 2] = [&[2, -1], &[-2, 1]];

/// Whether no whole number is half of 1: true or false, or the moves behind which the budget was spent.
fn is_no_half(alloc: Global, budget: u64) -> Result<Result<bool, u64>, AllocError> {
    let system = system(alloc, 1, 0, &[&[2, -1]], &[])?;
    match is_empty(alloc, &system, budget) {
        Ok(answer) => Ok(Ok(answer)),
        Err(Stop::Spent { moves, .. }) => Ok(Err(moves)),
        Err(_) => Err(AllocError),
    }
}

/// A half is no whole point: that takes a pivot, a cut and a pivot.
#[test]
fn three_moves(rt: HostRuntime) {
    for (budget, want) in [(3, Ok(true)), (2, Err(2)), (0, Err(0))] {
        assert!(rt; is_no_half(rt.alloc(), budget) == Ok(want), "{budget}");
    }
}

/// Whether the least point of rows without parameters is this one, or there is none.
fn is_least(
    alloc: Global,
    unknowns: usize,
    rows: &[&[i128]],
    want: Option<&[i128]>,
) -> Result<bool, AllocError> {
    let problem = Problem {
        unknowns,
        parameters: 0,
        rows: forms(alloc, unknowns, rows)?,
        context: Vec::new(alloc),
    };
    match least_point(alloc, problem, 20000) {
        Err(_) => Err(AllocError),
        Ok(None) => Ok(want.is_none()),
        Ok(Some(point)) => match want {
            None => Ok(false),
            Some(want) => Ok(point.as_slice() == want),
        },
    }
}

/// 2 x = 1 has no point; the least with x >= 3 and y >= x + 2 is (3, 5).
#[test]
fn least_points(rt: HostRuntime) {
    assert!(rt; is_least(rt.alloc(), 1, &HALF, None) == Ok(true));
    let pair: [&[i128]; 2] = [&[1, 0, -3], &[-1, 1, -2]];
    assert!(rt; is_least(rt.alloc(), 2, &pair, Some(&[3, 5])) == Ok(true));
}
