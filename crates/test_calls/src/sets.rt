//! Points of systems, computed by Python's integers. The systems have the dimensions `i` and `j` and the parameter `n`.

use crate::made::system;
use std::alloc::{AllocError, Global};
use wide_math::{Op, Wide};

const TWO_126: i128 = 85070591730234615865843651857942052864;

/// The sum that is too wide.
const WIDE: Wide = Wide {
    op: Op::Add,
    a: TWO_126,
    b: TWO_126,
};

/// An equality, a row, a point, and whether it satisfies both: `j = 2 i` and `i <= n`, and then sums that are too wide,
/// which a failure before them hides.
const POINTS: &[([i128; 4], [i128; 4], [i128; 3], Result<bool, Wide>)] = &[
    ([2, -1, 0, 0], [-1, 0, 1, 0], [0, 0, 0], Ok(true)),
    ([2, -1, 0, 0], [-1, 0, 1, 0], [3, 6, 3], Ok(true)),
    ([2, -1, 0, 0], [-1, 0, 1, 0], [4, 8, 3], Ok(false)),
    ([2, -1, 0, 0], [-1, 0, 1, 0], [3, 5, 3], Ok(false)),
    ([1, 0, 0, 0], [0, TWO_126, TWO_126, 0], [0, 1, 1], Err(WIDE)),
    ([1, 0, 0, 0], [0, TWO_126, TWO_126, 0], [1, 1, 1], Ok(false)),
    ([1, 0, 0, 0], [0, TWO_126, TWO_126, 0], [0, 1, 0], Ok(true)),
];

/// Whether a point satisfies an equality and a row.
fn holds(
    alloc: Global,
    equality: &[i128],
    row: &[i128],
    point: [i128; 3],
) -> Result<Result<bool, Wide>, AllocError> {
    let system = system(alloc, 2, 1, &[equality], &[row])?;
    Ok(system.holds_at(&point))
}

#[test]
fn points(rt: HostRuntime) {
    for case in POINTS {
        let (equality, row, point, want) = *case;
        assert!(rt;
            holds(rt.alloc(), &equality, &row, point) == Ok(want),
            "{row:?} at {point:?}"
        );
    }
}

/// The numbers of equalities and rows of an intersection, and whether the point lies in it.
fn both(alloc: Global, point: [i128; 3]) -> Result<(usize, usize, Result<bool, Wide>), AllocError> {
    let first = system(alloc, 2, 1, &[&[2, -1, 0, 0]], &[&[-1, 0, 1, 0]])?;
    let second = system(alloc, 2, 1, &[&[0, 1, -2, 0]], &[&[1, 0, -1, 0]])?;
    let both = first.and(&second)?;
    let holds = both.holds_at(&point);
    Ok((both.equalities().len(), both.rows().len(), holds))
}

#[test]
fn intersections(rt: HostRuntime) {
    for (point, want) in [([5, 10, 5], true), ([3, 6, 5], false)] {
        assert!(rt;
            both(rt.alloc(), point) == Ok((2, 2, Ok(want))),
            "{point:?}"
        );
    }
}
