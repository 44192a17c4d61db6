//! The conflicts of small kernels, and their covering dependences: the whole points of their systems, by `holds_at` over
//! all candidates.

use crate::made::kernel_of;
use conflict_deps::conflicts;
use dataflow::covering;
use iteration_domains::{Dep, Model};
use std::alloc::{AllocError, Global};
use std::test::Fail;

/// Two accesses, the earlier first: statements from 0, turns of the loop round each, accesses.
type Pair = [(usize, usize, usize); 2];

/// Whether the turns and the parameter are a point of a dependence between statements of one loop each.
fn is_point(dep: &Dep, turns: [usize; 2], parameter: usize) -> bool {
    let point = [turns[0] as i128, turns[1] as i128, parameter as i128];
    if dep.system.dimensions() != 2 || dep.system.parameters() != 1 {
        return false;
    }
    dep.system.holds_at(&point) == Ok(true)
}

/// Appends the points of a dependence below so many turns.
fn push_points(
    pairs: &mut Vec<Pair>,
    dep: &Dep,
    turns: usize,
    parameter: usize,
) -> Result<(), AllocError> {
    for first in 0..turns {
        for second in 0..turns {
            if is_point(dep, [first, second], parameter) {
                let source = (dep.source.statement, first, dep.source.access);
                let target = (dep.target.statement, second, dep.target.access);
                pairs.push([source, target])?;
            }
        }
    }
    Ok(())
}

/// Which dependences of a kernel.
#[derive(Clone, Copy)]
enum Which {
    Conflicts,
    Covers,
}

/// The dependences of a kernel; an error where the text is none.
fn dependences(alloc: Global, text: &str, which: Which) -> Result<Vec<Dep>, AllocError> {
    let kernel = kernel_of(alloc, text)?;
    let model = Model::of(alloc, &kernel)?;
    let all = conflicts(alloc, &model)?;
    match which {
        Which::Conflicts => Ok(all),
        Which::Covers => covering(alloc, &model, &all, &[], 20000),
    }
}

/// The points of dependences.
fn points(alloc: Global, deps: &[Dep], parameter: usize) -> Result<Vec<Pair>, AllocError> {
    let mut pairs = Vec::new(alloc);
    for dep in deps {
        push_points(&mut pairs, dep, 6, parameter)?;
    }
    Ok(pairs)
}

/// The second statement reads what the first writes a turn later.
const AHEAD: &str = "void k(int64_t N, uint64_t A[N+1], uint64_t B[N]) {
    for (int64_t i = 0; i < N; i++) { A[i] = A[i] + 1; B[i] = A[i+1]; } }";

/// Writes at even places, reads at odd ones.
const EVEN: &str = "void k(int64_t N, uint64_t A[2*N]) {
    for (int64_t j = 0; j < N; j++) A[2*j] = A[2*j+1]; }";

/// Each turn reads and writes one cell.
const SUM: &str = "void k(int64_t N, uint64_t A[1], uint64_t B[N]) {
    for (int64_t i = 0; i < N; i++) A[0] = A[0] + B[i]; }";

/// Kernels, the value of their parameter, and the pairs of their dependences. Of the sum, whose turns all conflict, each
/// write and each read has the write before it, and each read the write behind it.
const KERNELS: &[(&str, Which, usize, &[Pair])] = &[
    (
        AHEAD,
        Which::Conflicts,
        3,
        &[[(1, 0, 1), (0, 1, 0)], [(1, 1, 1), (0, 2, 0)]],
    ),
    (
        AHEAD,
        Which::Covers,
        3,
        &[[(1, 0, 1), (0, 1, 0)], [(1, 1, 1), (0, 2, 0)]],
    ),
    (EVEN, Which::Conflicts, 4, &[]),
    (EVEN, Which::Covers, 4, &[]),
    (
        SUM,
        Which::Covers,
        3,
        &[
            [(0, 0, 0), (0, 1, 0)],
            [(0, 1, 0), (0, 2, 0)],
            [(0, 0, 0), (0, 1, 1)],
            [(0, 1, 0), (0, 2, 1)],
            [(0, 0, 1), (0, 1, 0)],
            [(0, 1, 1), (0, 2, 0)],
        ],
    ),
];

#[test]
fn dependences_are_these_pairs(rt: HostRuntime) -> Result<(), Fail> {
    for case in KERNELS {
        let (text, which, parameter, pairs) = *case;
        let deps = dependences(rt.alloc(), text, which)?;
        let found = points(rt.alloc(), &deps, parameter)?;
        assert!(rt; found.as_slice() == pairs, "{text}");
    }
    Ok(())
}
