//! Calls of the planner with answers that are worked out by hand: components of a graph, kernel vectors of rows, and
//! the last write and the next write of a read at each of its instances.

use crate::made::kernel_of;
use dataflow::{ReadSource, last_writes, next_writes};
use iteration_domains::Model;
use pluto_systems::kernel_vectors;
use quast_trees::{Leaf, Quast};
use std::alloc::{AllocError, Global};
use std::test::Fail;
use stmt_graph::components;

#[test]
fn a_component_comes_behind_those_that_lead_to_it(rt: HostRuntime) -> Result<(), Fail> {
    let numbers = components(rt.alloc(), 2, &[(1, 0)])?;
    assert!(rt; numbers.as_slice() == [1, 0].as_slice());
    let numbers = components(rt.alloc(), 3, &[(0, 1), (1, 0), (2, 0)])?;
    assert!(rt; numbers.as_slice() == [1, 1, 0].as_slice());
    Ok(())
}

#[test]
fn kernel_vectors_complete_a_row(rt: HostRuntime) -> Result<(), Fail> {
    let row = vec![in rt.alloc(); 1, 0]?;
    let rows = vec![in rt.alloc(); row]?;
    let vectors = kernel_vectors(rt.alloc(), 2, &rows)?;
    assert!(rt; vectors.len() == 1);
    assert!(rt; vectors[0].as_slice() == [0, 1].as_slice());
    Ok(())
}

const EVEN: &str = "void even(int64_t N, uint64_t A[2*N], uint64_t B[2*N]) {
    for (int64_t j = 0; j < N; j++) A[2*j] = 7;
    for (int64_t i = 0; i < 2*N; i++) B[i] = A[i]; }";

const PREFIX: &str = "void pre(int64_t N, uint64_t A[N]) {
    for (int64_t i = 1; i < N; i++) A[i] += A[i-1]; }";

const BEHIND: &str = "void behind(int64_t N, uint64_t A[N+1], uint64_t B[N]) {
    for (int64_t i = 0; i < N; i++) { B[i] = A[i]; A[i+1] = 5; } }";

const SHIFT: &str = "void shift(int64_t N, uint64_t A[N]) {
    for (int64_t i = 0; i < N - 1; i++) A[i] = A[i+1]; }";

/// Which writes of the cell of a read.
#[derive(Clone, Copy)]
enum Which {
    Last,
    Next,
}

/// A statement, counted from 0, and a turn of the loop round it.
type Write = (usize, i128);

/// A kernel, a read by its number among all, the value of its parameter, and of each turn of the reader the write that
/// came last, or none where the value is the initial one; or the write that comes next behind it: `even` and `pre`
/// write no cell behind a read of it.
const WRITES: &[(&str, Which, usize, i128, &[Option<Write>])] = &[
    (
        EVEN,
        Which::Last,
        0,
        2,
        &[Some((0, 0)), None, Some((0, 1)), None],
    ),
    (PREFIX, Which::Last, 0, 4, &[None, None, None]),
    (
        PREFIX,
        Which::Last,
        1,
        4,
        &[None, Some((0, 0)), Some((0, 1))],
    ),
    (
        BEHIND,
        Which::Last,
        0,
        3,
        &[None, Some((1, 0)), Some((1, 1))],
    ),
    (EVEN, Which::Next, 0, 2, &[None, None, None, None]),
    (PREFIX, Which::Next, 0, 4, &[None, None, None]),
    (PREFIX, Which::Next, 1, 4, &[None, None, None]),
    (
        SHIFT,
        Which::Next,
        0,
        4,
        &[Some((0, 1)), Some((0, 2)), None],
    ),
];

/// Whether a leaf is that of a write, or of none.
fn is_write(leaf: Leaf, want: Option<Write>) -> bool {
    match leaf {
        Leaf::Initial => want.is_none(),
        Leaf::Found { source, values } => match (source, want) {
            (Some(source), Some((statement, turn))) => {
                source.statement == statement && values.as_slice() == [turn].as_slice()
            }
            _ => false,
        },
    }
}

/// Whether at each turn a source is as told.
fn is_told(quast: &Quast, parameter: i128, writes: &[Option<Write>]) -> bool {
    if quast.parameters() != 2 {
        return false;
    }
    for turn in 0..writes.len() {
        match quast.value_at(&[parameter, turn as i128]) {
            Err(_) => return false,
            Ok(leaf) => {
                if !is_write(leaf, writes[turn]) {
                    return false;
                }
            }
        }
    }
    true
}

/// Whether a read's source among these is as told.
fn is_among(
    sources: &[ReadSource],
    read: usize,
    parameter: i128,
    writes: &[Option<Write>],
) -> bool {
    match sources.get(read) {
        Some(ReadSource::Resolved(quast)) => is_told(quast, parameter, writes),
        _ => false,
    }
}

/// The writes of the cells of a kernel's reads.
fn writes_of(alloc: Global, text: &str, which: Which) -> Result<Vec<ReadSource>, AllocError> {
    let kernel = kernel_of(alloc, text)?;
    let model = Model::of(alloc, &kernel)?;
    match which {
        Which::Last => last_writes(alloc, &model, 20000),
        Which::Next => next_writes(alloc, &model, 20000),
    }
}

#[test]
fn reads_have_these_last_and_next_writes(rt: HostRuntime) -> Result<(), Fail> {
    for case in WRITES {
        let (text, which, read, parameter, writes) = *case;
        let sources = writes_of(rt.alloc(), text, which)?;
        assert!(rt;
            is_among(&sources, read, parameter, writes),
            "{text} read {read}"
        );
    }
    Ok(())
}
