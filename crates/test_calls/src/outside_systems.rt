//! The systems of the index check: how many a kernel has, and the turns at which a subscript of it lies outside.

use crate::made::kernel_of;
use data_text::read_data;
use integer_sets::System;
use iteration_domains::Model;
use pip_solver::is_empty;
use std::alloc::{AllocError, Global};
use std::test::Fail;

/// Each subscript lies inside.
const COPY: &str = "void copy(int64_t N, uint64_t A[N], uint64_t B[N]) {
    for (int64_t i = 0; i < N; i++) B[i] = A[i]; }";

/// The last turn reads past the end.
const AHEAD: &str = "void ahead(int64_t N, uint64_t A[N], uint64_t B[N]) {
    for (int64_t i = 0; i < N; i++) B[i] = A[i+1]; }";

/// The first two turns write below 0, and the second statement reads past the end of the second dimension.
const PLANE: &str = "void plane(int64_t N, uint64_t A[N][2*N], uint64_t B[N]) {
    for (int64_t i = 0; i < N; i++) { B[i-2] = 1; B[i] = A[i][2*i+4]; } }";

/// The data of each.
const DATA: &str = "N = 4\n";

/// Kernels, and of each of their systems, in order, the turns that are its points: by statement, access and dimension
/// below 0 and past the extent.
const KERNELS: &[(&str, &[&[usize]])] = &[
    (COPY, &[&[], &[], &[], &[]]),
    (AHEAD, &[&[], &[], &[], &[3]]),
    (PLANE, &[&[0, 1], &[], &[], &[], &[], &[], &[], &[2, 3]]),
];

/// The systems of a kernel at its data; an error where a text is none.
fn systems_of(alloc: Global, text: &str) -> Result<Vec<System>, AllocError> {
    let kernel = kernel_of(alloc, text)?;
    let model = Model::of(alloc, &kernel)?;
    match read_data(alloc, &kernel, DATA.as_bytes()) {
        Err(_) => Err(AllocError),
        Ok(case) => model.outside_systems(alloc, &kernel, &case.params),
    }
}

/// Whether a turn is a point of a system over one turn.
fn is_point(system: &System, turn: usize) -> bool {
    if system.dimensions() != 1 || system.parameters() != 0 {
        return false;
    }
    system.holds_at(&[turn as i128]) == Ok(true)
}

/// The turns below 8 that are points of a system.
fn points(alloc: Global, system: &System) -> Result<Vec<usize>, AllocError> {
    let mut turns = Vec::new(alloc);
    for turn in 0..8usize {
        if is_point(system, turn) {
            turns.push(turn)?;
        }
    }
    Ok(turns)
}

/// Whether the solver finds that a system has no point, or has one, as told.
fn is_told(alloc: Global, system: &System, want: bool) -> bool {
    match is_empty(alloc, system, 20000) {
        Ok(none) => none == want,
        Err(_) => false,
    }
}

#[test]
fn subscripts_lie_outside_at_these_turns(rt: HostRuntime) -> Result<(), Fail> {
    for case in KERNELS {
        let (text, wanted) = *case;
        let systems = systems_of(rt.alloc(), text)?;
        assert!(rt; systems.len() == wanted.len(), "{text}");
        for (system, turns) in systems.iter().zip(wanted.iter()) {
            let found = points(rt.alloc(), system)?;
            assert!(rt; found.as_slice() == *turns, "{text}: {turns:?}");
            assert!(rt;
                is_told(rt.alloc(), system, turns.is_empty()),
                "{text}: {turns:?}"
            );
        }
    }
    Ok(())
}
