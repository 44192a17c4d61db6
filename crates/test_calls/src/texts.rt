//! Long texts, along which nothing recurses, and texts that are cut off.

use crate::commands::{is_told, run_on};
use scop_parser::{ReadKernelError, Refusal, RefusalKind, read_kernel};
use std::alloc::{AllocError, Global};
use std::test::Fail;

/// What stands in front of a body of one statement.
const HEADER: &str = "void k(int64_t n, uint64_t A[n]) {\n";

/// More than a stack holds, if something recursed along them.
const MANY: usize = 200_000;

/// What stands in front of a million braces or conditions.
const FRONT: &str = "void k(uint64_t A[1]) ";

const MILLION: usize = 1_000_000;

const PRODUCT: &str = "void mm(int64_t N, uint64_t A[N][N], uint64_t B[N][N], uint64_t C[N][N]) {
     for (int64_t i = 0; i < N; i++) for (int64_t j = 0; j < N; j++)
       for (int64_t k = 0; k < N; k++) C[i][j] += A[i][k] * B[k][j]; }";

/// A text that has a part so many times behind another, and ends so.
fn repeated(
    alloc: Global,
    front: &str,
    part: &str,
    count: usize,
    end: &str,
) -> Result<String, AllocError> {
    let mut text = String::from_str(alloc, front)?;
    for _ in 0..count {
        text.push_str(part)?;
    }
    text.push_str(end)?;
    Ok(text)
}

/// A body whose statement stores what begins so, goes on so many times with a part, and ends so.
fn long_body(alloc: Global, front: &str, part: &str, end: &str) -> Result<String, AllocError> {
    let mut start = String::from_str(alloc, HEADER)?;
    start.push_str(front)?;
    repeated(alloc, &start, part, MANY, end)
}

/// Why a text is no kernel.
fn refusal_of(alloc: Global, text: &[u8]) -> Option<Refusal> {
    match read_kernel(alloc, text) {
        Err(ReadKernelError::Refused(refusal)) => Some(refusal),
        _ => None,
    }
}

#[test]
fn a_place_has_any_number_of_subscripts(rt: HostRuntime) -> Result<(), Fail> {
    let text = long_body(rt.alloc(), "A[0] = A", "[0]", ";\n}")?;
    assert!(rt;
        matches!(
            refusal_of(rt.alloc(), text.as_bytes()),
            Some(Refusal {
                kind: RefusalKind::Rank,
                line: 2,
                column: 8
            })
        )
    );
    Ok(())
}

#[test]
fn a_call_has_any_number_of_arguments(rt: HostRuntime) -> Result<(), Fail> {
    let text = long_body(rt.alloc(), "A[0] = A(1", ",1", ");\n}")?;
    assert!(rt;
        matches!(
            refusal_of(rt.alloc(), text.as_bytes()),
            Some(Refusal {
                kind: RefusalKind::Call,
                line: 2,
                column: 8
            })
        )
    );
    Ok(())
}

#[test]
fn a_million_open_braces_are_unended(rt: HostRuntime) -> Result<(), Fail> {
    let text = repeated(rt.alloc(), FRONT, "{", MILLION, "")?;
    let answer = run_on(&rt, text.as_bytes())?;
    assert!(rt; is_told(answer, 2, b"", b"refused: Unended 1:1000023\n"));
    Ok(())
}

#[test]
fn a_million_conditions_of_nothing_are_run(rt: HostRuntime) -> Result<(), Fail> {
    let mut front = String::from_str(rt.alloc(), FRONT)?;
    front.push_str("{")?;
    let text = repeated(rt.alloc(), &front, "if (1 >= 0) ", MILLION, "; }")?;
    let answer = run_on(&rt, text.as_bytes())?;
    assert!(rt; is_told(answer, 0, b"A = 0\n", b""));
    Ok(())
}

#[test]
fn a_text_that_is_cut_off_ends_too_soon(rt: HostRuntime) -> Result<(), Fail> {
    for length in 0..PRODUCT.len() {
        let refusal = refusal_of(rt.alloc(), &PRODUCT.as_bytes()[..length]);
        assert!(rt;
            matches!(
                refusal,
                Some(Refusal {
                    kind: RefusalKind::Unended | RefusalKind::Token,
                    line: _,
                    column: _
                })
            )
        );
    }
    assert!(rt; refusal_of(rt.alloc(), PRODUCT.as_bytes()).is_none());
    Ok(())
}
