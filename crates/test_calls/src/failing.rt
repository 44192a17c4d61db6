//! Streams of which one call fails, the first, the second and so on until a run is done: how the run ends, and what the
//! output has taken by then.

use crate::commands::{Answer, answer_of};
use io_ports::OpenGate;
use std::alloc::{AllocError, Global};
use std::sync::Wait;
use std::test::Fail;
use std::thread::Threads;

/// The stream of which a call fails.
#[derive(Clone, Copy)]
enum Failing {
    Source,
    Out,
    Err,
}

/// A run, and what it prints where nothing fails.
struct Row {
    words: &'static [&'static str],
    input: &'static str,
    out: &'static str,
    /// How many calls put a line on the error output before anything is written to the output.
    calls_before: u64,
}

const ROWS: &[Row] = &[
    Row {
        words: &["polypar", "run"],
        input: "void copy(int64_t N, uint64_t A[N], uint64_t B[N]) {
     for (int64_t i = 0; i < N; i++) B[i] = A[i]; }
%%
N = 4
A = 1 2 3 4
",
        out: "A = 1 2 3 4\nB = 1 2 3 4\n",
        calls_before: 0,
    },
    Row {
        words: &["polypar", "run", "--budget", "1"],
        input: "void mm(int64_t N, uint64_t A[N][N], uint64_t B[N][N], uint64_t C[N][N]) {
     for (int64_t i = 0; i < N; i++) for (int64_t j = 0; j < N; j++)
       for (int64_t k = 0; k < N; k++) C[i][j] += A[i][k] * B[k][j]; }
%%
N = 2
A = 1 2 3 4
B = 5 6 7 8
",
        out: "A = 1 2 3 4\nB = 5 6 7 8\nC = 19 22 43 50\n",
        calls_before: 2,
    },
];

/// More calls than any of these runs makes of a stream.
const MANY: u64 = 64;

/// How a call ended, and whether the output took nothing, a front of what it is to take, or all of it.
#[derive(Clone, Copy)]
struct End {
    exit: u8,
    is_empty: bool,
    is_front: bool,
    is_whole: bool,
}

/// What is seen of an answer.
fn end_of(answer: Answer, whole: &[u8]) -> End {
    let taken = answer.out.taken();
    let end = End {
        exit: answer.status.exit_code(),
        is_empty: taken.is_empty(),
        is_front: whole.starts_with(taken),
        is_whole: whole == taken,
    };
    drop(answer);
    end
}

/// How a run ends where this call of this stream fails; eight bytes go through a call.
fn end_at<R: Threads + Wait + Sync>(
    rt: &R,
    alloc: Global,
    row: &Row,
    failing: Failing,
    call: u64,
) -> Result<End, AllocError> {
    let one = [call];
    let fails: [&[u64]; 3] = match failing {
        Failing::Source => [&one, &[], &[]],
        Failing::Out => [&[], &one, &[]],
        Failing::Err => [&[], &[], &one],
    };
    let input = row.input.as_bytes();
    let answer = answer_of(rt, alloc, row.words, input, 8, 200, fails, &OpenGate)?;
    Ok(end_of(answer, row.out.as_bytes()))
}

/// Whether a run whose stream fails at this call may end so: with nothing printed where the input fails, with a front
/// where the output does, with nothing where a line could not be told before it, and with all where the error output
/// could not be flushed behind it.
fn may_end(row: &Row, failing: Failing, call: u64, end: End) -> bool {
    match failing {
        Failing::Source => end.exit == 5 && end.is_empty,
        Failing::Out => end.exit == 6 && end.is_front,
        Failing::Err => {
            end.exit == 6
                && if call <= row.calls_before {
                    end.is_empty
                } else {
                    end.is_whole
                }
        }
    }
}

/// The first call that a run does not make of a stream, where it ends as it may at each call before; none elsewhere.
fn calls_made<R: Threads + Wait + Sync>(
    rt: &R,
    alloc: Global,
    row: &Row,
    failing: Failing,
) -> Result<Option<u64>, AllocError> {
    for call in 1..MANY {
        let end = end_at(rt, alloc, row, failing, call)?;
        if end.exit == 0 {
            return Ok(if end.is_whole { Some(call) } else { None });
        }
        if !may_end(row, failing, call, end) {
            return Ok(None);
        }
    }
    Ok(None)
}

#[test]
fn runs_end_at_the_first_call_that_fails(rt: HostRuntime) -> Result<(), Fail> {
    for row in ROWS {
        for failing in [Failing::Source, Failing::Out, Failing::Err] {
            let calls = calls_made(&rt, rt.alloc(), row, failing)?;
            assert!(rt; calls.is_some());
            assert!(rt; calls != Some(1));
        }
    }
    Ok(())
}
