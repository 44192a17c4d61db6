//! Whole calls over ports in memory: one that nothing disturbs, streams that fail, and an input that is too long.

ghost use Rattle.std.specs.Prelude.{◌≤◌};

use io_ports::{Gate, MemSink, MemSource, OpenGate};
use polypar::{Status, command_in_memory, polypar};
use std::alloc::{AllocError, Global};
use std::sync::Wait;
use std::test::Fail;
use std::thread::Threads;

/// A copy of two cells.
const TWO_CELLS: &str = "void copy(int64_t N, uint64_t A[N], uint64_t B[N]) {
    for (int64_t i = 0; i < N; i++) B[i] = A[i]; }
%%
N = 2
A = 3 4
";

const USAGE: &str =
    "usage: polypar run|schedule|deps|emit|gen|certify|check [--workers 1..64] [--tile 1..1024] [--budget 1..20000] [--report] [--expand] [--sync waves|tiles] [--reduce]\n";

/// The schedule of that kernel, its loops in tiles of one instance, and the kernel with a certificate.
const SCHEDULE: &str = "row 1 band 1 parallel u (0) w 0: S1 (1) + 0\n";

const LOOPS: &str = "#include <stdint.h>
static int64_t pp_floord(int64_t n, int64_t d) { return n < 0 ? -((-n + d - 1) / d) : n / d; }
static int64_t pp_ceild(int64_t n, int64_t d) { return n < 0 ? -((-n) / d) : (n + d - 1) / d; }
static int64_t pp_max(int64_t a, int64_t b) { return a > b ? a : b; }
static int64_t pp_min(int64_t a, int64_t b) { return a < b ? a : b; }
void copy(int64_t N, uint64_t A[N], uint64_t B[N]) {
  #pragma omp parallel for
  for (int64_t pp_1 = 0; pp_1 <= N - 1; pp_1++) {
    for (int64_t pp_2 = pp_1; pp_2 <= pp_1; pp_2++) {
      { /* S1 */ const int64_t i = pp_2; B[i] = A[i]; }
    }
  }
}
";

const CERTIFICATE: &str = "void copy(int64_t N, uint64_t A[N], uint64_t B[N]) {
    for (int64_t i = 0; i < N; i++) B[i] = A[i]; }
%%
row 1 band 1 parallel u (0) w 0: S1 (1) + 0
goal 1
line 1 10:1 7:1
goal 2
line 1 1:1 7:1
goal 3
line 1 1:1 9:1
";

/// How a call ended, and what its sinks took.
#[derive(Drop)]
pub struct Answer {
    pub status: Status,
    pub out: MemSink,
    pub err: MemSink,
}

/// Whether a call ended with this exit status, and its sinks took these bytes.
pub fn is_told(answer: Answer, exit: u8, out: &[u8], err: &[u8]) -> bool {
    let is = answer.status.exit_code() == exit
        && answer.out.taken() == out
        && answer.err.taken() == err;
    drop(answer);
    is
}

/// The words of a command line.
pub fn words_of(alloc: Global, words: &[&str]) -> Result<Vec<String>, AllocError> {
    let mut all = Vec::new(alloc);
    for word in words {
        all.push(String::from_str(alloc, word)?)?;
    }
    Ok(all)
}

/// Calls `polypar` with these words on an input, with this gate: so many bytes go through a call of a port, the output has
/// this room, and these calls of the source, of the output and of the error output fail.
pub fn answer_of<R: Threads + Wait + Sync, G: Gate>(
    rt: &R,
    alloc: Global,
    words: &[&str],
    input: &[u8],
    step: usize,
    room: usize,
    fails: [&[u64]; 3],
    gate: &G,
) -> Result<Answer, AllocError>
    requires { 1 ≤ step }
{
    let words = words_of(alloc, words)?;
    let [source_fails, out_fails, err_fails] = fails;
    let mut source = MemSource::of(alloc, input, step, source_fails)?;
    let mut out = MemSink::of(alloc, room, step, out_fails)?;
    let mut err = MemSink::of(alloc, 4096, step, err_fails)?;
    let status = polypar(rt, alloc, &words, &mut source, &mut out, &mut err, gate);
    Ok(Answer { status, out, err })
}

/// Runs an input over streams in memory that never fail.
pub fn run_on(rt: &HostRuntime, input: &[u8]) -> Result<Answer, AllocError> {
    let words = words_of(rt.alloc(), &["polypar", "run"])?;
    let mut source = MemSource::of(rt.alloc(), input, 4096, &[])?;
    let mut out = MemSink::of(rt.alloc(), 200, 200, &[])?;
    let mut err = MemSink::of(rt.alloc(), 200, 200, &[])?;
    let status = command_in_memory(rt.alloc(), &words, &mut source, &mut out, &mut err);
    Ok(Answer { status, out, err })
}

#[test]
fn prints_the_arrays_of_the_execution(rt: HostRuntime) -> Result<(), Fail> {
    let answer = run_on(&rt, TWO_CELLS.as_bytes())?;
    assert!(rt; is_told(answer, 0, b"A = 3 4\nB = 3 4\n", b""));
    Ok(())
}

/// A call over ports of which calls fail, how it ends, and how many calls of its error output failed.
struct Fault {
    words: &'static [&'static str],
    input: &'static str,
    room: usize,
    fails: [&'static [u64]; 3],
    exit: u8,
    out: &'static str,
    err: &'static str,
    faults: u64,
}

/// The source, the output, flushes of both outputs, of the output behind each kind of text, of the other also behind a
/// line that was told, and such a line itself.
const FAULTS: &[Fault] = &[
    Fault {
        words: &["polypar", "run"],
        input: TWO_CELLS,
        room: 99,
        fails: [&[2], &[], &[]],
        exit: 5,
        out: "",
        err: "read fault\n",
        faults: 0,
    },
    Fault {
        words: &["polypar", "run"],
        input: TWO_CELLS,
        room: 7,
        fails: [&[], &[], &[]],
        exit: 6,
        out: "A = 3 4",
        err: "write fault\n",
        faults: 0,
    },
    Fault {
        words: &["polypar", "run"],
        input: TWO_CELLS,
        room: 99,
        fails: [&[], &[2], &[]],
        exit: 6,
        out: "A = 3 4\nB = 3 4\n",
        err: "write fault\n",
        faults: 0,
    },
    Fault {
        words: &["polypar", "run"],
        input: TWO_CELLS,
        room: 99,
        fails: [&[], &[], &[1]],
        exit: 6,
        out: "A = 3 4\nB = 3 4\n",
        err: "write fault\n",
        faults: 1,
    },
    Fault {
        words: &["polypar"],
        input: TWO_CELLS,
        room: 9,
        fails: [&[], &[], &[2]],
        exit: 1,
        out: "",
        err: USAGE,
        faults: 1,
    },
    Fault {
        words: &["polypar"],
        input: TWO_CELLS,
        room: 9,
        fails: [&[], &[], &[1]],
        exit: 1,
        out: "",
        err: "",
        faults: 1,
    },
    Fault {
        words: &["polypar", "schedule"],
        input: TWO_CELLS,
        room: 99,
        fails: [&[], &[2], &[]],
        exit: 6,
        out: SCHEDULE,
        err: "write fault\n",
        faults: 0,
    },
    Fault {
        words: &["polypar", "emit", "--tile", "1"],
        input: TWO_CELLS,
        room: 999,
        fails: [&[], &[5], &[]],
        exit: 6,
        out: LOOPS,
        err: "write fault\n",
        faults: 0,
    },
    Fault {
        words: &["polypar", "gen", "product", "1", "2"],
        input: "",
        room: 99,
        fails: [&[], &[2], &[]],
        exit: 6,
        out: "gen product seed 1 size 2\ntiles 1 waves 1\ncells 12 sum 2850253945313235602\n",
        err: "write fault\n",
        faults: 0,
    },
    Fault {
        words: &["polypar", "check"],
        input: CERTIFICATE,
        room: 99,
        fails: [&[], &[2], &[]],
        exit: 6,
        out: "yes\n",
        err: "write fault\n",
        faults: 0,
    },
];

/// Whether a call ends as told.
fn is_fault<R: Threads + Wait + Sync>(
    rt: &R,
    alloc: Global,
    fault: &Fault,
) -> Result<bool, AllocError> {
    let answer = answer_of(
        rt,
        alloc,
        fault.words,
        fault.input.as_bytes(),
        200,
        fault.room,
        fault.fails,
        &OpenGate,
    )?;
    let faults = answer.err.faults();
    let is = is_told(
        answer,
        fault.exit,
        fault.out.as_bytes(),
        fault.err.as_bytes(),
    );
    Ok(is && faults == fault.faults)
}

#[test]
fn tells_calls_of_ports_that_fail(rt: HostRuntime) -> Result<(), Fail> {
    for fault in FAULTS {
        assert!(rt; is_fault(&rt, rt.alloc(), fault)?);
    }
    Ok(())
}

/// Whether so many spaces are refused with this line.
fn is_refused<R: Threads + Wait + Sync>(
    rt: &R,
    alloc: Global,
    count: usize,
    line: &str,
) -> Result<bool, AllocError> {
    let spaces = vec![in alloc; b' '; count]?;
    let fails: [&[u64]; 3] = [&[], &[], &[]];
    let words = ["polypar", "run"];
    let answer = answer_of(rt, alloc, &words, &spaces, 65536, 9, fails, &OpenGate)?;
    Ok(is_told(answer, 2, b"", line.as_bytes()))
}

#[test]
fn refuses_an_input_that_is_too_long(rt: HostRuntime) -> Result<(), Fail> {
    let last = is_refused(
        &rt,
        rt.alloc(),
        134_217_728,
        "refused: Unended 1:134217729\n",
    )?;
    assert!(rt; last);
    let past = is_refused(&rt, rt.alloc(), 134_217_729, "refused: TooLong 1:1\n")?;
    assert!(rt; past);
    Ok(())
}
