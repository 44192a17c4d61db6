//! Whole calls of `run` and `gen` with any number of workers: what they print does not hang on it, two of them run at
//! once, and each tile is done once.

ghost use Rattle.std.specs.Prelude.{◌≤◌};

use crate::commands::{Answer, answer_of, is_told};
use io_ports::{Gate, OpenGate};
use kernel_gen::{Kind, cells_in, generated, sum_of, summary};
use scop_meaning::run_plain;
use std::alloc::{AllocError, Global};
use std::sync::Wait;
use std::sync::atomic::{AtomicBool, AtomicU64, Ordering};
use std::test::Fail;
use std::thread::Threads;

/// How many workers run each case.
const WORKERS: &[&str] = &["1", "2", "64"];

/// How many run each whose sums may be made in any order.
const SUM_WORKERS: &[&str] = &["1", "4"];

/// How many run each in which every instance is to have a copy of its own.
const COPY_WORKERS: &[&str] = &["1", "3"];

const PREFIX: &str = "void pre(int64_t N, uint64_t A[N]) {
    for (int64_t i = 1; i < N; i++) A[i] += A[i-1]; }
%%
";

const SWEEP: &str = "void seidel(int64_t T, int64_t N, uint64_t A[N]) {
    for (int64_t t = 0; t < T; t++) for (int64_t i = 1; i < N - 1; i++)
        A[i] = A[i-1] + A[i] + A[i+1]; }
%%
T = 2
N = 5
A = 1 1 1 1 1
";

const TWO: &str = "void two(int64_t N, uint64_t A[N+1], uint64_t B[N]) {
    for (int64_t i = 0; i < N; i++) { A[i] = A[i] + 1; B[i] = A[i+1]; } }
%%
N = 3
A = 1 2 3 4
";

const PRODUCT: &str = "void mm(int64_t N, uint64_t A[N][N], uint64_t B[N][N], uint64_t C[N][N]) {
    for (int64_t i = 0; i < N; i++) for (int64_t j = 0; j < N; j++)
        for (int64_t k = 0; k < N; k++) C[i][j] += A[i][k] * B[k][j]; }
%%
N = 2
A = 1 2 3 4
B = 5 6 7 8
";

const SUM: &str = "void s(int64_t N, uint64_t A[N], uint64_t X[1])
{ for (int64_t i = 0; i < N; i++) X[0] += A[i]; }
%%
N = 4
A = 1 2 3 18446744073709551615
";

const DIFFERENCE: &str = "void d(int64_t N, uint64_t A[N], uint64_t X[1])
{ for (int64_t i = 0; i < N; i++) X[0] -= A[i]; }
%%
N = 4
A = 1 2 3 18446744073709551615
";

const TWO_SUMS: &str = "void y(int64_t N, uint64_t A[N], uint64_t X[1], uint64_t Y[1])
{ for (int64_t i = 0; i < N; i++) { Y[0] += A[i]; X[0] += Y[0]; } }
%%
N = 3
A = 1 2 3
";

const THROUGH_ONE_CELL: &str = "void t(int64_t N, uint64_t A[N], uint64_t X[1])
{ for (int64_t i = 0; i < N; i++) { X[0] = A[i] * 2; A[i] = X[0] + 1; } }
%%
N = 3
A = 1 2 3
";

const EVEN: &str = "void even(int64_t N, uint64_t A[2*N], uint64_t B[2*N]) {
    for (int64_t j = 0; j < N; j++) A[2*j] = 7;
    for (int64_t i = 0; i < 2*N; i++) B[i] = A[i]; }
%%
N = 2
A = 1 2 3 4
";

const SUMS: &str = "void s(int64_t N, uint64_t A[1], uint64_t X[1])
{ for (int64_t i = 0; i < N; i++) X[0] += A[0] + i; }
%%
N = 65536
A = 7
";

const COPY_OF_FOUR: &str = "void copy(int64_t N, uint64_t A[N], uint64_t B[N]) {
    for (int64_t i = 0; i < N; i++) B[i] = A[i]; }
%%
N = 4
A = 1 2 3 4
";

const WRAP: &str = "void h(int64_t N, uint32_t A[N], uint64_t B[N]) {
    for (int64_t i = 0; i < N; i++) B[i] = A[i] + 0xFFFFFFFF; }
%%
";

const CAST: &str = "void h(int64_t N, uint32_t A[N], uint64_t B[N]) {
    for (int64_t i = 0; i < N; i++) B[i] = (uint64_t)A[i] + 0xFFFFFFFF; }
%%
";

const CAST_32: &str = "void k(int64_t N, uint32_t A[N]) {
    for (int64_t i = 0; i < N; i++) A[i] = A[i] + (uint32_t)i; }
%%
";

const LINE_ROW: &str = "row 1 band 1 parallel u (0) w 0: S1 (1) + 0\n";

const PREFIX_ROW: &str = "row 1 band 1 carries u (0) w 1: S1 (1) + 0\n";

const SWEEP_ROWS: &str = "row 1 band 1 carries u (0 0) w 1: S1 (1 0) + 0
row 2 band 1 carries u (0 0) w 1: S1 (1 1) + 0
";

const TWO_ROWS: &str = "row 1 band 1 parallel u (0) w 0: S1 (1) + 0, S2 (1) + 1
scalar 2: S1 1, S2 0
";

const PRODUCT_ROWS: &str = "row 1 band 1 parallel u (0) w 0: S1 (1 0 0) + 0
row 2 band 1 parallel u (0) w 0: S1 (0 1 0) + 0
row 3 band 1 parallel u (0) w 0: S1 (0 0 1) + 0
";

const SIDE_BY_SIDE_ROW: &str = "row 1 band 1 parallel u (0) w 0: S1 (1) + 0, S2 (1) + 0\n";

const IN_TURN_ROWS: &str = "row 1 band 1 parallel u (0) w 0: S1 (1) + 0, S2 (1) + 0
scalar 2: S1 0, S2 1
";

const TWO_SUMS_ROWS: &str = "row 1 band 1 carries u (0) w 1: S1 (1) + 0, S2 (1) + 0
scalar 2: S1 0, S2 1
";

/// A run whose report is asked for, and what it prints.
struct Reported {
    kernel: &'static str,
    data: &'static str,
    tile: &'static str,
    budget: &'static str,
    arrays: &'static str,
    /// What stands before the numbers of tiles, waves and workers: the schedule, or the line of a kept order.
    plan: &'static str,
    counts: &'static str,
    /// What stands behind them where tiles are released one by one: how many pairs of tiles there are.
    edges: &'static str,
}

const REPORTED: &[Reported] = &[
    Reported {
        kernel: PREFIX,
        data: "N = 5\nA = 1 1 1 1 1\n",
        tile: "1",
        budget: "20000",
        arrays: "A = 1 2 3 4 5\n",
        plan: PREFIX_ROW,
        counts: "tiles 4 waves 4",
        edges: "edges 3\n",
    },
    Reported {
        kernel: PREFIX,
        data: "N = 1\nA = 9\n",
        tile: "32",
        budget: "20000",
        arrays: "A = 9\n",
        plan: PREFIX_ROW,
        counts: "tiles 0 waves 0",
        edges: "edges 0\n",
    },
    Reported {
        kernel: SWEEP,
        data: "",
        tile: "1",
        budget: "20000",
        arrays: "A = 1 9 21 29 1\n",
        plan: SWEEP_ROWS,
        counts: "tiles 6 waves 5",
        edges: "edges 9\n",
    },
    Reported {
        kernel: SWEEP,
        data: "",
        tile: "2",
        budget: "20000",
        arrays: "A = 1 9 21 29 1\n",
        plan: SWEEP_ROWS,
        counts: "tiles 2 waves 2",
        edges: "edges 1\n",
    },
    Reported {
        kernel: TWO,
        data: "",
        tile: "1",
        budget: "20000",
        arrays: "A = 2 3 4 4\nB = 2 3 4\n",
        plan: TWO_ROWS,
        counts: "tiles 4 waves 1",
        edges: "edges 0\n",
    },
    Reported {
        kernel: PRODUCT,
        data: "",
        tile: "32",
        budget: "1",
        arrays: "A = 1 2 3 4\nB = 5 6 7 8\nC = 19 22 43 50\n",
        plan: "kept: spent 1\n",
        counts: "tiles 1 waves 1",
        edges: "edges 0\n",
    },
    Reported {
        kernel: WRAP,
        data: "N = 2\nA = 1 2\n",
        tile: "1",
        budget: "20000",
        arrays: "A = 1 2\nB = 0 1\n",
        plan: LINE_ROW,
        counts: "tiles 2 waves 1",
        edges: "edges 0\n",
    },
    Reported {
        kernel: CAST,
        data: "N = 2\nA = 1 2\n",
        tile: "1",
        budget: "20000",
        arrays: "A = 1 2\nB = 4294967296 4294967297\n",
        plan: LINE_ROW,
        counts: "tiles 2 waves 1",
        edges: "edges 0\n",
    },
    Reported {
        kernel: CAST_32,
        data: "N = 2\nA = 4294967295 4294967295\n",
        tile: "1",
        budget: "20000",
        arrays: "A = 4294967295 0\n",
        plan: LINE_ROW,
        counts: "tiles 2 waves 1",
        edges: "edges 0\n",
    },
];

/// A run where sums may be made in any order, of a kernel with an array that it only adds to, and what it prints.
struct Reduced {
    kernel: &'static str,
    tile: &'static str,
    budget: &'static str,
    arrays: &'static str,
    /// What stands before the numbers of tiles, waves and workers: the schedule, or the line of a kept order.
    plan: &'static str,
    counts: &'static str,
}

const REDUCED: &[Reduced] = &[
    Reduced {
        kernel: PRODUCT,
        tile: "1",
        budget: "20000",
        arrays: "A = 1 2 3 4\nB = 5 6 7 8\nC = 19 22 43 50\n",
        plan: PRODUCT_ROWS,
        counts: "tiles 8 waves 1",
    },
    Reduced {
        kernel: SUM,
        tile: "1",
        budget: "20000",
        arrays: "A = 1 2 3 18446744073709551615\nX = 5\n",
        plan: LINE_ROW,
        counts: "tiles 4 waves 1",
    },
    Reduced {
        kernel: DIFFERENCE,
        tile: "1",
        budget: "20000",
        arrays: "A = 1 2 3 18446744073709551615\nX = 18446744073709551611\n",
        plan: LINE_ROW,
        counts: "tiles 4 waves 1",
    },
    Reduced {
        kernel: TWO_SUMS,
        tile: "1",
        budget: "20000",
        arrays: "A = 1 2 3\nX = 10\nY = 6\n",
        plan: TWO_SUMS_ROWS,
        counts: "tiles 3 waves 3",
    },
    Reduced {
        kernel: TWO_SUMS,
        tile: "32",
        budget: "1",
        arrays: "A = 1 2 3\nX = 10\nY = 6\n",
        plan: "kept: spent 1\n",
        counts: "tiles 1 waves 1",
    },
    Reduced {
        kernel: SUMS,
        tile: "32",
        budget: "20000",
        arrays: "A = 7\nX = 2147909632\n",
        plan: LINE_ROW,
        counts: "tiles 2048 waves 1",
    },
];

/// A run in which every instance is to have a copy of its own, and what it prints.
struct Expanded {
    kernel: &'static str,
    budget: &'static str,
    arrays: &'static str,
    /// Why none has, and the order is kept; or the schedule.
    plan: &'static str,
    counts: &'static str,
    edges: &'static str,
}

const EXPANDED: &[Expanded] = &[
    Expanded {
        kernel: THROUGH_ONE_CELL,
        budget: "20000",
        arrays: "A = 3 5 7\nX = 6\n",
        plan: IN_TURN_ROWS,
        counts: "tiles 3 waves 1",
        edges: "edges 0\n",
    },
    Expanded {
        kernel: TWO,
        budget: "20000",
        arrays: "A = 2 3 4 4\nB = 2 3 4\n",
        plan: SIDE_BY_SIDE_ROW,
        counts: "tiles 3 waves 1",
        edges: "edges 0\n",
    },
    Expanded {
        kernel: EVEN,
        budget: "1",
        arrays: "A = 7 2 7 4\nB = 7 2 7 4\n",
        plan: "unexpanded: spent 1\nkept: spent 1\n",
        counts: "tiles 1 waves 1",
        edges: "edges 0\n",
    },
    Expanded {
        kernel: SWEEP,
        budget: "20000",
        arrays: "A = 1 9 21 29 1\n",
        plan: SWEEP_ROWS,
        counts: "tiles 6 waves 5",
        edges: "edges 9\n",
    },
];

/// Calls `polypar` with these words on an input, with this gate, over ports that never fail.
fn call_on<R: Threads + Wait + Sync, G: Gate>(
    rt: &R,
    alloc: Global,
    words: &[&str],
    input: &[u8],
    gate: &G,
) -> Result<Answer, AllocError> {
    let fails: [&[u64]; 3] = [&[], &[], &[]];
    answer_of(rt, alloc, words, input, 4096, 4096, fails, gate)
}

/// The lines of a report.
fn report_of(
    alloc: Global,
    front: &str,
    numbers: &str,
    workers: &str,
) -> Result<String, AllocError> {
    let mut report = String::from_str(alloc, front)?;
    report.push_str(numbers)?;
    report.push_str(" workers ")?;
    report.push_str(workers)?;
    report.push_str("\n")?;
    Ok(report)
}

/// Whether a run by so many workers, whose tiles begin so, prints what is told of it.
fn is_reported<R: Threads + Wait + Sync>(
    rt: &R,
    alloc: Global,
    run: &Reported,
    workers: &'static str,
    sync: &'static str,
) -> Result<bool, AllocError> {
    let mut input = String::from_str(alloc, run.kernel)?;
    input.push_str(run.data)?;
    let words = [
        "polypar",
        "run",
        "--report",
        "--tile",
        run.tile,
        "--budget",
        run.budget,
        "--workers",
        workers,
        "--sync",
        sync,
    ];
    let answer = call_on(rt, alloc, &words, input.as_bytes(), &OpenGate)?;
    let mut report = report_of(alloc, run.plan, run.counts, workers)?;
    if sync == "tiles" {
        report.push_str(run.edges)?;
    }
    Ok(is_told(answer, 0, run.arrays.as_bytes(), report.as_bytes()))
}

#[test]
fn reports_tell_schedule_tiles_waves_and_pairs(rt: HostRuntime) -> Result<(), Fail> {
    for run in REPORTED {
        for workers in WORKERS {
            assert!(rt; is_reported(&rt, rt.alloc(), run, workers, "waves")?);
            assert!(rt; is_reported(&rt, rt.alloc(), run, workers, "tiles")?);
        }
    }
    Ok(())
}

/// What `err` gains of such a run: that tiles begin by waves, where it is asked for otherwise, and the report.
fn reduced_report(
    alloc: Global,
    run: &Reduced,
    workers: &str,
    sync: &str,
) -> Result<String, AllocError> {
    let plan = report_of(alloc, run.plan, run.counts, workers)?;
    if sync == "waves" {
        return Ok(plan);
    }
    let mut report = String::from_str(alloc, "waves: reduce\n")?;
    report.push_str(plan.as_str())?;
    Ok(report)
}

/// Whether such a run by so many workers, whose tiles are to begin so, prints what is told of it.
fn is_reduced<R: Threads + Wait + Sync>(
    rt: &R,
    alloc: Global,
    run: &Reduced,
    workers: &'static str,
    sync: &'static str,
) -> Result<bool, AllocError> {
    let words = [
        "polypar",
        "run",
        "--report",
        "--tile",
        run.tile,
        "--budget",
        run.budget,
        "--workers",
        workers,
        "--sync",
        sync,
        "--reduce",
    ];
    let report = reduced_report(alloc, run, workers, sync)?;
    let answer = call_on(rt, alloc, &words, run.kernel.as_bytes(), &OpenGate)?;
    Ok(is_told(answer, 0, run.arrays.as_bytes(), report.as_bytes()))
}

#[test]
fn sums_in_any_order_leave_the_same_arrays(rt: HostRuntime) -> Result<(), Fail> {
    for run in REDUCED {
        for workers in SUM_WORKERS {
            assert!(rt; is_reduced(&rt, rt.alloc(), run, workers, "waves")?);
            assert!(rt; is_reduced(&rt, rt.alloc(), run, workers, "tiles")?);
        }
    }
    Ok(())
}

/// Whether a run with copies by so many workers, whose tiles begin so, prints what is told of it.
fn is_expanded<R: Threads + Wait + Sync>(
    rt: &R,
    alloc: Global,
    run: &Expanded,
    workers: &'static str,
    sync: &'static str,
) -> Result<bool, AllocError> {
    let words = [
        "polypar",
        "run",
        "--report",
        "--tile",
        "1",
        "--budget",
        run.budget,
        "--workers",
        workers,
        "--sync",
        sync,
        "--expand",
    ];
    let answer = call_on(rt, alloc, &words, run.kernel.as_bytes(), &OpenGate)?;
    let mut report = report_of(alloc, run.plan, run.counts, workers)?;
    if sync == "tiles" {
        report.push_str(run.edges)?;
    }
    Ok(is_told(answer, 0, run.arrays.as_bytes(), report.as_bytes()))
}

#[test]
fn copies_leave_the_same_arrays(rt: HostRuntime) -> Result<(), Fail> {
    for run in EXPANDED {
        for workers in COPY_WORKERS {
            assert!(rt; is_expanded(&rt, rt.alloc(), run, workers, "waves")?);
            assert!(rt; is_expanded(&rt, rt.alloc(), run, workers, "tiles")?);
        }
    }
    Ok(())
}

/// Which tile is left before a held one goes on.
#[derive(Clone, Copy, PartialEq)]
enum Until {
    Another,
    Left(u64),
}

/// A gate that holds a tile until another one is left, for at most 1,000,000 turns of 1,000 looks each.
#[derive(Drop)]
struct Holds {
    held: u64,
    until: Until,
    other_left: AtomicBool,
    failed: AtomicBool,
    entered: [AtomicU64; 6],
    left: [AtomicU64; 6],
    /// The tile that was left first; 9 before one is.
    first_left: AtomicU64,
}

/// Six counts of nothing.
fn zeros() -> [AtomicU64; 6] {
    [
        AtomicU64::new(0),
        AtomicU64::new(0),
        AtomicU64::new(0),
        AtomicU64::new(0),
        AtomicU64::new(0),
        AtomicU64::new(0),
    ]
}

impl Holds {
    fn of(held: u64, until: Until) -> Holds {
        Holds {
            held,
            until,
            other_left: AtomicBool::new(false),
            failed: AtomicBool::new(false),
            entered: zeros(),
            left: zeros(),
            first_left: AtomicU64::new(9),
        }
    }

    /// Whether the tile for which the held one waits is left within the turns.
    fn waits(&self) -> bool {
        for _ in 0..1_000_000 {
            for _ in 0..1_000 {
                if self.other_left.load(Ordering::SeqCst) {
                    return true;
                }
            }
        }
        false
    }

    /// Whether the held one goes on where this one is left.
    fn lets_go(&self, tile: u64) -> bool {
        match self.until {
            Until::Another => tile != self.held,
            Until::Left(other) => tile == other,
        }
    }
}

impl Gate for Holds {
    fn enter(&self, tile: u64) {
        if tile < 6 {
            self.entered[tile as usize].fetch_add(1, Ordering::SeqCst);
        }
        if tile == self.held && !self.waits() {
            self.failed.store(true, Ordering::SeqCst);
        }
    }

    fn leave(&self, tile: u64) {
        let _ = self
            .first_left
            .compare_exchange(9, tile, Ordering::SeqCst, Ordering::SeqCst);
        if tile < 6 {
            self.left[tile as usize].fetch_add(1, Ordering::SeqCst);
        }
        if self.lets_go(tile) {
            self.other_left.store(true, Ordering::SeqCst);
        }
    }
}

/// Whether each of the first of these is 1.
fn are_ones(counts: &[AtomicU64; 6], first: usize) -> bool {
    for count in counts.iter().take(first) {
        if count.load(Ordering::SeqCst) != 1 {
            return false;
        }
    }
    true
}

#[test]
fn two_workers_run_at_once(rt: HostRuntime) -> Result<(), Fail> {
    let gate = Holds::of(0, Until::Another);
    let words = ["polypar", "run", "--tile", "1", "--workers", "2"];
    let answer = call_on(&rt, rt.alloc(), &words, COPY_OF_FOUR.as_bytes(), &gate)?;
    assert!(rt; is_told(answer, 0, b"A = 1 2 3 4\nB = 1 2 3 4\n", b""));
    assert!(rt; !gate.failed.load(Ordering::SeqCst));
    assert!(rt; are_ones(&gate.entered, 4));
    assert!(rt; are_ones(&gate.left, 4));
    assert!(rt; gate.first_left.load(Ordering::SeqCst) != 0);
    Ok(())
}

/// Whether a sweep of which one tile is held until another of its wave was left prints its arrays, each tile done once.
fn is_held<R: Threads + Wait + Sync>(
    rt: &R,
    alloc: Global,
    held: u64,
    other: u64,
) -> Result<bool, AllocError> {
    let gate = Holds::of(held, Until::Left(other));
    let words = ["polypar", "run", "--tile", "1", "--workers", "3"];
    let answer = call_on(rt, alloc, &words, SWEEP.as_bytes(), &gate)?;
    Ok(
        is_told(answer, 0, b"A = 1 9 21 29 1\n", b"")
            && !gate.failed.load(Ordering::SeqCst)
            && are_ones(&gate.entered, 6)
            && are_ones(&gate.left, 6),
    )
}

#[test]
fn tiles_of_a_wave_are_done_in_any_order(rt: HostRuntime) -> Result<(), Fail> {
    assert!(rt; is_held(&rt, rt.alloc(), 2, 3)?);
    assert!(rt; is_held(&rt, rt.alloc(), 3, 2)?);
    Ok(())
}

/// A run, and what it prints.
struct Printed {
    input: &'static str,
    out: &'static str,
}

const PRINTED: &[Printed] = &[
    Printed {
        input: "void w(uint64_t A[1]) { A[0] += 1; }
%%
A = 18446744073709551615
",
        out: "A = 0\n",
    },
    Printed {
        input: PRODUCT,
        out: "A = 1 2 3 4\nB = 5 6 7 8\nC = 19 22 43 50\n",
    },
    Printed {
        input: "void rev(int64_t N, uint64_t A[N]) {
    for (int64_t i = N-1; i >= 1; i -= 2) A[i] = A[i-1]; }
%%
N = 5
A = 10 20 30 40 50
",
        out: "A = 10 20 20 40 40\n",
    },
    Printed {
        input: "void tri(int64_t N, uint64_t A[N][N]) {
    for (int64_t i = 0; i < N; i++) for (int64_t j = 0; j <= i; j++)
        A[i][j] = i + 10*j; }
%%
N = 3
",
        out: "A = 0 0 0 1 11 0 2 12 22\n",
    },
    Printed {
        input: "void odd(int64_t N, uint64_t A[2*N]) {
    for (int64_t j = 0; j < N; j++) A[2*j] = A[2*j+1]; }
%%
N = 2
A = 1 2 3 4
",
        out: "A = 2 2 4 4\n",
    },
    Printed {
        input: "void even(int64_t N, uint64_t A[2*N], uint64_t B[2*N]) {
    for (int64_t j = 0; j < N; j++) A[2*j] = 7;
    for (int64_t i = 0; i < 2*N; i++) B[i] = A[i]; }
%%
N = 2
A = 1 2 3 4
",
        out: "A = 7 2 7 4\nB = 7 2 7 4\n",
    },
    Printed {
        input: "void g(int64_t N, uint64_t A[N]) { int64_t i;
    for (i = 0; i < N; i++) if ((i >= 1) && (2 >= i)) A[i] = i - 3; }
%%
N = 4
",
        out: "A = 0 18446744073709551614 18446744073709551615 0\n",
    },
    Printed {
        input: "void copy(int64_t N, uint64_t A[N], uint64_t B[N]) {
    for (int64_t i = 0; i < N; i++) B[i] = A[i]; }
%%
N=2
A = seed 0
",
        out: "A = 11400714819323198485 4354685564936845354
B = 11400714819323198485 4354685564936845354
",
    },
];

/// Whether a run by so many workers over tiles of this size prints what is told of it.
fn is_printed<R: Threads + Wait + Sync>(
    rt: &R,
    alloc: Global,
    run: &Printed,
    tile: &'static str,
    workers: &'static str,
) -> Result<bool, AllocError> {
    let words = ["polypar", "run", "--tile", tile, "--workers", workers];
    let answer = call_on(rt, alloc, &words, run.input.as_bytes(), &OpenGate)?;
    Ok(is_told(answer, 0, run.out.as_bytes(), b""))
}

#[test]
fn runs_by_threads_print_the_arrays_of_the_execution(rt: HostRuntime) -> Result<(), Fail> {
    for run in PRINTED {
        for workers in WORKERS {
            assert!(rt; is_printed(&rt, rt.alloc(), run, "1", workers)?);
            assert!(rt; is_printed(&rt, rt.alloc(), run, "2", workers)?);
        }
    }
    Ok(())
}

/// A generated kernel, how it is called, and how many tiles and waves its plan has.
struct Generated {
    kind: Kind,
    seed: u64,
    size: u64,
    words: [&'static str; 4],
    tile: &'static str,
    tiles: u64,
    waves: u64,
}

const GENERATED: &[Generated] = &[
    Generated {
        kind: Kind::Sweep,
        seed: 0,
        size: 1,
        words: ["gen", "sweep", "0", "1"],
        tile: "32",
        tiles: 1,
        waves: 1,
    },
    Generated {
        kind: Kind::Sweep,
        seed: 0,
        size: 2,
        words: ["gen", "sweep", "0", "2"],
        tile: "32",
        tiles: 1,
        waves: 1,
    },
    Generated {
        kind: Kind::Sweep,
        seed: 0,
        size: 2,
        words: ["gen", "sweep", "0", "2"],
        tile: "1",
        tiles: 4,
        waves: 4,
    },
    Generated {
        kind: Kind::Product,
        seed: 7,
        size: 64,
        words: ["gen", "product", "7", "64"],
        tile: "32",
        tiles: 8,
        waves: 2,
    },
    Generated {
        kind: Kind::Sweep,
        seed: 7,
        size: 100,
        words: ["gen", "sweep", "7", "100"],
        tile: "32",
        tiles: 19,
        waves: 10,
    },
    Generated {
        kind: Kind::Chain,
        seed: 7,
        size: 300,
        words: ["gen", "chain", "7", "300"],
        tile: "32",
        tiles: 10,
        waves: 10,
    },
    Generated {
        kind: Kind::Product,
        seed: 7,
        size: 160,
        words: ["gen", "product", "7", "160"],
        tile: "32",
        tiles: 125,
        waves: 5,
    },
    Generated {
        kind: Kind::Sweep,
        seed: 7,
        size: 256,
        words: ["gen", "sweep", "7", "256"],
        tile: "1",
        tiles: 65_536,
        waves: 766,
    },
];

/// The summary of a generated kernel that the plain interpreter runs.
fn summary_of(alloc: Global, case: &Generated) -> Result<Vec<u8>, AllocError>
    requires low { 1 ≤ case.now.size }
    requires high { case.now.size ≤ 512 }
{
    let (kernel, mut made) = generated(alloc, case.kind, case.seed, case.size)?;
    run_plain(&kernel, &made.params, &mut made.arrays);
    let cells = cells_in(&made);
    let sum = sum_of(&made.arrays);
    summary(
        alloc, case.kind, case.seed, case.size, case.tiles, case.waves, cells, sum,
    )
}

/// Whether so many workers leave of a generated kernel what the plain interpreter does.
fn is_summary<R: Threads + Wait + Sync>(
    rt: &R,
    alloc: Global,
    case: &Generated,
    workers: &'static str,
) -> Result<bool, AllocError> {
    if case.size < 1 || 512 < case.size {
        return Ok(false);
    }
    let [command, kind, seed, size] = case.words;
    let words = [
        "polypar",
        command,
        kind,
        seed,
        size,
        "--tile",
        case.tile,
        "--workers",
        workers,
    ];
    let answer = call_on(rt, alloc, &words, b"", &OpenGate)?;
    let wanted = summary_of(alloc, case)?;
    Ok(is_told(answer, 0, wanted.as_slice(), b""))
}

/// Thin waves, and more workers than there are processors: who waits for a tile lets the one go on that holds it.
#[test]
fn workers_beyond_the_processors_end_soon(rt: HostRuntime) -> Result<(), Fail> {
    for case in GENERATED {
        assert!(rt; is_summary(&rt, rt.alloc(), case, "64")?);
    }
    Ok(())
}

#[test]
fn generated_kernels_leave_what_the_interpreter_does(rt: HostRuntime) -> Result<(), Fail> {
    for case in GENERATED {
        assert!(rt; is_summary(&rt, rt.alloc(), case, "1")?);
        assert!(rt; is_summary(&rt, rt.alloc(), case, "8")?);
    }
    Ok(())
}
