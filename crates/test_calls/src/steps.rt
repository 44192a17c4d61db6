//! Steps of two workers over a sweep of six tiles in five waves, call by call, by waves and with tiles released one by
//! one: on the core, and on the words.

ghost use Rattle.std.specs.Prelude.{◌≡◌, ◌<◌, None, length, true};
ghost use Rattle.tile_core.specs.Cores.{IsCore, state_in};
ghost use Rattle.tile_core.specs.Passes.{IsPass};
ghost use Rattle.tile_core.specs.Plans.{HasEdges, HasRest, IsPlan, shape_of};
ghost use Rattle.tile_core.specs.declared.worker.Stage.TheVariants.{Idle};
ghost use Rattle.wave_barrier.specs.Opens.{IsHolding};

use crate::commands::words_of;
use array_words::start;
use io_ports::{MemSink, MemSource};
use polypar::{OneWorker, Workers, command_by};
use std::alloc::{AllocError, Global};
use std::sync::atomic::{AtomicBool, Ordering};
use std::test::Fail;
use tile_claims::claim;
use tile_core::{Core, Event, Pass, Plan, Seen, Stage, TileEdges, Words};
use tile_runner::{do_tile, is_opened, release_all};
use wave_barrier::{finish, try_open, try_open_tile};

const SWEEP: &[u8] = b"void seidel(int64_t T, int64_t N, uint64_t A[N]) {
    for (int64_t t = 0; t < T; t++) for (int64_t i = 1; i < N - 1; i++)
        A[i] = A[i-1] + A[i] + A[i+1]; }
%%
T = 2
N = 5
A = 1 1 1 1 1
";

/// How many tiles wait for each.
const WAITING: [usize; 6] = [2, 3, 2, 1, 1, 0];

/// How many tiles this one releases.
fn waiting_for(plan: &Plan, tile: usize) -> usize
    requires { tile < 6 }
{
    match plan.edges {
        Some(_) => WAITING[tile],
        None => 0,
    }
}

/// Whether these are the nine pairs of tiles of which the second waits for the first.
fn are_nine(edges: &TileEdges) -> bool {
    if edges.starts.as_slice() != [0, 2, 5, 7, 8, 9, 9].as_slice() {
        return false;
    }
    if edges.targets.as_slice() != [1, 3, 2, 3, 4, 4, 5, 4, 5].as_slice() {
        return false;
    }
    edges.needs.as_slice() == [0, 1, 1, 2, 3, 2].as_slice()
}

/// An event of one of two workers, and what it sees; None where it is none that the worker may do.
fn act(core: &mut Core, worker: usize, event: Event) -> Option<Seen>
    requires core { IsCore core.old }
    requires workers { length (state_in core.old).workers ≡ 2 }
    requires worker { worker < 2 }
    ensures core { IsCore core.new }
    ensures workers { length (state_in core.new).workers ≡ 2 }
{
    match core.step(worker, event) {
        Ok(seen) => Some(seen),
        Err(_) => None,
    }
}

/// Whether the worker claims this tile.
fn claims_next(core: &mut Core, worker: usize, tile: u64) -> bool
    requires core { IsCore core.old }
    requires workers { length (state_in core.old).workers ≡ 2 }
    requires worker { worker < 2 }
    ensures core { IsCore core.new }
    ensures workers { length (state_in core.new).workers ≡ 2 }
{
    match act(core, worker, Event::Claim) {
        Some(Seen::Claimed(Some(found))) => found == tile,
        _ => false,
    }
}

/// Whether the worker opens its tile.
fn opens(core: &mut Core, worker: usize) -> bool
    requires core { IsCore core.old }
    requires workers { length (state_in core.old).workers ≡ 2 }
    requires worker { worker < 2 }
    ensures core { IsCore core.new }
    ensures workers { length (state_in core.new).workers ≡ 2 }
{
    match act(core, worker, Event::Open) {
        Some(Seen::Opened) => true,
        _ => false,
    }
}

/// Whether the worker, whose tile's instance reads three cells, loads one of them.
fn loads(core: &mut Core, worker: usize) -> bool
    requires core { IsCore core.old }
    requires workers { length (state_in core.old).workers ≡ 2 }
    requires worker { worker < 2 }
    ensures core { IsCore core.new }
    ensures workers { length (state_in core.new).workers ≡ 2 }
{
    match act(core, worker, Event::Load) {
        Some(Seen::Read(_)) => true,
        _ => false,
    }
}

/// Whether the worker stores the instance's value.
fn stores(core: &mut Core, worker: usize) -> bool
    requires core { IsCore core.old }
    requires workers { length (state_in core.old).workers ≡ 2 }
    requires worker { worker < 2 }
    ensures core { IsCore core.new }
    ensures workers { length (state_in core.new).workers ≡ 2 }
{
    match act(core, worker, Event::Store) {
        Some(Seen::Stored) => true,
        _ => false,
    }
}

/// Whether the worker releases so many tiles, and no more.
fn releases(core: &mut Core, worker: usize, waiting: usize) -> bool
    requires core { IsCore core.old }
    requires workers { length (state_in core.old).workers ≡ 2 }
    requires worker { worker < 2 }
    ensures core { IsCore core.new }
    ensures workers { length (state_in core.new).workers ≡ 2 }
{
    for _ in 0..waiting {
        match act(core, worker, Event::Release) {
            Some(Seen::Released) => {}
            _ => return false,
        }
    }
    act(core, worker, Event::Release).is_none()
}

/// Whether the worker stores the instance's value, releases so many tiles, and finishes its own.
fn ends(core: &mut Core, worker: usize, waiting: usize) -> bool
    requires core { IsCore core.old }
    requires workers { length (state_in core.old).workers ≡ 2 }
    requires worker { worker < 2 }
    ensures core { IsCore core.new }
    ensures workers { length (state_in core.new).workers ≡ 2 }
{
    let stored = stores(core, worker);
    let released = releases(core, worker, waiting);
    match act(core, worker, Event::Finish) {
        Some(Seen::Finished) => stored && released,
        _ => false,
    }
}

/// Whether the worker opens its tile, does it, and releases so many others.
fn does(core: &mut Core, worker: usize, waiting: usize) -> bool
    requires core { IsCore core.old }
    requires workers { length (state_in core.old).workers ≡ 2 }
    requires worker { worker < 2 }
    ensures core { IsCore core.new }
    ensures workers { length (state_in core.new).workers ≡ 2 }
{
    let opened = opens(core, worker);
    let first = loads(core, worker);
    let second = loads(core, worker);
    let third = loads(core, worker);
    ends(core, worker, waiting) && opened && first && second && third
}

/// Whether the worker claims this tile, opens it, does it, and releases so many others.
fn claims_and_does(core: &mut Core, worker: usize, tile: u64, waiting: usize) -> bool
    requires core { IsCore core.old }
    requires workers { length (state_in core.old).workers ≡ 2 }
    requires worker { worker < 2 }
    ensures core { IsCore core.new }
    ensures workers { length (state_in core.new).workers ≡ 2 }
{
    let claimed = claims_next(core, worker, tile);
    does(core, worker, waiting) && claimed
}

/// Whether the worker's tile may not be opened yet, since three tiles are finished and four have to be, or since two
/// tiles have released it and three have to, and nothing can be loaded then.
fn waits(core: &mut Core, worker: usize) -> bool
    requires core { IsCore core.old }
    requires workers { length (state_in core.old).workers ≡ 2 }
    requires worker { worker < 2 }
    ensures core { IsCore core.new }
    ensures workers { length (state_in core.new).workers ≡ 2 }
{
    let waits = match act(core, worker, Event::Open) {
        Some(Seen::NotYet { done, needs }) => done == 3 && needs == 4,
        Some(Seen::Short { seen, needs }) => seen == 2 && needs == 3,
        _ => false,
    };
    match act(core, worker, Event::Load) {
        None => waits,
        Some(_) => false,
    }
}

/// Whether the first worker does tiles 0 and 1 and claims 2, the second does 3 and waits with 4, and opens it once the
/// first has done 2.
fn steps_on_the_core(alloc: Global, plan: &Plan, cells: &[u64]) -> Result<bool, AllocError>
    requires plan { IsPlan plan.now }
    requires cells { length cells.now ≡ (shape_of plan.now).cells }
    requires rest { HasRest plan.now cells.now }
{
    let mut cells = cells.to_vec(alloc)?;
    let mut core = Core::of(alloc, plan, &mut cells, 2)?;
    let first = claims_and_does(&mut core, 0, 0, waiting_for(plan, 0));
    let second = claims_and_does(&mut core, 0, 1, waiting_for(plan, 1));
    let claimed = claims_next(&mut core, 0, 2);
    let third = claims_and_does(&mut core, 1, 3, waiting_for(plan, 3));
    let last = claims_next(&mut core, 1, 4);
    let held_up = waits(&mut core, 1);
    let done = does(&mut core, 0, waiting_for(plan, 2));
    let opened = opens(&mut core, 1);
    Ok(first && second && claimed && third && last && held_up && done && opened)
}

/// Whether the pass claims this tile.
fn takes(words: &Words, pass: &mut Pass, tile: u64) -> bool
    requires pass { IsPass words.now pass.old }
    requires idle { pass.old.worker.stage ≡ Idle }
    ensures pass { IsPass words.now pass.new }
    ensures holds { result ≡ true → IsHolding pass.new.worker.stage }
{
    match claim(words, pass) {
        Some(found) => found == tile,
        None => false,
    }
}

/// Whether the pass opens its tile, does it, and releases those that wait for it.
fn works(words: &Words, pass: &mut Pass) -> bool
    requires pass { IsPass words.now pass.old }
    requires holds { IsHolding pass.old.worker.stage }
    ensures pass { IsPass words.now pass.new }
    ensures idle { result ≡ true → pass.new.worker.stage ≡ Idle }
{
    let Stage::Holding(tile) = pass.worker.stage else {
        unreachable!()
    };
    if !is_opened(words, pass, tile) {
        return false;
    }
    do_tile(words, pass, tile);
    release_all(words, pass, tile);
    finish(words, pass);
    true
}

/// Whether the pass's tile may not be opened yet, since three tiles are finished and four have to be.
fn comes_too_early(words: &Words, pass: &mut Pass) -> bool
    requires pass { IsPass words.now pass.old }
    requires holds { IsHolding pass.old.worker.stage }
    requires edges { words.now.plan.edges ≡ None }
    ensures pass { IsPass words.now pass.new }
    ensures holds { result ≡ true → IsHolding pass.new.worker.stage }
{
    match try_open(words, pass) {
        Err(not_yet) => not_yet.done == 3 && not_yet.needs == 4,
        Ok(()) => false,
    }
}

/// Whether it may not, since two tiles have released it and three have to.
fn falls_short(words: &Words, pass: &mut Pass) -> bool
    requires pass { IsPass words.now pass.old }
    requires holds { IsHolding pass.old.worker.stage }
    requires edges { HasEdges words.now.plan }
    ensures pass { IsPass words.now pass.new }
    ensures holds { result ≡ true → IsHolding pass.new.worker.stage }
{
    match try_open_tile(words, pass) {
        Err(short) => short.seen == 2 && short.needs == 3,
        Ok(()) => false,
    }
}

/// Whether the pass's tile may not be opened yet, by waves or by its counter.
fn is_held_up(words: &Words, pass: &mut Pass) -> bool
    requires pass { IsPass words.now pass.old }
    requires holds { IsHolding pass.old.worker.stage }
    ensures pass { IsPass words.now pass.new }
    ensures holds { result ≡ true → IsHolding pass.new.worker.stage }
{
    match words.plan.edges {
        Some(_) => falls_short(words, pass),
        None => comes_too_early(words, pass),
    }
}

/// Whether the pass claims this tile and does it.
fn takes_and_works(words: &Words, pass: &mut Pass, tile: u64) -> bool
    requires pass { IsPass words.now pass.old }
    requires idle { pass.old.worker.stage ≡ Idle }
    ensures pass { IsPass words.now pass.new }
    ensures idle { result ≡ true → pass.new.worker.stage ≡ Idle }
{
    if !takes(words, pass, tile) {
        return false;
    }
    works(words, pass)
}

/// Whether the first pass, which rests, does tiles 0 and 1 and claims 2.
fn begins(words: &Words, first: &mut Pass) -> bool
    requires pass { IsPass words.now first.old }
    requires idle { first.old.worker.stage ≡ Idle }
    ensures pass { IsPass words.now first.new }
    ensures holds { result ≡ true → IsHolding first.new.worker.stage }
{
    if !takes_and_works(words, first, 0) {
        return false;
    }
    if !takes_and_works(words, first, 1) {
        return false;
    }
    takes(words, first, 2)
}

/// Whether the second pass, which rests, does tile 3, claims 4, and has to wait.
fn goes_on(words: &Words, second: &mut Pass) -> bool
    requires pass { IsPass words.now second.old }
    requires idle { second.old.worker.stage ≡ Idle }
    ensures pass { IsPass words.now second.new }
    ensures holds { result ≡ true → IsHolding second.new.worker.stage }
{
    if !takes_and_works(words, second, 3) {
        return false;
    }
    if !takes(words, second, 4) {
        return false;
    }
    is_held_up(words, second)
}

/// The same steps on the words, by a pass each.
fn step_by_passes(words: &Words, first: &mut Pass, second: &mut Pass) -> bool
    requires first { IsPass words.now first.old }
    requires second { IsPass words.now second.old }
    requires idle { first.old.worker.stage ≡ Idle }
    requires rests { second.old.worker.stage ≡ Idle }
{
    if !begins(words, first) {
        return false;
    }
    if !goes_on(words, second) {
        return false;
    }
    if !works(words, first) {
        return false;
    }
    works(words, second)
}

/// Whether two passes over these cells step so.
fn steps_on_the_words(alloc: Global, plan: Plan, cells: &[u64]) -> Result<bool, AllocError>
    requires plan { IsPlan plan }
    requires cells { length cells.now ≡ (shape_of plan).cells }
    requires rest { HasRest plan cells.now }
{
    let mut cells = cells.to_vec(alloc)?;
    let (words, mut passes) = start(alloc, plan, &mut cells, 2)?;
    let Some(mut second) = passes.pop() else {
        return Ok(false);
    };
    let Some(mut first) = passes.pop() else {
        return Ok(false);
    };
    Ok(step_by_passes(&words, &mut first, &mut second))
}

/// Runs a plan by one worker, and tells whether two step over it as they should, on the core and on the words.
#[derive(Drop)]
struct Stepped {
    on_the_core: AtomicBool,
    on_the_words: AtomicBool,
    by_nine_pairs: AtomicBool,
}

/// Nothing is told yet.
fn unstepped() -> Stepped {
    Stepped {
        on_the_core: AtomicBool::new(false),
        on_the_words: AtomicBool::new(false),
        by_nine_pairs: AtomicBool::new(false),
    }
}

impl Workers for Stepped {
    ghost ready = { λ _. Unit {0} };

    fn run(
        &self,
        alloc: Global,
        plan: Plan,
        cells: &mut Vec<u64>,
        workers: usize,
    ) -> Result<(), AllocError> {
        let nine = match plan.edges {
            Some(edges) => are_nine(edges),
            None => false,
        };
        self.by_nine_pairs.store(nine, Ordering::SeqCst);
        let core = steps_on_the_core(alloc, &plan, cells.as_slice())?;
        let words = steps_on_the_words(alloc, plan, cells.as_slice())?;
        self.on_the_core.store(core, Ordering::SeqCst);
        self.on_the_words.store(words, Ordering::SeqCst);
        OneWorker.run(alloc, plan, cells, workers)
    }
}

/// Whether a command runs the sweep, and two workers step over it as they should.
fn steps_over_a_sweep(
    alloc: Global,
    stepped: &Stepped,
    arguments: &[&'static str],
) -> Result<bool, Fail> {
    let words = words_of(alloc, arguments)?;
    let mut source = MemSource::of(alloc, SWEEP, 4096, &[])?;
    let mut out = MemSink::of(alloc, 4096, 4096, &[])?;
    let mut err = MemSink::of(alloc, 4096, 4096, &[])?;
    let status = command_by(stepped, alloc, &words, &mut source, &mut out, &mut err);
    Ok(status.exit_code() == 0 && out.taken() == b"A = 1 9 21 29 1\n".as_slice())
}

#[test]
fn two_workers_step_over_a_sweep(rt: HostRuntime) -> Result<(), Fail> {
    let stepped = unstepped();
    let ran = steps_over_a_sweep(rt.alloc(), &stepped, &["polypar", "run", "--tile", "1"])?;
    assert!(rt; ran);
    assert!(rt; stepped.on_the_core.load(Ordering::SeqCst));
    assert!(rt; stepped.on_the_words.load(Ordering::SeqCst));
    assert!(rt; !stepped.by_nine_pairs.load(Ordering::SeqCst));
    Ok(())
}

#[test]
fn two_workers_release_tiles_of_a_sweep(rt: HostRuntime) -> Result<(), Fail> {
    let stepped = unstepped();
    let ran = steps_over_a_sweep(
        rt.alloc(),
        &stepped,
        &["polypar", "run", "--tile", "1", "--sync", "tiles"],
    )?;
    assert!(rt; ran);
    assert!(rt; stepped.on_the_core.load(Ordering::SeqCst));
    assert!(rt; stepped.on_the_words.load(Ordering::SeqCst));
    assert!(rt; stepped.by_nine_pairs.load(Ordering::SeqCst));
    Ok(())
}
