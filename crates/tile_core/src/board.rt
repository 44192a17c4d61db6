//! The state of a run, and what each event does to it.
ghost use Rattle.std.specs.Prelude.{◌≡◌, ◌+◌, ◌<◌, Ok, get_or, length};
ghost use Rattle.tile_events.specs.Core.{claim, finish, load, open_tile, release, seen_by, shut as told_shut, told};
ghost use Rattle.tile_core.specs.Acts.{last_event};
ghost use Rattle.tile_core.specs.Boards.{Does, IsBoard, Stretches, event_of, seen_of, state_of};
ghost use Rattle.tile_core.specs.Plans.{HasEdges, shape_of, walk_shape};

use crate::copying::do_copied;
use crate::plan::Plan;
use crate::plan_laws::walks_are_dealt;
use crate::stretching::{do_ahead, updated};
use crate::weaving::do_woven;
use crate::worker::{Stage, Worker};

/// What a worker tries.
#[derive(Clone, Copy)]
pub enum Event {
    Claim,
    Open,
    Load,
    Store,
    Add,
    Release,
    Finish,
}

/// What it sees of it.
#[derive(Clone, Copy)]
pub enum Seen {
    Claimed(Option<u64>),
    Opened,
    NotYet { done: u64, needs: u64 },
    Short { seen: u64, needs: u64 },
    Read(u64),
    Stored,
    Added,
    Released,
    Finished,
}

/// The event is not one that the worker may do now, and nothing has changed.
#[derive(Clone, Copy)]
pub struct NotEnabled;

/// How many tiles were claimed and finished, the cells, and the workers.
#[derive(Drop)]
pub(crate) struct Board {
    pub(crate) claims: u64,
    pub(crate) finished: u64,
    pub(crate) cells: Vec<u64>,
    pub(crate) workers: Vec<Worker>,
}

impl Board {
    /// One event of a worker.
    pub(crate) fn act(&mut self, plan: &Plan, id: usize, event: Event) -> Result<Seen, NotEnabled>
        requires board { IsBoard plan.now self.old }
        requires id { id < length self.old.workers.items }
        ensures { Does plan.now self.old id (event_of event) self.new result }
    {
        match event {
            Event::Claim => self.claim(plan, id),
            Event::Open => self.open(plan, id),
            Event::Load => self.load(plan, id),
            Event::Store => self.last_act(plan, id, false),
            Event::Add => self.last_act(plan, id, true),
            Event::Release => self.release(plan, id),
            Event::Finish => self.finish(plan, id),
        }
    }

    fn claim(&mut self, plan: &Plan, id: usize) -> Result<Seen, NotEnabled>
        requires board { IsBoard plan.now self.old }
        requires id { id < length self.old.workers.items }
        ensures { Does plan.now self.old id claim self.new result }
    {
        let Stage::Idle = self.workers[id].stage else {
            return Err(NotEnabled);
        };
        let claimed = self.claims;
        self.claims += 1;
        if claimed < plan.tiles() {
            self.workers[id].put(Stage::Holding(claimed));
            Ok(Seen::Claimed(Some(claimed)))
        } else {
            self.workers[id].put(Stage::Ended);
            Ok(Seen::Claimed(None))
        }
    }

    /// Where the tile's counter stands.
    fn counter(&self, plan: &Plan, tile: u64) -> usize
        requires board { IsBoard plan.now self.now }
        requires edges { HasEdges plan.now }
        requires tile { tile < (shape_of plan.now).tiles }
        ensures counter { result ≡ (walk_shape plan.now).cells + tile }
        ensures inside { result < length self.now.cells.items }
    {
        self.cells.len() - plan.tiles() as usize + tile as usize
    }

    /// How much is seen before the tile is opened: how many tiles are finished, or what its counter holds.
    fn seen(&self, plan: &Plan, tile: u64) -> u64
        requires board { IsBoard plan.now self.now }
        requires tile { tile < (shape_of plan.now).tiles }
        ensures { result ≡ seen_by (shape_of plan.now).gate (state_of self.now) tile }
    {
        match plan.edges {
            None => self.finished,
            Some(_) => cell_at(&self.cells, self.counter(plan, tile)),
        }
    }

    fn open(&mut self, plan: &Plan, id: usize) -> Result<Seen, NotEnabled>
        requires board { IsBoard plan.now self.old }
        requires id { id < length self.old.workers.items }
        ensures { Does plan.now self.old id open_tile self.new result }
    {
        let Stage::Holding(tile) = self.workers[id].stage else {
            return Err(NotEnabled);
        };
        let needs = plan.needs(tile);
        let seen = self.seen(plan, tile);
        if seen < needs {
            return Ok(shut(plan, seen, needs));
        }
        self.workers[id].open(plan, tile);
        Ok(Seen::Opened)
    }

    fn load(&mut self, plan: &Plan, id: usize) -> Result<Seen, NotEnabled>
        requires board { IsBoard plan.now self.old }
        requires id { id < length self.old.workers.items }
        ensures { Does plan.now self.old id load self.new result }
    {
        let worker = &self.workers[id];
        let Some(instance) = worker.due(plan) else {
            return Err(NotEnabled);
        };
        let read = worker.reads.len();
        if read >= plan.reads(instance) {
            return Err(NotEnabled);
        }
        let (tile, done) = worker.at();
        let value = cell_at(&self.cells, plan.cell_read(instance, tile, done, read));
        self.workers[id].read(value);
        Ok(Seen::Read(value))
    }

    /// The last act of a worker's next instance, which adds to its cell or stores there.
    fn last_act(&mut self, plan: &Plan, id: usize, adds: bool) -> Result<Seen, NotEnabled>
        requires board { IsBoard plan.now self.old }
        requires id { id < length self.old.workers.items }
        ensures { Does plan.now self.old id (last_event adds) self.new result }
    {
        let worker = &self.workers[id];
        let Some(due) = worker.due(plan) else {
            return Err(NotEnabled);
        };
        if worker.reads.len() != plan.reads(due) {
            return Err(NotEnabled);
        }
        let (tile, done) = worker.at();
        let at = plan.cell_written(due, tile, done);
        if plan.adds(due) != adds {
            return Err(NotEnabled);
        }
        let instance = *due;
        let worker = &mut self.workers[id];
        let value = worker.value(plan, &instance);
        worker.advance(plan);
        self.cells[at] = updated(adds, cell_at(&self.cells, at), value);
        Ok(last_seen(adds))
    }

    fn release(&mut self, plan: &Plan, id: usize) -> Result<Seen, NotEnabled>
        requires board { IsBoard plan.now self.old }
        requires id { id < length self.old.workers.items }
        ensures { Does plan.now self.old id release self.new result }
    {
        walks_are_dealt();
        let Some(next) = self.workers[id].releases(plan) else {
            return Err(NotEnabled);
        };
        let at = self.counter(plan, next);
        let held = cell_at(&self.cells, at);
        self.workers[id].pass_release(plan);
        self.cells[at] = held.wrapping_add(1);
        Ok(Seen::Released)
    }

    /// Does instances of a worker's tile, one after another; tells how many.
    pub(crate) fn do_stretch(&mut self, plan: &Plan, id: usize) -> usize
        requires board { IsBoard plan.now self.old }
        requires id { id < length self.old.workers.items }
        ensures { Stretches plan.now self.old id result self.new }
    {
        walks_are_dealt();
        let worker = &mut self.workers[id];
        if worker.reads.len() > 0 {
            return 0;
        }
        if plan.expansion.is_some() {
            return do_copied(&mut self.cells, plan, worker);
        }
        let rounds = worker.rounds(plan);
        if rounds > 0 {
            return do_woven(&mut self.cells, plan, worker, rounds);
        }
        let count = worker.ahead(plan);
        if count == 0 {
            return 0;
        }
        do_ahead(&mut self.cells, plan, worker, count);
        worker.pass_by(plan, count);
        count
    }

    fn finish(&mut self, plan: &Plan, id: usize) -> Result<Seen, NotEnabled>
        requires board { IsBoard plan.now self.old }
        requires id { id < length self.old.workers.items }
        ensures { Does plan.now self.old id finish self.new result }
    {
        let Stage::Working(tile, done) = self.workers[id].stage else {
            return Err(NotEnabled);
        };
        if done != plan.size(tile) {
            return Err(NotEnabled);
        }
        self.finished += 1;
        self.workers[id].put(Stage::Idle);
        Ok(Seen::Finished)
    }
}

/// What is told of a tile that is not opened.
fn shut(plan: &Plan, seen: u64, needs: u64) -> Seen
    ensures { seen_of (Ok result) ≡ told_shut (shape_of plan.now).gate seen needs }
{
    match plan.edges {
        None => Seen::NotYet { done: seen, needs },
        Some(_) => Seen::Short { seen, needs },
    }
}

/// What is told of a last act.
fn last_seen(adds: bool) -> Seen
    ensures { seen_of (Ok result) ≡ told (last_event adds) }
{
    if adds { Seen::Added } else { Seen::Stored }
}

/// The cell's value.
#[inline]
fn cell_at(cells: &[u64], at: usize) -> u64
    requires { at < length cells.now }
    ensures { result ≡ get_or cells.now at 0 }
{
    cells[at]
}
