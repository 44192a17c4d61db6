//! A worker: where it stands with its tile, the instance that it does next with the values read for it, and the place
//! in the tree's visits behind that instance. Its steps take no memory.
ghost use Rattle.std.specs.Prelude.{◌≡◌, ◌+◌, ◌-◌, ◌*◌, ◌<◌, ◌≤◌, ◌⊎◌, ◌++◌, ◌∷◌, [], ℕ, ℤ, All, IfOk, IfSome, List};
ghost use Rattle.std.specs.Prelude.{MatchOption, Some, drop, length, map, replicate, suc};
ghost use Rattle.scop_syntax.specs.Members.{In};
ghost use Rattle.scop_syntax.specs.View.{instance_of};
ghost use Rattle.loop_tree.specs.SpotView.{IsSpotOf, to_come};
ghost use Rattle.loop_tree.specs.Tree.{Trees};
ghost use Rattle.tile_table.specs.Desks.{HasRoomForAll};
ghost use Rattle.tile_list.specs.Stretches.{HasRounds};
ghost use Rattle.tile_events.specs.Core.{idle};
ghost use Rattle.tile_events.specs.Sound.{Holds};
ghost use Rattle.tile_core.specs.Plans.{IsPlan, place_of, places_in, shape_of, walk_shape};
ghost use Rattle.tile_core.specs.Stretches.{CanPass, IsAhead, IsAlong, IsPart, IsWoven};
ghost use Rattle.tile_core.specs.Workers.{HasNoneDue, IsDue, IsReleasing, IsWorker, ReleasesNone, staged, worker_of};
ghost use Rattle.tile_core.specs.declared.plan.Plan.{Plan as AnyPlan};
ghost use Rattle.tile_core.specs.declared.worker.Stage.TheVariants as stage_of;

use crate::plan::Plan;
use crate::plan_laws::plans_are_good;
use arrayvec::ArrayVec;
use loop_tree::{Spot, Stretch};
use scop_syntax::{Instance, MOST_READS};
use std::alloc::{AllocError, Global};
use tile_list::{rounds_left, tiles_stand_one_behind_another};
use tile_table::{Desk, Table};

/// It holds no tile; or it saw the claims run out; or it holds a tile that is not opened; or it works in an opened
/// tile, of which so many instances are done.
#[derive(Clone, Copy)]
pub enum Stage {
    Idle,
    Ended,
    Holding(u64),
    Working(u64, usize),
}

/// The values read so far for an instance, in the order of its reads.
pub type Reads = ArrayVec<u64, MOST_READS>;

/// At work in a tile with an instance left, `next` is that instance and `spot` the place behind it. The desk has room for
/// the instances of each statement; so has each of `desks`, one for each strand of a braid.
#[derive(Drop)]
pub struct Worker {
    pub stage: Stage,
    pub reads: Reads,
    pub next: Option<Instance>,
    pub spot: Spot,
    pub desk: Desk,
    pub desks: Vec<Desk>,
}

/// So many desks.
///
/// # Errors
/// `AllocError` alone.
fn desks_of(alloc: Global, table: &Table, count: usize) -> Result<Vec<Desk>, AllocError>
    ensures many { IfOk result (λ v. length v.items ≡ count) }
    ensures room { IfOk result (λ v. All (HasRoomForAll table.now) v.items) }
{
    let mut desks = Vec::with_capacity(alloc, count)?;
    for _ in 0..count {
        desks.push(table.desk(alloc)?)?;
    }
    Ok(desks)
}

/// How many instances from one on go by the steps of a stretch, where so many are left at most: all that the stretch has
/// left, where this is the instance in front of it.
#[inline]
fn along(stretch: &Stretch, instance: &Instance, most: usize) -> usize
    requires { 1 ≤ most }
    ensures some { 1 ≤ result }
    ensures part { IsPart most stretch.now.left result }
    ensures along { 1 < result → IsAlong stretch.now instance.now result }
{
    if stretch.left == 0 || !stretch.follows(instance) {
        return 1;
    }
    if stretch.left < most as u64 {
        stretch.left as usize + 1
    } else {
        most
    }
}

/// Leaves out all that a stretch has left, where more than one instance was done.
#[inline]
fn leave(spot: &mut Spot, count: usize)
    requires { (count ≡ 1) ⊎ (count ≡ suc spot.old.stretch.left) }
    ensures spot { (ts : Trees) (params : List ℤ) → IsSpotOf ts params spot.old → IsSpotOf ts params spot.new }
    ensures rest { (ts : Trees) (params : List ℤ)
        → to_come ts params spot.new ≡ drop (count - 1) (to_come ts params spot.old) }
{
    if count > 1 {
        spot.stretch.left = 0;
    }
}

/// So many rounds of so many instances, where these are fewer than `most`; 0 elsewhere.
fn rounds_within(rounds: u64, count: usize, most: usize) -> usize
    ensures rounds { 0 < result → result ≡ rounds }
    ensures within { 0 < result → result * count < most }
{
    match (rounds as usize).checked_mul(count) {
        Some(all) if all < most => rounds as usize,
        _ => 0,
    }
}

/// Leaves out all that a braid of whole rounds has left.
fn leave_braid(spot: &mut Spot, rounds: usize)
    requires alone { spot.old.stretch.left ≡ 0 }
    requires few { spot.old.braid.count ≤ 4 }
    requires has { HasRounds spot.old.braid rounds }
    ensures spot { (ts : Trees) (params : List ℤ) → IsSpotOf ts params spot.old → IsSpotOf ts params spot.new }
    ensures rest { (ts : Trees) (params : List ℤ) → IsSpotOf ts params spot.old
        → to_come ts params spot.new ≡ drop (rounds * spot.old.braid.count) (to_come ts params spot.old) }
{
    spot.braid.strands[0].left = 0;
}

impl Worker {
    /// A worker that holds no tile.
    ///
    /// # Errors
    /// `AllocError` alone.
    pub fn idle(alloc: Global, plan: &Plan) -> Result<Worker, AllocError>
        ensures stage { IfOk result (λ w. w.stage ≡ stage_of.Idle) }
        ensures reads { IfOk result (λ w. w.reads.items ≡ []) }
        ensures worker { IfOk result (IsWorker plan.now) }
    {
        let spot = Spot::of(alloc, plan.tree)?;
        let desk = plan.table.desk(alloc)?;
        let desks = desks_of(alloc, plan.table, spot.braid.strands.len())?;
        Ok(Worker {
            stage: Stage::Idle,
            reads: ArrayVec::new(),
            next: None,
            spot,
            desk,
            desks,
        })
    }

    /// Puts the worker where `stage` says, not at work, with nothing read.
    pub fn put(&mut self, stage: Stage)
        requires { (t k : ℕ) → stage ≡ stage_of.Working t k → ⊥ }
        ensures stage { self.new.stage ≡ stage }
        ensures reads { self.new.reads.items ≡ [] }
        ensures worker { (plan : AnyPlan) → ((t : ℕ) → Holds (staged stage []) t → t < (shape_of plan).tiles)
            → IsWorker plan self.old → IsWorker plan self.new }
    {
        self.stage = stage;
        self.reads.clear();
    }

    /// Begins to work in the tile.
    pub fn open(&mut self, plan: &Plan, tile: u64)
        requires plan { IsPlan plan.now }
        requires worker { IsWorker plan.now self.old }
        requires tile { tile < (shape_of plan.now).tiles }
        ensures stage { self.new.stage ≡ stage_of.Working tile 0 }
        ensures reads { self.new.reads.items ≡ [] }
        ensures worker { IsWorker plan.now self.new }
    {
        tiles_stand_one_behind_another();
        let first = plan.tile(tile);
        self.stage = Stage::Working(tile, 0);
        self.reads.clear();
        self.next = Some(first.first);
        first.place.enter(plan.tree, plan.params, &mut self.spot);
    }

    /// The instance that it does next; None where it is not at work, or its tile has none left.
    #[inline]
    pub fn due(&self, plan: &Plan) -> Option<&Instance>
        requires plan { IsPlan plan.now }
        requires worker { IsWorker plan.now self.now }
        ensures due { MatchOption result (HasNoneDue plan.now self.now.stage)
            (λ i. IsDue plan.now self.now.stage i.now) }
        ensures next { IfSome result (λ i. self.now.next ≡ Some i.now) }
    {
        plans_are_good();
        let Stage::Working(tile, done) = self.stage else {
            return None;
        };
        if done < plan.instances(tile) {
            self.next.as_ref()
        } else {
            None
        }
    }

    /// Its tile, and how many instances of it are done, where it is at work.
    #[inline]
    pub fn at(&self) -> (u64, usize)
        ensures { (t k : ℕ) → self.now.stage ≡ stage_of.Working t k → result ≡ (t, k) }
    {
        match self.stage {
            Stage::Working(tile, done) => (tile, done),
            _ => (0, 0),
        }
    }

    /// The tile that its own tile releases next; None where it is not at work, or its tile has an instance left or has
    /// released all.
    pub fn releases(&self, plan: &Plan) -> Option<u64>
        requires plan { IsPlan plan.now }
        requires worker { IsWorker plan.now self.now }
        ensures { MatchOption result (ReleasesNone plan.now self.now.stage)
            (IsReleasing plan.now self.now.stage) }
    {
        let Stage::Working(tile, done) = self.stage else {
            return None;
        };
        let instances = plan.instances(tile);
        if done < instances {
            return None;
        }
        if plan.size(tile) <= done {
            return None;
        }
        Some(plan.successor(tile, done - instances))
    }

    /// A number of instances that it has ahead and that go by the steps of its spot's stretch, the next one among them; 0
    /// exactly where it has none due.
    #[inline]
    pub fn ahead(&self, plan: &Plan) -> usize
        requires plan { IsPlan plan.now }
        requires worker { IsWorker plan.now self.now }
        ensures none { result ≡ 0 → HasNoneDue plan.now self.now.stage }
        ensures ahead { 0 < result
            → IsAhead plan.now self.now.stage self.now.next self.now.spot.stretch result }
    {
        let Stage::Working(tile, done) = self.stage else {
            return 0;
        };
        match self.due(plan) {
            None => 0,
            Some(instance) => along(&self.spot.stretch, instance, plan.instances(tile) - done),
        }
    }

    /// How many whole rounds it has ahead behind its next instance, where these are all that is left of a loop with a
    /// few instances in it, and its tile has them all; 0 elsewhere.
    pub fn rounds(&self, plan: &Plan) -> usize
        requires plan { IsPlan plan.now }
        requires worker { IsWorker plan.now self.now }
        ensures { 0 < result → IsWoven plan.now self.now.stage self.now.next self.now.spot result }
    {
        let Stage::Working(tile, done) = self.stage else {
            return 0;
        };
        if self.spot.stretch.left > 0 {
            return 0;
        }
        let rounds = rounds_left(&self.spot.braid);
        match self.due(plan) {
            None => 0,
            Some(_) => rounds_within(rounds, self.spot.braid.count, plan.instances(tile) - done),
        }
    }

    /// Keeps a value that was read.
    #[inline]
    pub fn read(&mut self, value: u64)
        requires { length self.old.reads.items < 16 }
        ensures stage { self.new.stage ≡ self.old.stage }
        ensures reads { self.new.reads.items ≡ self.old.reads.items ++ value ∷ [] }
        ensures worker { (plan : AnyPlan) → IsWorker plan self.old → IsWorker plan self.new }
    {
        self.reads.push(value);
    }

    /// What the instance stores, where its reads have the values that were read.
    pub fn value(&mut self, plan: &Plan, instance: &Instance) -> u64
        requires plan { IsPlan plan.now }
        requires walked { In (instance_of instance.now) (places_in plan.now) }
        requires reads { length self.old.reads.items
            ≡ length ((walk_shape plan.now).read (place_of plan.now instance.now)) }
        requires worker { IsWorker plan.now self.old }
        ensures value { result
            ≡ (walk_shape plan.now).value (place_of plan.now instance.now) self.old.reads.items }
        ensures stage { self.new.stage ≡ self.old.stage }
        ensures reads { self.new.reads.items ≡ self.old.reads.items }
        ensures worker { IsWorker plan.now self.new }
    {
        plan.value(&mut self.desk, instance, self.reads.as_slice())
    }

    /// Goes on to the instance behind so many that it has done.
    #[inline]
    pub fn pass_by(&mut self, plan: &Plan, count: usize)
        requires plan { IsPlan plan.now }
        requires worker { IsWorker plan.now self.old }
        requires passes { CanPass plan.now self.old.stage self.old.spot.stretch count }
        ensures stage { (t k : ℕ) → self.old.stage ≡ stage_of.Working t k
            → self.new.stage ≡ stage_of.Working t (k + count) }
        ensures other { ((t k : ℕ) → self.old.stage ≡ stage_of.Working t k → ⊥)
            → self.new.stage ≡ self.old.stage }
        ensures reads { self.new.reads.items ≡ [] }
        ensures worker { IsWorker plan.now self.new }
    {
        self.reads.clear();
        let Stage::Working(tile, done) = self.stage else {
            return;
        };
        let size = plan.instances(tile);
        self.stage = Stage::Working(tile, done + count);
        if done + count < size {
            leave(&mut self.spot, count);
            self.next = self.spot.next(plan.tree, plan.params);
        }
    }

    /// Goes on behind its next instance and so many whole rounds behind it, which it has done; tells how many instances
    /// these are.
    pub fn pass_rounds(&mut self, plan: &Plan, rounds: usize) -> usize
        requires plan { IsPlan plan.now }
        requires worker { IsWorker plan.now self.old }
        requires woven { IsWoven plan.now self.old.stage self.old.next self.old.spot rounds }
        ensures stage { (t k : ℕ) → self.old.stage ≡ stage_of.Working t k
            → self.new.stage ≡ stage_of.Working t (k + suc (rounds * self.old.spot.braid.count)) }
        ensures count { (t k : ℕ) → self.old.stage ≡ stage_of.Working t k
            → result ≡ suc (rounds * self.old.spot.braid.count) }
        ensures reads { self.new.reads.items ≡ [] }
        ensures worker { IsWorker plan.now self.new }
    {
        self.reads.clear();
        let Stage::Working(tile, done) = self.stage else {
            return 0;
        };
        let size = plan.instances(tile);
        let count = 1 + rounds * self.spot.braid.count;
        self.stage = Stage::Working(tile, done + count);
        if done + count < size {
            leave_braid(&mut self.spot, rounds);
            self.next = self.spot.next(plan.tree, plan.params);
        }
        count
    }

    /// Goes on to the instance behind the one that it has done.
    #[inline]
    pub fn advance(&mut self, plan: &Plan)
        requires plan { IsPlan plan.now }
        requires worker { IsWorker plan.now self.old }
        requires left { (t k : ℕ) → self.old.stage ≡ stage_of.Working t k → k < (walk_shape plan.now).size t }
        ensures stage { (t k : ℕ) → self.old.stage ≡ stage_of.Working t k
            → self.new.stage ≡ stage_of.Working t (suc k) }
        ensures other { ((t k : ℕ) → self.old.stage ≡ stage_of.Working t k → ⊥)
            → self.new.stage ≡ self.old.stage }
        ensures reads { self.new.reads.items ≡ [] }
        ensures worker { IsWorker plan.now self.new }
    {
        self.pass_by(plan, 1);
    }

    /// Goes on behind a release.
    pub fn pass_release(&mut self, plan: &Plan)
        requires plan { IsPlan plan.now }
        requires worker { IsWorker plan.now self.old }
        requires left { (t k : ℕ) → self.old.stage ≡ stage_of.Working t k
            → ((walk_shape plan.now).size t ≤ k) × (k < (shape_of plan.now).size t) }
        ensures stage { (t k : ℕ) → self.old.stage ≡ stage_of.Working t k
            → self.new.stage ≡ stage_of.Working t (suc k) }
        ensures other { ((t k : ℕ) → self.old.stage ≡ stage_of.Working t k → ⊥)
            → self.new.stage ≡ self.old.stage }
        ensures reads { self.new.reads.items ≡ [] }
        ensures worker { IsWorker plan.now self.new }
    {
        self.reads.clear();
        let Stage::Working(tile, done) = self.stage else {
            return;
        };
        self.stage = Stage::Working(tile, done + 1);
    }
}

/// So many idle workers.
///
/// # Errors
/// `AllocError` alone.
pub fn idle_workers(alloc: Global, plan: &Plan, count: usize) -> Result<Vec<Worker>, AllocError>
    ensures idle { IfOk result (λ v. map worker_of v.items ≡ replicate count idle) }
    ensures workers { IfOk result (λ v. All (IsWorker plan.now) v.items) }
{
    let mut workers = Vec::with_capacity(alloc, count)?;
    for _ in 0..count {
        workers.push(Worker::idle(alloc, plan)?)?;
    }
    Ok(workers)
}
