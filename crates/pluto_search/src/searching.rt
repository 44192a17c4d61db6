//! The search, item by item.
ghost use Rattle.schedule_rows.specs.Schedule.{loops_in};
ghost use Rattle.pluto_search.specs.Searching.{Searches, AreBetween};
ghost use Rattle.pluto_search.specs.steps.Steps.{Runs, Starts};

use crate::begin::begin;
use crate::kept::Kept;
use crate::next::next_item;
use crate::restricting::restrict_all;
use crate::state::{Progress, Search, Step};
use iteration_domains::{Dep, Model};
use pluto_systems::loops_in;
use schedule_rows::{Block, Schedule};
use std::alloc::Global;

/// The first state: the dependences that have a point.
fn take_up<'a>(alloc: Global, search: &'a Search<'a>, deps: &[Dep]) -> Result<Progress<'a>, Kept>
    requires { AreBetween search.now.parameters search.now.loops.now deps.now }
    ensures { Starts search.now deps.now result }
{
    let taken = match restrict_all(alloc, search.parameters, &[], deps, search.budget) {
        Err(kept) => return Err(kept),
        Ok(taken) => taken,
    };
    match begin(alloc, search, taken) {
        Err(_) => Err(Kept::NoMemory),
        Ok(progress) => Ok(progress),
    }
}

/// The blocks of the determined run, item by item.
fn run<'a>(alloc: Global, search: &'a Search<'a>, deps: &[Dep]) -> Result<Vec<Block>, Kept>
    requires { AreBetween search.now.parameters search.now.loops.now deps.now }
    ensures { Runs search.now deps.now result }
{
    let mut progress = match take_up(alloc, search, deps) {
        Err(kept) => return Err(kept),
        Ok(progress) => progress,
    };
    loop {
        match next_item(alloc, progress) {
            Err(kept) => return Err(kept),
            Ok(Step::Ends(blocks)) => return Ok(blocks),
            Ok(Step::Goes(next)) => progress = next,
        }
    }
}

/// The schedule of dependences between a model's statements: each row the least of its posed set, a scalar item where
/// there is no row. Each question has the whole budget.
///
/// # Errors
/// `NoRow`, `NoOrder` and `Large` exactly where the determined run ends so and no question before stops, `Stuck` exactly
/// where one stops, with the stop of the first; `NoMemory`.
pub fn search<'a>(
    alloc: Global,
    model: &'a Model,
    deps: &'a [Dep],
    budget: u64,
) -> Result<Schedule<'a>, Kept>
    requires { AreBetween model.now.parameters (loops_in model.now) deps.now }
    ensures search { Searches model.now deps.now budget result }
{
    let loops = match loops_in(alloc, model) {
        Err(_) => return Err(Kept::NoMemory),
        Ok(loops) => loops,
    };
    let search = Search {
        parameters: model.parameters(),
        loops: &loops,
        budget,
    };
    let blocks = match run(alloc, &search, deps) {
        Err(kept) => return Err(kept),
        Ok(blocks) => blocks,
    };
    match Schedule::of(alloc, model, deps, blocks) {
        Err(_) => Err(Kept::NoMemory),
        Ok(schedule) => Ok(schedule),
    }
}
