//! The goals of a dependence under a plan, made one at a time.
ghost use Rattle.std.specs.Prelude.{◌≡◌, ◌∷◌, ◌+◌, All, IfOk, Some, drop, option_map, slice_get, true, ℕ};
ghost use Rattle.std.specs.List.{flat_map};
ghost use Rattle.whole_numbers.specs.Affine.{complement};
ghost use Rattle.iteration_domains.specs.Dependence.{Dependence};
ghost use Rattle.iteration_domains.specs.Restrictions.{row_behind};
ghost use Rattle.plan_check.specs.Goals.{band_goals, difference, goals_of, later_goals, leading_goals, restricted};
ghost use Rattle.plan_check.specs.Plans.{Plan, number_of, rows};
ghost use Rattle.plan_check.specs.PlanView.{plan_of, row_of};
ghost use Rattle.plan_check.specs.steps.Walks.{Finds, FindsNext, FitsRow};
ghost use Rattle.plan_check.specs.GoalList.{CanGo, band_goals_at, goals_at};

use crate::plan::{BandRow, LaterItem, PlanItems};
use crate::row_goals::{bounded, equal, falling, rising};
use affine_forms::Form;
use iteration_domains::Dep;
use std::alloc::{AllocError, Global};

/// Where a dependence's goals go on.
#[derive(Clone, Copy)]
pub enum Place {
    /// At a row of the first band.
    Band(usize),
    /// At the second goal of such a row.
    Rising(usize),
    /// At an item behind the band, in the dependence with equal rows so far.
    Behind(usize),
    /// At the dependence itself, and nothing behind it.
    Alone,
    Over,
}

/// A dependence, and where its goals go on.
#[derive(Drop)]
pub struct Walk {
    pub dep: Dep,
    pub place: Place,
}

/// A goal, and what is left behind it.
#[derive(Drop)]
pub struct Found {
    pub goal: Dep,
    pub walk: Walk,
}

/// A goal, what is left of its dependence, and how many dependences have been taken up.
#[derive(Drop)]
pub struct Taken {
    pub found: Found,
    pub taken: usize,
}

/// A plan with its dependences, of which so many have been taken up.
#[derive(Drop)]
pub struct Rest {
    pub parameters: usize,
    pub plan: PlanItems,
    pub deps: Vec<Dep>,
    pub taken: usize,
}

/// A row of the first band.
fn band_row(plan: &PlanItems, at: usize) -> Option<&BandRow>
    ensures { option_map (λ r. r.now) result ≡ slice_get plan.now.band.items at }
{
    plan.band.get(at)
}

/// An item behind it.
fn later_item(plan: &PlanItems, at: usize) -> Option<&LaterItem>
    ensures { option_map (λ i. i.now) result ≡ slice_get plan.now.behind.items at }
{
    plan.behind.get(at)
}

/// A statement's number of a scalar.
fn number_at(numbers: &[u128], at: usize) -> u128
    ensures { result ≡ number_of numbers.now at }
{
    match numbers.get(at) {
        None => 0,
        Some(number) => *number,
    }
}

/// The next place.
fn behind(at: usize) -> Result<usize, AllocError>
    ensures { IfOk result (λ k. k ≡ at + 1) }
{
    match at.checked_add(1) {
        None => Err(AllocError),
        Some(next) => Ok(next),
    }
}

/// Where it goes on behind the first goal of a row of the band.
fn behind_first(row: &BandRow, at: usize) -> Result<Place, AllocError>
    ensures { IfOk result (λ place. (m : ℕ) (p : Plan) (d : Dependence) → slice_get p.band at ≡ Some (row_of row.now)
        → band_goals_at m p d at
        ≡ row_behind d (complement (difference m d row.now.forms.items)) ∷ goals_at m p d place) }
{
    if row.parallel {
        return Ok(Place::Rising(at));
    }
    Ok(Place::Band(behind(at)?))
}

/// The first goal of a row of the band.
fn first_goal(
    alloc: Global,
    parameters: usize,
    dep: Dep,
    row: &BandRow,
    at: usize,
) -> Result<Option<Found>, AllocError>
    requires { FitsRow parameters dep row.now.forms.items }
    ensures { IfOk result (λ f. (p : Plan) → CanGo parameters p dep → slice_get p.band at ≡ Some (row_of row.now)
        → Finds parameters p (band_goals_at parameters p dep at) f) }
{
    let place = behind_first(row, at)?;
    let goal = falling(alloc, parameters, &dep, &row.forms)?;
    Ok(Some(Found {
        goal,
        walk: Walk { dep, place },
    }))
}

/// The second goal of a row that is marked parallel.
fn second_goal(
    alloc: Global,
    parameters: usize,
    dep: Dep,
    row: &BandRow,
    at: usize,
) -> Result<Option<Found>, AllocError>
    requires { FitsRow parameters dep row.now.forms.items }
    ensures { IfOk result (λ f. (p : Plan) → CanGo parameters p dep → slice_get p.band at ≡ Some (row_of row.now)
        → row.now.parallel ≡ true → Finds parameters p (drop 1 (band_goals_at parameters p dep at)) f) }
{
    let next = behind(at)?;
    let goal = rising(alloc, parameters, &dep, &row.forms)?;
    Ok(Some(Found {
        goal,
        walk: Walk {
            dep,
            place: Place::Band(next),
        },
    }))
}

/// The dependence where all rows of the band are equal.
fn in_band(alloc: Global, parameters: usize, plan: &PlanItems, dep: Dep) -> Result<Dep, AllocError>
    requires { CanGo parameters (plan_of plan.now) dep }
    ensures restricted { IfOk result (λ d. d ≡ restricted parameters dep (plan_of plan.now).band) }
    ensures can { IfOk result (CanGo parameters (plan_of plan.now)) }
{
    let mut dep = dep;
    for at in 0..plan.band.len() {
        match band_row(plan, at) {
            None => return Err(AllocError),
            Some(row) => dep = equal(alloc, parameters, &dep, &row.forms)?,
        }
    }
    Ok(dep)
}

/// The goal of a row behind the band.
fn later_row(
    alloc: Global,
    parameters: usize,
    dep: &Dep,
    forms: &[Form],
    at: usize,
) -> Result<Option<Found>, AllocError>
    requires { FitsRow parameters dep.now forms.now }
    ensures { IfOk result (λ f. (p : Plan) → CanGo parameters p dep.now → slice_get p.behind at ≡ Some (rows forms.now)
        → Finds parameters p (later_goals parameters dep.now (drop at p.behind)) f) }
{
    let next = behind(at)?;
    let goal = falling(alloc, parameters, dep, forms)?;
    let dep = equal(alloc, parameters, dep, forms)?;
    Ok(Some(Found {
        goal,
        walk: Walk {
            dep,
            place: Place::Behind(next),
        },
    }))
}

/// The dependence itself as a goal, and what is left behind it.
fn whole_goal(alloc: Global, dep: &Dep, place: Place) -> Result<Option<Found>, AllocError>
    ensures { IfOk result (λ f. (m : ℕ) (p : Plan) → CanGo m p dep.now
        → Finds m p (dep.now ∷ goals_at m p dep.now place) f) }
{
    let goal = dep.copy(alloc)?;
    let dep = dep.copy(alloc)?;
    Ok(Some(Found {
        goal,
        walk: Walk { dep, place },
    }))
}

/// The first goal from an item behind the band on.
fn later_goal(
    alloc: Global,
    parameters: usize,
    plan: &PlanItems,
    dep: &Dep,
    from: usize,
) -> Result<Option<Found>, AllocError>
    requires { CanGo parameters (plan_of plan.now) dep.now }
    ensures { IfOk result
        (Finds parameters (plan_of plan.now) (later_goals parameters dep.now (drop from (plan_of plan.now).behind))) }
{
    for at in from..plan.behind.len() {
        match later_item(plan, at) {
            None => return Err(AllocError),
            Some(LaterItem::Row(forms)) => return later_row(alloc, parameters, dep, forms, at),
            Some(LaterItem::Scalar(numbers)) => {
                let source = number_at(numbers, dep.source.statement);
                let target = number_at(numbers, dep.target.statement);
                if source < target {
                    return Ok(None);
                }
                if target < source {
                    return whole_goal(alloc, dep, Place::Behind(behind(at)?));
                }
            }
        }
    }
    whole_goal(alloc, dep, Place::Over)
}

/// The first goal from a row of the band on.
fn band_goal(
    alloc: Global,
    parameters: usize,
    plan: &PlanItems,
    dep: Dep,
    at: usize,
) -> Result<Option<Found>, AllocError>
    requires { CanGo parameters (plan_of plan.now) dep }
    ensures { IfOk result
        (Finds parameters (plan_of plan.now) (band_goals_at parameters (plan_of plan.now) dep at)) }
{
    match band_row(plan, at) {
        Some(row) => first_goal(alloc, parameters, dep, row, at),
        None => {
            let dep = in_band(alloc, parameters, plan, dep)?;
            later_goal(alloc, parameters, plan, &dep, 0)
        }
    }
}

/// The goals behind the first one of a row of the band: the second, if the row is marked.
fn rising_goal(
    alloc: Global,
    parameters: usize,
    plan: &PlanItems,
    dep: Dep,
    at: usize,
) -> Result<Option<Found>, AllocError>
    requires { CanGo parameters (plan_of plan.now) dep }
    ensures { IfOk result
        (Finds parameters (plan_of plan.now) (drop 1 (band_goals_at parameters (plan_of plan.now) dep at))) }
{
    match band_row(plan, at) {
        None => Err(AllocError),
        Some(row) => {
            if row.parallel {
                return second_goal(alloc, parameters, dep, row, at);
            }
            band_goal(alloc, parameters, plan, dep, behind(at)?)
        }
    }
}

/// The next goal of a dependence, if one is left.
pub fn next_in(
    alloc: Global,
    parameters: usize,
    plan: &PlanItems,
    walk: Walk,
) -> Result<Option<Found>, AllocError>
    requires { CanGo parameters (plan_of plan.now) walk.dep }
    ensures { IfOk result
        (Finds parameters (plan_of plan.now) (goals_at parameters (plan_of plan.now) walk.dep walk.place)) }
{
    match walk.place {
        Place::Band(at) => band_goal(alloc, parameters, plan, walk.dep, at),
        Place::Rising(at) => rising_goal(alloc, parameters, plan, walk.dep, at),
        Place::Behind(at) => later_goal(alloc, parameters, plan, &walk.dep, at),
        Place::Alone => whole_goal(alloc, &walk.dep, Place::Over),
        Place::Over => Ok(None),
    }
}

/// A scalar before the first row.
fn leading_numbers(plan: &PlanItems, at: usize) -> Option<&Vec<u128>>
    ensures { option_map (λ v. v.now) result ≡ slice_get plan.now.leading.items at }
{
    plan.leading.get(at)
}

/// Where a dependence's goals begin.
fn start(plan: &PlanItems, dep: &Dep) -> Result<Place, AllocError>
    ensures { IfOk result (λ place. (m : ℕ) → goals_at m (plan_of plan.now) dep.now place
        ≡ leading_goals dep.now (plan_of plan.now).leading (band_goals m dep.now (plan_of plan.now))) }
{
    for at in 0..plan.leading.len() {
        match leading_numbers(plan, at) {
            None => return Err(AllocError),
            Some(numbers) => {
                let source = number_at(numbers, dep.source.statement);
                let target = number_at(numbers, dep.target.statement);
                if source < target {
                    return Ok(Place::Over);
                }
                if target < source {
                    return Ok(Place::Alone);
                }
            }
        }
    }
    Ok(Place::Band(0))
}

/// A dependence before its first goal.
fn begun(alloc: Global, parameters: usize, plan: &PlanItems, dep: &Dep) -> Result<Walk, AllocError>
    requires { CanGo parameters (plan_of plan.now) dep.now }
    ensures goals { IfOk result (λ w. goals_at parameters (plan_of plan.now) w.dep w.place
        ≡ goals_of parameters (plan_of plan.now) dep.now) }
    ensures can { IfOk result (λ w. CanGo parameters (plan_of plan.now) w.dep) }
{
    let dep = bounded(alloc, parameters, dep)?;
    let place = start(plan, &dep)?;
    Ok(Walk { dep, place })
}

/// The first goal of dependences from one on.
pub fn first_taken(
    alloc: Global,
    parameters: usize,
    plan: &PlanItems,
    deps: &[Dep],
    from: usize,
) -> Result<Option<Taken>, AllocError>
    requires { All (CanGo parameters (plan_of plan.now)) deps.now }
    ensures { IfOk result (FindsNext parameters (plan_of plan.now) deps.now (flat_map
        (goals_of parameters (plan_of plan.now)) (drop from deps.now))) }
{
    for at in from..deps.len() {
        let walk = begun(alloc, parameters, plan, &deps[at])?;
        match next_in(alloc, parameters, plan, walk)? {
            None => {}
            Some(found) => {
                return Ok(Some(Taken {
                    found,
                    taken: at + 1,
                }));
            }
        }
    }
    Ok(None)
}
