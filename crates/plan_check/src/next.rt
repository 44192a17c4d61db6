//! The next goal of a plan, one dependence after another.
ghost use Rattle.std.specs.Prelude.{◌≡◌, IfOk, None, Some};
ghost use Rattle.plan_check.specs.Goals.{goals_in, loops_in};
ghost use Rattle.plan_check.specs.Plans.{IsUp, Suits};
ghost use Rattle.plan_check.specs.PlanView.{plan_of};
ghost use Rattle.plan_check.specs.Taking.{Takes};
ghost use Rattle.plan_check.specs.GoalList.{AreAll, AreGoals, CanGo, listed};

use crate::goals::Goals;
use crate::plan::PlanItems;
use crate::walk::{Found, Rest, Walk, first_taken, next_in};
use conflict_deps::{conflicts, systems_have_parts};
use iteration_domains::{Dep, Model};
use std::alloc::{AllocError, Global};

/// A goal, and those behind it.
#[derive(Drop)]
pub struct Next {
    pub goal: Dep,
    pub goals: Goals,
}

/// The first goal of the rest.
fn beyond(alloc: Global, rest: Rest) -> Result<Option<Next>, AllocError>
    requires { AreGoals rest None }
    ensures { IfOk result (Takes (listed rest None)) }
{
    match first_taken(alloc, rest.parameters, &rest.plan, &rest.deps, rest.taken)? {
        None => Ok(None),
        Some(next) => Ok(Some(following(rest, next.found, next.taken))),
    }
}

/// The first goal of a dependence in hand, or of the rest.
fn within(alloc: Global, rest: Rest, walk: Walk) -> Result<Option<Next>, AllocError>
    requires { AreGoals rest (Some walk) }
    ensures { IfOk result (Takes (listed rest (Some walk))) }
{
    match next_in(alloc, rest.parameters, &rest.plan, walk)? {
        None => beyond(alloc, rest),
        Some(found) => {
            let taken = rest.taken;
            Ok(Some(following(rest, found, taken)))
        }
    }
}

/// A goal that was found, and what is left behind it.
fn following(rest: Rest, found: Found, taken: usize) -> Next
    requires rest { AreGoals rest None }
    requires found { CanGo rest.parameters (plan_of rest.plan) found.walk.dep }
    ensures goal { result.goal ≡ found.goal }
    ensures goals { result.goals ≡ listed (record rest { taken = taken }) (Some found.walk) }
{
    Next {
        goal: found.goal,
        goals: Goals {
            rest: Rest {
                parameters: rest.parameters,
                plan: rest.plan,
                deps: rest.deps,
                taken,
            },
            walk: Some(found.walk),
        },
    }
}

impl Goals {
    /// All goals of a plan.
    ///
    /// # Errors
    /// `AllocError` alone.
    pub fn of(alloc: Global, model: &Model, plan: PlanItems) -> Result<Goals, AllocError>
        requires suits { Suits (loops_in model.now) (plan_of plan) }
        requires up { IsUp (plan_of plan) }
        ensures { IfOk result (AreAll (goals_in model.now (plan_of plan))) }
    {
        systems_have_parts();
        let parameters = model.parameters();
        let deps = conflicts(alloc, model)?;
        let rest = Rest {
            parameters,
            plan,
            deps,
            taken: 0,
        };
        Ok(Goals { rest, walk: None })
    }

    /// The next goal, if one is left, and those behind it.
    ///
    /// # Errors
    /// `AllocError` alone.
    pub fn next(self, alloc: Global) -> Result<Option<Next>, AllocError>
        ensures { IfOk result (Takes self) }
    {
        let Goals { rest, walk } = self;
        match walk {
            None => beyond(alloc, rest),
            Some(walk) => within(alloc, rest, walk),
        }
    }
}
