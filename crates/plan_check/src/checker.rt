//! A certificate's goals while its lines are read: those that are left, and the derivation of the open one. Contracts see
//! a `Checker` as the plain data of specs/Progress.antt.
ghost use Rattle.std.specs.Prelude.{◌≡◌, All, IfOk, Ok, length, true};
ghost use Rattle.wide_math.specs.Gives.{Gives};
ghost use Rattle.plan_check.specs.Derivations.{IsLine, fault_of, held, step_of};
ghost use Rattle.plan_check.specs.Goals.{HasNoPoint, goals_in, loops_in};
ghost use Rattle.plan_check.specs.Plans.{IsUp, Suits};
ghost use Rattle.plan_check.specs.PlanView.{plan_of};
ghost use Rattle.plan_check.specs.Progress.{CanGain, IsNext, begun_with, goal_begun, goal_run, line_added};
ghost use Rattle.plan_check.specs.Progress.{none_left, opening, with_row};

use crate::goals::Goals;
use crate::lines::{Fault, Line, LineStop, contradicts, row_of};
use crate::numbered_rows::{goal_rows, goal_variables};
use crate::plan::PlanItems;
use affine_forms::{Form, push};
use iteration_domains::{Dep, Model as KernelModel};
use std::alloc::{AllocError, Global};
use std::marker::Model;

/// The goals of a plan, how many have been begun, and the last one's rows so far.
#[derive(Drop)]
pub struct Checker {
    goals: Goals,
    begun: usize,
    variables: usize,
    rows: Vec<Form>,
    ended: bool,
}

impl Model for Checker {
    ghost use Rattle.plan_check.specs.Progress.{IsProgress, Progress};

    ghost Value = { Progress };

    ghost view = { λ c. record {
      goals = c.goals.all;
      left = c.goals.left;
      begun = c.begun;
      variables = c.variables;
      rows = c.rows.items;
      ended = c.ended;
    } };

    ghost invariant = { λ c. IsProgress (record {
      goals = c.goals.all;
      left = c.goals.left;
      begun = c.begun;
      variables = c.variables;
      rows = c.rows.items;
      ended = c.ended;
    }) };
}

impl Checker {
    /// Before the first goal of a plan.
    ///
    /// # Errors
    /// `AllocError` alone.
    pub fn of(alloc: Global, model: &KernelModel, plan: PlanItems) -> Result<Checker, AllocError>
        requires suits { Suits (loops_in model.now) (plan_of plan) }
        requires up { IsUp (plan_of plan) }
        ensures { IfOk result (λ c. c ≡ opening (goals_in model.now (plan_of plan))) }
    {
        match Goals::of(alloc, model, plan) {
            Err(error) => Err(error),
            Ok(goals) => Ok(Checker {
                goals,
                begun: 0,
                variables: 0,
                rows: Vec::new(alloc),
                ended: true,
            }),
        }
    }

    /// How many goals have been begun.
    pub fn begun(&self) -> usize
        ensures { result ≡ self.now.begun }
    {
        self.begun
    }

    /// How many rows the open goal has so far.
    pub fn row_count(&self) -> usize
        ensures { result ≡ length self.now.rows }
    {
        self.rows.len()
    }

    /// Whether the last row was a contradiction, or no goal has been begun.
    pub fn is_ended(&self) -> bool
        ensures { result ≡ self.now.ended }
    {
        self.ended
    }

    /// The line `goal G` of the next goal.
    ///
    /// # Errors
    /// `Faulty` exactly with Goal where none is left, with Wide where its rows are; or `NoMemory`.
    pub fn begin_goal(self, alloc: Global) -> Result<Checker, LineStop>
        requires { self.ended ≡ true }
        ensures { Gives fault_of (λ c. c) result (goal_begun self) }
    {
        match self.goals.next(alloc) {
            Err(_) => Err(LineStop::NoMemory),
            Ok(None) => Err(LineStop::Faulty(Fault::Goal)),
            Ok(Some(next)) => opened(alloc, next.goals, self.begun, &next.goal),
        }
    }

    /// A line of the open goal.
    ///
    /// # Errors
    /// `Faulty` exactly the line's fault, or `NoMemory`.
    pub fn add_line(self, alloc: Global, line: &Line) -> Result<Checker, LineStop>
        requires { IsLine (step_of line.now) }
        ensures { Gives fault_of (λ c. c) result (line_added self (step_of line.now)) }
    {
        match row_of(alloc, self.variables, &self.rows, line) {
            Err(stop) => {
                drop(self);
                Err(stop)
            }
            Ok(row) => self.with_row(row),
        }
    }

    /// With a row more.
    fn with_row(self, row: Form) -> Result<Checker, LineStop>
        requires { CanGain self row }
        ensures { Gives fault_of (λ c. c) result (with_row self (Ok row)) }
    {
        let ended = contradicts(&row);
        let mut rows = self.rows;
        match push(&mut rows, row) {
            Err(_) => {
                drop(self.goals);
                Err(LineStop::NoMemory)
            }
            Ok(()) => Ok(Checker {
                goals: self.goals,
                begun: self.begun,
                variables: self.variables,
                rows,
                ended,
            }),
        }
    }

    /// Whether no goal is left, behind a contradiction: then no goal has a whole point.
    ///
    /// # Errors
    /// `AllocError` alone.
    pub fn end_of_goals(self, alloc: Global) -> Result<bool, AllocError>
        requires { self.ended ≡ true }
        ensures end { IfOk result (λ b. b ≡ none_left self.left) }
        ensures points { result ≡ Ok true → All HasNoPoint self.goals }
    {
        match self.goals.next(alloc) {
            Err(error) => Err(error),
            Ok(None) => Ok(true),
            Ok(Some(next)) => {
                drop(next);
                Ok(false)
            }
        }
    }
}

/// The next goal, open with its rows.
fn opened(alloc: Global, goals: Goals, begun: usize, goal: &Dep) -> Result<Checker, LineStop>
    requires { IsNext goals.all goals.left goal.now }
    ensures { Gives fault_of (λ c. c) result
        (begun_with goals.all goals.left begun goal.now (held (goal_run goal.now))) }
{
    let Some(begun) = begun.checked_add(1) else {
        return Err(LineStop::NoMemory);
    };
    match goal_variables(goal) {
        Err(_) => Err(LineStop::NoMemory),
        Ok(variables) => match goal_rows(alloc, goal) {
            Err(stop) => Err(stop),
            Ok(rows) => Ok(Checker {
                goals,
                begun,
                variables,
                rows,
                ended: false,
            }),
        },
    }
}
