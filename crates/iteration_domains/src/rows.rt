//! The rows of a statement and the forms of its point, from what stands round it, from the outside inwards.
ghost use Rattle.std.specs.Prelude.{◌≡◌, ◌+◌, ◌<◌, ◌≤◌, ◌^◌, ◌∷◌, [], All, IfOk, OnOk, length, map};
ghost use Rattle.integer_sets.specs.Parts.{variables_of};
ghost use Rattle.scop_syntax.specs.Kernel.{IsHead, test_form};
ghost use Rattle.scop_syntax.specs.Statements.{round, under};
ghost use Rattle.scop_syntax.specs.View.{test_of};
ghost use Rattle.iteration_domains.specs.Path.{gathered_of, scope_of, scopes_of, shown};
ghost use Rattle.iteration_domains.specs.Rows.{composed_test, iterator, variable};
ghost use Rattle.iteration_domains.specs.Sizes.{CanCompose, forms_size};
ghost use Rattle.iteration_domains.specs.Standing.{CanEnter, entered, finished, starting, with_tests};

use crate::forms::{compose, plus_multiple, push_composed, push_variables, variable_form};
use integer_sets::{Form, push};
use scop_syntax::{Guard, Loop, Test};
use std::alloc::{AllocError, Global};

/// A loop or a guard round a statement.
#[derive(Drop)]
pub enum Scope<'a> {
    Round(&'a Loop),
    Under(&'a Guard),
}

/// The rows so far, over so many variables: `loops` loops and their guards have been gone through, and `forms` are the
/// forms of the point within them.
#[derive(Drop)]
pub struct StatementRows {
    pub variables: usize,
    pub loops: usize,
    pub forms: Vec<Form>,
    pub equalities: Vec<Form>,
    pub rows: Vec<Form>,
}

/// Before anything has been gone through: the parameters stand behind the turns of the loops.
fn start(alloc: Global, parameters: usize, loops: usize) -> Result<StatementRows, AllocError>
    requires { loops + parameters ≤ 9 }
    ensures { IfOk result (λ s. shown s ≡ starting parameters loops) }
{
    let variables = loops + parameters;
    let mut forms = Vec::new(alloc);
    push_variables(alloc, &mut forms, variables, loops, parameters)?;
    Ok(StatementRows {
        variables,
        loops: 0,
        forms,
        equalities: Vec::new(alloc),
        rows: Vec::new(alloc),
    })
}

/// The iterator of a loop whose turn is the variable `at`.
fn iterator_form(
    alloc: Global,
    head: &Loop,
    forms: &[Form],
    at: usize,
    variables: usize,
) -> Result<Form, AllocError>
    requires head { IsHead (length forms.now) head.now }
    requires sized { All (λ f. variables_of f ≡ variables) forms.now }
    requires at { at < variables }
    requires small { forms_size forms.now ≤ 2 ^ 60 }
    ensures { IfOk result (λ f. f ≡ iterator variables at head.now forms.now) }
{
    let first = compose(alloc, &head.first, forms, variables)?;
    let turn = variable_form(alloc, variables, at)?;
    plus_multiple(&first, head.stride as i128, &turn)
}

impl StatementRows {
    /// Goes through a loop: its turn is not negative, and its condition holds.
    fn enter_loop(&mut self, alloc: Global, head: &Loop) -> Result<(), AllocError>
        requires head { IsHead (length self.old.forms.items) head.now }
        requires sized { All (λ f. variables_of f ≡ self.old.variables) self.old.forms.items }
        requires small { forms_size self.old.forms.items ≤ 2 ^ 50 }
        requires loops { self.old.loops < self.old.variables }
        ensures { OnOk result (shown self.new ≡ entered (shown self.old) (round head.now)) }
    {
        let at = self.loops;
        let variables = self.variables;
        push_variables(alloc, &mut self.rows, variables, at, 1)?;
        let iterator = iterator_form(alloc, head, self.forms.as_slice(), at, variables)?;
        push(&mut self.forms, iterator)?;
        push_composed(
            alloc,
            &mut self.rows,
            &head.condition,
            self.forms.as_slice(),
            variables,
        )?;
        self.loops = at + 1;
        Ok(())
    }

    /// Appends a comparison.
    fn push_test(&mut self, alloc: Global, test: &Test) -> Result<(), AllocError>
        requires { CanCompose self.old.variables self.old.forms.items (test_form (test_of test.now)) }
        ensures { OnOk result (shown self.new
            ≡ with_tests (shown self.old)
            (composed_test self.old.variables self.old.forms.items (test_of test.now) ∷ [])) }
    {
        let forms = self.forms.as_slice();
        match test {
            Test::AtLeast(row) => push_composed(alloc, &mut self.rows, row, forms, self.variables),
            Test::Equal(row) => {
                push_composed(alloc, &mut self.equalities, row, forms, self.variables)
            }
        }
    }

    /// Goes through a guard: its comparisons hold.
    fn enter_guard(&mut self, alloc: Global, tests: &[Test]) -> Result<(), AllocError>
        requires tests { All (λ test. CanCompose self.old.variables self.old.forms.items (test_form (test_of test)))
            tests.now }
        ensures { OnOk result (shown self.new ≡ entered (shown self.old) (under (map test_of tests.now))) }
    {
        for test in tests {
            self.push_test(alloc, test)?;
        }
        Ok(())
    }

    /// Goes through a loop or a guard.
    fn enter(&mut self, alloc: Global, scope: &Scope) -> Result<(), AllocError>
        requires { CanEnter (shown self.old) (scopes_of (scope.now ∷ [])) }
        ensures { OnOk result (shown self.new ≡ entered (shown self.old) (scope_of scope.now)) }
    {
        match scope {
            Scope::Round(head) => self.enter_loop(alloc, head),
            Scope::Under(guard) => self.enter_guard(alloc, guard.tests.as_slice()),
        }
    }
}

/// The rows within `path`, over the turns of its loops and the parameters.
pub fn rows_within(
    alloc: Global,
    path: &[Scope],
    parameters: usize,
    loops: usize,
) -> Result<StatementRows, AllocError>
    requires path { CanEnter (starting parameters loops) (scopes_of path.now) }
    requires few { loops + parameters ≤ 9 }
    ensures { IfOk result (λ s. gathered_of s ≡ finished (starting parameters loops) (scopes_of path.now)) }
{
    let mut rows = start(alloc, parameters, loops)?;
    for scope in path {
        rows.enter(alloc, scope)?;
    }
    Ok(rows)
}
