//! A dependence with a row of a plan: where it falls, rises or stays equal; and at parameters of at most 65536.
ghost use Rattle.std.specs.Prelude.{◌≡◌, ◌+◌, IfOk};
ghost use Rattle.whole_numbers.specs.Affine.{complement};
ghost use Rattle.iteration_domains.specs.Restrictions.{equality_behind, row_behind};
ghost use Rattle.plan_check.specs.Goals.{above, bounded, difference};
ghost use Rattle.plan_check.specs.steps.Walks.{FitsRow};

use crate::differences::{at_least_one, at_most_minus_one, difference};
use crate::numbered_rows::goal_variables;
use affine_forms::Form;
use iteration_domains::{Dep, term_form};
use scop_syntax::MOST_PARAMETER_VALUE;
use std::alloc::{AllocError, Global};

const MOST: i128 = MOST_PARAMETER_VALUE as i128;

/// Where the row falls.
pub fn falling(
    alloc: Global,
    parameters: usize,
    dep: &Dep,
    forms: &[Form],
) -> Result<Dep, AllocError>
    requires { FitsRow parameters dep.now forms.now }
    ensures { IfOk result (λ d. d ≡ row_behind dep.now (complement (difference parameters dep.now forms.now))) }
{
    let source = &forms[dep.source.statement];
    let target = &forms[dep.target.statement];
    let row = at_most_minus_one(alloc, parameters, source, target)?;
    dep.with_row(alloc, row)
}

/// Where the row rises.
pub fn rising(
    alloc: Global,
    parameters: usize,
    dep: &Dep,
    forms: &[Form],
) -> Result<Dep, AllocError>
    requires { FitsRow parameters dep.now forms.now }
    ensures { IfOk result (λ d. d ≡ row_behind dep.now (above (difference parameters dep.now forms.now))) }
{
    let source = &forms[dep.source.statement];
    let target = &forms[dep.target.statement];
    let row = at_least_one(alloc, parameters, source, target)?;
    dep.with_row(alloc, row)
}

/// Where it stays equal.
pub fn equal(alloc: Global, parameters: usize, dep: &Dep, forms: &[Form]) -> Result<Dep, AllocError>
    requires { FitsRow parameters dep.now forms.now }
    ensures { IfOk result (λ d. d ≡ equality_behind dep.now (difference parameters dep.now forms.now)) }
{
    let source = &forms[dep.source.statement];
    let target = &forms[dep.target.statement];
    let row = difference(alloc, parameters, source, target)?;
    dep.with_equality(alloc, row)
}

/// At parameters of at most 65536.
pub fn bounded(alloc: Global, parameters: usize, dep: &Dep) -> Result<Dep, AllocError>
    requires { dep.now.system.parameters ≡ parameters }
    ensures { IfOk result (λ d. d ≡ bounded parameters dep.now) }
{
    let first = dep.system.dimensions();
    let variables = goal_variables(dep)?;
    let mut whole = dep.copy(alloc)?;
    for step in 0..parameters {
        let row = term_form(alloc, variables, first + step, -1, MOST)?;
        whole = whole.with_row(alloc, row)?;
    }
    Ok(whole)
}
