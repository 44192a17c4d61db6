//! The rows of a dependence by Farkas's lemma (A. Schrijver, Theory of Linear and Integer Programming, 1986, corollary
//! 7.1h; P. Feautrier, Some efficient solutions to the affine scheduling problem, part I, 1992): which coefficients and
//! shifts of the statements' schedule rows keep a dependence, and which bound how far it goes (U. Bondhugula and
//! others, A practical automatic polyhedral parallelizer and locality optimizer, 2008).
#![tactic(auto)]

ghost use Rattle.std.specs.Prelude.{◌≡◌, ◌≤◌, ℕ, ◌+◌, IfOk};
ghost use Rattle.std.specs.Option.{ForSome};
ghost use Rattle.integer_sets.specs.Constraints.{IsSized, variables_in};
ghost use Rattle.farkas.specs.Matching.{multipliers_of};
ghost use Rattle.farkas.specs.Run.{posed_run, rows_run};
ghost use Rattle.iteration_domains.specs.Dependence.{IsOne};
ghost use Rattle.farkas.specs.Unknowns.{layout_of};
ghost use Rattle.farkas.specs.Gives.{Follows};
ghost use Rattle.farkas.specs.Meaning.{IsFarkas, Keeps, Bounds};
ghost use Rattle.farkas.specs.declared.claim.Claim.TheVariants.{Legality, Bounding};

mod claim;
mod dropping;
mod elimination;
mod laws;
mod layout;
mod matching;
mod stuck;

use crate::claim::Claim;
use crate::elimination::without_multipliers;
use crate::matching::{last_rows, matching};
use crate::stuck::by_form;
use integer_sets::System;
use iteration_domains::{Dep, DepEnd};
pub use laws::{
    claimed_forms_are_distances, rows_speak_of_the_layout, unknowns_stand_by_the_layout,
};
pub use layout::{Layout, lay_out};
use std::alloc::Global;
pub use stuck::Stuck;

/// How many columns stand behind the unknowns: `m0`, and a multiplier for each row, two for an equality.
fn multipliers(system: &System) -> Option<usize>
    ensures count { ForSome result (λ k. k ≡ multipliers_of system.now) }
    ensures sized { IsSized (variables_in system.now) system.now.equalities system.now.rows }
{
    let (equalities, rows) = (system.equalities().len(), system.rows().len());
    equalities.checked_mul(2)?.checked_add(rows)?.checked_add(1)
}

/// How many variables a system speaks of.
fn variables(system: &System) -> Option<usize>
    ensures { ForSome result (λ n. n ≡ variables_in system.now) }
{
    system.dimensions().checked_add(system.parameters())
}

/// The unknowns, `m0` and the multipliers, none negative, with the matching of coefficients.
fn posed(
    alloc: Global,
    claim: Claim,
    source: DepEnd,
    target: DepEnd,
    system: &System,
    layout: Layout,
) -> Result<System, Stuck>
    requires layout { layout ≡ layout_of system.now.parameters source target }
    requires iterators { source.loops + target.loops ≤ system.now.dimensions }
    requires one { IsOne source target }
    ensures run { (budget : ℕ) → Follows (λ s. s) budget result (posed_run claim source target system.now) }
    ensures sized { IfOk result (λ _. IsSized (variables_in system.now) system.now.equalities system.now.rows) }
{
    // A place among the variables is a number.
    let _variables = match variables(system) {
        None => return Err(Stuck::NoMemory),
        Some(variables) => variables,
    };
    let count = match multipliers(system) {
        None => return Err(Stuck::NoMemory),
        Some(count) => count,
    };
    let all = match layout.unknowns.checked_add(count) {
        None => return Err(Stuck::NoMemory),
        Some(all) => all,
    };
    let equalities = match matching(alloc, claim, source, target, layout, system) {
        Err(stop) => return Err(by_form(stop)),
        Ok(equalities) => equalities,
    };
    match last_rows(alloc, layout.unknowns, count) {
        Err(stop) => Err(by_form(stop)),
        Ok(rows) => Ok(System::from_parts(all, 0, equalities, rows)),
    }
}

/// The rows of a claim.
fn rows_of(
    alloc: Global,
    claim: Claim,
    source: DepEnd,
    target: DepEnd,
    system: &System,
    budget: u64,
) -> Result<System, Stuck>
    requires iterators { source.loops + target.loops ≤ system.now.dimensions }
    requires one { IsOne source target }
    ensures run { Follows (λ s. s) budget result (rows_run budget claim source target system.now) }
    ensures farkas { IfOk result (IsFarkas claim source target system.now) }
{
    let layout = match lay_out(system.parameters(), source, target) {
        None => return Err(Stuck::NoMemory),
        Some(layout) => layout,
    };
    match posed(alloc, claim, source, target, system, layout) {
        Err(stuck) => Err(stuck),
        Ok(posed) => without_multipliers(alloc, posed, layout.unknowns, budget),
    }
}

/// Which coefficients and shifts keep a dependence: at each of its points the target's row is not below the source's.
/// Rows that the others imply are dropped behind each elimination.
///
/// # Errors
/// `Stuck` exactly where and as an elimination or a question of this dependence stops; each question has the whole
/// budget.
pub fn legal_rows(alloc: Global, dependence: &Dep, budget: u64) -> Result<System, Stuck>
    ensures run { Follows (λ s. s) budget result
        (rows_run budget Legality dependence.now.source dependence.now.target dependence.now.system) }
    ensures farkas { IfOk result
        (IsFarkas Legality dependence.now.source dependence.now.target dependence.now.system) }
    ensures keeps { IfOk result (Keeps dependence.now.source dependence.now.target dependence.now.system) }
{
    rows_of(
        alloc,
        Claim::Legality,
        dependence.source,
        dependence.target,
        &dependence.system,
        budget,
    )
}

/// Which `u`, `w`, coefficients and shifts bound how far a dependence goes: at each of its points the target's row is
/// at most `u.n + w` above the source's. Rows that the others imply are dropped behind each elimination.
///
/// # Errors
/// `Stuck` exactly where and as an elimination or a question of this dependence stops; each question has the whole
/// budget.
pub fn bounded_rows(alloc: Global, dependence: &Dep, budget: u64) -> Result<System, Stuck>
    ensures run { Follows (λ s. s) budget result
        (rows_run budget Bounding dependence.now.source dependence.now.target dependence.now.system) }
    ensures farkas { IfOk result
        (IsFarkas Bounding dependence.now.source dependence.now.target dependence.now.system) }
    ensures bounds { IfOk result (Bounds dependence.now.source dependence.now.target dependence.now.system) }
{
    rows_of(
        alloc,
        Claim::Bounding,
        dependence.source,
        dependence.target,
        &dependence.system,
        budget,
    )
}
