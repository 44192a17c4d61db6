//! A dependence between two accesses: an ordered pair of them with a system over the turns of both instances, quotients
//! that are bound behind them, and the parameters.
ghost use Rattle.std.specs.Prelude.{◌≡◌, ℤ, pos, ◌≤ℤ◌, List, ◌++◌, ◌∷◌, [], ◌↔◌, IfOk};
ghost use Rattle.whole_numbers.specs.Affine.{value_of};
ghost use Rattle.integer_sets.specs.Parts.{variables_of};
ghost use Rattle.integer_sets.specs.Constraints.{system_of, variables_in};
ghost use Rattle.integer_sets.specs.Points.{Satisfies};
ghost use Rattle.iteration_domains.specs.Dependence.{dependence};
ghost use Rattle.iteration_domains.specs.Restrictions.{equality_behind, row_behind};

use integer_sets::{Form, System, push};
use std::alloc::{AllocError, Global};
use std::marker::Model;

/// One end of a dependence: a statement's number from 0, how many loops stand round it, and which of its accesses.
#[derive(Clone, Copy)]
pub struct DepEnd {
    pub statement: usize,
    pub loops: usize,
    pub access: usize,
}

/// A dependence: its source runs before its target. `depth` is the loop, counted from 1 from the outermost, in whose
/// turns they differ first; where no turn of their common loops differs it is 1 more than these.
/// The system's dimensions are the source's turns, then the target's, then quotients that are bound by its rows; one
/// statement has one number of loops.
#[derive(Drop)]
pub struct Dep {
    pub source: DepEnd,
    pub target: DepEnd,
    pub depth: usize,
    pub system: System,
}

impl Model for Dep {
    ghost use Rattle.iteration_domains.specs.Dependence.{Dependence, IsDependence, dependence};

    ghost Value = { Dependence };

    ghost view = { λ d. dependence d.source d.target d.depth d.system };

    ghost invariant = { λ d. IsDependence (dependence d.source d.target d.depth d.system) };
}

impl Dep {
    /// The dependence over another system with as many dimensions.
    fn over(&self, system: System) -> Dep
        requires { system.dimensions ≡ self.now.system.dimensions }
        ensures { result ≡ dependence self.now.source self.now.target self.now.depth system }
    {
        Dep {
            source: self.source,
            target: self.target,
            depth: self.depth,
            system,
        }
    }

    /// A copy of the dependence.
    ///
    /// # Errors
    /// `AllocError` alone.
    pub fn copy(&self, alloc: Global) -> Result<Dep, AllocError>
        ensures { IfOk result (λ d. d ≡ self.now) }
    {
        let system = copied(alloc, &self.system)?;
        Ok(self.over(system))
    }

    /// The dependence at the points at which a form is 0 too: with an equality behind those that stand.
    ///
    /// # Errors
    /// `AllocError` alone.
    pub fn with_equality(&self, alloc: Global, form: Form) -> Result<Dep, AllocError>
        requires { variables_of form ≡ variables_in self.now.system }
        ensures dependence { IfOk result (λ d. d ≡ equality_behind self.now form) }
        ensures points { IfOk result (λ d. (point : List ℤ) → Satisfies d.system point
            ↔ (Satisfies self.now.system point × (value_of form point ≡ pos 0))) }
    {
        let system = with_equality(alloc, &self.system, form)?;
        Ok(self.over(system))
    }

    /// The dependence at the points at which a form is not negative too: with a row behind those that stand.
    ///
    /// # Errors
    /// `AllocError` alone.
    pub fn with_row(&self, alloc: Global, form: Form) -> Result<Dep, AllocError>
        requires { variables_of form ≡ variables_in self.now.system }
        ensures dependence { IfOk result (λ d. d ≡ row_behind self.now form) }
        ensures points { IfOk result (λ d. (point : List ℤ) → Satisfies d.system point
            ↔ (Satisfies self.now.system point × (pos 0 ≤ℤ value_of form point))) }
    {
        let system = with_row(alloc, &self.system, form)?;
        Ok(self.over(system))
    }
}

/// A copy of a system.
fn copied(alloc: Global, system: &System) -> Result<System, AllocError>
    ensures { IfOk result (λ s. s ≡ system.now) }
{
    System::of(
        alloc,
        system.dimensions(),
        system.parameters(),
        system.equalities(),
        system.rows(),
    )
}

/// A copy of a system, with an equality more.
fn with_equality(alloc: Global, system: &System, form: Form) -> Result<System, AllocError>
    requires { variables_of form ≡ variables_in system.now }
    ensures { IfOk result (λ s. s ≡ system_of system.now.dimensions system.now.parameters
        (system.now.equalities ++ form ∷ []) system.now.rows) }
{
    let (mut equalities, rows) = copied(alloc, system)?.into_parts();
    push(&mut equalities, form)?;
    Ok(System::from_parts(system.dimensions(), system.parameters(), equalities, rows))
}

/// A copy of a system, with a row more.
pub fn with_row(alloc: Global, system: &System, form: Form) -> Result<System, AllocError>
    requires { variables_of form ≡ variables_in system.now }
    ensures { IfOk result (λ s. s ≡ system_of system.now.dimensions system.now.parameters
        system.now.equalities (system.now.rows ++ form ∷ [])) }
{
    let (equalities, mut rows) = copied(alloc, system)?.into_parts();
    push(&mut rows, form)?;
    Ok(System::from_parts(system.dimensions(), system.parameters(), equalities, rows))
}
