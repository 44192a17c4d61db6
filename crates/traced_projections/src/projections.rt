//! Projections of either kind.

ghost use Rattle.std.specs.Prelude.{◌≡◌, ◌+◌, ◌<◌, ◌^◌, IfOk};
ghost use Rattle.integer_sets.specs.Constraints.{variables_in};
ghost use Rattle.fm_projection.specs.Alone.{LeavesAlone};
ghost use Rattle.fm_projection.specs.Projecting.{Follow};
ghost use Rattle.traced_projections.specs.Projections.{DropsOf, LastFollows, LeavesOf, system_in};

use crate::alone::alone;
use crate::traced::Traced;
use fm_projection::{FmStop, last_alone, without};
use integer_sets::System;
use std::alloc::{AllocError, Global};

/// A projection: by exact eliminations, or by those that trace their rows.
#[derive(Drop)]
pub enum Projection {
    Exact(System),
    Traced(Traced),
}

impl Projection {
    /// How many dimensions a point has.
    pub fn dimensions(&self) -> usize
        ensures { result ≡ (system_in self.now).dimensions }
    {
        match self {
            Projection::Exact(system) => system.dimensions(),
            Projection::Traced(traced) => traced.dimensions(),
        }
    }

    /// Its constraints.
    ///
    /// # Errors
    /// `AllocError` alone.
    pub fn system(&self, alloc: Global) -> Result<System, AllocError>
        ensures { IfOk result (λ s. s ≡ system_in self.now) }
    {
        match self {
            Projection::Exact(system) => System::of(
                alloc,
                system.dimensions(),
                system.parameters(),
                system.equalities(),
                system.rows(),
            ),
            Projection::Traced(traced) => traced.system(alloc),
        }
    }

    /// The projection without a dimension.
    ///
    /// # Errors
    /// `Wide` or `Crowded` exactly as the elimination of this kind stops.
    pub fn without(&self, alloc: Global, dimension: usize) -> Result<Projection, FmStop>
        requires { dimension < (system_in self.now).dimensions }
        ensures run { DropsOf dimension self.now result }
        ensures points { IfOk result (λ p. Follow dimension (system_in self.now) (system_in p)) }
    {
        match self {
            Projection::Exact(system) => match without(alloc, system, dimension) {
                Err(stop) => Err(stop),
                Ok(left) => Ok(Projection::Exact(left)),
            },
            Projection::Traced(traced) => match traced.without(alloc, dimension) {
                Err(stop) => Err(stop),
                Ok(left) => Ok(Projection::Traced(left)),
            },
        }
    }

    /// What is left of the last dimension alone, for parameters in 0..=65536: a system of one dimension.
    ///
    /// # Errors
    /// `Wide` or `Crowded` exactly as the first elimination of this kind that stops: the other dimensions go from the
    /// first on, and then the parameters.
    pub fn alone(&self, alloc: Global) -> Result<System, FmStop>
        requires some { 0 < (system_in self.now).dimensions }
        requires few { variables_in (system_in self.now) < 2 ^ 32 }
        ensures run { LeavesOf self.now result }
        ensures points { IfOk result (LastFollows (system_in self.now)) }
    {
        match self {
            Projection::Exact(system) => exact_alone(alloc, system),
            Projection::Traced(traced) => alone(alloc, traced),
        }
    }
}

/// What is left of the last dimension alone by exact eliminations.
fn exact_alone(alloc: Global, system: &System) -> Result<System, FmStop>
    requires some { 0 < system.now.dimensions }
    requires few { variables_in system.now < 2 ^ 32 }
    ensures run { LeavesAlone system.now result }
    ensures points { IfOk result (LastFollows system.now) }
{
    match System::of(
        alloc,
        system.dimensions(),
        system.parameters(),
        system.equalities(),
        system.rows(),
    ) {
        Err(_) => Err(FmStop::NoMemory),
        Ok(copy) => last_alone(alloc, &copy),
    }
}
