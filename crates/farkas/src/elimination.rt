//! The multipliers are eliminated one after another.

ghost use Rattle.std.specs.Prelude.{◌≡◌, ℕ, ◌<◌, ◌≤◌, ◌-◌};
ghost use Rattle.farkas.specs.Run.{narrowing, left_run};
ghost use Rattle.farkas.specs.Gives.{Follows};

use crate::dropping::without_implied;
use crate::stuck::{Stuck, by_elimination};
use fm_projection::{eliminate, without_column};
use integer_sets::System;
use std::alloc::Global;

/// The system without a variable and its column.
fn eliminated(alloc: Global, system: &System, variable: usize) -> Result<System, Stuck>
    requires inside { variable < system.now.dimensions }
    requires flat { system.now.parameters ≡ 0 }
    ensures { (budget : ℕ)
        → Follows (λ s. s) budget result (narrowing (system.now.dimensions - 1) variable system.now) }
{
    match eliminate(alloc, system, variable) {
        Err(stop) => Err(by_elimination(stop)),
        Ok(left) => match without_column(alloc, &left, variable) {
            Err(_) => Err(Stuck::NoMemory),
            Ok(narrow) => Ok(narrow),
        },
    }
}

/// Eliminates the variables behind the unknowns, from the first on. Behind each elimination the rows that the others
/// imply are dropped, but none of the own rows of variables that are left.
pub fn without_multipliers(
    alloc: Global,
    system: System,
    unknowns: usize,
    budget: u64,
) -> Result<System, Stuck>
    requires inside { unknowns ≤ system.dimensions }
    requires flat { system.parameters ≡ 0 }
    ensures { Follows (λ s. s) budget result (left_run budget unknowns (system.dimensions - unknowns) system) }
{
    let mut system = system;
    while system.dimensions() > unknowns {
        match eliminated(alloc, &system, unknowns) {
            Err(stuck) => return Err(stuck),
            Ok(next) => {
                let own = next.dimensions() - unknowns;
                match without_implied(alloc, next, own, budget) {
                    Err(stuck) => return Err(stuck),
                    Ok(kept) => system = kept,
                }
            }
        }
    }
    Ok(system)
}
