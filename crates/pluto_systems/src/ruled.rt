//! A dependence with its rows by Farkas's lemma: those that keep it, and those that bound how far it goes.
ghost use Rattle.std.specs.Prelude.{◌≡◌, IfOk};
ghost use Rattle.farkas.specs.Gives.{Follows};
ghost use Rattle.pluto_systems.specs.Posing.{ruled_run, IsRuled};

use farkas::{Stuck, bounded_rows, legal_rows};
use integer_sets::System;
use iteration_domains::Dep;
use std::alloc::Global;
use std::marker::Model;

/// A dependence, the rows that keep it and the rows that bound it.
#[derive(Drop)]
pub struct Ruled {
    dep: Dep,
    legal: System,
    bounded: System,
}

impl Model for Ruled {
    ghost use Rattle.pluto_systems.specs.Posing.{RuledDep, IsRuled, ruled_dep};

    ghost Value = { RuledDep };

    ghost view = { λ x. ruled_dep x.dep x.legal x.bounded };

    ghost invariant = { λ x. IsRuled (ruled_dep x.dep x.legal x.bounded) };
}

impl Ruled {
    /// The dependence with its rows: those of legality are asked first.
    ///
    /// # Errors
    /// `Stuck` exactly where and as its rows are.
    pub fn of(alloc: Global, dep: Dep, budget: u64) -> Result<Ruled, Stuck>
        ensures dep { IfOk result (λ x. x.dep ≡ dep) }
        ensures ruled { IfOk result (λ x. IsRuled x) }
        ensures run { Follows (λ x. x) budget result (ruled_run budget dep) }
    {
        match legal_rows(alloc, &dep, budget) {
            Err(stuck) => Err(stuck),
            Ok(legal) => match bounded_rows(alloc, &dep, budget) {
                Err(stuck) => Err(stuck),
                Ok(bounded) => Ok(Ruled {
                    dep,
                    legal,
                    bounded,
                }),
            },
        }
    }

    /// The dependence.
    pub fn dep(&self) -> &Dep
        ensures { result.now ≡ self.now.dep }
    {
        &self.dep
    }

    /// The rows that keep it.
    pub fn legal(&self) -> &System
        ensures { result.now ≡ self.now.legal }
    {
        &self.legal
    }

    /// The rows that bound it.
    pub fn bounded(&self) -> &System
        ensures { result.now ≡ self.now.bounded }
    {
        &self.bounded
    }
}
