//! A set that a loop nest scans: the whole points of a system, for one statement.

ghost use Rattle.std.specs.Prelude.{◌≡◌, ◌+◌, ◌<◌, ◌≤◌};
ghost use Rattle.std.specs.Option.{ForSome};
ghost use Rattle.integer_sets.specs.Scanned.{scanned};

use crate::system::System;
use std::marker::Model;

/// The points at which a statement's instances stand, and the dimension, if there is one, whose
/// loop may run in parallel. The statement's iterators are dimensions one behind another; what
/// stands behind them is 0, so that the sets of several statements have as many dimensions.
#[derive(Drop)]
pub struct ScanSet {
    statement: usize,
    parallel: Option<usize>,
    first: usize,
    iterators: usize,
    system: System,
}

impl Model for ScanSet {
    ghost use Rattle.std.specs.Prelude.{◌+◌, ◌<◌, ◌≤◌};
    ghost use Rattle.std.specs.Option.{ForSome};
    ghost use Rattle.integer_sets.specs.Scanned.{Scanned, scanned};

    ghost Value = { Scanned };

    ghost view = { λ s. scanned s.statement s.parallel s.first s.iterators s.system };

    ghost invariant = { λ s. ForSome s.parallel (λ place. place < s.system.dimensions)
        × (s.first + s.iterators ≤ s.system.dimensions) };
}

impl ScanSet {
    /// The points of a system for the statement of this number, whose iterators are so many
    /// dimensions from `first` on.
    pub fn of(
        statement: usize,
        parallel: Option<usize>,
        first: usize,
        iterators: usize,
        system: System,
    ) -> ScanSet
        requires parallel { ForSome parallel (λ place. place < system.dimensions) }
        requires iterators { first + iterators ≤ system.dimensions }
        ensures { result ≡ scanned statement parallel first iterators system }
    {
        ScanSet {
            statement,
            parallel,
            first,
            iterators,
            system,
        }
    }

    /// The statement's number.
    pub fn statement(&self) -> usize
        ensures { result ≡ self.now.statement }
    {
        self.statement
    }

    /// The dimension whose loop may run in parallel.
    pub fn parallel(&self) -> Option<usize>
        ensures parallel { result ≡ self.now.parallel }
        ensures inside { ForSome result (λ place. place < self.now.system.dimensions) }
    {
        self.parallel
    }

    /// The dimension of the statement's first iterator.
    pub fn first(&self) -> usize
        ensures { result ≡ self.now.first }
    {
        self.first
    }

    /// How many iterators the statement has.
    pub fn iterators(&self) -> usize
        ensures iterators { result ≡ self.now.iterators }
        ensures inside { self.now.first + result ≤ self.now.system.dimensions }
    {
        self.iterators
    }

    /// The points.
    pub fn system(&self) -> &System
        ensures { result.now ≡ self.now.system }
    {
        &self.system
    }
}
