//! Callers of the sets that a loop nest scans.
ghost use Rattle.std.specs.Prelude.{◌≡◌, ◌+◌, ◌<◌, ◌≤◌, None};
ghost use Rattle.std.specs.Option.{ForSome};

use integer_sets::{ScanSet, System};

/// The set of a system has its points, by the clause of `ScanSet::of`.
pub fn set_of(statement: usize, system: System) -> ScanSet
    ensures { result.system ≡ system }
{
    ScanSet::of(statement, None, 0, 0, system)
}

/// The statement, by the clause of `ScanSet::statement`.
pub fn statement_of(set: &ScanSet) -> usize
    ensures { set.now.statement ≡ 3 → result ≡ 3 }
{
    set.statement()
}

/// No dimension may run in parallel, by `parallel` of `ScanSet::parallel`; one that may is a dimension, by `inside`.
pub fn parallel_of(set: &ScanSet) -> Option<usize>
    ensures parallel { set.now.parallel ≡ None → result ≡ None }
    ensures inside { ForSome result (λ place. place < set.now.system.dimensions) }
{
    set.parallel()
}

/// Where the iterators begin, by the clause of `ScanSet::first`.
pub fn first_of(set: &ScanSet) -> usize
    ensures { set.now.first ≡ 3 → result ≡ 3 }
{
    set.first()
}

/// How many iterators there are, by `iterators` of `ScanSet::iterators`, which are dimensions, by `inside`.
pub fn iterators_of(set: &ScanSet) -> usize
    ensures iterators { set.now.iterators ≡ 3 → result ≡ 3 }
    ensures inside { set.now.first + result ≤ set.now.system.dimensions }
{
    set.iterators()
}

/// The points, by the clause of `ScanSet::system`.
pub fn system_of<'a>(set: &'a ScanSet) -> &'a System
    ensures { result.now.rows ≡ set.now.system.rows }
{
    set.system()
}
