//! Pairs of tiles: for each tile the set of those that wait for it.
ghost use Rattle.std.specs.Prelude.{◌≡◌, ◌+◌, ◌<◌, ◌∷◌, ℕ, [], IfOk, OnOk, length, if◌then◌else◌};
ghost use Rattle.std.specs.BTreeSet.{insert_key};
ghost use Rattle.std.specs.Ordering.{nat_cmp};
ghost use Rattle.scop_syntax.specs.Members.{In};
ghost use Rattle.tile_edges.specs.steps.Gains.{Gains};
ghost use Rattle.tile_edges.specs.steps.Rows.{AreKept, joined, rows_in};
ghost use Rattle.tile_edges.specs.steps.Traces.{marked};

use std::alloc::{AllocError, Global};
use std::collections::BTreeSet;

/// The tiles that wait for each tile, how many pairs these are, and the one of them that was told last, which is often
/// told once more.
#[derive(Drop)]
pub struct Pairs {
    pub rows: Vec<BTreeSet<usize>>,
    pub count: usize,
    pub told: Vec<usize>,
}

/// A set without numbers.
fn no_tiles(alloc: Global) -> BTreeSet<usize>
    ensures { result.keys ≡ [] }
{
    BTreeSet::new(alloc)
}

/// Puts a number into a set: how many more it has.
fn put(set: &mut BTreeSet<usize>, number: usize) -> Result<usize, AllocError>
    ensures keys { OnOk result (set.new.keys ≡ insert_key nat_cmp set.old.keys number) }
    ensures count { IfOk result (λ more. length set.new.keys ≡ length set.old.keys + more) }
{
    match set.insert(number) {
        Err(_) => Err(AllocError),
        Ok(false) => Ok(0),
        Ok(true) => Ok(1),
    }
}

/// Their sum, where a word has room for it.
fn sum(number: usize, more: usize) -> Result<usize, AllocError>
    ensures { IfOk result (λ sum. sum ≡ number + more) }
{
    match number.checked_add(more) {
        None => Err(AllocError),
        Some(sum) => Ok(sum),
    }
}

impl Pairs {
    /// No pairs of so many tiles.
    pub fn none(alloc: Global, tiles: usize) -> Result<Pairs, AllocError>
        ensures long { IfOk result (λ pairs. length pairs.rows.items ≡ tiles) }
        ensures none { IfOk result (λ pairs. joined (rows_in pairs) ≡ []) }
        ensures kept { IfOk result AreKept }
    {
        let mut rows = Vec::new(alloc);
        let mut told = Vec::new(alloc);
        for tile in 0..tiles {
            rows.push(no_tiles(alloc))?;
            told.push(tile)?;
        }
        let count = 0;
        Ok(Pairs { rows, count, told })
    }

    /// The second tile waits for the first, where these are two.
    fn add(&mut self, first: usize, second: usize) -> Result<(), AllocError>
        requires first { first < length self.old.rows.items }
        requires kept { AreKept self.old }
        ensures gains { OnOk result (Gains (first ∷ []) second (rows_in self.old) (rows_in self.new)) }
        ensures kept { OnOk result (AreKept self.new) }
    {
        if first == second {
            return Ok(());
        }
        if self.told[first] == second {
            return Ok(());
        }
        let more = put(&mut self.rows[first], second)?;
        self.count = sum(self.count, more)?;
        self.told[first] = second;
        Ok(())
    }

    /// The second tile waits for the one that a mark stands for, if it stands for one.
    pub fn add_marked(&mut self, mark: usize, second: usize) -> Result<(), AllocError>
        requires first { (t : ℕ) → In t (marked mark) → t < length self.old.rows.items }
        requires kept { AreKept self.old }
        ensures gains { OnOk result (Gains (marked mark) second (rows_in self.old) (rows_in self.new)) }
        ensures kept { OnOk result (AreKept self.new) }
    {
        if mark == 0 {
            return Ok(());
        }
        self.add(mark - 1, second)?;
        Ok(())
    }

    /// The second tile waits for each of the first ones, but not for itself.
    pub fn add_all(&mut self, firsts: &[usize], second: usize) -> Result<(), AllocError>
        requires firsts { (t : ℕ) → In t firsts.now → t < length self.old.rows.items }
        requires kept { AreKept self.old }
        ensures gains { OnOk result (Gains firsts.now second (rows_in self.old) (rows_in self.new)) }
        ensures kept { OnOk result (AreKept self.new) }
    {
        for first in firsts {
            self.add(*first, second)?;
        }
        Ok(())
    }
}
