//! Pairs of tiles in compressed rows.
ghost use Rattle.std.specs.Prelude.{◌≡◌, ◌+◌, ◌++◌, ◌<◌, ℕ, IfOk, OnOk, get_or, length, nat_eq, slice_set};
ghost use Rattle.scop_syntax.specs.Members.{In};
ghost use Rattle.tile_events.specs.Plan.{count_of};
ghost use Rattle.tile_edges.specs.steps.Rows.{AreRowsOf, joined, rows_in};

use crate::pairing::Pairs;
use crate::waiting::TileEdges;
use std::alloc::{AllocError, Global};
use std::collections::BTreeSet;

/// Puts the numbers of a set behind others.
fn put_row(row: &BTreeSet<usize>, targets: &mut Vec<usize>) -> Result<(), AllocError>
    ensures { OnOk result (targets.new.items ≡ targets.old.items ++ row.now.keys) }
{
    for key in row {
        targets.push(*key)?;
    }
    Ok(())
}

/// One more there, where a word has room for it.
fn count_one(counts: &mut Vec<u64>, at: usize) -> Result<(), AllocError>
    requires { at < length counts.old.items }
    ensures { OnOk result (counts.new.items ≡ slice_set counts.old.items at (get_or counts.old.items at 0 + 1)) }
{
    match counts[at].checked_add(1) {
        None => Err(AllocError),
        Some(count) => {
            counts[at] = count;
            Ok(())
        }
    }
}

/// How often each tile is a target.
fn needs_of(alloc: Global, targets: &[usize], tiles: usize) -> Result<Vec<u64>, AllocError>
    requires { (u : ℕ) → In u targets.now → u < tiles }
    ensures long { IfOk result (λ needs. length needs.items ≡ tiles) }
    ensures needs { IfOk result (λ needs. (u : ℕ) → u < tiles
        → get_or needs.items u 0 ≡ count_of (λ i. nat_eq (get_or targets.now i 0) u) (length targets.now)) }
{
    let mut needs = Vec::from_elem(alloc, 0u64, tiles)?;
    for at in 0..targets.len() {
        count_one(&mut needs, targets[at])?;
    }
    Ok(needs)
}

/// The pairs, row by row.
pub(crate) fn rows_of(alloc: Global, pairs: &Pairs) -> Result<TileEdges, AllocError>
    requires { (u : ℕ) → In u (joined (rows_in pairs.now)) → u < length pairs.now.rows.items }
    ensures { IfOk result (AreRowsOf (rows_in pairs.now)) }
{
    let mut starts = Vec::new(alloc);
    let mut targets = Vec::new(alloc);
    for row in &pairs.rows {
        starts.push(targets.len())?;
        put_row(row, &mut targets)?;
    }
    starts.push(targets.len())?;
    let needs = needs_of(alloc, targets.as_slice(), pairs.rows.len())?;
    Ok(TileEdges {
        starts,
        targets,
        needs,
    })
}
