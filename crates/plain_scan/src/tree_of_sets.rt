//! The tree of sets: the hull of all, dimension by dimension.

ghost use Rattle.std.specs.Prelude.{◌≡◌, [], IfErr, IfOk, MatchOption};
ghost use Rattle.loop_tree.specs.View.{trees_in};
ghost use Rattle.plain_scan.specs.Sets.{NumbersRise};
ghost use Rattle.plain_scan.specs.Hulls.{sets_in};
ghost use Rattle.plain_scan.specs.Leaving.{LeavesOut};
ghost use Rattle.plain_scan.specs.Outlined.{AreOutlined};
ghost use Rattle.plain_scan.specs.steps.Nodes.{AreNodesOf};
ghost use Rattle.plain_scan.specs.Scanning.{AreScanned, IsScan, StopsScan, dimensions_of, mark_of, parameters_of};

use crate::bounds::{leaves, loop_round};
use crate::hull::hull;
use crate::outline::outline_of;
use crate::outlined_sets::Outlines;
use crate::set_outline::Outline;
use fm_projection::FmStop;
use integer_sets::ScanSet;
use loop_tree::Tree;
use std::alloc::{AllocError, Global};

/// The tree of the hull of sets: one loop a dimension, each statement under all constraints of its set.
fn scan_outlines(alloc: Global, all: &Outlines) -> Result<Tree, AllocError>
    requires { NumbersRise (sets_in all.now.outlines.items) }
    ensures { IfOk result (λ t. AreNodesOf all.now (trees_in t)) }
{
    let mut nodes = leaves(alloc, &all.outlines)?;
    for depth in 0..all.dimensions {
        let place = all.dimensions - 1 - depth;
        let rows = hull(
            alloc,
            &all.outlines,
            depth,
            place,
            place + 1 + all.parameters,
        )?;
        nodes = loop_round(alloc, &rows, place, all.parallel == Some(place), nodes)?;
    }
    Ok(Tree { nodes })
}

/// The outlines of sets, without the sets that have no point.
fn outlines_of(alloc: Global, sets: &[ScanSet]) -> Result<Vec<Outline>, FmStop>
    requires { AreScanned sets.now }
    ensures kept { IfOk result (λ v. LeavesOut sets.now (sets_in v.items)) }
    ensures stops { IfErr result (StopsScan sets.now) }
{
    let mut outlines = Vec::new(alloc);
    for set in sets {
        match outline_of(alloc, set) {
            Err(stop) => return Err(stop),
            Ok(None) => {}
            Ok(Some(shadows)) => match outlines.push(Outline { set, shadows }) {
                Err(_) => return Err(FmStop::NoMemory),
                Ok(()) => {}
            },
        }
    }
    Ok(outlines)
}

/// How many dimensions the sets have.
fn dimensions_in(sets: &[ScanSet]) -> usize
    ensures { result ≡ dimensions_of sets.now }
{
    match sets.first() {
        None => 0,
        Some(set) => set.system().dimensions(),
    }
}

/// How many parameters the sets have.
fn parameters_in(sets: &[ScanSet]) -> usize
    ensures { result ≡ parameters_of sets.now }
{
    match sets.first() {
        None => 0,
        Some(set) => set.system().parameters(),
    }
}

/// The dimension that the sets mark.
fn mark_in(sets: &[ScanSet]) -> Option<usize>
    ensures { result ≡ mark_of sets.now }
{
    match sets.first() {
        None => None,
        Some(set) => set.parallel(),
    }
}

/// The outlines of sets, without the sets that have no point; None where none has one.
pub fn outlined(alloc: Global, sets: &[ScanSet]) -> Result<Option<Outlines>, FmStop>
    requires sets { AreScanned sets.now }
    requires rise { NumbersRise sets.now }
    ensures found { IfOk result (λ found. MatchOption found (LeavesOut sets.now []) (AreOutlined sets.now)) }
    ensures stops { IfErr result (StopsScan sets.now) }
{
    let outlines = match outlines_of(alloc, sets) {
        Err(stop) => return Err(stop),
        Ok(outlines) => outlines,
    };
    if outlines.len() == 0 {
        return Ok(None);
    }
    Ok(Some(Outlines {
        outlines,
        dimensions: dimensions_in(sets),
        parameters: parameters_in(sets),
        parallel: mark_in(sets),
    }))
}

/// The tree that visits the points of sets, one set a statement and by rising numbers, in the lexicographic order of
/// their dimensions, and at one point by statement. The sets have one number of dimensions and one of parameters, mark
/// one place or none, and are bounded.
///
/// # Errors
/// `Wide` or `Crowded` only where the first elimination of a set that stops does so: of the others and the parameters
/// of a projection on the first dimensions, for the bounds of its last alone, or then of that last; `Large` only where
/// a number of what is left of such a dimension alone, or of the set, is beyond 2^40 in absolute value; `NoMemory`.
pub fn scan(alloc: Global, sets: &[ScanSet]) -> Result<Tree, FmStop>
    requires sets { AreScanned sets.now }
    requires rise { NumbersRise sets.now }
    ensures scan { IfOk result (λ t. IsScan sets.now (trees_in t)) }
    ensures stops { IfErr result (StopsScan sets.now) }
{
    match outlined(alloc, sets) {
        Err(stop) => Err(stop),
        Ok(None) => Ok(Tree {
            nodes: Vec::new(alloc),
        }),
        Ok(Some(all)) => match scan_outlines(alloc, &all) {
            Err(_) => Err(FmStop::NoMemory),
            Ok(tree) => Ok(tree),
        },
    }
}
