//! Callers of the scan of sets: without parameters, of no dimension, of no set.
ghost use Rattle.std.specs.Prelude.{◌≡◌, ◌^◌, [], IfErr, IfOk};
ghost use Rattle.loop_tree.specs.Fits.{AreSmallTrees, FitsAll};
ghost use Rattle.loop_tree.specs.Marks.{FlatAll, MarksAll};
ghost use Rattle.loop_tree.specs.Scans.{Exact};
ghost use Rattle.loop_tree.specs.Shape.{NestAllTo, TreesAreOver, TreesAreUpTo};
ghost use Rattle.loop_tree.specs.Tree.{none};
ghost use Rattle.loop_tree.specs.View.{trees_in};
ghost use Rattle.loop_tree.specs.Walk.{walk_all};
ghost use Rattle.plain_scan.specs.Scanning.{AreOfSets, AreScanned, GiveIterators, StopsScan};
ghost use Rattle.plain_scan.specs.Scanning.{dimensions_of, parameters_of};
ghost use Rattle.plain_scan.specs.Sets.{Keys, NumbersRise};

use fm_projection::FmStop;
use integer_sets::ScanSet;
use loop_tree::Tree;
use plain_scan::scan;
use std::alloc::Global;

/// Without parameters the tree visits the sets' points, gives their iterators, is over no variable and has numbers that
/// fit, by `exact`, `iterators`, `over` and `fits` of `IsScan`, the clause `scan` of `scan`. Of no dimension it has no
/// loop, by `numbers`, `nested` and `marks`; of no set it is empty, by `empty`. It is of small numbers, of the sets'
/// statements and flat, by the fields `small`, `instances` and `flat`, and stops as a set does, by the clause `stops`.
pub fn scanned_tree(alloc: Global, sets: &[ScanSet]) -> Result<Tree, FmStop>
    requires sets { AreScanned sets.now }
    requires rise { NumbersRise sets.now }
    ensures exact { IfOk result (λ t. Exact (Keys sets.now []) (walk_all (trees_in t) [] [])) }
    ensures iterators { IfOk result (λ t. GiveIterators sets.now (walk_all (trees_in t) [] [])) }
    ensures fits { IfOk result (λ t. parameters_of sets.now ≡ 0 → FitsAll (trees_in t) [] []) }
    ensures small { IfOk result (λ t. TreesAreUpTo (2 ^ 40) (trees_in t)) }
    ensures numbers { IfOk result (λ t. dimensions_of sets.now ≡ 0 → AreSmallTrees 0 (trees_in t)) }
    ensures over { IfOk result (λ t. parameters_of sets.now ≡ 0 → TreesAreOver 0 (trees_in t)) }
    ensures nested { IfOk result (λ t. dimensions_of sets.now ≡ 0 → NestAllTo 0 (trees_in t)) }
    ensures instances { IfOk result (λ t. AreOfSets sets.now (trees_in t)) }
    ensures flat { IfOk result (λ t. FlatAll (trees_in t)) }
    ensures marks { IfOk result (λ t. dimensions_of sets.now ≡ 0 → MarksAll [] (trees_in t)) }
    ensures empty { IfOk result (λ t. sets.now ≡ [] → trees_in t ≡ none) }
    ensures stops { IfErr result (StopsScan sets.now) }
{
    scan(alloc, sets)
}
