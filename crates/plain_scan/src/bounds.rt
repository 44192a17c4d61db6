//! Forms as the numbers of a tree, bounds of a loop, the leaf of a set. All numbers are small here.

ghost use Rattle.std.specs.Prelude.{◌≡◌, ◌<◌, ◌≤◌, ◌^◌, ◌++◌, [], ◌∷◌, List, map, length, All, IfOk, OnOk, neg_ℤ, pos};
ghost use Rattle.std.specs.Prelude.{unsigned_abs};
ghost use Rattle.whole_numbers.specs.Affine.{Affine, multiple_of_form};
ghost use Rattle.affine_forms.specs.Parts.{variables_of};
ghost use Rattle.integer_sets.specs.Constraints.{variables_in};
ghost use Rattle.plain_scan.specs.Between.{HasSmallNumbers};
ghost use Rattle.loop_tree.specs.Tree.{at_least, equal, instance, loop, none, more};
ghost use Rattle.loop_tree.specs.View.{bounds_in, nodes_of, test_of, tree_of};
ghost use Rattle.plain_scan.specs.Rows.{low_bound, high_bound, low_bounds, high_bounds};
ghost use Rattle.plain_scan.specs.Sets.{leaves, turn_forms, under};
ghost use Rattle.plain_scan.specs.Hulls.{leaf_tree, own_leaf, sets_in};
ghost use Rattle.plain_scan.specs.Outlines.{HasSmallConstraints};
ghost use Rattle.plain_scan.specs.Sorting.{lows_in, highs_in};

use crate::numbers::opposite;
use crate::set_outline::Outline;
use affine_forms::Form;
use fm_projection::{narrow_form, place_form};
use integer_sets::ScanSet;
use loop_tree::{Bound, Bounds, Guard, Leaf, Loop, Node, Test};
use scop_syntax::Aff;
use std::alloc::{AllocError, Global};

/// The number in 64 bits.
fn narrow_number(number: i128) -> i64
    requires { unsigned_abs number ≤ 2 ^ 40 }
    ensures { result ≡ number }
{
    number as i64
}

/// The form with its numbers in 64 bits.
fn aff_of(alloc: Global, form: &Form) -> Result<Aff, AllocError>
    requires { HasSmallNumbers form.now }
    ensures { IfOk result (λ a. a ≡ form.now) }
{
    let coefficients = form
        .coefficients()
        .iter()
        .map(|number| narrow_number(*number))
        .collect(alloc)?;
    Ok(Aff {
        coefficients,
        constant: narrow_number(form.constant()),
    })
}

/// The opposite of the number in 64 bits.
fn opposite_number(number: i128) -> i64
    requires { unsigned_abs number ≤ 2 ^ 40 }
    ensures { result ≡ neg_ℤ number }
{
    narrow_number(opposite(number))
}

/// The opposites of the numbers in 64 bits.
fn opposite_numbers(alloc: Global, numbers: &[i128]) -> Result<Vec<i64>, AllocError>
    requires { All (λ z. unsigned_abs z ≤ 2 ^ 40) numbers.now }
    ensures { IfOk result (λ v. v.items ≡ map neg_ℤ numbers.now) }
{
    numbers
        .iter()
        .map(|number| opposite_number(*number))
        .collect(alloc)
}

/// The opposite of the form with its numbers in 64 bits.
fn opposite_of(alloc: Global, form: &Form) -> Result<Aff, AllocError>
    requires { HasSmallNumbers form.now }
    ensures { IfOk result (λ a. a ≡ multiple_of_form (neg_ℤ (pos 1)) form.now) }
{
    let coefficients = opposite_numbers(alloc, form.coefficients())?;
    Ok(Aff {
        coefficients,
        constant: opposite_number(form.constant()),
    })
}

/// The lower bound that a row gives.
fn low_bound(alloc: Global, row: &Form, place: usize) -> Result<Bound, AllocError>
    requires inside { place < variables_of row.now }
    requires small { HasSmallNumbers row.now }
    ensures { IfOk result (λ b. b ≡ low_bound place row.now) }
{
    let narrow = narrow_form(alloc, row, place)?;
    let form = opposite_of(alloc, &narrow)?;
    Ok(Bound {
        form,
        divisor: narrow_number(row.coefficients()[place]),
    })
}

/// The upper bound that a row gives.
fn high_bound(alloc: Global, row: &Form, place: usize) -> Result<Bound, AllocError>
    requires inside { place < variables_of row.now }
    requires small { HasSmallNumbers row.now }
    ensures { IfOk result (λ b. b ≡ high_bound place row.now) }
{
    let narrow = narrow_form(alloc, row, place)?;
    let form = aff_of(alloc, &narrow)?;
    Ok(Bound {
        form,
        divisor: opposite_number(row.coefficients()[place]),
    })
}

/// Appends the bound of a row that bounds the variable from below.
fn push_low(alloc: Global, out: &mut Vec<Bound>, row: &Form, place: usize) -> Result<(), AllocError>
    requires inside { place < variables_of row.now }
    requires small { HasSmallNumbers row.now }
    ensures { OnOk result (out.new.items
        ≡ out.old.items ++ map (low_bound place) (lows_in place (row.now ∷ []))) }
{
    if row.coefficients()[place] > 0 {
        let bound = low_bound(alloc, row, place)?;
        out.push(bound)?;
        Ok(())
    } else {
        Ok(())
    }
}

/// The lower bounds that rows give: that of the first, and of the others that bound the variable from below.
fn low_bounds(
    alloc: Global,
    first: &Form,
    rows: &[Form],
    place: usize,
) -> Result<Bounds, AllocError>
    requires first { (place < variables_of first.now) × HasSmallNumbers first.now }
    requires inside { All (λ f. place < variables_of f) rows.now }
    requires small { All HasSmallNumbers rows.now }
    ensures { IfOk result (λ b. bounds_in b ≡ low_bounds place first.now (lows_in place rows.now)) }
{
    let first = low_bound(alloc, first, place)?;
    let mut others = Vec::new(alloc);
    for row in rows {
        push_low(alloc, &mut others, row, place)?;
    }
    Ok(Bounds { first, others })
}

/// Appends the bound of a row that bounds the variable from above.
fn push_high(
    alloc: Global,
    out: &mut Vec<Bound>,
    row: &Form,
    place: usize,
) -> Result<(), AllocError>
    requires inside { place < variables_of row.now }
    requires small { HasSmallNumbers row.now }
    ensures { OnOk result (out.new.items
        ≡ out.old.items ++ map (high_bound place) (highs_in place (row.now ∷ []))) }
{
    if row.coefficients()[place] < 0 {
        let bound = high_bound(alloc, row, place)?;
        out.push(bound)?;
        Ok(())
    } else {
        Ok(())
    }
}

/// The upper bounds that rows give: that of the first, and of the others that bound the variable from above.
fn high_bounds(
    alloc: Global,
    first: &Form,
    rows: &[Form],
    place: usize,
) -> Result<Bounds, AllocError>
    requires first { (place < variables_of first.now) × HasSmallNumbers first.now }
    requires inside { All (λ f. place < variables_of f) rows.now }
    requires small { All HasSmallNumbers rows.now }
    ensures { IfOk result (λ b. bounds_in b ≡ high_bounds place first.now (highs_in place rows.now)) }
{
    let first = high_bound(alloc, first, place)?;
    let mut others = Vec::new(alloc);
    for row in rows {
        push_high(alloc, &mut others, row, place)?;
    }
    Ok(Bounds { first, others })
}

/// A loop round a body, between the bounds that rows give: the first is a lower bound, the second an upper one.
pub fn loop_round(
    alloc: Global,
    rows: &[Form],
    place: usize,
    parallel: bool,
    body: Vec<Node>,
) -> Result<Vec<Node>, AllocError>
    requires two { 1 < length rows.now }
    requires inside { All (λ f. place < variables_of f) rows.now }
    requires small { All HasSmallNumbers rows.now }
    ensures { IfOk result (λ v. (low high : Affine) (others : List Affine) → rows.now ≡ low ∷ high ∷ others
        → nodes_of v.items ≡ more (loop parallel (low_bounds place low (lows_in place others))
        (high_bounds place high (highs_in place others)) (nodes_of body.items)) none) }
{
    let lower = low_bounds(alloc, &rows[0], &rows[2..], place)?;
    let upper = high_bounds(alloc, &rows[1], &rows[2..], place)?;
    let head = Loop {
        parallel,
        lower,
        upper,
    };
    let mut nodes = Vec::new(alloc);
    nodes.push(Node::Loop(head, body))?;
    Ok(nodes)
}

/// The tests of a set's constraints.
fn tests(alloc: Global, set: &ScanSet) -> Result<Vec<Test>, AllocError>
    requires { HasSmallConstraints set.now.system }
    ensures { IfOk result (λ v. map test_of v.items
        ≡ map equal set.now.system.equalities ++ map at_least set.now.system.rows) }
{
    let mut out = Vec::new(alloc);
    for form in set.system().equalities() {
        let aff = aff_of(alloc, form)?;
        out.push(Test::Equal(aff))?;
    }
    for form in set.system().rows() {
        let aff = aff_of(alloc, form)?;
        out.push(Test::AtLeast(aff))?;
    }
    Ok(out)
}

/// The turns of the loops of a set's statement.
fn turns(alloc: Global, set: &ScanSet) -> Result<Vec<Aff>, AllocError>
    requires { variables_in set.now.system < 2 ^ 32 }
    ensures { IfOk result (λ v. v.items ≡ turn_forms set.now) }
{
    let variables = set.system().dimensions() + set.system().parameters();
    let first = set.first();
    let mut out = Vec::new(alloc);
    for turn in 0..set.iterators() {
        let form = place_form(alloc, variables, first + turn, 1, 0)?;
        let aff = aff_of(alloc, &form)?;
        out.push(aff)?;
    }
    Ok(out)
}

/// A statement under tests.
fn guarded(alloc: Global, tests: Vec<Test>, leaf: Leaf) -> Result<Node, AllocError>
    ensures { IfOk result (λ n. tree_of n
        ≡ under (map test_of tests.items) (instance leaf.statement leaf.turns.items)) }
{
    if tests.len() == 0 {
        return Ok(Node::Instance(leaf));
    }
    let mut body = Vec::new(alloc);
    body.push(Node::Instance(leaf))?;
    Ok(Node::Guard(Guard { tests }, body))
}

/// A statement under all constraints of its set.
fn leaf(alloc: Global, set: &ScanSet) -> Result<Node, AllocError>
    requires few { variables_in set.now.system < 2 ^ 32 }
    requires small { HasSmallConstraints set.now.system }
    ensures { IfOk result (λ n. tree_of n ≡ leaf_tree set.now) }
{
    let tests = tests(alloc, set)?;
    let turns = turns(alloc, set)?;
    let leaf = Leaf {
        statement: set.statement(),
        turns,
    };
    guarded(alloc, tests, leaf)
}

/// The statements of sets, each under all constraints of its set.
pub fn leaves(alloc: Global, outlines: &[Outline]) -> Result<Vec<Node>, AllocError>
    requires { All (λ o. variables_in o.set.now.system < 2 ^ 32) outlines.now }
    ensures { IfOk result (λ v. nodes_of v.items ≡ leaves (map own_leaf (sets_in outlines.now))) }
{
    let mut out = Vec::new(alloc);
    for outline in outlines {
        let node = leaf(alloc, outline.set)?;
        out.push(node)?;
    }
    Ok(out)
}
