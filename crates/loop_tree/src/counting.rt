//! How many instances nodes show, by multiplication: where no bound and no test within a loop names its value, or that of
//! a loop further in, its body shows as many at each value as at the first.
ghost use Rattle.std.specs.Prelude.{◌≡◌, ◌*◌, ◌-ℤ◌, ◌≤ℤ◌, ◌++◌, ◌∷◌, [], IfSome, IsTrue, List, length, map, pos, take};
ghost use Rattle.std.specs.Prelude.{ℕ, ℤ};
ghost use Rattle.scop_syntax.specs.Walk.{most_turns};
ghost use Rattle.loop_tree.specs.steps.Chain.{values_in};
ghost use Rattle.loop_tree.specs.steps.Counting.{AreWithin, BoundsAreFree, IsFree, TestsAreFree};
ghost use Rattle.loop_tree.specs.steps.Passing.{shown_along};
ghost use Rattle.loop_tree.specs.Conditions.{CanWalk};
ghost use Rattle.loop_tree.specs.Fits.{AreZeros, form_in};
ghost use Rattle.loop_tree.specs.Tree.{bounds_of, guard as guards, loop as loops, more, none};
ghost use Rattle.loop_tree.specs.View.{bounds_in, nodes_of, test_of, tree_of};
ghost use Rattle.loop_tree.specs.Walk.{between, walk, walk_all};

use crate::outer::{Outer, behind};
use crate::passing::way_up;
use crate::ranges::{all_hold, range_at};
use crate::tree::{Bound, Loop, Node, Test};
use scop_syntax::Aff;

/// The first numbers, so many.
#[inline]
fn front_of(numbers: &[i64], count: usize) -> &[i64]
    ensures { result.now ≡ take count numbers.now }
{
    if numbers.len() <= count {
        return numbers;
    }
    numbers.split_at(count).0
}

/// Whether all numbers are 0.
#[inline]
fn are_zeros(numbers: &[i64]) -> bool
    ensures { IsTrue result → AreZeros numbers.now }
{
    for number in numbers {
        if *number != 0 {
            return false;
        }
    }
    true
}

/// Whether a form names none of so many loops within these.
fn is_free(form: &Aff, round: &Outer, inner: usize) -> bool
    ensures { IsTrue result → IsFree (length (values_in round.now)) inner form.now }
{
    are_zeros(front_of(behind(round, form.coefficients.as_slice()), inner))
}

/// Whether bounds name none of them.
fn bounds_are_free(first: &Bound, others: &[Bound], round: &Outer, inner: usize) -> bool
    ensures { IsTrue result → BoundsAreFree (length (values_in round.now)) inner (bounds_of first.now others.now) }
{
    if !is_free(&first.form, round, inner) {
        return false;
    }
    match others.split_first() {
        None => true,
        Some((next, others)) => bounds_are_free(next, others, round, inner),
    }
}

/// Whether the bounds of a loop from both sides do.
fn is_head_free(head: &Loop, round: &Outer, inner: usize) -> bool
    ensures { IsTrue result → BoundsAreFree (length (values_in round.now)) inner (bounds_in head.now.lower)
        × BoundsAreFree (length (values_in round.now)) inner (bounds_in head.now.upper) }
{
    if !bounds_are_free(&head.lower.first, &head.lower.others, round, inner) {
        return false;
    }
    bounds_are_free(&head.upper.first, &head.upper.others, round, inner)
}

/// What a test asks of.
#[inline]
fn form_of(test: &Test) -> &Aff
    ensures { result.now ≡ form_in (test_of test.now) }
{
    match test {
        Test::AtLeast(form) => form,
        Test::Equal(form) => form,
        Test::Multiple(form, _) => form,
    }
}

/// Whether tests name none of them.
fn tests_are_free(tests: &[Test], round: &Outer, inner: usize) -> bool
    ensures { IsTrue result → TestsAreFree (length (values_in round.now)) inner (map test_of tests.now) }
{
    for test in tests {
        if !is_free(form_of(test), round, inner) {
            return false;
        }
    }
    true
}

/// How many values there are from the first to the last; None where a word has no room for it.
#[inline]
fn values_to(first: i128, last: i128) -> Option<u64>
    requires { first ≤ℤ last }
    ensures { IfSome result (λ n. n ≡ most_turns (last -ℤ first)) }
{
    match last.checked_sub(first) {
        None => None,
        Some(way) => match u64::try_from(way) {
            Err(_) => None,
            Ok(way) => way.checked_add(1),
        },
    }
}

/// The product, where a word has room for it.
#[inline]
fn product(a: u64, b: u64) -> Option<u64>
    ensures { IfSome result (λ n. n ≡ a * b) }
{
    a.checked_mul(b)
}

/// So many at each value from the first to the last; None where a word has no room for all.
fn at_all(count: u64, first: i128, last: i128) -> Option<u64>
    requires { first ≤ℤ last }
    ensures { IfSome result (λ n. n ≡ count * most_turns (last -ℤ first)) }
{
    match values_to(first, last) {
        None => None,
        Some(values) => product(count, values),
    }
}

/// How many instances nodes show, whatever the values of so many of the loops round them, innermost ones; None where
/// it hangs on them, or on those of loops further in, or where a word has no room for it.
#[cycle(counting)]
fn count_nodes(
    nodes: &[Node],
    outer: &Outer,
    round: &Outer,
    inner: usize,
    params: &[i64],
) -> Option<u64>
    requires walk { CanWalk (nodes_of nodes.now) params.now (values_in outer.now) }
    requires within { AreWithin inner (values_in round.now) (values_in outer.now) }
    ensures { IfSome result (λ n. (vs : List ℤ) → AreWithin inner (values_in round.now) vs
        → length (walk_all (nodes_of nodes.now) params.now vs) ≡ n) }
{
    let mut count = 0u64;
    for node in nodes {
        let Some(more) = count_node(node, outer, round, inner, params) else {
            return None;
        };
        let Some(sum) = count.checked_add(more) else {
            return None;
        };
        count = sum;
    }
    Some(count)
}

/// How many a node shows.
#[cycle(counting)]
fn count_node(
    node: &Node,
    outer: &Outer,
    round: &Outer,
    inner: usize,
    params: &[i64],
) -> Option<u64>
    requires walk { CanWalk (more (tree_of node.now) none) params.now (values_in outer.now) }
    requires within { AreWithin inner (values_in round.now) (values_in outer.now) }
    ensures { IfSome result (λ n. (vs : List ℤ) → AreWithin inner (values_in round.now) vs
        → length (walk (tree_of node.now) params.now vs) ≡ n) }
{
    match node {
        Node::Loop(head, body) => count_loop(head, body, outer, round, inner, params),
        Node::Guard(guard, body) => count_guard(
            guard.tests.as_slice(),
            body,
            outer,
            round,
            inner,
            params,
        ),
        Node::Instance(_) => Some(1),
    }
}

/// How many a guard shows.
#[cycle(counting)]
fn count_guard(
    tests: &[Test],
    body: &[Node],
    outer: &Outer,
    round: &Outer,
    inner: usize,
    params: &[i64],
) -> Option<u64>
    requires walk { CanWalk (more (guards (map test_of tests.now) (nodes_of body.now)) none) params.now
        (values_in outer.now) }
    requires within { AreWithin inner (values_in round.now) (values_in outer.now) }
    ensures { IfSome result (λ n. (vs : List ℤ) → AreWithin inner (values_in round.now) vs
        → length (walk (guards (map test_of tests.now) (nodes_of body.now)) params.now vs) ≡ n) }
{
    if !tests_are_free(tests, round, inner) {
        return None;
    }
    if all_hold(tests, outer, params) {
        count_nodes(body, outer, round, inner, params)
    } else {
        Some(0)
    }
}

/// How many a loop shows.
#[cycle(counting)]
fn count_loop(
    head: &Loop,
    body: &[Node],
    outer: &Outer,
    round: &Outer,
    inner: usize,
    params: &[i64],
) -> Option<u64>
    requires walk { CanWalk (more (loops head.now.parallel (bounds_in head.now.lower) (bounds_in head.now.upper)
        (nodes_of body.now)) none) params.now (values_in outer.now) }
    requires within { AreWithin inner (values_in round.now) (values_in outer.now) }
    ensures { IfSome result (λ n. (vs : List ℤ) → AreWithin inner (values_in round.now) vs
        → length (walk (loops head.now.parallel (bounds_in head.now.lower) (bounds_in head.now.upper)
        (nodes_of body.now)) params.now vs) ≡ n) }
{
    if !is_head_free(head, round, inner) {
        return None;
    }
    let range = range_at(head, outer, params);
    count_values(body, range.first, range.last, outer, round, inner, params)
}

/// How many a loop's body shows at all values.
#[cycle(counting)]
fn count_values(
    body: &[Node],
    first: i128,
    last: i128,
    outer: &Outer,
    round: &Outer,
    inner: usize,
    params: &[i64],
) -> Option<u64>
    requires walk { (x : ℤ) → first ≤ℤ x → x ≤ℤ last
        → CanWalk (nodes_of body.now) params.now (values_in outer.now ++ x ∷ []) }
    requires within { AreWithin inner (values_in round.now) (values_in outer.now) }
    ensures { IfSome result (λ n. (vs : List ℤ) → AreWithin inner (values_in round.now) vs
        → length (between (λ x. walk_all (nodes_of body.now) params.now (vs ++ x ∷ [])) first last) ≡ n) }
{
    if last < first {
        return Some(0);
    }
    let Some(more) = inner.checked_add(1) else {
        return None;
    };
    let within = Outer::Within(&*outer, first);
    match count_nodes(body, &within, round, more, params) {
        None => None,
        Some(count) => at_all(count, first, last),
    }
}

/// How many a loop's body shows at its values in front of the last one; None also where there is none.
pub(crate) fn count_before(
    body: &[Node],
    first: i128,
    last: i128,
    outer: &Outer,
    params: &[i64],
) -> Option<u64>
    requires { (x : ℤ) → first ≤ℤ x → x ≤ℤ last
        → CanWalk (nodes_of body.now) params.now (values_in outer.now ++ x ∷ []) }
    ensures { IfSome result (λ count. (way : ℕ) × (pos way ≡ last -ℤ first)
        × (length (shown_along (nodes_of body.now) params.now (values_in outer.now) first way) ≡ count)) }
{
    let Some(way) = way_up(first, last) else {
        return None;
    };
    let within = Outer::Within(&*outer, first);
    match count_nodes(body, &within, outer, 1, params) {
        None => None,
        Some(count) => product(count, way),
    }
}
