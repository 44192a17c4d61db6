//! Callers of quasts.
ghost use Rattle.std.specs.Prelude.{◌≡◌, ◌+◌, ◌<◌, ◌≤◌, ◌∷◌, [], ℕ, ℤ, Err, IfOk, length, pos, true, ◌≤ℤ◌};
ghost use Rattle.whole_numbers.specs.Affine.{Affine, values_of};
ghost use Rattle.wide_math.specs.declared.Wide.{Wide};
ghost use Rattle.affine_forms.specs.declared.stop.FormStop.TheVariants as stop;
ghost use Rattle.quast_trees.specs.Leaf as answer;
ghost use Rattle.quast_trees.specs.Leaf.{leaf_of};
ghost use Rattle.quast_trees.specs.Mapped.{Suits};
ghost use Rattle.quast_trees.specs.Postfix.{tree_of};
ghost use Rattle.quast_trees.specs.Source.{Forms, source_of, with_source};
ghost use Rattle.quast_trees.specs.Tree.{Tree, initial, leaf, branch, bind, count};
ghost use Rattle.quast_trees.specs.Value.{value};
ghost use Rattle.quast_trees.specs.declared.node.Node.TheVariants as node;
ghost use Rattle.quast_joins.specs.Counts.{join_count};
ghost use Rattle.quast_joins.specs.Limits.{leaf_limit, node_limit};
ghost use Rattle.quast_joins.specs.Sizes.{LeavesWithin};
ghost use Rattle.quast_joins.specs.declared.way.JoinStop.TheVariants.{Spent};

use affine_forms::{Form, FormStop};
use quast_joins::{JoinStop, earlier_of, later_of};
use quast_trees::{Leaf, Node, Part, Quast};
use std::alloc::AllocError;

/// No number of an initial quast is too wide, by `run` of `Quast::value_at`; a quast of a leaf answers the values of its
/// forms, by `value`.
pub fn answer_at(quast: &Quast, point: &[i128]) -> Result<Leaf, FormStop>
    requires { length point.now ≡ quast.now.parameters }
    ensures run { (wide : Wide) → tree_of quast.now ≡ initial → result ≡ Err (stop.Wide wide) → ⊥ }
    ensures value { IfOk result (λ found. (l : Forms) → tree_of quast.now ≡ leaf l
        → leaf_of found ≡ answer.found l.source (values_of l.forms point.now)) }
{
    quast.value_at(point)
}

/// A mapped quast answers the initial value where the quast does, by `value` of `Quast::map`.
pub fn mapped(quast: &Quast, forms: &[Form], point: &[i128]) -> Result<Quast, FormStop>
    requires forms { Suits forms.now (tree_of quast.now) }
    requires point { length point.now ≡ quast.now.parameters }
    ensures { IfOk result (λ mapped. value (tree_of quast.now) point.now ≡ answer.initial
        → value (tree_of mapped) point.now ≡ answer.initial) }
{
    quast.map(forms)
}

/// A named quast has its parameters, by `parameters` of `Quast::named`; one of a leaf has the source, by `tree`.
pub fn named(quast: Quast, statement: usize, loops: &[usize]) -> Result<Quast, AllocError>
    ensures parameters { IfOk result (λ named. named.parameters ≡ quast.parameters) }
    ensures tree { IfOk result (λ named. (l : Forms) → tree_of quast ≡ leaf l
        → tree_of named ≡ leaf (with_source (source_of statement loops.now) l)) }
{
    quast.named(statement, loops)
}

/// A branch of two initial values has three nodes, by the clause of `Quast::count`.
pub fn three_nodes(quast: &Quast) -> usize
    requires { (test : Affine) × (tree_of quast.now ≡ branch test initial initial) }
    ensures { result ≡ 3 }
{
    quast.count()
}

/// The initial quast has one node, by `nodes` of `Quast::nodes`; a test has a coefficient a parameter, by `speaks`.
pub fn nodes(quast: &Quast) -> &[Node]
    ensures nodes { tree_of quast.now ≡ initial → result.now ≡ node.Initial ∷ [] }
    ensures speaks { (test : Affine) (first second : Tree) → tree_of quast.now ≡ branch test first second
        → length test.coefficients ≡ quast.now.parameters }
{
    quast.nodes()
}

/// Whether a quast is the initial one, by the clauses of `Quast::root` and `Place::part`.
pub fn is_initial(quast: &Quast) -> bool
    ensures only { result ≡ true → tree_of quast.now ≡ initial }
    ensures always { tree_of quast.now ≡ initial → result ≡ true }
{
    matches!(quast.root().part(), Part::Initial)
}

/// A branch has the parameters of its sides, by `parameters` of `Quast::branch`, and a node more than both, by `tree`.
pub fn branched(test: Form, first: Quast, second: Quast) -> Result<Quast, AllocError>
    requires parameters { first.parameters ≡ second.parameters }
    requires test { length test.coefficients ≡ first.parameters }
    ensures parameters { IfOk result (λ quast. quast.parameters ≡ second.parameters) }
    ensures tree { IfOk result
        (λ quast. count (tree_of quast) ≡ (count (tree_of first) + count (tree_of second)) + 1) }
{
    Quast::branch(test, first, second)
}

/// A bind has a parameter less than its body, by `parameters` of `Quast::bind`, and a node more, by `tree`.
pub fn bound(form: Form, divisor: i128, body: Quast) -> Result<Quast, AllocError>
    requires parameters { body.parameters ≡ length form.coefficients + 1 }
    requires divisor { pos 1 ≤ℤ divisor }
    ensures parameters { IfOk result (λ quast. quast.parameters + 1 ≡ body.parameters) }
    ensures tree { IfOk result (λ quast. count (tree_of quast) ≡ count (tree_of body) + 1) }
{
    Quast::bind(form, divisor, body)
}

/// The later of two answers, by the clauses of `later_of`: its parameters, its tree where both are initial, its answer
/// where both answer the initial value, its number of nodes, and when it is refused.
pub fn later(first: &Quast, second: &Quast, point: &[i128]) -> Result<Quast, JoinStop>
    requires parameters { first.now.parameters ≡ second.now.parameters }
    requires first { LeavesWithin leaf_limit (tree_of first.now) }
    requires second { LeavesWithin leaf_limit (tree_of second.now) }
    requires point { length point.now ≡ second.now.parameters }
    ensures parameters { IfOk result (λ quast. quast.parameters ≡ second.now.parameters) }
    ensures tree { IfOk result (λ quast. tree_of first.now ≡ initial → tree_of second.now ≡ initial
        → tree_of quast ≡ initial) }
    ensures value { IfOk result (λ quast. value (tree_of first.now) point.now ≡ answer.initial
        → value (tree_of second.now) point.now ≡ answer.initial → value (tree_of quast) point.now ≡ answer.initial) }
    ensures few { IfOk result (λ quast. count (tree_of quast) < 5000) }
    ensures spent { (nodes : ℕ) → result ≡ Err (Spent nodes)
        → node_limit < join_count (tree_of first.now) (tree_of second.now) }
{
    later_of(first, second)
}

/// The same of the earlier of two answers, by the clauses of `earlier_of`.
pub fn earlier(first: &Quast, second: &Quast, point: &[i128]) -> Result<Quast, JoinStop>
    requires parameters { first.now.parameters ≡ second.now.parameters }
    requires first { LeavesWithin leaf_limit (tree_of first.now) }
    requires second { LeavesWithin leaf_limit (tree_of second.now) }
    requires point { length point.now ≡ second.now.parameters }
    ensures parameters { IfOk result (λ quast. quast.parameters ≡ second.now.parameters) }
    ensures tree { IfOk result (λ quast. tree_of first.now ≡ initial → tree_of second.now ≡ initial
        → tree_of quast ≡ initial) }
    ensures value { IfOk result (λ quast. value (tree_of first.now) point.now ≡ answer.initial
        → value (tree_of second.now) point.now ≡ answer.initial → value (tree_of quast) point.now ≡ answer.initial) }
    ensures few { IfOk result (λ quast. count (tree_of quast) < 5000) }
    ensures spent { (nodes : ℕ) → result ≡ Err (Spent nodes)
        → node_limit < join_count (tree_of first.now) (tree_of second.now) }
{
    earlier_of(first, second)
}
