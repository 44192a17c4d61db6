//! Outside values, computed by hand and by Python's integers.
ghost use Rattle.std.specs.Prelude.{◌≡◌, pos, [], ◌∷◌, length, All, IfOk};
ghost use Rattle.whole_numbers.specs.Affine.{form_of};
ghost use Rattle.quast_trees.specs.Postfix.{tree_of};
ghost use Rattle.quast_trees.specs.Mapped.{Suits};
ghost use Rattle.quast_trees.specs.Source.{source_of, unnamed, with_source};
ghost use Rattle.quast_trees.specs.Tree.{leaf};
ghost use Rattle.quast_joins.specs.Limits.{leaf_limit};
ghost use Rattle.quast_joins.specs.Sizes.{LeavesWithin};

use crate::made::forms;
use affine_forms::{Form, FormStop};
use quast_joins::{JoinStop, later_of};
use quast_trees::{Leaf, Quast, Source};
use std::alloc::{AllocError, Global};
use std::process::Abort;
use std::test::Fail;
use wide_math::{Op, Wide};

const TWO_126: i128 = 85070591730234615865843651857942052864;

/// What a quast answers.
#[derive(Clone, Copy)]
enum Want<'a> {
    Initial,
    /// The statement, the loops and the values of a leaf.
    Found(usize, &'a [usize], &'a [i128]),
    /// The product of two numbers is too wide.
    Wide(i128, i128),
}

/// Whether a leaf has the source and the values.
fn is_found(source: &Option<Source>, values: &[i128], want: Want) -> bool {
    match want {
        Want::Found(statement, loops, numbers) => match source {
            None => false,
            Some(source) => {
                source.statement == statement
                    && source.loops.as_slice() == loops
                    && values == numbers
            }
        },
        _ => false,
    }
}

/// Whether the answer is that.
fn is_answer(answer: Result<Leaf, FormStop>, want: Want) -> bool {
    match answer {
        Ok(Leaf::Initial) => matches!(want, Want::Initial),
        Ok(Leaf::Found { source, values }) => is_found(&source, &values, want),
        Err(FormStop::NoMemory) => false,
        Err(FormStop::Wide(wide)) => match want {
            Want::Wide(a, b) => wide == Wide { op: Op::Mul, a, b },
            _ => false,
        },
    }
}

/// That the quast has one parameter and so many nodes, and answers so at values of the parameter.
fn expect(rt: &impl Abort, quast: &Quast, count: usize, answers: &[(i128, Want)]) {
    assert!(rt; quast.parameters() == 1);
    assert!(rt; quast.count() == count, "{count} nodes");
    assert!(rt; quast.nodes().len() == count, "{count} nodes");
    for (value, want) in answers {
        assert!(rt;
            is_answer(quast.value_at(&[*value]), *want),
            "{count} nodes, at {value}"
        );
    }
}

/// That of a quast that it lets go.
fn expect_made(rt: &impl Abort, quast: Quast, count: usize, answers: &[(i128, Want)]) {
    expect(rt, &quast, count, answers);
    drop(quast);
}

/// A leaf of forms with its source.
fn source(
    alloc: Global,
    parameters: usize,
    statement: usize,
    loops: &[usize],
    forms: &[Form],
) -> Result<Quast, AllocError>
    requires { All (λ f. length f.coefficients ≡ parameters) forms.now }
    ensures parameters { IfOk result (λ q. q.parameters ≡ parameters) }
    ensures tree { IfOk result
        (λ q. tree_of q ≡ leaf (with_source (source_of statement loops.now) (unnamed parameters forms.now))) }
{
    Quast::leaf(alloc, parameters, forms)?.named(statement, loops)
}

/// p - 1 where that is not negative, else the initial value.
fn branch(alloc: Global) -> Result<Quast, Fail> {
    let forms = forms(alloc, 1, &[&[1, -1]])?;
    let first = source(alloc, 1, 2, &[0, 3], &forms)?;
    Ok(Quast::branch(Form::of(alloc, &[1], -1)?, first, Quast::initial(alloc, 1)?)?)
}

/// What `branch` answers.
const BRANCH: &[(i128, Want)] = &[
    (-7, Want::Initial),
    (0, Want::Initial),
    (1, Want::Found(2, &[0, 3], &[0])),
    (2, Want::Found(2, &[0, 3], &[1])),
    (5, Want::Found(2, &[0, 3], &[4])),
];

#[test]
fn a_branch_selects_by_the_sign(rt: HostRuntime) -> Result<(), Fail> {
    expect_made(&rt, branch(rt.alloc())?, 3, BRANCH);
    Ok(())
}

/// What halving p, rounded down, leaves, and the half.
fn halved(alloc: Global) -> Result<Quast, Fail> {
    let forms = forms(alloc, 2, &[&[1, -2, 0], &[0, 1, 0]])?;
    let body = source(alloc, 2, 0, &[], &forms)?;
    Ok(Quast::bind(Form::of(alloc, &[1], 0)?, 2, body)?)
}

/// What `halved` answers.
const HALVED: &[(i128, Want)] = &[
    (-4, Want::Found(0, &[], &[0, -2])),
    (-3, Want::Found(0, &[], &[1, -2])),
    (-1, Want::Found(0, &[], &[1, -1])),
    (0, Want::Found(0, &[], &[0, 0])),
    (3, Want::Found(0, &[], &[1, 1])),
    (i128::MIN, Want::Wide(-2, -TWO_126)),
];

#[test]
fn a_bind_rounds_down(rt: HostRuntime) -> Result<(), Fail> {
    expect_made(&rt, halved(rt.alloc())?, 2, HALVED);
    Ok(())
}

/// The greatest place from 0 to 4095 that is not above p, by a branch a place, whose first side or second
/// is all the rest.
fn staircase(alloc: Global, deep_first: bool) -> Result<Quast, Fail>
    ensures parameters { IfOk result (λ q. q.parameters ≡ 1) }
    ensures leaves { IfOk result (λ q. Suits (form_of (pos 1 ∷ []) (pos 7) ∷ []) (tree_of q)) }
{
    let mut quast = Quast::initial(alloc, 1)?;
    for place in 0..4096usize {
        let here = [Form::of(alloc, &[0], place as i128)?];
        let step = source(alloc, 1, place, &[place], &here)?;
        quast = if deep_first {
            Quast::branch(Form::of(alloc, &[-1], place as i128 - 1)?, quast, step)?
        } else {
            Quast::branch(Form::of(alloc, &[1], -(place as i128))?, step, quast)?
        };
    }
    Ok(quast)
}

/// The quast with 7 added to its value.
fn moved(alloc: Global, quast: &Quast) -> Result<Quast, FormStop>
    requires { Suits (form_of (pos 1 ∷ []) (pos 7) ∷ []) (tree_of quast.now) }
{
    match Form::of(alloc, &[1], 7) {
        Err(stop) => Err(stop),
        Ok(form) => quast.map(&[form]),
    }
}

/// That a quast, which it lets go, and the one with 7 added have so many nodes and answer so.
fn expect_both(
    rt: &impl Abort,
    alloc: Global,
    quast: Quast,
    count: usize,
    answers: &[(i128, Want)],
    moved_answers: &[(i128, Want)],
)
    requires { Suits (form_of (pos 1 ∷ []) (pos 7) ∷ []) (tree_of quast) }
{
    expect(rt, &quast, count, answers);
    match moved(alloc, &quast) {
        Err(_) => panic!(rt; "{count} nodes are moved"),
        Ok(moved) => expect_made(rt, moved, count, moved_answers),
    }
    drop(quast);
}

/// What `staircase` answers.
const STAIRCASE: &[(i128, Want)] = &[
    (-1, Want::Initial),
    (0, Want::Found(0, &[0], &[0])),
    (2000, Want::Found(2000, &[2000], &[2000])),
    (9999, Want::Found(4095, &[4095], &[4095])),
];

/// What it answers with 7 added.
const MOVED_STAIRCASE: &[(i128, Want)] = &[
    (-1, Want::Initial),
    (0, Want::Found(0, &[0], &[7])),
    (2000, Want::Found(2000, &[2000], &[2007])),
    (9999, Want::Found(4095, &[4095], &[4102])),
];

#[test]
fn deep_branches_need_no_stack(rt: HostRuntime) -> Result<(), Fail> {
    for deep_first in [true, false] {
        let quast = staircase(rt.alloc(), deep_first)?;
        expect_both(&rt, rt.alloc(), quast, 8193, STAIRCASE, MOVED_STAIRCASE);
    }
    Ok(())
}

/// A branch a place from 0 on, with the initial value on each side.
fn ladder(alloc: Global, places: usize) -> Result<Quast, Fail>
    ensures parameters { IfOk result (λ q. q.parameters ≡ 1) }
    ensures within { IfOk result (λ q. LeavesWithin leaf_limit (tree_of q)) }
{
    let mut quast = Quast::initial(alloc, 1)?;
    for place in 0..places {
        let test = Form::of(alloc, &[1], -(place as i128))?;
        quast = Quast::branch(test, Quast::initial(alloc, 1)?, quast)?;
    }
    Ok(quast)
}

/// The half of p, rounded down, and then the initial value.
fn bound_half(alloc: Global) -> Result<Quast, Fail>
    ensures parameters { IfOk result (λ q. q.parameters ≡ 1) }
    ensures within { IfOk result (λ q. LeavesWithin leaf_limit (tree_of q)) }
{
    Ok(Quast::bind(Form::of(alloc, &[1], 0)?, 2, Quast::initial(alloc, 2)?)?)
}

/// What a join of initial values answers.
const JOINED: &[(i128, Want)] = &[
    (-1, Want::Initial),
    (0, Want::Initial),
    (9999, Want::Initial),
];

/// A ladder of n places has 2 n + 1 nodes, a bind one more.
#[test]
fn joins_have_so_many_nodes(rt: HostRuntime) -> Result<(), Fail> {
    let last = ladder(rt.alloc(), 2047)?;
    match later_of(&bound_half(rt.alloc())?, &last) {
        Err(_) => panic!(rt; "4096 nodes are joined"),
        Ok(joined) => expect_made(&rt, joined, 4096, JOINED),
    }
    let past = ladder(rt.alloc(), 2048)?;
    let stop = later_of(&Quast::initial(rt.alloc(), 1)?, &past);
    assert!(rt; matches!(stop, Err(JoinStop::Spent { nodes: 4097 })));
    Ok(())
}
