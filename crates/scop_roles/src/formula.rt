//! Expressions without parentheses, each name looked up, each node with the place of its token.
ghost use Rattle.std.specs.Prelude.{◌≡◌, ◌+◌, ◌==◌, ◌<◌, ◌^◌, ◌∷◌, IfOk, OnOk, map};
ghost use Rattle.scop_expressions.specs.Op.TheVariants as op;
ghost use Rattle.std.specs.List.{fold};
ghost use Rattle.scop_roles.specs.Formula.{Lookup, argument_of, bare_call, binary, call, cast, formula_of};
ghost use Rattle.scop_roles.specs.Formula.{index, meaning_of, place, subscripts, unary, with_argument};
ghost use Rattle.scop_roles.specs.Resolving.{IsWritten, below, built, formula_of_nodes, held, place_of, top};

use crate::pairs::{boxed, in_box, push_behind};
use scop_expressions::{Base, Node, Op, Sign, Suffix, Width};
use std::alloc::{AllocError, Global};
use std::mem;

/// What a name means where it stands.
#[derive(Clone, Copy, PartialEq, Eq)]
pub enum Meaning {
    /// It is not in scope.
    Unknown,
    /// A parameter or the iterator of an open loop: its place among the parameters and, behind them, the open loops.
    Variable(usize),
    /// A declared iterator whose loop is not open.
    Closed,
    /// An array: its number, how many extents it has, and whether its cells have 32 bits.
    Array(usize, usize, bool),
}

/// An argument behind others, and the place of the comma in front of it.
#[cycle(formula)]
#[derive(Drop)]
pub struct Argument {
    pub value: Formula,
    pub comma: usize,
}

/// An expression. A place is that of the operator, else of the first token. Subscripts and arguments, of which a text
/// may have any number in a row, lie in vectors, so that nothing recurses along them.
#[cycle(formula)]
#[derive(Drop)]
pub enum Formula {
    Constant(Suffix, u64, usize),
    Name(Meaning, usize),
    /// A place with subscripts: those in front of the last, and the last.
    Index(Box<Formula>, Vec<Formula>, Box<Formula>),
    /// A call without arguments.
    BareCall(Meaning, usize),
    /// A call, with its arguments joined by commas.
    Call(Meaning, Box<Formula>, usize),
    Unary(Sign, Box<Formula>, usize),
    Cast(Width, Box<Formula>, usize),
    /// Arguments: the first, those between, the last and the place of the comma in front of it.
    Commas(Box<Formula>, Vec<Argument>, Box<Formula>, usize),
    Binary(Op, Box<Formula>, Box<Formula>, usize),
}

/// Where an expression stands.
#[derive(Clone, Copy)]
pub enum Role {
    /// A subscript, a bound, an extent or a side of a comparison.
    Affine,
    /// Inside of a signed part of a value, which is affine too.
    Signed,
    Value,
    Condition,
    /// Under `||` and `!` in a condition, and a loop's second part: comparisons may stand there, and nothing more is
    /// asked.
    Loose,
    /// Where it has no role: what it stands under is refused, or looks at it by itself.
    Free,
}

/// What the names of a text mean where an expression stands, and what its constants are worth, by the places of tokens.
pub trait Names {
    ghost lookup: { Self → Lookup };

    fn meaning(&self, at: usize) -> Meaning
        ensures { result ≡ (lookup self.now).meaning at };

    fn worth(&self, at: usize) -> u64
        ensures { result ≡ (lookup self.now).worth at };
}

/// Where a formula is told: at its operator, else at its first token.
pub fn place(formula: &Formula) -> usize
    ensures { result ≡ place (formula_of formula.now) }
{
    match formula {
        Formula::Constant(_, _, at) => *at,
        Formula::Name(_, at) => *at,
        Formula::Index(inner, _, _) => place(inner),
        Formula::BareCall(_, at) => *at,
        Formula::Call(_, _, at) => *at,
        Formula::Unary(_, _, at) => *at,
        Formula::Cast(_, _, at) => *at,
        Formula::Commas(_, _, _, at) => *at,
        Formula::Binary(_, _, _, at) => *at,
    }
}

/// What the name of a place means.
pub fn meaning_of(formula: &Formula) -> Meaning
    ensures { result ≡ meaning_of (formula_of formula.now) }
{
    match formula {
        Formula::Name(meaning, _) => *meaning,
        Formula::Index(inner, _, _) => meaning_of(inner),
        _ => Meaning::Unknown,
    }
}

/// Whether a place has so many subscripts.
pub fn has_subscripts(formula: &Formula, count: usize) -> bool
    ensures { result ≡ (count == subscripts (formula_of formula.now)) }
{
    match formula {
        Formula::Index(inner, earlier, _) => {
            earlier.len() < count && has_subscripts(inner, count - 1 - earlier.len())
        }
        _ => count == 0,
    }
}

// A place with its first subscript.
fn first_subscript(alloc: Global, place: Formula, subscript: Formula) -> Result<Formula, AllocError>
    ensures { IfOk result (λ f. formula_of f ≡ index (formula_of place) (formula_of subscript)) }
{
    match boxed(alloc, place, subscript) {
        Err(_) => Err(AllocError),
        Ok((place, subscript)) => Ok(Formula::Index(place, Vec::new(alloc), subscript)),
    }
}

// A place with subscripts and one more, which becomes the last.
fn next_subscript(
    place: Box<Formula>,
    earlier: Vec<Formula>,
    last: Box<Formula>,
    subscript: Formula,
) -> Result<Formula, AllocError>
    ensures { IfOk result (λ f. formula_of f
        ≡ index (index (fold index (formula_of place.value) (map formula_of earlier.items)) (formula_of last.value))
        (formula_of subscript)) }
{
    let mut earlier = earlier;
    let mut last = last;
    let before = mem::replace(&mut *last, subscript);
    match push_behind(&mut earlier, before) {
        Err(_) => {
            drop((place, earlier, last));
            Err(AllocError)
        }
        Ok(()) => Ok(Formula::Index(place, earlier, last)),
    }
}

/// A place with a subscript more.
pub fn with_subscript(
    alloc: Global,
    place: Formula,
    subscript: Formula,
) -> Result<Formula, AllocError>
    ensures { IfOk result (λ f. formula_of f ≡ index (formula_of place) (formula_of subscript)) }
{
    match place {
        Formula::Index(inner, earlier, last) => next_subscript(inner, earlier, last, subscript),
        place => first_subscript(alloc, place, subscript),
    }
}

// Two arguments, with the comma between them at a place.
fn first_argument(
    alloc: Global,
    first: Formula,
    argument: Formula,
    at: usize,
) -> Result<Formula, AllocError>
    ensures { IfOk result (λ f. formula_of f ≡ binary op.Comma (formula_of first) (formula_of argument) at) }
{
    match boxed(alloc, first, argument) {
        Err(_) => Err(AllocError),
        Ok((first, argument)) => Ok(Formula::Commas(first, Vec::new(alloc), argument, at)),
    }
}

// Arguments and one more behind a comma at a place, which becomes the last; `comma`: that of the last so far.
fn next_argument(
    first: Box<Formula>,
    between: Vec<Argument>,
    last: Box<Formula>,
    comma: usize,
    argument: Formula,
    at: usize,
) -> Result<Formula, AllocError>
    ensures { IfOk result (λ f. formula_of f
        ≡ binary op.Comma
        (binary op.Comma (fold with_argument (formula_of first.value) (map argument_of between.items))
        (formula_of last.value) comma) (formula_of argument) at) }
{
    let mut between = between;
    let mut last = last;
    let value = mem::replace(&mut *last, argument);
    match push_behind(&mut between, Argument { value, comma }) {
        Err(_) => {
            drop((first, between, last));
            Err(AllocError)
        }
        Ok(()) => Ok(Formula::Commas(first, between, last, at)),
    }
}

// Arguments with one more, behind a comma at a place.
fn with_argument(
    alloc: Global,
    arguments: Formula,
    argument: Formula,
    at: usize,
) -> Result<Formula, AllocError>
    ensures { IfOk result (λ f. formula_of f ≡ binary op.Comma (formula_of arguments) (formula_of argument) at) }
{
    match arguments {
        Formula::Commas(first, between, last, comma) => {
            next_argument(first, between, last, comma, argument, at)
        }
        first => first_argument(alloc, first, argument, at),
    }
}

// Two formulas joined by an operator at a place.
fn with_operator(
    alloc: Global,
    op: Op,
    left: Formula,
    right: Formula,
    at: usize,
) -> Result<Formula, AllocError>
    ensures { IfOk result (λ f. formula_of f ≡ binary op (formula_of left) (formula_of right) at) }
{
    if op == Op::Comma {
        return with_argument(alloc, left, right, at);
    }
    match boxed(alloc, left, right) {
        Err(_) => Err(AllocError),
        Ok((left, right)) => Ok(Formula::Binary(op, left, right, at)),
    }
}

// A formula on top of the stack.
fn push(stack: &mut Vec<Formula>, formula: Formula) -> Result<(), AllocError>
    ensures { OnOk result (held stack.new.items ≡ formula_of formula ∷ held stack.old.items) }
{
    stack.push(formula)?;
    Ok(())
}

// The formula on top of the stack; of an empty stack nothing is asked.
fn pop(stack: &mut Vec<Formula>) -> Formula
    ensures top { formula_of result ≡ top (held stack.old.items) }
    ensures rest { held stack.new.items ≡ below (held stack.old.items) }
{
    match stack.pop() {
        None => Formula::Constant(Suffix::Absent(Base::Decimal), 0, 0),
        Some(formula) => formula,
    }
}

// The place on the stack with the subscript above it.
fn join_index(alloc: Global, stack: &mut Vec<Formula>) -> Result<Formula, AllocError>
    ensures { IfOk result (λ f. formula_of f ∷ held stack.new.items
        ≡ index (top (below (held stack.old.items))) (top (held stack.old.items))
        ∷ below (below (held stack.old.items))) }
{
    let subscript = pop(stack);
    let place = pop(stack);
    with_subscript(alloc, place, subscript)
}

// What the name on the stack means, and where it is told.
fn pop_name(stack: &mut Vec<Formula>) -> (Meaning, usize)
    ensures meaning { result.0 ≡ meaning_of (top (held stack.old.items)) }
    ensures place { result.1 ≡ place (top (held stack.old.items)) }
    ensures rest { held stack.new.items ≡ below (held stack.old.items) }
{
    let name = pop(stack);
    let named = (meaning_of(&name), place(&name));
    drop(name);
    named
}

// The call of the name on the stack, without arguments.
fn join_bare_call(stack: &mut Vec<Formula>) -> Formula
    ensures { formula_of result ∷ held stack.new.items
        ≡ bare_call (meaning_of (top (held stack.old.items))) (place (top (held stack.old.items)))
        ∷ below (held stack.old.items) }
{
    let (meaning, place) = pop_name(stack);
    Formula::BareCall(meaning, place)
}

// The call of the name on the stack with the arguments above it.
fn join_call(alloc: Global, stack: &mut Vec<Formula>) -> Result<Formula, AllocError>
    ensures { IfOk result (λ f. formula_of f ∷ held stack.new.items
        ≡ call (meaning_of (top (below (held stack.old.items)))) (top (held stack.old.items))
        (place (top (below (held stack.old.items)))) ∷ below (below (held stack.old.items))) }
{
    let arguments = Box::new(alloc, pop(stack))?;
    let (meaning, place) = pop_name(stack);
    Ok(Formula::Call(meaning, arguments, place))
}

// The operand on the stack under a sign at a place.
fn join_unary(
    alloc: Global,
    stack: &mut Vec<Formula>,
    sign: Sign,
    place: usize,
) -> Result<Formula, AllocError>
    ensures { IfOk result (λ f. formula_of f ∷ held stack.new.items
        ≡ unary sign (top (held stack.old.items)) place ∷ below (held stack.old.items)) }
{
    match in_box(alloc, pop(stack)) {
        Err(_) => Err(AllocError),
        Ok(operand) => Ok(Formula::Unary(sign, operand, place)),
    }
}

// The operand on the stack under a cast at a place.
fn join_cast(
    alloc: Global,
    stack: &mut Vec<Formula>,
    width: Width,
    place: usize,
) -> Result<Formula, AllocError>
    ensures { IfOk result (λ f. formula_of f ∷ held stack.new.items
        ≡ cast width (top (held stack.old.items)) place ∷ below (held stack.old.items)) }
{
    match in_box(alloc, pop(stack)) {
        Err(_) => Err(AllocError),
        Ok(operand) => Ok(Formula::Cast(width, operand, place)),
    }
}

// The two sides on the stack joined by an operator at a place.
fn join_sides(
    alloc: Global,
    stack: &mut Vec<Formula>,
    op: Op,
    place: usize,
) -> Result<Formula, AllocError>
    ensures { IfOk result (λ f. formula_of f ∷ held stack.new.items
        ≡ binary op (top (below (held stack.old.items))) (top (held stack.old.items)) place
        ∷ below (below (held stack.old.items))) }
{
    let right = pop(stack);
    let left = pop(stack);
    with_operator(alloc, op, left, right, place)
}

// The formula of a node whose parts wait on the stack.
fn joined<N: Names>(
    alloc: Global,
    stack: &mut Vec<Formula>,
    node: Node,
    first: usize,
    names: &N,
) -> Result<Formula, AllocError>
    requires { first + place_of node < 2 ^ 64 }
    ensures { IfOk result (λ f. formula_of f ∷ held stack.new.items
        ≡ built (N.lookup names.now) first (held stack.old.items) node) }
{
    match node {
        Node::Constant(suffix, at) => Ok(Formula::Constant(
            suffix,
            names.worth(first + at),
            first + at,
        )),
        Node::Name(at) => Ok(Formula::Name(names.meaning(first + at), first + at)),
        Node::Index(_) => join_index(alloc, stack),
        Node::BareCall(_) => Ok(join_bare_call(stack)),
        Node::Call(_) => join_call(alloc, stack),
        Node::Unary(sign, at) => join_unary(alloc, stack, sign, first + at),
        Node::Cast(width, at) => join_cast(alloc, stack, width, first + at),
        Node::Binary(op, at) => join_sides(alloc, stack, op, first + at),
    }
}

/// The formula of an expression's nodes, whose places count from its first token.
pub fn resolve<N: Names>(
    alloc: Global,
    nodes: &[Node],
    first: usize,
    names: &N,
) -> Result<Formula, AllocError>
    requires { IsWritten nodes.now first }
    ensures { IfOk result (λ f. formula_of f ≡ formula_of_nodes (N.lookup names.now) first nodes.now) }
{
    let mut stack = Vec::new(alloc);
    for node in nodes {
        let formula = match joined(alloc, &mut stack, *node, first, names) {
            Err(_) => return Err(AllocError),
            Ok(formula) => formula,
        };
        match push(&mut stack, formula) {
            Err(_) => return Err(AllocError),
            Ok(()) => {}
        }
    }
    Ok(pop(&mut stack))
}
