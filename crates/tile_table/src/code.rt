//! A right side as straight-line code: the values read and those of its affine parts over the turns of the loops round
//! the statement, and steps that each make one value more (A. V. Aho, M. S. Lam, R. Sethi and J. D. Ullman,
//! "Compilers", 2007, 6.2). Promises that the result is what the right side stores, or adds to its place, at all turns.
ghost use Rattle.std.specs.Prelude.{◌≡◌, ◌+◌, ◌≤◌, ◌∷◌, ℕ, suc, ℤ, [], IfOk, List, drop, length, map, take};
ghost use Rattle.scop_syntax.specs.declared.limits.TheConstants.{MOST_ENTRIES};
ghost use Rattle.scop_syntax.specs.Cells.{reads, reads_of, reads_with};
ghost use Rattle.scop_syntax.specs.Tree.{Access, affine, combined as exact_combined};
ghost use Rattle.scop_syntax.specs.Reductions.{addend};
ghost use Rattle.scop_syntax.specs.View.{expression_of, operator_of, right_of, statement_of};
ghost use Rattle.scop_syntax.specs.declared.limits.TheConstants.{MOST_LOOPS};
ghost use Rattle.tile_table.specs.Codes.{Gives, IsStep, IsWellMade, changed as exact_changed, loaded};
ghost use Rattle.tile_table.specs.Codes.{made as exact_made, result_by};
ghost use Rattle.tile_table.specs.declared.code.Step.TheVariants.{Affine as exact_affine};
ghost use Rattle.tile_table.specs.steps.Codes.{IsBegun, IsPut, Makes, MakesAdded, MakesChanged, MakesGiven};
ghost use Rattle.tile_table.specs.steps.Codes.{MakesStored, MakesValue};

use crate::forms::form_over;
use crate::lane::Lane;
use crate::loads::load_count;
use scop_meaning::{combined, complemented, narrowed, negated, shifted_left, shifted_right};
use scop_syntax::{Aff, Expr, Loop, MOST_LOOPS, Operator, Right, Stmt};
use std::alloc::{AllocError, Global};

/// What makes a value of one other.
#[derive(Clone, Copy)]
pub enum Change {
    Negated,
    Complemented,
    ShiftedLeft(u8),
    ShiftedRight(u8),
    Narrowed,
}

/// One step: it makes a value of those in earlier slots, or of a leaf.
#[derive(Clone, Copy)]
pub enum Step {
    Constant(u64),
    Affine(usize),
    Unary(Change, usize),
    Binary(Operator, usize, usize),
}

/// A right side as code. Its slots are the values read, `reads` many in the order of the text, and then what each step
/// makes; `leaves` are its affine parts as forms of the turns, and `result` is the slot of what is stored or added.
#[derive(Drop)]
pub struct Code {
    pub reads: usize,
    pub leaves: Vec<Aff>,
    pub steps: Vec<Step>,
    pub result: usize,
}

/// What a change makes of a value.
#[inline]
fn changed(change: Change, value: u64) -> u64
    ensures { result ≡ exact_changed change value }
{
    match change {
        Change::Negated => negated(value),
        Change::Complemented => complemented(value),
        Change::ShiftedLeft(count) => shifted_left(value, count),
        Change::ShiftedRight(count) => shifted_right(value, count),
        Change::Narrowed => narrowed(value),
    }
}

/// What a step makes.
#[inline]
fn made(step: &Step, leaves: &[Lane], slots: &[u64]) -> u64
    requires { IsStep (length leaves.now) (length slots.now) step.now }
    ensures { result ≡ exact_made (map (λ l. l.at) leaves.now) slots.now step.now }
{
    match step {
        Step::Constant(value) => *value,
        Step::Affine(leaf) => leaves[*leaf].at,
        Step::Unary(change, slot) => changed(*change, slots[*slot]),
        Step::Binary(operator, left, right) => combined(*operator, slots[*left], slots[*right]),
    }
}

impl Code {
    /// The result, where the leaves are at `leaves` and the first slots hold the values read. The others are overwritten.
    #[inline]
    pub fn run(&self, leaves: &[Lane], slots: &mut [u64]) -> u64
        requires made { IsWellMade self.now }
        requires leaves { length self.now.leaves.items ≤ length leaves.now }
        requires room { self.now.reads + length self.now.steps.items ≤ length slots.old }
        ensures result { result
            ≡ result_by self.now (map (λ l. l.at) leaves.now) (take self.now.reads slots.old) }
        ensures reads { take self.now.reads slots.new ≡ take self.now.reads slots.old }
        ensures long { length slots.new ≡ length slots.old }
    {
        let reads = self.reads;
        let steps = self.steps.as_slice();
        for at in 0..steps.len() {
            slots[reads + at] = made(&steps[at], leaves, slots);
        }
        slots[self.result]
    }
}

/// Puts a step behind the others: the slot of what it makes.
fn put(code: &mut Code, step: Step) -> Result<usize, AllocError>
    requires { code.old.reads ≤ 16 }
    ensures { IfOk result (IsPut [] step code.old code.new) }
{
    let slot = code.reads + code.steps.len();
    code.steps.push(step)?;
    Ok(slot)
}

/// Puts a step behind the others that takes the value of this form, a leaf more.
fn put_leaf(code: &mut Code, form: Aff) -> Result<usize, AllocError>
    requires { code.old.reads ≤ 16 }
    ensures { IfOk result
        (IsPut (form ∷ []) (exact_affine (length code.old.leaves.items)) code.old code.new) }
{
    let slot = code.reads + code.steps.len();
    let leaf = code.leaves.len();
    code.leaves.push(form)?;
    code.steps.push(Step::Affine(leaf))?;
    Ok(slot)
}

/// Makes code for an affine part.
fn put_form(
    alloc: Global,
    form: &Aff,
    heads: &[&Loop],
    params: &[i64],
    code: &mut Code,
) -> Result<usize, AllocError>
    requires loops { length heads.now ≤ MOST_LOOPS }
    requires room { length params.now + length heads.now ≤ MOST_ENTRIES }
    requires begun { IsBegun code.old }
    ensures { (at : ℕ) → IfOk result
        (MakesValue params.now (map (λ h. h.now) heads.now) (affine form.now) at code.old code.new) }
{
    let over = form_over(alloc, form, heads, params)?;
    put_leaf(code, over)
}

/// Makes code for a change of an expression's value; `at` goes on as for the expression.
#[cycle(putting)]
fn put_changed(
    alloc: Global,
    change: Change,
    operand: &Expr,
    heads: &[&Loop],
    params: &[i64],
    at: &mut usize,
    code: &mut Code,
) -> Result<usize, AllocError>
    requires loops { length heads.now ≤ MOST_LOOPS }
    requires room { length params.now + length heads.now ≤ MOST_ENTRIES }
    requires begun { IsBegun code.old }
    requires reads { at.old + length (reads_of (expression_of operand.now)) ≤ code.old.reads }
    ensures at { IfOk result (λ slot. at.new ≡ at.old + length (reads_of (expression_of operand.now))) }
    ensures makes { IfOk result (MakesChanged change params.now (map (λ h. h.now) heads.now)
        (expression_of operand.now) at.old code.old code.new) }
{
    let slot = put_value(alloc, operand, heads, params, at, code)?;
    put(code, Step::Unary(change, slot))
}

/// Makes code for an expression, whose reads are those from `at` on; `at` goes on behind them.
#[cycle(putting)]
fn put_value(
    alloc: Global,
    expression: &Expr,
    heads: &[&Loop],
    params: &[i64],
    at: &mut usize,
    code: &mut Code,
) -> Result<usize, AllocError>
    requires loops { length heads.now ≤ MOST_LOOPS }
    requires room { length params.now + length heads.now ≤ MOST_ENTRIES }
    requires begun { IsBegun code.old }
    requires reads { at.old + length (reads_of (expression_of expression.now)) ≤ code.old.reads }
    ensures at { IfOk result (λ slot. at.new ≡ at.old + length (reads_of (expression_of expression.now))) }
    ensures makes { IfOk result
        (MakesValue params.now (map (λ h. h.now) heads.now) (expression_of expression.now) at.old code.old code.new) }
{
    match expression {
        Expr::Read(_) => {
            let slot = *at;
            *at += 1;
            Ok(slot)
        }
        Expr::Constant(value) => put(code, Step::Constant(*value)),
        Expr::Affine(form) => put_form(alloc, form, heads, params, code),
        Expr::Negated(operand) => {
            put_changed(alloc, Change::Negated, operand, heads, params, at, code)
        }
        Expr::Complemented(operand) => {
            put_changed(
                alloc,
                Change::Complemented,
                operand,
                heads,
                params,
                at,
                code,
            )
        }
        Expr::Cast(operand) => put_value(alloc, operand, heads, params, at, code),
        Expr::Binary(operator, left, right) => {
            let first = put_value(alloc, left, heads, params, at, code)?;
            let second = put_value(alloc, right, heads, params, at, code)?;
            put(code, Step::Binary(*operator, first, second))
        }
        Expr::ShiftedLeft(operand, count) => {
            let change = Change::ShiftedLeft(*count);
            put_changed(alloc, change, operand, heads, params, at, code)
        }
        Expr::ShiftedRight(operand, count) => {
            let change = Change::ShiftedRight(*count);
            put_changed(alloc, change, operand, heads, params, at, code)
        }
        Expr::Narrowed(_, operand) => {
            put_changed(alloc, Change::Narrowed, operand, heads, params, at, code)
        }
    }
}

/// Makes code for an operator between the place, which is read first, and an expression.
fn put_combined(
    alloc: Global,
    operator: Operator,
    value: &Expr,
    heads: &[&Loop],
    params: &[i64],
    code: &mut Code,
) -> Result<usize, AllocError>
    requires loops { length heads.now ≤ MOST_LOOPS }
    requires room { length params.now + length heads.now ≤ MOST_ENTRIES }
    requires begun { IsBegun code.old }
    requires reads { code.old.reads ≡ suc (length (reads_of (expression_of value.now))) }
    ensures { IfOk result (MakesStored params.now (map (λ h. h.now) heads.now)
        (exact_combined (operator_of operator) (expression_of value.now)) code.old code.new) }
{
    let slot = put_value(alloc, value, heads, params, &mut 1, code)?;
    put(code, Step::Binary(operator, 0, slot))
}

/// Makes code for a right side, which has as many reads as the code takes.
fn put_right(
    alloc: Global,
    right: &Right,
    heads: &[&Loop],
    params: &[i64],
    code: &mut Code,
) -> Result<usize, AllocError>
    requires loops { length heads.now ≤ MOST_LOOPS }
    requires room { length params.now + length heads.now ≤ MOST_ENTRIES }
    requires begun { IsBegun code.old }
    requires reads { (place : Access) → code.old.reads ≡ length (reads_with place (right_of right.now)) }
    ensures { IfOk result
        (MakesStored params.now (map (λ h. h.now) heads.now) (right_of right.now) code.old code.new) }
{
    match right {
        Right::Assigned(value) => put_value(alloc, value, heads, params, &mut 0, code),
        Right::Combined(operator, value) => {
            put_combined(alloc, *operator, value, heads, params, code)
        }
        Right::ShiftedLeft(count) => put(code, Step::Unary(Change::ShiftedLeft(*count), 0)),
        Right::ShiftedRight(count) => put(code, Step::Unary(Change::ShiftedRight(*count), 0)),
        Right::CombinedNarrow(operator, value) => {
            let slot = put_combined(alloc, *operator, value, heads, params, code)?;
            put(code, Step::Unary(Change::Narrowed, slot))
        }
        Right::ShiftedLeftNarrow(count) => {
            let slot = put(code, Step::Unary(Change::ShiftedLeft(*count), 0))?;
            put(code, Step::Unary(Change::Narrowed, slot))
        }
    }
}

/// Puts a step that makes what `operator=` adds of the value in a slot.
fn put_addend(code: &mut Code, operator: Operator, slot: usize) -> Result<usize, AllocError>
    requires { code.old.reads ≤ 16 }
    ensures { (loops : ℕ) (meant : List ℤ → List ℕ → ℕ) (before : Code) → Makes loops meant before code.old slot
        → IfOk result (Makes loops (λ turns values. addend (operator_of operator) (meant turns values)) before code.new) }
{
    match operator {
        Operator::Plus => Ok(slot),
        Operator::Minus => put(code, Step::Unary(Change::Negated, slot)),
        Operator::Times => put(code, Step::Constant(0)),
        Operator::And => put(code, Step::Constant(0)),
        Operator::Or => put(code, Step::Constant(0)),
        Operator::Xor => put(code, Step::Constant(0)),
    }
}

/// Makes code for what a right side adds to its place, which is not among the reads of the code.
fn put_added(
    alloc: Global,
    right: &Right,
    heads: &[&Loop],
    params: &[i64],
    code: &mut Code,
) -> Result<usize, AllocError>
    requires loops { length heads.now ≤ MOST_LOOPS }
    requires room { length params.now + length heads.now ≤ MOST_ENTRIES }
    requires begun { IsBegun code.old }
    requires reads { (place : Access) → code.old.reads ≡ length (drop 1 (reads_with place (right_of right.now))) }
    ensures { IfOk result
        (MakesAdded params.now (map (λ h. h.now) heads.now) (right_of right.now) code.old code.new) }
{
    match right {
        Right::Assigned(_) => put(code, Step::Constant(0)),
        Right::Combined(operator, value) => {
            let slot = put_value(alloc, value, heads, params, &mut 0, code)?;
            put_addend(code, *operator, slot)
        }
        Right::ShiftedLeft(_) => put(code, Step::Constant(0)),
        Right::ShiftedRight(_) => put(code, Step::Constant(0)),
        Right::CombinedNarrow(..) => put(code, Step::Constant(0)),
        Right::ShiftedLeftNarrow(_) => put(code, Step::Constant(0)),
    }
}

/// Makes code for what a right side gives its place: what it adds to it, or what it stores there.
fn put_given(
    alloc: Global,
    right: &Right,
    adds: bool,
    heads: &[&Loop],
    params: &[i64],
    code: &mut Code,
) -> Result<usize, AllocError>
    requires loops { length heads.now ≤ MOST_LOOPS }
    requires room { length params.now + length heads.now ≤ MOST_ENTRIES }
    requires begun { IsBegun code.old }
    requires reads { (place : Access) → code.old.reads
        ≡ length (loaded adds (record { place = place; right = right_of right.now })) }
    ensures { IfOk result
        (MakesGiven adds params.now (map (λ h. h.now) heads.now) (right_of right.now) code.old code.new) }
{
    if adds {
        put_added(alloc, right, heads, params, code)
    } else {
        put_right(alloc, right, heads, params, code)
    }
}

/// The code of what the statement gives its place over the turns of `heads`, where the parameters are `params`.
///
/// # Errors
/// `AllocError` alone.
pub(crate) fn compiled(
    alloc: Global,
    statement: &Stmt,
    adds: bool,
    heads: &[&Loop],
    params: &[i64],
) -> Result<Code, AllocError>
    requires reads { length (reads (statement_of statement.now)) ≤ 16 }
    requires loops { length heads.now ≤ MOST_LOOPS }
    requires room { length params.now + length heads.now ≤ MOST_ENTRIES }
    ensures { IfOk result (Gives adds params.now (map (λ h. h.now) heads.now) (right_of statement.now.right)) }
{
    let mut code = Code {
        reads: load_count(statement, adds),
        leaves: Vec::new(alloc),
        steps: Vec::new(alloc),
        result: 0,
    };
    code.result = put_given(alloc, &statement.right, adds, heads, params, &mut code)?;
    Ok(code)
}
