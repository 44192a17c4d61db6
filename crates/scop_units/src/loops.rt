//! The head of a loop: its faults, its direction, its stride and its condition.

ghost use Rattle.std.specs.Prelude.{◌≡◌, ◌+◌, ◌<◌, ◌≤◌, ◌||◌, true, ◌^◌, IfOk, None, is_some, map};
ghost use Rattle.std.specs.List.{list_any};
ghost use Rattle.scop_roles.specs.declared.formula.Role.TheVariants as role;
ghost use Rattle.scop_roles.specs.Faults.{faults, first, first_of, told};
ghost use Rattle.scop_roles.specs.Formula.{argument_of, formula_of};
ghost use Rattle.scop_units.specs.Loops.{added_stride, by_count, is_variable, change_faults, change_stride};
ghost use Rattle.scop_units.specs.Loops.{condition_form, is_entry, is_form, loop_faults, loop_of, names_entry};
ghost use Rattle.scop_units.specs.Loops.{part_faults, rises, rises_between, set_stride, stride, stride_of};
ghost use Rattle.scop_units.specs.Scopes.{entries, iterator_fault};
ghost use Rattle.scop_units.specs.View.{change_of, head_of, scope_of};

use crate::scope::{Scope, copied};
use crate::units::{or_fault, told, told_where};
use scop_expressions::{Assign, Count, Op, Suffix};
use scop_roles::{
    Argument, Fault, Formula, Kind, Meaning, Role, fault, first_of, form, push_tests,
};
use scop_syntax::{Aff, Loop, MOST_LOOPS, MOST_STRIDE, Test};
use std::alloc::{AllocError, Global};

/// `++` or `--`, or an assignment with its right side.
#[derive(Drop)]
pub enum Change {
    Counted(Count),
    Assigned(Assign, Formula),
}

/// The parts of a loop's head.
#[derive(Drop)]
pub struct LoopHead<'a> {
    pub place: usize,
    pub new: bool,
    pub name_at: usize,
    pub iterator: &'a [u8],
    pub first: Formula,
    pub second: Formula,
    pub changed: Formula,
    pub change: Change,
}

fn is_variable(entry: usize, meaning: Meaning) -> bool
    ensures { result ≡ is_variable entry meaning }
{
    match meaning {
        Meaning::Variable(number) => number == entry,
        _ => false,
    }
}

// The entry itself.
fn is_entry(entry: usize, formula: &Formula) -> bool
    ensures { result ≡ is_entry entry (formula_of formula.now) }
{
    match formula {
        Formula::Name(meaning, _) => is_variable(entry, *meaning),
        _ => false,
    }
}

fn one_of(first: bool, second: bool, third: bool) -> bool
    ensures { result ≡ ((first || second) || third) }
{
    first || second || third
}

// The entry is named in one of these.
#[cycle(naming)]
fn names_in_any(entry: usize, formulas: &[Formula]) -> bool
    ensures { result ≡ list_any (names_entry entry) (map formula_of formulas.now) }
{
    for formula in formulas {
        if names_entry(entry, formula) {
            return true;
        }
    }
    false
}

// The entry is named in one of these arguments.
#[cycle(naming)]
fn names_in_arguments(entry: usize, arguments: &[Argument]) -> bool
    ensures { result ≡ list_any (λ a. names_entry entry a.0) (map argument_of arguments.now) }
{
    for argument in arguments {
        if names_entry(entry, &argument.value) {
            return true;
        }
    }
    false
}

// The entry is named.
#[cycle(naming)]
fn names_entry(entry: usize, formula: &Formula) -> bool
    ensures { result ≡ names_entry entry (formula_of formula.now) }
{
    match formula {
        Formula::Constant(_, _, _) => false,
        Formula::Name(meaning, _) => is_variable(entry, *meaning),
        Formula::Index(place, earlier, last) => one_of(
            names_entry(entry, place),
            names_in_any(entry, earlier),
            names_entry(entry, last),
        ),
        Formula::BareCall(_, _) => false,
        Formula::Call(_, arguments, _) => names_entry(entry, arguments),
        Formula::Unary(_, operand, _) => names_entry(entry, operand),
        Formula::Cast(_, operand, _) => names_entry(entry, operand),
        Formula::Commas(first, between, last, _) => one_of(
            names_entry(entry, first),
            names_in_arguments(entry, between),
            names_entry(entry, last),
        ),
        Formula::Binary(_, left, right, _) => names_entry(entry, left) || names_entry(entry, right),
    }
}

// The iterator alone on one side, and not on the other.
fn rises_between(entry: usize, up: bool, left: &Formula, right: &Formula) -> Option<bool>
    ensures { result ≡ rises_between entry up (formula_of left.now) (formula_of right.now) }
{
    if is_entry(entry, left) && !names_entry(entry, right) {
        Some(up)
    } else if is_entry(entry, right) && !names_entry(entry, left) {
        Some(!up)
    } else {
        None
    }
}

// Whether the iterator rises to the other side of a condition, or falls to it.
fn rises(entry: usize, condition: &Formula) -> Option<bool>
    ensures { result ≡ rises entry (formula_of condition.now) }
{
    match condition {
        Formula::Binary(op, left, right, _) => match op {
            Op::Less | Op::AtMost => rises_between(entry, true, left, right),
            Op::Greater | Op::AtLeast => rises_between(entry, false, left, right),
            _ => None,
        },
        _ => None,
    }
}

// By so many up, or down.
fn by_count(up: bool, value: u64) -> i64
    requires some { 1 ≤ value }
    requires few { value ≤ 16 }
    ensures { result ≡ by_count up value }
{
    if up { value as i64 } else { -(value as i64) }
}

// A constant without suffix from 1 to 16.
fn stride_of(up: bool, formula: &Formula) -> Option<i64>
    ensures { result ≡ stride_of up (formula_of formula.now) }
{
    match formula {
        Formula::Constant(Suffix::Absent(_), value, _) => {
            if 1 <= *value && *value <= MOST_STRIDE {
                Some(by_count(up, *value))
            } else {
                None
            }
        }
        _ => None,
    }
}

fn added_stride(entry: usize, up: bool, left: &Formula, right: &Formula) -> Option<i64>
    ensures { result ≡ added_stride entry up (formula_of left.now) (formula_of right.now) }
{
    if is_entry(entry, left) {
        stride_of(up, right)
    } else {
        None
    }
}

// `i = i + k`, `i = i - k`
fn set_stride(entry: usize, formula: &Formula) -> Option<i64>
    ensures { result ≡ set_stride entry (formula_of formula.now) }
{
    match formula {
        Formula::Binary(op, left, right, _) => match op {
            Op::Plus => added_stride(entry, true, left, right),
            Op::Minus => added_stride(entry, false, left, right),
            _ => None,
        },
        _ => None,
    }
}

fn change_stride(entry: usize, change: &Change) -> Option<i64>
    ensures { result ≡ change_stride entry (change_of change.now) }
{
    match change {
        Change::Counted(Count::Up) => Some(1),
        Change::Counted(Count::Down) => Some(-1),
        Change::Assigned(Assign::Plus, side) => stride_of(true, side),
        Change::Assigned(Assign::Minus, side) => stride_of(false, side),
        Change::Assigned(Assign::Set, side) => set_stride(entry, side),
        Change::Assigned(_, _) => None,
    }
}

// The stride, where the step changes the iterator.
fn stride(entry: usize, head: &LoopHead) -> Option<i64>
    ensures { result ≡ stride entry (head_of head.now) }
{
    if is_entry(entry, &head.changed) {
        change_stride(entry, &head.change)
    } else {
        None
    }
}

// The condition and the step have forms that are read, of one direction.
fn is_form(entry: usize, head: &LoopHead) -> bool
    ensures { result ≡ is_form entry (head_of head.now) }
{
    match (rises(entry, &head.second), stride(entry, head)) {
        (Some(up), Some(stride)) => up == (0 <= stride),
        _ => false,
    }
}

// The first fault of a step's right side.
fn change_fault(alloc: Global, entries: usize, change: &Change) -> Result<Option<Fault>, AllocError>
    ensures { IfOk result (λ fault. fault ≡ first (change_faults entries (change_of change.now))) }
{
    match change {
        Change::Counted(_) => Ok(None),
        Change::Assigned(_, side) => fault(alloc, side, entries, Role::Free),
    }
}

// The first fault of what stands inside.
fn inner_fault(alloc: Global, entries: usize, head: &LoopHead) -> Result<Option<Fault>, AllocError>
    ensures { IfOk result (λ fault. fault ≡ first_of (first (faults entries role.Loose (head_of head.now).second))
        (first_of (first (faults entries role.Free (head_of head.now).changed))
        (first (change_faults entries (head_of head.now).change)))) }
{
    let second = fault(alloc, &head.second, entries, Role::Loose)?;
    let changed = fault(alloc, &head.changed, entries, Role::Free)?;
    let change = change_fault(alloc, entries, &head.change)?;
    Ok(first_of(second, first_of(changed, change)))
}

// The first fault of the parts.
fn part_fault(alloc: Global, scope: &Scope, head: &LoopHead) -> Result<Option<Fault>, AllocError>
    requires { entries (scope_of scope.now) < 2 ^ 63 }
    ensures { IfOk result (λ fault. fault ≡ first (part_faults (scope_of scope.now) (head_of head.now))) }
{
    let entries = scope.entries();
    let name = told(head.name_at, scope.iterator_fault(head.new, head.iterator));
    let first = fault(alloc, &head.first, entries, Role::Affine)?;
    let inner = inner_fault(alloc, entries + 1, head)?;
    Ok(first_of(name, first_of(first, inner)))
}

/// The first fault of a loop's head.
pub fn loop_fault(
    alloc: Global,
    scope: &Scope,
    head: &LoopHead,
) -> Result<Option<Fault>, AllocError>
    requires { entries (scope_of scope.now) < 2 ^ 63 }
    ensures { IfOk result (λ fault. fault ≡ first (loop_faults (scope_of scope.now) (head_of head.now))) }
{
    let part = part_fault(alloc, scope, head)?;
    let own = told_where(!is_form(scope.entries(), head), head.place, Kind::LoopForm);
    let deep = told_where(
        MOST_LOOPS <= scope.open_loops.len(),
        head.place,
        Kind::Depth,
    );
    Ok(first_of(or_fault(part, own), deep))
}

// The condition as a form that is at least 0, over the entries up to the iterator's.
fn condition_form(alloc: Global, entry: usize, condition: &Formula) -> Result<Aff, AllocError>
    requires room { entry < 2 ^ 63 }
    requires faultless { first (faults (entry + 1) role.Loose (formula_of condition.now)) ≡ None }
    requires compares { is_some (rises entry (formula_of condition.now)) ≡ true }
    ensures { IfOk result (λ form. form ≡ condition_form (entry + 1) (formula_of condition.now)) }
{
    let mut tests = Vec::new(alloc);
    push_tests(alloc, condition, entry + 1, &mut tests)?;
    match tests.pop() {
        Some(Test::AtLeast(form)) => Ok(form),
        Some(Test::Equal(form)) => Ok(form),
        None => unreachable!(),
    }
}

/// The loop that a head without faults stands for.
pub fn loop_of(alloc: Global, scope: &Scope, head: &LoopHead) -> Result<Loop, AllocError>
    requires room { entries (scope_of scope.now) < 2 ^ 63 }
    requires faultless { first (loop_faults (scope_of scope.now) (head_of head.now)) ≡ None }
    ensures { IfOk result (λ l. l ≡ loop_of (scope_of scope.now) (head_of head.now)) }
{
    let entries = scope.entries();
    Ok(Loop {
        iterator: copied(alloc, head.iterator)?,
        first: form(alloc, &head.first, entries)?,
        stride: stride(entries, head).unwrap_or(0),
        condition: condition_form(alloc, entries, &head.second)?,
    })
}
