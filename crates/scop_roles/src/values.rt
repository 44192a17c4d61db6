//! What a formula without faults stands for: a value, a cell, or the comparisons of a condition.
ghost use Rattle.std.specs.Prelude.{[], ◌++◌, ◌∷◌, ◌≡◌, ◌≤◌, ◌&&◌, ℕ, IfOk, List, None, OnOk, false, map, true};
ghost use Rattle.std.specs.Prelude.{unsigned_abs};
ghost use Rattle.std.specs.List.{fold};
ghost use Rattle.whole_numbers.specs.Affine.{Affine};
ghost use Rattle.scop_syntax.specs.Kernel.{IsAffine};
ghost use Rattle.scop_syntax.specs.Tree as scop;
ghost use Rattle.scop_syntax.specs.Tree.{Expression, affine, implied, read};
ghost use Rattle.scop_syntax.specs.View.{expression_of, narrowing_of, operator_of, test_of};
ghost use Rattle.scop_roles.specs.declared.formula.Role.TheVariants as role;
ghost use Rattle.scop_roles.specs.Faults.{faults, first, is_count, place_faults};
ghost use Rattle.scop_roles.specs.Formula.{Formula as Tree, argument_of, binary, cast, formula_of, index};
ghost use Rattle.scop_roles.specs.Formula.{name, unary, with_argument};
ghost use Rattle.scop_roles.specs.Forms.{form, has_name, is_and, is_long, is_narrow, is_shift, is_signed};
ghost use Rattle.scop_roles.specs.Values.{IsSideOf, IsValueOf, access, array_number, asked, cast_to, combined};
ghost use Rattle.scop_roles.specs.Values.{comparison, count, difference, expression, narrowed_where, operator};
ghost use Rattle.scop_roles.specs.Values.{read_places, signed_value, subscript_forms, tests};

use crate::forms::{constant_form, multiple, plus_constant, sum, variable_form};
use crate::formula::{Argument, Formula, Meaning, meaning_of, place};
use crate::judgement::affine_form;
use crate::pairs::{both, boxed, in_box, push_behind};
use crate::roles::{
    is_and, is_between, is_long_constant, is_minus, is_narrow_array, is_narrow_width, is_number,
    is_plain, is_shift, is_sum_or_product, keeps_type, makes_narrow,
};
use scop_expressions::{Op, Sign, Width};
use scop_syntax::{Access, Aff, Expr, Narrowing, Operator, Test};
use std::alloc::{AllocError, Global};

/// Whether a formula is signed: a constant without suffix, a parameter, an iterator, or a sum, a difference, a product
/// or an opposite of such.
pub fn is_signed(formula: &Formula) -> bool
    ensures { result ≡ is_signed (formula_of formula.now) }
{
    match formula {
        Formula::Constant(suffix, _, _) => is_plain(*suffix),
        Formula::Name(meaning, _) => is_number(*meaning),
        Formula::Unary(sign, operand, _) => is_minus(*sign) && is_signed(operand),
        Formula::Binary(op, left, right, _) => {
            is_sum_or_product(*op) && is_signed(left) && is_signed(right)
        }
        _ => false,
    }
}

// Whether a formula is unsigned with 32 bits: a cell of such an array, a cast to `uint32_t`, or what operators make of
// such.
fn is_narrow(formula: &Formula) -> bool
    ensures { result ≡ is_narrow (formula_of formula.now) }
{
    match formula {
        Formula::Index(_, _, _) => is_narrow_array(meaning_of(formula)),
        Formula::Unary(sign, operand, _) => keeps_type(*sign) && is_narrow(operand),
        Formula::Cast(width, _, _) => is_narrow_width(*width),
        Formula::Binary(op, left, right, _) => makes_narrow(
            *op,
            is_narrow(left),
            is_narrow(right),
            is_signed(left),
            is_signed(right),
        ),
        _ => false,
    }
}

// Whether a name stands in a formula that is signed.
fn has_name(formula: &Formula) -> bool
    ensures { is_signed (formula_of formula.now) ≡ true → result ≡ has_name (formula_of formula.now) }
{
    match formula {
        Formula::Constant(_, _, _) => false,
        Formula::Unary(_, operand, _) => has_name(operand),
        Formula::Binary(_, left, right, _) => has_name(left) || has_name(right),
        _ => true,
    }
}

/// Whether a formula is a signed part that may not stand beside 32 bits: a name stands in it, or it is a constant of
/// more.
pub fn is_long(formula: &Formula) -> bool
    ensures { result ≡ is_long (formula_of formula.now) }
{
    match formula {
        Formula::Constant(suffix, value, _) => is_long_constant(*suffix, *value),
        Formula::Name(meaning, _) => is_number(*meaning),
        Formula::Unary(_, _, _) => is_signed(formula) && has_name(formula),
        Formula::Binary(_, _, _, _) => is_signed(formula) && has_name(formula),
        _ => false,
    }
}

/// Whether a formula is a constant without suffix, from the one number up to the other.
pub fn is_count(formula: &Formula, low: u64, high: u64) -> bool
    ensures { result ≡ is_count low high (formula_of formula.now) }
{
    match formula {
        Formula::Constant(suffix, value, _) => is_between(*suffix, *value, low, high),
        _ => false,
    }
}

fn array_number(meaning: Meaning) -> usize
    ensures { result ≡ array_number meaning }
{
    match meaning {
        Meaning::Array(array, _, _) => array,
        _ => 0,
    }
}

fn push_test(pushed: &mut Vec<Test>, test: Test) -> Result<(), AllocError>
    ensures { OnOk result (map test_of pushed.new.items ≡ map test_of pushed.old.items ++ test_of test ∷ []) }
{
    pushed.push(test)?;
    Ok(())
}

// The form of a formula that is affine.
fn form_or_zero(alloc: Global, formula: &Formula, entries: usize) -> Result<Aff, AllocError>
    ensures form { IfOk result (λ f. first (faults entries role.Affine (formula_of formula.now)) ≡ None
        → f ≡ form entries (formula_of formula.now)) }
    ensures limits { IfOk result (IsAffine entries) }
{
    let found = affine_form(alloc, formula, entries)?;
    match found {
        Some(form) => Ok(form),
        None => constant_form(alloc, entries, 0),
    }
}

// The form of a further subscript of a place without fault, behind those of the others.
fn push_form(
    alloc: Global,
    subscript: &Formula,
    entries: usize,
    forms: &mut Vec<Aff>,
) -> Result<(), AllocError>
    ensures { OnOk result ((p : Tree) (xs : List Affine)
        → (first (place_faults entries p) ≡ None → forms.old.items ≡ xs ++ subscript_forms entries p)
        → first (place_faults entries (index p (formula_of subscript.now))) ≡ None
        → forms.new.items ≡ xs ++ subscript_forms entries (index p (formula_of subscript.now))) }
{
    match form_or_zero(alloc, subscript, entries) {
        Err(_) => Err(AllocError),
        Ok(form) => push_behind(forms, form),
    }
}

// The forms of further subscripts of a place without fault, behind those of the others.
fn push_forms(
    alloc: Global,
    subscripts: &[Formula],
    entries: usize,
    forms: &mut Vec<Aff>,
) -> Result<(), AllocError>
    ensures { OnOk result ((p : Tree) (xs : List Affine)
        → (first (place_faults entries p) ≡ None → forms.old.items ≡ xs ++ subscript_forms entries p)
        → first (place_faults entries (fold index p (map formula_of subscripts.now))) ≡ None
        → forms.new.items ≡ xs ++ subscript_forms entries (fold index p (map formula_of subscripts.now))) }
{
    for subscript in subscripts {
        match push_form(alloc, subscript, entries, forms) {
            Err(_) => return Err(AllocError),
            Ok(()) => {}
        }
    }
    Ok(())
}

// The forms of the subscripts of a place without fault, behind others.
fn push_subscripts(
    alloc: Global,
    place: &Formula,
    entries: usize,
    forms: &mut Vec<Aff>,
) -> Result<(), AllocError>
    ensures { OnOk result (first (place_faults entries (formula_of place.now)) ≡ None
        → forms.new.items ≡ forms.old.items ++ subscript_forms entries (formula_of place.now)) }
{
    match place {
        Formula::Index(inner, earlier, last) => {
            match push_subscripts(alloc, inner, entries, forms) {
                Err(_) => return Err(AllocError),
                Ok(()) => {}
            }
            match push_forms(alloc, earlier, entries, forms) {
                Err(_) => return Err(AllocError),
                Ok(()) => {}
            }
            push_form(alloc, last, entries, forms)
        }
        _ => Ok(()),
    }
}

// The cell of a place without fault.
fn cell(alloc: Global, place: &Formula, entries: usize) -> Result<Access, AllocError>
    ensures { IfOk result (λ a. first (place_faults entries (formula_of place.now)) ≡ None
        → a ≡ access entries (formula_of place.now)) }
{
    let mut subscripts = Vec::new(alloc);
    push_subscripts(alloc, place, entries, &mut subscripts)?;
    Ok(Access {
        array: array_number(meaning_of(place)),
        subscripts,
    })
}

/// The cell of a place whose name and subscripts have no fault.
pub fn access(alloc: Global, place: &Formula, entries: usize) -> Result<Access, AllocError>
    requires { first (place_faults entries (formula_of place.now)) ≡ None }
    ensures { IfOk result (λ a. a ≡ access entries (formula_of place.now)) }
{
    cell(alloc, place, entries)
}

// The operator of a value.
fn operator(op: Op) -> Operator
    ensures { operator_of result ≡ operator op }
{
    match op {
        Op::Plus => Operator::Plus,
        Op::Minus => Operator::Minus,
        Op::Times => Operator::Times,
        Op::BitAnd => Operator::And,
        Op::BitXor => Operator::Xor,
        _ => Operator::Or,
    }
}

// The count of a shift.
fn count(formula: &Formula) -> u8
    ensures { is_count 0 63 (formula_of formula.now) ≡ true → result ≡ count (formula_of formula.now) }
{
    match formula {
        Formula::Constant(suffix, value, _) => {
            if is_between(*suffix, *value, 0, 63) && *value <= 63 {
                *value as u8
            } else {
                0
            }
        }
        _ => 0,
    }
}

// The form of a name that stands for a number, else of 0.
fn name_form(alloc: Global, meaning: Meaning, entries: usize) -> Result<Aff, AllocError>
    ensures { IfOk result (λ f. (at : ℕ) → f ≡ form entries (name meaning at)) }
{
    match meaning {
        Meaning::Variable(variable) => variable_form(alloc, entries, variable),
        Meaning::Unknown | Meaning::Closed | Meaning::Array(_, _, _) => constant_form(
            alloc, entries, 0,
        ),
    }
}

// The value of a name.
fn name_value(alloc: Global, meaning: Meaning, entries: usize) -> Result<Expr, AllocError>
    ensures { IfOk result (λ e. (at : ℕ) → expression_of e ≡ affine (form entries (name meaning at))) }
{
    let form = name_form(alloc, meaning, entries)?;
    Ok(Expr::Affine(form))
}

// The value of a place: that of its cell.
fn place_value(alloc: Global, place: &Formula, entries: usize) -> Result<Expr, AllocError>
    ensures { IfOk result (λ e. first (place_faults entries (formula_of place.now)) ≡ None
        → expression_of e ≡ read (access entries (formula_of place.now))) }
{
    let access = cell(alloc, place, entries)?;
    Ok(Expr::Read(access))
}

// A value that is a signed part.
fn signed_part(alloc: Global, formula: &Formula, entries: usize) -> Result<Expr, AllocError>
    ensures { IfOk result (λ e. first (faults entries role.Affine (formula_of formula.now)) ≡ None
        → expression_of e ≡ affine (form entries (formula_of formula.now))) }
{
    let form = form_or_zero(alloc, formula, entries)?;
    Ok(Expr::Affine(form))
}

/// A value, kept to 32 bits where this is so.
pub fn narrowed_where(
    alloc: Global,
    narrow: bool,
    narrowing: Narrowing,
    value: Expr,
) -> Result<Expr, AllocError>
    ensures { IfOk result (λ e. expression_of e
        ≡ narrowed_where narrow (narrowing_of narrowing) (expression_of value)) }
{
    if !narrow {
        return Ok(value);
    }
    match in_box(alloc, value) {
        Err(_) => Err(AllocError),
        Ok(value) => Ok(Expr::Narrowed(narrowing, value)),
    }
}

// A shift of a value.
fn shift(op: Op, value: Box<Expr>, count: u8) -> Expr
    requires { is_shift op ≡ true }
    ensures { (d : Expression) → expression_of result ≡ combined op (expression_of value.value) d count }
{
    match op {
        Op::ShiftLeft => Expr::ShiftedLeft(value, count),
        Op::ShiftRight => Expr::ShiftedRight(value, count),
        _ => unreachable!(),
    }
}

// A shifted value, kept to 32 bits where this is so.
fn shifted(alloc: Global, op: Op, narrow: bool, value: Expr, count: u8) -> Result<Expr, AllocError>
    requires { is_shift op ≡ true }
    ensures { IfOk result (λ e. (d : Expression) → expression_of e
        ≡ narrowed_where narrow implied (combined op (expression_of value) d count)) }
{
    match in_box(alloc, value) {
        Err(_) => Err(AllocError),
        Ok(value) => narrowed_where(alloc, narrow, Narrowing::Implied, shift(op, value, count)),
    }
}

// The value of a shift, from that of its left side.
fn shift_value(
    alloc: Global,
    op: Op,
    narrow: bool,
    left: Result<Expr, AllocError>,
    right: &Formula,
) -> Result<Expr, AllocError>
    requires { is_shift op ≡ true }
    ensures { (n : ℕ) (f : Tree) (at : ℕ) → is_signed (binary op f (formula_of right.now) at) ≡ false
        → narrow ≡ is_narrow (binary op f (formula_of right.now) at)
        → IfOk left (λ e. IsSideOf n narrow f (expression_of e))
        → IfOk result (λ e. IsValueOf n (binary op f (formula_of right.now) at) (expression_of e)) }
{
    match left {
        Err(_) => Err(AllocError),
        Ok(left) => shifted(alloc, op, narrow, left, count(right)),
    }
}

// The opposite of a value, or its complement.
fn under_sign(sign: Sign, value: Box<Expr>) -> Expr
    ensures { expression_of result ≡ signed_value sign (expression_of value.value) }
{
    match sign {
        Sign::Minus => Expr::Negated(value),
        Sign::Complement | Sign::Not => Expr::Complemented(value),
    }
}

// The same, kept to 32 bits where this is so.
fn signed_value(alloc: Global, sign: Sign, narrow: bool, value: Expr) -> Result<Expr, AllocError>
    ensures { IfOk result (λ e. expression_of e
        ≡ narrowed_where narrow implied (signed_value sign (expression_of value))) }
{
    match in_box(alloc, value) {
        Err(_) => Err(AllocError),
        Ok(value) => narrowed_where(alloc, narrow, Narrowing::Implied, under_sign(sign, value)),
    }
}

// The value of an operand under a sign, where both are no signed part.
fn unary_value(
    alloc: Global,
    sign: Sign,
    narrow: bool,
    operand: Result<Expr, AllocError>,
) -> Result<Expr, AllocError>
    ensures { (n : ℕ) (f : Tree) (at : ℕ) → is_signed (unary sign f at) ≡ false
        → narrow ≡ is_narrow (unary sign f at) → IfOk operand (λ e. IsValueOf n f (expression_of e))
        → IfOk result (λ e. IsValueOf n (unary sign f at) (expression_of e)) }
{
    match operand {
        Err(_) => Err(AllocError),
        Ok(operand) => signed_value(alloc, sign, narrow, operand),
    }
}

// A value under a cast.
fn under_cast(alloc: Global, width: Width, value: Expr) -> Result<Expr, AllocError>
    ensures { IfOk result (λ e. expression_of e ≡ cast_to width (expression_of value)) }
{
    match in_box(alloc, value) {
        Err(_) => Err(AllocError),
        Ok(value) => match width {
            Width::Narrow => Ok(Expr::Narrowed(Narrowing::Explicit, value)),
            Width::Full => Ok(Expr::Cast(value)),
        },
    }
}

// The value of an operand under a cast.
fn cast_value(
    alloc: Global,
    width: Width,
    operand: Result<Expr, AllocError>,
) -> Result<Expr, AllocError>
    ensures { (n : ℕ) (f : Tree) (at : ℕ) → IfOk operand (λ e. IsValueOf n f (expression_of e))
        → IfOk result (λ e. IsValueOf n (cast width f at) (expression_of e)) }
{
    match operand {
        Err(_) => Err(AllocError),
        Ok(operand) => under_cast(alloc, width, operand),
    }
}

fn over_sides(op: Op, left: Box<Expr>, right: Box<Expr>) -> Expr
    ensures { expression_of result
        ≡ scop.binary (operator op) (expression_of left.value) (expression_of right.value) }
{
    Expr::Binary(operator(op), left, right)
}

// Two values joined by an operator, kept to 32 bits where this is so.
fn joined(alloc: Global, op: Op, narrow: bool, left: Expr, right: Expr) -> Result<Expr, AllocError>
    ensures { IfOk result (λ e. expression_of e ≡ narrowed_where narrow implied
        (scop.binary (operator op) (expression_of left) (expression_of right))) }
{
    match boxed(alloc, left, right) {
        Err(_) => Err(AllocError),
        Ok((left, right)) => narrowed_where(
            alloc,
            narrow,
            Narrowing::Implied,
            over_sides(op, left, right),
        ),
    }
}

// Whether a side is converted: a signed one of an operator of 32 bits.
fn is_converted(narrow: bool, side: &Formula) -> bool
    ensures { result ≡ (narrow && is_signed (formula_of side.now)) }
{
    narrow && is_signed(side)
}

// The value of an operator's side, converted where it is to be.
fn side_value(
    alloc: Global,
    narrow: bool,
    side: &Formula,
    value: Result<Expr, AllocError>,
) -> Result<Expr, AllocError>
    ensures { (n : ℕ) → IfOk value (λ e. IsValueOf n (formula_of side.now) (expression_of e))
        → IfOk result (λ e. IsSideOf n narrow (formula_of side.now) (expression_of e)) }
{
    match value {
        Err(_) => Err(AllocError),
        Ok(value) => narrowed_where(
            alloc,
            is_converted(narrow, side),
            Narrowing::Converted,
            value,
        ),
    }
}

// The value of both sides of an operator, where they are no signed part.
fn sides_value(
    alloc: Global,
    op: Op,
    narrow: bool,
    left: Result<Expr, AllocError>,
    right: Result<Expr, AllocError>,
) -> Result<Expr, AllocError>
    requires { is_shift op ≡ false }
    ensures { (n : ℕ) (f g : Tree) (at : ℕ) → is_signed (binary op f g at) ≡ false
        → narrow ≡ is_narrow (binary op f g at) → IfOk left (λ e. IsSideOf n narrow f (expression_of e))
        → IfOk right (λ e. IsSideOf n narrow g (expression_of e))
        → IfOk result (λ e. IsValueOf n (binary op f g at) (expression_of e)) }
{
    match both(left, right) {
        Err(_) => Err(AllocError),
        Ok((left, right)) => joined(alloc, op, narrow, left, right),
    }
}

// The value of arguments with these more.
#[cycle(valuing)]
fn arguments_value(
    alloc: Global,
    others: &[Argument],
    first: Result<Expr, AllocError>,
    entries: usize,
) -> Result<Expr, AllocError>
    ensures { (f : Tree) → IfOk first (λ e. IsValueOf entries f (expression_of e))
        → IfOk result (λ e. IsValueOf entries (fold with_argument f (map argument_of others.now)) (expression_of e)) }
{
    let mut left = first;
    for other in others {
        let right = value(alloc, &other.value, entries);
        left = sides_value(alloc, Op::Comma, false, left, right);
    }
    left
}

// The value of a formula, if it has no fault as one. That of a part goes on as it is, so that want of memory is looked
// at outside the recursion.
#[cycle(valuing)]
fn value(alloc: Global, formula: &Formula, entries: usize) -> Result<Expr, AllocError>
    ensures { IfOk result (λ e. IsValueOf entries (formula_of formula.now) (expression_of e)) }
{
    match formula {
        Formula::Constant(_, value, _) => Ok(Expr::Constant(*value)),
        Formula::Name(meaning, _) => name_value(alloc, *meaning, entries),
        Formula::Index(_, _, _) => place_value(alloc, formula, entries),
        Formula::BareCall(_, _) | Formula::Call(_, _, _) => Ok(Expr::Constant(0)),
        Formula::Unary(sign, operand, _) => {
            if is_signed(formula) {
                return signed_part(alloc, formula, entries);
            }
            let operand = value(alloc, operand, entries);
            unary_value(alloc, *sign, is_narrow(formula), operand)
        }
        Formula::Cast(width, operand, _) => {
            let operand = value(alloc, operand, entries);
            cast_value(alloc, *width, operand)
        }
        Formula::Commas(first, between, last, _) => {
            let first = value(alloc, first, entries);
            let left = arguments_value(alloc, between, first, entries);
            let last = value(alloc, last, entries);
            sides_value(alloc, Op::Comma, false, left, last)
        }
        Formula::Binary(op, left, right, _) => {
            if is_signed(formula) {
                return signed_part(alloc, formula, entries);
            }
            let narrow = is_narrow(formula);
            let left_value = side_value(alloc, narrow, left, value(alloc, left, entries));
            if is_shift(*op) {
                return shift_value(alloc, *op, narrow, left_value, right);
            }
            let right_value = side_value(alloc, narrow, right, value(alloc, right, entries));
            sides_value(alloc, *op, narrow, left_value, right_value)
        }
    }
}

/// The value of a formula that has no fault as a value.
pub fn expression(alloc: Global, formula: &Formula, entries: usize) -> Result<Expr, AllocError>
    requires { first (faults entries role.Value (formula_of formula.now)) ≡ None }
    ensures { IfOk result (λ e. expression_of e ≡ expression entries (formula_of formula.now)) }
{
    value(alloc, formula, entries)
}

// f - g + constant
fn difference(
    alloc: Global,
    form: &Aff,
    other: &Aff,
    constant: i64,
    entries: usize,
) -> Result<Aff, AllocError>
    requires form { IsAffine entries form.now }
    requires other { IsAffine entries other.now }
    requires constant { unsigned_abs constant ≤ 1 }
    ensures { IfOk result (λ f. f ≡ difference form.now other.now constant) }
{
    let opposite = multiple(alloc, -1, other, entries)?;
    let form = sum(alloc, form, &opposite, entries)?;
    Ok(plus_constant(form, constant))
}

// The difference of two sides that an operator compares with 0.
fn compared(
    alloc: Global,
    op: Op,
    left: &Aff,
    right: &Aff,
    entries: usize,
) -> Result<Aff, AllocError>
    requires left { IsAffine entries left.now }
    requires right { IsAffine entries right.now }
    ensures { IfOk result (λ f. asked op f ≡ comparison op left.now right.now) }
{
    match op {
        Op::Less => difference(alloc, right, left, -1, entries),
        Op::AtMost => difference(alloc, right, left, 0, entries),
        Op::Greater => difference(alloc, left, right, -1, entries),
        Op::AtLeast => difference(alloc, left, right, 0, entries),
        _ => difference(alloc, left, right, 0, entries),
    }
}

fn asked(op: Op, difference: Aff) -> Test
    ensures { test_of result ≡ asked op difference }
{
    match op {
        Op::Less | Op::AtMost | Op::Greater | Op::AtLeast => Test::AtLeast(difference),
        _ => Test::Equal(difference),
    }
}

// One comparison.
fn comparison(
    alloc: Global,
    op: Op,
    left: &Aff,
    right: &Aff,
    entries: usize,
) -> Result<Test, AllocError>
    requires left { IsAffine entries left.now }
    requires right { IsAffine entries right.now }
    ensures { IfOk result (λ test. test_of test ≡ comparison op left.now right.now) }
{
    let difference = compared(alloc, op, left, right, entries)?;
    Ok(asked(op, difference))
}

// The comparison of two sides, if it has no fault as a condition, behind others.
fn add_comparison(
    alloc: Global,
    op: Op,
    left: &Formula,
    right: &Formula,
    entries: usize,
    pushed: &mut Vec<Test>,
) -> Result<(), AllocError>
    ensures { OnOk result ((at : ℕ) → is_and op ≡ false
        → first (faults entries role.Condition (binary op (formula_of left.now) (formula_of right.now) at)) ≡ None
        → map test_of pushed.new.items ≡ map test_of pushed.old.items
        ++ tests entries (binary op (formula_of left.now) (formula_of right.now) at)) }
{
    let left = form_or_zero(alloc, left, entries)?;
    let right = form_or_zero(alloc, right, entries)?;
    let test = comparison(alloc, op, &left, &right, entries)?;
    push_test(pushed, test)
}

// The comparisons of a formula, if it has no fault as a condition, behind others.
fn add_tests(
    alloc: Global,
    formula: &Formula,
    entries: usize,
    pushed: &mut Vec<Test>,
) -> Result<(), AllocError>
    ensures { OnOk result (first (faults entries role.Condition (formula_of formula.now)) ≡ None
        → map test_of pushed.new.items ≡ map test_of pushed.old.items ++ tests entries (formula_of formula.now)) }
{
    match formula {
        Formula::Binary(op, left, right, _) => {
            if !is_and(*op) {
                return add_comparison(alloc, *op, left, right, entries, pushed);
            }
            add_tests(alloc, left, entries, pushed)?;
            add_tests(alloc, right, entries, pushed)
        }
        Formula::Commas(_, _, _, _) => Ok(()),
        _ => Ok(()),
    }
}

/// The comparisons of a formula that has no fault as a condition, behind others.
pub fn push_tests(
    alloc: Global,
    formula: &Formula,
    entries: usize,
    pushed: &mut Vec<Test>,
) -> Result<(), AllocError>
    requires { first (faults entries role.Condition (formula_of formula.now)) ≡ None }
    ensures { OnOk result (map test_of pushed.new.items
        ≡ map test_of pushed.old.items ++ tests entries (formula_of formula.now)) }
{
    add_tests(alloc, formula, entries, pushed)?;
    Ok(())
}

// The places of the cells that these arguments more read, behind those of the others.
#[cycle(reading)]
fn push_places(others: &[Argument], places: &mut Vec<usize>) -> Result<(), AllocError>
    ensures { OnOk result ((f : Tree) (xs : List ℕ) → places.old.items ≡ xs ++ read_places f
        → places.new.items ≡ xs ++ read_places (fold with_argument f (map argument_of others.now))) }
{
    for other in others {
        match push_read_places(&other.value, places) {
            Err(_) => return Err(AllocError),
            Ok(()) => {}
        }
    }
    Ok(())
}

/// The places of the cells that a formula reads as a value, from left to right, behind others.
#[cycle(reading)]
pub fn push_read_places(formula: &Formula, places: &mut Vec<usize>) -> Result<(), AllocError>
    ensures { OnOk result (places.new.items ≡ places.old.items ++ read_places (formula_of formula.now)) }
{
    match formula {
        Formula::Index(inner, _, _) => push_behind(places, place(inner)),
        Formula::Unary(_, operand, _) => push_read_places(operand, places),
        Formula::Cast(_, operand, _) => push_read_places(operand, places),
        Formula::Commas(first, between, last, _) => {
            match push_read_places(first, places) {
                Err(_) => return Err(AllocError),
                Ok(()) => {}
            }
            match push_places(between, places) {
                Err(_) => return Err(AllocError),
                Ok(()) => {}
            }
            push_read_places(last, places)
        }
        Formula::Binary(_, left, right, _) => match push_read_places(left, places) {
            Err(_) => Err(AllocError),
            Ok(()) => push_read_places(right, places),
        },
        _ => Ok(()),
    }
}
