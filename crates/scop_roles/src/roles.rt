//! The role of each part of a formula, and what is wrong with a node whose parts have no fault.
ghost use Rattle.std.specs.Prelude.{◌≡◌, ℕ, ◌+◌, ◌==◌};
ghost use Rattle.scop_roles.specs.Faults.{called, cast_role, is_count, is_plain_constant, joins_condition, named};
ghost use Rattle.scop_roles.specs.Faults.{operand_role, only_where, or_else, other_role, own, own_loose_operator};
ghost use Rattle.scop_roles.specs.Faults.{last_count, own_bits, own_operator, rank, side_role, term_role};
ghost use Rattle.scop_roles.specs.Formula.{Formula as Tree, bare_call, call, cast, constant, index, meaning_of, name};
ghost use Rattle.scop_roles.specs.Formula.{subscripts, unary};
ghost use Rattle.scop_roles.specs.Forms.{is_and, is_comparison, is_minus, is_number, is_product, is_shift, is_signed};
ghost use Rattle.scop_roles.specs.Forms.{greatest, is_joining, is_long, is_narrow_array, is_narrow_width};
ghost use Rattle.scop_roles.specs.Forms.{is_sum_or_product, keeps_type, makes_narrow};
ghost use Rattle.scop_roles.specs.steps.Judgement.{own_joined};
ghost use Rattle.scop_expressions.specs.Width.{Width};
ghost use Rattle.scop_roles.specs.declared.kinds.Kind.TheVariants as kind;
ghost use Rattle.scop_roles.specs.declared.formula.Meaning.{Meaning};

use crate::formula::{Meaning, Role};
use crate::kinds::{Kind, only_where};
use scop_expressions::{Base, Op, Sign, Suffix, Width};
use scop_syntax::MOST_CONSTANT;

// + - *
pub(crate) fn is_sum_or_product(op: Op) -> bool
    ensures { result ≡ is_sum_or_product op }
{
    match op {
        Op::Plus | Op::Minus | Op::Times => true,
        _ => false,
    }
}

pub(crate) fn is_product(op: Op) -> bool
    ensures { result ≡ is_product op }
{
    match op {
        Op::Times => true,
        _ => false,
    }
}

pub(crate) fn is_shift(op: Op) -> bool
    ensures { result ≡ is_shift op }
{
    match op {
        Op::ShiftLeft | Op::ShiftRight => true,
        _ => false,
    }
}

pub(crate) fn is_and(op: Op) -> bool
    ensures { result ≡ is_and op }
{
    match op {
        Op::LogicalAnd => true,
        _ => false,
    }
}

pub(crate) fn is_minus(sign: Sign) -> bool
    ensures { result ≡ is_minus sign }
{
    match sign {
        Sign::Minus => true,
        Sign::Complement | Sign::Not => false,
    }
}

// + - * & | ^
fn is_joining(op: Op) -> bool
    ensures { result ≡ is_joining op }
{
    match op {
        Op::BitAnd | Op::BitXor | Op::BitOr => true,
        _ => is_sum_or_product(op),
    }
}

// Whether what an operator makes has 32 bits, from whether its sides have and whether they are signed.
pub(crate) fn makes_narrow(
    op: Op,
    left: bool,
    right: bool,
    left_signed: bool,
    right_signed: bool,
) -> bool
    ensures { result ≡ makes_narrow op left right left_signed right_signed }
{
    if is_shift(op) {
        left
    } else {
        is_joining(op) && ((left && (right || right_signed)) || (left_signed && right))
    }
}

// Whether a sign keeps its operand's type.
pub(crate) fn keeps_type(sign: Sign) -> bool
    ensures { result ≡ keeps_type sign }
{
    match sign {
        Sign::Minus | Sign::Complement => true,
        Sign::Not => false,
    }
}

/// Whether a width is that of `uint32_t`, in place of `uint64_t`.
pub fn is_narrow_width(width: Width) -> bool
    ensures { result ≡ is_narrow_width width }
{
    match width {
        Width::Narrow => true,
        Width::Full => false,
    }
}

/// Whether a name is that of an array of 32 bits.
pub fn is_narrow_array(meaning: Meaning) -> bool
    ensures { result ≡ is_narrow_array meaning }
{
    match meaning {
        Meaning::Array(_, _, narrow) => narrow,
        _ => false,
    }
}

/// The greatest count of a shift, by whether what is shifted has 32 bits.
pub fn last_count(narrow: bool) -> u64
    ensures { result ≡ last_count narrow }
{
    if narrow { 31 } else { 63 }
}

// The greatest constant of a base that has no more than 32 bits by its type.
fn greatest(base: Base) -> u64
    ensures { result ≡ greatest base }
{
    match base {
        Base::Decimal => (1 << 31) - 1,
        Base::Hexadecimal => (1 << 32) - 1,
    }
}

// Whether a constant has no suffix and more than 32 bits by its type.
pub(crate) fn is_long_constant(suffix: Suffix, value: u64) -> bool
    ensures { (at : ℕ) → result ≡ is_long (constant suffix value at) }
{
    match suffix {
        Suffix::Absent(base) => greatest(base) < value,
        Suffix::Present => false,
    }
}

/// Whether an operator compares: `<`, `<=`, `>`, `>=` or `==`.
pub fn is_comparison(op: Op) -> bool
    ensures { result ≡ is_comparison op }
{
    match op {
        Op::Less | Op::AtMost | Op::Greater | Op::AtLeast | Op::Equal => true,
        _ => false,
    }
}

fn joins_condition(op: Op) -> bool
    ensures { result ≡ joins_condition op }
{
    is_and(op) || is_comparison(op)
}

// Whether a constant has no suffix.
pub(crate) fn is_plain(suffix: Suffix) -> bool
    ensures { (v at : ℕ) → result ≡ is_plain_constant (constant suffix v at) }
{
    match suffix {
        Suffix::Absent(_) => true,
        Suffix::Present => false,
    }
}

// Whether a constant has no suffix and lies from the one number up to the other.
pub(crate) fn is_between(suffix: Suffix, value: u64, low: u64, high: u64) -> bool
    ensures { (at : ℕ) → result ≡ is_count low high (constant suffix value at) }
{
    match suffix {
        Suffix::Absent(_) => low <= value && value <= high,
        Suffix::Present => false,
    }
}

// Whether a name is a parameter or an iterator.
pub(crate) fn is_number(meaning: Meaning) -> bool
    ensures { result ≡ is_number meaning }
{
    match meaning {
        Meaning::Variable(_) | Meaning::Closed => true,
        Meaning::Unknown | Meaning::Array(_, _, _) => false,
    }
}

// How many subscripts a name wants.
pub(crate) fn rank(meaning: Meaning) -> usize
    ensures { result ≡ rank meaning }
{
    match meaning {
        Meaning::Array(_, rank, _) => rank,
        _ => 0,
    }
}

// A name that is not in scope, or an iterator outside its loop.
pub(crate) fn named(meaning: Meaning) -> Option<Kind>
    ensures { result ≡ named meaning }
{
    match meaning {
        Meaning::Unknown => Some(Kind::UnknownName),
        Meaning::Closed => Some(Kind::IteratorOutside),
        _ => None,
    }
}

// A name in front of a call.
pub(crate) fn called(meaning: Meaning) -> Option<Kind>
    ensures { result ≡ called meaning }
{
    match meaning {
        Meaning::Unknown => Some(Kind::UnknownName),
        _ => None,
    }
}

// The role of an operand.
pub(crate) fn operand_role(sign: Sign, signed: bool, role: Role) -> Role
    ensures { result ≡ operand_role sign signed role }
{
    match (sign, role) {
        (Sign::Minus, Role::Affine) => Role::Affine,
        (Sign::Minus, Role::Signed) => Role::Signed,
        (Sign::Minus, Role::Value) => { if signed { Role::Signed } else { Role::Value } }
        (_, Role::Value) => Role::Value,
        (Sign::Not, Role::Condition | Role::Loose) => Role::Loose,
        _ => Role::Free,
    }
}

pub(crate) fn cast_role(role: Role) -> Role
    ensures { result ≡ cast_role role }
{
    match role {
        Role::Value => Role::Value,
        _ => Role::Free,
    }
}

// The role of the sides of a sum, a difference or a product.
fn term_role(signed: bool, role: Role) -> Role
    ensures { result ≡ term_role signed role }
{
    match role {
        Role::Affine => Role::Affine,
        Role::Signed => Role::Signed,
        Role::Value => { if signed { Role::Signed } else { Role::Value } }
        Role::Condition | Role::Loose | Role::Free => Role::Free,
    }
}

// The role of the sides of the other operators that are no comparisons; those of `!=` have none.
fn other_role(op: Op, role: Role) -> Role
    ensures { result ≡ other_role op role }
{
    match (op, role) {
        (Op::NotEqual, _) => Role::Free,
        (Op::LogicalAnd, Role::Condition) => Role::Condition,
        (Op::LogicalAnd, Role::Loose) => Role::Loose,
        (Op::LogicalOr, Role::Condition | Role::Loose) => Role::Loose,
        (_, Role::Value) => Role::Value,
        _ => Role::Free,
    }
}

// The role of an operator's sides.
pub(crate) fn side_role(op: Op, signed: bool, role: Role) -> Role
    ensures { result ≡ side_role op signed role }
{
    if is_comparison(op) {
        Role::Affine
    } else if is_sum_or_product(op) {
        term_role(signed, role)
    } else {
        other_role(op, role)
    }
}

pub(crate) fn own_constant(role: Role, suffix: Suffix, value: u64) -> Option<Kind>
    ensures { (n at : ℕ) → result ≡ own n role (constant suffix value at) }
{
    match (role, suffix) {
        (Role::Affine | Role::Signed, Suffix::Present) => Some(Kind::NotAffine),
        (Role::Affine | Role::Signed, Suffix::Absent(_)) => {
            only_where(MOST_CONSTANT < value, Kind::Coefficient)
        }
        (Role::Condition, _) => Some(Kind::Condition),
        (Role::Value | Role::Loose | Role::Free, _) => None,
    }
}

pub(crate) fn own_name(role: Role, meaning: Meaning) -> Option<Kind>
    ensures { (n at : ℕ) → result ≡ own n role (name meaning at) }
{
    match role {
        Role::Affine | Role::Signed => match meaning {
            Meaning::Array(_, _, _) => Some(Kind::NotAffine),
            Meaning::Unknown | Meaning::Closed | Meaning::Variable(_) => None,
        },
        Role::Condition => Some(Kind::Condition),
        Role::Value | Role::Loose | Role::Free => only_where(rank(meaning) != 0, Kind::Rank),
    }
}

// `ranked`: the place has as many subscripts as its declaration.
pub(crate) fn own_index(role: Role, ranked: bool) -> Option<Kind>
    ensures { (n : ℕ) (p i : Tree) → ranked ≡ (rank (meaning_of p) == subscripts p + 1)
        → result ≡ own n role (index p i) }
{
    match role {
        Role::Affine | Role::Signed => Some(Kind::NotAffine),
        Role::Condition => Some(Kind::Condition),
        Role::Value | Role::Loose | Role::Free => only_where(!ranked, Kind::Rank),
    }
}

pub(crate) fn own_call(role: Role) -> Option<Kind>
    ensures call { (n at : ℕ) (meaning : Meaning) (f : Tree) → result ≡ own n role (call meaning f at) }
    ensures bare { (n at : ℕ) (meaning : Meaning) → result ≡ own n role (bare_call meaning at) }
{
    match role {
        Role::Affine | Role::Signed => Some(Kind::NotAffine),
        Role::Condition => Some(Kind::Condition),
        Role::Value | Role::Loose | Role::Free => Some(Kind::Call),
    }
}

pub(crate) fn own_unary(role: Role, sign: Sign, signed: bool) -> Option<Kind>
    ensures { (n at : ℕ) (f : Tree) → signed ≡ is_signed f → result ≡ own n role (unary sign f at) }
{
    match (role, sign) {
        (Role::Condition, _) => Some(Kind::Condition),
        (_, Sign::Minus) => None,
        (Role::Affine | Role::Signed, _) => Some(Kind::NotAffine),
        (_, Sign::Not) => Some(Kind::Condition),
        (Role::Value, Sign::Complement) => only_where(signed, Kind::SignedValue),
        (Role::Loose | Role::Free, Sign::Complement) => None,
    }
}

pub(crate) fn own_cast(role: Role) -> Option<Kind>
    ensures { (n at : ℕ) (w : Width) (f : Tree) → result ≡ own n role (cast w f at) }
{
    match role {
        Role::Affine | Role::Signed => Some(Kind::NotAffine),
        Role::Condition => Some(Kind::Condition),
        Role::Value | Role::Loose | Role::Free => None,
    }
}

// `signed`: both sides are; `mixes`: a signed part that may not stand beside 32 bits does.
fn own_bits(signed: bool, mixes: bool) -> Option<Kind>
    ensures { result ≡ own_bits signed mixes }
{
    if signed {
        Some(Kind::SignedValue)
    } else {
        only_where(mixes, Kind::Width)
    }
}

// `left`, `right`: the sides are signed; `constants`: both are constants without suffix; `count`: the right one is a
// count of the left one's shifts; `mixes`: a signed part that may not stand beside 32 bits does.
fn own_operator(
    op: Op,
    left: bool,
    right: bool,
    constants: bool,
    count: bool,
    mixes: bool,
) -> Option<Kind>
    ensures { result ≡ own_operator op left right constants count mixes }
{
    match op {
        Op::BitAnd | Op::BitXor | Op::BitOr => own_bits(left && right, mixes),
        Op::ShiftLeft | Op::ShiftRight => {
            if left {
                Some(Kind::SignedValue)
            } else {
                only_where(!count, Kind::ShiftCount)
            }
        }
        Op::Divide | Op::Remainder => {
            if constants {
                Some(Kind::SignedValue)
            } else {
                Some(Kind::Division)
            }
        }
        Op::Comma => Some(Kind::Call),
        _ => Some(Kind::Condition),
    }
}

fn own_loose_operator(op: Op, count: bool) -> Option<Kind>
    ensures { result ≡ own_loose_operator op count }
{
    match op {
        Op::Divide | Op::Remainder => Some(Kind::Division),
        Op::ShiftLeft | Op::ShiftRight => only_where(!count, Kind::ShiftCount),
        Op::LogicalOr | Op::NotEqual => Some(Kind::Condition),
        _ => None,
    }
}

// What is wrong with a sum, a difference or a product of signed sides that is no single constant.
fn own_signed(affine: Option<Kind>, constants: bool) -> Option<Kind>
    ensures { result ≡ or_else affine (only_where constants kind.SignedValue) }
{
    match affine {
        Some(kind) => Some(kind),
        None => only_where(constants, Kind::SignedValue),
    }
}

// What is wrong with an operator itself, where `affine` is what is wrong with it as an affine one.
pub(crate) fn own_joined(
    affine: Option<Kind>,
    role: Role,
    op: Op,
    left: bool,
    right: bool,
    constants: bool,
    count: bool,
    mixes: bool,
) -> Option<Kind>
    ensures { result ≡ own_joined affine role op left right constants count mixes }
{
    match role {
        Role::Affine => affine,
        Role::Signed => own_signed(affine, constants),
        Role::Value => {
            if !is_sum_or_product(op) {
                own_operator(op, left, right, constants, count, mixes)
            } else if left && right {
                own_signed(affine, constants)
            } else {
                only_where(mixes, Kind::Width)
            }
        }
        Role::Condition => only_where(!joins_condition(op), Kind::Condition),
        Role::Loose => own_loose_operator(op, count),
        Role::Free => {
            if joins_condition(op) {
                Some(Kind::Condition)
            } else {
                own_loose_operator(op, count)
            }
        }
    }
}
