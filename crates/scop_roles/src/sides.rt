//! What is known of an operator over two sides, from what is known of them: its form, and its first faults.
ghost use Rattle.std.specs.Prelude.{◌&&◌, ◌||◌, ◌≡◌, ℕ, IfOk, None, Some, if◌then◌else◌, length, true};
ghost use Rattle.scop_syntax.specs.Kernel.{IsAffine};
ghost use Rattle.scop_roles.specs.declared.kinds.Kind.TheVariants as kind;
ghost use Rattle.scop_roles.specs.Faults.{faults, first};
ghost use Rattle.scop_roles.specs.Forms.{combined_forms, is_product, is_sum_or_product, is_within, makes_narrow};
ghost use Rattle.scop_roles.specs.Formula.{Formula as Tree, binary};
ghost use Rattle.scop_roles.specs.steps.Judgement.{HasForm, IsJoined, IsJudgement, IsOwnAffine};

use crate::forms::{is_within, multiple, sum};
use crate::formula::Role;
use crate::judgement::{Faults, Judgement};
use crate::kinds::{Fault, Kind, first_of, part_or_own};
use crate::pairs::both;
use crate::roles::{is_product, is_sum_or_product, makes_narrow, own_joined, side_role};
use scop_expressions::Op;
use scop_syntax::Aff;
use std::alloc::{AllocError, Global};

// The form that an operator makes of two, or what is wrong with it as an affine one.
#[derive(Drop)]
struct Joined {
    form: Option<Aff>,
    own: Option<Kind>,
}

// The form that a sum, a difference or a product makes of two; `named`: a name stands in the left one.
fn combined(
    alloc: Global,
    op: Op,
    named: bool,
    left: &Aff,
    right: &Aff,
    entries: usize,
) -> Result<Aff, AllocError>
    requires op { is_sum_or_product op ≡ true }
    requires left { IsAffine entries left.now }
    requires right { IsAffine entries right.now }
    ensures form { IfOk result (λ form. form ≡ combined_forms op named left.now right.now) }
    ensures entries { IfOk result (λ form. length form.coefficients ≡ entries) }
{
    match op {
        Op::Plus => sum(alloc, left, right, entries),
        Op::Minus => {
            let opposite = multiple(alloc, -1, right, entries)?;
            sum(alloc, left, &opposite, entries)
        }
        Op::Times => {
            if named {
                multiple(alloc, right.constant, left, entries)
            } else {
                multiple(alloc, left.constant, right, entries)
            }
        }
        _ => unreachable!(),
    }
}

// No form, since the operator does not make one.
fn refused() -> Joined
    ensures { result ≡ record { form = None; own = Some kind.NotAffine } }
{
    Joined {
        form: None,
        own: Some(Kind::NotAffine),
    }
}

// A form, if it lies within the limits.
fn within(form: Aff) -> Joined
    ensures { result ≡ (if is_within form then record { form = Some form; own = None }
        else record { form = None; own = Some kind.Coefficient }) }
{
    if is_within(&form) {
        Joined {
            form: Some(form),
            own: None,
        }
    } else {
        Joined {
            form: None,
            own: Some(Kind::Coefficient),
        }
    }
}

fn multiplies_names(op: Op, left: &Judgement, right: &Judgement) -> bool
    ensures { result ≡ (is_product op && (left.now.named && right.now.named)) }
{
    is_product(op) && left.named && right.named
}

fn join(
    alloc: Global,
    op: Op,
    left: &Judgement,
    right: &Judgement,
    entries: usize,
) -> Result<Joined, AllocError>
    requires left { HasForm entries left.now.form }
    requires right { HasForm entries right.now.form }
    ensures joined { IfOk result (λ joined. (f g : Tree) (at : ℕ) → IsJudgement entries f left.now
        → IsJudgement entries g right.now → IsJoined entries op f g at joined) }
    ensures limits { IfOk result (λ joined. HasForm entries joined.form) }
{
    if !is_sum_or_product(op) {
        return Ok(refused());
    }
    if multiplies_names(op, left, right) {
        return Ok(refused());
    }
    let f = match &left.form {
        None => return Ok(refused()),
        Some(form) => form,
    };
    let g = match &right.form {
        None => return Ok(refused()),
        Some(form) => form,
    };
    let form = combined(alloc, op, left.named, f, g, entries)?;
    Ok(within(form))
}

fn are_signed(left: &Judgement, right: &Judgement) -> bool
    ensures { result ≡ (left.now.signed && right.now.signed) }
{
    left.signed && right.signed
}

fn are_constants(left: &Judgement, right: &Judgement) -> bool
    ensures { result ≡ (left.now.constant && right.now.constant) }
{
    left.constant && right.constant
}

fn is_either_named(left: &Judgement, right: &Judgement) -> bool
    ensures { result ≡ (left.now.named || right.now.named) }
{
    left.named || right.named
}

fn joins_signed(op: Op, left: &Judgement, right: &Judgement) -> bool
    ensures { result ≡ (is_sum_or_product op && (left.now.signed && right.now.signed)) }
{
    is_sum_or_product(op) && are_signed(left, right)
}

fn joins_narrow(op: Op, left: &Judgement, right: &Judgement) -> bool
    ensures { result ≡ makes_narrow op left.now.narrow right.now.narrow left.now.signed right.now.signed }
{
    makes_narrow(op, left.narrow, right.narrow, left.signed, right.signed)
}

fn joins_long(op: Op, left: &Judgement, right: &Judgement) -> bool
    ensures { result ≡ ((is_sum_or_product op && (left.now.signed && right.now.signed))
        && (left.now.named || right.now.named)) }
{
    joins_signed(op, left, right) && is_either_named(left, right)
}

// Whether the right side is a count of the left one's shifts.
fn is_counted(left: &Judgement, right: &Judgement) -> bool
    ensures { result ≡ (if left.now.narrow then right.now.narrow_count else right.now.count) }
{
    if left.narrow {
        right.narrow_count
    } else {
        right.count
    }
}

// Whether a signed part that may not stand beside 32 bits does.
fn mixes(left: &Judgement, right: &Judgement) -> bool
    ensures { result ≡ ((left.now.narrow && right.now.long) || (left.now.long && right.now.narrow)) }
{
    (left.narrow && right.long) || (left.long && right.narrow)
}

// The first fault of an operator over its sides.
fn binary_fault(
    role: Role,
    op: Op,
    left: &Judgement,
    right: &Judgement,
    affine: Option<Kind>,
    at: usize,
) -> Option<Fault>
    ensures { (n : ℕ) (f g : Tree) → IsJudgement n f left.now → IsJudgement n g right.now
        → IsOwnAffine n op f g at affine → result ≡ first (faults n role (binary op f g at)) }
{
    let side = side_role(op, are_signed(left, right), role);
    let part = first_of(left.faults.in_role(side), right.faults.in_role(side));
    let constants = are_constants(left, right);
    let count = is_counted(left, right);
    let mixed = mixes(left, right);
    let own = own_joined(
        affine,
        role,
        op,
        left.signed,
        right.signed,
        constants,
        count,
        mixed,
    );
    part_or_own(part, at, own)
}

// Two sides under an operator.
fn over_sides(
    alloc: Global,
    op: Op,
    left: &Judgement,
    right: &Judgement,
    at: usize,
    entries: usize,
) -> Result<Judgement, AllocError>
    requires left { HasForm entries left.now.form }
    requires right { HasForm entries right.now.form }
    ensures judged { IfOk result (λ j. (f g : Tree) → IsJudgement entries f left.now → IsJudgement entries g right.now
        → IsJudgement entries (binary op f g at) j) }
    ensures limits { IfOk result (λ j. HasForm entries j.form) }
{
    let joined = join(alloc, op, left, right, entries)?;
    Ok(Judgement {
        place: at,
        signed: joins_signed(op, left, right),
        narrow: joins_narrow(op, left, right),
        long: joins_long(op, left, right),
        named: is_either_named(left, right),
        narrow_cells: false,
        constant: false,
        count: false,
        narrow_count: false,
        lacking: Some(0),
        place_fault: None,
        faults: Faults {
            affine: binary_fault(Role::Affine, op, left, right, joined.own, at),
            signed: binary_fault(Role::Signed, op, left, right, joined.own, at),
            value: binary_fault(Role::Value, op, left, right, joined.own, at),
            condition: binary_fault(Role::Condition, op, left, right, joined.own, at),
            loose: binary_fault(Role::Loose, op, left, right, joined.own, at),
            free: binary_fault(Role::Free, op, left, right, joined.own, at),
        },
        form: joined.form,
    })
}

pub(crate) fn of_binary(
    alloc: Global,
    op: Op,
    left: Result<Judgement, AllocError>,
    right: Result<Judgement, AllocError>,
    at: usize,
    entries: usize,
) -> Result<Judgement, AllocError>
    requires left { IfOk left (λ j. HasForm entries j.form) }
    requires right { IfOk right (λ j. HasForm entries j.form) }
    ensures judged { (f g : Tree) → IfOk left (IsJudgement entries f) → IfOk right (IsJudgement entries g)
        → IfOk result (IsJudgement entries (binary op f g at)) }
    ensures limits { IfOk result (λ j. HasForm entries j.form) }
{
    match both(left, right) {
        Err(_) => Err(AllocError),
        Ok(sides) => {
            let whole = over_sides(alloc, op, &sides.0, &sides.1, at, entries);
            drop(sides);
            whole
        }
    }
}
