//! The first fault of a formula in a role, and its affine form. A formula is judged bottom up, in all roles at once:
//! each node once, since the role of a part may depend on what stands beside it.
ghost use Rattle.std.specs.Prelude.{◌≡◌, IfOk, None, map};
ghost use Rattle.std.specs.List.{fold};
ghost use Rattle.scop_syntax.specs.Kernel.{IsAffine};
ghost use Rattle.scop_roles.specs.declared.formula.Role.TheVariants as role;
ghost use Rattle.scop_roles.specs.Faults.{faults, first, place_faults};
ghost use Rattle.scop_roles.specs.Forms.{form};
ghost use Rattle.scop_roles.specs.Formula.{Formula as Tree, argument_of, formula_of, index, with_argument};
ghost use Rattle.scop_roles.specs.steps.Judgement.{HasForm, IsFormOf, IsJudgement, in_role};

use crate::formula::{Argument, Formula, Role};
use crate::kinds::Fault;
use crate::nodes::{of_bare_call, of_call, of_cast, of_constant, of_index, of_name, of_unary};
use crate::sides::of_binary;
use scop_expressions::Op;
use scop_syntax::Aff;
use std::alloc::{AllocError, Global};

// The first fault in each role.
#[derive(Clone, Copy)]
pub(crate) struct Faults {
    pub(crate) affine: Option<Fault>,
    pub(crate) signed: Option<Fault>,
    pub(crate) value: Option<Fault>,
    pub(crate) condition: Option<Fault>,
    pub(crate) loose: Option<Fault>,
    pub(crate) free: Option<Fault>,
}

impl Faults {
    pub(crate) fn in_role(&self, role: Role) -> Option<Fault>
        ensures { result ≡ in_role self.now role }
    {
        match role {
            Role::Affine => self.affine,
            Role::Signed => self.signed,
            Role::Value => self.value,
            Role::Condition => self.condition,
            Role::Loose => self.loose,
            Role::Free => self.free,
        }
    }
}

// What is known of a formula before its role is.
#[derive(Drop)]
pub(crate) struct Judgement {
    pub(crate) place: usize,
    pub(crate) signed: bool,
    // It is unsigned with 32 bits; it is a signed part that may not stand beside such.
    pub(crate) narrow: bool,
    pub(crate) long: bool,
    // A name stands in it; as a place, that of an array of 32 bits.
    pub(crate) named: bool,
    pub(crate) narrow_cells: bool,
    // It is a constant without suffix; and one below 64; and one below 32.
    pub(crate) constant: bool,
    pub(crate) count: bool,
    pub(crate) narrow_count: bool,
    // How many subscripts a place lacks, where it has not too many.
    pub(crate) lacking: Option<usize>,
    // The first fault of a place's name and subscripts.
    pub(crate) place_fault: Option<Fault>,
    pub(crate) faults: Faults,
    // Its form, where it is affine.
    pub(crate) form: Option<Aff>,
}

// Judges a place with these subscripts more.
#[cycle(judging)]
fn judge_subscripts(
    alloc: Global,
    subscripts: &[Formula],
    place: Result<Judgement, AllocError>,
    entries: usize,
) -> Result<Judgement, AllocError>
    ensures { (p : Tree) → IfOk place (IsJudgement entries p)
        → IfOk result (IsJudgement entries (fold index p (map formula_of subscripts.now))) }
{
    let mut place = place;
    for subscript in subscripts {
        let subscript = judge(alloc, subscript, entries);
        place = of_index(place, subscript);
    }
    place
}

// Judges arguments with these more.
#[cycle(judging)]
fn judge_arguments(
    alloc: Global,
    others: &[Argument],
    first: Result<Judgement, AllocError>,
    entries: usize,
) -> Result<Judgement, AllocError>
    requires { IfOk first (λ j. HasForm entries j.form) }
    ensures judged { (f : Tree) → IfOk first (IsJudgement entries f)
        → IfOk result (IsJudgement entries (fold with_argument f (map argument_of others.now))) }
    ensures limits { IfOk result (λ j. HasForm entries j.form) }
{
    let mut arguments = first;
    for other in others {
        let value = judge(alloc, &other.value, entries);
        arguments = of_binary(alloc, Op::Comma, arguments, value, other.comma, entries);
    }
    arguments
}

// Judges a formula. What is known of a part goes on as it is, so that want of memory is looked at outside the
// recursion.
#[cycle(judging)]
#[tactic(auto, using(crate::proofs::FormulaValues::judged_limits))]
fn judge(alloc: Global, formula: &Formula, entries: usize) -> Result<Judgement, AllocError>
    ensures { IfOk result (IsJudgement entries (formula_of formula.now)) }
{
    match formula {
        Formula::Constant(suffix, value, at) => of_constant(alloc, *suffix, *value, *at, entries),
        Formula::Name(meaning, at) => of_name(alloc, *meaning, *at, entries),
        Formula::Index(place, earlier, last) => {
            let place = judge(alloc, place, entries);
            let place = judge_subscripts(alloc, earlier, place, entries);
            let last = judge(alloc, last, entries);
            of_index(place, last)
        }
        Formula::BareCall(meaning, at) => Ok(of_bare_call(*meaning, *at)),
        Formula::Call(meaning, arguments, at) => {
            let arguments = judge(alloc, arguments, entries);
            of_call(*meaning, arguments, *at)
        }
        Formula::Unary(sign, operand, at) => {
            let operand = judge(alloc, operand, entries);
            of_unary(alloc, *sign, operand, *at, entries)
        }
        Formula::Cast(width, operand, at) => {
            let operand = judge(alloc, operand, entries);
            of_cast(*width, operand, *at)
        }
        Formula::Commas(first, between, last, at) => {
            let first = judge(alloc, first, entries);
            let left = judge_arguments(alloc, between, first, entries);
            let last = judge(alloc, last, entries);
            of_binary(alloc, Op::Comma, left, last, *at, entries)
        }
        Formula::Binary(op, left, right, at) => {
            let left = judge(alloc, left, entries);
            let right = judge(alloc, right, entries);
            of_binary(alloc, *op, left, right, *at, entries)
        }
    }
}

/// The first fault of a formula in a role over so many entries.
pub fn fault(
    alloc: Global,
    formula: &Formula,
    entries: usize,
    role: Role,
) -> Result<Option<Fault>, AllocError>
    ensures { IfOk result (λ fault. fault ≡ first (faults entries role (formula_of formula.now))) }
{
    let judgement = judge(alloc, formula, entries)?;
    Ok(judgement.faults.in_role(role))
}

/// The first fault of a place's name and subscripts.
pub fn place_fault(
    alloc: Global,
    place: &Formula,
    entries: usize,
) -> Result<Option<Fault>, AllocError>
    ensures { IfOk result (λ fault. fault ≡ first (place_faults entries (formula_of place.now))) }
{
    let judgement = judge(alloc, place, entries)?;
    Ok(judgement.place_fault)
}

/// The affine form of a formula that has no fault as an affine one.
pub fn form(alloc: Global, formula: &Formula, entries: usize) -> Result<Aff, AllocError>
    requires { first (faults entries role.Affine (formula_of formula.now)) ≡ None }
    ensures form { IfOk result (λ f. f ≡ form entries (formula_of formula.now)) }
    ensures limits { IfOk result (IsAffine entries) }
{
    let judgement = judge(alloc, formula, entries)?;
    match judgement.form {
        Some(form) => Ok(form),
        None => unreachable!(),
    }
}

// The form of a formula, if it is affine.
pub(crate) fn affine_form(
    alloc: Global,
    formula: &Formula,
    entries: usize,
) -> Result<Option<Aff>, AllocError>
    ensures form { IfOk result (IsFormOf entries (formula_of formula.now)) }
    ensures limits { IfOk result (HasForm entries) }
{
    let judgement = judge(alloc, formula, entries)?;
    Ok(judgement.form)
}
