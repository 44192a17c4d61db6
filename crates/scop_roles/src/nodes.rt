//! What is known of a constant or a name, and of a subscript, a call, a sign or a cast from what is known of its parts.
ghost use Rattle.std.specs.Prelude.{◌&&◌, ◌≡◌, ℕ, IfOk};
ghost use Rattle.scop_expressions.specs.Width.{Width};
ghost use Rattle.scop_roles.specs.declared.formula.Role.TheVariants as role;
ghost use Rattle.scop_roles.specs.Faults.{called, faults, first, first_of, told};
ghost use Rattle.scop_roles.specs.Forms.{has_name, is_long, is_signed, keeps_type};
ghost use Rattle.scop_roles.specs.Formula.{Formula as Tree, bare_call, call, cast, constant, index, name};
ghost use Rattle.scop_roles.specs.Formula.{unary};
ghost use Rattle.scop_roles.specs.steps.Judgement.{HasForm, IsFormOf, IsJudgement, is_zero, one_less};

use crate::forms::{constant_form, multiple, variable_form};
use crate::formula::{Meaning, Role};
use crate::judgement::{Faults, Judgement};
use crate::kinds::{Fault, first_of, part_or_own, told};
use crate::pairs::both;
use crate::roles::{
    called, cast_role, is_between, is_long_constant, is_narrow_array, is_narrow_width, is_number,
    is_plain, keeps_type, named, operand_role, own_call, own_cast, own_constant, own_index,
    own_name, own_unary, rank,
};
use scop_expressions::{Sign, Suffix, Width};
use scop_syntax::{Aff, MOST_CONSTANT};
use std::alloc::{AllocError, Global};

fn is_zero(number: Option<usize>) -> bool
    ensures { result ≡ is_zero number }
{
    match number {
        Some(0) => true,
        _ => false,
    }
}

fn one_less(number: Option<usize>) -> Option<usize>
    ensures { result ≡ one_less number }
{
    match number {
        None => None,
        Some(number) => { if number == 0 { None } else { Some(number - 1) } }
    }
}

// A constant's form, where it has one.
fn form_of_constant(
    alloc: Global,
    suffix: Suffix,
    value: u64,
    entries: usize,
) -> Result<Option<Aff>, AllocError>
    ensures form { IfOk result (λ form. (at : ℕ) → IsFormOf entries (constant suffix value at) form) }
    ensures limits { IfOk result (HasForm entries) }
{
    match suffix {
        Suffix::Present => Ok(None),
        Suffix::Absent(_) => {
            if MOST_CONSTANT < value {
                return Ok(None);
            }
            let form = constant_form(alloc, entries, value)?;
            Ok(Some(form))
        }
    }
}

fn constant_fault(role: Role, suffix: Suffix, value: u64, at: usize) -> Option<Fault>
    ensures { (n : ℕ) → result ≡ first (faults n role (constant suffix value at)) }
{
    told(at, own_constant(role, suffix, value))
}

pub(crate) fn of_constant(
    alloc: Global,
    suffix: Suffix,
    value: u64,
    at: usize,
    entries: usize,
) -> Result<Judgement, AllocError>
    ensures { IfOk result (IsJudgement entries (constant suffix value at)) }
{
    let form = form_of_constant(alloc, suffix, value, entries)?;
    Ok(Judgement {
        place: at,
        signed: is_plain(suffix),
        narrow: false,
        long: is_long_constant(suffix, value),
        named: false,
        narrow_cells: false,
        constant: is_plain(suffix),
        count: is_between(suffix, value, 0, 63),
        narrow_count: is_between(suffix, value, 0, 31),
        lacking: Some(0),
        place_fault: None,
        faults: Faults {
            affine: constant_fault(Role::Affine, suffix, value, at),
            signed: constant_fault(Role::Signed, suffix, value, at),
            value: constant_fault(Role::Value, suffix, value, at),
            condition: constant_fault(Role::Condition, suffix, value, at),
            loose: constant_fault(Role::Loose, suffix, value, at),
            free: constant_fault(Role::Free, suffix, value, at),
        },
        form,
    })
}

// A name's form, where it has one.
fn form_of_name(alloc: Global, meaning: Meaning, entries: usize) -> Result<Option<Aff>, AllocError>
    ensures form { IfOk result (λ form. (at : ℕ) → IsFormOf entries (name meaning at) form) }
    ensures limits { IfOk result (HasForm entries) }
{
    match meaning {
        Meaning::Variable(variable) => {
            let form = variable_form(alloc, entries, variable)?;
            Ok(Some(form))
        }
        Meaning::Unknown | Meaning::Closed | Meaning::Array(_, _, _) => Ok(None),
    }
}

fn name_fault(role: Role, meaning: Meaning, at: usize) -> Option<Fault>
    ensures { (n : ℕ) → result ≡ first (faults n role (name meaning at)) }
{
    let part = told(at, named(meaning));
    part_or_own(part, at, own_name(role, meaning))
}

pub(crate) fn of_name(
    alloc: Global,
    meaning: Meaning,
    at: usize,
    entries: usize,
) -> Result<Judgement, AllocError>
    ensures { IfOk result (IsJudgement entries (name meaning at)) }
{
    let form = form_of_name(alloc, meaning, entries)?;
    Ok(Judgement {
        place: at,
        signed: is_number(meaning),
        narrow: false,
        long: is_number(meaning),
        named: true,
        narrow_cells: is_narrow_array(meaning),
        constant: false,
        count: false,
        narrow_count: false,
        lacking: Some(rank(meaning)),
        place_fault: told(at, named(meaning)),
        faults: Faults {
            affine: name_fault(Role::Affine, meaning, at),
            signed: name_fault(Role::Signed, meaning, at),
            value: name_fault(Role::Value, meaning, at),
            condition: name_fault(Role::Condition, meaning, at),
            loose: name_fault(Role::Loose, meaning, at),
            free: name_fault(Role::Free, meaning, at),
        },
        form,
    })
}

// The first fault of a place with one subscript more.
fn index_fault(role: Role, place: &Judgement, subscript: &Judgement) -> Option<Fault>
    ensures { (n : ℕ) (p i : Tree) → IsJudgement n p place.now → IsJudgement n i subscript.now
        → result ≡ first (faults n role (index p i)) }
{
    let part = first_of(place.place_fault, subscript.faults.affine);
    let ranked = is_zero(one_less(place.lacking));
    part_or_own(part, place.place, own_index(role, ranked))
}

// A place with a subscript more.
fn indexed(place: &Judgement, subscript: &Judgement) -> Judgement
    ensures { (n : ℕ) (p i : Tree) → IsJudgement n p place.now → IsJudgement n i subscript.now
        → IsJudgement n (index p i) result }
{
    Judgement {
        place: place.place,
        signed: false,
        narrow: place.narrow_cells,
        long: false,
        named: true,
        narrow_cells: place.narrow_cells,
        constant: false,
        count: false,
        narrow_count: false,
        lacking: one_less(place.lacking),
        place_fault: first_of(place.place_fault, subscript.faults.affine),
        faults: Faults {
            affine: index_fault(Role::Affine, place, subscript),
            signed: index_fault(Role::Signed, place, subscript),
            value: index_fault(Role::Value, place, subscript),
            condition: index_fault(Role::Condition, place, subscript),
            loose: index_fault(Role::Loose, place, subscript),
            free: index_fault(Role::Free, place, subscript),
        },
        form: None,
    }
}

pub(crate) fn of_index(
    place: Result<Judgement, AllocError>,
    subscript: Result<Judgement, AllocError>,
) -> Result<Judgement, AllocError>
    ensures { (n : ℕ) (p i : Tree) → IfOk place (IsJudgement n p) → IfOk subscript (IsJudgement n i)
        → IfOk result (IsJudgement n (index p i)) }
{
    match both(place, subscript) {
        Err(_) => Err(AllocError),
        Ok(parts) => {
            let whole = indexed(&parts.0, &parts.1);
            drop(parts);
            Ok(whole)
        }
    }
}

// A call whose parts have this first fault.
fn called_with(part: Option<Fault>, at: usize) -> Judgement
    ensures bare { (n : ℕ) (m : Meaning) → part ≡ first (told at (called m)) → IsJudgement n (bare_call m at) result }
    ensures call { (n : ℕ) (m : Meaning) (f : Tree)
        → part ≡ first_of (first (told at (called m))) (first (faults n role.Free f))
        → IsJudgement n (call m f at) result }
{
    Judgement {
        place: at,
        signed: false,
        narrow: false,
        long: false,
        named: true,
        narrow_cells: false,
        constant: false,
        count: false,
        narrow_count: false,
        lacking: Some(0),
        place_fault: None,
        faults: Faults {
            affine: part_or_own(part, at, own_call(Role::Affine)),
            signed: part_or_own(part, at, own_call(Role::Signed)),
            value: part_or_own(part, at, own_call(Role::Value)),
            condition: part_or_own(part, at, own_call(Role::Condition)),
            loose: part_or_own(part, at, own_call(Role::Loose)),
            free: part_or_own(part, at, own_call(Role::Free)),
        },
        form: None,
    }
}

pub(crate) fn of_bare_call(meaning: Meaning, at: usize) -> Judgement
    ensures { (n : ℕ) → IsJudgement n (bare_call meaning at) result }
{
    called_with(told(at, called(meaning)), at)
}

pub(crate) fn of_call(
    meaning: Meaning,
    arguments: Result<Judgement, AllocError>,
    at: usize,
) -> Result<Judgement, AllocError>
    ensures { (n : ℕ) (f : Tree) → IfOk arguments (IsJudgement n f)
        → IfOk result (IsJudgement n (call meaning f at)) }
{
    match arguments {
        Err(_) => Err(AllocError),
        Ok(arguments) => {
            let free = arguments.faults.free;
            drop(arguments);
            let part = first_of(told(at, called(meaning)), free);
            Ok(called_with(part, at))
        }
    }
}

// The first fault of a sign over its operand.
fn unary_fault(role: Role, sign: Sign, operand: &Judgement, at: usize) -> Option<Fault>
    ensures { (n : ℕ) (f : Tree) → IsJudgement n f operand.now → result ≡ first (faults n role (unary sign f at)) }
{
    let part = operand
        .faults
        .in_role(operand_role(sign, operand.signed, role));
    part_or_own(part, at, own_unary(role, sign, operand.signed))
}

// The opposite of a form, where there is one.
fn opposite(
    alloc: Global,
    sign: Sign,
    form: &Option<Aff>,
    entries: usize,
) -> Result<Option<Aff>, AllocError>
    requires { HasForm entries form.now }
    ensures form { IfOk result (λ opposite. (f : Tree) (at : ℕ) → IsFormOf entries f form.now
        → IsFormOf entries (unary sign f at) opposite) }
    ensures limits { IfOk result (HasForm entries) }
{
    match sign {
        Sign::Complement => Ok(None),
        Sign::Not => Ok(None),
        Sign::Minus => match form {
            None => Ok(None),
            Some(form) => {
                let form = multiple(alloc, -1, form, entries)?;
                Ok(Some(form))
            }
        },
    }
}

fn is_signed_under(sign: Sign, operand: &Judgement) -> bool
    ensures { (f : Tree) (at : ℕ) → operand.now.signed ≡ is_signed f → result ≡ is_signed (unary sign f at) }
{
    match sign {
        Sign::Minus => operand.signed,
        Sign::Complement | Sign::Not => false,
    }
}

fn is_narrow_under(sign: Sign, operand: &Judgement) -> bool
    ensures { result ≡ (keeps_type sign && operand.now.narrow) }
{
    keeps_type(sign) && operand.narrow
}

fn is_long_under(sign: Sign, operand: &Judgement) -> bool
    ensures { (f : Tree) (at : ℕ) → operand.now.signed ≡ is_signed f → operand.now.named ≡ has_name f
        → result ≡ is_long (unary sign f at) }
{
    match sign {
        Sign::Minus => operand.signed && operand.named,
        Sign::Complement | Sign::Not => false,
    }
}

// An operand under a sign.
fn under_sign(
    alloc: Global,
    sign: Sign,
    operand: &Judgement,
    at: usize,
    entries: usize,
) -> Result<Judgement, AllocError>
    requires { HasForm entries operand.now.form }
    ensures { IfOk result (λ j. (f : Tree) → IsJudgement entries f operand.now
        → IsJudgement entries (unary sign f at) j) }
{
    let form = opposite(alloc, sign, &operand.form, entries)?;
    Ok(Judgement {
        place: at,
        signed: is_signed_under(sign, operand),
        narrow: is_narrow_under(sign, operand),
        long: is_long_under(sign, operand),
        named: operand.named,
        narrow_cells: false,
        constant: false,
        count: false,
        narrow_count: false,
        lacking: Some(0),
        place_fault: None,
        faults: Faults {
            affine: unary_fault(Role::Affine, sign, operand, at),
            signed: unary_fault(Role::Signed, sign, operand, at),
            value: unary_fault(Role::Value, sign, operand, at),
            condition: unary_fault(Role::Condition, sign, operand, at),
            loose: unary_fault(Role::Loose, sign, operand, at),
            free: unary_fault(Role::Free, sign, operand, at),
        },
        form,
    })
}

pub(crate) fn of_unary(
    alloc: Global,
    sign: Sign,
    operand: Result<Judgement, AllocError>,
    at: usize,
    entries: usize,
) -> Result<Judgement, AllocError>
    requires { IfOk operand (λ j. HasForm entries j.form) }
    ensures { (f : Tree) → IfOk operand (IsJudgement entries f)
        → IfOk result (IsJudgement entries (unary sign f at)) }
{
    match operand {
        Err(_) => Err(AllocError),
        Ok(operand) => {
            let whole = under_sign(alloc, sign, &operand, at, entries);
            drop(operand);
            whole
        }
    }
}

// The first fault of a cast over its operand.
fn cast_fault(role: Role, operand: &Judgement, at: usize) -> Option<Fault>
    ensures { (n : ℕ) (w : Width) (f : Tree) → IsJudgement n f operand.now
        → result ≡ first (faults n role (cast w f at)) }
{
    let part = operand.faults.in_role(cast_role(role));
    part_or_own(part, at, own_cast(role))
}

// An operand under a cast.
fn under_cast(width: Width, operand: &Judgement, at: usize) -> Judgement
    ensures { (n : ℕ) (f : Tree) → IsJudgement n f operand.now → IsJudgement n (cast width f at) result }
{
    Judgement {
        place: at,
        signed: false,
        narrow: is_narrow_width(width),
        long: false,
        named: operand.named,
        narrow_cells: false,
        constant: false,
        count: false,
        narrow_count: false,
        lacking: Some(0),
        place_fault: None,
        faults: Faults {
            affine: cast_fault(Role::Affine, operand, at),
            signed: cast_fault(Role::Signed, operand, at),
            value: cast_fault(Role::Value, operand, at),
            condition: cast_fault(Role::Condition, operand, at),
            loose: cast_fault(Role::Loose, operand, at),
            free: cast_fault(Role::Free, operand, at),
        },
        form: None,
    }
}

pub(crate) fn of_cast(
    width: Width,
    operand: Result<Judgement, AllocError>,
    at: usize,
) -> Result<Judgement, AllocError>
    ensures { (n : ℕ) (f : Tree) → IfOk operand (IsJudgement n f) → IfOk result (IsJudgement n (cast width f at)) }
{
    match operand {
        Err(_) => Err(AllocError),
        Ok(operand) => {
            let whole = under_cast(width, &operand, at);
            drop(operand);
            Ok(whole)
        }
    }
}
