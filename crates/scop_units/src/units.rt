//! What is judged at once: a declared name, an array with its extents, a statement.

ghost use Rattle.std.specs.Prelude.{◌≡◌, ◌≤◌, IfOk, None, map, slice_get};
ghost use Rattle.scop_roles.specs.declared.formula.Role.TheVariants as role;
ghost use Rattle.scop_roles.specs.Faults.{first, only_where, own_rank, told};
ghost use Rattle.scop_roles.specs.Formula.{formula_of};
ghost use Rattle.scop_roles.specs.Values.{count, expression, narrowed_where};
ghost use Rattle.scop_syntax.specs.Tree.{assigned, implied};
ghost use Rattle.scop_syntax.specs.View.{operator_of, right_of as code_right, statement_of as code_statement};
ghost use Rattle.scop_units.specs.Scopes.{entries};
ghost use Rattle.scop_units.specs.Units.{array_faults, array_of, cell_faults, combined_as, extent_faults};
ghost use Rattle.scop_units.specs.Units.{is_narrow_cell, kernel_name_faults, moved_left_as, name_faults};
ghost use Rattle.scop_units.specs.Units.{number_faults, or_fault, own_assign, own_cell, read_limit, reads_of};
ghost use Rattle.scop_units.specs.Units.{right_of, statement_faults, statement_of, stored_faults};
ghost use Rattle.scop_units.specs.View.{scope_of, stored_of, words_in};

use crate::scope::{Scope, copied, is_reserved};
use crate::words::Words;
use scop_expressions::{Assign, Width};
use scop_roles::{
    Fault, Formula, Kind, Meaning, Role, access, expression, fault, first_of, form, has_subscripts,
    is_count, is_long, is_narrow_array, is_narrow_width, is_signed, last_count, meaning_of,
    narrowed_where, place, place_fault, push_read_places,
};
use scop_syntax::{
    Array, MOST_ARRAYS, MOST_COMPARISONS, MOST_EXTENTS, MOST_PARAMETERS, MOST_READS,
    MOST_STATEMENTS, Narrowing, Operator, Right, Stmt,
};
use std::alloc::{AllocError, Global};

pub(crate) fn told(place: usize, kind: Option<Kind>) -> Option<Fault>
    ensures { result ≡ first (told place kind) }
{
    match kind {
        None => None,
        Some(kind) => Some(Fault { place, kind }),
    }
}

pub(crate) fn told_where(wrong: bool, place: usize, kind: Kind) -> Option<Fault>
    ensures { result ≡ first (told place (only_where wrong kind)) }
{
    if wrong {
        Some(Fault { place, kind })
    } else {
        None
    }
}

// The first fault of a node: that of its parts, else its own.
pub(crate) fn or_fault(part: Option<Fault>, own: Option<Fault>) -> Option<Fault>
    ensures { result ≡ or_fault part own }
{
    match part {
        Some(fault) => Some(fault),
        None => own,
    }
}

/// The kernel's name.
pub fn kernel_name_fault(words: &Words, at: usize) -> Option<Fault>
    ensures { result ≡ first (kernel_name_faults (words_in words.now) at) }
{
    told_where(is_reserved(words.spelling(at)), at, Kind::Redeclared)
}

/// A name that is declared at a place.
pub fn name_fault(words: &Words, scope: &Scope, at: usize) -> Option<Fault>
    ensures { result ≡ first (name_faults (words_in words.now) (scope_of scope.now) at) }
{
    told(at, scope.redeclared(words.spelling(at)))
}

/// A parameter that is a number.
pub fn number_fault(words: &Words, scope: &Scope, at: usize) -> Option<Fault>
    ensures { result ≡ first (number_faults (words_in words.now) (scope_of scope.now) at) }
{
    first_of(
        name_fault(words, scope, at),
        told_where(
            MOST_PARAMETERS <= scope.parameters.len(),
            at,
            Kind::Parameters,
        ),
    )
}

// The first fault of extents.
fn extent_fault(
    alloc: Global,
    entries: usize,
    extents: &[Formula],
) -> Result<Option<Fault>, AllocError>
    ensures { IfOk result (λ fault. fault ≡ first (extent_faults entries (map formula_of extents.now))) }
{
    let mut first = None;
    for extent in extents {
        first = first_of(first, fault(alloc, extent, entries, Role::Affine)?);
    }
    Ok(first)
}

/// An array at its name.
pub fn array_fault(
    alloc: Global,
    words: &Words,
    scope: &Scope,
    at: usize,
    extents: &[Formula],
) -> Result<Option<Fault>, AllocError>
    ensures { IfOk result (λ fault. fault
        ≡ first (array_faults (words_in words.now) (scope_of scope.now) at (map formula_of extents.now))) }
{
    let rank = told_where(MOST_EXTENTS < extents.len(), at, Kind::Rank);
    let many = told_where(MOST_ARRAYS <= scope.arrays.len(), at, Kind::Arrays);
    let extent = extent_fault(alloc, scope.entries(), extents)?;
    Ok(first_of(
        name_fault(words, scope, at),
        first_of(rank, first_of(many, extent)),
    ))
}

/// The array with its extents over the parameters before it.
pub fn array_of(
    alloc: Global,
    words: &Words,
    scope: &Scope,
    at: usize,
    width: Width,
    extents: &[Formula],
) -> Result<Array, AllocError>
    requires { first (extent_faults (entries (scope_of scope.now)) (map formula_of extents.now)) ≡ None }
    ensures { IfOk result (λ a. a
        ≡ array_of (words_in words.now) (scope_of scope.now) at width (map formula_of extents.now)) }
{
    let mut forms = Vec::new(alloc);
    for extent in extents {
        forms.push(form(alloc, extent, scope.entries())?)?;
    }
    Ok(Array {
        name: copied(alloc, words.spelling(at))?,
        parameters_before: scope.parameters.len(),
        narrow: is_narrow_width(width),
        extents: forms,
    })
}

/// `place operator value ;` with the operator's place among the tokens.
#[derive(Drop)]
pub struct Stored {
    pub cell: Formula,
    pub assign: Assign,
    pub assign_at: usize,
    pub value: Formula,
}

// Only an array has cells: an iterator or a parameter is none.
fn own_cell(cell: &Formula) -> Option<Kind>
    ensures { result ≡ own_cell (formula_of cell.now) }
{
    match meaning_of(cell) {
        Meaning::Array(_, _, _) => None,
        _ => Some(Kind::IteratorOutside),
    }
}

// As many subscripts as its declaration has extents; what is no array has none.
fn own_rank(cell: &Formula) -> Option<Kind>
    ensures { result ≡ own_rank (formula_of cell.now) }
{
    let rank = match meaning_of(cell) {
        Meaning::Array(_, rank, _) => rank,
        _ => 0,
    };
    if has_subscripts(cell, rank) {
        None
    } else {
        Some(Kind::Rank)
    }
}

// A place that is stored to: its name, its subscripts, and where these have no fault its rank.
fn cell_fault(alloc: Global, entries: usize, cell: &Formula) -> Result<Option<Fault>, AllocError>
    ensures { IfOk result (λ fault. fault ≡ first (cell_faults entries (formula_of cell.now))) }
{
    let at = place(cell);
    let parts = place_fault(alloc, cell, entries)?;
    let rank = told(at, own_rank(cell));
    let name = told(at, own_cell(cell));
    Ok(first_of(name, or_fault(parts, rank)))
}

// The place has 32 bits.
fn is_narrow_cell(cell: &Formula) -> bool
    ensures { result ≡ is_narrow_cell (formula_of cell.now) }
{
    is_narrow_array(meaning_of(cell))
}

// An operator that assigns to a place, by whether that has 32 bits, with its right side.
fn own_assign(narrow: bool, assign: Assign, value: &Formula) -> Option<Kind>
    ensures { result ≡ own_assign narrow assign (formula_of value.now) }
{
    match assign {
        Assign::Set => None,
        Assign::ShiftLeft | Assign::ShiftRight => {
            if is_count(value, 0, last_count(narrow)) {
                None
            } else {
                Some(Kind::ShiftCount)
            }
        }
        Assign::Divide | Assign::Remainder => Some(Kind::Division),
        _ => {
            if narrow && is_long(value) {
                Some(Kind::Width)
            } else {
                None
            }
        }
    }
}

// The 17th read is one too many.
fn read_fault(alloc: Global, stored: &Stored) -> Result<Option<Fault>, AllocError>
    ensures { IfOk result (λ fault. fault ≡ first (read_limit (slice_get (reads_of (stored_of stored.now)) 16))) }
{
    let mut places = Vec::new(alloc);
    match stored.assign {
        Assign::Set => {}
        _ => places.push(place(&stored.cell))?,
    }
    push_read_places(&stored.value, &mut places)?;
    match places.get(MOST_READS) {
        None => Ok(None),
        Some(at) => Ok(Some(Fault {
            place: *at,
            kind: Kind::Reads,
        })),
    }
}

// The cell, the value, and where both have none the operator.
fn stored_fault(alloc: Global, entries: usize, stored: &Stored) -> Result<Option<Fault>, AllocError>
    ensures { IfOk result (λ fault. fault ≡ first (stored_faults entries (stored_of stored.now))) }
{
    let cell = cell_fault(alloc, entries, &stored.cell)?;
    let value = fault(alloc, &stored.value, entries, Role::Value)?;
    let narrow = is_narrow_cell(&stored.cell);
    let own = told(
        stored.assign_at,
        own_assign(narrow, stored.assign, &stored.value),
    );
    Ok(or_fault(first_of(cell, value), own))
}

/// The first fault of a statement, with so many comparisons round it and so many statements before it.
pub fn statement_fault(
    alloc: Global,
    entries: usize,
    comparisons: usize,
    before: usize,
    stored: &Stored,
) -> Result<Option<Fault>, AllocError>
    ensures { IfOk result (λ fault. fault
        ≡ first (statement_faults entries comparisons before (stored_of stored.now))) }
{
    let at = place(&stored.cell);
    let parts = stored_fault(alloc, entries, stored)?;
    let reads = read_fault(alloc, stored)?;
    let deep = told_where(MOST_COMPARISONS < comparisons, at, Kind::Depth);
    let many = told_where(MOST_STATEMENTS <= before, at, Kind::Statements);
    Ok(first_of(parts, first_of(reads, first_of(deep, many))))
}

// The number that a constant is.
fn count(value: &Formula) -> u8
    requires { count (formula_of value.now) ≤ 63 }
    ensures { result ≡ count (formula_of value.now) }
{
    match value {
        Formula::Constant(_, value, _) => *value as u8,
        _ => 0,
    }
}

// What a compound operator stores.
fn combined(
    alloc: Global,
    entries: usize,
    operator: Operator,
    stored: &Stored,
) -> Result<Right, AllocError>
    requires { first (stored_faults entries (stored_of stored.now)) ≡ None }
    ensures { IfOk result (λ r. code_right r ≡ combined_as (is_narrow_cell (stored_of stored.now).cell)
        (operator_of operator) entries (stored_of stored.now).value) }
{
    let value = expression(alloc, &stored.value, entries)?;
    if is_narrow_cell(&stored.cell) {
        let side = narrowed_where(alloc, is_signed(&stored.value), Narrowing::Converted, value)?;
        return Ok(Right::CombinedNarrow(operator, side));
    }
    Ok(Right::Combined(operator, value))
}

// What is stored as it is.
fn assigned(alloc: Global, entries: usize, stored: &Stored) -> Result<Right, AllocError>
    requires { first (stored_faults entries (stored_of stored.now)) ≡ None }
    ensures { IfOk result (λ r. code_right r ≡ assigned (narrowed_where (is_narrow_cell (stored_of stored.now).cell)
        implied (expression entries (stored_of stored.now).value))) }
{
    let value = expression(alloc, &stored.value, entries)?;
    let narrow = is_narrow_cell(&stored.cell);
    let kept = narrowed_where(alloc, narrow, Narrowing::Implied, value)?;
    Ok(Right::Assigned(kept))
}

// What `<<=` stores.
fn moved_left(narrow: bool, count: u8) -> Right
    ensures { code_right result ≡ moved_left_as narrow count }
{
    if narrow {
        Right::ShiftedLeftNarrow(count)
    } else {
        Right::ShiftedLeft(count)
    }
}

fn right_of(alloc: Global, entries: usize, stored: &Stored) -> Result<Right, AllocError>
    requires { first (stored_faults entries (stored_of stored.now)) ≡ None }
    ensures { IfOk result (λ r. code_right r ≡ right_of entries (is_narrow_cell (stored_of stored.now).cell)
        (stored_of stored.now).assign (stored_of stored.now).value) }
{
    match stored.assign {
        Assign::Plus => combined(alloc, entries, Operator::Plus, stored),
        Assign::Minus => combined(alloc, entries, Operator::Minus, stored),
        Assign::Times => combined(alloc, entries, Operator::Times, stored),
        Assign::And => combined(alloc, entries, Operator::And, stored),
        Assign::Or => combined(alloc, entries, Operator::Or, stored),
        Assign::Xor => combined(alloc, entries, Operator::Xor, stored),
        Assign::ShiftLeft => {
            let narrow = is_narrow_cell(&stored.cell);
            Ok(moved_left(narrow, count(&stored.value)))
        }
        Assign::ShiftRight => Ok(Right::ShiftedRight(count(&stored.value))),
        _ => assigned(alloc, entries, stored),
    }
}

/// The statement that one without faults stands for.
pub fn statement_of(alloc: Global, entries: usize, stored: &Stored) -> Result<Stmt, AllocError>
    requires { first (stored_faults entries (stored_of stored.now)) ≡ None }
    ensures { IfOk result (λ s. code_statement s ≡ statement_of entries (stored_of stored.now)) }
{
    Ok(Stmt {
        place: access(alloc, &stored.cell, entries)?,
        right: right_of(alloc, entries, stored)?,
    })
}
