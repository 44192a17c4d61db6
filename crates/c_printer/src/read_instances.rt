//! Reads the instances of a kernel's statements in an emitted text.

ghost use Rattle.std.specs.Prelude.{◌≡◌, Some, map, slice_get, IfOk};
ghost use Rattle.scop_syntax.specs.View.{program_of};
ghost use Rattle.scop_syntax.specs.StandingView.{standing_of};
ghost use Rattle.c_printer.specs.Reading.{body_at, read_givens, read_instance};
ghost use Rattle.c_printer.specs.steps.View.{form_in, form_part, node_in, turns_in, turns_part};
ghost use Rattle.c_printer.specs.steps.Reading.{given_end, read_given, body_end, place_of};
ghost use Rattle.scop_syntax.specs.Standings.{standings_of};

use crate::instances::names_of;
use crate::part::{Read, push, strip_between};
use crate::place::Place;
use crate::read_forms::read_turn;
use crate::texts::{copies, push_name};
use crate::values::put_statement;
use form_text::{read_number, strip};
use loop_tree::{Leaf, Node};
use scop_syntax::{Aff, Kernel, Loop, Name, Standing};
use std::alloc::{AllocError, Global};

/// A turn, and the end of the iterator's definition.
fn given_end<'a>(turn: Read<'a, Aff>) -> Option<Read<'a, Aff>>
    ensures { form_in result ≡ given_end (form_part turn.entry) }
{
    match strip(turn.rest, b"; ") {
        Some(rest) => Some(Read {
            part: turn.part,
            rest,
        }),
        None => None,
    }
}

/// The turn of a loop of the source, by its iterator's definition in front of a text.
fn read_given<'a>(
    alloc: Global,
    parameters: usize,
    loops: usize,
    names: &[Name],
    head: &Loop,
    text: &'a [u8],
) -> Result<Option<Read<'a, Aff>>, AllocError>
    ensures { IfOk result (λ r. form_in r
        ≡ read_given parameters loops (map (λ n. n.items) names.now) head.now text.now) }
{
    let Some(behind) = strip_between(text, b"const int64_t ", &head.iterator, b" = ") else {
        return Ok(None);
    };
    match read_turn(alloc, parameters, loops, names, head, behind) {
        Ok(Some(turn)) => Ok(given_end(turn)),
        Ok(None) => Ok(None),
        Err(_) => Err(AllocError),
    }
}

/// The turns of loops of the source, whose iterators come to stand behind the names.
fn read_givens<'a>(
    alloc: Global,
    names: &mut Vec<Name>,
    parameters: usize,
    loops: usize,
    heads: &[&Loop],
    text: &'a [u8],
) -> Result<Option<Read<'a, Vec<Aff>>>, AllocError>
    ensures { IfOk result (λ r. turns_in r
        ≡ read_givens parameters loops (map (λ n. n.items) names.old.items) (map (λ h. h.now) heads.now) text.now) }
{
    let mut turns = Vec::new(alloc);
    let mut rest = text;
    for at in 0..heads.len() {
        let head = heads[at];
        match read_given(alloc, parameters, loops, names.as_slice(), head, rest) {
            Ok(Some(turn)) => {
                match push(&mut turns, turn.part) {
                    Ok(()) => {}
                    Err(_) => return Err(AllocError),
                }
                rest = turn.rest;
            }
            Ok(None) => return Ok(None),
            Err(_) => return Err(AllocError),
        }
        match push_name(alloc, names, &head.iterator) {
            Ok(()) => {}
            Err(_) => return Err(AllocError),
        }
    }
    Ok(Some(Read { part: turns, rest }))
}

/// The instance of a statement at these turns, by the statement's text behind them.
fn body_end<'a>(
    alloc: Global,
    kernel: &Kernel,
    standing: &Standing,
    statement: usize,
    turns: Read<'a, Vec<Aff>>,
) -> Result<Option<Read<'a, Node>>, AllocError>
    ensures { IfOk result (λ r. node_in r
        ≡ body_end (program_of kernel.now) statement (standing_of standing.now) (turns_part turns.entry)) }
{
    let source = names_of(alloc, &kernel.parameters, &standing.heads)?;
    let mut told = Vec::new(alloc);
    put_statement(&mut told, kernel, &source, standing.body)?;
    let Some(ended) = strip(turns.rest, &told) else {
        return Ok(None);
    };
    let Some(rest) = strip(ended, b"; }\n") else {
        return Ok(None);
    };
    let part = Node::Instance(Leaf {
        statement,
        turns: turns.part,
    });
    Ok(Some(Read { part, rest }))
}

/// The instance of a statement of the kernel behind its number.
fn read_body<'a>(
    alloc: Global,
    place: &Place,
    standing: &Standing,
    statement: usize,
    text: &'a [u8],
) -> Result<Option<Read<'a, Node>>, AllocError>
    ensures { IfOk result (λ r. node_in r
        ≡ body_at (program_of place.now.source.now) (map (λ n. n.items) place.now.names.items) place.now.loops statement
        text.now (Some (standing_of standing.now))) }
{
    let mut given = copies(alloc, &place.names)?;
    let source = place.source;
    let parameters = source.kernel.parameters.len();
    let heads = &standing.heads;
    match read_givens(alloc, &mut given, parameters, place.loops, heads, text) {
        Ok(Some(turns)) => body_end(alloc, source.kernel, standing, statement, turns),
        Ok(None) => Ok(None),
        Err(_) => Err(AllocError),
    }
}

/// The instance of the statement at a place of the kernel, if there is one, behind its number.
fn read_found<'a>(
    alloc: Global,
    place: &Place,
    statement: usize,
    text: &'a [u8],
) -> Result<Option<Read<'a, Node>>, AllocError>
    ensures { IfOk result (λ r. node_in r
        ≡ body_at (program_of place.now.source.now) (map (λ n. n.items) place.now.names.items) place.now.loops statement
        text.now (slice_get (standings_of (program_of place.now.source.now)) statement)) }
{
    let source = place.source;
    match source.statements.get(statement) {
        Some(standing) => read_body(alloc, place, standing, statement, text),
        None => Ok(None),
    }
}

/// The place of the statement of a number that texts count from 1.
fn place_of(number: u128) -> Option<usize>
    ensures { result ≡ place_of number }
{
    if number == 0 {
        return None;
    }
    match usize::try_from(number - 1) {
        Ok(place) => Some(place),
        Err(_) => None,
    }
}

/// An instance of a statement of the kernel behind `{ /* S`.
#[tactic(auto, unfolding(crate::specs::Reading::read_instance))]
pub fn read_instance<'a>(
    alloc: Global,
    place: &Place,
    text: &'a [u8],
) -> Result<Option<Read<'a, Node>>, AllocError>
    ensures { IfOk result (λ r. node_in r
        ≡ read_instance (program_of place.now.source.now) (map (λ n. n.items) place.now.names.items) place.now.loops
        text.now) }
{
    let (number, counted) = read_number(text);
    let Some(statement) = place_of(number) else {
        return Ok(None);
    };
    let Some(behind) = strip(counted, b" */ ") else {
        return Ok(None);
    };
    read_found(alloc, place, statement, behind)
}
