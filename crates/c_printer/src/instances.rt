//! Puts the instances of a kernel's statements.

ghost use Rattle.std.specs.Prelude.{◌≡◌, ◌++◌, Some, IfOk, codes, map, OnOk, slice_get};
ghost use Rattle.form_text.specs.Forms.{form_text};
ghost use Rattle.scop_syntax.specs.View.{program_of};
ghost use Rattle.c_printer.specs.Forms.{iterator_form};
ghost use Rattle.scop_syntax.specs.StandingView.{standing_of};
ghost use Rattle.c_printer.specs.Nodes.{body_text, givens_text, instance_text};
ghost use Rattle.scop_syntax.specs.Standings.{standings_of};
ghost use Rattle.c_printer.specs.Naming.{iterators_of};
ghost use Rattle.c_printer.specs.Statements.{between};

use crate::forms::put_iterator;
use crate::place::Place;
use crate::texts::{copies, push_name, put_between, put_next_number};
use crate::values::put_statement;
use form_text::put_bytes;
use loop_tree::Leaf;
use scop_syntax::{Aff, Loop, Name, Standing};
use std::alloc::{AllocError, Global};

/// Puts a source iterator at a turn of its loop.
#[tactic(auto, using(crate::proofs::PutTexts::putting))]
fn put_given(
    alloc: Global,
    out: &mut Vec<u8>,
    names: &[Name],
    parameters: usize,
    loops: usize,
    head: &Loop,
    turn: &Aff,
) -> Result<(), AllocError>
    ensures { OnOk result (out.new.items ≡ out.old.items
        ++ (between (codes "const int64_t ") head.now.iterator (codes " = ")
        ++ (form_text (map (λ n. n.items) names.now) (iterator_form parameters loops head.now turn.now)
        ++ codes "; "))) }
{
    put_between(out, b"const int64_t ", &head.iterator, b" = ")?;
    put_iterator(alloc, out, names, parameters, loops, head, turn)?;
    put_bytes(out, b"; ")
}

/// Puts the source iterators at some turns, and their names behind the others.
#[tactic(auto, using(crate::proofs::PutTexts::putting))]
fn put_givens(
    alloc: Global,
    out: &mut Vec<u8>,
    names: &mut Vec<Name>,
    parameters: usize,
    loops: usize,
    heads: &[&Loop],
    turns: &[Aff],
) -> Result<(), AllocError>
    ensures { OnOk result (out.new.items ≡ out.old.items
        ++ givens_text parameters loops (map (λ n. n.items) names.old.items) (map (λ h. h.now) heads.now) turns.now) }
{
    for at in 0..heads.len() {
        if at >= turns.len() {
            return Ok(());
        }
        let head = heads[at];
        match put_given(
            alloc,
            out,
            names.as_slice(),
            parameters,
            loops,
            head,
            &turns[at],
        ) {
            Ok(()) => {}
            Err(_) => return Err(AllocError),
        }
        match push_name(alloc, names, &head.iterator) {
            Ok(()) => {}
            Err(_) => return Err(AllocError),
        }
    }
    Ok(())
}

/// The parameters and the iterators of these loops.
pub fn names_of(
    alloc: Global,
    parameters: &[Name],
    heads: &[&Loop],
) -> Result<Vec<Name>, AllocError>
    ensures { IfOk result (λ names. map (λ n. n.items) names.items
        ≡ map (λ n. n.items) parameters.now ++ iterators_of (map (λ h. h.now) heads.now)) }
{
    let mut names = copies(alloc, parameters)?;
    for at in 0..heads.len() {
        let head = heads[at];
        match push_name(alloc, &mut names, &head.iterator) {
            Ok(()) => {}
            Err(_) => return Err(AllocError),
        }
    }
    Ok(names)
}

/// Puts a statement at the turns of the loops round it.
#[tactic(auto, using(crate::proofs::PutTexts::putting))]
fn put_body(
    alloc: Global,
    out: &mut Vec<u8>,
    place: &Place,
    standing: &Standing,
    turns: &[Aff],
) -> Result<(), AllocError>
    ensures { OnOk result (out.new.items ≡ out.old.items
        ++ body_text (program_of place.now.source.now) (map (λ n. n.items) place.now.names.items) place.now.loops
        (Some (standing_of standing.now)) turns.now) }
{
    let mut told = copies(alloc, &place.names)?;
    let source = place.source;
    let parameters = source.kernel.parameters.len();
    let heads = &standing.heads;
    put_givens(alloc, out, &mut told, parameters, place.loops, heads, turns)?;
    let names = names_of(alloc, &source.kernel.parameters, heads)?;
    put_statement(out, source.kernel, &names, standing.body)
}

/// Puts the statement of the kernel that an instance is of, if there is one.
fn put_found(alloc: Global, out: &mut Vec<u8>, place: &Place, leaf: &Leaf) -> Result<(), AllocError>
    ensures { OnOk result (out.new.items ≡ out.old.items
        ++ body_text (program_of place.now.source.now) (map (λ n. n.items) place.now.names.items) place.now.loops
        (slice_get (standings_of (program_of place.now.source.now)) leaf.now.statement) leaf.now.turns.items) }
{
    let source = place.source;
    match source.statements.get(leaf.statement) {
        Some(standing) => put_body(alloc, out, place, standing, &leaf.turns),
        None => Ok(()),
    }
}

/// Puts an instance of a statement of the kernel.
#[tactic(auto, using(crate::proofs::PutTexts::putting))]
pub fn put_instance(
    alloc: Global,
    out: &mut Vec<u8>,
    place: &Place,
    leaf: &Leaf,
) -> Result<(), AllocError>
    ensures { OnOk result (out.new.items ≡ out.old.items
        ++ instance_text (program_of place.now.source.now) (map (λ n. n.items) place.now.names.items) place.now.loops
        leaf.now.statement leaf.now.turns.items) }
{
    put_next_number(out, b"{ /* S", leaf.statement, b" */ ")?;
    put_found(alloc, out, place, leaf)?;
    put_bytes(out, b"; }\n")
}
