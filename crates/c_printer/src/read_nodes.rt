//! Reads the nodes of an emitted text, and a whole one.

ghost use Rattle.std.specs.Prelude.{◌≡◌, Some, length, map, option_map, suc, IfOk, IfSome, IsNone};
ghost use Rattle.scop_syntax.specs.View.{program_of};
ghost use Rattle.loop_tree.specs.Tree.{guard, loop, Trees};
ghost use Rattle.loop_tree.specs.View.{bounds_in, test_of, trees_in};
ghost use Rattle.c_printer.specs.Forms.{loop_name, names_in};
ghost use Rattle.c_printer.specs.Nodes.{text_of};
ghost use Rattle.c_printer.specs.Printable.{AreNodes, IsNamed};
ghost use Rattle.c_printer.specs.Reading.{printed_as, read_node, read_nodes, read_text};
ghost use Rattle.c_printer.specs.steps.View.{body_in, body_part, line_in, node_in, sides_part};
ghost use Rattle.c_printer.specs.steps.Reading.{closed_as, closed_body, guard_from, loop_from, lower_end};
ghost use Rattle.c_printer.specs.steps.Reading.{parallel_from, read_condition, read_line, upper_end};

use crate::header::put_front;
use crate::nodes::print;
use crate::part::{Read, push, strip_between, strip_repeated};
use crate::place::{Place, Source, within_guard, within_loop};
use crate::read_bounds::read_bounds;
use crate::read_instances::read_instance;
use crate::read_tests::read_condition;
use crate::text_laws::unread_texts_are_of_no_tree;
use crate::texts::{copies, name_of_loop};
use form_text::strip;
use loop_tree::{Bounds, Guard, Loop, Node, Tree};
use scop_syntax::{Kernel, Name, standings_of};
use std::alloc::{AllocError, Global};

/// The line of a loop, behind its bounds.
fn upper_end<'a>(
    name: &[u8],
    parallel: bool,
    lower: Bounds,
    upper: Read<'a, Bounds>,
) -> Option<Read<'a, Loop>>
    ensures { line_in result ≡ upper_end name.now parallel (bounds_in lower) (Some (sides_part upper.entry)) }
{
    let Some(rest) = strip_between(upper.rest, b"; ", name, b"++) {\n") else {
        return None;
    };
    let part = Loop {
        parallel,
        lower,
        upper: upper.part,
    };
    Some(Read { part, rest })
}

/// The line of a loop, behind its lower bounds.
#[tactic(auto, unfolding(crate::specs::Reading::read_upper))]
fn lower_end<'a>(
    alloc: Global,
    steps: usize,
    parameters: usize,
    names: &[Name],
    name: &[u8],
    parallel: bool,
    lower: Read<'a, Bounds>,
) -> Result<Option<Read<'a, Loop>>, AllocError>
    ensures { IfOk result (λ r. line_in r
        ≡ lower_end steps parameters (map (λ n. n.items) names.now) name.now parallel
        (Some (sides_part lower.entry))) }
{
    let Some(behind) = strip_between(lower.rest, b"; ", name, b" <= ") else {
        return Ok(None);
    };
    let (divided, chosen) = (b"pp_floord(", b"pp_min(");
    match read_bounds(alloc, steps, divided, chosen, parameters, names, behind) {
        Ok(Some(upper)) => Ok(upper_end(name, parallel, lower.part, upper)),
        Ok(None) => Ok(None),
        Err(_) => Err(AllocError),
    }
}

/// The line of a loop with this iterator, behind `for (int64_t `.
#[tactic(auto, unfolding(crate::specs::Reading::read_lower))]
fn read_line<'a>(
    alloc: Global,
    steps: usize,
    parameters: usize,
    names: &[Name],
    name: &[u8],
    parallel: bool,
    text: &'a [u8],
) -> Result<Option<Read<'a, Loop>>, AllocError>
    ensures { IfOk result (λ r. line_in r
        ≡ read_line steps parameters (map (λ n. n.items) names.now) name.now parallel text.now) }
{
    let Some(named) = strip(text, name) else {
        return Ok(None);
    };
    let Some(behind) = strip(named, b" = ") else {
        return Ok(None);
    };
    let (divided, chosen) = (b"pp_ceild(", b"pp_max(");
    match read_bounds(alloc, steps, divided, chosen, parameters, names, behind) {
        Ok(Some(lower)) => lower_end(alloc, steps, parameters, names, name, parallel, lower),
        Ok(None) => Ok(None),
        Err(_) => Err(AllocError),
    }
}

/// The line of a loop that stands at a place.
fn read_line_at<'a>(
    alloc: Global,
    steps: usize,
    parameters: usize,
    place: &Place,
    parallel: bool,
    text: &'a [u8],
) -> Result<Option<Read<'a, Loop>>, AllocError>
    ensures { IfOk result (λ r. line_in r
        ≡ read_line steps parameters (map (λ n. n.items) place.now.names.items) (loop_name place.now.loops)
        parallel text.now) }
{
    let name = name_of_loop(alloc, place.loops)?;
    read_line(
        alloc,
        steps,
        parameters,
        &place.names,
        &name,
        parallel,
        text,
    )
}

/// A body in front of its closing brace.
fn closed_body<'a>(level: usize, body: Option<Read<'a, Vec<Node>>>) -> Option<Read<'a, Vec<Node>>>
    ensures { body_in result ≡ closed_body level (body_in body.entry) }
{
    let Some(nodes) = body else {
        return None;
    };
    let Some(behind) = strip_repeated(nodes.rest, b"  ", level) else {
        return None;
    };
    let Some(rest) = strip(behind, b"}\n") else {
        return None;
    };
    Some(Read {
        part: nodes.part,
        rest,
    })
}

/// A loop, from its line and its body.
fn closed_loop<'a>(line: Loop, body: Option<Read<'a, Vec<Node>>>) -> Option<Read<'a, Node>>
    ensures { node_in result
        ≡ closed_as (loop line.parallel (bounds_in line.lower) (bounds_in line.upper)) (body_in body.entry) }
{
    match body {
        Some(nodes) => Some(Read {
            part: Node::Loop(line, nodes.part),
            rest: nodes.rest,
        }),
        None => None,
    }
}

/// A guard, from its tests and its body.
fn closed_guard<'a>(condition: Guard, body: Option<Read<'a, Vec<Node>>>) -> Option<Read<'a, Node>>
    ensures { node_in result ≡ closed_as (guard (map test_of condition.tests.items)) (body_in body.entry) }
{
    match body {
        Some(nodes) => Some(Read {
            part: Node::Guard(condition, nodes.part),
            rest: nodes.rest,
        }),
        None => None,
    }
}

/// The nodes at a place, in so many steps.
#[cycle(reading)]
fn read_nodes<'a>(
    alloc: Global,
    steps: usize,
    place: &Place,
    text: &'a [u8],
) -> Result<Option<Read<'a, Vec<Node>>>, AllocError>
    ensures { IfOk result (λ r. body_in r
        ≡ read_nodes (program_of place.now.source.now) steps place.now.level place.now.loops text.now) }
{
    let mut nodes = Vec::new(alloc);
    let mut rest = text;
    for at in 0..steps {
        let Some(behind) = strip_repeated(rest, b"  ", place.level) else {
            return Ok(Some(Read { part: nodes, rest }));
        };
        match read_node(alloc, steps - (at + 1), place, behind) {
            Ok(Some(node)) => {
                match push(&mut nodes, node.part) {
                    Ok(()) => {}
                    Err(_) => return Err(AllocError),
                }
                rest = node.rest;
            }
            Ok(None) => return Ok(None),
            Err(_) => return Err(AllocError),
        }
    }
    Ok(None)
}

/// The node behind its indentation.
#[cycle(reading)]
fn read_node<'a>(
    alloc: Global,
    steps: usize,
    place: &Place,
    text: &'a [u8],
) -> Result<Option<Read<'a, Node>>, AllocError>
    ensures { IfOk result (λ r. node_in r
        ≡ read_node (read_nodes (program_of place.now.source.now) steps) (program_of place.now.source.now) steps
        place.now.level place.now.loops text.now) }
{
    if let Some(behind) = strip(text, b"#pragma omp parallel for\n") {
        return read_parallel(alloc, steps, place, behind);
    }
    if let Some(behind) = strip(text, b"for (int64_t ") {
        return read_loop(alloc, steps, place, false, behind);
    }
    if let Some(behind) = strip(text, b"if (") {
        return read_guard(alloc, steps, place, behind);
    }
    match strip(text, b"{ /* S") {
        Some(behind) => read_instance(alloc, place, behind),
        None => Ok(None),
    }
}

/// The parallel loop behind its pragma.
#[cycle(reading)]
#[tactic(auto, unfolding(crate::specs::steps::Reading::parallel_from))]
fn read_parallel<'a>(
    alloc: Global,
    steps: usize,
    place: &Place,
    text: &'a [u8],
) -> Result<Option<Read<'a, Node>>, AllocError>
    ensures { IfOk result (λ r. node_in r
        ≡ parallel_from (read_nodes (program_of place.now.source.now) steps) (program_of place.now.source.now) steps
        place.now.level place.now.loops text.now) }
{
    let Some(indented) = strip_repeated(text, b"  ", place.level) else {
        return Ok(None);
    };
    match strip(indented, b"for (int64_t ") {
        Some(behind) => read_loop(alloc, steps, place, true, behind),
        None => Ok(None),
    }
}

/// The loop behind `for (int64_t `.
#[cycle(reading)]
#[tactic(auto, unfolding(crate::specs::steps::Reading::loop_from))]
fn read_loop<'a>(
    alloc: Global,
    steps: usize,
    place: &Place,
    parallel: bool,
    text: &'a [u8],
) -> Result<Option<Read<'a, Node>>, AllocError>
    ensures { IfOk result (λ r. node_in r
        ≡ loop_from (read_nodes (program_of place.now.source.now) steps (suc place.now.level) (suc place.now.loops))
        place.now.level (read_line steps (length (program_of place.now.source.now).parameters)
        (names_in (program_of place.now.source.now).parameters place.now.loops) (loop_name place.now.loops) parallel
        text.now)) }
{
    let source = place.source;
    let parameters = source.kernel.parameters.len();
    let inner = within_loop(alloc, place)?;
    let line = match read_line_at(alloc, steps, parameters, place, parallel, text) {
        Ok(Some(line)) => line,
        Ok(None) => return Ok(None),
        Err(_) => return Err(AllocError),
    };
    match read_nodes(alloc, steps, &inner, line.rest) {
        Ok(body) => Ok(closed_loop(line.part, closed_body(place.level, body))),
        Err(_) => Err(AllocError),
    }
}

/// The guard behind `if (`.
#[cycle(reading)]
#[tactic(auto, unfolding(crate::specs::steps::Reading::guard_from))]
fn read_guard<'a>(
    alloc: Global,
    steps: usize,
    place: &Place,
    text: &'a [u8],
) -> Result<Option<Read<'a, Node>>, AllocError>
    ensures { IfOk result (λ r. node_in r
        ≡ guard_from (read_nodes (program_of place.now.source.now) steps (suc place.now.level) place.now.loops)
        place.now.level (read_condition steps (length (program_of place.now.source.now).parameters)
        (names_in (program_of place.now.source.now).parameters place.now.loops) text.now)) }
{
    let source = place.source;
    let parameters = source.kernel.parameters.len();
    let inner = within_guard(alloc, place)?;
    let condition = match read_condition(alloc, steps, parameters, &place.names, text) {
        Ok(Some(condition)) => condition,
        Ok(None) => return Ok(None),
        Err(_) => return Err(AllocError),
    };
    match read_nodes(alloc, steps, &inner, condition.rest) {
        Ok(body) => Ok(closed_guard(condition.part, closed_body(place.level, body))),
        Err(_) => Err(AllocError),
    }
}

/// The nodes of a kernel's loop tree, behind the front of its text, in so many steps.
fn read_all<'a>(
    alloc: Global,
    kernel: &Kernel,
    steps: usize,
    text: &'a [u8],
) -> Result<Option<Read<'a, Vec<Node>>>, AllocError>
    ensures { IfOk result (λ r. body_in r ≡ read_nodes (program_of kernel.now) steps 1 0 text.now) }
{
    let statements = standings_of(alloc, kernel)?;
    let source = Source { kernel, statements };
    let place = Place {
        source: &source,
        names: copies(alloc, &kernel.parameters)?,
        level: 1,
        loops: 0,
    };
    read_nodes(alloc, steps, &place, text)
}

/// The tree of nodes that were read, where it prints as the text.
fn printed_as<'a>(
    alloc: Global,
    kernel: &Kernel,
    text: &[u8],
    read: Read<'a, Vec<Node>>,
) -> Result<Option<Tree>, AllocError>
    ensures { IfOk result (λ t. option_map trees_in t
        ≡ printed_as (program_of kernel.now) text.now (body_part read.entry)) }
{
    let tree = Tree { nodes: read.part };
    let printed = print(alloc, kernel, &tree)?;
    if printed.as_slice() == text {
        return Ok(Some(tree));
    }
    Ok(None)
}

/// The loop tree that is read of a text, or `None` where none is.
fn read_whole(alloc: Global, kernel: &Kernel, text: &[u8]) -> Result<Option<Tree>, AllocError>
    ensures { IfOk result (λ read. option_map trees_in read ≡ read_text (program_of kernel.now) text.now) }
{
    let mut front = Vec::new(alloc);
    put_front(&mut front, kernel)?;
    let Some(behind) = strip(text, &front) else {
        return Ok(None);
    };
    match read_all(alloc, kernel, text.len() + 1, behind) {
        Ok(Some(nodes)) => printed_as(alloc, kernel, text, nodes),
        Ok(None) => Ok(None),
        Err(_) => Err(AllocError),
    }
}

/// The loop tree whose text this is, or `None` where no tree that can be printed has this text. It recurses as deep
/// as loops and guards of the text stand in one another.
///
/// # Errors
/// `AllocError` alone.
pub fn read_back(alloc: Global, kernel: &Kernel, text: &[u8]) -> Result<Option<Tree>, AllocError>
    ensures read { IfOk result (λ read. option_map trees_in read ≡ read_text (program_of kernel.now) text.now) }
    ensures some { IfOk result (λ read. IfSome read
        (λ tree. text_of (program_of kernel.now) (trees_in tree) ≡ text.now)) }
    ensures none { IsNamed (program_of kernel.now) → IfOk result (λ read. IsNone read
        → (ts : Trees) → AreNodes (program_of kernel.now) 0 ts → text_of (program_of kernel.now) ts ≡ text.now → ⊥) }
{
    unread_texts_are_of_no_tree();
    read_whole(alloc, kernel, text)
}
