//! Puts the nodes of a loop tree, and prints a whole one.

ghost use Rattle.std.specs.Prelude.{◌≡◌, ◌++◌, [], true, if◌then◌else◌, codes, map, IfOk, OnOk};
ghost use Rattle.loop_tree.specs.View.{bounds_in, nodes_of, test_of, tree_of, trees_in};
ghost use Rattle.scop_syntax.specs.View.{program_of};
ghost use Rattle.c_printer.specs.Forms.{loop_name};
ghost use Rattle.c_printer.specs.Nodes.{closing_text, head_text, node_text, nodes_text, pragma_text, tests_text};
ghost use Rattle.c_printer.specs.Nodes.{text_of};
ghost use Rattle.c_printer.specs.Statements.{between};

use crate::bounds::{put_bounds, put_tests};
use crate::header::put_front;
use crate::instances::put_instance;
use crate::place::{Place, Source, within_guard, within_loop};
use crate::texts::{copies, name_of_loop, put_between, put_repeated};
use form_text::put_bytes;
use loop_tree::{Guard, Loop, Node, Tree};
use scop_syntax::{Kernel, Name, standings_of};
use std::alloc::{AllocError, Global};

/// Puts a closing brace on its line.
#[tactic(auto, using(crate::proofs::PutTexts::putting), unfolding(crate::specs::Nodes::closing_text))]
fn put_closing(out: &mut Vec<u8>, level: usize) -> Result<(), AllocError>
    ensures { OnOk result (out.new.items ≡ out.old.items ++ closing_text level) }
{
    put_repeated(out, b"  ", level)?;
    put_bytes(out, b"}\n")
}

/// Puts the line in front of a parallel loop, and that loop's indentation.
#[tactic(auto, using(crate::proofs::PutTexts::putting), unfolding(crate::specs::Nodes::pragma_text))]
fn put_pragma(out: &mut Vec<u8>, level: usize) -> Result<(), AllocError>
    ensures { OnOk result (out.new.items ≡ out.old.items ++ pragma_text level) }
{
    put_bytes(out, b"#pragma omp parallel for\n")?;
    put_repeated(out, b"  ", level)
}

/// Puts what stands in front of a loop, if it is parallel.
fn put_mark(out: &mut Vec<u8>, parallel: bool, level: usize) -> Result<(), AllocError>
    ensures { OnOk result (out.new.items ≡ out.old.items ++ (if parallel then pragma_text level else [])) }
{
    if parallel {
        return put_pragma(out, level);
    }
    Ok(())
}

/// Puts the line of a loop with this iterator behind its indentation.
fn put_head(
    alloc: Global,
    out: &mut Vec<u8>,
    name: &[u8],
    names: &[Name],
    loops: usize,
    head: &Loop,
) -> Result<(), AllocError>
    ensures { OnOk result (out.new.items ≡ out.old.items
        ++ head_text name.now (map (λ n. n.items) names.now) loops (bounds_in head.now.lower)
        (bounds_in head.now.upper)) }
{
    put_between(out, b"for (int64_t ", name, b" = ")?;
    put_bounds(
        alloc,
        out,
        names,
        loops,
        b"pp_ceild(",
        b"pp_max(",
        &head.lower,
    )?;
    put_between(out, b"; ", name, b" <= ")?;
    put_bounds(
        alloc,
        out,
        names,
        loops,
        b"pp_floord(",
        b"pp_min(",
        &head.upper,
    )?;
    put_between(out, b"; ", name, b"++) {\n")
}

/// Puts the line of a loop that stands at a place.
fn put_head_at(
    alloc: Global,
    out: &mut Vec<u8>,
    place: &Place,
    head: &Loop,
) -> Result<(), AllocError>
    ensures { OnOk result (out.new.items ≡ out.old.items
        ++ head_text (loop_name place.now.loops) (map (λ n. n.items) place.now.names.items) place.now.loops
        (bounds_in head.now.lower) (bounds_in head.now.upper)) }
{
    let name = name_of_loop(alloc, place.loops)?;
    put_head(alloc, out, &name, &place.names, place.loops, head)
}

/// Puts what stands in front of a loop, and its line.
#[tactic(auto, using(crate::proofs::PutTexts::putting))]
fn put_opening(
    alloc: Global,
    out: &mut Vec<u8>,
    place: &Place,
    head: &Loop,
) -> Result<(), AllocError>
    ensures { OnOk result (out.new.items ≡ out.old.items
        ++ ((if head.now.parallel then pragma_text place.now.level else [])
        ++ head_text (loop_name place.now.loops) (map (λ n. n.items) place.now.names.items) place.now.loops
        (bounds_in head.now.lower) (bounds_in head.now.upper))) }
{
    put_mark(out, head.parallel, place.level)?;
    put_head_at(alloc, out, place, head)
}

/// Puts nodes, one after another.
#[cycle(printing)]
#[tactic(auto, using(crate::proofs::PutTexts::putting))]
fn put_nodes(
    alloc: Global,
    nodes: &[Node],
    out: &mut Vec<u8>,
    place: &Place,
) -> Result<(), AllocError>
    ensures { OnOk result (out.new.items ≡ out.old.items
        ++ nodes_text (program_of place.now.source.now) place.now.level place.now.loops (nodes_of nodes.now)) }
{
    for node in nodes {
        match put_repeated(out, b"  ", place.level) {
            Ok(()) => {}
            Err(_) => return Err(AllocError),
        }
        match put_node(alloc, node, out, place) {
            Ok(()) => {}
            Err(_) => return Err(AllocError),
        }
    }
    Ok(())
}

/// Puts a node behind its indentation.
#[cycle(printing)]
#[tactic(auto, using(crate::proofs::PutTexts::putting))]
fn put_node(alloc: Global, node: &Node, out: &mut Vec<u8>, place: &Place) -> Result<(), AllocError>
    ensures { OnOk result (out.new.items ≡ out.old.items
        ++ node_text (program_of place.now.source.now) place.now.level place.now.loops (tree_of node.now)) }
{
    match node {
        Node::Loop(head, body) => {
            put_opening(alloc, out, place, head)?;
            let inner = within_loop(alloc, place)?;
            put_body(alloc, body, out, &inner, place.level)
        }
        Node::Guard(guarded, body) => {
            put_condition(alloc, out, place, guarded)?;
            let inner = within_guard(alloc, place)?;
            put_body(alloc, body, out, &inner, place.level)
        }
        Node::Instance(leaf) => put_instance(alloc, out, place, leaf),
    }
}

/// Puts the body of a loop or a guard at its place, and the closing brace.
#[cycle(printing)]
#[tactic(auto, using(crate::proofs::PutTexts::putting))]
fn put_body(
    alloc: Global,
    body: &[Node],
    out: &mut Vec<u8>,
    inner: &Place,
    level: usize,
) -> Result<(), AllocError>
    ensures { OnOk result (out.new.items ≡ out.old.items
        ++ (nodes_text (program_of inner.now.source.now) inner.now.level inner.now.loops (nodes_of body.now)
        ++ closing_text level)) }
{
    put_nodes(alloc, body, out, inner)?;
    put_closing(out, level)
}

/// Puts the line of a guard behind its indentation.
#[tactic(auto, using(crate::proofs::PutTexts::putting), unfolding(crate::specs::Statements::between))]
fn put_condition(
    alloc: Global,
    out: &mut Vec<u8>,
    place: &Place,
    guarded: &Guard,
) -> Result<(), AllocError>
    ensures { OnOk result (out.new.items ≡ out.old.items ++ between (codes "if (")
        (tests_text true (map (λ n. n.items) place.now.names.items) place.now.loops
        (map test_of guarded.now.tests.items)) (codes ") {\n")) }
{
    put_bytes(out, b"if (")?;
    put_tests(alloc, out, &place.names, place.loops, &guarded.tests)?;
    put_bytes(out, b") {\n")
}

/// The text of a kernel's loop tree: a C function that runs the kernel's statements in the order of the tree.
///
/// # Errors
/// `AllocError` alone.
#[tactic(auto, using(crate::proofs::PutTexts::putting))]
pub fn print(alloc: Global, kernel: &Kernel, tree: &Tree) -> Result<Vec<u8>, AllocError>
    ensures { IfOk result (λ text. text.items ≡ text_of (program_of kernel.now) (trees_in tree.now)) }
{
    let statements = standings_of(alloc, kernel)?;
    let source = Source { kernel, statements };
    let place = Place {
        source: &source,
        names: copies(alloc, &kernel.parameters)?,
        level: 1,
        loops: 0,
    };
    let mut out = Vec::new(alloc);
    put_front(&mut out, kernel)?;
    put_nodes(alloc, &tree.nodes, &mut out, &place)?;
    put_bytes(&mut out, b"}\n")?;
    Ok(out)
}
