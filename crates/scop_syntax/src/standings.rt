//! The statements of a kernel, each with the loops round it.

ghost use Rattle.std.specs.Prelude.{◌≡◌, ◌++◌, ◌∷◌, [], map, IfOk, OnOk};
ghost use Rattle.scop_syntax.specs.Tree.{loop};
ghost use Rattle.scop_syntax.specs.View.{items_of, program_of, statement_of, tree_of};
ghost use Rattle.scop_syntax.specs.Standings.{standing, standings_of};
ghost use Rattle.scop_syntax.specs.StandingView.{standing_of};
ghost use Rattle.scop_syntax.specs.steps.Gathered.{gathered, gathered_all};

use crate::tree::{Item, Kernel, Loop, Stmt};
use std::alloc::{AllocError, Global};

/// A statement, and the loops round it, outermost first.
#[derive(Drop)]
pub struct Standing<'a> {
    pub heads: Vec<&'a Loop>,
    pub body: &'a Stmt,
}

/// Appends a statement that stands within these loops.
fn push_standing<'a>(
    alloc: Global,
    statement: &'a Stmt,
    heads: &[&'a Loop],
    statements: &mut Vec<Standing<'a>>,
) -> Result<(), AllocError>
    ensures { OnOk result (map standing_of statements.new.items ≡ map standing_of statements.old.items
        ++ standing (map (λ h. h.now) heads.now) (statement_of statement.now) ∷ []) }
{
    let heads = Vec::from_slice(alloc, heads)?;
    match statements.push(Standing {
        heads,
        body: statement,
    }) {
        Ok(()) => Ok(()),
        Err(_) => Err(AllocError),
    }
}

/// Appends the statements of `items`, which stand within these loops.
#[cycle(gathering)]
fn gather_items<'a>(
    alloc: Global,
    items: &'a [Item],
    heads: &mut Vec<&'a Loop>,
    statements: &mut Vec<Standing<'a>>,
) -> Result<(), AllocError>
    ensures statements { OnOk result (map standing_of statements.new.items ≡ map standing_of statements.old.items
        ++ gathered_all (map (λ h. h.now) heads.old.items) (items_of items.now)) }
    ensures heads { OnOk result (heads.new.items ≡ heads.old.items) }
{
    for item in items {
        match gather_item(alloc, item, heads, statements) {
            Ok(()) => {}
            Err(_) => return Err(AllocError),
        }
    }
    Ok(())
}

/// Appends the statements of `item`.
#[cycle(gathering)]
fn gather_item<'a>(
    alloc: Global,
    item: &'a Item,
    heads: &mut Vec<&'a Loop>,
    statements: &mut Vec<Standing<'a>>,
) -> Result<(), AllocError>
    ensures statements { OnOk result (map standing_of statements.new.items ≡ map standing_of statements.old.items
        ++ gathered (map (λ h. h.now) heads.old.items) (tree_of item.now)) }
    ensures heads { OnOk result (heads.new.items ≡ heads.old.items) }
{
    match item {
        Item::Loop(head, body) => gather_loop(alloc, head, body, heads, statements),
        Item::Guard(_guarded, body) => gather_items(alloc, body, heads, statements),
        Item::Stmt(statement) => push_standing(alloc, statement, heads.as_slice(), statements),
    }
}

/// Appends the statements of a loop.
#[cycle(gathering)]
fn gather_loop<'a>(
    alloc: Global,
    head: &'a Loop,
    body: &'a [Item],
    heads: &mut Vec<&'a Loop>,
    statements: &mut Vec<Standing<'a>>,
) -> Result<(), AllocError>
    ensures statements { OnOk result (map standing_of statements.new.items ≡ map standing_of statements.old.items
        ++ gathered (map (λ h. h.now) heads.old.items) (loop head.now (items_of body.now))) }
    ensures heads { OnOk result (heads.new.items ≡ heads.old.items) }
{
    match heads.push(head) {
        Ok(()) => {}
        Err(_) => return Err(AllocError),
    }
    gather_items(alloc, body, heads, statements)?;
    let _head = heads.pop();
    Ok(())
}

/// The statements of a kernel in textual order.
pub fn standings_of<'a>(alloc: Global, kernel: &'a Kernel) -> Result<Vec<Standing<'a>>, AllocError>
    ensures { IfOk result (λ v. map standing_of v.items ≡ standings_of (program_of kernel.now)) }
{
    let mut heads = Vec::new(alloc);
    let mut statements = Vec::new(alloc);
    gather_items(alloc, &kernel.items, &mut heads, &mut statements)?;
    Ok(statements)
}
