//! The statements of a tree, in textual order.
ghost use Rattle.std.specs.Prelude.{◌≡◌, ◌++◌, ◌∷◌, [], IfOk, OnOk, length, map};
ghost use Rattle.scop_syntax.specs.Statements.{placed, placed_all};
ghost use Rattle.scop_syntax.specs.Tree.{loop, guard, more, none, statement as stands};
ghost use Rattle.scop_syntax.specs.View.{items_of, statement_of, test_of, tree_of};
ghost use Rattle.iteration_domains.specs.Model.{modelled};
ghost use Rattle.iteration_domains.specs.Path.{CanModel, modelled_in, path_at, path_of, placed_at, scope_of, scopes_of};

use crate::accesses::accesses_within;
use crate::rows::{Scope, rows_within};
use crate::statement::StatementModel;
use integer_sets::{System, push};
use scop_syntax::{Guard, Item, Loop, Stmt};
use std::alloc::{AllocError, Global};

/// A place in a kernel's tree: what stands round it, outermost first, and the loops among that, each by the number of
/// its first statement.
#[derive(Drop)]
pub struct Path<'a> {
    pub parameters: usize,
    pub scopes: Vec<Scope<'a>>,
    pub loops: Vec<usize>,
}

/// The assignment that stands at `path` as the statement with this number.
fn model_assignment(
    alloc: Global,
    path: &Path,
    number: usize,
    statement: &Stmt,
) -> Result<StatementModel, AllocError>
    requires { CanModel (path_of path.now) (more (stands (statement_of statement.now)) none) }
    ensures { IfOk result (λ s. s ≡ modelled path.now.parameters
        (placed_at (path_of path.now) number (statement_of statement.now))) }
{
    let dimensions = path.loops.len();
    let rows = rows_within(alloc, path.scopes.as_slice(), path.parameters, dimensions)?;
    let variables = dimensions + path.parameters;
    let accesses = accesses_within(alloc, statement, rows.forms.as_slice(), variables)?;
    let loops = path.loops.as_slice().to_vec(alloc)?;
    let domain = System::from_parts(dimensions, path.parameters, rows.equalities, rows.rows);
    Ok(StatementModel::from_parts(number, loops, domain, accesses))
}

/// Appends the model of a statement.
fn model_statement(
    alloc: Global,
    statement: &Stmt,
    path: &Path,
    statements: &mut Vec<StatementModel>,
) -> Result<(), AllocError>
    requires { CanModel (path_of path.now) (more (stands (statement_of statement.now)) none) }
    ensures { OnOk result (statements.new.items ≡ statements.old.items
        ++ modelled path.now.parameters
        (placed_at (path_of path.now) (length statements.old.items) (statement_of statement.now)) ∷ []) }
{
    let number = statements.len();
    let model = model_assignment(alloc, path, number, statement)?;
    push(statements, model)
}

/// Goes into a loop or a guard.
pub fn enter_scope<'a>(path: &mut Path<'a>, scope: Scope<'a>) -> Result<(), AllocError>
    ensures { OnOk result (path_of path.new ≡ path_at path.old.parameters
        (scopes_of path.old.scopes.items ++ scope_of scope.entry ∷ []) path.old.loops.items) }
{
    match path.scopes.push(scope) {
        Err(_) => Err(AllocError),
        Ok(()) => Ok(()),
    }
}

/// Goes into the loop whose first statement has this number.
pub fn enter_loop(path: &mut Path, number: usize) -> Result<(), AllocError>
    ensures { OnOk result (path_of path.new ≡ path_at path.old.parameters (scopes_of path.old.scopes.items)
        (path.old.loops.items ++ number ∷ [])) }
{
    match path.loops.push(number) {
        Err(_) => Err(AllocError),
        Ok(()) => Ok(()),
    }
}

/// Appends the models of the statements of `items`, which stand at `path`.
#[cycle(modelling)]
pub fn model_items<'a>(
    alloc: Global,
    items: &'a [Item],
    path: &mut Path<'a>,
    statements: &mut Vec<StatementModel>,
) -> Result<(), AllocError>
    requires { CanModel (path_of path.old) (items_of items.now) }
    ensures statements { OnOk result (statements.new.items ≡ statements.old.items
        ++ map (modelled_in (path_of path.old)) (placed_all (items_of items.now) (length statements.old.items))) }
    ensures path { OnOk result (path_of path.new ≡ path_of path.old) }
{
    for item in items {
        model_item(alloc, item, path, statements)?;
    }
    Ok(())
}

/// Appends the models of the statements of `item`.
#[cycle(modelling)]
fn model_item<'a>(
    alloc: Global,
    item: &'a Item,
    path: &mut Path<'a>,
    statements: &mut Vec<StatementModel>,
) -> Result<(), AllocError>
    requires { CanModel (path_of path.old) (more (tree_of item.now) none) }
    ensures statements { OnOk result (statements.new.items ≡ statements.old.items
        ++ map (modelled_in (path_of path.old)) (placed (tree_of item.now) (length statements.old.items))) }
    ensures path { OnOk result (path_of path.new ≡ path_of path.old) }
{
    match item {
        Item::Loop(head, body) => model_loop(alloc, head, body, path, statements),
        Item::Guard(guarded, body) => model_guard(alloc, guarded, body, path, statements),
        Item::Stmt(statement) => model_statement(alloc, statement, path, statements),
    }
}

/// Appends the models of the statements of a loop.
#[cycle(modelling)]
fn model_loop<'a>(
    alloc: Global,
    head: &'a Loop,
    body: &'a [Item],
    path: &mut Path<'a>,
    statements: &mut Vec<StatementModel>,
) -> Result<(), AllocError>
    requires { CanModel (path_of path.old) (more (loop head.now (items_of body.now)) none) }
    ensures statements { OnOk result (statements.new.items ≡ statements.old.items
        ++ map (modelled_in (path_of path.old))
        (placed (loop head.now (items_of body.now)) (length statements.old.items))) }
    ensures path { OnOk result (path_of path.new ≡ path_of path.old) }
{
    enter_scope(path, Scope::Round(head))?;
    enter_loop(path, statements.len())?;
    model_items(alloc, body, path, statements)?;
    let _loop = path.loops.pop();
    let _scope = path.scopes.pop();
    Ok(())
}

/// Appends the models of the statements of a guard.
#[cycle(modelling)]
fn model_guard<'a>(
    alloc: Global,
    guarded: &'a Guard,
    body: &'a [Item],
    path: &mut Path<'a>,
    statements: &mut Vec<StatementModel>,
) -> Result<(), AllocError>
    requires { CanModel (path_of path.old)
        (more (guard (map test_of guarded.now.tests.items) (items_of body.now)) none) }
    ensures statements { OnOk result (statements.new.items ≡ statements.old.items
        ++ map (modelled_in (path_of path.old))
        (placed (guard (map test_of guarded.now.tests.items) (items_of body.now)) (length statements.old.items))) }
    ensures path { OnOk result (path_of path.new ≡ path_of path.old) }
{
    enter_scope(path, Scope::Under(guarded))?;
    model_items(alloc, body, path, statements)?;
    let _scope = path.scopes.pop();
    Ok(())
}
