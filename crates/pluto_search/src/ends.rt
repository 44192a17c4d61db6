//! Where a band ends: a scalar item that drops dependences, the end of the search, or why nothing goes on.
ghost use Rattle.std.specs.Prelude.{◌≡◌, ◌<◌, ◌≤◌, ◌++◌, ◌∷◌, [], true, false, ℕ};
ghost use Rattle.std.specs.Prelude.{IfOk, length, map, Option, None, Some, ◌⊎◌};
ghost use Rattle.std.specs.Option.{ForSome};
ghost use Rattle.stmt_graph.specs.Graph.{IsNumbering, number_in};
ghost use Rattle.schedule_rows.specs.Dependences.{edges_of};
ghost use Rattle.schedule_rows.specs.Items.{closed_by, scalar};
ghost use Rattle.schedule_rows.specs.Next.{Uncuts};
ghost use Rattle.schedule_rows.specs.Outcomes.{items_in};
ghost use Rattle.schedule_rows.specs.Schedule.{block_of, marked_of};
ghost use Rattle.pluto_systems.specs.Posing.{dep_of};
ghost use Rattle.pluto_search.specs.steps.StepParts.{AreWithin};
ghost use Rattle.pluto_search.specs.steps.Shared.{SharesComponent, Finds};
ghost use Rattle.pluto_search.specs.steps.Steps.{state_of};

use crate::state::Progress;
use affine_forms::push;
use iteration_domains::Dep;
use pluto_systems::Ruled;
use schedule_rows::{Block, Marked};
use std::alloc::{AllocError, Global};
use stmt_graph::components;

/// How many items blocks are; none where that is no number of 64 bits.
pub fn items_in(blocks: &[Block]) -> Option<usize>
    ensures { ForSome result (λ n. n ≡ items_in (map block_of blocks.now)) }
{
    let mut count: usize = 0;
    for at in 0..blocks.len() {
        count = count.checked_add(size(&blocks[at]))?;
    }
    Some(count)
}

/// How many items a block is.
fn size(block: &Block) -> usize
    ensures { result ≡ items_in (block_of block.now ∷ []) }
{
    match block {
        Block::Scalar(_) => 1,
        Block::Band(rows) => rows.len(),
    }
}

/// The blocks with a band that ends, if it has rows.
pub fn close(closed: Vec<Block>, rows: Vec<Marked>) -> Result<Vec<Block>, AllocError>
    ensures { IfOk result (λ v. map block_of v.items
        ≡ closed_by (map block_of closed.items) (map marked_of rows.items)) }
{
    if rows.is_empty() {
        return Ok(closed);
    }
    let mut closed = closed;
    push(&mut closed, Block::Band(rows))?;
    Ok(closed)
}

/// The blocks with a scalar item.
pub fn with_scalar(closed: Vec<Block>, numbers: Vec<usize>) -> Result<Vec<Block>, AllocError>
    ensures { IfOk result (λ v. map block_of v.items ≡ map block_of closed.items ++ scalar numbers.items ∷ []) }
{
    let mut blocks = closed;
    push(&mut blocks, Block::Scalar(numbers))?;
    Ok(blocks)
}

/// The dependences that remain: those with their rows, then the others.
pub fn remaining(alloc: Global, progress: &Progress) -> Result<Vec<Dep>, AllocError>
    ensures { IfOk result (λ v. v.items ≡ (state_of progress.now).remaining) }
{
    let mut deps = copies(alloc, &progress.ruled)?;
    for at in 0..progress.bare.len() {
        push(&mut deps, progress.bare[at].copy(alloc)?)?;
    }
    Ok(deps)
}

/// Copies of dependences.
fn copies(alloc: Global, ruled: &[Ruled]) -> Result<Vec<Dep>, AllocError>
    ensures { IfOk result (λ v. v.items ≡ map dep_of ruled.now) }
{
    let mut deps = Vec::new(alloc);
    for at in 0..ruled.len() {
        push(&mut deps, ruled[at].dep().copy(alloc)?)?;
    }
    Ok(deps)
}

/// The edges between the statements of dependences.
fn edges(alloc: Global, deps: &[Dep]) -> Result<Vec<(usize, usize)>, AllocError>
    ensures { IfOk result (λ v. v.items ≡ edges_of deps.now) }
{
    deps.iter()
        .map(|dep| (dep.source.statement, dep.target.statement))
        .collect(alloc)
}

/// The numbers of the components of n statements.
pub fn numbered(alloc: Global, n: usize, deps: &[Dep]) -> Result<Vec<usize>, AllocError>
    requires { AreWithin n deps.now }
    ensures { IfOk result (λ v. IsNumbering n (edges_of deps.now) v.items) }
{
    let edges = edges(alloc, deps)?;
    components(alloc, n, &edges)
}

/// Whether a dependence joins two components.
fn is_cut(numbers: &[usize], dep: &Dep) -> bool
    requires source { dep.now.source.statement < length numbers.now }
    requires target { dep.now.target.statement < length numbers.now }
    ensures cut { result ≡ true
        → number_in numbers.now dep.now.source.statement ≡ number_in numbers.now dep.now.target.statement → ⊥ }
    ensures stays { result ≡ false
        → number_in numbers.now dep.now.source.statement ≡ number_in numbers.now dep.now.target.statement }
{
    numbers[dep.source.statement] != numbers[dep.target.statement]
}

/// The dependences that join no two components.
pub fn uncut(alloc: Global, numbers: &[usize], deps: Vec<Dep>) -> Result<Vec<Dep>, AllocError>
    requires { AreWithin (length numbers.now) deps.items }
    ensures { IfOk result (λ v. Uncuts numbers.now deps.items v.items) }
{
    let mut kept = Vec::new(alloc);
    for dep in deps {
        if is_cut(numbers, &dep) {
            continue;
        }
        kept.push(dep)?;
    }
    Ok(kept)
}

/// Whether another statement is in a statement's component.
fn shares_component(numbers: &[usize], a: usize) -> bool
    requires { a < length numbers.now }
    ensures { SharesComponent numbers.now a result }
{
    for b in 0..numbers.len() {
        if b != a && numbers[b] == numbers[a] {
            return true;
        }
    }
    false
}

/// The least component with two statements, of those up to now and one more.
fn lesser(least: Option<usize>, component: usize) -> usize
    ensures none { least ≡ None → result ≡ component }
    ensures some { (k : ℕ) → least ≡ Some k
        → (result ≤ k) × (result ≤ component) × ((result ≡ k) ⊎ (result ≡ component)) }
{
    match least {
        None => component,
        Some(k) => { if k <= component { k } else { component } }
    }
}

/// The least component with two statements.
pub fn shared(numbers: &[usize]) -> Option<usize>
    ensures { Finds numbers.now result }
{
    let mut least = None;
    for a in 0..numbers.len() {
        if shares_component(numbers, a) {
            least = Some(lesser(least, numbers[a]));
        }
    }
    least
}
