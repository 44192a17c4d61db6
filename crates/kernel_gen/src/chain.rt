//! A chain of statements, which a seed links.

ghost use Rattle.std.specs.Prelude.{◌≡◌, ◌<◌, ◌*◌, ◌++◌, ◌∷◌, [], IfOk, OnOk, map};
ghost use Rattle.scop_syntax.specs.View.{items_of, program_of, tree_of};
ghost use Rattle.kernel_gen.specs.Programs.{chain, chain_body, chain_loop, chained, digit, linked};

use crate::parts::{access, arrays, counted_all, kernel, read, store};
use data_text::seed_cell;
use scop_syntax::{Access, Item, Kernel, Operator, Right};
use std::alloc::{AllocError, Global};

/// How many statements there are.
const STATEMENTS: u64 = 8;

/// A digit of the seed: the first two bits of a cell by it.
#[tactic(auto, unfolding(crate::specs::Programs::digit))]
fn digit(seed: u64, at: u64) -> u64
    ensures value { result ≡ digit seed at }
    ensures small { result < 4 }
{
    seed_cell(seed, at) >> 62
}

/// The cell by the digits at a place and behind it.
fn linked(alloc: Global, seed: u64, at: u64) -> Result<Access, AllocError>
    requires { at < 32 }
    ensures { IfOk result (λ access. access ≡ linked seed at) }
{
    let array = digit(seed, at) as usize;
    let shift = digit(seed, at + 1) as i64;
    access(alloc, array, &[(&[0, 1], shift)])
}

/// Statement `k`.
fn chained(alloc: Global, seed: u64, k: u64) -> Result<Item, AllocError>
    requires { k < 8 }
    ensures { IfOk result (λ item. tree_of item ≡ chained seed k) }
{
    let place = linked(alloc, seed, 4 * k)?;
    let value = linked(alloc, seed, 4 * k + 2)?;
    Ok(store(place, Right::Combined(Operator::Plus, read(value))))
}

/// An item behind others.
fn push(items: &mut Vec<Item>, item: Item) -> Result<(), AllocError>
    ensures { OnOk result (map tree_of items.new.items ≡ map tree_of items.old.items ++ tree_of item ∷ []) }
{
    items.push(item)?;
    Ok(())
}

/// All statements.
fn statements(alloc: Global, seed: u64) -> Result<Vec<Item>, AllocError>
    ensures { IfOk result (λ items. items_of items.items ≡ chain_body seed) }
{
    let mut items = Vec::with_capacity(alloc, STATEMENTS as usize)?;
    for k in 0..STATEMENTS {
        let item = chained(alloc, seed, k)?;
        push(&mut items, item)?;
    }
    Ok(items)
}

/// The loop round them.
fn chain_loop(alloc: Global, seed: u64) -> Result<Item, AllocError>
    ensures { IfOk result (λ item. tree_of item ≡ chain_loop seed) }
{
    let body = statements(alloc, seed)?;
    counted_all(alloc, b"i", (&[0], 0), (&[1, -1], -1), body)
}

/// The kernel.
pub(crate) fn chain(alloc: Global, seed: u64) -> Result<Kernel, AllocError>
    ensures { IfOk result (λ kernel. program_of kernel ≡ chain seed) }
{
    let arrays = arrays(alloc, &[b"A0", b"A1", b"A2", b"A3"], 1, &[(&[1], 4)])?;
    let item = chain_loop(alloc, seed)?;
    kernel(alloc, b"chain", &[b"N"], arrays, item)
}
