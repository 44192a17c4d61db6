//! Puts the bounds of loops and the tests of guards.

ghost use Rattle.std.specs.Prelude.{◌≡◌, ◌++◌, true, codes, map, OnOk};
ghost use Rattle.loop_tree.specs.Tree.{multiple};
ghost use Rattle.loop_tree.specs.View.{bounds_in, test_of};
ghost use Rattle.c_printer.specs.Forms.{tree_form_text};
ghost use Rattle.c_printer.specs.Nodes.{bound_text, bounds_text, conjunction, divisor_text, test_text};
ghost use Rattle.c_printer.specs.Nodes.{tests_text};
ghost use Rattle.c_printer.specs.Statements.{between};

use crate::forms::put_tree_form;
use crate::texts::{put_repeated, put_signed};
use form_text::put_bytes;
use loop_tree::{Bound, Bounds, Test};
use scop_syntax::{Aff, Name};
use std::alloc::{AllocError, Global};

/// Puts a form behind the name of a division, and its divisor.
#[tactic(auto, using(crate::proofs::PutTexts::putting), unfolding(crate::specs::Statements::between))]
fn put_divided(
    alloc: Global,
    out: &mut Vec<u8>,
    names: &[Name],
    loops: usize,
    divided: &[u8],
    bound: &Bound,
) -> Result<(), AllocError>
    ensures { OnOk result (out.new.items ≡ out.old.items
        ++ between divided.now (tree_form_text (map (λ n. n.items) names.now) loops bound.now.form)
        (divisor_text bound.now.divisor)) }
{
    put_bytes(out, divided)?;
    put_tree_form(alloc, out, names, loops, &bound.form)?;
    put_signed(out, b", ", bound.divisor, b")")
}

/// Puts a bound.
fn put_bound(
    alloc: Global,
    out: &mut Vec<u8>,
    names: &[Name],
    loops: usize,
    divided: &[u8],
    bound: &Bound,
) -> Result<(), AllocError>
    ensures { OnOk result (out.new.items
        ≡ out.old.items ++ bound_text divided.now (map (λ n. n.items) names.now) loops bound.now) }
{
    if bound.divisor == 1 {
        return put_tree_form(alloc, out, names, loops, &bound.form);
    }
    put_divided(alloc, out, names, loops, divided, bound)
}

/// Puts a bound that others stand behind.
#[tactic(auto, using(crate::proofs::PutTexts::putting), unfolding(crate::specs::Statements::between))]
fn put_choice(
    alloc: Global,
    out: &mut Vec<u8>,
    names: &[Name],
    loops: usize,
    divided: &[u8],
    chosen: &[u8],
    bound: &Bound,
) -> Result<(), AllocError>
    ensures { OnOk result (out.new.items ≡ out.old.items
        ++ between chosen.now (bound_text divided.now (map (λ n. n.items) names.now) loops bound.now) (codes ", ")) }
{
    put_bytes(out, chosen)?;
    put_bound(alloc, out, names, loops, divided, bound)?;
    put_bytes(out, b", ")
}

/// Puts the bounds of one side.
#[tactic(auto, using(crate::proofs::PutTexts::putting))]
pub fn put_bounds(
    alloc: Global,
    out: &mut Vec<u8>,
    names: &[Name],
    loops: usize,
    divided: &[u8],
    chosen: &[u8],
    bounds: &Bounds,
) -> Result<(), AllocError>
    ensures { OnOk result (out.new.items ≡ out.old.items
        ++ bounds_text divided.now chosen.now (map (λ n. n.items) names.now) loops (bounds_in bounds.now)) }
{
    let mut bound = &bounds.first;
    for at in 0..bounds.others.len() {
        match put_choice(alloc, out, names, loops, divided, chosen, bound) {
            Ok(()) => bound = &bounds.others[at],
            Err(_) => return Err(AllocError),
        }
    }
    put_bound(alloc, out, names, loops, divided, bound)?;
    put_repeated(out, b")", bounds.others.len())
}

/// Puts that a form is a multiple of a number.
#[tactic(auto, using(crate::proofs::PutTexts::putting))]
fn put_multiple(
    alloc: Global,
    out: &mut Vec<u8>,
    names: &[Name],
    loops: usize,
    form: &Aff,
    divisor: i64,
) -> Result<(), AllocError>
    ensures { OnOk result (out.new.items
        ≡ out.old.items ++ test_text (map (λ n. n.items) names.now) loops (multiple form.now divisor)) }
{
    put_tree_form(alloc, out, names, loops, form)?;
    put_signed(out, b" - ", divisor, b"*pp_floord(")?;
    put_tree_form(alloc, out, names, loops, form)?;
    put_signed(out, b", ", divisor, b")")?;
    put_bytes(out, b" == 0")
}

/// Puts a test.
#[tactic(auto, using(crate::proofs::PutTexts::putting))]
fn put_test(
    alloc: Global,
    out: &mut Vec<u8>,
    names: &[Name],
    loops: usize,
    test: &Test,
) -> Result<(), AllocError>
    ensures { OnOk result (out.new.items
        ≡ out.old.items ++ test_text (map (λ n. n.items) names.now) loops (test_of test.now)) }
{
    match test {
        Test::AtLeast(form) => {
            put_tree_form(alloc, out, names, loops, form)?;
            put_bytes(out, b" >= 0")
        }
        Test::Equal(form) => {
            put_tree_form(alloc, out, names, loops, form)?;
            put_bytes(out, b" == 0")
        }
        Test::Multiple(form, divisor) => put_multiple(alloc, out, names, loops, form, *divisor),
    }
}

/// Puts ` && `, unless it is in front of the first.
fn put_conjunction(out: &mut Vec<u8>, first: bool) -> Result<(), AllocError>
    ensures { OnOk result (out.new.items ≡ out.old.items ++ conjunction first) }
{
    if first {
        return Ok(());
    }
    put_bytes(out, b" && ")
}

/// Puts the tests of a guard.
#[tactic(auto, using(crate::proofs::PutTexts::putting))]
pub fn put_tests(
    alloc: Global,
    out: &mut Vec<u8>,
    names: &[Name],
    loops: usize,
    tests: &[Test],
) -> Result<(), AllocError>
    ensures { OnOk result (out.new.items ≡ out.old.items
        ++ tests_text true (map (λ n. n.items) names.now) loops (map test_of tests.now)) }
{
    let mut first = true;
    for test in tests {
        match put_conjunction(out, first) {
            Ok(()) => first = false,
            Err(_) => return Err(AllocError),
        }
        match put_test(alloc, out, names, loops, test) {
            Ok(()) => {}
            Err(_) => return Err(AllocError),
        }
    }
    Ok(())
}
