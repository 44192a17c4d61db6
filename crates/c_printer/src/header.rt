//! Puts what stands in front of a text's nodes.

ghost use Rattle.std.specs.Prelude.{◌≡◌, ◌++◌, List, true, codes, map, IfOk, OnOk};
ghost use Rattle.scop_lexer.specs.Bytes.{Text};
ghost use Rattle.scop_syntax.specs.View.{program_of};
ghost use Rattle.c_printer.specs.Statements.{array_text, arrays_behind, between, cell_type, comma, declared_from};
ghost use Rattle.c_printer.specs.Statements.{front_text, listed, prologue};

use crate::texts::put_between;
use crate::values::put_subscripts;
use form_text::put_bytes;
use scop_syntax::{Array, Kernel, Name};
use std::alloc::AllocError;

/// Puts what each text begins with.
#[tactic(auto, using(crate::proofs::PutTexts::putting), unfolding(crate::specs::Statements::prologue))]
fn put_prologue(out: &mut Vec<u8>) -> Result<(), AllocError>
    ensures { OnOk result (out.new.items ≡ out.old.items ++ prologue) }
{
    put_bytes(
        out,
        b"#include <stdint.h>
static int64_t pp_floord(int64_t n, int64_t d) { return n < 0 ? -((-n + d - 1) / d) : n / d; }
static int64_t pp_ceild(int64_t n, int64_t d) { return n < 0 ? -((-n) / d) : (n + d - 1) / d; }
static int64_t pp_max(int64_t a, int64_t b) { return a > b ? a : b; }
static int64_t pp_min(int64_t a, int64_t b) { return a < b ? a : b; }
",
    )
}

/// Puts `, `, unless it is in front of the first.
fn put_comma(out: &mut Vec<u8>, first: bool) -> Result<(), AllocError>
    ensures { OnOk result (out.new.items ≡ out.old.items ++ comma first) }
{
    if first {
        return Ok(());
    }
    put_bytes(out, b", ")
}

/// Puts the type of an array's cells.
fn put_cell_type(out: &mut Vec<u8>, narrow: bool) -> Result<(), AllocError>
    ensures { OnOk result (out.new.items ≡ out.old.items ++ cell_type narrow) }
{
    if narrow {
        return put_bytes(out, b"uint32_t ");
    }
    put_bytes(out, b"uint64_t ")
}

/// Puts an array as a parameter of the function.
#[tactic(auto, using(crate::proofs::PutTexts::putting), unfolding(crate::specs::Statements::between))]
fn put_array(
    out: &mut Vec<u8>,
    parameters: &[Name],
    first: bool,
    array: &Array,
) -> Result<(), AllocError>
    ensures { OnOk result (out.new.items
        ≡ out.old.items ++ (comma first ++ array_text (map (λ n. n.items) parameters.now) array.now)) }
{
    put_comma(out, first)?;
    put_cell_type(out, array.narrow)?;
    put_bytes(out, &array.name)?;
    put_subscripts(out, parameters, &array.extents)
}

/// Puts the arrays that are declared behind so many parameters, and tells whether what follows is the first.
#[tactic(auto, using(crate::proofs::PutTexts::putting))]
fn put_arrays(
    out: &mut Vec<u8>,
    kernel: &Kernel,
    start: bool,
    behind: usize,
) -> Result<bool, AllocError>
    ensures { IfOk result (λ first. (others : List Text) → out.new.items ++ listed first others
        ≡ out.old.items ++ listed start
        (arrays_behind (program_of kernel.now).parameters behind (program_of kernel.now).arrays ++ others)) }
{
    let mut first = start;
    for array in kernel.arrays.iter() {
        if array.parameters_before == behind {
            match put_array(out, &kernel.parameters, first, array) {
                Ok(()) => first = false,
                Err(_) => return Err(AllocError),
            }
        }
    }
    Ok(first)
}

/// Puts a parameter of the function.
#[tactic(auto, using(crate::proofs::PutTexts::putting))]
fn put_parameter(out: &mut Vec<u8>, first: bool, name: &[u8]) -> Result<(), AllocError>
    ensures { OnOk result (out.new.items ≡ out.old.items ++ (comma first ++ (codes "int64_t " ++ name.now))) }
{
    put_comma(out, first)?;
    put_bytes(out, b"int64_t ")?;
    put_bytes(out, name)
}

/// Puts the parameters and arrays in the order of their declarations.
#[tactic(auto, using(crate::proofs::PutTexts::putting))]
fn put_declared(out: &mut Vec<u8>, kernel: &Kernel) -> Result<(), AllocError>
    ensures { OnOk result (out.new.items ≡ out.old.items ++ listed true (declared_from
        (program_of kernel.now).parameters (program_of kernel.now).arrays 0 (program_of kernel.now).parameters)) }
{
    let mut first = true;
    for at in 0..kernel.parameters.len() {
        let here = match put_arrays(out, kernel, first, at) {
            Ok(here) => here,
            Err(_) => return Err(AllocError),
        };
        match put_parameter(out, here, &kernel.parameters[at]) {
            Ok(()) => first = false,
            Err(_) => return Err(AllocError),
        }
    }
    match put_arrays(out, kernel, first, kernel.parameters.len()) {
        Ok(_) => Ok(()),
        Err(_) => Err(AllocError),
    }
}

/// Puts all that stands in front of the nodes.
#[tactic(auto, using(crate::proofs::PutTexts::putting), unfolding(crate::specs::Statements::front_text))]
pub fn put_front(out: &mut Vec<u8>, kernel: &Kernel) -> Result<(), AllocError>
    ensures { OnOk result (out.new.items ≡ out.old.items ++ front_text (program_of kernel.now)) }
{
    put_prologue(out)?;
    put_between(out, b"void ", &kernel.name, b"(")?;
    put_declared(out, kernel)?;
    put_bytes(out, b") {\n")
}
