//! The names that stand round the sources of a statement's reads: the kernel's parameters, then the turns of the loops
//! round the statement.

ghost use Rattle.std.specs.Prelude.{◌≡◌, ◌++◌, [], ◌∷◌, IfOk, OnOk};
ghost use Rattle.scop_syntax.specs.View.{program_of};
ghost use Rattle.quast_text.specs.Text.{texts_of};
ghost use Rattle.report_text.specs.DepsText.{turn_name, turn_names};

use form_text::{put_bytes, put_numeral};
use scop_syntax::{Kernel, Name};
use std::alloc::{AllocError, Global};

/// Appends a name; one that finds no room is dropped here.
fn push_name(names: &mut Vec<Name>, name: Name) -> Result<(), AllocError>
    ensures { OnOk result (texts_of names.new.items ≡ texts_of names.old.items ++ name.items ∷ []) }
{
    match names.push(name) {
        Err(_) => Err(AllocError),
        Ok(()) => Ok(()),
    }
}

/// Appends copies of names.
fn push_copies(alloc: Global, names: &mut Vec<Name>, copied: &[Name]) -> Result<(), AllocError>
    ensures { OnOk result
        (texts_of names.new.items ≡ texts_of names.old.items ++ texts_of copied.now) }
{
    for name in copied {
        let copy = Vec::from_slice(alloc, name)?;
        push_name(names, copy)?;
    }
    Ok(())
}

/// The name of a turn, by the number of its loop.
fn turn_name(alloc: Global, number: u128) -> Result<Name, AllocError>
    ensures { IfOk result (λ name. name.items ≡ turn_name number) }
{
    let mut name = Vec::new(alloc);
    put_bytes(&mut name, b"$")?;
    put_numeral(&mut name, number)?;
    Ok(name)
}

/// Appends the names of the turns of so many loops.
fn push_turns(alloc: Global, names: &mut Vec<Name>, loops: usize) -> Result<(), AllocError>
    ensures { OnOk result (texts_of names.new.items ≡ texts_of names.old.items ++ turn_names loops) }
{
    for at in 0..loops {
        let name = turn_name(alloc, at as u128 + 1)?;
        push_name(names, name)?;
    }
    Ok(())
}

/// The names that stand round the sources of the reads of a statement within so many loops.
pub(crate) fn names_within(
    alloc: Global,
    kernel: &Kernel,
    loops: usize,
) -> Result<Vec<Name>, AllocError>
    ensures { IfOk result
        (λ names. texts_of names.items ≡ (program_of kernel.now).parameters ++ turn_names loops) }
{
    let mut names = Vec::new(alloc);
    push_copies(alloc, &mut names, &kernel.parameters)?;
    push_turns(alloc, &mut names, loops)?;
    Ok(names)
}
