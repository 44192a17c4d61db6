//! The lines of the sources of reads, one for each read.

ghost use Rattle.std.specs.Prelude.{◌≡◌, ◌-◌, ◌++◌, ◌∷◌, [], suc, IfOk, OnOk, Some, codes, decimal, drop};
ghost use Rattle.std.specs.Prelude.{slice_get};
ghost use Rattle.std.specs.List.{concat};
ghost use Rattle.scop_syntax.specs.Kernel.{IsKernel};
ghost use Rattle.scop_syntax.specs.View.{program_of};
ghost use Rattle.iteration_domains.specs.Model.{model_of};
ghost use Rattle.dataflow.specs.ReadSources.{reads_of_statement};
ghost use Rattle.report_text.specs.DepsText.{array_of, deps_text, lines_of, names_at, read_text, solver_text};
ghost use Rattle.report_text.specs.DepsText.{source_text, stop_text};
ghost use Rattle.quast_text.specs.Text.{texts_of};

use crate::data_line::array_name;
use crate::deps_names::names_within;
use crate::pieces::{Piece, push_pieces};
use dataflow::{ReadSource, SourceStop, Stop};
use form_text::put_bytes;
use iteration_domains::{Model, StatementModel};
use quast_text::put_quast;
use scop_syntax::{Kernel, Name};
use std::alloc::{AllocError, Global};

/// Appends why a candidate's problem leaves a read unresolved. Want of memory leaves none so, and has no text.
fn push_solver_stop(out: &mut Vec<u8>, stop: &Stop) -> Result<(), AllocError>
    ensures { OnOk result (out.new.items ≡ out.old.items ++ solver_text stop.now) }
{
    match stop {
        Stop::Wide { .. } => put_bytes(out, b"unresolved wide"),
        Stop::Spent { moves, .. } => push_pieces(
            out,
            &[
                Piece::Text(b"unresolved spent "),
                Piece::Number(*moves as u128),
            ],
        ),
        Stop::NoMemory => Err(AllocError),
    }
}

/// Appends why a read is unresolved.
fn push_stop(out: &mut Vec<u8>, stop: &SourceStop) -> Result<(), AllocError>
    ensures { OnOk result (out.new.items ≡ out.old.items ++ stop_text stop.now) }
{
    match stop {
        SourceStop::Solver(stop) => push_solver_stop(out, stop),
        SourceStop::Join { nodes } => push_pieces(
            out,
            &[Piece::Text(b"unresolved nodes "), Piece::Number(*nodes)],
        ),
    }
}

/// Appends the source of a read, over names.
fn push_source(
    out: &mut Vec<u8>,
    names: &mut Vec<Name>,
    source: &ReadSource,
) -> Result<(), AllocError>
    ensures names { OnOk result (texts_of names.new.items ≡ texts_of names.old.items) }
    ensures text { OnOk result
        (out.new.items ≡ out.old.items ++ source_text (texts_of names.old.items) source.now) }
{
    match source {
        ReadSource::Resolved(quast) => put_quast(out, names, quast),
        ReadSource::Unresolved(stop) => push_stop(out, stop),
    }
}

/// The name of the array that an access of a statement touches; nothing where it has no such access.
fn array_of<'a>(kernel: &'a Kernel, statement: &StatementModel, access: usize) -> &'a [u8]
    ensures { result.now ≡ array_of (program_of kernel.now) (slice_get statement.now.accesses access) }
{
    match statement.accesses().get(access) {
        Some(access) => array_name(Some(kernel), access.array),
        None => &[],
    }
}

/// Appends what stands in front of the source of a read.
fn push_head(
    out: &mut Vec<u8>,
    kernel: &Kernel,
    statement: &StatementModel,
    access: usize,
) -> Result<(), AllocError>
    ensures { OnOk result (out.new.items ≡ out.old.items
        ++ concat (codes "S" ∷ decimal (suc statement.now.number) ∷ codes " read " ∷ decimal access ∷ codes " "
        ∷ array_of (program_of kernel.now) (slice_get statement.now.accesses access) ∷ codes ": " ∷ [])) }
{
    push_pieces(
        out,
        &[
            Piece::Text(b"S"),
            Piece::Number(statement.number() as u128 + 1),
            Piece::Text(b" read "),
            Piece::Number(access as u128),
            Piece::Text(b" "),
            Piece::Text(array_of(kernel, statement, access)),
            Piece::Text(b": "),
        ],
    )
}

/// Appends the line of a read.
fn push_read(
    out: &mut Vec<u8>,
    names: &mut Vec<Name>,
    kernel: &Kernel,
    statement: &StatementModel,
    access: usize,
    source: &ReadSource,
) -> Result<(), AllocError>
    requires { texts_of names.old.items ≡ names_at (program_of kernel.now) statement.now }
    ensures names { OnOk result (texts_of names.new.items ≡ texts_of names.old.items) }
    ensures text { OnOk result (out.new.items
        ≡ out.old.items ++ read_text (program_of kernel.now) statement.now access source.now) }
{
    push_head(out, kernel, statement, access)?;
    push_source(out, names, source)?;
    put_bytes(out, b"\n")?;
    Ok(())
}

/// Appends the lines of a statement's reads, as far as there are sources.
fn push_reads(
    alloc: Global,
    out: &mut Vec<u8>,
    kernel: &Kernel,
    statement: &StatementModel,
    sources: &[ReadSource],
) -> Result<(), AllocError>
    requires { slice_get (model_of (program_of kernel.now)).statements statement.now.number ≡ Some statement.now }
    ensures { OnOk result (out.new.items
        ≡ out.old.items ++ lines_of (program_of kernel.now) (reads_of_statement statement.now) sources.now) }
{
    let mut names = names_within(alloc, kernel, statement.loops().len())?;
    for access in 1..statement.accesses().len() {
        match sources.get(access - 1) {
            None => return Ok(()),
            Some(source) => push_read(out, &mut names, kernel, statement, access, source)?,
        }
    }
    Ok(())
}

/// The sources behind those of the reads of a statement with so many accesses.
fn behind(sources: &[ReadSource], accesses: usize) -> &[ReadSource]
    ensures { result.now ≡ drop (accesses - 1) sources.now }
{
    let reads = accesses.saturating_sub(1).min(sources.len());
    sources.split_at(reads).1
}

/// The text of the sources of a kernel's reads: a line for each read, by statement and read, as far as there are
/// sources. Its time is that of the text's length and of the kernel's model.
///
/// # Errors
/// `AllocError` alone.
pub fn deps_text(
    alloc: Global,
    kernel: &Kernel,
    sources: &[ReadSource],
) -> Result<Vec<u8>, AllocError>
    requires { IsKernel (program_of kernel.now) }
    ensures { IfOk result (λ text. text.items ≡ deps_text (program_of kernel.now) sources.now) }
{
    let model = Model::of(alloc, kernel)?;
    let mut text = Vec::new(alloc);
    let mut rest = sources;
    for statement in model.statements() {
        push_reads(alloc, &mut text, kernel, statement, rest)?;
        rest = behind(rest, statement.accesses().len());
    }
    Ok(text)
}
