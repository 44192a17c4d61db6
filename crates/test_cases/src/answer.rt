//! The call of a record, and the record with the answer that it gives.

use crate::calls::Call;
use io_ports::{MemSink, MemSource};
use polypar::plain_command;
use std::io;
use std::io::Write;

/// Bytes that a port gives or takes in one call.
const STEP: usize = 4096;

/// Room for what standard output gains; a longer answer is a write fault.
const OUT_ROOM: usize = 1 << 20;

/// Room for what standard error gains, a line of usage or of a status.
const ERR_ROOM: usize = 1 << 12;

/// Prints the first line of a record with the answer of its call.
fn print_heading(
    rt: &HostRuntime,
    call: &Call,
    exit_code: u8,
    out: &[u8],
    err: &[u8],
) -> io::Result<()> {
    print!(rt; "case {} {exit_code}", call.name)?;
    print!(rt; " {} {} {}", call.input.len(), out.len(), err.len())?;
    for word in call.words.iter().skip(1) {
        print!(rt; " {word}")?;
    }
    println!(rt; "")
}

/// Prints a part of a record and the line feed that ends it.
fn print_part(rt: &HostRuntime, bytes: &[u8]) -> io::Result<()> {
    let mut out = rt.stdout();
    out.write_all(bytes)?;
    out.write_all(b"\n")
}

/// Prints a record with its answer.
fn print_record(
    rt: &HostRuntime,
    call: &Call,
    exit_code: u8,
    out: &[u8],
    err: &[u8],
) -> io::Result<()> {
    print_heading(rt, call, exit_code, out, err)?;
    print_part(rt, call.input)?;
    print_part(rt, out)?;
    print_part(rt, err)
}

/// Makes the call of a record over ports in memory that fail at no call, and prints the record with its answer.
pub fn print_answered(rt: &HostRuntime, call: &Call) -> io::Result<()> {
    let mut source = MemSource::of(rt.alloc(), call.input, STEP, &[])?;
    let mut out = MemSink::of(rt.alloc(), OUT_ROOM, STEP, &[])?;
    let mut err = MemSink::of(rt.alloc(), ERR_ROOM, STEP, &[])?;
    let status = plain_command(rt.alloc(), &call.words, &mut source, &mut out, &mut err);
    print_record(rt, call, status.exit_code(), out.taken(), err.taken())
}
