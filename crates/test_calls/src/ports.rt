//! Ports in memory and over std's streams, and the loops over them.

use io_ports::{
    Failed, MemSink, MemSource, Pieces, Sink, StdSink, StdSource, read_to_end, write_whole,
};
use std::io::{self, Write};
use std::test::Fail;

#[test]
fn reads_a_stuttering_source_to_its_end(rt: HostRuntime) -> Result<(), Fail> {
    let text = vec![in rt.alloc(); 7u8; 40000]?;
    let mut source = MemSource::of(rt.alloc(), &text, 7000, &[])?;
    let bytes = read_to_end(rt.alloc(), &mut source, 40000)?;
    assert!(rt; bytes.as_slice() == text.as_slice());
    assert!(rt; bytes.capacity() <= 40001);
    assert!(rt; source.faults() == 0);
    Ok(())
}

/// Puts a short, a long and a short text one behind another; nothing is sent of the first before the second.
fn put_three(sink: &mut MemSink, long: &[u8]) -> Result<bool, Failed> {
    let mut pieces = Pieces::new();
    pieces.put(sink, b"a")?;
    let is_pending = sink.taken().is_empty();
    pieces.put(sink, long)?;
    pieces.put(sink, b"b")?;
    pieces.finish(sink)?;
    Ok(is_pending)
}

#[test]
fn writes_short_and_long_texts_in_order(rt: HostRuntime) -> Result<(), Fail> {
    let long = vec![in rt.alloc(); b'x'; 10000]?;
    let mut sink = MemSink::of(rt.alloc(), 30000, 4000, &[])?;
    assert!(rt; put_three(&mut sink, &long).ok() == Some(true));
    assert!(rt; sink.taken().len() == 10002);
    assert!(rt; sink.taken().first() == Some(&b'a'));
    assert!(rt; sink.taken().last() == Some(&b'b'));
    Ok(())
}

#[test]
fn copies_through_streams_in_memory(rt: HostRuntime) -> Result<(), Fail> {
    let mut source = StdSource::of(b"one two".as_slice());
    let text = read_to_end(rt.alloc(), &mut source, 7)?;
    let mut written = Vec::new(rt.alloc());
    let mut sink = StdSink::of(&mut written);
    assert!(rt; write_whole(&mut sink, &text).is_ok());
    assert!(rt; sink.flush().is_ok());
    assert!(rt; written.as_slice() == b"one two".as_slice());
    Ok(())
}

/// Takes all that it is given, and counts how often it is flushed.
#[derive(Drop)]
struct Counting {
    flushes: u8,
}

impl Write for Counting {
    fn write(&mut self, bytes: &[u8]) -> io::Result<usize> {
        Ok(bytes.len())
    }

    fn flush(&mut self) -> io::Result<()> {
        self.flushes = self.flushes.saturating_add(1);
        Ok(())
    }
}

#[test]
fn flushes_the_writer_below(rt: HostRuntime) -> Result<(), Fail> {
    let mut writer = Counting { flushes: 0 };
    let mut sink = StdSink::of(&mut writer);
    assert!(rt; sink.flush().is_ok());
    assert!(rt; writer.flushes == 1);
    Ok(())
}
