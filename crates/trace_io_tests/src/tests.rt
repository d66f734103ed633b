//! Pieces, limits, faults and full rooms: reading and writing over memory, and over readers and
//! writers of std that fail.
ghost use Rattle.std.specs.Prelude.{◌≤◌};

use std::alloc::{AllocError, Global};
use std::io::{self, ErrorKind, Read, Write};
use trace_io::*;

const TEXT: &[u8] = b"0: H_ENTER 0x0 0x0 0x1 0x2\n";

fn source(alloc: Global, piece: usize, fails: &[u64]) -> Result<MemorySource, AllocError>
    requires { 1 ≤ piece }
{
    let bytes = Vec::from_slice(alloc, TEXT)?;
    let fails = Vec::from_slice(alloc, fails)?;
    Ok(MemorySource::new(bytes, piece, fails))
}

#[test]
fn reads_the_whole_in_pieces(rt: HostRuntime) -> Result<(), AllocError> {
    for piece in [1, 4, 26, 27, 5000] {
        let mut source = source(rt.alloc(), piece, &[])?;
        let read = read_all(rt.alloc(), &mut source, TEXT.len());
        assert!(rt;
            read.is_ok_and(|all| all.as_slice() == TEXT),
            "in pieces of {piece}"
        );
    }
    Ok(())
}

/// Three reads give the text, and the fourth its end; a fifth would fail.
#[test]
fn no_read_follows_the_end(rt: HostRuntime) -> Result<(), AllocError> {
    let mut source = source(rt.alloc(), 10, &[5])?;
    let read = read_all(rt.alloc(), &mut source, TEXT.len());
    assert!(rt; read.is_ok_and(|all| all.as_slice() == TEXT));
    Ok(())
}

#[test]
fn reads_more_than_its_buffer_holds(rt: HostRuntime) -> Result<(), AllocError> {
    let mut bytes = Vec::new(rt.alloc());
    for i in 0..10000u32 {
        bytes.push((i % 251) as u8)?;
    }
    let copy = bytes.clone()?;
    let mut source = MemorySource::new(bytes, 9999, Vec::new(rt.alloc()));
    let read = read_all(rt.alloc(), &mut source, 10000);
    assert!(rt; read.is_ok_and(|all| all == copy));
    Ok(())
}

#[test]
fn an_input_past_the_limit_is_long(rt: HostRuntime) -> Result<(), AllocError> {
    let mut source = source(rt.alloc(), 4, &[])?;
    let read = read_all(rt.alloc(), &mut source, 26);
    assert!(rt; read.is_err_and(|error| error == ReadAllError::Long));
    Ok(())
}

#[test]
fn a_failed_read_loses_no_byte(rt: HostRuntime) -> Result<(), AllocError> {
    let mut source = source(rt.alloc(), 20, &[2])?;
    let read = read_all(rt.alloc(), &mut source, 100);
    assert!(rt; read.is_err_and(|error| error == ReadAllError::Fault));
    let rest = read_all(rt.alloc(), &mut source, 100);
    assert!(rt; rest.is_ok_and(|all| all.as_slice() == &TEXT[20..]));
    Ok(())
}

#[test]
fn writes_the_whole_in_pieces(rt: HostRuntime) -> Result<(), AllocError> {
    for piece in [1, 4, 26, 27, 5000] {
        let mut sink = MemorySink::new(rt.alloc(), piece, Vec::new(rt.alloc()), 27)?;
        assert!(rt; write_all(&mut sink, TEXT).is_ok());
        assert!(rt; sink.taken() == TEXT, "in pieces of {piece}");
    }
    Ok(())
}

#[test]
fn a_failed_write_keeps_a_front(rt: HostRuntime) -> Result<(), AllocError> {
    let fails = vec![in rt.alloc(); 3]?;
    let mut sink = MemorySink::new(rt.alloc(), 5, fails, 100)?;
    assert!(rt; write_all(&mut sink, TEXT) == Err(Failed));
    assert!(rt; sink.taken() == &TEXT[..10]);
    Ok(())
}

#[test]
fn a_full_sink_takes_and_drops(rt: HostRuntime) -> Result<(), AllocError> {
    let mut sink = MemorySink::new(rt.alloc(), 5, Vec::new(rt.alloc()), 8)?;
    assert!(rt; write_all(&mut sink, TEXT).is_ok());
    assert!(rt; sink.taken() == &TEXT[..8]);
    Ok(())
}

#[test]
fn a_sink_has_the_room_that_was_asked_for(rt: HostRuntime) -> Result<(), AllocError> {
    let mut bytes = Vec::new(rt.alloc());
    for i in 0..200_000u32 {
        bytes.push((i % 251) as u8)?;
    }
    let mut sink = MemorySink::new(rt.alloc(), 4096, Vec::new(rt.alloc()), 200_000)?;
    assert!(rt; write_all(&mut sink, &bytes).is_ok());
    assert!(rt; sink.taken() == bytes.as_slice());
    Ok(())
}

#[test]
fn a_steady_source_gives_the_whole_in_pieces(rt: HostRuntime) -> Result<(), AllocError> {
    for piece in [1, 4, 26, 27, 5000] {
        let bytes = Vec::from_slice(rt.alloc(), TEXT)?;
        let mut source = SteadySource::new(bytes, piece);
        let read = read_all(rt.alloc(), &mut source, TEXT.len());
        assert!(rt;
            read.is_ok_and(|all| all.as_slice() == TEXT),
            "in pieces of {piece}"
        );
    }
    Ok(())
}

#[test]
fn a_steady_sink_keeps_what_fits(rt: HostRuntime) -> Result<(), AllocError> {
    for (piece, room, kept) in [
        (1, 27, 27),
        (4, 28, 27),
        (5000, 27, 27),
        (5, 8, 8),
        (5, 0, 0),
    ] {
        let mut sink = SteadySink::new(rt.alloc(), piece, room)?;
        assert!(rt; write_all(&mut sink, TEXT).is_ok());
        assert!(rt; sink.taken() == &TEXT[..kept], "in pieces of {piece}");
    }
    Ok(())
}

#[test]
fn reads_over_std(rt: HostRuntime) {
    let mut source = StdSource::new(TEXT);
    let read = read_all(rt.alloc(), &mut source, 100);
    assert!(rt; read.is_ok_and(|all| all.as_slice() == TEXT));
}

#[test]
fn writes_over_std(rt: HostRuntime) {
    let mut written = Vec::new(rt.alloc());
    let mut sink = StdSink::new(&mut written);
    assert!(rt; write_all(&mut sink, TEXT).is_ok());
    drop(sink);
    assert!(rt; written.as_slice() == TEXT);
}

/// A device that gives or takes one byte, and is then gone.
#[derive(Drop)]
struct Unplugged {
    calls: u8,
}

impl Read for Unplugged {
    fn read(&mut self, into: &mut [u8]) -> io::Result<usize> {
        self.calls = self.calls.saturating_add(1);
        if self.calls > 1 || into.is_empty() {
            return Err(io::Error::from(ErrorKind::BrokenPipe));
        }
        into[0] = b'0';
        Ok(1)
    }
}

impl Write for Unplugged {
    fn write(&mut self, piece: &[u8]) -> io::Result<usize> {
        self.calls = self.calls.saturating_add(1);
        if self.calls > 1 {
            return Err(io::Error::from(ErrorKind::BrokenPipe));
        }
        Ok(piece.len().min(1))
    }

    fn flush(&mut self) -> io::Result<()> {
        Ok(())
    }
}

#[test]
fn an_error_of_a_reader_is_a_fault(rt: HostRuntime) {
    let mut source = StdSource::new(Unplugged { calls: 0 });
    let read = read_all(rt.alloc(), &mut source, 100);
    assert!(rt; read.is_err_and(|error| error == ReadAllError::Fault));
}

#[test]
fn an_error_of_a_writer_is_a_failure(rt: HostRuntime) {
    let mut sink = StdSink::new(Unplugged { calls: 0 });
    assert!(rt; write_all(&mut sink, TEXT) == Err(Failed));
}

/// A writer that never takes a byte.
#[derive(Drop)]
struct Stuck;

impl Write for Stuck {
    fn write(&mut self, _piece: &[u8]) -> io::Result<usize> {
        Ok(0)
    }

    fn flush(&mut self) -> io::Result<()> {
        Ok(())
    }
}

#[test]
fn a_write_of_nothing_is_a_failure(rt: HostRuntime) {
    let mut sink = StdSink::new(Stuck);
    assert!(rt; write_all(&mut sink, TEXT) == Err(Failed));
}
