//! Sources and sinks over the readers and writers of std: bytes are stated as std states them, and
//! faults are counted here.
ghost use Rattle.std.specs.Prelude.{◌≡◌, ◌≤◌, ◌<◌, length, None, is_ok, if◌then◌else◌, IfOk};
ghost use Rattle.std.specs.Io.KnownBytes.{ReadConsumes, WriteAppends};
ghost use Rattle.trace_io.specs.Outside.{counted};

use crate::outside::{Failed, Sink, Source};
use std::io::{Read, Write};

/// A reader of std. The bytes that it has left aren't shown, and each of its errors is a failure.
#[derive(Drop)]
pub struct StdSource<I> {
    inner: I,
    faults: u64,
}

impl<I: Read> StdSource<I> {
    ghost use Rattle.trace_io.specs.StdEdge.{reader_of, read_faults};

    /// A source over this reader.
    pub fn new(inner: I) -> Self
        ensures reader { reader_of result ≡ inner }
        ensures faults { read_faults result ≡ 0 }
    {
        StdSource { inner, faults: 0 }
    }
}

impl<I: Read> Source for StdSource<I> {
    ghost left = { λ _. None };

    ghost faults = { λ s. s.faults };

    ghost use Rattle.trace_io.specs.StdEdge.{reader_of, read_faults};

    fn read(&mut self, into: &mut [u8]) -> Result<usize, Failed>
        ensures room { IfOk result (λ n. n ≤ length into.old) }
        ensures bytes { ReadConsumes (I.remaining (reader_of self.old))
            (I.remaining (reader_of self.new)) result into.new }
        ensures count { read_faults self.new
            ≡ (if is_ok result then read_faults self.old else counted (read_faults self.old)) }
        ensures faults { read_faults self.old ≤ read_faults self.new }
    {
        match self.inner.read(into) {
            Ok(n) => Ok(n),
            Err(_) => {
                self.faults = self.faults.saturating_add(1);
                Err(Failed)
            }
        }
    }
}

/// A writer of std. The bytes that it took aren't shown. Each of its errors is a failure, and so is
/// a write that takes nothing.
#[derive(Drop)]
pub struct StdSink<O> {
    inner: O,
    faults: u64,
}

impl<O: Write> StdSink<O> {
    ghost use Rattle.trace_io.specs.StdEdge.{writer_of, write_faults};

    /// A sink over this writer.
    pub fn new(inner: O) -> Self
        ensures writer { writer_of result ≡ inner }
        ensures faults { write_faults result ≡ 0 }
    {
        StdSink { inner, faults: 0 }
    }
}

impl<O: Write> Sink for StdSink<O> {
    ghost taken = { λ _. None };

    ghost faults = { λ s. s.faults };

    ghost use Rattle.trace_io.specs.StdEdge.{writer_of, write_faults};

    fn write(&mut self, piece: &[u8]) -> Result<usize, Failed>
        requires { 0 < length piece.now }
        ensures some { IfOk result (λ n. 0 < n) }
        ensures room { IfOk result (λ n. n ≤ length piece.now) }
        ensures bytes { WriteAppends (O.contents (writer_of self.old))
            (O.contents (writer_of self.new)) result piece.now }
        ensures count { write_faults self.new
            ≡ (if is_ok result then write_faults self.old else counted (write_faults self.old)) }
        ensures faults { write_faults self.old ≤ write_faults self.new }
    {
        match self.inner.write(piece) {
            Ok(n) if n > 0 => Ok(n),
            _ => {
                self.faults = self.faults.saturating_add(1);
                Err(Failed)
            }
        }
    }
}
