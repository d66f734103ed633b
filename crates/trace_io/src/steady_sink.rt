//! Writing to memory without a write fault: the contract of each write says that it succeeds.
ghost use Rattle.std.specs.Prelude.{◌≡◌, ◌≤◌, ◌<◌, [], length, IsOk, IfOk, IfSome};
ghost use Rattle.std.specs.Result.{result_ok};
ghost use Rattle.trace_io.specs.Memory.{new_sink, taken_bytes, write_count, after_write};

use crate::memory_sink::MemorySink;
use crate::outside::{Failed, Sink};
use std::alloc::{AllocError, Global};
use std::marker::Model;

/// A sink that keeps the bytes in memory and never fails: a [`MemorySink`] with no failing call.
/// Bytes past its room are taken and dropped, and from then on it doesn't show what it took.
#[derive(Drop)]
pub struct SteadySink {
    inner: MemorySink,
}

impl Model for SteadySink {
    ghost use Rattle.std.specs.Prelude.{◌≡◌, []};
    ghost use Rattle.trace_io.specs.Memory.{SinkState};

    ghost Value = { SinkState };

    ghost view = { λ s. s.inner };

    ghost invariant = { λ s. s.inner.fails ≡ [] };
}

impl SteadySink {
    /// A sink that takes at most `piece` bytes a call, and keeps the first `room` bytes. It takes
    /// memory for these now, and none later.
    pub fn new(alloc: Global, piece: usize, room: usize) -> Result<Self, AllocError>
        requires { 1 ≤ piece }
        ensures { IfOk result (λ s. s ≡ new_sink piece [] room) }
    {
        let inner = MemorySink::new(alloc, piece, Vec::new(alloc), room)?;
        Ok(SteadySink { inner })
    }

    /// The bytes taken, or the first of them that fit into the room.
    pub fn taken(&self) -> &[u8]
        ensures kept { result.now ≡ self.now.kept }
        ensures whole { IfSome (taken_bytes self.now) (λ bytes. result.now ≡ bytes) }
    {
        self.inner.taken()
    }
}

impl Sink for SteadySink {
    ghost taken = { taken_bytes };

    ghost faults = { λ _. 0 };

    fn write(&mut self, piece: &[u8]) -> Result<usize, Failed>
        requires { 0 < length piece.now }
        ensures steady { IsOk result }
        ensures count { result_ok result ≡ write_count self.old (length piece.now) }
        ensures after { self.new ≡ after_write self.old piece.now (result_ok result) }
        ensures some { IfOk result (λ n. 0 < n) }
    {
        self.inner.write(piece)
    }
}
