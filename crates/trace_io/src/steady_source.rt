//! Reading from memory without a read fault: the contract of each read says that it succeeds.
ghost use Rattle.std.specs.Prelude.{◌≡◌, ◌≤◌, ◌<◌, [], ◌++◌, length, take, drop, Some, IsOk, IfOk};
ghost use Rattle.std.specs.Result.{result_ok};
ghost use Rattle.trace_io.specs.Memory.{new_source, read_count, after_read};

use crate::memory_source::MemorySource;
use crate::outside::{Failed, Source};
use std::marker::Model;

/// A source over bytes in memory that never fails: a [`MemorySource`] with no failing call.
#[derive(Drop)]
pub struct SteadySource {
    inner: MemorySource,
}

impl Model for SteadySource {
    ghost use Rattle.std.specs.Prelude.{◌≡◌, []};
    ghost use Rattle.trace_io.specs.Memory.{SourceState};

    ghost Value = { SourceState };

    ghost view = { λ s. s.inner };

    ghost invariant = { λ s. s.inner.fails ≡ [] };
}

impl SteadySource {
    /// A source of these bytes, which gives at most `piece` bytes a call.
    pub fn new(bytes: Vec<u8>, piece: usize) -> Self
        requires { 1 ≤ piece }
        ensures { result ≡ new_source bytes.items piece [] }
    {
        let fails = Vec::new(*bytes.allocator());
        SteadySource {
            inner: MemorySource::new(bytes, piece, fails),
        }
    }
}

impl Source for SteadySource {
    ghost left = { λ s. Some s.left };

    ghost faults = { λ _. 0 };

    fn read(&mut self, into: &mut [u8]) -> Result<usize, Failed>
        ensures steady { IsOk result }
        ensures count { result_ok result ≡ read_count self.old (length into.old) }
        ensures after { self.new ≡ after_read self.old (result_ok result) }
        ensures bytes { IfOk result (λ n. into.new ≡ take n self.old.left ++ drop n into.old) }
        ensures end { IfOk result (λ n. n ≡ 0 → 0 < length into.old → self.new.left ≡ []) }
    {
        self.inner.read(into)
    }
}
