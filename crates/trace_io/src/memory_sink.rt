//! The sink over memory: what each write takes, keeps or refuses is determined by a piece size, a
//! room and a list of failing calls.
ghost use Rattle.std.specs.Prelude.{◌≡◌, ◌≤◌, ◌<◌, ◌+◌, ◌++◌, length, IfOk, vec_len};
ghost use Rattle.std.specs.Result.{result_ok};
ghost use Rattle.std.specs.Vec.{vec_capacity};
ghost use Rattle.trace_io.specs.Memory.{new_sink, taken_bytes, write_count, after_write};

use crate::outside::{Failed, Sink};
use std::alloc::{AllocError, Global};
use std::marker::Model;

/// A sink that keeps the bytes in memory, takes a piece at a time and fails at the calls that it is
/// made to fail at. Bytes past its room are taken and dropped, and from then on it doesn't show
/// what it took.
#[derive(Drop)]
pub struct MemorySink {
    kept: Vec<u8>,
    whole: bool,
    room: usize,
    piece: usize,
    fails: Vec<u64>,
    calls: u64,
    faults: u64,
}

impl Model for MemorySink {
    ghost use Rattle.std.specs.Prelude.{◌≤◌, vec_len};
    ghost use Rattle.std.specs.Vec.{vec_capacity};
    ghost use Rattle.trace_io.specs.Memory.{SinkState};

    ghost Value = { SinkState };

    ghost view = { λ s. record {
      kept = s.kept.items;
      whole = s.whole;
      room = s.room;
      piece = s.piece;
      fails = s.fails.items;
      calls = s.calls;
      faults = s.faults;
    } };

    ghost invariant = { λ s. (1 ≤ s.piece)
        × (vec_len s.kept ≤ s.room)
        × (s.room ≤ vec_capacity s.kept) };
}

impl MemorySink {
    /// A sink that takes at most `piece` bytes a call, fails at the calls whose numbers, from 1,
    /// are listed, and keeps the first `room` bytes. It takes memory for these now, and none later.
    pub fn new(
        alloc: Global,
        piece: usize,
        fails: Vec<u64>,
        room: usize,
    ) -> Result<Self, AllocError>
        requires { 1 ≤ piece }
        ensures { IfOk result (λ s. s ≡ new_sink piece fails.items room) }
    {
        let kept = Vec::with_capacity(alloc, room)?;
        Ok(MemorySink {
            kept,
            whole: true,
            room,
            piece,
            fails,
            calls: 0,
            faults: 0,
        })
    }

    /// The bytes taken, or the first of them that fit into the room.
    pub fn taken(&self) -> &[u8]
        ensures { result.now ≡ self.now.kept }
    {
        self.kept.as_slice()
    }
}

impl Sink for MemorySink {
    ghost taken = { taken_bytes };

    ghost faults = { λ s. s.faults };

    fn write(&mut self, piece: &[u8]) -> Result<usize, Failed>
        requires { 0 < length piece.now }
        ensures count { result_ok result ≡ write_count self.old (length piece.now) }
        ensures after { self.new ≡ after_write self.old piece.now (result_ok result) }
        ensures some { IfOk result (λ n. 0 < n) }
        ensures faults { self.old.faults ≤ self.new.faults }
    {
        self.calls = self.calls.saturating_add(1);
        if self.fails.contains(&self.calls) {
            self.faults = self.faults.saturating_add(1);
            return Err(Failed);
        }
        let front = &piece[..self.piece.min(piece.len())];
        let fitting = (self.room - self.kept.len()).min(front.len());
        append_in_room(&mut self.kept, &front[..fitting]);
        self.whole &= fitting == front.len();
        Ok(front.len())
    }
}

// Appends a piece to the others, where there is room for it already.
fn append_in_room(kept: &mut Vec<u8>, piece: &[u8])
    requires { vec_len kept.old + length piece.now ≤ vec_capacity kept.old }
    ensures items { kept.new.items ≡ kept.old.items ++ piece.now }
    ensures len { vec_len kept.new ≡ vec_len kept.old + length piece.now }
    ensures capacity { vec_capacity kept.old ≤ vec_capacity kept.new }
{
    let appended = kept.extend_from_slice(piece);
    prove!(appended.is_ok());
}
