//! The runs of a case over a source and a sink in memory.

use crate::case::Case;
use crate::miss::Miss;
use papr_top::{OpenGate, Status, papr, papr_serial};
use std::alloc::{AllocError, Global};
use std::sync::Wait;
use std::thread::Threads;
use trace_io::{MemorySink, MemorySource};

/// Room for bytes that aren't wanted, so that they are seen.
const MORE_ROOM: usize = 4096;

impl Case {
    /// Runs the program with threads, and without.
    pub fn check<R: AllocGlobal + Threads + Wait + Sync>(&self, rt: &R) -> Result<(), Miss> {
        self.check_parallel(rt)?;
        // The call without threads knows no `par`.
        match self.words.as_slice() {
            [word] if word.as_str() == "par" => Ok(()),
            _ => self.check_serial(rt.alloc()),
        }
    }

    fn check_parallel<R: AllocGlobal + Threads + Wait + Sync>(&self, rt: &R) -> Result<(), Miss> {
        let alloc = rt.alloc();
        let mut source = self.source(alloc)?;
        let mut sink = self.sink(alloc)?;
        let status = papr(rt, alloc, &self.words, &mut source, &mut sink, &OpenGate);
        self.compare(status, sink.taken())
    }

    fn check_serial(&self, alloc: Global) -> Result<(), Miss> {
        let mut source = self.source(alloc)?;
        let mut sink = self.sink(alloc)?;
        let status = papr_serial(alloc, &self.words, &mut source, &mut sink);
        self.compare(status, sink.taken())
    }

    fn source(&self, alloc: Global) -> Result<MemorySource, AllocError> {
        let bytes = self.input.clone()?;
        let fails = vec![in alloc; self.source.fault as u64]?;
        Ok(MemorySource::new(bytes, self.source.piece.max(1), fails))
    }

    fn sink(&self, alloc: Global) -> Result<MemorySink, AllocError> {
        let fails = vec![in alloc; self.sink.fault as u64]?;
        let room = self.output.len().saturating_add(MORE_ROOM);
        MemorySink::new(alloc, self.sink.piece.max(1), fails, room)
    }

    // Whether this status and this text are those that must come.
    fn compare(&self, status: Status, text: &[u8]) -> Result<(), Miss> {
        if text != self.output.as_slice() {
            return Err(Miss::Text);
        }
        if status.number() as usize != self.status {
            return Err(Miss::Status);
        }
        Ok(())
    }
}
