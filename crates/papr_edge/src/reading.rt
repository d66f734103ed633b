//! The whole of a source as an input: its bytes within the limit, parsed, or why there is none.
ghost use Rattle.std.specs.Prelude.{◌≡◌, ◌≢◌, ◌≤◌, IfOk, IfErr, Err, length};
ghost use Rattle.trace_io.specs.Outside.{Rose};
ghost use Rattle.trace_read.specs.Grammar.{most_bytes};
ghost use Rattle.papr_edge.specs.Reading.{Reads, IsInput, WasLong};

use crate::input::Input;
use crate::reason::Reason;
use std::alloc::Global;
use trace_io::{ReadAllError, Source, read_all};
use trace_read::{MOST_BYTES, TraceError, Why};

/// Why there is no input.
#[derive(Clone, Copy, PartialEq, Eq, Debug)]
pub enum NoInput {
    /// It is refused: the first refused line, and the reason.
    Refused { line: u32, reason: Reason },
    /// The source failed.
    Fault,
    /// There is not enough memory.
    Memory,
}

impl From<TraceError> for NoInput {
    ghost use Rattle.std.specs.Prelude.{◌≡◌};
    ghost use Rattle.papr_edge.specs.Reading.{no_input_of};

    ghost from_gives = { λ error missing. missing ≡ no_input_of error };

    fn from(error: TraceError) -> Self {
        match error {
            TraceError::Line { line, why } => NoInput::Refused {
                line,
                reason: Reason::Trace(why),
            },
            TraceError::Memory => NoInput::Memory,
        }
    }
}

/// Reads the source to its end. An input past the limit is refused before its first line.
pub fn read_bytes<S: Source>(alloc: Global, source: &mut S) -> Result<Vec<u8>, NoInput>
    ensures bytes { IfOk result (λ v. Reads (S.left source.old) v.items (S.left source.new)) }
    ensures within { IfOk result (λ v. length v.items ≤ most_bytes) }
    ensures long { IfErr result (λ e. WasLong e (S.left source.old) (S.left source.new)) }
    ensures fault { result ≡ Err NoInput.Fault → Rose (S.faults source.old) (S.faults source.new) }
    ensures no_fault { result ≢ Err NoInput.Fault → S.faults source.new ≡ S.faults source.old }
    ensures faults { S.faults source.old ≤ S.faults source.new }
{
    read_all(alloc, source, MOST_BYTES).map_err(|error| match error {
        ReadAllError::Long => NoInput::Refused {
            line: 0,
            reason: Reason::Trace(Why::Long),
        },
        ReadAllError::Fault => NoInput::Fault,
        ReadAllError::Memory => NoInput::Memory,
    })
}

/// Reads the source to its end, and gives the input that it is.
pub fn read_input<I: Input, S: Source>(alloc: Global, source: &mut S) -> Result<I, NoInput>
    ensures input { IsInput I.reads result (S.left source.old) (S.left source.new) }
    ensures fault { result ≡ Err NoInput.Fault → Rose (S.faults source.old) (S.faults source.new) }
    ensures no_fault { result ≢ Err NoInput.Fault → S.faults source.new ≡ S.faults source.old }
    ensures faults { S.faults source.old ≤ S.faults source.new }
{
    let bytes = read_bytes(alloc, source)?;
    I::parse(alloc, &bytes)
}
