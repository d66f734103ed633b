//! The trait of what a command may read from its source, and the trace as such an input.
ghost use Rattle.std.specs.Prelude.{◌≡◌, ◌≢◌, ℕ, List, IfOk, Result, Err};
ghost use Rattle.trace_read.specs.Trace.{IsAccepted};
ghost use Rattle.papr_edge.specs.Inputs.{trace_input};
ghost use Rattle.papr_edge.specs.Reading.{IsParsedInput, RefusesLong};
ghost use Rattle.papr_edge.specs.declared.reason.Reason.{Reason as ReasonOf};
ghost use Rattle.papr_edge.specs.InputLaws.{long_trace};

use crate::reading::NoInput;
use std::alloc::Global;
use trace_read::{Trace, parse};

/// What a command reads: the whole of the source is one, or is refused.
pub trait Input: Drop {
    /// The input that these bytes are, or their first refused line and the reason.
    ghost reads: { List ℕ → Result Self (ℕ × ReasonOf) };

    /// The input that the bytes are, or why they are none.
    fn parse(alloc: Global, bytes: &[u8]) -> Result<Self, NoInput>
        ensures parsed { IsParsedInput result (reads bytes.now) }
        ensures no_fault { result ≢ Err NoInput.Fault };

    /// More bytes than may be are refused, whatever they are.
    ghost refuses_long: { RefusesLong reads };
}

impl Input for Trace {
    ghost reads = { trace_input };

    fn parse(alloc: Global, bytes: &[u8]) -> Result<Self, NoInput>
        ensures parsed { IsParsedInput result (trace_input bytes.now) }
        ensures accepted { IfOk result IsAccepted }
        ensures no_fault { result ≢ Err NoInput.Fault }
    {
        Ok(parse(alloc, bytes)?)
    }

    ghost refuses_long = { long_trace };
}
