//! How a call ends: a text or the line of a refusal is written, and a failing sink makes the status
//! a write fault.
ghost use Rattle.std.specs.Prelude.{◌≡◌, ◌≢◌, ◌≤◌, IfOk, string_bytes};
ghost use Rattle.trace_io.specs.Outside.{Rose, Put};
ghost use Rattle.papr_edge.specs.Inputs.{refusal_text};
ghost use Rattle.papr_edge.specs.Finish.{Finishes, EndsRefused};

use crate::reading::NoInput;
use crate::reason::Reason;
use crate::status::Status;
use std::alloc::{AllocError, Global};
use std::fmt::Write;
use trace_io::{Sink, write_all};

/// The line that refuses an input.
fn refusal(alloc: Global, line: u32, reason: Reason) -> Result<String, AllocError>
    ensures { IfOk result (λ s. string_bytes s ≡ refusal_text line reason) }
{
    let word = reason.word();
    let mut out = String::new(alloc);
    write!(out, "papr: line {line}: {word}\n")?;
    Ok(out)
}

/// Writes the text, and answers the status unless the sink fails.
pub fn finish<K: Sink>(sink: &mut K, text: &[u8], status: Status) -> Status
    ensures end { Finishes
        status
        text.now
        (K.taken sink.old)
        (K.taken sink.new)
        (K.faults sink.old)
        (K.faults sink.new)
        result }
    ensures no_fault { result ≢ Status.WriteFault → K.faults sink.new ≡ K.faults sink.old }
    ensures faults { K.faults sink.old ≤ K.faults sink.new }
{
    match write_all(sink, text) {
        Ok(()) => status,
        Err(_) => Status::WriteFault,
    }
}

/// Answers that there is no input: the line that refuses the input is written, and else nothing.
pub fn refuse<K: Sink>(alloc: Global, sink: &mut K, error: NoInput) -> Status
    ensures end { EndsRefused
        error
        (K.taken sink.old)
        (K.taken sink.new)
        (K.faults sink.old)
        (K.faults sink.new)
        result }
    ensures no_fault { result ≢ Status.WriteFault → K.faults sink.new ≡ K.faults sink.old }
    ensures faults { K.faults sink.old ≤ K.faults sink.new }
{
    match error {
        NoInput::Refused { line, reason } => match refusal(alloc, line, reason) {
            Ok(text) => finish(sink, text.as_bytes(), Status::Refused),
            Err(_) => Status::Memory,
        },
        NoInput::Fault => Status::ReadFault,
        NoInput::Memory => Status::Memory,
    }
}
