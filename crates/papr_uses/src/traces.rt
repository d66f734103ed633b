//! Callers that read or generate a trace, run it and write its replies: the text is that of a good
//! run.
ghost use Rattle.std.specs.Prelude.{◌≡◌, ◌≤◌, IfOk, IfErr, string_bytes};
ghost use Rattle.trace_gen.specs.Generated.{generated_trace};
ghost use Rattle.papr_uses.specs.RunText.{IsTextOf, IsTextOfBytes, TellsRefusal};

use reply_text::text_of;
use std::alloc::{AllocError, Global};
use trace_gen::generate;
use trace_read::{Trace, TraceError, parse};
use trace_runner::run_serial;

/// The text of a good run of a trace.
fn text_of_run(alloc: Global, trace: &Trace) -> Result<String, AllocError>
    ensures { IfOk result (λ s. IsTextOf trace.now (string_bytes s)) }
{
    let replies = run_serial(alloc, trace)?;
    text_of(alloc, trace, &replies)
}

/// The text of a good run of the trace that the bytes give.
pub fn text_of_bytes(alloc: Global, bytes: &[u8]) -> Result<String, TraceError>
    ensures text { IfOk result (λ s. IsTextOfBytes bytes.now (string_bytes s)) }
    ensures refused { IfErr result (λ e. TellsRefusal e bytes.now) }
{
    let trace = parse(alloc, bytes)?;
    match text_of_run(alloc, &trace) {
        Ok(text) => Ok(text),
        Err(_) => Err(TraceError::Memory),
    }
}

/// The text of a good run of the generated trace of a seed.
pub fn text_of_seed(alloc: Global, seed: u64, lines: u32) -> Result<String, AllocError>
    requires { lines ≤ 100000 }
    ensures { IfOk result (λ s. IsTextOf (generated_trace seed lines) (string_bytes s)) }
{
    let trace = generate(alloc, seed, lines)?;
    text_of_run(alloc, &trace)
}
