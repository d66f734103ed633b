//! The texts of `run`, `par` and `drill`: the replies of a serial or a parallel run, and the
//! summary of a generated trace.
ghost use Rattle.std.specs.Prelude.{◌≡◌, ◌≤◌, IfOk, string_bytes};
ghost use Rattle.trace_gen.specs.Generated.{generated_trace};
ghost use Rattle.papr_edge.specs.Answer.{IsAnswer};
ghost use Rattle.papr_edge.specs.Ends.{WithDone};
ghost use Rattle.papr_top.specs.Texts.{drill_text, IsSerialAssured, IsSerialText, IsParallelText};

use papr_edge::Answer;
use reply_text::summary_of_counts;
use run_model::serial_puts_are_not_busy;
use std::alloc::{AllocError, Global};
use std::sync::Wait;
use std::thread::Threads;
use trace_gen::generate;
use trace_read::Trace;
use trace_runner::{Gate, parallel_to_text, run_counted, run_to_text};

/// The text of the serial run.
pub fn run_answer(alloc: Global, trace: &Trace) -> Result<Answer, AllocError>
    ensures { IfOk result (λ answer. IsAnswer (WithDone IsSerialText) trace.now answer) }
{
    trace.keeps_limits();
    serial_puts_are_not_busy();
    let text = run_to_text(alloc, trace)?;
    Ok(Answer::Done(text))
}

/// The text of a run with a thread for each processor that has lines.
pub fn par_answer<R: Threads + Wait + Sync, G: Gate + Sync>(
    rt: &R,
    alloc: Global,
    trace: &Trace,
    gate: &G,
) -> Result<Answer, AllocError>
    ensures { IfOk result (λ answer. IsAnswer (WithDone IsParallelText) trace.now answer) }
{
    trace.keeps_limits();
    let text = parallel_to_text(rt, alloc, trace, gate)?;
    Ok(Answer::Done(text))
}

/// The summary of a generated trace.
#[tactic(auto, unfolding(crate::specs::Texts::drill_text))]
pub fn summary(alloc: Global, seed: u64, lines: u32) -> Result<String, AllocError>
    requires { lines ≤ 100000 }
    ensures text { IfOk result (λ s. string_bytes s ≡ drill_text (generated_trace seed lines)) }
    ensures assured { IfOk result (λ _. IsSerialAssured (generated_trace seed lines)) }
{
    let trace = generate(alloc, seed, lines)?;
    serial_puts_are_not_busy();
    let lines = trace.lines.as_slice().len();
    let run = run_counted(alloc, &trace)?;
    summary_of_counts(alloc, lines, &run.counts, &run.table)
}
