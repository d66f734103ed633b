//! The parallel run: between two quiet lines, on each store a thread for each processor that has
//! lines there.
ghost use Rattle.std.specs.Prelude.{◌≡◌, ℕ, ◌<◌, ◌≤◌, ◌-◌, ◌^◌, length, IfOk, string_bytes};
ghost use Rattle.trace_reply.specs.Replies.{AreReplies};
ghost use Rattle.run_model.specs.SerialRun.{serial_replies};
ghost use Rattle.run_model.specs.GoodRun.{IsGoodRun};
ghost use Rattle.run_model.specs.Assurances.{Assures};
ghost use Rattle.run_model.specs.Laws.{HasOneProcessor};
ghost use Rattle.run_model.specs.Quiet.{NoneQuiet};
ghost use Rattle.trace_runner.specs.Sectioned.{HasRunFrom, RunsSection, RunsToQuiet};
ghost use Rattle.trace_runner.specs.ParallelRun.{IsOutputOfRun, IsTextOfRun};
ghost use Rattle.trace_line.specs.Lines.{most_lines, AreOnProcessors};
ghost use Rattle.trace_read.specs.Configuration.{most_processors};

use crate::gate::Gate;
use crate::log::RunLog;
use crate::machine::Machine;
use crate::merging::merge_replies;
use crate::opening::open_machine;
use crate::queue_log::ReplyQueue;
use crate::section_stores::run_stores;
use crate::text_log::ReplyText;
use std::alloc::{AllocError, Global};
use std::sync::Wait;
use std::thread::Threads;
use trace_line::TraceLine;
use trace_read::Trace;
use trace_reply::{Replies, ReplySlot};

/// Runs the lines of a section, on each store in a thread for each processor that has some there,
/// and puts the replies at the end of the output.
fn section<R: Threads + Wait + Sync, G: Gate + Sync, L: RunLog>(
    rt: &R,
    alloc: Global,
    machine: Machine,
    gate: &G,
    lines: &[TraceLine],
    output: &mut L::Output,
) -> Result<Machine, AllocError>
    requires none_quiet { NoneQuiet lines.now }
    requires cpus { AreOnProcessors (length machine.table.processors) lines.now }
    requires few { length machine.table.processors ≤ most_processors }
    ensures { IfOk result
        (λ later. RunsSection L.has machine lines.now output.old output.new later) }
{
    let (later, mut logs) = run_stores::<R, G, L>(rt, alloc, machine, gate, lines)?;
    merge_replies(later.windows.as_slice(), lines, &mut logs, output)?;
    Ok(later)
}

/// Runs a section and the quiet line that ends it, and puts the replies at the end of the output.
fn section_to_quiet<R: Threads + Wait + Sync, G: Gate + Sync, L: RunLog>(
    rt: &R,
    alloc: Global,
    machine: Machine,
    gate: &G,
    lines: &[TraceLine],
    quiet: &TraceLine,
    output: &mut L::Output,
) -> Result<Machine, AllocError>
    requires none_quiet { NoneQuiet lines.now }
    requires cpus { AreOnProcessors (length machine.table.processors) lines.now }
    requires few { length machine.table.processors ≤ most_processors }
    requires cpu { quiet.now.cpu < length machine.table.processors }
    requires number { machine.table.memory.table.number < 2 ^ 32 - 1 }
    ensures { IfOk result
        (λ later. RunsToQuiet L.has machine lines.now quiet.now output.old output.new later) }
{
    let mut later = section::<R, G, L>(rt, alloc, machine, gate, lines, output)?;
    let mut slot = ReplySlot::new();
    later.line(alloc, quiet, &mut slot)?;
    L::put(output, quiet, &mut slot)?;
    Ok(later)
}

/// Runs lines: sections, one after the other, and the quiet lines between them.
fn run_sections<R: Threads + Wait + Sync, G: Gate + Sync, L: RunLog>(
    rt: &R,
    alloc: Global,
    opened: Machine,
    gate: &G,
    lines: &[TraceLine],
) -> Result<L::Output, AllocError>
    requires few { length lines.now ≤ most_lines }
    requires cpus { AreOnProcessors (length opened.table.processors) lines.now }
    requires few_cpus { length opened.table.processors ≤ most_processors }
    requires number { opened.table.memory.table.number ≡ 0 }
    ensures { IfOk result (HasRunFrom L.has opened lines.now) }
{
    let mut machine = opened;
    let mut output = L::output(alloc, lines.len())?;
    let mut start = 0;
    for i in 0..lines.len() {
        if lines[i].act.is_quiet() {
            machine = section_to_quiet::<R, G, L>(
                rt,
                alloc,
                machine,
                gate,
                &lines[start..i],
                &lines[i],
                &mut output,
            )?;
            start = i + 1;
        }
    }
    section::<R, G, L>(rt, alloc, machine, gate, &lines[start..], &mut output)?;
    Ok(output)
}

/// What a parallel run of a trace gives, by what its workers keep of the replies.
fn run_logged<R: Threads + Wait + Sync, G: Gate + Sync, L: RunLog>(
    rt: &R,
    alloc: Global,
    trace: &Trace,
    gate: &G,
) -> Result<L::Output, AllocError>
    ensures { IfOk result (IsOutputOfRun L.has trace.now) }
{
    trace.keeps_limits();
    let machine = open_machine(alloc, trace)?;
    run_sections::<R, G, L>(rt, alloc, machine, gate, trace.lines.as_slice())
}

/// The replies of a parallel run of a trace: between two quiet lines each processor that has lines
/// on a store runs them in a thread of its own. They are a good run.
pub fn run_parallel<R: Threads + Wait + Sync, G: Gate + Sync>(
    rt: &R,
    alloc: Global,
    trace: &Trace,
    gate: &G,
) -> Result<Replies, AllocError>
    ensures kinds { IfOk result (λ r. AreReplies trace.now.lines r.items) }
    ensures count { IfOk result (λ r. length r.items ≡ length trace.now.lines) }
    ensures good { IfOk result (λ r. IsGoodRun trace.now r.items) }
    ensures assured { IfOk result (λ r. Assures trace.now r.items) }
    ensures one { IfOk result
        (λ r. (cpu : ℕ)
        → HasOneProcessor cpu trace.now.lines
        → r.items ≡ serial_replies trace.now) }
{
    run_logged::<R, G, ReplyQueue>(rt, alloc, trace, gate)
}

/// The text of a parallel run of a trace: each worker writes the text of its own lines. The run is
/// a good one.
pub fn parallel_to_text<R: Threads + Wait + Sync, G: Gate + Sync>(
    rt: &R,
    alloc: Global,
    trace: &Trace,
    gate: &G,
) -> Result<String, AllocError>
    ensures { IfOk result (λ s. IsTextOfRun trace.now (string_bytes s)) }
{
    run_logged::<R, G, ReplyText>(rt, alloc, trace, gate)
}
