//! The serial run for a summary: each reply is counted at once, and none is kept.
ghost use Rattle.std.specs.Prelude.{◌≡◌, ◌≤◌, ◌<◌, length, IfOk};
ghost use Rattle.run_model.specs.QuietLines.{shown_of};
ghost use Rattle.run_model.specs.SerialRun.{serial_replies, table_after};
ghost use Rattle.trace_runner.specs.MachineState.{replies_of, table_end};
ghost use Rattle.run_model.specs.GoodRun.{IsGoodRun};
ghost use Rattle.run_model.specs.Assurances.{Assures};
ghost use Rattle.reply_text.specs.Summary.{IsCountOf};
ghost use Rattle.trace_line.specs.Lines.{most_lines, AreOnProcessors};

use crate::machine::Machine;
use crate::opening::open_machine;
use reply_text::Counts;
use std::alloc::{AllocError, Global};
use trace_line::TraceLine;
use trace_read::Trace;
use trace_reply::{ReplySlot, Shown};

/// What a summary counts of the replies of a run, and the table at its end.
#[derive(Drop)]
pub struct CountedRun {
    /// How many replies of each kind there were.
    pub counts: Counts,
    /// The page table at the end.
    pub table: Shown,
}

/// Counts the replies to lines, each as soon as its line has run, and shows the table after them.
fn count_lines(
    alloc: Global,
    machine: &mut Machine,
    lines: &[TraceLine],
) -> Result<CountedRun, AllocError>
    requires few { length lines.now ≤ most_lines }
    requires cpus { AreOnProcessors (length machine.old.table.processors) lines.now }
    requires number { machine.old.table.memory.table.number ≡ 0 }
    ensures counts { IfOk
        result
        (λ run. IsCountOf run.counts (replies_of machine.old lines.now)) }
    ensures table { IfOk
        result
        (λ run.
        run.table ≡ shown_of (table_end machine.old lines.now).memory) }
{
    let mut counts = Counts::new();
    let mut slot = ReplySlot::new();
    for line in lines {
        machine.line(alloc, line, &mut slot)?;
        counts.add_slot(&slot);
    }
    let table = machine.shown(alloc)?;
    Ok(CountedRun { counts, table })
}

/// The counts of the replies of the serial run of a trace, and the table at its end. The replies
/// are a good run, and none is kept.
pub fn run_counted(alloc: Global, trace: &Trace) -> Result<CountedRun, AllocError>
    ensures counts { IfOk result (λ run. IsCountOf run.counts (serial_replies trace.now)) }
    ensures table { IfOk
        result
        (λ run.
        run.table
        ≡ shown_of (table_after trace.now.config trace.now.lines).memory) }
    ensures good { IsGoodRun trace.now (serial_replies trace.now) }
    ensures assured { Assures trace.now (serial_replies trace.now) }
{
    let mut machine = open_machine(alloc, trace)?;
    count_lines(alloc, &mut machine, trace.lines.as_slice())
}
