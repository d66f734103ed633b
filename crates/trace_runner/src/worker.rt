//! A processor of a section, with a pass of its own.
ghost use Rattle.std.specs.Prelude.{◌≡◌, ◌++◌, false, length};
ghost use Rattle.hpte_fields.specs.TableSize.{entry_count};
ghost use Rattle.tlb_model.specs.Cache.{AllCached};
ghost use Rattle.entry_lock.specs.PassOfTable.{IsOf, view_of};
ghost use Rattle.trace_line.specs.Lines.{is_quiet};
ghost use Rattle.run_model.specs.Processors.{processor_after};
ghost use Rattle.trace_reply.specs.Replies.{IsOfKind, receipts_in};
ghost use Rattle.trace_reply.specs.Slots.{reply_in};
ghost use Rattle.run_model.specs.ParallelRun.{WorksLine};
ghost use Rattle.run_model.specs.StoreContexts.{context_on};
ghost use Rattle.run_model.specs.Quiet.{NoneQuiet};
ghost use Rattle.trace_runner.specs.Workers.{replied_line, IsSeenBy, IsReady, IsDone};

use crate::act::run_act;
use crate::gate::{AtLine, Gate};
use crate::log::ReplyLog;
use crate::stepping::Stepping;
use entry_lock::{LockTable, Pass, Waiting};
use run_model::Surroundings;
use std::snapshot::Snapshot;
use std::sync::Wait;
use trace_line::TraceLine;
use trace_reply::ReplySlot;
use vcpu::Cpu;

/// A processor in a section: what it keeps from line to line, what it was before the section's
/// first line, its pass, the indices of its own lines among the section's, and the log of their
/// replies.
#[derive(Drop)]
pub struct Worker<L> {
    /// The processor as it now is.
    pub cpu: Cpu,
    /// The processor before the section's first line (no code reads it).
    pub before: Snapshot<Cpu>,
    /// Its pass of the table; none while a line has it.
    pub pass: Option<Pass>,
    /// The indices of its own lines among the section's, rising.
    pub own: Vec<usize>,
    /// What it keeps of their replies.
    pub log: L,
}

/// Runs a line by this pass, and gives the pass after it. The reply is put into the slot.
fn answer<R: Wait, G: Gate>(
    rt: &R,
    table: &LockTable,
    at: &AtLine<G>,
    around: &Surroundings,
    line: &TraceLine,
    cpu: &mut Cpu,
    pass: Pass,
    slot: &mut ReplySlot,
) -> Pass
    requires of { IsOf table.now pass }
    requires not_quiet { is_quiet line.now.act ≡ false }
    requires size { length (view_of pass).fronts ≡ entry_count table.now.order }
    requires seen { AllCached (IsSeenBy table.now pass) cpu.old.cache }
    ensures of { IsOf table.now result }
    ensures share { result.shares ≡ pass.shares }
    ensures made { (view_of result).actor.receipts
        ≡ (view_of pass).actor.receipts ++ receipts_in (reply_in slot.new) }
    ensures line { WorksLine
        (context_on table.now.order around.now)
        (view_of pass).fronts
        cpu.old
        (replied_line line.now (reply_in slot.new))
        (view_of result).fronts }
    ensures size { length (view_of result).fronts ≡ entry_count table.now.order }
    ensures kind { IsOfKind line.now.act (reply_in slot.new) }
    ensures processor { cpu.new ≡ processor_after cpu.old line.now.act (reply_in slot.new) }
    ensures seen { AllCached (IsSeenBy table.now result) cpu.new.cache }
{
    let mut store = Stepping {
        store: Waiting::new(rt, table, pass, at),
        at,
        started: false,
    };
    run_act(&mut store, cpu, around, &line.act, slot);
    let Stepping {
        store: waiting,
        at: _,
        started: _,
    } = store;
    waiting.into_pass()
}

/// Runs the worker's own lines among these, in file order, and looks at no other. It takes no
/// memory: the log has room for their replies, which follow one another.
pub fn work<R: Wait, G: Gate, L: ReplyLog>(
    rt: &R,
    table: &LockTable,
    gate: &G,
    around: &Surroundings,
    lines: &[TraceLine],
    number: u32,
    worker: &mut Worker<L>,
)
    requires none_quiet { NoneQuiet lines.now }
    requires ready { IsReady
        L.keeps
        L.room
        (context_on table.now.order around.now)
        table.now
        number
        lines.now
        worker.old }
    ensures done { IsDone
        L.keeps
        (context_on table.now.order around.now)
        table.now
        number
        lines.now
        worker.new }
    ensures before { worker.new.before.value ≡ worker.old.before.value }
{
    let Some(mut pass) = worker.pass.take() else {
        return;
    };
    let mut slot = ReplySlot::new();
    for i in 0..worker.own.len() {
        let index = worker.own[i];
        let line = &lines[index];
        gate.before(number, line.number);
        let at = AtLine {
            gate,
            cpu: number,
            line: line.number,
        };
        pass = answer(
            rt,
            table,
            &at,
            around,
            line,
            &mut worker.cpu,
            pass,
            &mut slot,
        );
        gate.after(number, line.number);
        worker.log.keep(line, &mut slot);
    }
    worker.pass = Some(pass);
}
