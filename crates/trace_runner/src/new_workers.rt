//! The workers of a section: those with lines share the table's passes.
ghost use Rattle.std.specs.Prelude.{◌≡◌, ◌≢◌, ℕ, ◌+◌, ◌<◌, ◌≤◌, min, List, [], length, vec_len, vec_capacity, IfOk, IsSomeAnd};
ghost use Rattle.hpte_fields.specs.TableSize.{IsTableOrder, entry_count};
ghost use Rattle.trace_line.specs.declared.line.TraceLine.{TraceLine as LineOf};
ghost use Rattle.entry_model.specs.Fronts.{opening_fronts};
ghost use Rattle.tlb_model.specs.Cache.{AllCached};
ghost use Rattle.entry_lock.specs.PassOfTable.{IsOf, view_of};
ghost use Rattle.trace_line.specs.Lines.{AreOnProcessors};
ghost use Rattle.run_model.specs.StoreContexts.{StoreContext};
ghost use Rattle.run_model.specs.HeldLines.{AllHold, Holding};
ghost use Rattle.trace_runner.specs.DealtLines.{AreDealt, count_with_own};
ghost use Rattle.trace_runner.specs.Workers.{count_with_lines, processors_before, AreOwn, AreReady, IsFresh, IsReady, IsRest};
ghost use Rattle.trace_read.specs.Configuration.{most_processors};

use crate::dealt_processors::{count_workers, deal_lines};
use crate::log::RunLog;
use crate::worker::Worker;
use entry_lock::{LockTable, Pass};
use entry_model::EntryState;
use std::alloc::{AllocError, Global};
use std::snapshot::Snapshot;
use trace_line::TraceLine;
use vcpu::Cpu;

/// A pass with one share of what is left: one that is split off, or in the end the one that is
/// left.
fn take_share(table: &LockTable, rest: &mut Option<Pass>) -> Pass
    requires some { IsSomeAnd
        rest.old
        (λ pass. (0 < pass.shares) × IsFresh table.now pass.shares pass) }
    ensures fresh { IsFresh table.now 1 result }
    ensures rest { (n : ℕ) → IsRest table.now (1 + n) rest.old → IsRest table.now n rest.new }
{
    let mut pass = rest.take().unwrap();
    if pass.shares() == 1 {
        return pass;
    }
    let share = pass.split(table);
    *rest = Some(pass);
    share
}

/// The worker of a processor with these lines of its own, by their indices: with a pass, and room
/// for the replies to them, if there are any, and with neither else.
fn next_worker<L: RunLog>(
    alloc: Global,
    table: &LockTable,
    cpu: Cpu,
    own: Vec<usize>,
    rest: &mut Option<Pass>,
) -> Result<Worker<L>, AllocError>
    requires hold { AllCached (Holding table.now.opening.items) cpu.cache }
    requires rest { (n : ℕ) × IsRest table.now (min 1 (length own.items) + n) rest.old }
    ensures ready { IfOk result
        (λ w. (context : StoreContext) (number : ℕ) (lines : List LineOf)
        → AreOwn lines number own.items
        → IsReady L.keeps L.room context table.now number lines w) }
    ensures before { IfOk result (λ w. w.before.value ≡ cpu) }
    ensures rest { IfOk result
        (λ w. (n : ℕ)
        → IsRest table.now (min 1 (length own.items) + n) rest.old
        → IsRest table.now n rest.new) }
{
    let before = Snapshot::of(&cpu);
    let count = own.len();
    let log = L::with_room(alloc, count)?;
    let pass = if count > 0 {
        Some(take_share(table, rest))
    } else {
        None
    };
    Ok(Worker {
        cpu,
        before,
        pass,
        own,
        log,
    })
}

/// A table of these states, and a worker for each processor. Those that have lines share the
/// table's passes. The room of the list of processors stays.
pub fn open_section<L: RunLog>(
    alloc: Global,
    states: Vec<EntryState>,
    order: u8,
    cpus: &mut Vec<Cpu>,
    lines: &[TraceLine],
) -> Result<(LockTable, Vec<Worker<L>>), AllocError>
    requires order { IsTableOrder order }
    requires whole { vec_len states ≡ entry_count order }
    requires some { lines.now ≢ [] }
    requires few { length cpus.old.items ≤ most_processors }
    requires on_cpus { AreOnProcessors (length cpus.old.items) lines.now }
    requires hold { AllHold states.items cpus.old.items }
    ensures opening { IfOk result (λ r. r.0.opening.items ≡ states.items) }
    ensures order { IfOk result (λ r. r.0.order ≡ order) }
    ensures some { IfOk result (λ r. 0 < r.0.passes) }
    ensures passes { IfOk result
        (λ r. r.0.passes ≡ count_with_lines (length r.1.items) 0 lines.now) }
    ensures ready { IfOk result
        (λ r. (context : StoreContext)
        → AreReady L.keeps L.room context r.0 lines.now r.1.items) }
    ensures before { IfOk result (λ r. processors_before r.1.items ≡ cpus.old.items) }
    ensures none { IfOk result (λ r. cpus.new.items ≡ []) }
    ensures room { IfOk result (λ r. length r.1.items ≤ vec_capacity cpus.new) }
{
    let dealt = deal_lines(alloc, cpus.len(), lines)?;
    let passes = count_workers(dealt.as_slice());
    let Ok((table, pass)) = LockTable::open(alloc, states, order, passes) else {
        return Err(AllocError);
    };
    let workers = make_workers(alloc, &table, pass, cpus, dealt)?;
    Ok((table, workers))
}

/// A worker for each processor, with the lines that were dealt to it. Those that have lines share
/// the pass, and have room for the replies to them. The room of the list of processors stays.
fn make_workers<L: RunLog>(
    alloc: Global,
    table: &LockTable,
    pass: Pass,
    cpus: &mut Vec<Cpu>,
    dealt: Vec<Vec<usize>>,
) -> Result<Vec<Worker<L>>, AllocError>
    requires of { IsOf table.now pass }
    requires size { length dealt.items ≡ length cpus.old.items }
    requires shares { pass.shares ≡ count_with_own dealt.items }
    requires some { 0 < pass.shares }
    requires few { length cpus.old.items ≤ most_processors }
    requires receipts { (view_of pass).actor.receipts ≡ [] }
    requires fronts { (view_of pass).fronts ≡ opening_fronts table.now.opening.items }
    requires hold { AllHold table.now.opening.items cpus.old.items }
    ensures ready { IfOk result
        (λ ws. (context : StoreContext) (lines : List LineOf)
        → AreDealt lines dealt.items
        → AreReady L.keeps L.room context table.now lines ws.items) }
    ensures before { IfOk result (λ ws. processors_before ws.items ≡ cpus.old.items) }
    ensures none { IfOk result (λ ws. cpus.new.items ≡ []) }
    ensures room { IfOk result (λ ws. length ws.items ≤ vec_capacity cpus.new) }
{
    let count = cpus.len();
    let mut left = dealt;
    let mut rest = Some(pass);
    let mut workers = Vec::with_capacity(alloc, count)?;
    // The last one is taken without moving the others. So the first processor that has lines comes
    // last, and gets the pass that the others were split from.
    for _ in 0..count {
        let cpu = cpus.pop().unwrap();
        let own = left.pop().unwrap();
        let worker = next_worker(alloc, table, cpu, own, &mut rest)?;
        workers.push(worker)?;
    }
    workers.reverse();
    Ok(workers)
}
