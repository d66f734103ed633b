//! The stretch of a section in which no memory is taken.
ghost use Rattle.std.specs.Prelude.{◌≡◌, ◌+◌, ◌<◌, ◌≤◌, length, vec_capacity};
ghost use Rattle.run_model.specs.StoreContexts.{context_on};
ghost use Rattle.run_model.specs.Quiet.{NoneQuiet};
ghost use Rattle.trace_runner.specs.Workers.{count_with_lines, AreReady};
ghost use Rattle.trace_runner.specs.SectionRun.{RanTogether};
ghost use Rattle.trace_read.specs.Configuration.{most_processors};

use crate::gate::Gate;
use crate::joined_workers::join_workers;
use crate::log::RunLog;
use crate::worker::Worker;
use crate::worker_threads::run_workers;
use entry_lock::LockTable;
use entry_model::EntryState;
use run_model::Surroundings;
use std::sync::Wait;
use std::thread::Threads;
use trace_line::TraceLine;
use vcpu::Cpu;

/// Runs the lines by these workers, each with lines in a thread of its own, joins their passes, and
/// closes the table. It is given no allocator, and can't fail: all room was made before. It gives
/// the states at the end, and puts the processors and their logs into these lists.
pub fn run_together<R: Threads + Wait + Sync, G: Gate + Sync, L: RunLog>(
    rt: &R,
    table: LockTable,
    gate: &G,
    around: &Surroundings,
    lines: &[TraceLine],
    mut workers: Vec<Worker<L>>,
    cpus: &mut Vec<Cpu>,
    logs: &mut Vec<L>,
) -> Vec<EntryState>
    requires none_quiet { NoneQuiet lines.now }
    requires ready { AreReady
        L.keeps
        L.room
        (context_on table.order around.now)
        table
        lines.now
        workers.items }
    requires some { 0 < table.passes }
    requires passes { table.passes ≡ count_with_lines (length workers.items) 0 lines.now }
    requires few { length workers.items ≤ most_processors }
    requires room_for_cpus { length cpus.old.items + length workers.items
        ≤ vec_capacity cpus.old }
    requires room_for_logs { length logs.old.items + length workers.items
        ≤ vec_capacity logs.old }
    ensures { RanTogether
        L.keeps
        (context_on table.order around.now)
        table
        lines.now
        workers.items
        cpus.old.items
        cpus.new.items
        logs.old.items
        logs.new.items
        result.items }
{
    run_workers(rt, &table, gate, around, lines, workers.as_mut_slice());
    let pass = join_workers(&table, workers, cpus, logs);
    table.close(pass).closing
}
