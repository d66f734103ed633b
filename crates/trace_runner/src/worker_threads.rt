//! The threads of a section: one for each processor that has a pass.
ghost use Rattle.std.specs.Prelude.{◌≡◌, ◌<◌, ◌≤◌, length, is_some};
ghost use Rattle.std.specs.List.{list_any};
ghost use Rattle.std.specs.Thread.{IsSync, IsSend};
ghost use Rattle.run_model.specs.StoreContexts.{context_on};
ghost use Rattle.run_model.specs.Quiet.{NoneQuiet};
ghost use Rattle.trace_runner.specs.Workers.{processors_before, AreDone, AreReady};
ghost use Rattle.trace_runner.specs.WorkerGroup.{IsReadyGroup, RunsGroup};
ghost use Rattle.trace_read.specs.Configuration.{most_processors};

use crate::gate::Gate;
use crate::log::ReplyLog;
use crate::worker::{Worker, work};
use entry_lock::LockTable;
use run_model::Surroundings;
use std::sync::Wait;
use std::thread::{Threads, join_mut};
use trace_line::TraceLine;

/// Runs the lines, each processor's in a thread of its own; a processor without lines gets none. It
/// takes no memory for replies or receipts.
pub fn run_workers<R: Threads + Wait + Sync, G: Gate + Sync, L: ReplyLog + Send>(
    rt: &R,
    table: &LockTable,
    gate: &G,
    around: &Surroundings,
    lines: &[TraceLine],
    workers: &mut [Worker<L>],
)
    requires none_quiet { NoneQuiet lines.now }
    requires some { 0 < length workers.old }
    requires few { length workers.old ≤ most_processors }
    requires ready { AreReady
        L.keeps
        L.room
        (context_on table.now.order around.now)
        table.now
        lines.now
        workers.old }
    ensures done { AreDone
        L.keeps
        (context_on table.now.order around.now)
        table.now
        lines.now
        workers.new }
    ensures before { processors_before workers.new ≡ processors_before workers.old }
{
    run_from(rt, table, gate, around, lines, 0, workers);
}

/// Runs the lines of these workers, of which the first has this number. Where only one half of them
/// has passes, that half runs in this thread, and the other stays as it is.
#[cycle(halves)]
fn run_from<R: Threads + Wait + Sync, G: Gate + Sync, L: ReplyLog + Send>(
    rt: &R,
    table: &LockTable,
    gate: &G,
    around: &Surroundings,
    lines: &[TraceLine],
    first: u32,
    workers: &mut [Worker<L>],
)
    requires none_quiet { NoneQuiet lines.now }
    requires ready { IsReadyGroup
        L.keeps
        L.room
        (context_on table.now.order around.now)
        table.now
        lines.now
        first
        workers.old }
    ensures { RunsGroup
        L.keeps
        (context_on table.now.order around.now)
        table.now
        lines.now
        first
        workers.old
        workers.new }
{
    if workers.len() == 1 {
        work(rt, table, gate, around, lines, first, &mut workers[0]);
        return;
    }
    let middle = workers.len() / 2;
    let second = first + middle as u32;
    let (front, back) = workers.split_at_mut(middle);
    if !any_has_pass(front) {
        run_from(rt, table, gate, around, lines, second, back);
    } else if !any_has_pass(back) {
        run_from(rt, table, gate, around, lines, first, front);
    } else {
        both_halves(rt, table, gate, around, lines, first, front, second, back);
    }
}

/// Runs the lines of both halves, of one in a thread of its own.
#[cycle(halves)]
fn both_halves<R: Threads + Wait + Sync, G: Gate + Sync, L: ReplyLog + Send>(
    rt: &R,
    table: &LockTable,
    gate: &G,
    around: &Surroundings,
    lines: &[TraceLine],
    first: u32,
    front: &mut [Worker<L>],
    second: u32,
    back: &mut [Worker<L>],
)
    requires none_quiet { NoneQuiet lines.now }
    requires front { IsReadyGroup
        L.keeps
        L.room
        (context_on table.now.order around.now)
        table.now
        lines.now
        first
        front.old }
    requires back { IsReadyGroup
        L.keeps
        L.room
        (context_on table.now.order around.now)
        table.now
        lines.now
        second
        back.old }
    ensures front { RunsGroup
        L.keeps
        (context_on table.now.order around.now)
        table.now
        lines.now
        first
        front.old
        front.new }
    ensures back { RunsGroup
        L.keeps
        (context_on table.now.order around.now)
        table.now
        lines.now
        second
        back.old
        back.new }
{
    let mut low = ||
        requires { IsSync R.row × IsSync G.row × IsSend L.row × NoneQuiet lines.now
            × IsReadyGroup
            L.keeps
            L.room
            (context_on table.now.order around.now)
            table.now
            lines.now
            first
            front.now }
        ensures { RunsGroup
            L.keeps
            (context_on table.entry.now.order around.entry.now)
            table.entry.now
            lines.entry.now
            first
            front.entry.now
            front.exit.now }
    { run_from(rt, table, gate, around, lines, first, front) };
    let mut high = ||
        requires { IsSync R.row × IsSync G.row × IsSend L.row × NoneQuiet lines.now
            × IsReadyGroup
            L.keeps
            L.room
            (context_on table.now.order around.now)
            table.now
            lines.now
            second
            back.now }
        ensures { RunsGroup
            L.keeps
            (context_on table.entry.now.order around.entry.now)
            table.entry.now
            lines.entry.now
            second
            back.entry.now
            back.exit.now }
    { run_from(rt, table, gate, around, lines, second, back) };
    join_mut(rt, &mut low, &mut high);
}

/// Whether one of the workers has a pass.
fn any_has_pass<L>(workers: &[Worker<L>]) -> bool
    ensures { result ≡ list_any (λ w. is_some w.pass) workers.now }
{
    workers.iter().any(|worker| worker.pass.is_some())
}
