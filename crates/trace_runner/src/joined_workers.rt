//! The workers after a section: the lines on a store between two quiet ones.
ghost use Rattle.std.specs.Prelude.{◌≡◌, ◌+◌, ◌<◌, ◌≤◌, ◌++◌, length, map, vec_capacity, IfSome};
ghost use Rattle.std.specs.List.{AllByRecursion};
ghost use Rattle.entry_lock.specs.PassOfTable.{IsOf};
ghost use Rattle.trace_runner.specs.SectionRun.{pass_count, HasNoOtherPass, IsJoinOf, IsPairJoined};

use crate::log::RunLog;
use crate::worker::Worker;
use entry_lock::{LockTable, Pass};
use vcpu::Cpu;

/// Joins a pass and a further one, where there are both.
fn joined(table: &LockTable, one: Option<Pass>, other: Option<Pass>) -> Option<Pass>
    requires one { IfSome one (IsOf table.now) }
    requires other { IfSome other (IsOf table.now) }
    ensures { IsPairJoined table.now one other result }
{
    let Some(other) = other else {
        return one;
    };
    let Some(mut both) = one else {
        return Some(other);
    };
    both.join(table, other);
    Some(both)
}

/// Joins all passes in the order of processors, and takes the processors and their logs out. It
/// can't fail: there is room for them.
pub fn join_workers<L: RunLog>(
    table: &LockTable,
    workers: Vec<Worker<L>>,
    cpus: &mut Vec<Cpu>,
    logs: &mut Vec<L>,
) -> Pass
    requires some { 0 < pass_count workers.items }
    requires passes { AllByRecursion (HasNoOtherPass table.now) workers.items }
    requires room_for_cpus { length cpus.old.items + length workers.items
        ≤ vec_capacity cpus.old }
    requires room_for_logs { length logs.old.items + length workers.items
        ≤ vec_capacity logs.old }
    ensures all { IsJoinOf table.now workers.items result }
    ensures cpus { cpus.new.items ≡ cpus.old.items ++ map (λ w. w.cpu) workers.items }
    ensures logs { logs.new.items ≡ logs.old.items ++ map (λ w. w.log) workers.items }
{
    // The last one is taken without moving the others.
    let mut rest = workers;
    rest.reverse();
    let mut all = None;
    for _ in 0..rest.len() {
        let Worker {
            cpu,
            before: _,
            pass,
            own: _,
            log,
        } = rest.pop().unwrap();
        cpus.push_reserved(cpu);
        logs.push_reserved(log);
        all = joined(table, all, pass);
    }
    all.unwrap()
}
