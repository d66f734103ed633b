//! The lines of a section on all stores, one store after the other: the page table, and then each
//! window. No reply can tell whether the lines of a processor on different stores overlap, since
//! stores share nothing.
ghost use Rattle.std.specs.Prelude.{◌≡◌, ◌+◌, ◌<◌, ◌≤◌, length, IfOk};
ghost use Rattle.trace_runner.specs.StoreRuns.{AreRunnable, RanOn, RanStores};
ghost use Rattle.trace_read.specs.Configuration.{most_processors};

use crate::dealt_stores::deal_stores;
use crate::gate::Gate;
use crate::log::RunLog;
use crate::machine::Machine;
use crate::store_workers::{StoreRun, run_store};
use run_model::{Surroundings, WINDOW_ORDER, WindowEntries};
use std::alloc::{AllocError, Global};
use std::sync::Wait;
use std::thread::Threads;
use trace_line::TraceLine;
use vcpu::empty_cpus;

/// Runs the lines on the page table, by its processors, and gives what these keep of the replies.
fn run_on_table<R: Threads + Wait + Sync, G: Gate + Sync, L: RunLog>(
    rt: &R,
    alloc: Global,
    machine: Machine,
    gate: &G,
    lines: &[TraceLine],
) -> Result<(Machine, Vec<L>), AllocError>
    requires runnable { AreRunnable (length machine.table.processors) lines.now }
    requires few { length machine.table.processors ≤ most_processors }
    ensures { IfOk result (λ ran. RanOn L.keeps machine 0 lines.now ran.0 ran.1.items) }
{
    let Machine {
        mut partition,
        cpus,
        windows,
    } = machine;
    let order = partition.order();
    let states = partition.take_states();
    let around = Surroundings {
        grants: partition.grants(),
        window: None,
    };
    let run = run_store::<R, G, L>(rt, alloc, states, order, cpus, gate, &around, lines)?;
    let StoreRun {
        states: closing,
        cpus: later,
        logs,
    } = run;
    partition.put_states(closing);
    Ok((
        Machine {
            partition,
            cpus: later,
            windows,
        },
        logs,
    ))
}

/// Runs the lines on the window at this index, by new processors: such lines use nothing of a
/// processor.
fn run_on_window<R: Threads + Wait + Sync, G: Gate + Sync, L: RunLog>(
    rt: &R,
    alloc: Global,
    machine: Machine,
    gate: &G,
    at: usize,
    lines: &[TraceLine],
) -> Result<(Machine, Vec<L>), AllocError>
    requires inside { at < length machine.windows }
    requires runnable { AreRunnable (length machine.table.processors) lines.now }
    requires few { length machine.table.processors ≤ most_processors }
    ensures { IfOk result (λ ran. RanOn L.keeps machine (at + 1) lines.now ran.0 ran.1.items) }
{
    let Machine {
        partition,
        cpus,
        mut windows,
    } = machine;
    let fresh = empty_cpus(alloc, cpus.len())?;
    // It is out while its lines run, and then stands where it was.
    let entries = windows.remove(at);
    let WindowEntries { window, states } = entries;
    let around = Surroundings {
        grants: partition.grants(),
        window: Some(window),
    };
    let run = run_store::<R, G, L>(rt, alloc, states, WINDOW_ORDER, fresh, gate, &around, lines)?;
    let StoreRun {
        states: closing,
        cpus: _,
        logs,
    } = run;
    let later = WindowEntries {
        window,
        states: closing,
    };
    windows.insert(at, later)?;
    Ok((
        Machine {
            partition,
            cpus,
            windows,
        },
        logs,
    ))
}

/// Runs the lines on the store of this number, and gives what the processors keep of the replies.
fn run_on_store<R: Threads + Wait + Sync, G: Gate + Sync, L: RunLog>(
    rt: &R,
    alloc: Global,
    machine: Machine,
    gate: &G,
    number: usize,
    lines: &[TraceLine],
) -> Result<(Machine, Vec<L>), AllocError>
    requires inside { number ≤ length machine.windows }
    requires runnable { AreRunnable (length machine.table.processors) lines.now }
    requires few { length machine.table.processors ≤ most_processors }
    ensures { IfOk result (λ ran. RanOn L.keeps machine number lines.now ran.0 ran.1.items) }
{
    if lines.is_empty() {
        return Ok((machine, Vec::new(alloc)));
    }
    if number == 0 {
        return run_on_table::<R, G, L>(rt, alloc, machine, gate, lines);
    }
    run_on_window::<R, G, L>(rt, alloc, machine, gate, number - 1, lines)
}

/// Runs the lines of a section, each on its store, and gives what is kept of the replies, by the
/// numbers of the stores.
pub fn run_stores<R: Threads + Wait + Sync, G: Gate + Sync, L: RunLog>(
    rt: &R,
    alloc: Global,
    machine: Machine,
    gate: &G,
    lines: &[TraceLine],
) -> Result<(Machine, Vec<Vec<L>>), AllocError>
    requires runnable { AreRunnable (length machine.table.processors) lines.now }
    requires few { length machine.table.processors ≤ most_processors }
    ensures { IfOk result (λ ran. RanStores L.keeps machine lines.now ran.0 ran.1.items) }
{
    let mut logs = Vec::with_capacity(alloc, machine.windows.len() + 1)?;
    if machine.windows.is_empty() {
        let (after, own) = run_on_table::<R, G, L>(rt, alloc, machine, gate, lines)?;
        logs.push(own)?;
        return Ok((after, logs));
    }
    let dealt = deal_stores(alloc, machine.windows.as_slice(), lines)?;
    let mut later = machine;
    for number in 0..dealt.len() {
        let own_lines = dealt[number].as_slice();
        let (after, own) = run_on_store::<R, G, L>(rt, alloc, later, gate, number, own_lines)?;
        later = after;
        logs.push(own)?;
    }
    Ok((later, logs))
}
