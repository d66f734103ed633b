//! The lines of a section on one store.
ghost use Rattle.std.specs.Prelude.{◌≡◌, ◌≤◌, length, vec_len, IfOk};
ghost use Rattle.hpte_fields.specs.TableSize.{IsTableOrder, entry_count};
ghost use Rattle.run_model.specs.StoreContexts.{context_on};
ghost use Rattle.run_model.specs.HeldLines.{AllHold};
ghost use Rattle.trace_runner.specs.StoreRuns.{AreRunnable, RanStore};
ghost use Rattle.trace_read.specs.Configuration.{most_processors};

use crate::gate::Gate;
use crate::log::RunLog;
use crate::new_workers::open_section;
use crate::running_workers::run_together;
use entry_model::EntryState;
use run_model::Surroundings;
use std::alloc::{AllocError, Global};
use std::sync::Wait;
use std::thread::Threads;
use trace_line::TraceLine;
use vcpu::Cpu;

/// A store after the lines of a section: the states of its entries, the processors, and what they
/// keep of the replies. Where the store has no line there, it has no log.
#[derive(Drop)]
pub struct StoreRun<L> {
    /// The states of its entries, by index.
    pub states: Vec<EntryState>,
    /// The processors, in the order of their numbers.
    pub cpus: Vec<Cpu>,
    /// A log for each processor, in that order; none where no line is on the store.
    pub logs: Vec<L>,
}

/// Runs the lines on a store that has these states and 2^`order` bytes, in a thread for each
/// processor that has some.
pub fn run_store<R: Threads + Wait + Sync, G: Gate + Sync, L: RunLog>(
    rt: &R,
    alloc: Global,
    states: Vec<EntryState>,
    order: u8,
    mut cpus: Vec<Cpu>,
    gate: &G,
    around: &Surroundings,
    lines: &[TraceLine],
) -> Result<StoreRun<L>, AllocError>
    requires order { IsTableOrder order }
    requires whole { vec_len states ≡ entry_count order }
    requires runnable { AreRunnable (length cpus.items) lines.now }
    requires few { length cpus.items ≤ most_processors }
    requires hold { AllHold states.items cpus.items }
    ensures ran { IfOk
        result
        (λ r.
        RanStore
        L.keeps
        (context_on order around.now)
        states.items
        cpus.items
        lines.now
        r.states.items
        r.cpus.items
        r.logs.items) }
    ensures size { IfOk result (λ r. length r.states.items ≡ length states.items) }
    ensures cpus { IfOk result (λ r. length r.cpus.items ≡ length cpus.items) }
    ensures hold { IfOk result (λ r. AllHold r.states.items r.cpus.items) }
{
    if lines.is_empty() {
        return Ok(StoreRun {
            states,
            cpus,
            logs: Vec::new(alloc),
        });
    }
    let mut logs = Vec::with_capacity(alloc, cpus.len())?;
    let (table, workers) = open_section::<L>(alloc, states, order, &mut cpus, lines)?;
    let closing = run_together(
        rt, table, gate, around, lines, workers, &mut cpus, &mut logs,
    );
    Ok(StoreRun {
        states: closing,
        cpus,
        logs,
    })
}
