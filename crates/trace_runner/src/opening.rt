//! The beginning of every serial run: the machine of a trace's configuration, and what holds of the
//! replies to come.
ghost use Rattle.std.specs.Prelude.{◌≡◌, ◌<◌, length, IfOk};
ghost use Rattle.trace_line.specs.Lines.{AreOnProcessors};
ghost use Rattle.run_model.specs.AllStores.{opening_all};
ghost use Rattle.run_model.specs.SerialRun.{serial_replies, table_after};
ghost use Rattle.trace_runner.specs.MachineState.{replies_of, table_end};
ghost use Rattle.run_model.specs.GoodRun.{IsGoodRun};
ghost use Rattle.run_model.specs.Assurances.{Assures};
ghost use Rattle.run_model.specs.BusyCalls.{PutIsNotBusy};
ghost use Rattle.run_model.specs.EachReplied.{EachReplied};

use crate::machine::Machine;
use std::alloc::{AllocError, Global};
use trace_read::Trace;

/// The machine of a trace, before its first line. The serial run of each trace is a good run, in
/// which no H_PUT_TCE is answered H_BUSY.
pub fn open_machine(alloc: Global, trace: &Trace) -> Result<Machine, AllocError>
    ensures run_state { IfOk result (λ machine. machine ≡ opening_all trace.now.config) }
    ensures serial { IfOk
        result
        (λ machine. replies_of machine trace.now.lines ≡ serial_replies trace.now) }
    ensures table { IfOk
        result
        (λ machine.
        table_end machine trace.now.lines ≡ table_after trace.now.config trace.now.lines) }
    ensures cpus { IfOk
        result
        (λ machine. AreOnProcessors (length machine.table.processors) trace.now.lines) }
    ensures number { IfOk result (λ machine. machine.table.memory.table.number ≡ 0) }
    ensures good { IsGoodRun trace.now (serial_replies trace.now) }
    ensures assured { Assures trace.now (serial_replies trace.now) }
    ensures not_busy { EachReplied PutIsNotBusy trace.now (serial_replies trace.now) }
{
    trace.keeps_limits();
    let machine = Machine::open(alloc, &trace.config)?;
    Ok(machine)
}
