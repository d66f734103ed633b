//! What a serial run carries from line to line: the partition, its processors and DMA windows, and
//! how a line changes them.
ghost use Rattle.std.specs.Prelude.{◌≡◌, ◌<◌, ◌≤◌, ◌+◌, ◌-◌, ◌^◌, length, true, false, Some, None, IfOk, OnOk};
ghost use Rattle.trace_line.specs.Lines.{is_quiet};
ghost use Rattle.run_model.specs.QuietLines.{run_quiet_line, run_resize, shown_of};
ghost use Rattle.run_model.specs.AllStores.{opening_all, windows_in};
ghost use Rattle.run_model.specs.SerialRun.{run_on};
ghost use Rattle.trace_runner.specs.MachineState.{RunsLine};
ghost use Rattle.trace_reply.specs.Slots.{reply_in};
ghost use Rattle.run_model.specs.StoreNumbers.{index_from};

use crate::act::run_alone;
use entry_model::HReply;
use papr_codes::{Hcall, Rc};
use papr_table::PlainTable;
use partition::Partition;
use run_model::{Surroundings, WindowEntries, open_windows, window_of};
use std::alloc::{AllocError, Global};
use std::marker::Model;
use trace_line::{Act, TraceLine};
use trace_read::Config;
use trace_reply::{Reply, ReplySlot, Shown};
use vcpu::{Cpu, clear_caches, empty_cpus};

/// A partition with its processors and its DMA windows, between two lines.
#[derive(Drop)]
pub struct Machine {
    /// Its page table, memory and grants.
    pub partition: Partition,
    /// Its processors, in the order of their numbers.
    pub cpus: Vec<Cpu>,
    /// Its DMA windows, in the order of the configuration.
    pub windows: Vec<WindowEntries>,
}

impl Model for Machine {
    ghost use Rattle.run_model.specs.AllStores.{AllStores, machine_stores};
    ghost use Rattle.trace_runner.specs.MachineState.{IsMachine};

    ghost Value = { AllStores };

    ghost view = { λ m.
        machine_stores m.partition.granted.grants m.partition.memory m.cpus.items m.windows.items };

    ghost invariant = { λ m. IsMachine m.partition m.cpus.items m.windows.items };
}

impl Machine {
    /// The machine of a configuration, before the first line.
    #[tactic(auto, unfolding(run_model::specs::Stores::page_table))]
    pub fn open(alloc: Global, config: &Config) -> Result<Machine, AllocError>
        ensures { IfOk result (λ machine. machine ≡ opening_all config.now) }
    {
        let partition = Partition::open(alloc, config)?;
        let cpus = empty_cpus(alloc, config.cpus as usize)?;
        let windows = open_windows(alloc, config.windows.as_slice())?;
        Ok(Machine {
            partition,
            cpus,
            windows,
        })
    }

    /// Runs a line: on the first window that it names, and on the page table where it names none.
    /// Its reply is put into the slot.
    pub fn line(
        &mut self,
        alloc: Global,
        line: &TraceLine,
        slot: &mut ReplySlot,
    ) -> Result<(), AllocError>
        requires cpu { line.now.cpu < length self.old.table.processors }
        requires number { self.old.table.memory.table.number < 2 ^ 32 - 1 }
        ensures reply { OnOk
            result
            (RunsLine self.old line.now (reply_in slot.new) self.new) }
        ensures number { OnOk
            result
            (self.new.table.memory.table.number ≤ self.old.table.memory.table.number + 1) }
        ensures cpus { OnOk
            result
            (length self.new.table.processors ≡ length self.old.table.processors) }
        ensures windows { OnOk result (windows_in self.new.windows ≡ windows_in self.old.windows) }
    {
        if line.act.is_quiet() {
            return self.quiet(alloc, &line.act, slot);
        }
        match window_of(self.windows.as_slice(), &line.act) {
            Some(at) => self.run_on_window(at, line, slot),
            None => self.run(line, slot),
        }
        Ok(())
    }

    /// The table, as a dump shows it.
    #[tactic(auto, unfolding(run_model::specs::QuietLines::shown_of))]
    pub fn shown(&self, alloc: Global) -> Result<Shown, AllocError>
        ensures named { self.now.table.window ≡ None }
        ensures shown { IfOk result (λ shown. shown ≡ shown_of self.now.table.memory) }
    {
        self.partition.shown(alloc)
    }

    // A line that isn't quiet and names no window, by its processor.
    #[tactic(auto, unfolding(run_model::specs::SerialRun::run_on))]
    fn run(&mut self, line: &TraceLine, slot: &mut ReplySlot)
        requires not_quiet { is_quiet line.now.act ≡ false }
        requires cpu { line.now.cpu < length self.old.table.processors }
        ensures reply { (reply_in slot.new, self.new.table) ≡ run_on self.old.table line.now }
        ensures number { self.new.table.memory.table.number ≡ self.old.table.memory.table.number }
        ensures cpus { length self.new.table.processors ≡ length self.old.table.processors }
        ensures windows { self.new.windows ≡ self.old.windows }
    {
        let order = self.partition.order();
        let mut table = PlainTable::open(self.partition.take_states(), order);
        let cpu = &mut self.cpus[line.cpu as usize];
        let around = Surroundings {
            grants: self.partition.grants(),
            window: None,
        };
        run_alone(&mut table, cpu, &around, &line.act, slot);
        self.partition.put_states(table.close());
    }

    // A line on the window at this index, the first that it names.
    fn run_on_window(&mut self, at: usize, line: &TraceLine, slot: &mut ReplySlot)
        requires first { index_from 0 self.old.windows line.now.act ≡ Some at }
        ensures reply { RunsLine self.old line.now (reply_in slot.new) self.new }
        ensures table { self.new.table ≡ self.old.table }
        ensures windows { windows_in self.new.windows ≡ windows_in self.old.windows }
    {
        self.windows[at].line(self.partition.grants(), &line.act, slot);
    }

    // A quiet line. These are rare, so other lines make no room for what this holds.
    #[inline(never)]
    #[tactic(auto, unfolding(run_model::specs::QuietLines::run_quiet_line, trace_line::specs::Lines::is_quiet))]
    fn quiet(&mut self, alloc: Global, act: &Act, slot: &mut ReplySlot) -> Result<(), AllocError>
        requires quiet { is_quiet act.now ≡ true }
        requires number { self.old.table.memory.table.number < 2 ^ 32 - 1 }
        ensures named { self.old.table.window ≡ None }
        ensures reply { OnOk result
            ((reply_in slot.new, self.new.table) ≡ run_quiet_line self.old.table act.now) }
        ensures number { OnOk
            result
            (self.new.table.memory.table.number ≤ self.old.table.memory.table.number + 1) }
        ensures cpus { OnOk
            result
            (length self.new.table.processors ≡ length self.old.table.processors) }
        ensures windows { OnOk result (self.new.windows ≡ self.old.windows) }
    {
        match *act {
            Act::Call { number, args, .. } => {
                let reply = self.resize(alloc, Hcall::of_number(number), &args)?;
                slot.put(Reply::Hcall(reply));
            }
            _ => slot.put(Reply::Dump(self.shown(alloc)?)),
        }
        Ok(())
    }

    // One of the two resize calls. A committed resize clears each processor's cache.
    #[tactic(auto, unfolding(run_model::specs::QuietLines::run_resize))]
    fn resize(&mut self, alloc: Global, hcall: Hcall, args: &[u64; 8]) -> Result<HReply, AllocError>
        requires number { self.old.table.memory.table.number < 2 ^ 32 - 1 }
        ensures named { self.old.table.window ≡ None }
        ensures reply { IfOk
            result
            (λ reply.
            (Reply.Hcall reply, self.new.table) ≡ run_resize self.old.table hcall args.now) }
        ensures number { OnOk
            result
            (self.new.table.memory.table.number ≤ self.old.table.memory.table.number + 1) }
        ensures cpus { OnOk
            result
            (length self.new.table.processors ≡ length self.old.table.processors) }
        ensures windows { OnOk result (self.new.windows ≡ self.old.windows) }
    {
        match hcall {
            Hcall::Prepare => self.partition.prepare(alloc, args[0], args[1]),
            Hcall::Commit => {
                let reply = self.partition.commit(args[0], args[1]);
                if matches!(reply.rc, Rc::Success) {
                    clear_caches(&mut self.cpus);
                }
                Ok(reply)
            }
            _ => Ok(HReply::without_receipts(Rc::Function)),
        }
    }
}
