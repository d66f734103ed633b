//! A run as the judge makes it again, section by section: the partition, its processors and its DMA
//! windows.
ghost use Rattle.std.specs.Prelude.{◌≡◌, ◌≤◌, ◌<◌, ◌+◌, ◌-◌, ◌^◌, ℕ, List, true, length, drop, IfOk, IfSome, IfNone, OnOk};
ghost use Rattle.partition.specs.PartitionState.{HasStates};
ghost use Rattle.tlb_model.specs.Processor.{Processor};
ghost use Rattle.trace_line.specs.Lines.{is_quiet, most_lines, AreOnProcessors};
ghost use Rattle.trace_reply.specs.declared.reply.Reply.{Reply};
ghost use Rattle.trace_reply.specs.Replies.{lines_with_replies};
ghost use Rattle.run_model.specs.QuietLines.{shown_of};
ghost use Rattle.run_model.specs.AllStores.{opening_all, table_store};
ghost use Rattle.run_model.specs.StoreNumbers.{store_at};
ghost use Rattle.run_model.specs.Stores.{window_store};
ghost use Rattle.run_model.specs.Quiet.{NoneQuiet};
ghost use Rattle.history_check.specs.FoundSection.{HasNoSection, TellsSection, opening_of};
ghost use Rattle.history_check.specs.FoundStores.{AreFound, run_quiet_on, stores_behind};
ghost use Rattle.history_check.specs.JudgedRun.{resize_on};
ghost use Rattle.history_check.specs.StoreParts.{LeavesStore, FoundOn};

use crate::context::Context;
use crate::parting::{deal_parts, replies_end};
use crate::section::section_found;
use entry_model::HReply;
use frame_grants::Grants;
use papr_codes::{Hcall, Rc};
use partition::Partition;
use run_model::{WINDOW_ORDER, WindowEntries, open_windows};
use std::alloc::{AllocError, Global};
use std::marker::Model;
use trace_line::{Act, TraceLine};
use trace_read::Config;
use trace_reply::{Reply, Shown};
use vcpu::{Cpu, clear_caches, empty_cpus};

/// What a run carries between two sections, as its replies show it.
#[derive(Drop)]
pub struct JudgedRun {
    partition: Partition,
    processors: Vec<Cpu>,
    windows: Vec<WindowEntries>,
}

impl Model for JudgedRun {
    ghost use Rattle.partition.specs.PartitionState.{HasStates};
    ghost use Rattle.run_model.specs.AllStores.{AllStores, machine_stores, windows_in};
    ghost use Rattle.trace_read.specs.Configuration.{NumbersDiffer};

    ghost Value = { AllStores };

    ghost view = { λ r.
        machine_stores r.partition.granted.grants r.partition.memory
        r.processors.items r.windows.items };

    ghost invariant = { λ r.
        HasStates r.partition × NumbersDiffer (windows_in r.windows.items) };
}

/// Finds a section of the page table: how many bytes at the start are the text of good replies to
/// these lines. `None` where there are no such replies; then nothing is said of the table.
fn table_found(
    alloc: Global,
    partition: &mut Partition,
    processors: &mut Vec<Cpu>,
    lines: &[TraceLine],
    text: &[u8],
) -> Result<Option<usize>, AllocError>
    requires has_states { HasStates partition.old }
    requires plain { NoneQuiet lines.now }
    requires cpus { AreOnProcessors (length processors.old.items) lines.now }
    requires few { length lines.now ≤ most_lines }
    ensures within { IfOk result (λ found. IfSome found (λ count. count ≤ length text.now)) }
    ensures some { IfOk
        result
        (λ found.
        IfSome
        found
        (λ count.
        LeavesStore
        (table_store partition.old.granted.grants partition.old.memory processors.old.items)
        (table_store partition.new.granted.grants partition.new.memory processors.new.items)
        lines.now
        text.now
        count)) }
    ensures none { IfOk
        result
        (λ found.
        IfNone
        found
        (HasNoSection
        (opening_of
        (table_store partition.old.granted.grants partition.old.memory processors.old.items))
        lines.now
        text.now)) }
    ensures has_states { HasStates partition.new }
{
    let order = partition.order();
    let mut states = partition.take_states();
    let context = Context {
        order,
        grants: partition.grants(),
        window: None,
    };
    let found = section_found(alloc, &context, &mut states, processors, lines, text);
    partition.put_states(states);
    found
}

/// Finds a section of a window, as of the page table; so many new processors run it.
fn window_found(
    alloc: Global,
    grants: &Grants,
    cpus: usize,
    entries: &mut WindowEntries,
    lines: &[TraceLine],
    text: &[u8],
) -> Result<Option<usize>, AllocError>
    requires plain { NoneQuiet lines.now }
    requires cpus { AreOnProcessors cpus lines.now }
    requires few { length lines.now ≤ most_lines }
    ensures told { IfOk
        result
        (λ found.
        (later : List Processor)
        × TellsSection
        (opening_of
        (window_store grants.now.grants cpus entries.old.states entries.old.window))
        lines.now
        text.now
        found
        entries.new.states
        later) }
    ensures window { entries.new.window ≡ entries.old.window }
{
    let mut processors = empty_cpus(alloc, cpus)?;
    let context = Context {
        order: WINDOW_ORDER,
        grants,
        window: Some(entries.window),
    };
    section_found(
        alloc,
        &context,
        &mut entries.states,
        &mut processors,
        lines,
        text,
    )
}

impl JudgedRun {
    /// Before the first line of a trace of this configuration.
    #[tactic(auto, unfolding(run_model::specs::Stores::page_table))]
    pub fn open(alloc: Global, config: &Config) -> Result<JudgedRun, AllocError>
        ensures { IfOk result (λ run. run ≡ opening_all config.now) }
    {
        let partition = Partition::open(alloc, config)?;
        let processors = empty_cpus(alloc, config.cpus as usize)?;
        let windows = open_windows(alloc, config.windows.as_slice())?;
        Ok(JudgedRun {
            partition,
            processors,
            windows,
        })
    }

    /// Finds a section: how many bytes at the start are the text of good replies to these lines.
    /// `None` where there are no such replies; then nothing is said of the run.
    pub fn section(
        &mut self,
        alloc: Global,
        lines: &[TraceLine],
        text: &[u8],
    ) -> Result<Option<usize>, AllocError>
        requires plain { NoneQuiet lines.now }
        requires cpus { AreOnProcessors (length self.old.table.processors) lines.now }
        requires few { length lines.now ≤ most_lines }
        ensures within { IfOk result (λ found. IfSome found (λ count. count ≤ length text.now)) }
        ensures some { IfOk
            result
            (λ found.
            IfSome
            found
            (λ count.
            (rs : List Reply)
            × AreFound self.old lines.now text.now rs (drop count text.now)
            × (self.new ≡ stores_behind self.old (lines_with_replies lines.now rs)))) }
        ensures none { IfOk
            result
            (λ found.
            IfNone
            found
            ((rs : List Reply) (rest : List ℕ)
            → AreFound self.old lines.now text.now rs rest
            → ⊥)) }
    {
        if self.windows.is_empty() {
            return self.found_on(alloc, 0, lines, text);
        }
        let parts = deal_parts(alloc, self.windows.as_slice(), lines, text)?;
        for number in 0..parts.len() {
            let part = &parts[number];
            let own = part.lines.as_slice();
            let found = self.found_on(alloc, number, own, part.text.as_slice())?;
            if found.is_none() {
                return Ok(None);
            }
        }
        Ok(Some(replies_end(text, lines.len())))
    }

    // Finds a section of the store of this number: how many bytes at the start are the text of good
    // replies to these lines. `None` where there are no such replies; then nothing is said of the
    // run.
    fn found_on(
        &mut self,
        alloc: Global,
        number: usize,
        lines: &[TraceLine],
        text: &[u8],
    ) -> Result<Option<usize>, AllocError>
        requires inside { number ≤ length self.old.windows }
        requires plain { NoneQuiet lines.now }
        requires cpus { AreOnProcessors (length self.old.table.processors) lines.now }
        requires few { length lines.now ≤ most_lines }
        ensures within { IfOk result (λ found. IfSome found (λ count. count ≤ length text.now)) }
        ensures some { IfOk
            result
            (λ found.
            IfSome found
            (λ count. FoundOn self.old number lines.now text.now count self.new)) }
        ensures none { IfOk
            result
            (λ found.
            IfNone found
            (HasNoSection (opening_of (store_at self.old number)) lines.now text.now)) }
    {
        if lines.is_empty() {
            return Ok(Some(0));
        }
        if number == 0 {
            let found = table_found(
                alloc,
                &mut self.partition,
                &mut self.processors,
                lines,
                text,
            )?;
            return Ok(found);
        }
        let grants = self.partition.grants();
        let cpus = self.processors.len();
        let entries = &mut self.windows[number - 1];
        let found = window_found(alloc, grants, cpus, entries, lines, text)?;
        Ok(found)
    }

    /// The reply to a quiet line, as the run gives it.
    #[tactic(auto, unfolding(run_model::specs::QuietLines::run_quiet_line, trace_line::specs::Lines::is_quiet))]
    pub fn quiet(&mut self, alloc: Global, act: &Act) -> Result<Reply, AllocError>
        requires quiet { is_quiet act.now ≡ true }
        requires number { self.old.table.memory.table.number < 2 ^ 32 - 1 }
        ensures reply { IfOk
            result
            (λ reply. (reply, self.new) ≡ run_quiet_on self.old act.now) }
        ensures number { OnOk
            result
            (self.new.table.memory.table.number ≤ self.old.table.memory.table.number + 1) }
    {
        match *act {
            Act::Call { number, args, .. } => {
                let reply = self.resize(alloc, Hcall::of_number(number), &args)?;
                Ok(Reply::Hcall(reply))
            }
            _ => Ok(Reply::Dump(self.shown(alloc)?)),
        }
    }

    // The table, as a dump shows it.
    #[tactic(auto, unfolding(run_model::specs::QuietLines::shown_of))]
    fn shown(&self, alloc: Global) -> Result<Shown, AllocError>
        ensures { IfOk result (λ shown. shown ≡ shown_of self.now.table.memory) }
    {
        self.partition.shown(alloc)
    }

    // One of the two resize calls. A committed resize clears each processor's cache.
    #[tactic(auto, unfolding(run_model::specs::QuietLines::run_resize))]
    fn resize(&mut self, alloc: Global, hcall: Hcall, args: &[u64; 8]) -> Result<HReply, AllocError>
        requires number { self.old.table.memory.table.number < 2 ^ 32 - 1 }
        ensures reply { IfOk
            result
            (λ reply. (Reply.Hcall reply, self.new) ≡ resize_on self.old hcall args.now) }
        ensures number { OnOk
            result
            (self.new.table.memory.table.number ≤ self.old.table.memory.table.number + 1) }
    {
        match hcall {
            Hcall::Prepare => self.partition.prepare(alloc, args[0], args[1]),
            Hcall::Commit => {
                let reply = self.partition.commit(args[0], args[1]);
                if matches!(reply.rc, Rc::Success) {
                    clear_caches(&mut self.processors);
                }
                Ok(reply)
            }
            _ => Ok(HReply::without_receipts(Rc::Function)),
        }
    }
}
