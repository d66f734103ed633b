//! One partition of a set: how it opens, and how its lines are run, quiet ones on the shared pool
//! and all others by one of its processors.
ghost use Rattle.std.specs.Prelude.{◌≡◌, ◌≢◌, ◌<◌, ◌-◌, ◌^◌, length, map, true, false, None, Contains, IfOk, OnOk, OnErr, if◌then◌else◌};
ghost use Rattle.hpt_pool.specs.Pool.{PoolState, block_at, lowest_place};
ghost use Rattle.hpt_resize.specs.Resize.{IsHeld};
ghost use Rattle.hpt_resize.specs.TableMemory.{prepare_result, commit_result};
ghost use Rattle.trace_line.specs.Lines.{is_quiet};
ghost use Rattle.trace_reply.specs.Slots.{reply_in};
ghost use Rattle.run_model.specs.QuietLines.{run_quiet_line, run_resize, after_prepare, after_commit, shown_of, is_success};
ghost use Rattle.tlb_model.specs.Processor.{without_cache};
ghost use Rattle.run_model.specs.SerialRun.{run_on};
ghost use Rattle.lpar_set.specs.OpeningTables.{with_opening};
ghost use Rattle.lpar_set.specs.SetRun.{with_pool, opening_member};

use crate::act::run_act;
use entry_model::HReply;
use frame_grants::Grants;
use hpt_pool::Pool;
use hpt_resize::{Current, Resize};
use papr_codes::{Hcall, Rc};
use papr_table::PlainTable;
use partition::opening_states;
use std::alloc::{AllocError, Global};
use std::marker::Model;
use std::mem;
use trace_line::{Act, TraceLine};
use trace_read::Config;
use trace_reply::{Reply, ReplySlot, Shown};
use vcpu::{Cpu, clear_caches, empty_cpus};

/// A partition of a set between two of its lines: all that it carries but the pool, in which the
/// blocks of its tables lie, and which each call is passed.
#[derive(Drop)]
pub struct Member {
    limit: u8,
    grants: Grants,
    resize: Resize,
    current: Current,
    cpus: Vec<Cpu>,
}

impl Model for Member {
    ghost use Rattle.hpt_resize.specs.Resize.{table_of};
    ghost use Rattle.lpar_set.specs.SetRun.{MemberState};
    ghost use Rattle.lpar_set.specs.BetweenLines.{IsBetweenLines};

    ghost Value = { MemberState };

    ghost view = { λ m.
        record {
          grants = m.grants.grants;
          limit = m.limit;
          pending = m.resize;
          table = table_of m.current;
          processors = m.cpus.items;
        } };

    ghost invariant = { λ m.
        IsBetweenLines
        (record {
          grants = m.grants.grants;
          limit = m.limit;
          pending = m.resize;
          table = table_of m.current;
          processors = m.cpus.items;
        }) };
}

impl Member {
    /// The partition of a configuration, before its first line. Its table takes the lowest place in
    /// the pool. The only error is want of memory; then the pool stays.
    pub fn open(alloc: Global, pool: &mut Pool, config: &Config) -> Result<Member, AllocError>
        requires room { lowest_place pool.old config.now.order ≢ None }
        ensures ok { IfOk result (λ member. member ≡ opening_member pool.old config.now) }
        ensures pool { OnOk result (pool.new ≡ with_opening pool.old config.now.order) }
        ensures same_pool { OnErr result (pool.new ≡ pool.old) }
    {
        let states = opening_states(alloc, config)?;
        let cpus = empty_cpus(alloc, config.cpus as usize)?;
        let place = pool.take(config.order).unwrap();
        Ok(Member {
            limit: config.limit,
            grants: config.grants.copy(),
            resize: Resize::none(),
            current: Current {
                order: config.order,
                place,
                number: 0,
                states,
            },
            cpus,
        })
    }

    /// Runs a line. Its reply is put into the slot. Where memory ends, which it can at quiet lines
    /// alone, the partition and the pool stay.
    #[tactic(auto, unfolding(run_model::specs::SerialRun::run_on))]
    pub fn line(
        &mut self,
        alloc: Global,
        pool: &mut Pool,
        line: &TraceLine,
        slot: &mut ReplySlot,
    ) -> Result<(), AllocError>
        requires cpu { line.now.cpu < length self.old.processors }
        requires number { self.old.table.number < 2 ^ 32 - 1 }
        requires pending { IsHeld self.old.pending pool.old }
        requires taken { Contains
            pool.old.taken
            (block_at self.old.table.place self.old.table.order) }
        ensures reply { OnOk
            result
            ((reply_in slot.new, with_pool pool.new self.new)
            ≡ run_on (with_pool pool.old self.old) line.now) }
        ensures memory { OnErr result (is_quiet line.now.act ≡ true) }
        ensures same { OnErr result (self.new ≡ self.old) }
        ensures same_pool { OnErr result (pool.new ≡ pool.old) }
    {
        if line.act.is_quiet() {
            self.quiet(alloc, pool, &line.act, slot)
        } else {
            self.run(pool, line, slot);
            Ok(())
        }
    }

    // A line that isn't quiet, by its processor. It leaves the pool.
    #[tactic(auto, unfolding(run_model::specs::SerialRun::run_on))]
    fn run(&mut self, pool: &Pool, line: &TraceLine, slot: &mut ReplySlot)
        requires not_quiet { is_quiet line.now.act ≡ false }
        requires cpu { line.now.cpu < length self.old.processors }
        ensures reply { (reply_in slot.new, with_pool pool.now self.new)
            ≡ run_on (with_pool pool.now self.old) line.now }
    {
        let order = self.current.order;
        let alloc = *self.current.states.allocator();
        let states = mem::replace(&mut self.current.states, Vec::new(alloc));
        let mut table = PlainTable::open(states, order);
        let cpu = &mut self.cpus[line.cpu as usize];
        run_act(&mut table, cpu, &self.grants, &line.act, slot);
        self.current.states = table.close();
    }

    // Runs a quiet line on the partition's own table and the shared pool.
    #[inline(never)]
    #[tactic(auto, unfolding(run_model::specs::QuietLines::run_quiet_line, trace_line::specs::Lines::is_quiet))]
    fn quiet(
        &mut self,
        alloc: Global,
        pool: &mut Pool,
        act: &Act,
        slot: &mut ReplySlot,
    ) -> Result<(), AllocError>
        requires quiet { is_quiet act.now ≡ true }
        requires number { self.old.table.number < 2 ^ 32 - 1 }
        requires pending { IsHeld self.old.pending pool.old }
        requires taken { Contains
            pool.old.taken
            (block_at self.old.table.place self.old.table.order) }
        ensures reply { OnOk
            result
            ((reply_in slot.new, with_pool pool.new self.new)
            ≡ run_quiet_line (with_pool pool.old self.old) act.now) }
        ensures same { OnErr result (self.new ≡ self.old) }
        ensures same_pool { OnErr result (pool.new ≡ pool.old) }
    {
        match *act {
            Act::Call { number, args, .. } => {
                let reply = self.resize(alloc, pool, Hcall::of_number(number), &args)?;
                slot.put(Reply::Hcall(reply));
            }
            _ => slot.put(Reply::Dump(self.shown(alloc)?)),
        }
        Ok(())
    }

    // The table, as a dump shows it, whatever the pool.
    #[tactic(auto, unfolding(run_model::specs::QuietLines::shown_of))]
    fn shown(&self, alloc: Global) -> Result<Shown, AllocError>
        ensures { IfOk
            result
            (λ shown. (pool : PoolState) → shown ≡ shown_of (with_pool pool self.now).memory) }
    {
        Shown::of_table(
            alloc,
            self.current.number,
            self.current.order,
            self.current.place,
            self.current.states.as_slice(),
        )
    }

    // One of the two resize calls.
    #[tactic(auto, unfolding(run_model::specs::QuietLines::run_resize))]
    fn resize(
        &mut self,
        alloc: Global,
        pool: &mut Pool,
        hcall: Hcall,
        args: &[u64; 8],
    ) -> Result<HReply, AllocError>
        requires number { self.old.table.number < 2 ^ 32 - 1 }
        requires pending { IsHeld self.old.pending pool.old }
        requires taken { Contains
            pool.old.taken
            (block_at self.old.table.place self.old.table.order) }
        ensures reply { IfOk
            result
            (λ reply.
            (Reply.Hcall reply, with_pool pool.new self.new)
            ≡ run_resize (with_pool pool.old self.old) hcall args.now) }
        ensures same { OnErr result (self.new ≡ self.old) }
        ensures same_pool { OnErr result (pool.new ≡ pool.old) }
    {
        match hcall {
            Hcall::Prepare => self.prepare(alloc, pool, args[0], args[1]),
            Hcall::Commit => Ok(self.commit(pool, args[0], args[1])),
            _ => Ok(HReply::without_receipts(Rc::Function)),
        }
    }

    // Answers H_RESIZE_HPT_PREPARE from the shared pool.
    fn prepare(
        &mut self,
        alloc: Global,
        pool: &mut Pool,
        flags: u64,
        shift: u64,
    ) -> Result<HReply, AllocError>
        requires pending { IsHeld self.old.pending pool.old }
        ensures reply { IfOk
            result
            (λ reply.
            (Reply.Hcall reply, with_pool pool.new self.new)
            ≡ after_prepare
            (with_pool pool.old self.old)
            (prepare_result (with_pool pool.old self.old).memory flags shift)) }
        ensures same { OnErr result (self.new ≡ self.old) }
        ensures same_pool { OnErr result (pool.new ≡ pool.old) }
    {
        let rc = self.resize.prepare(alloc, pool, self.limit, flags, shift)?;
        Ok(HReply::without_receipts(rc))
    }

    // H_RESIZE_HPT_COMMIT. A committed resize clears each processor's cache.
    fn commit(&mut self, pool: &mut Pool, flags: u64, shift: u64) -> HReply
        requires number { self.old.table.number < 2 ^ 32 - 1 }
        requires pending { IsHeld self.old.pending pool.old }
        requires taken { Contains
            pool.old.taken
            (block_at self.old.table.place self.old.table.order) }
        ensures reply { (Reply.Hcall result, with_pool pool.new self.new)
            ≡ after_commit
            (with_pool pool.old self.old)
            (commit_result (with_pool pool.old self.old).memory flags shift) }
    {
        let answer = self.resize.commit(pool, &mut self.current, flags, shift);
        clear_after(&mut self.cpus, answer.rc);
        HReply::without_receipts(answer.rc)
    }
}

/// Clears the cache of each processor after a commit that was answered so, if it succeeded.
fn clear_after(cpus: &mut Vec<Cpu>, rc: Rc)
    ensures { cpus.new.items
        ≡ (if is_success rc then map without_cache cpus.old.items else cpus.old.items) }
{
    if matches!(rc, Rc::Success) {
        clear_caches(cpus);
    }
}
