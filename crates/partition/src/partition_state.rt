//! A partition's page table, pending table, pool and grants in one value, with the two resize calls
//! on it.
ghost use Rattle.std.specs.Prelude.{◌≡◌, ◌-◌, ◌^◌, ◌<◌, ◌≤◌, [], length, true, None, IfOk, OnOk, OnErr};
ghost use Rattle.hpt_pool.specs.Pool.{no_blocks};
ghost use Rattle.hpte_fields.specs.TableSize.{entry_count};
ghost use Rattle.hpt_resize.specs.Resize.{needs_table};
ghost use Rattle.hpt_resize.specs.TableMemory.{prepare_result, commit_result, with_states};
ghost use Rattle.trace_reply.specs.ShownTable.{table_shown};
ghost use Rattle.partition.specs.PartitionState.{HasStates, HasNoStates, IsPartition, CountsTables, opening_partition, with_memory, reply_of_code};

use crate::states::opening_states;
use entry_model::{EntryState, HReply};
use frame_grants::Grants;
use hpt_pool::Pool;
use hpt_resize::{Current, Resize};
use pool_range::PoolRange;
use std::alloc::{AllocError, Global};
use std::marker::Model;
use std::mem;
use trace_read::Config;
use trace_reply::Shown;

/// A partition: its page table, the table that is being prepared, the pool of table memory, and the
/// memory that is granted to the guest. The states of the table's entries may be taken out, for
/// processors to work on, and put back.
#[derive(Drop)]
pub struct Partition {
    limit: u8,
    grants: Grants,
    pool: Pool,
    resize: Resize,
    current: Current,
}

impl Model for Partition {
    ghost use Rattle.hpt_resize.specs.Resize.{table_of};
    ghost use Rattle.partition.specs.PartitionState.{PartitionState, IsPartition};

    ghost Value = { PartitionState };

    ghost view = { λ p.
        record {
          memory =
              record {
                limit = p.limit;
                pool = p.pool;
                pending = p.resize;
                table = table_of p.current;
              };
          granted = p.grants;
        } };

    ghost invariant = { λ p.
        IsPartition
        (record {
          memory =
              record {
                limit = p.limit;
                pool = p.pool;
                pending = p.resize;
                table = table_of p.current;
              };
          granted = p.grants;
        }) };
}

impl Partition {
    /// The partition of a configuration: the entries that it names are valid, all others are empty,
    /// and the table has the lowest place in the pool. The only error is want of memory.
    pub fn open(alloc: Global, config: &Config) -> Result<Partition, AllocError>
        ensures ok { IfOk result (λ partition. partition ≡ opening_partition config.now) }
        ensures has_states { IfOk result HasStates }
    {
        let grants = config.grants.copy();
        let range = PoolRange::accepted(config.pool_base, config.pool_order);
        let mut pool = Pool::within(alloc, range)?;
        let states = opening_states(alloc, config)?;
        let place = pool.take(config.order).unwrap();
        Ok(Partition {
            limit: config.limit,
            grants,
            pool,
            resize: Resize::none(),
            current: Current {
                order: config.order,
                place,
                number: 0,
                states,
            },
        })
    }

    /// The table has `2^order` bytes.
    pub fn order(&self) -> u8
        ensures value { result ≡ self.now.memory.table.order }
        ensures sound { IsPartition self.now }
    {
        self.current.order
    }

    /// How many tables there were before this one.
    pub fn table(&self) -> u32
        ensures { result ≡ self.now.memory.table.number }
    {
        self.current.number
    }

    /// The machine address at which the table begins.
    pub fn place(&self) -> u64
        ensures { result ≡ self.now.memory.table.place }
    {
        self.current.place
    }

    /// The table, as a dump shows it.
    pub fn shown(&self, alloc: Global) -> Result<Shown, AllocError>
        requires { HasStates self.now }
        ensures { IfOk
            result
            (λ shown.
            shown
            ≡ table_shown
            self.now.memory.table.number
            self.now.memory.table.order
            self.now.memory.table.place
            self.now.memory.table.states) }
    {
        Shown::of_table(
            alloc,
            self.current.number,
            self.current.order,
            self.current.place,
            self.current.states.as_slice(),
        )
    }

    pub fn grants(&self) -> &Grants
        ensures { result.now ≡ self.now.granted }
    {
        &self.grants
    }

    /// The states of the table's entries.
    pub fn states(&self) -> &[EntryState]
        requires { HasStates self.now }
        ensures { result.now ≡ self.now.memory.table.states }
    {
        self.current.states.as_slice()
    }

    /// Takes the states of the table's entries out.
    pub fn take_states(&mut self) -> Vec<EntryState>
        requires { HasStates self.old }
        ensures states { result.items ≡ self.old.memory.table.states }
        ensures out { self.new ≡ with_memory self.old (with_states self.old.memory []) }
    {
        let alloc = *self.current.states.allocator();
        mem::replace(&mut self.current.states, Vec::new(alloc))
    }

    /// Puts the states of the table's entries back.
    pub fn put_states(&mut self, states: Vec<EntryState>)
        requires out { HasNoStates self.old }
        requires whole { length states.items ≡ entry_count self.old.memory.table.order }
        ensures put { self.new ≡ with_memory self.old (with_states self.old.memory states.items) }
        ensures has_states { HasStates self.new }
    {
        self.current.states = states;
    }

    /// H_RESIZE_HPT_PREPARE: makes a table of `2^shift` bytes ready, a part at each call. Where
    /// memory ends, nothing changes.
    pub fn prepare(&mut self, alloc: Global, flags: u64, shift: u64) -> Result<HReply, AllocError>
        requires { HasStates self.old }
        ensures reply { IfOk
            result
            (λ reply. reply ≡ reply_of_code (prepare_result self.old.memory flags shift).0) }
        ensures after { OnOk
            result
            (self.new ≡ with_memory self.old (prepare_result self.old.memory flags shift).1) }
        ensures memory { OnErr
            result
            (needs_table self.old.memory.limit flags shift self.old.memory.pending ≡ true) }
        ensures same { OnErr result (self.new ≡ self.old) }
        ensures has_states { HasStates self.new }
        ensures sound { IsPartition self.new }
        ensures table { self.new.memory.table ≡ self.old.memory.table }
    {
        let rc = self
            .resize
            .prepare(alloc, &mut self.pool, self.limit, flags, shift)?;
        Ok(HReply::without_receipts(rc))
    }

    /// H_RESIZE_HPT_COMMIT: makes the table that was prepared the partition's own, with the bolted
    /// entries that have a page. It takes no memory.
    pub fn commit(&mut self, flags: u64, shift: u64) -> HReply
        requires has_states { HasStates self.old }
        requires number { self.old.memory.table.number < 2 ^ 32 - 1 }
        ensures reply { result ≡ reply_of_code (commit_result self.old.memory flags shift).0 }
        ensures after { self.new
            ≡ with_memory self.old (commit_result self.old.memory flags shift).1 }
        ensures has_states { HasStates self.new }
        ensures sound { IsPartition self.new }
        ensures number { CountsTables result.rc self.old self.new }
    {
        let answer = self
            .resize
            .commit(&mut self.pool, &mut self.current, flags, shift);
        HReply::without_receipts(answer.rc)
    }
}
