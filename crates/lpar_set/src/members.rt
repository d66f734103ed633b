//! All partitions of a set in one state: they open one after the other in the shared pool, and a
//! line is run on the partition that it names.
ghost use Rattle.std.specs.Prelude.{◌≡◌, ◌<◌, ◌-◌, ◌^◌, true, length, map, IfOk, OnOk, OnErr};
ghost use Rattle.trace_line.specs.Lines.{is_quiet};
ghost use Rattle.trace_reply.specs.Slots.{reply_in};
ghost use Rattle.lpar_set.specs.OpeningTables.{HasRoomFor};
ghost use Rattle.lpar_set.specs.SetTrace.{NumberedTrace};
ghost use Rattle.lpar_set.specs.SetRun.{opening_pool, opening_members, opening_set, member_at, set_line};

use crate::member::Member;
use crate::set::{SetPartition, SetTrace};
use hpt_pool::Pool;
use std::alloc::{AllocError, Global};
use std::marker::Model;
use trace_line::TraceLine;
use trace_reply::ReplySlot;

/// The partitions of a set between two lines, in the order of their `begin` lines, and the pool
/// that they share.
#[derive(Drop)]
pub struct Members {
    pool: Pool,
    members: Vec<Member>,
}

impl Model for Members {
    ghost use Rattle.lpar_set.specs.SetRun.{SetState};
    ghost use Rattle.lpar_set.specs.SetStates.{IsSetState};

    ghost Value = { SetState };

    ghost view = { λ m. record { pool = m.pool; members = m.members.items } };

    ghost invariant = { λ m. IsSetState (record { pool = m.pool; members = m.members.items }) };
}

/// The partitions before their first lines. Their tables take their places one after the other.
fn open_members(
    alloc: Global,
    pool: &mut Pool,
    partitions: &[SetPartition],
) -> Result<Vec<Member>, AllocError>
    requires room { HasRoomFor
        pool.old
        (map (λ (p : NumberedTrace). p.trace.config.order) partitions.now) }
    ensures members { IfOk
        result
        (λ members. members.items ≡ opening_members pool.old partitions.now) }
    ensures pool { OnOk result (pool.new ≡ opening_pool pool.old partitions.now) }
{
    let mut members = Vec::with_capacity(alloc, partitions.len())?;
    for partition in partitions {
        let member = Member::open(alloc, pool, &partition.trace.config)?;
        members.push(member)?;
    }
    Ok(members)
}

impl Members {
    /// The partitions of a set, before its first run line. The only error is want of memory.
    pub fn open(alloc: Global, set: &SetTrace) -> Result<Members, AllocError>
        ensures { IfOk result (λ members. members ≡ opening_set set.now) }
    {
        set.keeps_limits();
        let mut pool = Pool::within(alloc, set.pool())?;
        let members = open_members(alloc, &mut pool, set.partitions())?;
        Ok(Members { pool, members })
    }

    /// Runs a line of the partition that is so far in the order of `begin` lines, counted from 0.
    /// Its reply is put into the slot. Where memory ends, which it can at quiet lines alone, all
    /// partitions and the pool stay.
    pub fn line(
        &mut self,
        alloc: Global,
        partition: u8,
        line: &TraceLine,
        slot: &mut ReplySlot,
    ) -> Result<(), AllocError>
        requires partition { partition < length self.old.members }
        requires cpu { line.now.cpu < length (member_at self.old partition).processors }
        requires number { (member_at self.old partition).table.number < 2 ^ 32 - 1 }
        ensures reply { OnOk
            result
            ((reply_in slot.new, self.new) ≡ set_line self.old partition line.now) }
        ensures memory { OnErr result (is_quiet line.now.act ≡ true) }
        ensures same { OnErr result (self.new ≡ self.old) }
    {
        self.members[partition as usize].line(alloc, &mut self.pool, line, slot)
    }
}
