//! H_RESIZE_HPT_PREPARE and H_RESIZE_HPT_COMMIT, on the pending table, the pool of table memory and
//! the current table.
ghost use Rattle.std.specs.Prelude.{◌≡◌, ◌≢◌, ◌+◌, ◌-◌, ◌^◌, ◌<◌, ◌≤◌, length, Contains, MatchOption, Some, None, true, false, IfOk, OnOk, OnErr, MatchResult, replicate, if◌then◌else◌, vec_capacity};
ghost use Rattle.std.specs.Option.{ForSome};
ghost use Rattle.hpt_pool.specs.Pool.{block_at};
ghost use Rattle.entry_model.specs.State.{empty_state};
ghost use Rattle.hpte_fields.specs.TableSize.{IsTableOrder, entry_count};
ghost use Rattle.hpt_resize.specs.Pending.{PendingTable, is_ready, with_more_ready};
ghost use Rattle.hpt_resize.specs.Resize.{IsHeld, IsElsewhere, IsTable, prepare_outcome, is_prepare_request, is_commit_request, pool_without, is_pending, needs_table, start_outcome, outcome_of_prepare, table_of, commit_refusal, pending_refusal, complete_outcome, outcome_of_commit, commit_outcome, KeepsBlocks};

use crate::carry::rehash;
use crate::current::{CommitAnswer, Current};
use crate::pending::Pending;
use hpt_pool::Pool;
use hpte_fields::{entry_count, is_architected_order};
use papr_codes::Rc;
use std::alloc::{AllocError, Global};
use std::marker::Model;

/// The table that is being prepared, if there is one.
#[derive(Drop)]
pub struct Resize {
    pending: Option<Pending>,
}

impl Model for Resize {
    ghost use Rattle.std.specs.Prelude.{Option};
    ghost use Rattle.hpt_resize.specs.Pending.{PendingTable};

    ghost Value = { Option PendingTable };

    ghost view = { λ r. r.pending };
}

impl Resize {
    /// Nothing is pending.
    pub fn none() -> Resize
        ensures { result ≡ None }
    {
        Resize { pending: None }
    }

    /// H_RESIZE_HPT_PREPARE: makes a table of `2^shift` bytes ready, a part at each call. `limit`
    /// is the highest order that the guest may ask for. Where memory ends, nothing changes.
    #[tactic(auto, unfolding(crate::specs::Resize::outcome_of_prepare))]
    pub fn prepare(
        &mut self,
        alloc: Global,
        pool: &mut Pool,
        limit: u8,
        flags: u64,
        shift: u64,
    ) -> Result<Rc, AllocError>
        requires limit { IsTableOrder limit }
        requires held { IsHeld self.old pool.old }
        ensures ok { IfOk
            result
            (λ rc.
            prepare_outcome rc self.new pool.new
            ≡ outcome_of_prepare limit flags shift self.old pool.old) }
        ensures memory { OnErr result (needs_table limit flags shift self.old ≡ true) }
        ensures same_pending { OnErr result (self.new ≡ self.old) }
        ensures same_pool { OnErr result (pool.new ≡ pool.old) }
        ensures held { IsHeld self.new pool.new }
        ensures kept { KeepsBlocks self.old pool.old self.new pool.new }
    {
        if !is_prepare_request(flags, shift) {
            return Ok(Rc::Parameter);
        }
        if shift > u64::from(limit) {
            return Ok(Rc::Resource);
        }
        if shift == 0 {
            self.drop_pending(pool);
            return Ok(Rc::Success);
        }
        let rc = self.start(alloc, pool, shift as u8)?;
        Ok(self.advance(rc))
    }

    /// H_RESIZE_HPT_COMMIT: makes the pending table of `2^shift` bytes the guest's own, with the
    /// bolted entries that have a page. It takes no memory.
    #[tactic(auto, unfolding(crate::specs::Resize::outcome_of_commit))]
    pub fn commit(
        &mut self,
        pool: &mut Pool,
        current: &mut Current,
        flags: u64,
        shift: u64,
    ) -> CommitAnswer
        requires table { IsTable current.old }
        requires number { current.old.number < 2 ^ 32 - 1 }
        requires held { IsHeld self.old pool.old }
        requires taken { Contains pool.old.taken (block_at current.old.place current.old.order) }
        ensures done { commit_outcome result self.new pool.new (table_of current.new)
            ≡ outcome_of_commit flags shift self.old pool.old (table_of current.old) }
        ensures table { IsTable current.new }
        ensures held { IsHeld self.new pool.new }
        ensures taken { IsElsewhere self.old (block_at current.old.place current.old.order)
            → Contains pool.new.taken (block_at current.new.place current.new.order) }
        // A new table takes no more memory than its entries need.
        ensures room { result.rc ≡ Rc.Success
            → vec_capacity current.new.states ≡ entry_count current.new.order }
    {
        if let Err(rc) = self.check(flags, shift) {
            return CommitAnswer::of(rc);
        }
        match self.pending.take() {
            Some(pending) => complete(pending, pool, current),
            None => CommitAnswer::of(Rc::Closed),
        }
    }

    // Why there is no table to commit.
    fn check(&self, flags: u64, shift: u64) -> Result<(), Rc>
        ensures refused { MatchResult
            result
            (λ _. commit_refusal flags shift self.now ≡ None)
            (λ rc. commit_refusal flags shift self.now ≡ Some rc) }
        ensures ready { OnOk result (ForSome self.now
            (λ table. table.ready ≡ entry_count table.order)) }
    {
        if flags != 0 || !is_architected_order(shift) {
            return Err(Rc::Parameter);
        }
        let Some(pending) = &self.pending else {
            return Err(Rc::Closed);
        };
        if u64::from(pending.order()) != shift {
            return Err(Rc::Closed);
        }
        if !pending.is_ready() {
            return Err(Rc::Busy);
        }
        Ok(())
    }

    // Sees that a table of `2^order` bytes is pending, or says that there is no block for one.
    fn start(&mut self, alloc: Global, pool: &mut Pool, order: u8) -> Result<Rc, AllocError>
        requires order { IsTableOrder order }
        requires held { IsHeld self.old pool.old }
        ensures ok { IfOk
            result
            (λ rc. prepare_outcome rc self.new pool.new ≡ start_outcome order self.old pool.old) }
        ensures memory { OnErr result (is_pending order self.old ≡ false) }
        ensures same_pending { OnErr result (self.new ≡ self.old) }
        ensures same_pool { OnErr result (pool.new ≡ pool.old) }
    {
        if self.is_pending(order) {
            return Ok(Rc::Success);
        }
        // Memory comes first: where there is none, the pending table must still be there.
        let states = Vec::with_capacity(alloc, entry_count(order) as usize)?;
        self.drop_pending(pool);
        let Some(place) = pool.take(order) else {
            return Ok(Rc::NoMem);
        };
        self.pending = Some(Pending::new(order, place, states));
        Ok(Rc::Success)
    }

    fn is_pending(&self, order: u8) -> bool
        ensures { result ≡ is_pending order self.now }
    {
        match &self.pending {
            Some(pending) => pending.order() == order,
            None => false,
        }
    }

    // Drops the pending table, and gives its block back.
    fn drop_pending(&mut self, pool: &mut Pool)
        requires { IsHeld self.old pool.old }
        ensures pending { self.new ≡ None }
        ensures pool { pool.new ≡ pool_without self.old pool.old }
    {
        if let Some(pending) = self.pending.take() {
            pool.give(pending.place(), pending.order());
        }
    }

    // Makes further entries of the pending table ready. Where there is none, the answer stays.
    fn advance(&mut self, rc: Rc) -> Rc
        ensures { MatchOption
            self.old
            ((result ≡ rc) × (self.new ≡ None))
            (λ table.
            (self.new ≡ Some (with_more_ready table))
            × (result
            ≡ (if is_ready (with_more_ready table) then Rc.Success else Rc.LongBusy))) }
    {
        let Some(pending) = &mut self.pending else {
            return rc;
        };
        pending.advance();
        if pending.is_ready() {
            Rc::Success
        } else {
            Rc::LongBusy
        }
    }
}

/// Whether H_RESIZE_HPT_PREPARE may be asked for this: no flag is set, and the order is 0 or one
/// that the architecture has.
pub fn is_prepare_request(flags: u64, shift: u64) -> bool
    ensures { result ≡ is_prepare_request flags shift }
{
    flags == 0 && (shift == 0 || is_architected_order(shift))
}

// Makes a table whose entries are all ready the current one, or drops it where two entries meet.
fn complete(pending: Pending, pool: &mut Pool, current: &mut Current) -> CommitAnswer
    requires table { IsTable current.old }
    requires number { current.old.number < 2 ^ 32 - 1 }
    requires ready { pending.ready ≡ entry_count pending.order }
    requires held { Contains pool.old.taken (block_at pending.place pending.order) }
    requires taken { Contains pool.old.taken (block_at current.old.place current.old.order) }
    ensures done { commit_outcome result None pool.new (table_of current.new)
        ≡ complete_outcome (Some pending) pool.old (table_of current.old) }
    ensures table { IsTable current.new }
    ensures taken { pending.place ≢ current.old.place
        → Contains pool.new.taken (block_at current.new.place current.new.order) }
    ensures room { result.rc ≡ Rc.Success
        → vec_capacity current.new.states ≡ entry_count current.new.order }
{
    let order = pending.order();
    let place = pending.place();
    let mut states = pending.into_states();
    if let Err(collision) = rehash(current.order, order, &current.states, &mut states) {
        pool.give(place, order);
        return CommitAnswer {
            rc: Rc::PtegFull,
            collision: Some(collision),
        };
    }
    pool.give(current.place, current.order);
    current.order = order;
    current.place = place;
    current.number += 1;
    current.states = states;
    CommitAnswer::of(Rc::Success)
}
