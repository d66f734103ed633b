//! The table that is being prepared: it has a place in the pool and room for all entries, and each
//! call makes a part of these ready.
ghost use Rattle.std.specs.Prelude.{◌≡◌, ◌+◌, ◌-◌, ◌^◌, ◌<◌, ◌≤◌, [], ◌++◌, replicate, vec_len, vec_capacity};
ghost use Rattle.hpte_fields.specs.TableSize.{IsTableOrder, entry_count};
ghost use Rattle.entry_model.specs.State.{empty_state};
ghost use Rattle.hpt_resize.specs.Pending.{no_entries, is_ready, with_more_ready};

use entry_model::EntryState;
use hpte_fields::entry_count;
use std::marker::Model;

/// How many entries one call makes ready.
pub const READY_A_CALL: usize = 16_384;

/// A table that is made ready for the guest.
#[derive(Drop)]
pub struct Pending {
    order: u8,
    place: u64,
    states: Vec<EntryState>,
}

impl Model for Pending {
    ghost use Rattle.std.specs.Prelude.{length, vec_capacity};
    ghost use Rattle.hpt_resize.specs.Pending.{PendingTable, IsPreparing};

    ghost Value = { PendingTable };

    ghost view = { λ p.
        record { order = p.order; place = p.place; ready = length p.states.items } };

    ghost invariant = { λ p. IsPreparing p.order p.states.items (vec_capacity p.states) };
}

impl Pending {
    /// A table of `2^order` bytes with no entry ready. `states` has room for all of them,
    /// and for no more.
    pub fn new(order: u8, place: u64, states: Vec<EntryState>) -> Pending
        requires order { IsTableOrder order }
        requires none { states.items ≡ [] }
        requires room { vec_capacity states ≡ entry_count order }
        ensures { result ≡ no_entries order place }
    {
        Pending {
            order,
            place,
            states,
        }
    }

    /// The table has `2^order` bytes.
    pub fn order(&self) -> u8
        ensures value { result ≡ self.now.order }
        ensures order { IsTableOrder result }
    {
        self.order
    }

    /// The address of its block in the pool.
    pub fn place(&self) -> u64
        ensures { result ≡ self.now.place }
    {
        self.place
    }

    /// Whether all its entries are ready.
    pub fn is_ready(&self) -> bool
        ensures { result ≡ is_ready self.now }
    {
        self.states.len() == entry_count(self.order) as usize
    }

    /// Makes the next entries ready.
    pub fn advance(&mut self)
        ensures { self.new ≡ with_more_ready self.old }
    {
        let left = entry_count(self.order) as usize - self.states.len();
        push_empty(&mut self.states, left.min(READY_A_CALL));
    }

    /// Its entries, all of them empty.
    pub fn into_states(self) -> Vec<EntryState>
        ensures items { result.items ≡ replicate self.ready (empty_state 0) }
        ensures room { vec_capacity result ≡ entry_count self.order }
    {
        let Pending {
            order: _,
            place: _,
            states,
        } = self;
        states
    }
}

// Room for the entries is there, so this takes no memory.
fn push_empty(states: &mut Vec<EntryState>, count: usize)
    requires { vec_len states.old + count ≤ vec_capacity states.old }
    ensures items { states.new.items ≡ states.old.items ++ replicate count (empty_state 0) }
    ensures capacity { vec_capacity states.new ≡ vec_capacity states.old }
{
    for _i in 0..count {
        states.push_reserved(EntryState::empty(0));
    }
}
