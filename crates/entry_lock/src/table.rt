//! The types of the running table and of a pass, the right to take steps on it, as they lie in
//! memory.
ghost use Rattle.std.specs.Prelude.{vec_capacity};
ghost use Rattle.entry_lock.specs.PassInvariants.{IsIdle, IsSized, HasShares, HasLists};

use crate::rule::{LockRule, Opening, PassSeat, View};
use atomic_table::Table;
use entry_model::EntryState;
use std::alloc::Global;

/// A table of 2^order bytes, so of 2^(order - 4) entries, at order 18 to 22. Threads share it by
/// reference, and each takes steps on it with a pass.
#[derive(Drop)]
pub struct LockTable {
    pub(crate) table: Table<u8, View, Opening, LockRule, Global>,
    pub(crate) order: u8,
    pub(crate) passes: u32,
    pub(crate) opening: Vec<EntryState>,
    pub(crate) closing: Vec<EntryState>,
    pub ghost sized: { IsSized table.shared.table_id table.shared.key order },
    pub ghost lists: { HasLists
        table.shared.key
        passes
        opening.items
        closing.items
        (vec_capacity closing) },
}

/// The right to take steps on a table. It has shares, of as many as the table has passes, and knows
/// what it has made and seen.
#[derive(Drop)]
pub struct Pass {
    pub(crate) seat: PassSeat,
    pub(crate) shares: u32,
    pub ghost idle: { IsIdle seat.me },
    pub ghost counted: { HasShares seat.me.0 shares },
}
