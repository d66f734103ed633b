//! The single atomic steps of a hypervisor call.
ghost use Rattle.std.specs.Prelude.{◌≡◌, ◌<◌, ◌&&◌, not, length, true, false};
ghost use Rattle.entry_model.specs.Receipt.{is_access};
ghost use Rattle.lock_core.specs.declared.phase.Phase.TheVariants.{Idle, Held, HeldShut};
ghost use Rattle.lock_core.specs.Words.{is_read as is_read_of, changes as changes_of, next_state as next_of, settled_word as settled_of};
ghost use Rattle.entry_lock.specs.Layout.{word_of, doubleword};
ghost use Rattle.entry_lock.specs.Views.{states_of};
ghost use Rattle.entry_lock.specs.PassInvariants.{IsActing, IsAt};
ghost use Rattle.entry_lock.specs.HolderSteps.{LockTells, LoadTells, ShutTells, StoreTells, SettleTells, ReleaseTells};

use crate::control_word::{LOCKED, SHUT};
use crate::layout::{CONTROL, WORDS_PER_ENTRY, data_index};
use crate::plays::{ForOperation, Loads, Locks, Releases, Settles, Shuts, Stores};
use crate::rule::{PassSeat, Words};
use entry_model::Op;
use lock_core::Doing;

/// The lock step: the word found. Without its lock bit the pass holds the entry now.
pub fn lock<W: ForOperation>(table: &Words, seat: &mut PassSeat, entry: u32, op: &Op) -> u64
    requires said { W.op ≡ op.now }
    requires table { IsAt table.now.table_id seat.old.table_id table.now.key seat.old.me }
    requires entry { entry < length (states_of table.now.key) }
    requires acting { IsActing seat.old.me.0 }
    requires idle { seat.old.me.0.actor.phase ≡ Idle }
    requires op { is_access op.now ≡ false }
    ensures table { IsAt table.now.table_id seat.new.table_id table.now.key seat.new.me }
    ensures told { LockTells op.now entry seat.old.me.0 result seat.new.me.0 }
{
    let _ = op;
    table.fetch_or::<Locks<W>>(seat, WORDS_PER_ENTRY * entry as usize + CONTROL, LOCKED)
}

/// Loads a data word of an entry that is held.
pub fn load_data(table: &Words, seat: &mut PassSeat, doing: &Doing, second: bool) -> u64
    requires table { IsAt table.now.table_id seat.old.table_id table.now.key seat.old.me }
    requires entry { doing.now.entry < length (states_of table.now.key) }
    requires acting { IsActing seat.old.me.0 }
    requires held { seat.old.me.0.actor.phase ≡ Held doing.now }
    requires valid { doing.now.noted.valid ≡ true }
    ensures table { IsAt table.now.table_id seat.new.table_id table.now.key seat.new.me }
    ensures told { LoadTells second doing.now seat.old.me.0 result seat.new.me.0 }
{
    table.load::<Loads>(seat, data_index(doing.entry, second))
}

/// Shuts an entry that is held: the word found, whose R and C are the last before the change.
pub fn shut(table: &Words, seat: &mut PassSeat, doing: &Doing) -> u64
    requires table { IsAt table.now.table_id seat.old.table_id table.now.key seat.old.me }
    requires entry { doing.now.entry < length (states_of table.now.key) }
    requires acting { IsActing seat.old.me.0 }
    requires held { seat.old.me.0.actor.phase ≡ Held doing.now }
    requires may { (is_read_of doing.now && changes_of doing.now) ≡ true }
    ensures table { IsAt table.now.table_id seat.new.table_id table.now.key seat.new.me }
    ensures told { ShutTells doing.now seat.old.me.0 result seat.new.me.0 }
{
    table.fetch_or::<Shuts>(seat, WORDS_PER_ENTRY * doing.entry as usize + CONTROL, SHUT)
}

/// Lets an entry go that wasn't changed: the word found. Only the lock bit is cleared, since
/// accesses may have raised R and C in the meantime.
pub fn release(table: &Words, seat: &mut PassSeat, doing: &Doing) -> u64
    requires table { IsAt table.now.table_id seat.old.table_id table.now.key seat.old.me }
    requires entry { doing.now.entry < length (states_of table.now.key) }
    requires acting { IsActing seat.old.me.0 }
    requires held { seat.old.me.0.actor.phase ≡ Held doing.now }
    requires may { (is_read_of doing.now && not (changes_of doing.now)) ≡ true }
    ensures table { IsAt table.now.table_id seat.new.table_id table.now.key seat.new.me }
    ensures told { ReleaseTells doing.now seat.old.me.0 result seat.new.me.0 }
{
    let index = WORDS_PER_ENTRY * doing.entry as usize + CONTROL;
    table.fetch_and::<Releases>(seat, index, LOCKED - 1)
}

/// Stores a data word of an entry that is shut.
pub fn store_data(table: &Words, seat: &mut PassSeat, doing: &Doing, second: bool, new: u64)
    requires table { IsAt table.now.table_id seat.old.table_id table.now.key seat.old.me }
    requires entry { doing.now.entry < length (states_of table.now.key) }
    requires acting { IsActing seat.old.me.0 }
    requires shut { seat.old.me.0.actor.phase ≡ HeldShut doing.now }
    requires new { new ≡ doubleword second (next_of doing.now) }
    ensures table { IsAt table.now.table_id seat.new.table_id table.now.key seat.new.me }
    ensures told { StoreTells second doing.now seat.old.me.0 new seat.new.me.0 }
{
    table.store::<Stores>(seat, data_index(doing.entry, second), new)
}

/// Gives a shut entry its new state, and lets it go.
pub fn settle(table: &Words, seat: &mut PassSeat, doing: &Doing, new: u64)
    requires table { IsAt table.now.table_id seat.old.table_id table.now.key seat.old.me }
    requires entry { doing.now.entry < length (states_of table.now.key) }
    requires acting { IsActing seat.old.me.0 }
    requires shut { seat.old.me.0.actor.phase ≡ HeldShut doing.now }
    requires stored { (next_of doing.now).valid ≡ true
        → (seat.old.me.0.first_stored ≡ true) × (seat.old.me.0.second_stored ≡ true) }
    requires new { new ≡ word_of (settled_of (next_of doing.now)) }
    ensures table { IsAt table.now.table_id seat.new.table_id table.now.key seat.new.me }
    ensures told { SettleTells doing.now seat.old.me.0 new seat.new.me.0 }
{
    table.store::<Settles>(seat, WORDS_PER_ENTRY * doing.entry as usize + CONTROL, new)
}
