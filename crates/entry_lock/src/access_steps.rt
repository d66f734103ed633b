//! The single atomic steps of an access, and the look at word 0.
ghost use Rattle.std.specs.Prelude.{◌≡◌, ◌<◌, ◌≤◌, length, true, false};
ghost use Rattle.entry_model.specs.Receipt.{is_access};
ghost use Rattle.lock_core.specs.declared.doing.Doing.{Doing as DoingOf};
ghost use Rattle.lock_core.specs.declared.phase.Phase.TheVariants.{Idle, Looked};
ghost use Rattle.lock_core.specs.Words.{is_read as is_read_of, changes as changes_of};
ghost use Rattle.entry_lock.specs.Views.{states_of};
ghost use Rattle.entry_lock.specs.Operations.{marked_word};
ghost use Rattle.entry_lock.specs.PassInvariants.{IsActing, IsAt};
ghost use Rattle.entry_lock.specs.AccessSteps.{LookTells, LookedLoadTells, SecondLookTells, MarkTells, IsLooking};

use crate::control_word::word_from;
use crate::layout::{CONTROL, WORDS_PER_ENTRY, data_index};
use crate::plays::{ForDoing, ForOperation, LookedLoads, Looks, Marks, SecondLooks, SharesBound};
use crate::rule::{PassSeat, Words};
use entry_model::Op;
use lock_core::Doing;

/// The first look: the word found.
pub fn look<W: ForOperation>(table: &Words, seat: &mut PassSeat, entry: u32, op: &Op) -> u64
    requires said { W.op ≡ op.now }
    requires table { IsAt table.now.table_id seat.old.table_id table.now.key seat.old.me }
    requires entry { entry < length (states_of table.now.key) }
    requires acting { IsActing seat.old.me.0 }
    requires idle { seat.old.me.0.actor.phase ≡ Idle }
    requires op { is_access op.now ≡ true }
    ensures table { IsAt table.now.table_id seat.new.table_id table.now.key seat.new.me }
    ensures told { LookTells op.now entry seat.old.me.0 result seat.new.me.0 }
{
    let _ = op;
    table.load::<Looks<W>>(seat, WORDS_PER_ENTRY * entry as usize + CONTROL)
}

/// Loads a data word of an entry that was looked at.
pub fn load_looked(table: &Words, seat: &mut PassSeat, entry: u32, second: bool) -> u64
    requires table { IsAt table.now.table_id seat.old.table_id table.now.key seat.old.me }
    requires entry { entry < length (states_of table.now.key) }
    requires acting { IsActing seat.old.me.0 }
    requires looked { (d : DoingOf) × (seat.old.me.0.actor.phase ≡ Looked d) × (d.entry ≡ entry)
        × (d.noted.valid ≡ true) }
    ensures table { IsAt table.now.table_id seat.new.table_id table.now.key seat.new.me }
    ensures told { (d : DoingOf) → seat.old.me.0.actor.phase ≡ Looked d → d.entry ≡ entry
        → LookedLoadTells second d seat.old.me.0 result seat.new.me.0 }
{
    table.load::<LookedLoads>(seat, data_index(entry, second))
}

/// The second look: the word found, by which an access that raises no bit is decided.
pub fn look_again<W: ForDoing>(table: &Words, seat: &mut PassSeat, doing: &Doing) -> u64
    requires said { W.doing ≡ doing.now }
    requires table { IsAt table.now.table_id seat.old.table_id table.now.key seat.old.me }
    requires entry { doing.now.entry < length (states_of table.now.key) }
    requires acting { IsActing seat.old.me.0 }
    requires looked { IsLooking seat.old.me.0 doing.now }
    requires read { is_read_of doing.now ≡ true }
    requires may { changes_of doing.now ≡ false }
    ensures table { IsAt table.now.table_id seat.new.table_id table.now.key seat.new.me }
    ensures told { SecondLookTells doing.now seat.old.me.0 result seat.new.me.0 }
{
    table.load::<SecondLooks<W>>(seat, WORDS_PER_ENTRY * doing.entry as usize + CONTROL)
}

/// The mark: raises bits where the word is the one noted. The word found.
pub fn mark<W: ForDoing>(table: &Words, seat: &mut PassSeat, doing: &Doing, new: u64) -> u64
    requires said { W.doing ≡ doing.now }
    requires table { IsAt table.now.table_id seat.old.table_id table.now.key seat.old.me }
    requires entry { doing.now.entry < length (states_of table.now.key) }
    requires acting { IsActing seat.old.me.0 }
    requires looked { IsLooking seat.old.me.0 doing.now }
    requires read { is_read_of doing.now ≡ true }
    requires may { changes_of doing.now ≡ true }
    requires new { new ≡ marked_word doing.now }
    ensures table { IsAt table.now.table_id seat.new.table_id table.now.key seat.new.me }
    ensures told { MarkTells doing.now seat.old.me.0 result seat.new.me.0 }
{
    // The whole word is compared, with lock, shut and stamp: a bit is raised on the very entry that
    // was looked at, and not on one that was removed and entered again.
    let noted = word_from(&doing.noted);
    let index = WORDS_PER_ENTRY * doing.entry as usize + CONTROL;
    table.compare_exchange::<Marks<W>>(seat, index, noted, new)
}

/// A look at word 0, which changes nothing: the pass has no more shares than there are.
pub fn bound_shares(table: &Words, seat: &mut PassSeat)
    requires table { IsAt table.now.table_id seat.old.table_id table.now.key seat.old.me }
    requires acting { IsActing seat.old.me.0 }
    ensures table { (seat.new.table_id ≡ seat.old.table_id) × (seat.new.me ≡ seat.old.me) }
    ensures told { length seat.old.me.0.numbers ≤ seat.old.me.0.passes }
{
    table.load::<SharesBound>(seat, 0);
}
