//! The single atomic steps of an access by a cached translation.
ghost use Rattle.std.specs.Prelude.{◌≡◌, ◌<◌, length, true, false, None};
ghost use Rattle.entry_model.specs.Receipt.{is_access};
ghost use Rattle.lock_core.specs.declared.phase.Phase.TheVariants.{Idle};
ghost use Rattle.lock_core.specs.Words.{is_read as is_read_of, changes as changes_of};
ghost use Rattle.entry_lock.specs.Views.{states_of};
ghost use Rattle.entry_lock.specs.Operations.{marked_word};
ghost use Rattle.entry_lock.specs.SeenLines.{IsSeen};
ghost use Rattle.entry_lock.specs.PassInvariants.{IsActing, IsAt};
ghost use Rattle.entry_lock.specs.AccessSteps.{IsLooking};
ghost use Rattle.entry_lock.specs.LineSteps.{LineLookTells, LineSecondLookTells, LineMarkTells};

use crate::control_word::word_from;
use crate::layout::{CONTROL, WORDS_PER_ENTRY};
use crate::plays::{ForLineDoing, ForLineLook, LineLooks, LineMarks, LineSecondLooks};
use crate::rule::{PassSeat, Words};
use entry_model::{Line, Op};
use lock_core::Doing;

/// The first look by a line: the word found.
pub fn look_line<W: ForLineLook>(table: &Words, seat: &mut PassSeat, known: &Line, op: &Op) -> u64
    requires cached { W.cached ≡ known.now }
    requires said { W.op ≡ op.now }
    requires table { IsAt table.now.table_id seat.old.table_id table.now.key seat.old.me }
    requires entry { known.now.entry < length (states_of table.now.key) }
    requires acting { IsActing seat.old.me.0 }
    requires idle { seat.old.me.0.actor.phase ≡ Idle }
    requires seen { IsSeen seat.old.me.0.actor.lines (states_of table.now.key) known.now }
    requires op { is_access op.now ≡ true }
    ensures table { IsAt table.now.table_id seat.new.table_id table.now.key seat.new.me }
    ensures told { LineLookTells known.now op.now seat.old.me.0 result seat.new.me.0 }
{
    let _ = op;
    table.load::<LineLooks<W>>(seat, WORDS_PER_ENTRY * known.entry as usize + CONTROL)
}

/// The second look by a line: the word found.
pub fn look_line_again<W: ForLineDoing>(
    table: &Words,
    seat: &mut PassSeat,
    known: &Line,
    doing: &Doing,
) -> u64
    requires cached { W.cached ≡ known.now }
    requires said { W.doing ≡ doing.now }
    requires table { IsAt table.now.table_id seat.old.table_id table.now.key seat.old.me }
    requires entry { doing.now.entry < length (states_of table.now.key) }
    requires acting { IsActing seat.old.me.0 }
    requires looked { IsLooking seat.old.me.0 doing.now }
    requires read { is_read_of doing.now ≡ true }
    requires on { doing.now.entry ≡ known.now.entry }
    requires stamp { doing.now.noted.stamp ≡ known.now.stamp }
    requires unread { (doing.now.first ≡ None) × (doing.now.second ≡ None) }
    requires seen { IsSeen seat.old.me.0.actor.lines (states_of table.now.key) known.now }
    requires may { changes_of doing.now ≡ false }
    ensures table { IsAt table.now.table_id seat.new.table_id table.now.key seat.new.me }
    ensures told { LineSecondLookTells known.now doing.now seat.old.me.0 result seat.new.me.0 }
{
    let _ = known;
    table.load::<LineSecondLooks<W>>(seat, WORDS_PER_ENTRY * doing.entry as usize + CONTROL)
}

/// The mark by a line: the word found.
pub fn mark_line<W: ForLineDoing>(
    table: &Words,
    seat: &mut PassSeat,
    known: &Line,
    doing: &Doing,
    new: u64,
) -> u64
    requires cached { W.cached ≡ known.now }
    requires said { W.doing ≡ doing.now }
    requires table { IsAt table.now.table_id seat.old.table_id table.now.key seat.old.me }
    requires entry { doing.now.entry < length (states_of table.now.key) }
    requires acting { IsActing seat.old.me.0 }
    requires looked { IsLooking seat.old.me.0 doing.now }
    requires read { is_read_of doing.now ≡ true }
    requires on { doing.now.entry ≡ known.now.entry }
    requires stamp { doing.now.noted.stamp ≡ known.now.stamp }
    requires seen { IsSeen seat.old.me.0.actor.lines (states_of table.now.key) known.now }
    requires may { changes_of doing.now ≡ true }
    requires new { new ≡ marked_word doing.now }
    ensures table { IsAt table.now.table_id seat.new.table_id table.now.key seat.new.me }
    ensures told { LineMarkTells known.now doing.now seat.old.me.0 result seat.new.me.0 }
{
    let _ = known;
    // As for a mark without a line, the whole word is compared.
    let noted = word_from(&doing.noted);
    let index = WORDS_PER_ENTRY * doing.entry as usize + CONTROL;
    table.compare_exchange::<LineMarks<W>>(seat, index, noted, new)
}
