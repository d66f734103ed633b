//! One try of an access by a cached translation. The line has the entry's words, so no data word is
//! loaded.
ghost use Rattle.std.specs.Prelude.{◌≡◌, ◌≢◌, ◌<◌, [], ◌∷◌, length, true, false, IfOk, IfErr, IfSome, IfNone, IsOk};
ghost use Rattle.entry_model.specs.Receipt.{is_access, IsReceiptOf};
ghost use Rattle.entry_model.specs.CachedLines.{IsCurrent};
ghost use Rattle.lock_core.specs.declared.phase.Phase.TheVariants.{Idle};
ghost use Rattle.lock_core.specs.declared.step.Step.TheVariants.{Look, Mark};
ghost use Rattle.lock_core.specs.Words.{changes as changes_of, next_state as next_of, receipt as receipt_of};
ghost use Rattle.entry_lock.specs.Views.{states_of};
ghost use Rattle.entry_lock.specs.SeenLines.{IsSeen};
ghost use Rattle.entry_lock.specs.LineSteps.{doing_by_line, is_gone_from as is_gone_from_of};
ghost use Rattle.entry_lock.specs.PassInvariants.{IsActing, IsAt};
ghost use Rattle.entry_lock.specs.BusyCauses.{IsMissedMark};
ghost use Rattle.entry_lock.specs.PassChanges.{MadeNothing, MadeReceipt, TellsLastStep, FindsGone, TookAtMost};
ghost use Rattle.entry_lock.specs.CallSteps.{Took, TookGone, line_steps, leaves_state};
ghost use Rattle.entry_lock.specs.Progress.{IsByLine};

use crate::accesses::marked_control;
use crate::busy::Busy;
use crate::control_word::{control_of, word_from};
use crate::line_steps::{look_line, look_line_again, mark_line};
use crate::outcome::{Outcome, decides, outcome_of};
use crate::rule::{PassSeat, Words};
use entry_model::{Line, Op, Receipt};
use lock_core::{Control, Doing};
use std::marker::Brand;

/// Whether the entry is gone from a stamp, or its holder is about to change it.
#[inline(always)]
fn is_gone_from(control: &Control, stamp: u32) -> bool
    ensures { result ≡ is_gone_from_of control.now stamp }
{
    control.shut || !control.valid || control.stamp != stamp
}

/// An access that begins with a line's doublewords.
#[inline(always)]
fn begin_by_line(known: &Line, op: Op, noted: Control) -> Doing
    ensures { result ≡ doing_by_line known.now op noted }
{
    Doing::new(known.entry, op, noted, Some((known.dword0, known.dword1)))
}

/// Notes the control word. `None` where the entry is gone from the line's stamp.
#[inline(always)]
fn look_first(table: &Words, seat: &mut PassSeat, known: &Line, op: Op) -> Option<Doing>
    requires table { IsAt table.now.table_id seat.old.table_id table.now.key seat.old.me }
    requires entry { known.now.entry < length (states_of table.now.key) }
    requires acting { IsActing seat.old.me.0 }
    requires idle { seat.old.me.0.actor.phase ≡ Idle }
    requires seen { IsSeen seat.old.me.0.actor.lines (states_of table.now.key) known.now }
    requires op { is_access op ≡ true }
    ensures table { IsAt table.now.table_id seat.new.table_id table.now.key seat.new.me }
    ensures some { IfSome result (λ d. IsByLine seat.new.me.0 known.now op d) }
    ensures same { IfSome result (λ d. MadeNothing seat.old.me.0 seat.new.me.0) }
    ensures gone { IfNone result (FindsGone seat.old.me.0 seat.new.me.0 known.now) }
    ensures idle { IfNone result (seat.new.me.0.actor.phase ≡ Idle) }
    ensures once { TookAtMost 1 seat.old.me.0 seat.new.me.0 }
    ensures steps { IfSome result
        (λ d. Took (Look known.now.entry op ∷ []) seat.old.me.0 seat.new.me.0) }
    ensures no_step { IfNone result (Took [] seat.old.me.0 seat.new.me.0) }
    ensures one_word { IfNone result (seat.new.me.0.looked ≡ seat.new.me.0.found) }
{
    let found = look_line::<Brand>(table, seat, known, &op);
    let control = control_of(found);
    if is_gone_from(&control, known.stamp) {
        return None;
    }
    Some(begin_by_line(known, op, control))
}

/// The second look, for an access that raises no bit.
#[inline(always)]
fn decide(
    table: &Words,
    seat: &mut PassSeat,
    known: &Line,
    op: Op,
    doing: &Doing,
    mut outcome: Outcome,
) -> Option<Receipt>
    requires table { IsAt table.now.table_id seat.old.table_id table.now.key seat.old.me }
    requires entry { known.now.entry < length (states_of table.now.key) }
    requires acting { IsActing seat.old.me.0 }
    requires seen { IsSeen seat.old.me.0.actor.lines (states_of table.now.key) known.now }
    requires looked { IsByLine seat.old.me.0 known.now op doing.now }
    requires may { changes_of doing.now ≡ false }
    requires outcome { outcome.receipt ≡ receipt_of doing.now }
    ensures table { IsAt table.now.table_id seat.new.table_id table.now.key seat.new.me }
    ensures acting { IsActing seat.new.me.0 }
    ensures idle { seat.new.me.0.actor.phase ≡ Idle }
    ensures receipt { IfSome result (λ r. IsReceiptOf known.now.entry op r) }
    ensures current { IfSome result (λ r. IsCurrent known.now r.before) }
    ensures made { IfSome result (λ r. MadeReceipt seat.old.me.0 seat.new.me.0 r) }
    ensures gone { IfNone result (FindsGone seat.old.me.0 seat.new.me.0 known.now) }
    ensures once { TookAtMost 1 seat.old.me.0 seat.new.me.0 }
    ensures two_words { IfNone result (seat.new.me.0.looked ≢ seat.new.me.0.found) }
    ensures leaves { IfSome result (λ r. leaves_state r ≡ true) }
    ensures steps { Took (Look known.now.entry op ∷ []) seat.old.me.0 seat.new.me.0 }
{
    let _ = op;
    let found = look_line_again::<Brand>(table, seat, known, doing);
    if decides(doing, &mut outcome, found) {
        return Some(outcome.receipt);
    }
    None
}

/// The mark, for an access that raises a bit.
#[inline(always)]
fn raise_bits(
    table: &Words,
    seat: &mut PassSeat,
    known: &Line,
    op: Op,
    doing: &Doing,
    outcome: Outcome,
) -> Result<Option<Receipt>, Busy>
    requires table { IsAt table.now.table_id seat.old.table_id table.now.key seat.old.me }
    requires entry { known.now.entry < length (states_of table.now.key) }
    requires acting { IsActing seat.old.me.0 }
    requires seen { IsSeen seat.old.me.0.actor.lines (states_of table.now.key) known.now }
    requires looked { IsByLine seat.old.me.0 known.now op doing.now }
    requires may { changes_of doing.now ≡ true }
    requires outcome { outcome.receipt ≡ receipt_of doing.now }
    requires after { outcome.after ≡ next_of doing.now }
    ensures table { IsAt table.now.table_id seat.new.table_id table.now.key seat.new.me }
    ensures acting { IsActing seat.new.me.0 }
    ensures idle { seat.new.me.0.actor.phase ≡ Idle }
    ensures receipt { IfOk result (λ o. IfSome o (λ r. IsReceiptOf known.now.entry op r)) }
    ensures current { IfOk result (λ o. IfSome o (λ r. IsCurrent known.now r.before)) }
    ensures made { IfOk result (λ o. IfSome o (λ r. MadeReceipt seat.old.me.0 seat.new.me.0 r)) }
    ensures gone { IfOk result (λ o. IfNone o (FindsGone seat.old.me.0 seat.new.me.0 known.now)) }
    ensures same { IfErr result (λ b. MadeNothing seat.old.me.0 seat.new.me.0) }
    ensures last { IfErr result (λ b. TellsLastStep seat.old.me.0 seat.new.me.0 known.now.entry b) }
    ensures cause { IfErr result (λ b. IsMissedMark b known.now) }
    ensures alone { length seat.old.me.0.numbers ≡ seat.old.me.0.passes → IsOk result }
    ensures once { TookAtMost 1 seat.old.me.0 seat.new.me.0 }
    ensures two_words { IfOk result
        (λ o. IfNone o (seat.new.me.0.looked ≢ seat.new.me.0.found)) }
    ensures changes { IfOk result (λ o. IfSome o (λ r. leaves_state r ≡ false)) }
    ensures steps { Took (Mark ∷ []) seat.old.me.0 seat.new.me.0 }
{
    let _ = op;
    let new = word_from(&marked_control(doing, &outcome.after));
    let found = mark_line::<Brand>(table, seat, known, doing, new);
    let looked = word_from(&doing.noted);
    if found == looked {
        return Ok(Some(outcome.receipt));
    }
    if is_gone_from(&control_of(found), known.stamp) {
        return Ok(None);
    }
    Err(Busy {
        entry: known.entry,
        looked,
        found,
    })
}

/// Tries an access by a line.
#[inline(always)]
pub fn try_line(
    table: &Words,
    seat: &mut PassSeat,
    known: &Line,
    op: Op,
) -> Result<Option<Receipt>, Busy>
    requires table { IsAt table.now.table_id seat.old.table_id table.now.key seat.old.me }
    requires entry { known.now.entry < length (states_of table.now.key) }
    requires acting { IsActing seat.old.me.0 }
    requires idle { seat.old.me.0.actor.phase ≡ Idle }
    requires seen { IsSeen seat.old.me.0.actor.lines (states_of table.now.key) known.now }
    requires op { is_access op ≡ true }
    ensures table { IsAt table.now.table_id seat.new.table_id table.now.key seat.new.me }
    ensures acting { IsActing seat.new.me.0 }
    ensures idle { seat.new.me.0.actor.phase ≡ Idle }
    ensures receipt { IfOk result (λ o. IfSome o (λ r. IsReceiptOf known.now.entry op r)) }
    ensures current { IfOk result (λ o. IfSome o (λ r. IsCurrent known.now r.before)) }
    ensures made { IfOk result (λ o. IfSome o (λ r. MadeReceipt seat.old.me.0 seat.new.me.0 r)) }
    ensures gone { IfOk result (λ o. IfNone o (FindsGone seat.old.me.0 seat.new.me.0 known.now)) }
    ensures same { IfErr result (λ b. MadeNothing seat.old.me.0 seat.new.me.0) }
    ensures last { IfErr result (λ b. TellsLastStep seat.old.me.0 seat.new.me.0 known.now.entry b) }
    ensures cause { IfErr result (λ b. IsMissedMark b known.now) }
    ensures alone { length seat.old.me.0.numbers ≡ seat.old.me.0.passes → IsOk result }
    ensures once { TookAtMost 2 seat.old.me.0 seat.new.me.0 }
    ensures steps { IfOk result
        (λ o. IfSome o
        (λ r. Took (line_steps known.now.entry op r) seat.old.me.0 seat.new.me.0)) }
    ensures gone_steps { IfOk result
        (λ o. IfNone o (TookGone known.now.entry op seat.old.me.0 seat.new.me.0)) }
    ensures busy { IfErr result
        (λ b. Took (Look known.now.entry op ∷ Mark ∷ []) seat.old.me.0 seat.new.me.0) }
{
    let Some(doing) = look_first(table, seat, known, op) else {
        return Ok(None);
    };
    let outcome = outcome_of(&doing);
    if outcome.changes {
        raise_bits(table, seat, known, op, &doing, outcome)
    } else {
        Ok(decide(table, seat, known, op, &doing, outcome))
    }
}
