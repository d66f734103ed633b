//! One try of a hypervisor call's operation: it takes the entry's lock, or is busy.
ghost use Rattle.std.specs.Prelude.{◌≡◌, ◌<◌, [], ◌∷◌, ◌&&◌, not, length, true, false, IfOk, IfErr, IsOk};
ghost use Rattle.entry_model.specs.Receipt.{is_access, IsReceiptOf};
ghost use Rattle.entry_model.specs.Fronts.{IsAhead};
ghost use Rattle.lock_core.specs.declared.phase.Phase.TheVariants.{Idle, Held};
ghost use Rattle.lock_core.specs.declared.step.Step.TheVariants.{Lock, Release};
ghost use Rattle.lock_core.specs.Words.{is_read as is_read_of, changes as changes_of, next_state as next_of, receipt as receipt_of};
ghost use Rattle.entry_lock.specs.Views.{states_of};
ghost use Rattle.entry_lock.specs.StepViews.{view_with_step, view_with_receipt};
ghost use Rattle.entry_lock.specs.PassInvariants.{IsActing, IsAt};
ghost use Rattle.entry_lock.specs.BusyCauses.{IsHeldElsewhere};
ghost use Rattle.entry_lock.specs.PassChanges.{MadeNothing, MadeReceipt, TellsLastStep, TookAtMost};
ghost use Rattle.entry_lock.specs.CallSteps.{Took, TookBusy, after_steps, loads_if, changing_steps, made_steps, leaves_state};
ghost use Rattle.entry_lock.specs.Progress.{TookEntry, IsSameDoing};

use crate::busy::Busy;
use crate::control_word::{control_of, word_from};
use crate::holder_steps::{load_data, lock, release, settle, shut, store_data};
use crate::outcome::{Outcome, outcome_by, outcome_of};
use crate::pause::{JustLocked, Pause};
use crate::rule::{PassSeat, Words};
use entry_model::{Op, Receipt};
use lock_core::{Doing, settled_word};
use std::marker::Brand;

/// Takes the entry's lock.
#[inline(always)]
fn take_entry(table: &Words, seat: &mut PassSeat, entry: u32, op: Op) -> Result<Doing, Busy>
    requires table { IsAt table.now.table_id seat.old.table_id table.now.key seat.old.me }
    requires entry { entry < length (states_of table.now.key) }
    requires acting { IsActing seat.old.me.0 }
    requires idle { seat.old.me.0.actor.phase ≡ Idle }
    requires op { is_access op ≡ false }
    ensures table { IsAt table.now.table_id seat.new.table_id table.now.key seat.new.me }
    ensures ok { IfOk result (λ d. TookEntry seat.old.me.0 seat.new.me.0 entry op d) }
    ensures same { IfErr result (λ b. MadeNothing seat.old.me.0 seat.new.me.0) }
    ensures idle { IfErr result (λ b. seat.new.me.0.actor.phase ≡ Idle) }
    ensures last { IfErr result (λ b. TellsLastStep seat.old.me.0 seat.new.me.0 entry b) }
    ensures cause { IfErr result (λ b. IsHeldElsewhere b) }
    ensures alone { length seat.old.me.0.numbers ≡ seat.old.me.0.passes → IsOk result }
    ensures once { TookAtMost 1 seat.old.me.0 seat.new.me.0 }
    ensures steps { Took (Lock entry op ∷ []) seat.old.me.0 seat.new.me.0 }
{
    let found = lock::<Brand>(table, seat, entry, &op);
    let control = control_of(found);
    if control.locked {
        return Err(Busy {
            entry,
            looked: found,
            found,
        });
    }
    Ok(Doing::new(entry, op, control, None))
}

/// Loads the data words of an entry that is held. An empty entry's say nothing.
#[inline(always)]
fn load_held(table: &Words, seat: &mut PassSeat, doing: &Doing) -> Doing
    requires table { IsAt table.now.table_id seat.old.table_id table.now.key seat.old.me }
    requires entry { doing.now.entry < length (states_of table.now.key) }
    requires acting { IsActing seat.old.me.0 }
    requires held { seat.old.me.0.actor.phase ≡ Held doing.now }
    ensures table { IsAt table.now.table_id seat.new.table_id table.now.key seat.new.me }
    ensures doing { IsSameDoing doing.now result }
    ensures read { is_read_of result ≡ true }
    ensures held { seat.new.me.0.actor.phase ≡ Held result }
    ensures same { MadeNothing seat.old.me.0 seat.new.me.0 }
    ensures once { TookAtMost 0 seat.old.me.0 seat.new.me.0 }
    ensures steps { Took (loads_if doing.now.noted.valid) seat.old.me.0 seat.new.me.0 }
{
    if !doing.noted.valid {
        return *doing;
    }
    let first = load_data(table, seat, doing, false);
    let mut half = *doing;
    half.first = Some(first);
    let second = load_data(table, seat, &half, true);
    doing.with_words(first, second)
}

/// Lets the entry go, which the operation doesn't change. The receipt has the R and C that the
/// release found: accesses may have raised them since the lock step.
#[inline(always)]
fn release_unchanged(table: &Words, seat: &mut PassSeat, doing: &Doing, known: Outcome) -> Receipt
    requires table { IsAt table.now.table_id seat.old.table_id table.now.key seat.old.me }
    requires entry { doing.now.entry < length (states_of table.now.key) }
    requires acting { IsActing seat.old.me.0 }
    requires held { seat.old.me.0.actor.phase ≡ Held doing.now }
    requires op { is_access doing.now.op ≡ false }
    requires may { (is_read_of doing.now && not (changes_of doing.now)) ≡ true }
    requires known { known.receipt ≡ receipt_of doing.now }
    requires after { known.after ≡ next_of doing.now }
    ensures table { IsAt table.now.table_id seat.new.table_id table.now.key seat.new.me }
    ensures receipt { IsReceiptOf doing.now.entry doing.now.op result }
    ensures made { seat.new.me.0 ≡ view_with_receipt (view_with_step seat.old.me.0 Release) result }
    ensures ahead { IsAhead seat.old.me.0.fronts result }
    ensures valid { result.before.valid ≡ doing.now.noted.valid }
    ensures leaves { leaves_state result ≡ true }
{
    let found = release(table, seat, doing);
    outcome_by(doing, known, control_of(found)).receipt
}

/// Shuts the entry, stores its words and settles it.
#[inline(always)]
fn change_entry(table: &Words, seat: &mut PassSeat, doing: &Doing, known: Outcome) -> Receipt
    requires table { IsAt table.now.table_id seat.old.table_id table.now.key seat.old.me }
    requires entry { doing.now.entry < length (states_of table.now.key) }
    requires acting { IsActing seat.old.me.0 }
    requires held { seat.old.me.0.actor.phase ≡ Held doing.now }
    requires op { is_access doing.now.op ≡ false }
    requires may { (is_read_of doing.now && changes_of doing.now) ≡ true }
    requires known { known.receipt ≡ receipt_of doing.now }
    requires after { known.after ≡ next_of doing.now }
    ensures table { IsAt table.now.table_id seat.new.table_id table.now.key seat.new.me }
    ensures receipt { IsReceiptOf doing.now.entry doing.now.op result }
    ensures made { seat.new.me.0
        ≡ record (view_with_receipt seat.old.me.0 result) {
          taken = after_steps seat.old.me.0.taken (changing_steps result);
        } }
    ensures ahead { IsAhead seat.old.me.0.fronts result }
    ensures valid { result.before.valid ≡ doing.now.noted.valid }
    ensures changes { leaves_state result ≡ false }
{
    // Shut before the first store: from here on no access reads the words or raises a bit, so none
    // sees one old and one new, and the R and C found here are those of the receipt.
    let found = shut(table, seat, doing);
    let control = control_of(found);
    let last = doing.with_noted(control);
    let Outcome {
        receipt,
        after,
        changes: _,
    } = outcome_by(doing, known, control);
    // Both words before the settle, which lets accesses read them. An empty entry's words aren't
    // read.
    if after.valid {
        store_data(table, seat, &last, false, after.dword0);
        store_data(table, seat, &last, true, after.dword1);
    }
    settle(table, seat, &last, word_from(&settled_word(&after)));
    receipt
}

/// Tries an operation other than an access.
#[inline(always)]
pub fn try_call<P: Pause>(
    table: &Words,
    seat: &mut PassSeat,
    entry: u32,
    op: Op,
    pause: &P,
) -> Result<Receipt, Busy>
    requires table { IsAt table.now.table_id seat.old.table_id table.now.key seat.old.me }
    requires entry { entry < length (states_of table.now.key) }
    requires acting { IsActing seat.old.me.0 }
    requires idle { seat.old.me.0.actor.phase ≡ Idle }
    requires op { is_access op ≡ false }
    ensures table { IsAt table.now.table_id seat.new.table_id table.now.key seat.new.me }
    ensures acting { IsActing seat.new.me.0 }
    ensures idle { seat.new.me.0.actor.phase ≡ Idle }
    ensures receipt { IfOk result (λ r. IsReceiptOf entry op r) }
    ensures made { IfOk result (λ r. MadeReceipt seat.old.me.0 seat.new.me.0 r) }
    ensures same { IfErr result (λ b. MadeNothing seat.old.me.0 seat.new.me.0) }
    ensures last { IfErr result (λ b. TellsLastStep seat.old.me.0 seat.new.me.0 entry b) }
    ensures cause { IfErr result (λ b. IsHeldElsewhere b) }
    ensures alone { length seat.old.me.0.numbers ≡ seat.old.me.0.passes → IsOk result }
    ensures once { TookAtMost 1 seat.old.me.0 seat.new.me.0 }
    ensures steps { IfOk result
        (λ r. Took (made_steps entry op r) seat.old.me.0 seat.new.me.0) }
    ensures busy { IfErr result (λ b. TookBusy entry op b seat.old.me.0 seat.new.me.0) }
{
    let taken = take_entry(table, seat, entry, op)?;
    pause.held(JustLocked { seat: &*seat });
    let doing = load_held(table, seat, &taken);
    let known = outcome_of(&doing);
    if known.changes {
        Ok(change_entry(table, seat, &doing, known))
    } else {
        Ok(release_unchanged(table, seat, &doing, known))
    }
}
