//! One try of an access. It locks nothing: it looks at the control word, and is decided by a second
//! look, or by a mark where it raises a bit.
ghost use Rattle.std.specs.Prelude.{◌≡◌, ◌≢◌, ℕ, ◌<◌, [], ◌∷◌, length, true, false, None, IfOk, IfErr, IsOk, Option};
ghost use Rattle.entry_model.specs.Receipt.{is_access, IsReceiptOf};
ghost use Rattle.lock_core.specs.declared.phase.Phase.TheVariants.{Idle, Looked};
ghost use Rattle.lock_core.specs.declared.step.Step.TheVariants.{Look, Mark};
ghost use Rattle.lock_core.specs.Words.{is_read as is_read_of, changes as changes_of, next_state as next_of, receipt as receipt_of};
ghost use Rattle.lock_core.specs.Steps.{new_doing as begun_of};
ghost use Rattle.entry_lock.specs.Layout.{word_of};
ghost use Rattle.entry_lock.specs.Views.{states_of};
ghost use Rattle.entry_lock.specs.PassInvariants.{IsActing, IsAt};
ghost use Rattle.entry_lock.specs.AccessSteps.{IsLooking};
ghost use Rattle.entry_lock.specs.BusyCauses.{IsChanging};
ghost use Rattle.entry_lock.specs.PassChanges.{MadeNothing, MadeReceipt, TellsLastStep, TookAtMost};
ghost use Rattle.entry_lock.specs.CallSteps.{Took, TookBusy, loads_if, made_steps, leaves_state};
ghost use Rattle.entry_lock.specs.Progress.{LookedAtEntry, IsSameDoing};

use crate::access_steps::{load_looked, look, look_again, mark};
use crate::busy::Busy;
use crate::control_word::{control_of, word_from};
use crate::outcome::{Outcome, decides, outcome_of};
use crate::rule::{PassSeat, Words};
use entry_model::{EntryState, Op, Receipt};
use lock_core::{Control, Doing};
use std::marker::Brand;

/// The noted control word with the R and C of the state after.
#[inline(always)]
pub fn marked_control(doing: &Doing, after: &EntryState) -> Control
    requires { after.now ≡ next_of doing.now }
    ensures { result ≡ record doing.now.noted {
      referenced = (next_of doing.now).referenced;
      changed = (next_of doing.now).changed;
    } }
{
    let mut marked = doing.noted;
    marked.referenced = after.referenced;
    marked.changed = after.changed;
    marked
}

/// Notes the control word. An entry that is shut is left.
#[inline(always)]
fn look_first(table: &Words, seat: &mut PassSeat, entry: u32, op: Op) -> Result<Doing, Busy>
    requires table { IsAt table.now.table_id seat.old.table_id table.now.key seat.old.me }
    requires entry { entry < length (states_of table.now.key) }
    requires acting { IsActing seat.old.me.0 }
    requires idle { seat.old.me.0.actor.phase ≡ Idle }
    requires op { is_access op ≡ true }
    ensures table { IsAt table.now.table_id seat.new.table_id table.now.key seat.new.me }
    ensures ok { IfOk result (λ d. LookedAtEntry seat.old.me.0 seat.new.me.0 entry op d) }
    ensures same { IfErr result (λ b. MadeNothing seat.old.me.0 seat.new.me.0) }
    ensures idle { IfErr result (λ b. seat.new.me.0.actor.phase ≡ Idle) }
    ensures last { IfErr result (λ b. TellsLastStep seat.old.me.0 seat.new.me.0 entry b) }
    ensures cause { IfErr result (λ b. IsChanging b) }
    ensures one_word { IfErr result (λ b. b.looked ≡ b.found) }
    ensures alone { length seat.old.me.0.numbers ≡ seat.old.me.0.passes → IsOk result }
    ensures once { TookAtMost 1 seat.old.me.0 seat.new.me.0 }
    ensures steps { Took (Look entry op ∷ []) seat.old.me.0 seat.new.me.0 }
{
    let found = look::<Brand>(table, seat, entry, &op);
    let control = control_of(found);
    if control.shut {
        return Err(Busy {
            entry,
            looked: found,
            found,
        });
    }
    Ok(Doing::new(entry, op, control, None))
}

/// Loads the data words of an entry that was looked at. An empty entry's say nothing.
#[inline(always)]
fn load_words(table: &Words, seat: &mut PassSeat, doing: &Doing) -> Doing
    requires table { IsAt table.now.table_id seat.old.table_id table.now.key seat.old.me }
    requires entry { doing.now.entry < length (states_of table.now.key) }
    requires acting { IsActing seat.old.me.0 }
    requires unread { doing.now ≡ begun_of doing.now.entry doing.now.op doing.now.noted None }
    requires looked { (seen : Option (ℕ × ℕ))
        × (seat.old.me.0.actor.phase
        ≡ Looked (begun_of doing.now.entry doing.now.op doing.now.noted seen)) }
    ensures table { IsAt table.now.table_id seat.new.table_id table.now.key seat.new.me }
    ensures doing { IsSameDoing doing.now result }
    ensures read { is_read_of result ≡ true }
    ensures looking { IsLooking seat.new.me.0 result }
    ensures same { MadeNothing seat.old.me.0 seat.new.me.0 }
    ensures once { TookAtMost 0 seat.old.me.0 seat.new.me.0 }
    ensures steps { Took (loads_if doing.now.noted.valid) seat.old.me.0 seat.new.me.0 }
{
    if !doing.noted.valid {
        return *doing;
    }
    let first = load_looked(table, seat, doing.entry, false);
    let second = load_looked(table, seat, doing.entry, true);
    doing.with_words(first, second)
}

/// The second look, for an access that raises no bit: what was read holds where the word is still
/// the one noted.
#[inline(always)]
fn decide(
    table: &Words,
    seat: &mut PassSeat,
    doing: &Doing,
    mut outcome: Outcome,
) -> Result<Receipt, Busy>
    requires table { IsAt table.now.table_id seat.old.table_id table.now.key seat.old.me }
    requires entry { doing.now.entry < length (states_of table.now.key) }
    requires acting { IsActing seat.old.me.0 }
    requires looking { IsLooking seat.old.me.0 doing.now }
    requires read { is_read_of doing.now ≡ true }
    requires may { changes_of doing.now ≡ false }
    requires outcome { outcome.receipt ≡ receipt_of doing.now }
    ensures table { IsAt table.now.table_id seat.new.table_id table.now.key seat.new.me }
    ensures acting { IsActing seat.new.me.0 }
    ensures idle { seat.new.me.0.actor.phase ≡ Idle }
    ensures receipt { IfOk result (λ r. IsReceiptOf doing.now.entry doing.now.op r) }
    ensures made { IfOk result (λ r. MadeReceipt seat.old.me.0 seat.new.me.0 r) }
    ensures same { IfErr result (λ b. MadeNothing seat.old.me.0 seat.new.me.0) }
    ensures last { IfErr result (λ b. TellsLastStep seat.old.me.0 seat.new.me.0 doing.now.entry b) }
    ensures cause { IfErr result (λ b. IsChanging b) }
    ensures alone { length seat.old.me.0.numbers ≡ seat.old.me.0.passes → IsOk result }
    ensures once { TookAtMost 1 seat.old.me.0 seat.new.me.0 }
    ensures two_words { IfErr result
        (λ b. (b.looked ≡ word_of doing.now.noted) × (b.found ≢ b.looked)) }
    ensures valid { IfOk result (λ r. r.before.valid ≡ doing.now.noted.valid) }
    ensures leaves { IfOk result (λ r. leaves_state r ≡ true) }
    ensures steps { Took (Look doing.now.entry doing.now.op ∷ []) seat.old.me.0 seat.new.me.0 }
{
    let found = look_again::<Brand>(table, seat, doing);
    if decides(doing, &mut outcome, found) {
        return Ok(outcome.receipt);
    }
    Err(Busy {
        entry: doing.entry,
        looked: word_from(&doing.noted),
        found,
    })
}

/// The mark, for an access that raises a bit.
#[inline(always)]
fn raise_bits(
    table: &Words,
    seat: &mut PassSeat,
    doing: &Doing,
    outcome: Outcome,
) -> Result<Receipt, Busy>
    requires table { IsAt table.now.table_id seat.old.table_id table.now.key seat.old.me }
    requires entry { doing.now.entry < length (states_of table.now.key) }
    requires acting { IsActing seat.old.me.0 }
    requires looking { IsLooking seat.old.me.0 doing.now }
    requires read { is_read_of doing.now ≡ true }
    requires may { changes_of doing.now ≡ true }
    requires outcome { outcome.receipt ≡ receipt_of doing.now }
    requires after { outcome.after ≡ next_of doing.now }
    ensures table { IsAt table.now.table_id seat.new.table_id table.now.key seat.new.me }
    ensures acting { IsActing seat.new.me.0 }
    ensures idle { seat.new.me.0.actor.phase ≡ Idle }
    ensures receipt { IfOk result (λ r. IsReceiptOf doing.now.entry doing.now.op r) }
    ensures made { IfOk result (λ r. MadeReceipt seat.old.me.0 seat.new.me.0 r) }
    ensures same { IfErr result (λ b. MadeNothing seat.old.me.0 seat.new.me.0) }
    ensures last { IfErr result (λ b. TellsLastStep seat.old.me.0 seat.new.me.0 doing.now.entry b) }
    ensures cause { IfErr result (λ b. IsChanging b) }
    ensures alone { length seat.old.me.0.numbers ≡ seat.old.me.0.passes → IsOk result }
    ensures once { TookAtMost 1 seat.old.me.0 seat.new.me.0 }
    ensures two_words { IfErr result
        (λ b. (b.looked ≡ word_of doing.now.noted) × (b.found ≢ b.looked)) }
    ensures valid { IfOk result (λ r. r.before.valid ≡ doing.now.noted.valid) }
    ensures changes { IfOk result (λ r. leaves_state r ≡ false) }
    ensures steps { Took (Mark ∷ []) seat.old.me.0 seat.new.me.0 }
{
    let found = mark::<Brand>(
        table,
        seat,
        doing,
        word_from(&marked_control(doing, &outcome.after)),
    );
    let looked = word_from(&doing.noted);
    if found == looked {
        return Ok(outcome.receipt);
    }
    Err(Busy {
        entry: doing.entry,
        looked,
        found,
    })
}

/// Tries an access.
#[inline(always)]
pub fn try_access(table: &Words, seat: &mut PassSeat, entry: u32, op: Op) -> Result<Receipt, Busy>
    requires table { IsAt table.now.table_id seat.old.table_id table.now.key seat.old.me }
    requires entry { entry < length (states_of table.now.key) }
    requires acting { IsActing seat.old.me.0 }
    requires idle { seat.old.me.0.actor.phase ≡ Idle }
    requires op { is_access op ≡ true }
    ensures table { IsAt table.now.table_id seat.new.table_id table.now.key seat.new.me }
    ensures acting { IsActing seat.new.me.0 }
    ensures idle { seat.new.me.0.actor.phase ≡ Idle }
    ensures receipt { IfOk result (λ r. IsReceiptOf entry op r) }
    ensures made { IfOk result (λ r. MadeReceipt seat.old.me.0 seat.new.me.0 r) }
    ensures same { IfErr result (λ b. MadeNothing seat.old.me.0 seat.new.me.0) }
    ensures last { IfErr result (λ b. TellsLastStep seat.old.me.0 seat.new.me.0 entry b) }
    ensures cause { IfErr result (λ b. IsChanging b) }
    ensures alone { length seat.old.me.0.numbers ≡ seat.old.me.0.passes → IsOk result }
    ensures once { TookAtMost 2 seat.old.me.0 seat.new.me.0 }
    ensures steps { IfOk result
        (λ r. Took (made_steps entry op r) seat.old.me.0 seat.new.me.0) }
    ensures busy { IfErr result (λ b. TookBusy entry op b seat.old.me.0 seat.new.me.0) }
{
    let looked = look_first(table, seat, entry, op)?;
    let doing = load_words(table, seat, &looked);
    let outcome = outcome_of(&doing);
    if outcome.changes {
        raise_bits(table, seat, &doing, outcome)
    } else {
        decide(table, seat, &doing, outcome)
    }
}
