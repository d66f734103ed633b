//! What an operation does, by what is known of its entry. It is computed once for a try, and again
//! only where R or C were raised in between.
ghost use Rattle.std.specs.Prelude.{◌≡◌, ◌≢◌, true, false, not};
ghost use Rattle.entry_model.specs.History.{state_eq};
ghost use Rattle.entry_model.specs.Reply.{reply_of};
ghost use Rattle.lock_core.specs.declared.control.Control.{Control as ControlOf};
ghost use Rattle.lock_core.specs.Steps.{with_noted};
ghost use Rattle.lock_core.specs.Words.{noted_state as noted_of, changes as changes_of, next_state as next_of, receipt as receipt_of};
ghost use Rattle.entry_lock.specs.Layout.{word_of, Means};
ghost use Rattle.entry_lock.specs.AccessSteps.{is_decided};
ghost use Rattle.entry_lock.specs.LeftStates.{is_left as is_left_by};

use crate::control_word::{control_of, word_from};
use entry_model::{Answer, EntryState, Op, Receipt, reply};
use lock_core::{Control, Doing, is_still, noted_state, same_state};

/// What an operation does.
#[derive(Drop)]
pub struct Outcome {
    /// Its receipt.
    pub receipt: Receipt,
    /// The state after.
    pub after: EntryState,
    /// It changes the entry.
    pub changes: bool,
}

/// Whether an entry that answers so is left as it is, whatever the operation.
#[inline(always)]
fn is_left(answer: Answer) -> bool
    ensures { result ≡ is_left_by answer }
{
    matches!(
        answer,
        Answer::Taken
            | Answer::Words
            | Answer::NotFound
            | Answer::NoMatch
            | Answer::Denied
            | Answer::Masked
            | Answer::Worn
    )
}

/// Whether a reply changes the entry. Most answers say so by themselves, without a comparison of
/// the two states.
#[inline(always)]
fn differs(answer: Answer, after: &EntryState, before: &EntryState) -> bool
    requires left { is_left_by answer ≡ true → after.now ≡ before.now }
    ensures { result ≡ not (state_eq after.now before.now) }
{
    if is_left(answer) {
        return false;
    }
    !same_state(after, before)
}

/// What the operation does, by the state that it finds and the entry's reply.
#[tactic(auto, unfolding(lock_core::specs::Words::changes, lock_core::specs::Words::next_state))]
#[inline(always)]
fn outcome_from(doing: &Doing, before: EntryState, replied: (Answer, EntryState)) -> Outcome
    requires before { before ≡ noted_of doing.now }
    requires replied { replied ≡ reply_of before doing.now.op }
    ensures receipt { result.receipt ≡ receipt_of doing.now }
    ensures after { result.after ≡ next_of doing.now }
    ensures changes { result.changes ≡ changes_of doing.now }
{
    let (answer, after) = replied;
    let changes = differs(answer, &after, &before);
    let receipt = Receipt {
        entry: doing.entry,
        before,
        op: doing.op,
        answer,
    };
    Outcome {
        receipt,
        after,
        changes,
    }
}

/// What the operation does.
// In line, so that each caller keeps what it needs of it: half of an operation's instructions.
#[inline(always)]
pub fn outcome_of(doing: &Doing) -> Outcome
    ensures receipt { result.receipt ≡ receipt_of doing.now }
    ensures after { result.after ≡ next_of doing.now }
    ensures changes { result.changes ≡ changes_of doing.now }
{
    let before = noted_state(doing);
    let replied = reply(&before, &doing.op);
    outcome_from(doing, before, replied)
}

/// The entry's reply, for the few tries that need it twice: one function for all operations.
#[cold]
#[inline(never)]
fn reply_again(before: &EntryState, op: &Op) -> (Answer, EntryState)
    ensures { result ≡ reply_of before.now op.now }
{
    reply(before, op)
}

/// What the operation does, as `outcome_of`, where it seldom comes to that.
#[inline(always)]
fn outcome_again(doing: &Doing) -> Outcome
    ensures receipt { result.receipt ≡ receipt_of doing.now }
    ensures after { result.after ≡ next_of doing.now }
{
    let before = noted_state(doing);
    // A copy, since `doing` itself would have to lie in memory from its beginning on.
    let op = doing.op;
    let replied = reply_again(&before, &op);
    outcome_from(doing, before, replied)
}

/// What the operation does by the control word that was found, which has valid and stamp of the
/// noted one. Where it has its R and C too, that is what is known, and isn't computed again.
#[inline(always)]
pub fn outcome_by(doing: &Doing, known: Outcome, found: Control) -> Outcome
    requires receipt { known.receipt ≡ receipt_of doing.now }
    requires after { known.after ≡ next_of doing.now }
    requires valid { found.valid ≡ doing.now.noted.valid }
    requires stamp { found.stamp ≡ doing.now.noted.stamp }
    ensures receipt { result.receipt ≡ receipt_of (with_noted doing.now found) }
    ensures after { result.after ≡ next_of (with_noted doing.now found) }
{
    if found.referenced == doing.noted.referenced && found.changed == doing.noted.changed {
        return known;
    }
    outcome_again(&doing.with_noted(found))
}

/// Whether a second look that found this word decides the operation: it is the word noted, or
/// another at its stamp, whose R and C the outcome's receipt then has.
#[inline(always)]
pub fn decides(doing: &Doing, outcome: &mut Outcome, found: u64) -> bool
    requires outcome { outcome.old.receipt ≡ receipt_of doing.now }
    ensures decided { result ≡ true → (k : ControlOf) → Means found k
        → (is_decided k doing.now ≡ true)
        × (outcome.new.receipt ≡ receipt_of (with_noted doing.now k)) }
    ensures missed { result ≡ false → (found ≢ word_of doing.now.noted)
        × ((k : ControlOf) → Means found k → is_decided k doing.now ≡ false) }
{
    if found == word_from(&doing.noted) {
        return true;
    }
    // A lock, or a bit that another access raised, leaves the entry at its stamp.
    let control = control_of(found);
    if is_still(&control, doing) {
        outcome.receipt = outcome_of(&doing.with_noted(control)).receipt;
        return true;
    }
    false
}
