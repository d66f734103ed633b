//! Each step on an entry as code: in which phase it fits, and what it leaves of the entry and of
//! the actor.
ghost use Rattle.std.specs.Prelude.{◌≡◌, true, false, None, if◌then◌else◌};
ghost use Rattle.lock_core.specs.Steps.{entry_of as entry_by, fits as fits_of, result_without_receipt as going_on, result_with_receipt as ending, with_loaded as loaded_of, with_stored as stored_of, second_look as second_look_of, step_result as result_by, new_doing as begun_by, with_noted as noting_of, shut_entry, locked_entry, settled_entry, marked_entry};
ghost use Rattle.lock_core.specs.Words.{receipt as receipt_of, next_state as next_of, is_noted as is_noted_of};
ghost use Rattle.lock_core.specs.declared.phase.Phase.TheVariants.{Idle, Held, HeldShut, Looked};

use crate::words::{changes, is_noted, is_read, is_stored, next_state, same_access};
use entry_model::{EntryState, Op, Receipt};
use lock_core::{Doing, Entry, Phase, Step, StepResult, is_still, receipt, settled_word};

/// The entry that a step is on.
pub fn entry_of(phase: &Phase, step: &Step) -> u32
    ensures { result ≡ entry_by phase.now step.now }
{
    match *phase {
        Phase::Held(doing) => doing.entry,
        Phase::HeldShut(doing) => doing.entry,
        Phase::Looked(doing) => doing.entry,
        Phase::Idle => match *step {
            Step::Lock { entry, op: _ } => entry,
            Step::Look { entry, op: _ } => entry,
            _ => 0,
        },
    }
}

/// Whether the step is one of this phase, on an entry with these words.
#[tactic(auto, unfolding(lock_core::specs::Steps::fits))]
pub fn fits(entry: &Entry, phase: &Phase, step: &Step) -> bool
    ensures { result ≡ fits_of entry.now phase.now step.now }
{
    match (*phase, *step) {
        (Phase::Idle, Step::Lock { entry: _, op }) => !op.is_access(),
        (Phase::Idle, Step::Look { entry: _, op }) => op.is_access(),
        (Phase::Held(doing), Step::LoadData { second: _ }) => doing.noted.valid,
        (Phase::Held(doing), Step::Shut) => is_read(&doing) && changes(&doing),
        (Phase::Held(doing), Step::Release) => is_read(&doing) && !changes(&doing),
        (Phase::HeldShut(_), Step::StoreData { second: _ }) => true,
        // Both words are stored before the entry opens: who sees its new stamp may read no old
        // word.
        (Phase::HeldShut(doing), Step::Settle) => is_stored(entry, &next_state(&doing)),
        (Phase::Looked(doing), Step::LoadData { second: _ }) => doing.noted.valid,
        (Phase::Looked(doing), Step::Look { entry: e, op }) => {
            let same = e == doing.entry && same_access(&op, &doing.op);
            same && is_read(&doing) && !changes(&doing)
        }
        (Phase::Looked(doing), Step::Mark) => is_read(&doing) && changes(&doing),
        _ => false,
    }
}

/// On, without a receipt.
fn goes_on(entry: Entry, phase: Phase) -> StepResult
    ensures { result ≡ going_on entry phase }
{
    StepResult {
        entry,
        phase,
        made: None,
    }
}

/// Idle, with a receipt.
fn ends(entry: Entry, receipt: Receipt) -> StepResult
    ensures { result ≡ ending entry receipt }
{
    StepResult {
        entry,
        phase: Phase::Idle,
        made: Some(receipt),
    }
}

/// The operation with a data word that was loaded.
fn loaded(second: bool, entry: &Entry, doing: Doing) -> Doing
    ensures { result ≡ loaded_of second entry.now doing }
{
    let mut next = doing;
    if second {
        next.second = Some(entry.dword1);
    } else {
        next.first = Some(entry.dword0);
    }
    next
}

/// The entry with a data word that was stored.
fn stored(second: bool, state: &EntryState, entry: &Entry) -> Entry
    ensures { result ≡ stored_of second state.now entry.now }
{
    let mut next = *entry;
    if second {
        next.dword1 = state.dword1;
    } else {
        next.dword0 = state.dword0;
    }
    next
}

/// The lock step: it takes the entry where nobody holds it.
fn lock(entry: &Entry, e: u32, op: Op) -> StepResult
    ensures { result
        ≡ (if entry.now.control.locked
        then going_on entry.now Idle
        else
        going_on (locked_entry entry.now true) (Held (begun_by e op entry.now.control None))) }
{
    if entry.control.locked {
        return goes_on(*entry, Phase::Idle);
    }
    let mut next = *entry;
    next.control.locked = true;
    goes_on(next, Phase::Held(Doing::new(e, op, entry.control, None)))
}

/// The first look: an entry that is shut is left.
fn look(entry: &Entry, e: u32, op: Op, seen: Option<(u64, u64)>) -> StepResult
    ensures { result
        ≡ (if entry.now.control.shut
        then going_on entry.now Idle
        else going_on entry.now (Looked (begun_by e op entry.now.control seen))) }
{
    if entry.control.shut {
        return goes_on(*entry, Phase::Idle);
    }
    goes_on(
        *entry,
        Phase::Looked(Doing::new(e, op, entry.control, seen)),
    )
}

/// The shut step: the word found has the R and C that count.
fn shut(entry: &Entry, doing: Doing) -> StepResult
    ensures { result
        ≡ going_on (shut_entry entry.now) (HeldShut (noting_of doing entry.now.control)) }
{
    let mut next = *entry;
    next.control.shut = true;
    goes_on(next, Phase::HeldShut(doing.with_noted(entry.control)))
}

/// The release step: the word found has the R and C before.
fn release(entry: &Entry, doing: Doing) -> StepResult
    ensures { result
        ≡ ending (locked_entry entry.now false) (receipt_of (noting_of doing entry.now.control)) }
{
    let mut next = *entry;
    next.control.locked = false;
    ends(next, receipt(&doing.with_noted(entry.control)))
}

/// The settle step.
fn settle(entry: &Entry, doing: Doing) -> StepResult
    ensures { result ≡ ending (settled_entry entry.now (next_of doing)) (receipt_of doing) }
{
    let mut next = *entry;
    next.published = next_state(&doing);
    next.control = settled_word(&next.published);
    ends(next, receipt(&doing))
}

/// The second look: it decides on the very word that was noted, and where the words were seen also
/// on one of the same stamp.
#[tactic(auto, unfolding(lock_core::specs::Steps::second_look))]
fn second_look(entry: &Entry, doing: Doing) -> StepResult
    ensures { result ≡ second_look_of entry.now doing }
{
    if is_noted(&entry.control, &doing.noted) {
        return ends(*entry, receipt(&doing));
    }
    if is_still(&entry.control, &doing) {
        return ends(*entry, receipt(&doing.with_noted(entry.control)));
    }
    goes_on(*entry, Phase::Idle)
}

/// The mark: it sets the bits where it finds the very word that was noted.
fn mark(entry: &Entry, doing: Doing) -> StepResult
    ensures { result
        ≡ (if is_noted_of entry.now.control doing.noted
        then ending (marked_entry entry.now (next_of doing)) (receipt_of doing)
        else going_on entry.now Idle) }
{
    if !is_noted(&entry.control, &doing.noted) {
        return goes_on(*entry, Phase::Idle);
    }
    let after = next_state(&doing);
    let mut next = *entry;
    next.control.referenced = after.referenced;
    next.control.changed = after.changed;
    next.published = after;
    ends(next, receipt(&doing))
}

/// What a step on an entry leaves, of an actor that has seen these doublewords of it.
#[tactic(auto, unfolding(lock_core::specs::Steps::step_result))]
pub fn take_step(seen: Option<(u64, u64)>, entry: &Entry, phase: &Phase, step: &Step) -> StepResult
    ensures { result ≡ result_by seen entry.now phase.now step.now }
{
    match (*phase, *step) {
        (Phase::Idle, Step::Lock { entry: e, op }) => lock(entry, e, op),
        (Phase::Idle, Step::Look { entry: e, op }) => look(entry, e, op, seen),
        (Phase::Held(doing), Step::LoadData { second }) => {
            goes_on(*entry, Phase::Held(loaded(second, entry, doing)))
        }
        (Phase::Held(doing), Step::Shut) => shut(entry, doing),
        (Phase::Held(doing), Step::Release) => release(entry, doing),
        (Phase::HeldShut(doing), Step::StoreData { second }) => {
            goes_on(
                stored(second, &next_state(&doing), entry),
                Phase::HeldShut(doing),
            )
        }
        (Phase::HeldShut(doing), Step::Settle) => settle(entry, doing),
        (Phase::Looked(doing), Step::LoadData { second }) => {
            goes_on(*entry, Phase::Looked(loaded(second, entry, doing)))
        }
        (Phase::Looked(doing), Step::Look { entry: _, op: _ }) => second_look(entry, doing),
        (Phase::Looked(doing), Step::Mark) => mark(entry, doing),
        (other, _) => goes_on(*entry, other),
    }
}
