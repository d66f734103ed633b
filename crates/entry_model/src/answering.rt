//! The table of operations on one page table entry: for each operation the answer and the next
//! state.
ghost use Rattle.std.specs.Prelude.{◌≡◌, true, false, if◌then◌else◌};
ghost use Rattle.hpte_fields.specs.Fields.{protected_word};
ghost use Rattle.entry_model.specs.Receipt.{after_of};
ghost use Rattle.entry_model.specs.Reply as table;

use crate::accessing::accessed;
use crate::operation::{Answer, Op, Test};
use crate::receipt::Receipt;
use crate::state::EntryState;
use hpte_fields::{CHANGED, REFERENCED, tag_of};

/// Whether there is an entry and it passes the test.
#[inline]
fn is_found(state: &EntryState, test: &Test) -> bool
    ensures { result ≡ table.is_found state.now test.now }
{
    let fits_avpn = match test.avpn {
        Some(avpn) => tag_of(state.dword0) == avpn,
        None => true,
    };
    let fits_andcond = match test.andcond {
        Some(andcond) => state.dword0 & andcond == 0,
        None => true,
    };
    state.valid && fits_avpn && fits_andcond
}

/// Changes an entry, unless its stamp is at its last value.
#[inline(always)]
fn changed_to(before: &EntryState, answer: Answer, next: EntryState) -> (Answer, EntryState)
    ensures { result ≡ table.change_to before.now answer next }
{
    if before.stamp == u32::MAX {
        return (Answer::Worn, *before);
    }
    let mut next = next;
    next.stamp = before.stamp + 1;
    (answer, next)
}

/// The state that H_ENTER makes of an empty entry, at stamp 0.
pub fn entered(dword0: u64, dword1: u64) -> EntryState
    ensures { result ≡ table.entered_state dword0 dword1 }
{
    EntryState {
        valid: true,
        dword0,
        dword1: dword1 & !(REFERENCED | CHANGED),
        referenced: dword1 & REFERENCED == REFERENCED,
        changed: dword1 & CHANGED == CHANGED,
        stamp: 0,
    }
}

/// A valid entry's state with the protection of H_PROTECT's flags.
fn protected(before: &EntryState, flags: u64) -> EntryState
    requires { before.now.valid ≡ true }
    ensures { result ≡ record before.now { dword1 = protected_word before.now.dword1 flags } }
{
    let mut next = *before;
    next.dword1 = hpte_fields::protected(before.dword1, flags);
    next
}

/// What an entry in this state answers to an operation, and its next state.
// In line, so that a caller that knows the operation keeps its part alone.
#[inline(always)]
pub fn reply(before: &EntryState, op: &Op) -> (Answer, EntryState)
    ensures { result ≡ table.reply_of before.now op.now }
{
    match *op {
        Op::Enter { dword0, dword1 } => {
            if before.valid {
                return (Answer::Taken, *before);
            }
            changed_to(before, Answer::Entered, entered(dword0, dword1))
        }
        Op::Remove { test } => {
            if !is_found(before, &test) {
                return (Answer::NotFound, *before);
            }
            changed_to(before, Answer::Removed, EntryState::empty(0))
        }
        Op::Protect { test, flags } => {
            if !is_found(before, &test) {
                return (Answer::NotFound, *before);
            }
            changed_to(before, Answer::Protected, protected(before, flags))
        }
        Op::Read => (Answer::Words, *before),
        Op::ClearRef => cleared(before, false),
        Op::ClearMod => cleared(before, true),
        Op::Access {
            tag,
            base,
            key,
            no_execute,
            want,
            masks,
        } => accessed(before, tag, base, key, no_execute, want, masks),
    }
}

/// Clears C (`change`) or R.
#[inline(always)]
fn cleared(before: &EntryState, change: bool) -> (Answer, EntryState)
    ensures { result
        ≡ table.change_where
        before.now.valid
        before.now
        Answer.Was
        (if change
        then record before.now { changed = false }
        else record before.now { referenced = false }) }
{
    if !before.valid {
        return (Answer::NotFound, *before);
    }
    let mut next = *before;
    if change {
        next.changed = false;
    } else {
        next.referenced = false;
    }
    changed_to(before, Answer::Was, next)
}

impl Receipt {
    /// The entry's state after the operation.
    pub fn after(&self) -> EntryState
        ensures { result ≡ after_of self.now }
    {
        reply(&self.before, &self.op).1
    }
}
