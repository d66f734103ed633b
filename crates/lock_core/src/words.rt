//! What the words of an entry mean: the state that they stand for, and the receipt that an actor
//! makes of the words it knows.
ghost use Rattle.std.specs.Prelude.{◌≡◌};
ghost use Rattle.basics.specs.Words.{bool_eq};
ghost use Rattle.entry_model.specs.History.{state_eq};
ghost use Rattle.lock_core.specs.Words as words;

use crate::control::Control;
use crate::doing::Doing;
use entry_model::{EntryState, Receipt, reply};
use hpte_fields::{CHANGED, REFERENCED};

/// R and C, in a second doubleword.
const BITS: u64 = REFERENCED | CHANGED;

/// Whether the two are the same.
pub fn same_bit(a: bool, b: bool) -> bool
    ensures { result ≡ bool_eq a b }
{
    if a { b } else { !b }
}

/// The state that words stand for: without valid there is nothing.
pub fn state_of(control: &Control, dword0: u64, dword1: u64) -> EntryState
    ensures { result ≡ words.state_of control.now dword0 dword1 }
{
    if !control.valid {
        return EntryState::empty(control.stamp);
    }
    EntryState {
        valid: true,
        dword0,
        dword1: dword1 ^ (dword1 & BITS),
        referenced: control.referenced,
        changed: control.changed,
        stamp: control.stamp,
    }
}

/// The control word of a state, while nobody holds the entry.
pub fn settled_word(state: &EntryState) -> Control
    ensures { result ≡ words.settled_word state.now }
{
    Control {
        locked: false,
        shut: false,
        valid: state.valid,
        referenced: state.referenced,
        changed: state.changed,
        stamp: state.stamp,
    }
}

/// The data words that were loaded, or where none was those that were seen.
fn known(doing: &Doing) -> Option<(u64, u64)>
    ensures { result ≡ words.known_words doing.now }
{
    match (doing.first, doing.second) {
        (None, None) => doing.seen,
        (Some(first), Some(second)) => Some((first, second)),
        _ => None,
    }
}

/// The state before, by what is known.
#[tactic(auto, unfolding(crate::specs::Words::noted_state))]
pub fn noted_state(doing: &Doing) -> EntryState
    ensures { result ≡ words.noted_state doing.now }
{
    let (dword0, dword1) = known(doing).unwrap_or((0, 0));
    state_of(&doing.noted, dword0, dword1)
}

/// Whether the two states are the same.
#[tactic(auto, unfolding(entry_model::specs::History::state_eq))]
pub fn same_state(a: &EntryState, b: &EntryState) -> bool
    ensures { result ≡ state_eq a.now b.now }
{
    let words = same_bit(a.valid, b.valid) && a.dword0 == b.dword0 && a.dword1 == b.dword1;
    let bits = same_bit(a.referenced, b.referenced) && same_bit(a.changed, b.changed);
    words && bits && a.stamp == b.stamp
}

/// The receipt of the operation, by what is known.
#[tactic(auto, unfolding(crate::specs::Words::receipt))]
pub fn receipt(doing: &Doing) -> Receipt
    ensures { result ≡ words.receipt doing.now }
{
    let before = noted_state(doing);
    let (answer, _) = reply(&before, &doing.op);
    Receipt {
        entry: doing.entry,
        before,
        op: doing.op,
        answer,
    }
}

/// Whether the data words were seen and not loaded, and the entry is still at the noted stamp.
#[tactic(auto, unfolding(crate::specs::Words::is_still))]
pub fn is_still(found: &Control, doing: &Doing) -> bool
    ensures { result ≡ words.is_still found.now doing.now }
{
    let none_loaded = doing.first.is_none() && doing.second.is_none();
    none_loaded && found.valid && !found.shut && found.stamp == doing.noted.stamp
}
