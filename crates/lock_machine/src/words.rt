//! What steps ask of an entry's words: whether they are known, as noted, or stored, and the state
//! that an operation leads to.
ghost use Rattle.std.specs.Prelude.{◌≡◌, is_some};
ghost use Rattle.lock_core.specs.Words as words;

use authority_mask::Masks;
use entry_model::{EntryState, Op, reply};
use lock_core::{Control, Doing, Entry, noted_state, same_bit, same_state, settled_word};
use storage_prot::Want;

/// An entry in a state, which nobody holds.
pub fn quiet_entry(state: &EntryState) -> Entry
    ensures { result ≡ words.unheld_entry state.now }
{
    Entry {
        control: settled_word(state),
        dword0: state.dword0,
        dword1: state.dword1,
        published: *state,
    }
}

/// Whether the data words are known.
fn knows_words(doing: &Doing) -> bool
    ensures { result ≡ is_some (words.known_words doing.now) }
{
    match (doing.first, doing.second) {
        (None, None) => doing.seen.is_some(),
        (Some(_), Some(_)) => true,
        _ => false,
    }
}

/// Whether what must be known of the words is known.
pub fn is_read(doing: &Doing) -> bool
    ensures { result ≡ words.is_read doing.now }
{
    !doing.noted.valid || knows_words(doing)
}

/// The state after, by what is known.
#[tactic(auto, unfolding(lock_core::specs::Words::next_state))]
pub fn next_state(doing: &Doing) -> EntryState
    ensures { result ≡ words.next_state doing.now }
{
    reply(&noted_state(doing), &doing.op).1
}

/// Whether the reply changes the entry.
#[tactic(auto, unfolding(lock_core::specs::Words::changes))]
pub fn changes(doing: &Doing) -> bool
    ensures { result ≡ words.changes doing.now }
{
    !same_state(&next_state(doing), &noted_state(doing))
}

/// Whether the two control words are the same.
#[tactic(auto, unfolding(lock_core::specs::Words::is_noted))]
pub fn is_noted(found: &Control, noted: &Control) -> bool
    ensures { result ≡ words.is_noted found.now noted.now }
{
    let holder = same_bit(found.locked, noted.locked) && same_bit(found.shut, noted.shut);
    let bits = same_bit(found.referenced, noted.referenced)
        && same_bit(found.changed, noted.changed);
    holder && same_bit(found.valid, noted.valid) && bits && found.stamp == noted.stamp
}

/// Whether the two wants are the same.
fn same_want(a: Want, b: Want) -> bool
    ensures { result ≡ words.want_eq a b }
{
    match (a, b) {
        (Want::Load, Want::Load) => true,
        (Want::Store, Want::Store) => true,
        (Want::Fetch, Want::Fetch) => true,
        _ => false,
    }
}

/// Whether the two have the same values.
fn same_masks(a: Masks, b: Masks) -> bool
    ensures { result ≡ words.masks_eq a b }
{
    a.amr == b.amr && a.iamr == b.iamr
}

/// Whether the two are the same access.
#[tactic(auto, unfolding(lock_core::specs::Words::same_access))]
pub fn same_access(a: &Op, b: &Op) -> bool
    ensures { result ≡ words.same_access a.now b.now }
{
    match (*a, *b) {
        (
            Op::Access {
                tag,
                base,
                key,
                no_execute,
                want,
                masks,
            },
            Op::Access {
                tag: tag_b,
                base: base_b,
                key: key_b,
                no_execute: no_execute_b,
                want: want_b,
                masks: masks_b,
            },
        ) => {
            let page = tag == tag_b && base == base_b;
            page && same_bit(key, key_b)
                && same_bit(no_execute, no_execute_b)
                && same_want(want, want_b)
                && same_masks(masks, masks_b)
        }
        _ => false,
    }
}

/// Whether the data words are those of the state, or the state is empty.
#[tactic(auto, unfolding(lock_core::specs::Words::is_stored))]
pub fn is_stored(entry: &Entry, state: &EntryState) -> bool
    ensures { result ≡ words.is_stored entry.now state.now }
{
    !state.valid || (entry.dword0 == state.dword0 && entry.dword1 == state.dword1)
}
