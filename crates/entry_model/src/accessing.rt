//! How an entry answers a processor's access: it is compared with the page, then protection and the
//! authority masks decide, and R and C are set.
ghost use Rattle.std.specs.Prelude.{◌≡◌, true, is_some};
ghost use Rattle.entry_model.specs.Reply as table;

use crate::operation::{Answer, Op};
use crate::receipt::Receipt;
use crate::state::EntryState;
use authority_mask::{MaskName, Masks, forbids};
use hpte_fields::{SECONDARY, TAG, VALID, pp};
use page_sizes::decode;
use storage_prot::{Want, allows};

/// B, the abbreviated virtual page number, H and V.
const COMPARED: u64 = TAG | SECONDARY | VALID;

/// What an entry answers to an access, and its next state.
#[inline(always)]
pub fn accessed(
    before: &EntryState,
    tag: u64,
    base: u8,
    key: bool,
    no_execute: bool,
    want: Want,
    masks: Masks,
) -> (Answer, EntryState)
    ensures { result
        ≡ table.answer_of_access
        before.now
        tag
        base
        (table.access_mode key no_execute want masks) }
{
    if before.valid && before.dword0 & COMPARED == tag && has_base(before, base) {
        matched(before, key, no_execute, want, masks)
    } else {
        (Answer::NoMatch, *before)
    }
}

/// Whether the entry's base pages have this size.
#[tactic(auto, unfolding(crate::specs::Reply::has_base))]
#[inline]
fn has_base(state: &EntryState, base: u8) -> bool
    ensures { result ≡ table.has_base state.now.dword0 state.now.dword1 base }
{
    match decode(state.dword0, state.dword1) {
        Some(size) => size.base == base,
        None => false,
    }
}

/// The answer of an entry that translates the page.
#[inline(always)]
fn matched(
    before: &EntryState,
    key: bool,
    no_execute: bool,
    want: Want,
    masks: Masks,
) -> (Answer, EntryState)
    requires { before.now.valid ≡ true }
    ensures { result
        ≡ table.answer_of_match before.now (table.access_mode key no_execute want masks) }
{
    let no_fetch = no_execute || hpte_fields::no_execute(before.dword1);
    if !allows(pp(before.dword1), key, no_fetch, want) {
        return (Answer::Denied, *before);
    }
    if mask_against(before, want, masks).is_some() {
        return (Answer::Masked, *before);
    }
    let mut next = *before;
    next.referenced = true;
    next.changed = before.changed || matches!(want, Want::Store);
    (Answer::At, next)
}

/// The mask that refuses the access for the entry's key, if one does.
#[inline]
fn mask_against(before: &EntryState, want: Want, masks: Masks) -> Option<MaskName>
    ensures { result ≡ table.mask_against before.now masks want }
{
    forbids(masks, hpte_fields::key(before.dword1), want)
}

impl Receipt {
    ghost use Rattle.entry_model.specs.Receipt.{mask_of};

    /// The mask of the processor that refuses the receipt's operation for its entry's key, where it
    /// is an access that a mask refuses.
    pub fn mask(&self) -> Option<MaskName>
        ensures { result ≡ mask_of self.now }
    {
        match self.op {
            Op::Access { want, masks, .. } => mask_against(&self.before, want, masks),
            _ => None,
        }
    }
}
