//! An access as C asks for it, and the end of its walk: words, sizes and rights of the entry that
//! was found, or why there is no translation.
ghost use Rattle.std.specs.Prelude.{◌≡◌};
ghost use Rattle.c_layout.specs.WalkEnds.{masks_of, no_entry, refused_walk, refusal_number, end_at};
ghost use Rattle.c_layout.specs.Accesses.{want_of};

use crate::rights::{causes, rights};
use authority_mask::{MaskName, Masks};
use entry_model::{Answer, EntryState, Receipt};
use hpt_walk::logical_of;
use page_sizes::decode;
use storage_prot::Want;

/// The access is allowed.
const ALLOWED: u32 = 0;

/// The entry's protection refuses it.
const DENIED: u32 = 1;

/// No entry translates the page.
pub const NO_PAGE: u32 = 2;

/// The arguments are out of range, and no entry was tried.
const REFUSED: u32 = 3;

/// AMR refuses it.
const AMR: u32 = 4;

/// IAMR refuses it.
const IAMR: u32 = 5;

/// What an access asks, in a segment that its caller has looked up.
#[repr(C)]
#[derive(Clone, Copy)]
pub struct PaprAccess {
    /// The effective address.
    pub ea: u64,
    /// The segment's number: 50 bits, or 38 in a segment of 1 TB.
    pub vsid: u64,
    /// The authority mask of the processor for loads and stores.
    pub amr: u64,
    /// Its authority mask for instruction fetches.
    pub iamr: u64,
    /// The binary logarithm of the segment's base page size: 12, 16 or 24, and in a segment of 1 TB
    /// also 34.
    pub shift: u8,
    /// 0 for a load, 1 for a store, 2 for a fetch.
    pub want: u8,
    /// Whether the segment is one of 1 TB, and not of 256 MB.
    pub one_tb: bool,
    /// The segment's key for the state of the processor: Kp in problem state, else Ks.
    pub key: bool,
    /// Whether the segment refuses instruction fetches.
    pub no_execute: bool,
}

/// What a walk found: all that a processor keeps of a translation, or why there is none. What isn't
/// known is 0.
#[repr(C)]
#[derive(Clone, Copy)]
pub struct PaprWalk {
    /// The logical address, where the access is allowed; else 0.
    pub logical: u64,
    /// Doubleword 0 of the entry that translates the page.
    pub dword0: u64,
    /// Its doubleword 1 after the walk, with R and C.
    pub dword1: u64,
    /// The index of the entry that translates the page, where there is one; else 0.
    pub entry: u32,
    /// 0 where the access is allowed, 1 where the entry's protection refuses it, 2 where no entry
    /// translates the page, 3 where the arguments are out of range, 4 where AMR refuses the access,
    /// 5 where IAMR does.
    pub outcome: u32,
    /// How many of the caller's slots for receipts were filled.
    pub receipts: u32,
    /// The entry's base page size, as a binary logarithm of bytes.
    pub base_shift: u8,
    /// The size of the real page.
    pub actual_shift: u8,
    /// What the entry lets this processor do after the walk, and need not record: read counts 4,
    /// write 2 and execute 1. So there is none without R, and none to write without C.
    pub rights: u8,
    /// All causes for which the access is refused: the protection bits count 1; N or G, or the
    /// segment's N, 2; AMR 4; IAMR 8.
    pub causes: u8,
}

impl PaprAccess {
    /// The masks of the access's processor.
    #[inline]
    pub fn masks(&self) -> Masks
        ensures { result ≡ masks_of self.now }
    {
        Masks {
            amr: self.amr,
            iamr: self.iamr,
        }
    }
}

/// What the number of an access wants.
pub fn want_of(want: u8) -> Option<Want>
    ensures { result ≡ Rattle.c_layout.specs.Accesses.want_of want }
{
    match want {
        0 => Some(Want::Load),
        1 => Some(Want::Store),
        2 => Some(Want::Fetch),
        _ => None,
    }
}

/// The outcome of an access that this mask refuses; without a mask, protection refuses it.
fn refusal(mask: Option<MaskName>) -> u32
    ensures { result ≡ refusal_number mask }
{
    match mask {
        None => DENIED,
        Some(MaskName::Amr) => AMR,
        Some(MaskName::Iamr) => IAMR,
    }
}

impl PaprWalk {
    /// An outcome without an entry.
    pub fn no_entry(outcome: u32, receipts: u32) -> PaprWalk
        ensures { result ≡ no_entry outcome receipts }
    {
        PaprWalk {
            logical: 0,
            dword0: 0,
            dword1: 0,
            entry: 0,
            outcome,
            receipts,
            base_shift: 0,
            actual_shift: 0,
            rights: 0,
            causes: 0,
        }
    }

    /// No entry was tried.
    pub fn refused() -> PaprWalk
        ensures { result ≡ refused_walk }
    {
        PaprWalk::no_entry(REFUSED, 0)
    }

    /// The end by the receipt of an entry that translates the page, and is in this state now.
    pub fn end(
        access: &PaprAccess,
        want: Want,
        receipt: &Receipt,
        now: &EntryState,
        receipts: u32,
    ) -> PaprWalk
        ensures { result ≡ end_at access.now want receipt.now now.now receipts }
    {
        let (dword0, dword1) = now.words();
        let (base_shift, actual_shift) = match decode(now.dword0, now.dword1) {
            Some(size) => (size.base, size.actual),
            None => (0, 0),
        };
        let mut end = PaprWalk {
            logical: 0,
            dword0,
            dword1,
            entry: receipt.entry,
            outcome: DENIED,
            receipts,
            base_shift,
            actual_shift,
            rights: rights(now, access),
            causes: 0,
        };
        match receipt.answer {
            Answer::At => {
                end.outcome = ALLOWED;
                end.logical = logical_of(access.ea, &receipt.before);
            }
            Answer::Masked => {
                end.outcome = refusal(receipt.mask());
                end.causes = causes(&receipt.before, access, want);
            }
            _ => end.causes = causes(&receipt.before, access, want),
        }
        end
    }
}
