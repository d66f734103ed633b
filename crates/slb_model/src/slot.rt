//! One slot of the segment lookaside buffer, decoded from the words of `slbmte` and compared with
//! effective addresses.
ghost use Rattle.std.specs.Prelude.{◌≡◌, true, IsTrue, IsSome, IfOk, IfSome, MatchResult, OnOk, Some, None};
ghost use Rattle.power_addr.specs.Pages.{is_base_shift};
ghost use Rattle.slb_model.specs.Slots.{IsSlot, covers, segment_by, slot_of_words, base_shift_of};
ghost use Rattle.basics.specs.Words.{first_refusal};
ghost use Rattle.slb_model.specs.Refusals.{tests_of_words};

use crate::error::BadSlb;
use crate::segment::Segment;
use power_addr::Page;

/// The binary logarithm of 16 GB, a base page size of 1 TB segments alone.
const HUGE_SHIFT: u8 = 34;

const KS: u64 = 0x800;

const KP: u64 = 0x400;

const NO_EXECUTE: u64 = 0x200;

/// L and LP, which together encode the base page size.
const BASE_PAGE: u64 = 0x130;

/// A valid slot.
#[derive(Clone, Copy)]
pub struct Slot {
    /// The upper 36 bits of the effective addresses in the segment; of a 1 TB segment the upper 24
    /// count.
    pub esid: u64,
    /// B: whether the segment has 1 TB; else it has 256 MB.
    pub one_tb: bool,
    /// The virtual segment identifier.
    pub vsid: u64,
    /// The binary logarithm of the base page size.
    pub shift: u8,
    /// The storage key of accesses in privileged state.
    pub ks: bool,
    /// The storage key of accesses in problem state.
    pub kp: bool,
    /// N: instruction fetches from the segment are refused.
    pub no_execute: bool,
}

impl Slot {
    /// The slot that the words of an `slbmte` with V set describe.
    #[tactic(auto, unfolding(crate::specs::Slots::slot_of_words, crate::specs::Refusals::tests_of_words))]
    pub fn of_words(rb: u64, rs: u64) -> Result<Slot, BadSlb>
        ensures slot { IfOk result (λ slot. slot_of_words rb rs ≡ Some slot) }
        ensures in_range { IfOk result IsSlot }
        ensures told { MatchResult
            result
            (λ _. first_refusal (tests_of_words rs) ≡ None)
            (λ e. first_refusal (tests_of_words rs) ≡ Some e) }
    {
        let one_tb = match rs >> 62 {
            0 => false,
            1 => true,
            _ => return Err(BadSlb::SegmentSize),
        };
        let shift = base_shift(rs).ok_or(BadSlb::PageSize)?;
        if shift == HUGE_SHIFT && !one_tb {
            return Err(BadSlb::PageSize);
        }
        let number = rs & (u64::MAX >> 2);
        Ok(Slot {
            esid: rb >> 28,
            one_tb,
            vsid: if one_tb { number >> 24 } else { number >> 12 },
            shift,
            ks: rs & KS == KS,
            kp: rs & KP == KP,
            no_execute: rs & NO_EXECUTE == NO_EXECUTE,
        })
    }

    /// Whether the effective address lies in the segment.
    pub fn covers(&self, ea: u64) -> bool
        ensures { result ≡ covers ea self.now }
    {
        if self.one_tb {
            ea >> 40 == self.esid >> 12
        } else {
            ea >> 28 == self.esid
        }
    }

    /// The segment, at an effective address in it.
    pub(crate) fn segment_at(&self, ea: u64) -> Option<Segment>
        requires { IsSlot self.now }
        ensures value { result ≡ segment_by ea self.now }
        ensures found { IsSome result }
    {
        let page = Page::of_address(self.one_tb, self.vsid, self.shift, ea)?;
        Some(Segment {
            page,
            ks: self.ks,
            kp: self.kp,
            no_execute: self.no_execute,
        })
    }
}

fn base_shift(rs: u64) -> Option<u8>
    ensures value { result ≡ base_shift_of rs }
    ensures in_range { IfSome result (λ shift. IsTrue (is_base_shift true shift)) }
{
    match rs & BASE_PAGE {
        0x000 => Some(12),
        0x110 => Some(16),
        0x100 => Some(24),
        0x120 => Some(HUGE_SHIFT),
        _ => None,
    }
}
