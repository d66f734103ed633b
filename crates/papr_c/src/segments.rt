//! The segment lookaside buffer in the caller's memory: `slbmte`, clearing, and the search for the
//! segment of an address.
ghost use Rattle.std.specs.Prelude.{◌≡◌, Some, None, MatchResult, replicate};
ghost use Rattle.basics.specs.Words.{first_refusal};
ghost use Rattle.papr_c.specs.Segments.{covering, slot_of, slot_told, slot_at, outcome_of_mte};

use slb_model::{BadSlb, SLOT_NUMBER, SLOT_VALID, Slot};

/// One slot of a segment lookaside buffer. All zero is an invalid one.
#[repr(C)]
#[derive(Clone, Copy)]
pub struct PaprSlot {
    /// The upper 36 bits of the segment's addresses; of a segment of 1 TB the upper 24 count.
    pub esid: u64,
    /// The segment's number.
    pub vsid: u64,
    /// The binary logarithm of its base page size.
    pub shift: u8,
    /// Whether the slot has a segment.
    pub valid: bool,
    /// Whether the segment is one of 1 TB, and not of 256 MB.
    pub one_tb: bool,
    /// The key of an access in privileged state.
    pub ks: bool,
    /// The key of an access in problem state.
    pub kp: bool,
    /// Whether the segment refuses instruction fetches.
    pub no_execute: bool,
}

/// The segment lookaside buffer of a processor.
#[repr(C)]
#[derive(Clone, Copy)]
pub struct PaprSlb {
    /// Its slots, by their numbers.
    pub slots: [PaprSlot; 32],
}

impl PaprSlot {
    /// An invalid slot.
    const NONE: PaprSlot = PaprSlot {
        esid: 0,
        vsid: 0,
        shift: 0,
        valid: false,
        one_tb: false,
        ks: false,
        kp: false,
        no_execute: false,
    };

    /// A valid slot.
    fn valid(slot: Slot) -> PaprSlot
        ensures { result ≡ slot_told (Some slot) }
    {
        PaprSlot {
            esid: slot.esid,
            vsid: slot.vsid,
            shift: slot.shift,
            valid: true,
            one_tb: slot.one_tb,
            ks: slot.ks,
            kp: slot.kp,
            no_execute: slot.no_execute,
        }
    }

    /// What the slot describes, where it is valid.
    fn slot(&self) -> Option<Slot>
        ensures { result ≡ slot_of self.now }
    {
        self.valid.then_some(Slot {
            esid: self.esid,
            one_tb: self.one_tb,
            vsid: self.vsid,
            shift: self.shift,
            ks: self.ks,
            kp: self.kp,
            no_execute: self.no_execute,
        })
    }

    /// Whether the slot has a segment, and the address lies in it.
    fn has(&self, ea: u64) -> bool
        ensures { result ≡ covering ea self.now }
    {
        match self.slot() {
            Some(slot) => slot.covers(ea),
            None => false,
        }
    }
}

fn refusal_number(refusal: BadSlb) -> u32
    ensures { result ≡ Rattle.papr_c.specs.Segments.refusal_number (Some refusal) }
{
    match refusal {
        BadSlb::Slot => 1,
        BadSlb::SegmentSize => 2,
        BadSlb::PageSize => 3,
    }
}

/// The instruction `slbmte`: writes the slot that `rb` names, with the segment that both words
/// describe, or without V in `rb` with none. 0, or the number of what is wrong with the words; then
/// nothing changes.
#[tactic(auto, unfolding(slb_model::specs::Refusals::mte_refusal))]
#[unsafe(no_mangle)]
pub extern "C" fn papr_slb_mte(slb: &mut PaprSlb, rb: u64, rs: u64) -> u32
    ensures { (result, slb.new.slots) ≡ outcome_of_mte slb.old.slots rb rs }
{
    let number = (rb & SLOT_NUMBER) as usize;
    if number >= slb.slots.len() {
        return refusal_number(BadSlb::Slot);
    }
    if rb & SLOT_VALID != SLOT_VALID {
        slb.slots[number] = PaprSlot::NONE;
        return 0;
    }
    match Slot::of_words(rb, rs) {
        Ok(slot) => {
            slb.slots[number] = PaprSlot::valid(slot);
            0
        }
        Err(refusal) => refusal_number(refusal),
    }
}

/// Makes all 32 slots invalid. Unlike the instruction `slbia` it spares none.
#[unsafe(no_mangle)]
pub extern "C" fn papr_slb_clear(slb: &mut PaprSlb)
    ensures { slb.new.slots ≡ replicate 32 (slot_told None) }
{
    slb.slots = [PaprSlot::NONE; 32];
}

/// The lowest of the slots that has a segment with this effective address, or an invalid one.
fn lowest(slots: &[PaprSlot], ea: u64) -> PaprSlot
    ensures { result ≡ slot_told (slot_at slots.now ea) }
{
    for i in 0..slots.len() {
        if slots[i].has(ea) {
            return slots[i];
        }
    }
    PaprSlot::NONE
}

/// The slot of the segment in which an effective address lies: the lowest valid one that has it, or
/// an invalid one where none has.
#[unsafe(no_mangle)]
pub extern "C" fn papr_slb_find(slb: &PaprSlb, ea: u64) -> PaprSlot
    ensures { result ≡ slot_told (slot_at slb.now.slots ea) }
{
    lowest(&slb.slots, ea)
}
