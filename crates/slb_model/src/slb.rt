//! The 32 slots of a processor's segment lookaside buffer, written by `slbmte` and searched by
//! effective address.
ghost use Rattle.std.specs.Prelude.{◌≡◌, Some, None, find, is_some, IfSome, MatchResult, OnOk, OnErr};
ghost use Rattle.std.specs.List.{list_any};
ghost use Rattle.slb_model.specs.Slots.{IsSlot, covers};
ghost use Rattle.slb_model.specs.Refusals.{mte_refusal};
ghost use Rattle.slb_model.specs.Buffer.{no_slots, valid_slots, slots_after, segment_of};

use crate::error::BadSlb;
use crate::segment::Segment;
use crate::slot::Slot;
use std::marker::Model;

const SLOTS: usize = 32;

/// The slot's number, in the first word of an `slbmte`.
pub const SLOT_NUMBER: u64 = 0xFFF;

/// V, in the first word of an `slbmte`.
pub const SLOT_VALID: u64 = 0x0800_0000;

/// The segment lookaside buffer of one processor.
#[derive(Drop)]
pub struct Slb {
    slots: [Option<Slot>; SLOTS],
}

impl Model for Slb {
    ghost use Rattle.std.specs.Prelude.{List, Option};
    ghost use Rattle.slb_model.specs.declared.slot.Slot.{Slot};
    ghost use Rattle.slb_model.specs.Buffer.{IsBuffer};

    ghost Value = { List (Option Slot) };

    ghost view = { λ slb. slb.slots };

    ghost invariant = { λ slb. IsBuffer slb.slots };
}

impl Slb {
    /// A buffer whose 32 slots are all invalid.
    pub fn new() -> Slb
        ensures { result ≡ no_slots }
    {
        Slb {
            slots: [None; SLOTS],
        }
    }

    /// The instruction `slbmte`: writes the slot that `rb` names, with the segment that both words
    /// describe. Without V in `rb` the slot is then invalid, and the rest of the words isn't read.
    #[tactic(auto, unfolding(crate::specs::Refusals::mte_refusal, crate::specs::Buffer::slots_after))]
    pub fn mte(&mut self, rb: u64, rs: u64) -> Result<(), BadSlb>
        ensures told { MatchResult result
            (λ _. mte_refusal rb rs ≡ None) (λ e. mte_refusal rb rs ≡ Some e) }
        ensures ok { OnOk result (self.new ≡ slots_after self.old rb rs) }
        ensures err { OnErr result (self.new ≡ self.old) }
    {
        let number = (rb & SLOT_NUMBER) as usize;
        if number >= SLOTS {
            return Err(BadSlb::Slot);
        }
        self.slots[number] = if rb & SLOT_VALID == SLOT_VALID {
            Some(Slot::of_words(rb, rs)?)
        } else {
            None
        };
        Ok(())
    }

    /// Makes all 32 slots invalid. Unlike the instruction `slbia` it spares none.
    pub fn clear(&mut self)
        ensures { self.new ≡ no_slots }
    {
        self.slots = [None; SLOTS];
    }

    /// The segment of the effective address, by the lowest valid slot that covers it; `None` where
    /// no valid slot does.
    #[tactic(auto, unfolding(crate::specs::Buffer::segment_of))]
    pub fn segment(&self, ea: u64) -> Option<Segment>
        ensures value { result ≡ segment_of self.now ea }
        ensures found { is_some result ≡ list_any (covers ea) (valid_slots self.now) }
    {
        self.lowest(ea)?.segment_at(ea)
    }

    fn lowest(&self, ea: u64) -> Option<Slot>
        ensures value { result ≡ find (covers ea) (valid_slots self.now) }
        ensures in_range { IfSome result IsSlot }
    {
        self.slots
            .iter()
            .filter_map(|slot| *slot)
            .find(|slot| slot.covers(ea))
    }
}
