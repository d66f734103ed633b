//! A reply in two parts, its end and its receipts, so that the room for receipts serves many
//! replies.
ghost use Rattle.std.specs.Prelude.{◌≡◌, true};
ghost use Rattle.trace_reply.specs.Slots.{reply_in};

use crate::reply::Reply;
use crate::shown::Shown;
use entry_model::{
    AccessEnd, AccessReply, DeviceOutcome, DeviceReply, HReply, Receipts, Registers,
};

/// What a reply has without its receipts.
#[derive(Drop)]
pub enum ReplyEnd {
    /// Of a hypervisor call.
    Hcall(Registers),
    /// Of an access to memory.
    Access(AccessEnd),
    /// Of an access of a device.
    Device(DeviceOutcome),
    /// Of a change of the segment lookaside buffer: whether it was accepted.
    Segment(bool),
    /// Of the setting of an authority mask.
    MaskSet,
    /// Of a dump.
    Dump(Shown),
}

/// A slot that the replies to many lines take one after the other, so that the room for receipts
/// is made once. Where the reply has none, what lies in `receipts` isn't part of it.
#[derive(Drop)]
pub struct ReplySlot {
    /// How the reply ended, without its receipts.
    pub end: ReplyEnd,
    /// The receipts, where the reply has some.
    pub receipts: Receipts,
}

impl ReplySlot {
    /// A slot, with a change of segments that was accepted as its first reply.
    pub fn new() -> ReplySlot
        ensures { reply_in result ≡ Reply.Segment true }
    {
        ReplySlot {
            end: ReplyEnd::Segment(true),
            receipts: Receipts::new(),
        }
    }

    /// Gives the slot to a reply that was made elsewhere.
    pub fn put(&mut self, reply: Reply)
        ensures { reply_in self.new ≡ reply }
    {
        match reply {
            Reply::Hcall(
                HReply {
                    rc,
                    words,
                    receipts,
                },
            ) => {
                self.end = ReplyEnd::Hcall(Registers { rc, words });
                self.receipts = receipts;
            }
            Reply::Access(
                AccessReply {
                    outcome,
                    by,
                    receipts,
                },
            ) => {
                self.end = ReplyEnd::Access(AccessEnd { outcome, by });
                self.receipts = receipts;
            }
            Reply::Device(DeviceReply { outcome, receipts }) => {
                self.end = ReplyEnd::Device(outcome);
                self.receipts = receipts;
            }
            Reply::Segment(accepted) => self.end = ReplyEnd::Segment(accepted),
            Reply::MaskSet => self.end = ReplyEnd::MaskSet,
            Reply::Dump(shown) => self.end = ReplyEnd::Dump(shown),
        }
    }

    /// The reply that is in the slot.
    pub fn into_reply(self) -> Reply
        ensures { result ≡ reply_in self }
    {
        let ReplySlot { end, receipts } = self;
        match end {
            ReplyEnd::Hcall(registers) => Reply::Hcall(registers.into_reply(receipts)),
            ReplyEnd::Access(end) => Reply::Access(end.into_reply(receipts)),
            ReplyEnd::Device(outcome) => Reply::Device(outcome.into_reply(receipts)),
            ReplyEnd::Segment(accepted) => Reply::Segment(accepted),
            ReplyEnd::MaskSet => Reply::MaskSet,
            ReplyEnd::Dump(shown) => Reply::Dump(shown),
        }
    }
}
