//! The part of a reply on which its counts depend: a call's return code, or where an access ended
//! and by what.
ghost use Rattle.std.specs.Prelude.{◌≡◌};
ghost use Rattle.reply_text.specs.Summary.{kind_of};
ghost use Rattle.trace_reply.specs.Slots.{reply_in};

use entry_model::{By, Outcome};
use papr_codes::Rc;
use trace_reply::{Reply, ReplyEnd, ReplySlot};

/// What a summary looks at in a reply.
#[derive(Clone, Copy)]
pub enum ReplyKind {
    /// Of a hypervisor call, with this code.
    Call(Rc),
    /// Of an access that ended so, by this.
    Access(Outcome, Option<By>),
    /// Any other, which isn't counted.
    Other,
}

impl ReplyKind {
    /// The kind of a reply.
    pub fn of(reply: &Reply) -> ReplyKind
        ensures { result ≡ kind_of reply.now }
    {
        match reply {
            Reply::Hcall(reply) => ReplyKind::Call(reply.rc),
            Reply::Access(reply) => ReplyKind::Access(reply.outcome, reply.by),
            Reply::Device(_) | Reply::Segment(_) | Reply::MaskSet | Reply::Dump(_) => {
                ReplyKind::Other
            }
        }
    }

    /// The kind of the reply in the slot.
    pub fn in_slot(slot: &ReplySlot) -> ReplyKind
        ensures { result ≡ kind_of (reply_in slot.now) }
    {
        match &slot.end {
            ReplyEnd::Hcall(registers) => ReplyKind::Call(registers.rc),
            ReplyEnd::Access(end) => ReplyKind::Access(end.outcome, end.by),
            ReplyEnd::Device(_) | ReplyEnd::Segment(_) | ReplyEnd::MaskSet | ReplyEnd::Dump(_) => {
                ReplyKind::Other
            }
        }
    }
}
