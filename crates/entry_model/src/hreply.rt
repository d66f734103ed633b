//! Replies of hypervisor calls, in two parts: what is left in registers, and the receipts of the
//! operations.
ghost use Rattle.std.specs.Prelude.{◌≡◌, []};

use crate::lists::{Receipts, ReplyWords};
use papr_codes::Rc;

/// What a hypervisor call leaves in registers: its return code in register 3, and the words in
/// register 4 and those after it. With the receipts of its operations it is the call's reply.
#[derive(Drop)]
pub struct Registers {
    /// Register 3.
    pub rc: Rc,
    /// Register 4 and those after it.
    pub words: ReplyWords,
}

impl Registers {
    ghost use Rattle.entry_model.specs.Replies.{reply_with};

    /// A return code alone.
    pub fn with_code(rc: Rc) -> Registers
        ensures rc { result.rc ≡ rc }
        ensures words { result.words ≡ [] }
    {
        Registers {
            rc,
            words: ReplyWords::new(),
        }
    }

    /// The reply of a call that left these registers and made these receipts.
    pub fn into_reply(self, receipts: Receipts) -> HReply
        ensures { result ≡ reply_with self receipts }
    {
        HReply {
            rc: self.rc,
            words: self.words,
            receipts,
        }
    }
}

/// The reply of a hypervisor call: its return code, the words in register 4 and those after it,
/// and the receipts of the operations that it made, in their order.
#[derive(Drop)]
pub struct HReply {
    /// Register 3.
    pub rc: Rc,
    /// Register 4 and those after it.
    pub words: ReplyWords,
    /// One for each entry that was tried, in the order of the tries.
    pub receipts: Receipts,
}

impl HReply {
    ghost use Rattle.entry_model.specs.Trial.{IsReplyOf, plan_of_code};

    /// The reply of a call that touches no entry.
    pub fn without_receipts(rc: Rc) -> HReply
        ensures { IsReplyOf (plan_of_code rc) result }
    {
        HReply {
            rc,
            words: ReplyWords::new(),
            receipts: Receipts::new(),
        }
    }
}
