//! How a device's access through a DMA window is answered: its outcome, and the receipt of the TCE
//! that it read.
ghost use Rattle.std.specs.Prelude.{◌≡◌};

use crate::lists::Receipts;

/// How a device's access through a DMA window ended.
#[derive(Clone, Copy, PartialEq, Eq, Debug)]
pub enum DeviceOutcome {
    /// The access is allowed, at this machine address.
    At(u64),
    /// The TCE of the page lacks the permission, or none is set.
    Denied,
    /// No window has this number, or the one that has it lacks the address.
    NoWindow,
    /// The access is allowed, but no single grant of ram holds the page of this logical address.
    Ungranted(u64),
}

impl DeviceOutcome {
    ghost use Rattle.entry_model.specs.Replies.{device_reply_with};

    /// The reply to an access that ended so and made these receipts.
    pub fn into_reply(self, receipts: Receipts) -> DeviceReply
        ensures { result ≡ device_reply_with self receipts }
    {
        DeviceReply {
            outcome: self,
            receipts,
        }
    }
}

/// The reply to a device's access: how it ended, and the receipt of the entry that it read.
#[derive(Drop)]
pub struct DeviceReply {
    /// Whether it was allowed, and where it landed or why it was refused.
    pub outcome: DeviceOutcome,
    /// One, or none where the address lies outside the window.
    pub receipts: Receipts,
}
