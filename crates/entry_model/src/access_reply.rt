//! How a processor's access is answered: its outcome, whether a cached translation or a walk found
//! the entry, and its receipts.
ghost use Rattle.std.specs.Prelude.{◌≡◌};

use crate::lists::Receipts;
use authority_mask::MaskName;

/// How an access of the processor ended.
#[derive(Clone, Copy, PartialEq, Eq, Debug)]
pub enum Outcome {
    /// The access is allowed, at this machine address.
    At(u64),
    /// The entry's protection refuses the access.
    Denied,
    /// The entry's protection allows the access, and this mask of the processor refuses it.
    Masked(MaskName),
    /// No entry translates the page.
    NoPage,
    /// No segment has the effective address.
    NoSegment,
    /// The access is allowed, but no grant holds this logical address.
    Ungranted(u64),
}

/// By what an access found its entry.
#[derive(Clone, Copy, PartialEq, Eq, Debug)]
pub enum By {
    /// A cached translation.
    Hit,
    /// A walk of the page's two groups.
    Walk,
}

/// How an access ended, and by what, where a segment was found. With the receipts of its operations
/// it is the access's reply.
#[derive(Clone, Copy, PartialEq, Eq, Debug)]
pub struct AccessEnd {
    /// Whether it was allowed, and where it landed or why it was refused.
    pub outcome: Outcome,
    /// By a cached translation or by a walk; `None` exactly if no segment was found.
    pub by: Option<By>,
}

impl AccessEnd {
    ghost use Rattle.entry_model.specs.Replies.{access_reply_with};

    /// The reply to an access that ended so and made these receipts.
    pub fn into_reply(self, receipts: Receipts) -> AccessReply
        ensures { result ≡ access_reply_with self receipts }
    {
        AccessReply {
            outcome: self.outcome,
            by: self.by,
            receipts,
        }
    }
}

/// The reply to an access: how it ended, by what, where a segment was found, and the receipts of
/// the operations that it made, in their order.
#[derive(Drop)]
pub struct AccessReply {
    /// Whether it was allowed, and where it landed or why it was refused.
    pub outcome: Outcome,
    /// By a cached translation or by a walk; `None` exactly if no segment was found.
    pub by: Option<By>,
    /// One of a hit, or one for each entry that a walk tried: at most sixteen.
    pub receipts: Receipts,
}
