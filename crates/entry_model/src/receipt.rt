//! The record that an operation leaves of its entry; by its type the answer is the one that the
//! table of operations gives for the state before.
ghost use Rattle.std.specs.Prelude.{◌≡◌};
ghost use Rattle.entry_model.specs.Reply.{reply_of};

use crate::operation::{Answer, Op};
use crate::state::EntryState;

/// One operation that was made on one entry: the state it found, and what it was answered.
#[derive(Clone, Copy, Debug)]
pub struct Receipt {
    // Fields lie in memory in this order: the wide ones first, so that no room is lost.
    /// The state that the operation found.
    pub before: EntryState,
    /// The operation.
    pub op: Op,
    /// The entry's index in its table.
    pub entry: u32,
    /// What the entry answered.
    pub answer: Answer,

    // The answer is the entry's own to this operation on that state.
    pub ghost lawful: { answer ≡ (reply_of before op).0 },
}
