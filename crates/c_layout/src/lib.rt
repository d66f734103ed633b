//! What C and papr's libraries hand each other: receipts, replies, grants, accesses and what a walk
//! finds, as `repr(C)` structs, and what each of them says.
//!
//! Main contracts: `put_receipts`, `hand_over`, `PaprWalk::end`, `PaprGrants::machine_of`: each is
//! its definition.
#![tactic(auto)]

mod entry;
mod grants;
mod receipts;
mod reply;
mod rights;
mod stale;
mod tables;
mod walking;

pub use entry::{
    PaprEntry, changes_are_marked, hold_what_they_are_given, marks_stay, unmarked_are_unchanged,
};
pub use grants::{PaprGrant, PaprGrants};
pub use receipts::{PaprReceipt, put_receipt, put_receipts};
pub use reply::{PaprReply, filled_count, hand_over, put_word};
pub use rights::{READ, WRITE};
pub use stale::{any_stale, either_stale, ends_stale, is_stale};
pub use tables::is_table;
pub use walking::{NO_PAGE, PaprAccess, PaprWalk, want_of};
