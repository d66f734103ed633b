//! One page table entry by itself: its state, the operations on it, their answers and receipts, the
//! replies that are made of receipts, and the trait of all stores of entries.
//!
//! The operations are those of LoPAR's page frame table calls on one entry, and the access of a
//! processor by the entry's translation (Power ISA Book III, hashed page table translation and the
//! recording of references and changes). Receipts place each operation in its entry's history
//! (`specs/History.antt`).
//!
//! Main contracts: `reply` is the table of operations; `EntryStore` with its laws; laws of replies,
//! histories and fronts.
#![tactic(auto)]

mod access_reply;
mod accessing;
mod answering;
mod calls;
mod device_reply;
mod hreply;
mod laws;
mod line;
mod lists;
mod making;
mod operation;
mod receipt;
mod state;
mod store;

pub use access_reply::{AccessEnd, AccessReply, By, Outcome};
pub use answering::{entered, reply};
pub use calls::CallList;
pub use device_reply::{DeviceOutcome, DeviceReply};
pub use hreply::{HReply, Registers};
pub use laws::{
    accesses_only_raise_bits, decided_is_valid, empty_stays_empty, fronts_compose,
    fronts_never_fall, logged_histories_are_legal, masked_exactly_where, only_at_touches,
    others_ignore_bits, others_raise_stamps, places_compare_from_the_left,
    receipts_of_gone_lines_are_later, replies_stay_canonical, stamps_stay_low,
    still_accesses_stay_still, zero_masks_change_nothing,
};
pub use line::Line;
pub use lists::{Receipts, ReplyWords};
pub use making::make_trial;
pub use operation::{Answer, NO_TEST, Op, Test};
pub use receipt::Receipt;
pub use state::EntryState;
pub use store::EntryStore;
