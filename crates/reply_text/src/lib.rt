//! The texts of replies, byte for byte: a line for each reply, the lines of a dump, and the summary
//! of a drill.
//!
//! Main contracts: `put_reply`, `text_of`, `summary_of`, `summary_of_counts`: byte for byte.
#![tactic(auto)]

mod counted;
mod counts;
mod kind;
mod summary;
mod text;

pub use counts::Counts;
pub use summary::{summary_of, summary_of_counts};
pub use text::{REPLY_ROOM, put_entry, put_reply, put_slot, put_table, text_of};
