//! A pass of the running table as one thread has it: with its share in the table, with the call or
//! the walk that was held up and its receipts so far, and as C holds it, by a pointer that no C
//! code reads.
//!
//! Main contracts: `Working::begin`, `again`, `begin_walk`, `walk_again`: the receipts made are
//! those of the call, which ends with the reply of the whole, or is kept with its receipts;
//! `split`, `join`, `state_at_rest`; `PaprPass` may go to another thread.
#![tactic(auto)]

mod crossing;
mod driving;
mod held;
mod parts;
mod pass;
mod pointer;
mod room;
mod sharer;
mod sharing;
mod so_far;
mod walk;
mod working;

pub use crossing::passes_cross;
pub use held::{HeldCall, Pending};
pub use pass::PaprPass;
pub use room::Room;
pub use sharer::Sharer;
pub use walk::PageWalk;
pub use working::Working;
