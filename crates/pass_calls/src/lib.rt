//! Hypervisor calls on a table that several threads share, by a pass and with no waiting. Where
//! another pass has the next entry, a call is held up: its caller keeps the plan and the receipts
//! so far, and makes the rest later.
//!
//! Main contracts: `try_plan`: at the end the reply of the whole call; else Busy of the plan's next
//! entry, for `entry_lock`'s causes and with the words of the last step, and never where the pass
//! has all shares.
#![tactic(auto)]

mod plans;
mod tried;
mod trying;

pub use plans::try_plan;
pub use tried::TriedStore;
pub use trying::try_calls;
