//! The reply to a line of a trace, what a dump shows of a table, and lists of replies in the order
//! of their lines.
//!
//! A hypervisor call is answered as LoPAR says, by a return code and the words of registers 4 to
//! 11; an access, of a processor or of a device, by the machine address that it reaches, or by the
//! cause for which it doesn't. All three carry the receipts of their operations on entries.
//!
//! Main contracts: `Replies::push` appends, and never fails within the capacity that was reserved;
//! `Shown::of_table`.
#![tactic(auto)]

mod replies;
mod reply;
mod shown;
mod slot;

pub use replies::Replies;
pub use reply::Reply;
pub use shown::{Shown, ShownStates};
pub use slot::{ReplyEnd, ReplySlot};
