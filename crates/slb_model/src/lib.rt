//! The segment lookaside buffer (SLB) of one processor: which segment an effective address lies in.
//!
//! Power ISA Book III, hashed page table translation: the guest fills the 32 slots by `slbmte`.
//!
//! Main contracts: `mte` refuses for three causes in their order; `segment` is by the lowest valid
//! slot that covers the address.
#![tactic(auto)]

mod error;
mod segment;
mod slb;
mod slot;

pub use error::BadSlb;
pub use segment::Segment;
pub use slb::{SLOT_NUMBER, SLOT_VALID, Slb};
pub use slot::Slot;
