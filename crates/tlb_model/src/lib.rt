//! The translation lookaside buffer (TLB) of one processor: which translations it has cached.
//!
//! The Power ISA leaves the form of the buffer to the implementation. This one has 32 sets of at
//! most four lines each, and pushes out the line that was filled first.
//!
//! Main contracts: `Tlb::find`, `fill`, `drop_line`: 32 sets of up to four lines, first in first
//! out.
#![tactic(auto)]

mod line_set;
mod tlb;

pub use tlb::Tlb;
